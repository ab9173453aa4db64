use snow_base::Id;
use snow_recent::{Named, Recent};
use std::alloc::{AllocError, Global};
use std::test::Fail;

// An entry with its identifier, and what tells it from others of the same.
#[derive(Drop)]
struct Marked {
    id: Id,
    mark: u8,
}

impl Named for Marked {
    ghost id = { λ e. e.id };

    fn id(&self) -> Id {
        self.id
    }
}

// The identifier that begins with this byte.
fn named(number: u8) -> Id {
    let mut bytes = [7; 32];
    bytes[0] = number;
    Id::from_bytes(bytes)
}

fn enter(recent: &mut Recent<Marked, 3>, number: u8, mark: u8) {
    let id = named(number);
    recent.push(Marked { id, mark });
}

// The mark of the latest entry of an identifier, or 0.
fn latest(recent: &Recent<Marked, 3>, number: u8) -> u8 {
    match recent.latest(&named(number)) {
        Some(entry) => entry.mark,
        None => 0,
    }
}

// The mark of the entry that came last, or 0.
fn newest(recent: &Recent<Marked, 3>) -> u8 {
    match recent.newest() {
        Some(entry) => entry.mark,
        None => 0,
    }
}

// The mark of the entry that is given back for one more, or 0.
fn exchange(recent: &mut Recent<Marked, 3>, number: u8, mark: u8) -> u8 {
    let id = named(number);
    match recent.exchange(Marked { id, mark }) {
        Some(entry) => entry.mark,
        None => 0,
    }
}

// What is told of the last three entries, before there are more and then.
fn told(recent: &mut Recent<Marked, 3>) -> [u8; 8] {
    enter(recent, 5, 1);
    enter(recent, 4, 2);
    let before_three = exchange(recent, 5, 3);
    let of_three = (latest(recent, 5), latest(recent, 4));
    enter(recent, 6, 4);
    enter(recent, 7, 5);
    [
        of_three.0,
        of_three.1,
        latest(recent, 5),
        latest(recent, 4),
        newest(recent),
        recent.len() as u8,
        before_three,
        exchange(recent, 8, 6),
    ]
}

// The list is let go by a call: that is many steps, which are proved once then.
fn told_from_new(alloc: Global) -> Result<[u8; 8], AllocError> {
    let mut recent = Recent::new(alloc)?;
    let told = told(&mut recent);
    drop(recent);
    Ok(told)
}

#[test]
fn the_latest_entry_of_an_identifier_counts(rt: HostRuntime) -> Result<(), Fail> {
    assert_eq!(rt; told_from_new(rt.alloc())?, [3, 2, 3, 0, 5, 3, 0, 3]);
    Ok(())
}
