//! How entries take seats, and what the table has of those that gave theirs up.
ghost use Rattle.std.specs.Prelude.{◌≡◌, ◌==◌, ◌^◌, ◌<◌, ◌&&◌, not, bytes_eq, length};
ghost use Rattle.snow_recent.specs.Kept.Index.{id_of, IsRising, gives_way, seated, seat_of, number_at, HasNoSeated, without_oldest};

use crate::heads::Heads;
use crate::index;
use crate::recent::Named;
use crate::table::Table;
use snow_base::Id;
use std::collections::VecDeque;

// Whether the entry of a number has another identifier of the same seat.
fn gives_way<T: Named>(
    heads: &Heads,
    entries: &VecDeque<T>,
    first: u32,
    number: u32,
    id: &Id,
) -> bool
    ensures { result ≡ gives_way T.id entries.now.items first (length heads.now) number id.now }
{
    match index::entry_of(entries, first, number) {
        Some(entry) => is_other(heads, &entry.id(), id),
        None => false,
    }
}

// Whether these are two identifiers of one seat.
fn is_other(heads: &Heads, head: &Id, id: &Id) -> bool
    ensures { result ≡ (not (bytes_eq head.now id.now) && (seat_of (length heads.now) head.now == seat_of (length heads.now) id.now)) }
{
    head != id && heads.share(head, id)
}

/// Gives a seat to an identifier. It files the number that stands there in the table, if its entry
/// gives way.
pub(crate) fn take_seat<T: Named, const MOST: usize>(
    table: &mut Table<MOST>,
    heads: &Heads,
    entries: &VecDeque<T>,
    first: u32,
    id: &Id,
)
    requires order { IsRising (id_of T.id entries.now.items first) table.old }
    requires room { length table.old < MOST }
    ensures small { number_at heads.now id.now < 2 ^ 32 }
    ensures numbers { table.new ≡ seated T.id entries.now.items first heads.now table.old id.now }
{
    let number = heads.number(id);
    if gives_way(heads, entries, first, number, id) {
        table.file(entries, first, number);
    }
}

/// Takes the number of the oldest entry out of the table. It isn't there where the entry still has
/// its seat.
pub(crate) fn take_oldest_number<T: Named, const MOST: usize>(
    table: &mut Table<MOST>,
    heads: &Heads,
    entries: &VecDeque<T>,
    first: u32,
)
    requires order { IsRising (id_of T.id entries.now.items first) table.old }
    requires seat { HasNoSeated (id_of T.id entries.now.items first) heads.now first table.old }
    ensures { table.new ≡ without_oldest first table.old }
{
    let oldest = index::id_of(entries, first, first);
    if heads.number(&oldest) != first {
        table.take_oldest(entries, first);
    }
}
