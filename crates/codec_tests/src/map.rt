use snow_base::Id;
use snow_map::{IdMap, seat_of};
use std::alloc::{AllocError, Global};
use std::test::Fail;

// The identifier with this byte at a place. At place 8 all of them share a seat, at place 0 none does.
fn named(place: usize, number: u8) -> Id {
    let mut bytes = [0; 32];
    bytes[place % 32] = number;
    Id::from_bytes(bytes)
}

// Puts a value in, and tells the one before, or 0.
fn put(map: &mut IdMap<u8>, id: Id, value: u8) -> Result<u8, AllocError> {
    let before = map.insert(id, value)?;
    Ok(before.unwrap_or(0))
}

// Takes a value out, or 0.
fn take(map: &mut IdMap<u8>, id: &Id) -> u8 {
    map.remove(id).unwrap_or(0)
}

// The value of an identifier, or 0.
fn value(map: &IdMap<u8>, id: &Id) -> u8 {
    match map.get(id) {
        Some(value) => *value,
        None => 0,
    }
}

// Sixteen come, and every other one goes. Those that are left are added up.
fn sum_of_left(alloc: Global, place: usize) -> Result<u64, AllocError> {
    let mut map: IdMap<u8> = IdMap::new(alloc);
    let mut sum: u64 = 0;
    for number in 0..16 {
        put(&mut map, named(place, number), number)?;
    }
    for number in 0..8u8 {
        take(&mut map, &named(place, number.wrapping_mul(2)));
    }
    for number in 0..20 {
        sum = sum.wrapping_add(u64::from(value(&map, &named(place, number))));
    }
    drop(map);
    Ok(sum)
}

#[test]
fn every_other_one_is_left(rt: HostRuntime) -> Result<(), Fail> {
    assert_eq!(rt; sum_of_left(rt.alloc(), 0)?, 64);
    assert_eq!(rt; sum_of_left(rt.alloc(), 8)?, 64);
    Ok(())
}

// The values of the three twins, each of which is a bit of its own.
fn twins(map: &IdMap<u8>) -> u8 {
    value(map, &named(8, 1)) | value(map, &named(8, 2)) | value(map, &named(8, 4))
}

// A twin comes, or gets its value anew. Twice the value that it had is told, or 0.
fn twin_comes(map: &mut IdMap<u8>, number: u8) -> Result<u8, AllocError> {
    let before = put(map, named(8, number), number)?;
    Ok(before.wrapping_mul(2))
}

// A twin goes, if it is there: which values are left.
fn twin_goes(map: &mut IdMap<u8>, number: u8) -> u8 {
    take(map, &named(8, number));
    twins(map)
}

// Three twins come, so that one stands under the seat and two in the order. One goes, another gets its
// value anew and goes, and goes once more. The first one comes again; the last one goes, and then that
// one.
fn come_and_go(map: &mut IdMap<u8>, order: [u8; 3]) -> Result<[u8; 7], AllocError> {
    twin_comes(map, 1)?;
    twin_comes(map, 2)?;
    twin_comes(map, 4)?;
    let first = twin_goes(map, order[0]);
    let anew = twin_comes(map, order[1])?;
    let second = twin_goes(map, order[1]);
    let none = twin_goes(map, order[1]);
    twin_comes(map, order[0])?;
    let again = twins(map);
    let third = twin_goes(map, order[2]);
    Ok([
        first,
        anew,
        second,
        none,
        again,
        third,
        twin_goes(map, order[0]),
    ])
}

// They do so in each order.
fn in_each_order(alloc: Global) -> Result<[[u8; 7]; 6], AllocError> {
    let mut map: IdMap<u8> = IdMap::new(alloc);
    let a = come_and_go(&mut map, [1, 2, 4])?;
    let b = come_and_go(&mut map, [1, 4, 2])?;
    let c = come_and_go(&mut map, [2, 1, 4])?;
    let d = come_and_go(&mut map, [2, 4, 1])?;
    let e = come_and_go(&mut map, [4, 1, 2])?;
    let f = come_and_go(&mut map, [4, 2, 1])?;
    drop(map);
    Ok([a, b, c, d, e, f])
}

const LEFT_IN_EACH_ORDER: [[u8; 7]; 6] = [
    [6, 4, 4, 4, 5, 1, 0],
    [6, 8, 2, 2, 3, 1, 0],
    [5, 2, 4, 4, 6, 2, 0],
    [5, 8, 1, 1, 3, 2, 0],
    [3, 2, 2, 2, 6, 4, 0],
    [3, 4, 1, 1, 5, 4, 0],
];

#[test]
fn three_that_share_a_seat_come_and_go_in_each_order(rt: HostRuntime) -> Result<(), Fail> {
    assert_eq!(rt; in_each_order(rt.alloc())?, LEFT_IN_EACH_ORDER);
    Ok(())
}

// The seat of an identifier with these four bytes in front, these four at its end, and others between.
fn seat(first: [u8; 4], last: [u8; 4]) -> usize {
    let mut bytes = [7; 32];
    bytes[0] = first[0];
    bytes[1] = first[1];
    bytes[2] = first[2];
    bytes[3] = first[3];
    bytes[28] = last[0];
    bytes[29] = last[1];
    bytes[30] = last[2];
    bytes[31] = last[3];
    seat_of(&Id::from_bytes(bytes))
}

// Whether an identifier has a value before it comes, then, and once it went.
fn has(alloc: Global) -> Result<[bool; 3], AllocError> {
    let mut map: IdMap<u8> = IdMap::new(alloc);
    let id = named(0, 3);
    let before = map.contains_key(&id);
    put(&mut map, id, 0)?;
    let then = map.contains_key(&id);
    take(&mut map, &id);
    let later = map.contains_key(&id);
    drop(map);
    Ok([before, then, later])
}

#[test]
fn a_value_is_there_until_it_is_taken_out(rt: HostRuntime) -> Result<(), Fail> {
    assert_eq!(rt; has(rt.alloc())?, [false, true, false]);
    Ok(())
}

// The four first bytes are a number whose lowest byte is the first, the four last one whose lowest is the
// last: 67,305,985 and 84,281,096; and 2^32-1 and 2.
#[test]
fn a_seat_is_told_by_both_ends(rt: HostRuntime) -> Result<(), Fail> {
    assert_eq!(rt; seat([1, 2, 3, 4], [5, 6, 7, 8]), 151_587_081);
    assert_eq!(rt; seat([255, 255, 255, 255], [0, 0, 0, 2]), 1);
    Ok(())
}
