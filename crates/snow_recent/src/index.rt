//! Where the latest entry of an identifier stands: numbers in the order of identifiers, one for
//! each. They rise by one from entry to entry, and go on from 0 after 2^32-1, so forgetting an
//! entry changes none.
ghost use Rattle.std.specs.Prelude.{◌≡◌, ◌==◌, ◌-◌, ◌≤◌, ◌||◌, length};
ghost use Rattle.std.specs.List.{slice_get};
ghost use Rattle.std.specs.Option.{option_copied};
ghost use Rattle.std.specs.Ordering.{is_lt};
ghost use Rattle.snow_recent.specs.Kept.Index.{place_of, id_of, IsRising, IsPlaceOf, order_at};

use crate::recent::Named;
use snow_base::Id;
use std::cmp::Ordering;
use std::collections::VecDeque;

// The entry at a place.
pub(crate) fn entry_at<T>(entries: &VecDeque<T>, place: usize) -> Option<&T>
    ensures { option_copied result ≡ slice_get entries.now.items place }
{
    entries.get(place)
}

// The entry of a number.
pub(crate) fn entry_of<T>(entries: &VecDeque<T>, first: u32, number: u32) -> Option<&T>
    ensures { option_copied result ≡ slice_get entries.now.items (place_of first number) }
{
    entry_at(entries, number.wrapping_sub(first) as usize)
}

// The identifier of the entry of a number, and zeros where there is none.
pub(crate) fn id_of<T: Named>(entries: &VecDeque<T>, first: u32, number: u32) -> Id
    ensures { result ≡ id_of T.id entries.now.items first number }
{
    match entry_of(entries, first, number) {
        Some(entry) => entry.id(),
        None => Id::from_bytes([0; 32]),
    }
}

// The first bytes of an identifier, which mostly tell it from all others. Numbers are looked for by
// them first. What stands there is then compared as a whole, so they need tell nothing.
pub(crate) fn key_of(id: &Id) -> u32 {
    let bytes = id.as_bytes();
    u32::from_be_bytes([bytes[0], bytes[1], bytes[2], bytes[3]])
}

// Where the number of an identifier's latest entry stands, or else where it belongs. It is looked
// for at a likely place first.
pub(crate) fn place<T: Named>(
    entries: &VecDeque<T>,
    first: u32,
    order: &[u32],
    likely: usize,
    id: &Id,
) -> Result<usize, usize>
    requires { IsRising (id_of T.id entries.now.items first) order.now }
    ensures { IsPlaceOf (id_of T.id entries.now.items first) order.now id.now result }
{
    let at = likely.min(order.len());
    let found = order_at(entries, first, order, at, id);
    if found.is_eq() {
        return Ok(at);
    }
    if found.is_gt() && is_behind(entries, first, order, at, id) {
        return Err(at);
    }
    order.binary_search_by(|number| id_of(entries, first, *number).cmp(id))
}

// How the identifier of the number at a place stands to this one; the end stands behind all.
pub(crate) fn order_at<T: Named>(
    entries: &VecDeque<T>,
    first: u32,
    order: &[u32],
    at: usize,
    id: &Id,
) -> Ordering
    ensures { result ≡ order_at (id_of T.id entries.now.items first) order.now at id.now }
{
    match order.get(at) {
        Some(number) => id_of(entries, first, *number).cmp(id),
        None => Ordering::Greater,
    }
}

// Whether the number before a place, if there is one, has a lower identifier than this one.
fn is_behind<T: Named>(entries: &VecDeque<T>, first: u32, order: &[u32], at: usize, id: &Id) -> bool
    requires { at ≤ length order.now }
    ensures { result ≡ (at == 0 || is_lt (order_at (id_of T.id entries.now.items first) order.now (at - 1) id.now)) }
{
    at == 0 || order_at(entries, first, order, at - 1, id).is_lt()
}
