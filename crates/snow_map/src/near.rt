//! Entries that stand under their identifier's seat.
ghost use Rattle.std.specs.Prelude.{◌≡◌, ◌<◌, IfOk, OnOk, OnErr, Some, None, bytes_eq};
ghost use Rattle.std.specs.HashMap.{get, Updates, IsUnique, IsUnchanged};
ghost use Rattle.std.specs.Option.{option_copied, option_map};
ghost use Rattle.std.specs.Prelude.{nat_eq};
ghost use Rattle.snow_map.specs.Kept.Placed.{place_of, gives, is_own};
ghost use Rattle.snow_map.specs.Kept.Seats.{seat_of};

use snow_base::Id;
use std::alloc::AllocError;
use std::collections::HashMap;

/// Returns a number below 2^32 that tells most identifiers apart: the first four bytes, read with
/// the lowest first, plus the last four, read with the highest first, without the carry. So
/// identifiers that hold small numbers at either end don't share one.
/// Rule: this project's own.
pub fn seat_of(id: &Id) -> usize
    ensures seat { result ≡ seat_of id.now }
    ensures small { result < 4294967296 }
{
    let bytes = id.as_bytes();
    let first = u32::from_le_bytes([bytes[0], bytes[1], bytes[2], bytes[3]]);
    let last = u32::from_be_bytes([bytes[28], bytes[29], bytes[30], bytes[31]]);
    first.wrapping_add(last) as usize
}

/// Returns an identifier's seat among 65,536. As few as these, chosen ones can't share much in the
/// kit's map either.
pub(crate) fn place_of(id: &Id) -> u32
    ensures { result ≡ place_of id.now }
{
    (seat_of(id) % 65536) as u32
}

/// The value under an identifier's seat, where it is that identifier's.
pub(crate) fn value<'a, V: Drop>(near: &'a HashMap<u32, (Id, V)>, id: &Id) -> Option<&'a V>
    ensures { option_copied result ≡ gives (get nat_eq near.now (place_of id.now)) id.now }
{
    match near.get(&place_of(id)) {
        Some(entry) => { if *id == entry.0 { Some(&entry.1) } else { None } }
        None => None,
    }
}

/// Whether the entry under an identifier's seat is its own, and nothing where there is no entry.
pub(crate) fn is_mine<V: Drop>(near: &HashMap<u32, (Id, V)>, id: &Id) -> Option<bool>
    ensures { result ≡ option_map (λ e. bytes_eq id.now e.0) (get nat_eq near.now (place_of id.now)) }
{
    match near.get(&place_of(id)) {
        Some(entry) => Some(*id == entry.0),
        None => None,
    }
}

/// Whether there is an entry under an identifier's seat that is its own.
pub(crate) fn has<V: Drop>(near: &HashMap<u32, (Id, V)>, id: &Id) -> bool
    ensures { result ≡ is_own (get nat_eq near.now (place_of id.now)) id.now }
{
    match near.get(&place_of(id)) {
        Some(entry) => *id == entry.0,
        None => false,
    }
}

/// Puts an entry under its identifier's seat, and returns the value that was there.
pub(crate) fn put<V: Drop>(
    near: &mut HashMap<u32, (Id, V)>,
    id: Id,
    value: V,
) -> Result<Option<V>, AllocError>
    ensures before { IfOk result (λ before. before ≡ option_map (λ e. e.1) (get nat_eq near.old (place_of id))) }
    ensures updates { OnOk result (Updates nat_eq near.old near.new (place_of id) (Some (id, value))) }
    ensures unique { IsUnique nat_eq near.new }
    ensures err { OnErr result (IsUnchanged near.old near.new) }
    ensures absent { OnErr result (get nat_eq near.old (place_of id) ≡ None) }
{
    match near.insert(place_of(&id), (id, value))? {
        Some(before) => Ok(Some(before.1)),
        None => Ok(None),
    }
}

/// Takes the entry under an identifier's seat out.
pub(crate) fn take<V: Drop>(near: &mut HashMap<u32, (Id, V)>, id: &Id) -> Option<V>
    ensures value { result ≡ option_map (λ e. e.1) (get nat_eq near.old (place_of id.now)) }
    ensures updates { Updates nat_eq near.old near.new (place_of id.now) None }
    ensures unique { IsUnique nat_eq near.new }
{
    match near.remove(&place_of(id)) {
        Some(entry) => Some(entry.1),
        None => None,
    }
}
