//! Where the pending blocks stand, by their identifiers.
ghost use Rattle.std.specs.Prelude.{◌≡◌, ℕ, ◌+◌, ◌<◌, ◌≤◌, cond, List, length, reverse, Some, None, OnOk, bytes_eq};
ghost use Rattle.std.specs.HashMap.{get, hash_map_len, spare};
ghost use Rattle.snow_board.specs.Model.Board.{blocks_of};
ghost use Rattle.snow_board.specs.Kept.Grown.{IsGrown};
ghost use Rattle.snow_plain.specs.Kept.Places.{ArePlaces};

use crate::conflict::Conflict;
use snow_base::Id;
use snow_board::Pending;
use snow_map::IdHashing;
use std::alloc::{AllocError, Global};
use std::collections::HashMap;

/// The place of each pending block, by its identifier.
/// Rule: this project's own.
pub type Places = HashMap<Id, usize, IdHashing>;

/// Returns no places. It takes no memory.
/// Rule: this project's own.
pub fn no_places(alloc: Global) -> Places
    ensures places { (id : List ℕ) → get bytes_eq result id ≡ None }
    ensures entries { hash_map_len result ≡ 0 }
{
    HashMap::with_hasher(alloc, IdHashing::new())
}

/// Returns the place of a block, or `None` where it has none.
/// Rule: this project's own.
pub fn place_of(places: &Places, id: &Id) -> Option<usize>
    ensures { result ≡ get bytes_eq places.now id.now }
{
    places.get(id).copied()
}

/// Makes room for one more block. No place changes. On want of memory it returns `AllocError`.
/// Rule: this project's own.
pub fn reserve_one(places: &mut Places) -> Result<(), AllocError>
    ensures places { (id : List ℕ) → get bytes_eq places.new id ≡ get bytes_eq places.old id }
    ensures entries { hash_map_len places.new ≡ hash_map_len places.old }
    ensures room { OnOk result (0 < spare places.new) }
{
    places.reserve(1)
}

/// Lets each pending block have its place, and nothing else. It takes no memory.
/// Rule: this project's own.
pub fn place_all(places: &mut Places, pending: &[Pending<Conflict>])
    requires grown { (last : List ℕ) × IsGrown last (reverse (blocks_of pending.now)) }
    requires room { length pending.now ≤ hash_map_len places.old + spare places.old }
    ensures places { ArePlaces (get bytes_eq places.new) (blocks_of pending.now) }
    ensures entries { hash_map_len places.new ≡ length pending.now }
{
    places.clear();
    for at in (0..pending.len()).rev() {
        place(places, &pending[at].block.id, at);
    }
}

/// Adds the place of one more block, for which there is room. It takes no memory.
/// Rule: this project's own.
pub fn place(places: &mut Places, id: &Id, at: usize)
    requires new { get bytes_eq places.old id.now ≡ None }
    requires room { 0 < spare places.old }
    ensures places { (other : List ℕ) → get bytes_eq places.new other ≡ cond (bytes_eq id.now other) (Some at) (get bytes_eq places.old other) }
    ensures entries { hash_map_len places.new ≡ hash_map_len places.old + 1 }
    ensures room { spare places.old ≤ spare places.new + 1 }
{
    let added: Result<_, _> = places.insert(*id, at);
    let _ = added.unwrap();
}
