//! A map by identifier that costs a bounded number of steps whatever the identifiers are.
ghost use Rattle.std.specs.Prelude.{◌≡◌, [], ◌∷◌, None, Some, IsSome, IsOk, IfOk, OnOk, OnErr, is_some, bytes_eq};
ghost use Rattle.std.specs.List.{IsDistinct};
ghost use Rattle.std.specs.List.Sorted.{IsPermutation};
ghost use Rattle.std.specs.Map.{keys_of, remove_entry};
ghost use Rattle.std.specs.Option.{option_copied};
ghost use Rattle.snow_map.specs.Clauses.Entries.{value_of, HasAt};
ghost use Rattle.snow_map.specs.Kept.Placed.{is_far};

use crate::far::Far;
use crate::near;
use snow_base::Id;
use std::alloc::{AllocError, Global};
use std::collections::HashMap;
use std::hash::{BuildHasherDefault, DefaultHasher};
use std::marker::Model;

/// The hash by which tables whose room is made beforehand find the identifiers of blocks:
/// SipHash-1-3 under keys of zero. The kit's own default multiplies by a number that everybody
/// knows, so a sender can write down identifiers of one hash. Of this one a sender has to search
/// for them. What can't bear such a search stands in ordered tables.
/// Rule: this project's own.
pub type IdHashing = BuildHasherDefault<DefaultHasher>;

/// Values by identifier, at most one for each. Contracts see the entries, in no order that they
/// tell.
///
/// An entry stands under its identifier's seat, one of 65,536. Where another identifier has that
/// seat, it stands beside it, in order of identifiers. So a look-up takes a step or two for most
/// identifiers, and a search in order only among those that a sender chose to share a seat.
/// Rule: this project's own.
#[derive(Drop)]
pub struct IdMap<V> {
    near: HashMap<u32, (Id, V)>,
    far: Far<V>,
}

impl<V> Model for IdMap<V> {
    ghost use Rattle.std.specs.Prelude.{ℕ, List};
    ghost use Rattle.snow_map.specs.Kept.Placed.{IsKept, entries_of};

    ghost Value = { List (List ℕ × V) };

    ghost view = { λ a. entries_of a.near.entries a.far };

    ghost invariant = { λ a. IsKept a.near.entries a.far };
}

impl<V: Drop> IdMap<V> {
    /// Returns the empty map. It takes no memory.
    /// Rule: this project's own.
    pub fn new(alloc: Global) -> Self
        ensures { result ≡ [] }
    {
        IdMap {
            near: HashMap::new(alloc),
            far: Far::new(alloc),
        }
    }

    /// Returns the value at an identifier, or `None` exactly where there is none. No identifier
    /// stands twice.
    /// Rule: this project's own.
    pub fn get(&self, id: &Id) -> Option<&V>
        ensures value { option_copied result ≡ value_of self.now id.now }
        ensures unique { IsDistinct bytes_eq (keys_of self.now) }
    {
        match near::value(&self.near, id) {
            Some(value) => Some(value),
            None => self.far.value(id),
        }
    }

    /// Returns whether there is a value at an identifier.
    /// Rule: this project's own.
    pub fn contains_key(&self, id: &Id) -> bool
        ensures { result ≡ is_some (value_of self.now id.now) }
    {
        self.get(id).is_some()
    }

    /// Puts a value at an identifier, and returns the one that was there, or `None` where there was
    /// none. All other entries stay. Where there was a value the call takes no memory and can't
    /// fail. On want of memory it returns `AllocError`, and the map stays as it was.
    /// Rule: this project's own.
    pub fn insert(&mut self, id: Id, value: V) -> Result<Option<V>, AllocError>
        ensures before { IfOk result (λ before. before ≡ value_of self.old id) }
        ensures updates { OnOk result (HasAt self.old self.new id (Some value)) }
        ensures added { OnOk result (value_of self.old id ≡ None → IsPermutation ((id, value) ∷ self.old) self.new) }
        ensures err { OnErr result (self.new ≡ self.old) }
        ensures succeeds { IsSome (value_of self.old id) → IsOk result }
    {
        if is_far(&self.near, &self.far, &id) {
            self.far.put(id, value)
        } else {
            near::put(&mut self.near, id, value)
        }
    }

    /// Takes the value at an identifier out and returns it, or `None` exactly where there is none.
    /// All other entries stay. It takes no memory.
    /// Rule: this project's own.
    pub fn remove(&mut self, id: &Id) -> Option<V>
        ensures value { result ≡ value_of self.old id.now }
        ensures updates { HasAt self.old self.new id.now None }
        ensures left { IsPermutation (remove_entry (bytes_eq id.now) self.old) self.new }
    {
        if near::has(&self.near, id) {
            near::take(&mut self.near, id)
        } else {
            self.far.take(id)
        }
    }
}

// Whether an identifier's entry belongs in the order: another has its seat, or it stands there.
fn is_far<V: Drop>(near: &HashMap<u32, (Id, V)>, far: &Far<V>, id: &Id) -> bool
    ensures { result ≡ is_far near.now.entries far.now id.now }
{
    match near::is_mine(near, id) {
        Some(is_mine) => !is_mine,
        None => far.value(id).is_some(),
    }
}
