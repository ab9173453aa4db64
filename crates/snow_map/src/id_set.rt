//! Identifiers in the order in which they came.
ghost use Rattle.std.specs.Prelude.{◌≡◌, ℕ, [], ◌∷◌, ◌++◌, not, length, IfOk, OnOk, OnErr, bytes_eq, if◌then◌else◌};
ghost use Rattle.std.specs.List.{IsDistinct, list_any, position};

use crate::id_map::IdMap;
use snow_base::Id;
use std::alloc::{AllocError, Global};
use std::marker::Model;

/// Identifiers, each once, in the order in which they came. Contracts see the list. An identifier is
/// found as in a map.
/// Rule: this project's own.
#[derive(Drop)]
pub struct IdSet {
    ids: Vec<Id>,
    places: IdMap<usize>,
}

impl Model for IdSet {
    ghost use Rattle.std.specs.Prelude.{ℕ, List};
    ghost use Rattle.snow_map.specs.Kept.Listed.{IsListed};

    ghost Value = { List (List ℕ) };

    ghost view = { λ a. a.ids.items };

    ghost invariant = { λ a. IsListed a.ids.items a.places };
}

impl IdSet {
    /// Returns no identifier. It takes no memory.
    /// Rule: this project's own.
    pub fn new(alloc: Global) -> Self
        ensures { result ≡ [] }
    {
        IdSet {
            ids: Vec::new(alloc),
            places: IdMap::new(alloc),
        }
    }

    /// Returns the identifiers in the order in which they came. None stands twice.
    /// Rule: this project's own.
    pub fn as_slice(&self) -> &[Id]
        ensures list { result.now ≡ self.now }
        ensures unique { IsDistinct bytes_eq result.now }
    {
        self.ids.as_slice()
    }

    /// Returns the place of an identifier, or `None` exactly where it isn't there.
    /// Rule: this project's own.
    pub fn place_of(&self, id: &Id) -> Option<usize>
        ensures { result ≡ position (bytes_eq id.now) self.now }
    {
        self.places.get(id).copied()
    }

    /// Returns whether an identifier is there.
    /// Rule: this project's own.
    pub fn contains(&self, id: &Id) -> bool
        ensures { result ≡ list_any (bytes_eq id.now) self.now }
    {
        self.places.contains_key(id)
    }

    /// Puts an identifier behind the others, and returns `true`. Where it is there already it
    /// returns `false`, and all stays as it was. On want of memory it returns `AllocError`, and all
    /// stays as it was too.
    /// Rule: this project's own.
    pub fn insert(&mut self, id: Id) -> Result<bool, AllocError>
        ensures is_new { IfOk result (λ is_new. is_new ≡ not (list_any (bytes_eq id) self.old)) }
        ensures ids { OnOk result (self.new ≡ (if list_any (bytes_eq id) self.old then self.old else self.old ++ id ∷ [])) }
        ensures err { OnErr result (self.new ≡ self.old) }
    {
        if self.places.contains_key(&id) {
            return Ok(false);
        }
        self.ids.reserve(1)?;
        self.places.insert(id, self.ids.len())?;
        self.ids.push_reserved(id);
        Ok(true)
    }
}
