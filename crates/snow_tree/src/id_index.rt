//! The numbers of a row's entries, by their identifiers.
ghost use Rattle.std.specs.Prelude.{◌≡◌, ◌<◌, ◌≤◌, ℕ, List, [], None, Some, OnOk, cond, length, slice_set, bytes_eq};
ghost use Rattle.std.specs.HashMap.{get, spare};
ghost use Rattle.snow_tree.specs.Kept.Hints.{slot_of, hint_of};
ghost use Rattle.snow_tree.specs.Kept.Row.{AreInOrder, edges_of, untold, gives_way};

use crate::hints::Hints;
use crate::node::Entries;
use crate::placing::place_of_number;
use snow_base::Id;
use snow_map::IdHashing;
use std::alloc::{AllocError, Global};
use std::collections::HashMap;

/// The slots of `Hints` tell most of them. The map has just the others, whose slot tells a later
/// entry of another identifier. So a block that comes and goes mostly leaves the map alone.
#[derive(Debug, Drop)]
pub(crate) struct IdIndex {
    pub(crate) map: HashMap<Id, usize, IdHashing>,
    pub(crate) hints: Hints,
}

impl IdIndex {
    /// Returns no number. It takes no memory.
    pub(crate) fn new(alloc: Global) -> Self
        ensures map { (id : List ℕ) → get bytes_eq result.map id ≡ None }
        ensures hints { result.hints ≡ [] }
    {
        IdIndex {
            map: HashMap::with_hasher(alloc, IdHashing::new()),
            hints: Hints::new(alloc),
        }
    }

    /// Makes room for one more entry than so many. No number changes, and each slot tells what it
    /// told.
    pub(crate) fn reserve_one(&mut self, entries: usize) -> Result<(), AllocError>
        ensures map { (id : List ℕ) → get bytes_eq self.new.map id ≡ get bytes_eq self.old.map id }
        ensures told { (id : List ℕ) → hint_of self.new.hints id ≡ hint_of self.old.hints id }
        ensures more { length self.old.hints ≤ length self.new.hints }
        ensures slots { OnOk result (0 < length self.new.hints) }
        ensures room { OnOk result (0 < spare self.new.map) }
    {
        self.hints.make_room(entries)?;
        self.map.reserve(1)
    }

    /// Returns the number in an identifier's slot. The caller compares identifiers.
    pub(crate) fn told(&self, id: &Id) -> usize
        ensures { result ≡ hint_of self.now.hints id.now }
    {
        self.hints.number(id)
    }

    /// Returns the number of an identifier whose slot tells another.
    pub(crate) fn look_up(&self, id: &Id) -> Option<usize>
        ensures { result ≡ get bytes_eq self.now.map id.now }
    {
        // Often all are told.
        if self.map.is_empty() {
            return None;
        }
        self.map.get(id).copied()
    }

    /// Puts the number of a new identifier into its slot. An entry that had its own number there
    /// goes to the map.
    pub(crate) fn take_slot<T>(&mut self, entries: &Entries<T>, id: &Id, number: usize)
        requires slots { 0 < length self.old.hints }
        requires room { 0 < spare self.old.map }
        requires order { AreInOrder (edges_of entries.now.items) }
        ensures map { let told = hint_of self.old.hints id.now in
            (q : List ℕ) → get bytes_eq self.new.map q ≡ cond (gives_way self.old.hints (edges_of entries.now.items) told id.now q) (Some told) (get bytes_eq self.old.map q) }
        ensures hints { self.new.hints ≡ slice_set self.old.hints (slot_of (length self.old.hints) id.now) number }
    {
        self.make_way(entries, id);
        self.hints.set(id, number);
    }

    // The entry that was told its number where an identifier is, too, has it in the map from now on.
    fn make_way<T>(&mut self, entries: &Entries<T>, id: &Id)
        requires slots { 0 < length self.old.hints }
        requires room { 0 < spare self.old.map }
        requires order { AreInOrder (edges_of entries.now.items) }
        ensures map { let told = hint_of self.old.hints id.now in
            (q : List ℕ) → get bytes_eq self.new.map q ≡ cond (gives_way self.old.hints (edges_of entries.now.items) told id.now q) (Some told) (get bytes_eq self.old.map q) }
        ensures hints { self.new.hints ≡ self.old.hints }
    {
        let told = self.hints.number(id);
        if let Some(place) = place_of_number(entries, entries.len(), told) {
            let other = &entries[place].0;
            if self.hints.share(other, id) {
                self.keep(other, told);
            }
        }
    }

    // Puts a number into the map, which has room.
    fn keep(&mut self, id: &Id, number: usize)
        requires { 0 < spare self.old.map }
        ensures map { (q : List ℕ) → get bytes_eq self.new.map q ≡ cond (bytes_eq id.now q) (Some number) (get bytes_eq self.old.map q) }
        ensures hints { self.new.hints ≡ self.old.hints }
    {
        let added: Result<_, _> = self.map.insert(*id, number);
        let _ = added.unwrap();
    }

    /// Takes the number of an entry out that leaves.
    pub(crate) fn forget(&mut self, id: &Id, number: usize)
        requires { get bytes_eq self.old.map id.now ≡ untold (hint_of self.old.hints id.now) (Some number) }
        ensures map { (q : List ℕ) → get bytes_eq self.new.map q ≡ cond (bytes_eq id.now q) None (get bytes_eq self.old.map q) }
        ensures hints { self.new.hints ≡ self.old.hints }
    {
        if self.hints.number(id) != number {
            self.remove(id);
        }
    }

    // Takes a number out of the map.
    fn remove(&mut self, id: &Id)
        ensures map { (q : List ℕ) → get bytes_eq self.new.map q ≡ cond (bytes_eq id.now q) None (get bytes_eq self.old.map q) }
        ensures hints { self.new.hints ≡ self.old.hints }
    {
        let _number = self.map.remove(id);
    }
}
