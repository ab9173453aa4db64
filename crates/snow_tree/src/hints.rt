//! A table that tells an identifier's number from its slot.
ghost use Rattle.std.specs.Prelude.{◌≡◌, ◌==◌, ◌<◌, ◌≤◌, ℕ, List, [], length, slice_set, OnOk};
ghost use Rattle.snow_tree.specs.Kept.Hints.{slot_of, hint_of};

use snow_base::Id;
use snow_map::seat_of;
use std::alloc::{AllocError, Global};
use std::marker::Model;

// There are no more slots than these: that is eight for each of 4,096 blocks, and 256 KB.
const MOST_SLOTS: usize = 1 << 15;

/// Maps each slot to the number of the entry that was put there last; all identifiers of the slot
/// share it. Contracts see the numbers.
#[derive(Debug, Drop)]
pub(crate) struct Hints {
    numbers: Vec<usize>,
}

impl Model for Hints {
    ghost use Rattle.std.specs.Prelude.{ℕ, List, length};
    ghost use Rattle.snow_tree.specs.Kept.Hints.{AreSlots};

    ghost Value = { List ℕ };

    ghost view = { λ a. a.numbers.items };

    ghost invariant = { λ a. AreSlots (length a.numbers.items) };
}

impl Hints {
    /// Returns no slot. It takes no memory.
    pub(crate) fn new(alloc: Global) -> Self
        ensures { result ≡ [] }
    {
        Hints {
            numbers: Vec::new(alloc),
        }
    }

    /// Makes slots for one more entry than so many: eight for each, so that few entries share
    /// one. Each identifier has the number that it had.
    pub(crate) fn make_room(&mut self, entries: usize) -> Result<(), AllocError>
        ensures told { (id : List ℕ) → hint_of self.new id ≡ hint_of self.old id }
        ensures some { OnOk result (0 < length self.new) }
        ensures more { length self.old ≤ length self.new }
    {
        let slots = self.numbers.len();
        if entries < slots / 8 || slots >= MOST_SLOTS {
            return Ok(());
        }
        self.make_slots()
    }

    // Makes the first slots, or as many again as there are.
    fn make_slots(&mut self) -> Result<(), AllocError>
        ensures told { (id : List ℕ) → hint_of self.new id ≡ hint_of self.old id }
        ensures some { OnOk result (0 < length self.new) }
        ensures more { length self.old ≤ length self.new }
    {
        let slots = self.numbers.len();
        if slots == 0 {
            return self.numbers.resize(64, 0);
        }
        self.numbers.extend_from_within(..)
    }

    /// Returns the number in an identifier's slot.
    pub(crate) fn number(&self, id: &Id) -> usize
        ensures { result ≡ hint_of self.now id.now }
    {
        self.numbers.get(self.slot_of(id)).copied().unwrap_or(0)
    }

    /// Puts a number into an identifier's slot. All identifiers that share it have that number
    /// then.
    pub(crate) fn set(&mut self, id: &Id, number: usize)
        requires { 0 < length self.old }
        ensures { self.new ≡ slice_set self.old (slot_of (length self.old) id.now) number }
    {
        let slot = self.slot_of(id);
        self.numbers[slot] = number;
    }

    /// Returns whether two identifiers share a slot.
    pub(crate) fn share(&self, id: &Id, other: &Id) -> bool
        requires { 0 < length self.now }
        ensures { result ≡ (slot_of (length self.now) id.now == slot_of (length self.now) other.now) }
    {
        self.slot_of(id) == self.slot_of(other)
    }

    // The slot of an identifier. Their number is a power of two; where there is none it is one past the last.
    fn slot_of(&self, id: &Id) -> usize
        ensures slot { 0 < length self.now → result ≡ slot_of (length self.now) id.now }
        ensures there { 0 < length self.now → result < length self.now }
    {
        seat_of(id) & self.numbers.len().wrapping_sub(1)
    }
}
