ghost use Rattle.std.specs.Prelude.{◌≡◌, ℕ, List, ◌+◌, ◌-◌, ◌<◌, ◌≤◌, ◌^◌, ◌↔◌, ◌∷◌, ◌++◌, [], None, Some, IsSome, false, length, slice_get, bytes_eq, vec_len, vec_capacity, option_to_list, OnOk};
ghost use Rattle.std.specs.List.{AllByRecursion, IsDistinct, position, remove};
ghost use Rattle.std.specs.Map.{keys_of, values_of, lookup};
ghost use Rattle.std.specs.Option.{option_map, option_copied, option_copied_mut};
ghost use Rattle.snow_tree.specs.declared.node.Node.{Node};
ghost use Rattle.snow_tree.specs.Kept.Row.{AreInOrder, IsFront, IsOwn, edges_of, number_at, staying, leaving};

use crate::children::Children;
use crate::id_index::IdIndex;
use crate::node::{Entries, Node};
use crate::placing::{number_of, place_of_id, place_of_number};
use crate::sweeping::sweep;
use snow_base::Id;
use std::alloc::{AllocError, Global};
use std::collections::VecDeque;
use std::marker::Model;

/// Nodes in order of issue, each found by its identifier, by its number and by its place. A number
/// never changes, so where others leave, the row looks nothing up for those that stay.
#[derive(Debug, Drop)]
pub(crate) struct Row<T> {
    entries: Entries<T>,
    numbers: IdIndex,
    next: usize,
}

impl<T> Model for Row<T> {
    ghost use Rattle.std.specs.Prelude.{◌-◌, ◌^◌, min, length, bytes_eq};
    ghost use Rattle.std.specs.HashMap.{get, spare};
    ghost use Rattle.std.specs.VecDeque.{deque_len, deque_capacity};
    ghost use Rattle.snow_tree.specs.Kept.Row.{Lined, IsNumbered, edges_of};

    ghost Value = { Lined T };

    // There is no room where there are no slots, nor behind the last number.
    ghost view = { λ a. record {
      entries = a.entries.items;
      spare = min (2 ^ 64 - 1 - a.next) (min (length a.numbers.hints) (min (spare a.numbers.map) (deque_capacity a.entries - deque_len a.entries)));
      next = a.next;
    } };

    ghost invariant = { λ a. IsNumbered (edges_of a.entries.items) (get bytes_eq a.numbers.map) a.numbers.hints a.next };
}

impl<T> Row<T> {
    ghost use Rattle.std.specs.Borrow.{sem};
    ghost use Rattle.snow_tree.specs.Clauses.Lent.{lends_children_at, lends_load_at};

    /// Returns no node. It takes no memory.
    pub(crate) fn new(alloc: Global) -> Self
        ensures { result.entries ≡ [] }
    {
        Row {
            entries: VecDeque::new(alloc),
            numbers: IdIndex::new(alloc),
            next: 1,
        }
    }

    /// Returns how many nodes there are. No identifier stands twice.
    pub(crate) fn len(&self) -> usize
        ensures len { result ≡ length self.now.entries }
        ensures small { result < 2 ^ 63 }
        ensures unique { IsDistinct bytes_eq (keys_of self.now.entries) }
        ensures order { AreInOrder (edges_of self.now.entries) }
        ensures own { AllByRecursion (IsOwn self.now.next) (edges_of self.now.entries) }
    {
        self.entries.len()
    }

    /// Returns the place of an identifier.
    pub(crate) fn get_index_of(&self, id: &Id) -> Option<usize>
        ensures index { result ≡ position (bytes_eq id.now) (keys_of self.now.entries) }
        ensures unique { IsDistinct bytes_eq (keys_of self.now.entries) }
    {
        place_of_id(&self.entries, &self.numbers, id)
    }

    /// Returns the place of the parent of the node at a place. It looks no identifier up.
    pub(crate) fn parent_of(&self, place: usize) -> Option<usize>
        ensures { (e : List ℕ × Node T) → slice_get self.now.entries place ≡ Some e → result ≡ position (λ x. bytes_eq x.0 e.1.parent) self.now.entries }
    {
        match self.entries.get(place) {
            Some(entry) => place_of_number(&self.entries, self.entries.len(), entry.1.up),
            None => None,
        }
    }

    /// Returns the identifier and the node at a place.
    pub(crate) fn get_index(&self, place: usize) -> Option<(&Id, &Node<T>)>
        ensures { option_map (λ e. (e.0.now, e.1.now)) result ≡ slice_get self.now.entries place }
    {
        match self.entries.get(place) {
            Some(entry) => Some((&entry.0, &entry.1)),
            None => None,
        }
    }

    /// Returns the node of an identifier.
    pub(crate) fn get(&self, id: &Id) -> Option<&Node<T>>
        ensures value { option_copied result ≡ lookup (bytes_eq id.now) self.now.entries }
    {
        let place = place_of_id(&self.entries, &self.numbers, id)?;
        match self.entries.get(place) {
            Some(entry) => Some(&entry.1),
            None => None,
        }
    }

    /// Returns the load at a place, to write.
    pub(crate) fn load_mut(&mut self, place: usize) -> Option<&mut T>
        ensures* writes_back { sem 𝓛 (lends_load_at T.row self.entry place result) }
        ensures value { option_copied_mut result ≡ option_map (λ n. n.load) (slice_get (values_of self.old.entries) place) }
    {
        match self.entries.get_mut(place) {
            Some(entry) => Some(&mut entry.1.load),
            None => None,
        }
    }

    /// Returns the children of the node at a place, to write.
    pub(crate) fn children_mut(&mut self, place: usize) -> Option<&mut Children>
        ensures* writes_back { sem 𝓛 (lends_children_at T.row self.entry place result) }
        ensures value { option_copied_mut result ≡ option_map (λ n. n.children) (slice_get (values_of self.old.entries) place) }
    {
        match self.entries.get_mut(place) {
            Some(entry) => Some(&mut entry.1.children),
            None => None,
        }
    }

    /// Makes room for one more node. On want of memory all stays as it was.
    pub(crate) fn reserve_one(&mut self) -> Result<(), AllocError>
        ensures entries { self.new.entries ≡ self.old.entries }
        ensures next { self.new.next ≡ self.old.next }
        ensures room { OnOk result (0 < self.new.spare) }
    {
        // No board comes as far.
        if self.next == usize::MAX {
            return Err(AllocError);
        }
        self.entries.reserve(1)?;
        self.numbers.reserve_one(self.entries.len())
    }

    /// Returns the number of the next node.
    pub(crate) fn next(&self) -> usize
        ensures { result ≡ self.now.next }
    {
        self.next
    }

    /// Returns the number of the node at a place, and 0 for no place.
    pub(crate) fn number_at(&self, at: Option<usize>) -> usize
        ensures { result ≡ number_at self.now.entries at }
    {
        match at {
            Some(place) => number_of(&self.entries, place),
            None => 0,
        }
    }

    /// Appends a node, for which there is room and whose parent stands at this place. The node has
    /// the next number.
    pub(crate) fn push(&mut self, id: Id, node: Node<T>, at: Option<usize>)
        requires room { 0 < self.old.spare }
        requires new { lookup (bytes_eq id) self.old.entries ≡ None }
        requires place { at ≡ position (λ e. bytes_eq e.0 node.parent) self.old.entries }
        requires other { bytes_eq id node.parent ≡ false }
        requires childless { AllByRecursion (λ e. bytes_eq id e.parent ≡ false) (edges_of self.old.entries) }
        requires number { node.number ≡ self.old.next }
        requires up { node.up ≡ number_at self.old.entries at }
        ensures { self.new.entries ≡ self.old.entries ++ (id, node) ∷ [] }
    {
        self.numbers.take_slot(&self.entries, &id, self.next);
        self.next += 1;
        self.entries.push_back_reserved((id, node));
    }

    /// Takes the last node out and returns it.
    pub(crate) fn pop(&mut self) -> Option<(Id, Node<T>)>
        ensures entries { self.old.entries ≡ self.new.entries ++ option_to_list result }
        ensures found { IsSome result ↔ (0 < length self.old.entries) }
    {
        let entry = self.entries.pop_back()?;
        self.numbers.forget(&entry.0, entry.1.number);
        Some(entry)
    }

    /// Takes the node at a place out and returns it. It takes no memory, and moves the nodes on the
    /// shorter side.
    pub(crate) fn remove(&mut self, place: usize) -> Option<(Id, Node<T>)>
        ensures node { result ≡ slice_get self.old.entries place }
        ensures rest { self.new.entries ≡ remove self.old.entries place }
    {
        match self.entries.get(place) {
            Some(entry) => self.numbers.forget(&entry.0, entry.1.number),
            None => return None,
        }
        self.entries.remove(place)
    }

    /// Keeps the nodes that descend from the block of this number, and takes all others out. It
    /// appends those to `rejected` in order of issue. The first `from` nodes stay. It is one pass
    /// over the others, which looks nothing up for those that stay. It takes no memory.
    pub(crate) fn sweep(&mut self, number: usize, from: usize, rejected: &mut Vec<Id>)
    where
        T: Drop,
        requires front { IsFront number from self.old.entries }
        requires room { vec_len rejected.old + length self.old.entries ≤ vec_capacity rejected.old }
        ensures entries { self.new.entries ≡ staying number [] self.old.entries }
        ensures told { rejected.new.items ≡ rejected.old.items ++ leaving number [] self.old.entries }
        ensures room { vec_capacity rejected.new ≡ vec_capacity rejected.old }
    {
        sweep(&mut self.entries, &mut self.numbers, number, from, rejected);
    }
}
