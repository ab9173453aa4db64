//! The pass over the nodes that takes those out that don't stand above a block.
ghost use Rattle.std.specs.Prelude.{◌≡◌, ℕ, List, ◌+◌, ◌<◌, ◌≤◌, ◌∷◌, ◌++◌, [], None, Some, bytes_eq, cond, length, slice_get, take, vec_len, vec_capacity};
ghost use Rattle.std.specs.HashMap.{get};
ghost use Rattle.snow_tree.specs.declared.node.Node.{Node};
ghost use Rattle.snow_tree.specs.Kept.Hints.{hint_of};
ghost use Rattle.snow_tree.specs.Kept.Row.{AreInOrder, IsFront, IsNumbered, edges_of, untold, is_above, staying, leaving};

use crate::id_index::IdIndex;
use crate::node::{Entries, Node};
use crate::placing::place_of_number;
use snow_base::Id;

// Whether the node at a place stands above the block of a number, or above one of the first so many nodes.
fn is_above<T>(entries: &Entries<T>, kept: usize, number: usize, place: usize) -> bool
    requires order { AreInOrder (edges_of (take kept entries.now.items)) }
    requires most { kept ≤ length entries.now.items }
    ensures { (e : List ℕ × Node T) → slice_get entries.now.items place ≡ Some e → result ≡ is_above number (take kept entries.now.items) e }
{
    match entries.get(place) {
        Some(entry) => {
            let up = entry.1.up;
            number == up || place_of_number(entries, kept, up).is_some()
        }
        None => false,
    }
}

// A node leaves.
fn tell<T>(entry: &(Id, Node<T>), numbers: &mut IdIndex, rejected: &mut Vec<Id>)
    requires number { get bytes_eq numbers.old.map (entry.now).0 ≡ untold (hint_of numbers.old.hints (entry.now).0) (Some (entry.now).1.number) }
    requires room { vec_len rejected.old < vec_capacity rejected.old }
    ensures map { (q : List ℕ) → get bytes_eq numbers.new.map q ≡ cond (bytes_eq (entry.now).0 q) None (get bytes_eq numbers.old.map q) }
    ensures hints { numbers.new.hints ≡ numbers.old.hints }
    ensures told { rejected.new.items ≡ rejected.old.items ++ (entry.now).0 ∷ [] }
    ensures room { vec_capacity rejected.new ≡ vec_capacity rejected.old }
{
    numbers.forget(&entry.0, entry.1.number);
    rejected.push_reserved(entry.0);
}

/// Keeps the nodes that descend from the block of this number, and takes all others out. It appends
/// those to `rejected` in order of issue. The first `from` nodes stay, so the pass begins behind
/// them.
pub(crate) fn sweep<T: Drop>(
    entries: &mut Entries<T>,
    numbers: &mut IdIndex,
    number: usize,
    from: usize,
    rejected: &mut Vec<Id>,
)
    requires front { IsFront number from entries.old.items }
    requires numbered { (next : ℕ) × IsNumbered (edges_of entries.old.items) (get bytes_eq numbers.old.map) numbers.old.hints next }
    requires room { vec_len rejected.old + length entries.old.items ≤ vec_capacity rejected.old }
    ensures entries { entries.new.items ≡ staying number [] entries.old.items }
    ensures told { rejected.new.items ≡ rejected.old.items ++ leaving number [] entries.old.items }
    ensures room { vec_capacity rejected.new ≡ vec_capacity rejected.old }
    ensures numbered { (next : ℕ) → IsNumbered (edges_of entries.old.items) (get bytes_eq numbers.old.map) numbers.old.hints next
        → IsNumbered (edges_of entries.new.items) (get bytes_eq numbers.new.map) numbers.new.hints next }
{
    let mut kept = from;
    for place in from..entries.len() {
        if is_above(entries, kept, number, place) {
            entries.swap(kept, place);
            kept += 1;
        } else {
            tell(&entries[place], numbers, rejected);
        }
    }
    entries.truncate(kept);
}
