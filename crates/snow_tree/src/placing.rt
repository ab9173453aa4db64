//! Where a node stands, by its number and by its identifier.
ghost use Rattle.std.specs.Prelude.{◌≡◌, ◌<◌, ◌≤◌, ℕ, List, None, Some, bytes_eq, length, nat_eq, slice_get, take};
ghost use Rattle.std.specs.HashMap.{get};
ghost use Rattle.std.specs.List.{position};
ghost use Rattle.snow_tree.specs.declared.node.Node.{Node};
ghost use Rattle.snow_tree.specs.Kept.Row.{AreInOrder, IsNumbered, IsToldPlace, edges_of};

use crate::id_index::IdIndex;
use crate::node::Entries;
use snow_base::Id;

/// Returns the number of the node at a place.
pub(crate) fn number_of<T>(entries: &Entries<T>, place: usize) -> usize
    ensures some { (e : List ℕ × Node T) → slice_get entries.now.items place ≡ Some e → result ≡ e.1.number }
    ensures none { slice_get entries.now.items place ≡ None → result ≡ 0 }
{
    match entries.get(place) {
        Some(entry) => entry.1.number,
        None => 0,
    }
}

// How many of the first so many nodes have lower numbers.
fn count_lower<T>(entries: &Entries<T>, len: usize, number: usize) -> usize
    requires order { AreInOrder (edges_of (take len entries.now.items)) }
    requires most { len ≤ length entries.now.items }
    ensures most { result ≤ len }
    ensures below { (i : ℕ) (e : List ℕ × Node T) → i < result → slice_get entries.now.items i ≡ Some e → e.1.number < number }
    ensures above { (i : ℕ) (e : List ℕ × Node T) → result ≤ i → i < len → slice_get entries.now.items i ≡ Some e → number ≤ e.1.number }
{
    let mut low = 0;
    let mut high = len;
    while low < high {
        let middle = low + (high - low) / 2;
        if number_of(entries, middle) < number {
            low = middle + 1;
        } else {
            high = middle;
        }
    }
    low
}

/// Returns the place of a number among the first so many nodes, or `None`. A number below the first
/// node's, as 0 for the last accepted block, has none. Where no node left from between, the place
/// is the number less the first node's; else a search finds it in logarithmic time.
pub(crate) fn place_of_number<T>(entries: &Entries<T>, len: usize, number: usize) -> Option<usize>
    requires order { AreInOrder (edges_of (take len entries.now.items)) }
    requires most { len ≤ length entries.now.items }
    ensures { result ≡ position (λ e. nat_eq e.number number) (edges_of (take len entries.now.items)) }
{
    let first = number_of(entries, 0);
    if number < first {
        return None;
    }
    let expected = number.wrapping_sub(first);
    if expected < len && number_of(entries, expected) == number {
        return Some(expected);
    }
    let place = count_lower(entries, len, number);
    if place < len && number_of(entries, place) == number {
        return Some(place);
    }
    None
}

/// Returns the place of an identifier, where its slot tells its number. It doesn't ask the map.
pub(crate) fn place_told<T>(entries: &Entries<T>, numbers: &IdIndex, id: &Id) -> Option<usize>
    requires { (next : ℕ) × IsNumbered (edges_of entries.now.items) (get bytes_eq numbers.now.map) numbers.now.hints next }
    ensures { IsToldPlace (edges_of entries.now.items) numbers.now.hints id.now result }
{
    let place = place_of_number(entries, entries.len(), numbers.told(id))?;
    if entries[place].0 == *id {
        Some(place)
    } else {
        None
    }
}

/// Returns the place of an identifier.
pub(crate) fn place_of_id<T>(entries: &Entries<T>, numbers: &IdIndex, id: &Id) -> Option<usize>
    requires { (next : ℕ) × IsNumbered (edges_of entries.now.items) (get bytes_eq numbers.now.map) numbers.now.hints next }
    ensures { result ≡ position (λ e. bytes_eq e.id id.now) (edges_of entries.now.items) }
{
    if let Some(place) = place_told(entries, numbers, id) {
        return Some(place);
    }
    let number = numbers.look_up(id)?;
    place_of_number(entries, entries.len(), number)
}
