ghost use Rattle.std.specs.Prelude.{◌≡◌, ℕ, ◌+◌, ◌^◌, ◌<◌, [], ◌∷◌, ◌++◌, length, filter, All, not, false, Some, None, IfSome, IfNone, IsSome, HoldsAt, OnOk, OnErr, nat_lt, get_or};
ghost use Rattle.std.specs.BTreeMap.{is_at};
ghost use Rattle.std.specs.List.Sorted.{IsStrictlySortedBy};
ghost use Rattle.std.specs.Map.{keys_of, set_value, remove_entry};
ghost use Rattle.std.specs.Ordering.{nat_cmp};
ghost use Rattle.snow_held.specs.Kept.Arrivals.{at_arrival};
ghost use Rattle.snow_held.specs.Kept.Roll.{Rises, is_here, entries_of};
ghost use Rattle.snow_held.specs.declared.roll.Place.{Place};
ghost use Rattle.snow_held.specs.declared.backlog.Kept.{Kept};

use crate::backlog::Kept;
use std::alloc::{AllocError, Global};
use std::marker::Model;

/// A kept reply with its number, and whether it left.
#[derive(Clone, Copy)]
pub(crate) struct Place {
    arrival: u64,
    kept: Kept,
    left: bool,
}

/// Kept replies by number of arrival, in a list in which numbers rise. One that leaves keeps its
/// place until a reply comes when more than half have left.
#[derive(Drop)]
pub(crate) struct Roll {
    places: Vec<Place>,
    len: usize,
}

impl Model for Roll {
    ghost use Rattle.snow_held.specs.Kept.Arrivals.{Entries};
    ghost use Rattle.snow_held.specs.Kept.Roll.{entries_of, IsRoll};

    ghost Value = { Entries };

    ghost view = { λ a. entries_of a.places.items };

    ghost invariant = { λ a. IsRoll a.places.items a.len };
}

impl Roll {
    /// No reply is kept. It takes no memory.
    pub(crate) fn new(alloc: Global) -> Self
        ensures { result ≡ [] }
    {
        Roll {
            places: Vec::new(alloc),
            len: 0,
        }
    }

    pub(crate) fn len(&self) -> usize
        ensures len { result ≡ length self.now }
        ensures few { result < 2 ^ 63 }
    {
        self.len
    }

    /// The reply with this number.
    pub(crate) fn get(&self, arrival: u64) -> Option<Kept>
        ensures { result ≡ at_arrival self.now arrival }
    {
        let at = find(&self.places, arrival)?;
        Some(self.places[at].kept)
    }

    /// Appends a reply whose number is above all others. On want of memory all stays as it was.
    pub(crate) fn push(&mut self, arrival: u64, kept: Kept) -> Result<(), AllocError>
        requires { (a : ℕ) (k : Kept) → at_arrival self.old a ≡ Some k → a < arrival }
        ensures ok { OnOk result (self.new ≡ self.old ++ (arrival, kept) ∷ []) }
        ensures err { OnErr result (self.new ≡ self.old) }
        ensures sorted { IsStrictlySortedBy nat_cmp (keys_of self.new) }
    {
        tidy(&mut self.places, self.len, arrival);
        self.places.push(Place {
            arrival,
            kept,
            left: false,
        })?;
        self.len += 1;
        Ok(())
    }

    /// Puts this in place of the reply with this number.
    pub(crate) fn set(&mut self, arrival: u64, kept: Kept)
        requires { IsSome (at_arrival self.old arrival) }
        ensures { self.new ≡ set_value (is_at (nat_cmp arrival)) self.old kept }
    {
        if let Some(at) = find(&self.places, arrival) {
            self.places[at].kept = kept;
        }
    }

    /// Takes the reply with this number out, if there is one. It takes no memory.
    pub(crate) fn take(&mut self, arrival: u64) -> Option<Kept>
        ensures taken { result ≡ at_arrival self.old arrival }
        ensures rest { self.new ≡ remove_entry (is_at (nat_cmp arrival)) self.old }
        ensures sorted { IsStrictlySortedBy nat_cmp (keys_of self.new) }
    {
        let at = find(&self.places, arrival)?;
        let kept = self.places[at].kept;
        self.places[at].left = true;
        self.len -= 1;
        Some(kept)
    }
}

// Where the reply with a number stands.
fn find(places: &[Place], arrival: u64) -> Option<usize>
    requires { Rises places.now }
    ensures there { IfSome result (λ at. at < length places.now) }
    ensures at { IfSome result (λ at. HoldsAt (λ p. p.arrival ≡ arrival) places.now at) }
    ensures here { IfSome result (λ at. HoldsAt (λ p. p.left ≡ false) places.now at) }
    ensures value { IfSome result (λ at. HoldsAt (λ p. at_arrival (entries_of places.now) arrival ≡ Some p.kept) places.now at) }
    ensures none { IfNone result (at_arrival (entries_of places.now) arrival ≡ None) }
{
    let at = place_of(places, arrival)?;
    if places[at].left {
        return None;
    }
    Some(at)
}

// Where a number stands. It is looked for first where it stands if none before it is missing.
fn place_of(places: &[Place], arrival: u64) -> Option<usize>
    requires { Rises places.now }
    ensures there { IfSome result (λ at. at < length places.now) }
    ensures at { IfSome result (λ at. HoldsAt (λ p. p.arrival ≡ arrival) places.now at) }
    ensures none { IfNone result ((k : ℕ) (d : Place) → k < length places.now → (get_or places.now k d).arrival ≡ arrival → ⊥) }
{
    let likely = likely_place(places, arrival);
    if likely < places.len() && places[likely].arrival == arrival {
        return Some(likely);
    }
    search(places, arrival)
}

// How far a number is behind the first one.
fn likely_place(places: &[Place], arrival: u64) -> usize {
    match places.first() {
        Some(place) => arrival.wrapping_sub(place.arrival) as usize,
        None => 0,
    }
}

// Where a number stands, wherever that is.
fn search(places: &[Place], arrival: u64) -> Option<usize>
    requires { Rises places.now }
    ensures there { IfSome result (λ at. at < length places.now) }
    ensures at { IfSome result (λ at. HoldsAt (λ p. p.arrival ≡ arrival) places.now at) }
    ensures none { IfNone result ((k : ℕ) (d : Place) → k < length places.now → (get_or places.now k d).arrival ≡ arrival → ⊥) }
{
    let at = places.partition_point(
        |place: &Place| -> bool
            ensures { result ≡ nat_lt place.now.arrival arrival }
        { place.arrival < arrival },
    );
    if at >= places.len() {
        return None;
    }
    if places[at].arrival == arrival {
        return Some(at);
    }
    None
}

// The places that are left go where they are more than half, or where one isn't below a number that
// is above all others.
fn tidy(places: &mut Vec<Place>, len: usize, arrival: u64)
    requires rises { Rises places.old.items }
    requires below { (a : ℕ) (k : Kept) → at_arrival (entries_of places.old.items) a ≡ Some k → a < arrival }
    ensures same { entries_of places.new.items ≡ entries_of places.old.items }
    ensures rises { Rises places.new.items }
    ensures below { All (λ p. p.arrival < arrival) places.new.items }
{
    if is_stale(places, len, arrival) {
        clear(places);
    }
}

// Whether more than half of the places are left, or one that isn't below a number.
fn is_stale(places: &[Place], len: usize, arrival: u64) -> bool
    ensures { result ≡ false → (k : ℕ) (d : Place) → k + 1 ≡ length places.now → (get_or places.now k d).arrival < arrival }
{
    match places.last() {
        Some(last) => places.len() / 2 > len || last.arrival >= arrival,
        None => false,
    }
}

// The places that are left go.
fn clear(places: &mut Vec<Place>)
    ensures { places.new.items ≡ filter is_here places.old.items }
{
    places.retain(
        |place: &Place| -> bool
            ensures { result ≡ not place.now.left }
        { !place.left },
    );
}
