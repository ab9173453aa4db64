ghost use Rattle.std.specs.Prelude.{◌≡◌, ℕ, ◌+◌, ◌<◌, ◌≤◌, ◌&&◌, bytes_eq, true, false, [], ◌∷◌, ◌++◌, List, map, length, IfSome, IfNone, Some, None, OnOk, OnErr, slice_index_or, if◌then◌else◌};
ghost use Rattle.std.specs.BinaryHeap.{heap_items, heap_len, heap_capacity, KeepsHeap};
ghost use Rattle.std.specs.BTreeMap.{is_at};
ghost use Rattle.std.specs.List.Sorted.{IsStrictlySortedBy};
ghost use Rattle.std.specs.Map.{keys_of, remove_entry};
ghost use Rattle.std.specs.Option.{option_map, is_some};
ghost use Rattle.std.specs.Ordering.{nat_cmp};
ghost use Rattle.snow_held.specs.Kept.Arrivals.{at_arrival, seat_of, woken_among, is_noted, IsBacklog, IsFirst, AreQuiet};
ghost use Rattle.snow_held.specs.Model.Replies.{quieted};
ghost use Rattle.snow_held.specs.declared.backlog.Kept.{Kept};

use crate::held::Held;
use crate::roll::Roll;
use snow_base::Id;
use std::alloc::{AllocError, Global};
use std::collections::BinaryHeap;
use std::marker::Model;

/// A reply, and whether it is quiet: the block that it names is known to wait or to be asked for.
#[derive(Clone, Copy)]
pub(crate) struct Kept {
    pub(crate) reply: Held,
    pub(crate) quiet: bool,
}

impl Kept {
    // Whether it is quiet and names this block.
    fn waits_for(&self, id: &Id) -> bool
        ensures { result ≡ (self.now.quiet && bytes_eq id.now self.now.reply.id) }
    {
        self.quiet && *id == self.reply.id
    }
}

/// Replies by number of arrival, each quiet or not. A heap has the numbers of those that aren't
/// quiet, the earliest at the top. It has room for the numbers of all.
#[derive(Drop)]
pub(crate) struct Backlog {
    items: Roll,
    // How far each number is below the greatest one. A number stays there until it comes to the top,
    // also where its reply left meanwhile.
    fresh: BinaryHeap<u64>,
}

impl Model for Backlog {
    ghost use Rattle.std.specs.Prelude.{List, ℕ};
    ghost use Rattle.std.specs.BinaryHeap.{heap_items, heap_len, heap_capacity};
    ghost use Rattle.snow_held.specs.declared.backlog.Kept.{Kept};
    ghost use Rattle.snow_held.specs.Kept.Arrivals.{IsBacklog};

    ghost Value = { List (ℕ × Kept) };

    ghost view = { λ a. a.items };

    ghost invariant = { λ a. IsBacklog a.items (heap_items a.fresh) (heap_len a.fresh) (heap_capacity a.fresh) };
}

impl Backlog {
    /// No reply is kept. It takes no memory.
    pub(crate) fn new(alloc: Global) -> Self
        ensures { result ≡ [] }
    {
        Backlog {
            items: Roll::new(alloc),
            fresh: BinaryHeap::new(alloc),
        }
    }

    pub(crate) fn len(&self) -> usize
        ensures { result ≡ length self.now }
    {
        self.items.len()
    }

    /// Whether a reply with this number is kept.
    pub(crate) fn has(&self, arrival: u64) -> bool
        ensures { result ≡ is_some (at_arrival self.now arrival) }
    {
        self.items.get(arrival).is_some()
    }

    /// Appends a reply whose number is above all others. On want of memory all stays as it was.
    pub(crate) fn push(&mut self, arrival: u64, kept: Kept) -> Result<(), AllocError>
        requires { (a : ℕ) (k : Kept) → at_arrival self.old a ≡ Some k → a < arrival }
        ensures ok { OnOk result (self.new ≡ self.old ++ (arrival, kept) ∷ []) }
        ensures err { OnErr result (self.new ≡ self.old) }
        ensures there { OnOk result ((a : ℕ) → at_arrival self.new a ≡ (if is_at (nat_cmp arrival) a then Some kept else at_arrival self.old a)) }
        ensures sorted { IsStrictlySortedBy nat_cmp (keys_of self.new) }
    {
        let quiet = kept.quiet;
        self.fresh.reserve(self.items.len() + 1)?;
        self.items.push(arrival, kept)?;
        if !quiet {
            note(&mut self.fresh, arrival);
        }
        Ok(())
    }

    /// A reply with this number that names this block isn't quiet any more. It takes no memory.
    pub(crate) fn wake(&mut self, arrival: u64, id: &Id)
        ensures woken { self.new ≡ map (woken_among (arrival ∷ []) id.now) self.old }
    {
        let Some(mut kept) = self.items.get(arrival) else {
            return;
        };
        if !kept.waits_for(id) {
            return;
        }
        kept.quiet = false;
        self.items.set(arrival, kept);
        note(&mut self.fresh, arrival);
    }

    /// The earliest reply that isn't quiet, with its number.
    pub(crate) fn first(&mut self) -> Option<(u64, Held)>
        ensures same { self.new ≡ self.old }
        ensures first { IfSome result (λ f. IsFirst self.new f.0 f.1) }
        ensures none { IfNone result (AreQuiet self.new) }
        ensures sorted { IsStrictlySortedBy nat_cmp (keys_of self.new) }
    {
        first_in(&self.items, &mut self.fresh)
    }

    /// The earliest reply that isn't quiet becomes so, if there is one. It takes no memory.
    pub(crate) fn mark_first_quiet(&mut self)
        ensures seats { map seat_of self.new ≡ quieted (map seat_of self.old) }
        ensures replies { (a : ℕ) → option_map (λ k. k.reply) (at_arrival self.new a) ≡ option_map (λ k. k.reply) (at_arrival self.old a) }
        ensures sorted { IsStrictlySortedBy nat_cmp (keys_of self.new) }
    {
        let first = first_in(&self.items, &mut self.fresh);
        let Some((arrival, reply)) = first else {
            return;
        };
        let _ = self.fresh.pop();
        self.items.set(arrival, Kept { reply, quiet: true });
    }

    /// Takes the earliest reply that isn't quiet out, if there is one, and returns it with its
    /// number. It takes no memory.
    pub(crate) fn take_first(&mut self) -> Option<(u64, Held)>
        ensures first { IfSome result (λ f. IsFirst self.old f.0 f.1) }
        ensures rest { IfSome result (λ f. self.new ≡ remove_entry (is_at (nat_cmp f.0)) self.old) }
        ensures left { IfSome result (λ f. (a : ℕ) → at_arrival self.new a ≡ (if is_at (nat_cmp f.0) a then None else at_arrival self.old a)) }
        ensures none { IfNone result (AreQuiet self.old) }
        ensures same { IfNone result (self.new ≡ self.old) }
        ensures before { IsStrictlySortedBy nat_cmp (keys_of self.old) }
        ensures sorted { IsStrictlySortedBy nat_cmp (keys_of self.new) }
    {
        let first = first_in(&self.items, &mut self.fresh);
        let Some((arrival, reply)) = first else {
            return None;
        };
        let _ = self.items.take(arrival);
        // Its number goes from the heap too, so that nobody looks it up there again.
        let _ = self.fresh.pop();
        Some((arrival, reply))
    }

    /// Takes the reply with this number out, if there is one. It takes no memory.
    pub(crate) fn take(&mut self, arrival: u64) -> Option<Held>
        ensures taken { result ≡ option_map (λ k. k.reply) (at_arrival self.old arrival) }
        ensures rest { self.new ≡ remove_entry (is_at (nat_cmp arrival)) self.old }
        ensures sorted { IsStrictlySortedBy nat_cmp (keys_of self.new) }
        ensures others { (a : ℕ) → at_arrival self.new a ≡ (if is_at (nat_cmp arrival) a then None else at_arrival self.old a) }
    {
        let kept = self.items.take(arrival)?;
        Some(kept.reply)
    }
}

// Puts a number into the heap, in room that is there.
fn note(fresh: &mut BinaryHeap<u64>, arrival: u64)
    requires { heap_len fresh.old < heap_capacity fresh.old }
    ensures len { heap_len fresh.new ≡ heap_len fresh.old + 1 }
    ensures room { heap_capacity fresh.old ≤ heap_capacity fresh.new }
    ensures order { KeepsHeap nat_cmp (heap_items fresh.old) (heap_items fresh.new) }
    ensures noted { is_noted (heap_items fresh.new) arrival ≡ true }
    ensures others { (a : ℕ) → is_noted (heap_items fresh.old) a ≡ true → is_noted (heap_items fresh.new) a ≡ true }
{
    let pushed: Result<_, _> = fresh.push(u64::MAX - arrival);
    let _ = pushed.unwrap();
}

// The reply with this number, if it isn't quiet.
fn new_at(items: &Roll, arrival: u64) -> Option<Held>
    ensures there { IfSome result (λ reply. let kept : Kept = record { reply = reply; quiet = false } in at_arrival items.now arrival ≡ Some kept) }
    ensures none { IfNone result ((k : Kept) → at_arrival items.now arrival ≡ Some k → k.quiet ≡ true) }
{
    let kept = items.get(arrival)?;
    if kept.quiet {
        return None;
    }
    Some(kept.reply)
}

// The earliest reply that isn't quiet, whose number is then at the top of the heap. Numbers of other
// replies go from there.
fn first_in(items: &Roll, fresh: &mut BinaryHeap<u64>) -> Option<(u64, Held)>
    requires { IsBacklog items.now (heap_items fresh.old) (heap_len fresh.old) (heap_capacity fresh.old) }
    ensures kept { IsBacklog items.now (heap_items fresh.new) (heap_len fresh.new) (heap_capacity fresh.new) }
    ensures first { IfSome result (λ f. IsFirst items.now f.0 f.1) }
    ensures some { IfSome result (λ f. 0 < heap_len fresh.new) }
    ensures top { IfSome result (λ f. (d : ℕ) → slice_index_or (heap_items fresh.new) 0 d + f.0 ≡ 18446744073709551615) }
    ensures none { IfNone result (AreQuiet items.now) }
{
    while let Some(top) = fresh.peek() {
        let arrival = u64::MAX - *top;
        if let Some(reply) = new_at(items, arrival) {
            return Some((arrival, reply));
        }
        let _ = fresh.pop();
    }
    None
}
