ghost use Rattle.std.specs.Prelude.{◌≡◌, ℕ, ◌-◌, ◌<◌, true, false, IfSome, All, bytes_eq, [], ◌∷◌, ◌++◌, List, map, take, length, slice_set, HoldsAt, OnOk, OnErr, vec_len, vec_capacity, if◌then◌else◌};
ghost use Rattle.std.specs.List.{position_or_len, remove};
ghost use Rattle.snow_lineup.specs.Kept.Marks.{has, IsOnlyAt};
ghost use Rattle.snow_lineup.specs.Kept.Index.{seat_of, row_of, forgotten, reset};
ghost use Rattle.snow_lineup.specs.Kept.Windows.{IsWithin, AreWithin};
ghost use Rattle.snow_lineup.specs.declared.lineup.Slot.{Slot};
ghost use Rattle.snow_lineup.specs.declared.marks.Mark.TheVariants.{New, Ripe};

use crate::marks::Mark;
use crate::rows::Rows;
use crate::window::{Window, Windows};
use snow_base::Id;
use std::alloc::{AllocError, Global};
use std::marker::Model;

/// What waits for a block.
/// Rule: this project's own.
pub trait Keyed: Drop {
    ghost use Rattle.std.specs.Prelude.{◌≡◌, ℕ, List};

    /// The block that it waits for.
    ghost key: { Self → List ℕ };

    /// Returns the block for which it waits.
    /// Rule: this project's own.
    fn key(&self) -> Id
        ensures { result ≡ key self.now };
}

/// An item with its place, a number that never comes again, and what is remembered of it.
#[derive(Drop)]
pub(crate) struct Slot<T> {
    // First, so that it is moved whole.
    pub(crate) item: T,
    pub(crate) place: u64,
    pub(crate) mark: Mark,
}

/// Items in order of arrival, each with what is remembered of it, and an index by what they wait
/// for.
/// Rule: this project's own.
#[derive(Drop)]
pub struct Lineup<T: Keyed> {
    pub(crate) slots: Vec<Slot<T>>,
    pub(crate) rows: Rows,
    pub(crate) next: u64,
    pub(crate) windows: Windows,
}

impl<T: Keyed> Model for Lineup<T> {
    ghost use Rattle.std.specs.Prelude.{List, map};
    ghost use Rattle.snow_lineup.specs.declared.marks.Mark.{Mark};
    ghost use Rattle.snow_lineup.specs.Kept.Index.{IsIndexed, tag_of, seat_of};
    ghost use Rattle.snow_lineup.specs.Kept.Windows.{AreWithin};

    ghost Value = { List (T × Mark) };

    ghost view = { λ a. map seat_of a.slots.items };

    ghost invariant = { λ a. IsIndexed (map (tag_of T.key) a.slots.items) a.rows.rows a.next × AreWithin (map seat_of a.slots.items) a.windows };
}

impl<T: Keyed> Lineup<T> {
    /// Returns the lineup without items. It takes no memory.
    /// Rule: this project's own.
    pub fn new(alloc: Global) -> Self
        ensures { result ≡ [] }
    {
        Lineup {
            slots: Vec::new(alloc),
            rows: Rows::new(alloc),
            next: 0,
            windows: Windows::empty(),
        }
    }

    /// Returns how many items there are.
    /// Rule: this project's own.
    pub fn len(&self) -> usize
        ensures { result ≡ length self.now }
    {
        self.slots.len()
    }

    /// Appends an item, marked `New`. On want of memory it returns `AllocError`, and all stays as
    /// it was.
    /// Rule: this project's own.
    pub fn push(&mut self, item: T) -> Result<(), AllocError>
        ensures ok { OnOk result (self.new ≡ self.old ++ (item, New) ∷ []) }
        ensures err { OnErr result (self.new ≡ self.old) }
    {
        // Places never come again, and there are more than a node lives to use.
        if self.next == u64::MAX {
            return Err(AllocError);
        }
        self.slots.reserve(1)?;
        let at = self.slots.len();
        put(&mut self.slots, &mut self.rows, item, self.next)?;
        self.windows = self.windows.marked(at, Mark::New);
        self.next += 1;
        Ok(())
    }

    /// Returns `true` only where each item is marked and none is ripe. It may return `false` there
    /// too: it doesn't look at the items.
    /// Rule: this project's own.
    pub fn all_quiet(&self) -> bool
        ensures new { result ≡ true → All (λ s. has New s ≡ false) self.now }
        ensures ripe { result ≡ true → All (λ s. has Ripe s ≡ false) self.now }
    {
        self.windows.are_empty()
    }

    /// Returns the place of the only item marked `New`, where no item is ripe. It may return `None`
    /// there too: it doesn't look at the items.
    /// Rule: this project's own.
    pub fn only_new(&self) -> Option<usize>
        ensures there { IfSome result (λ at. at < length self.now) }
        ensures new { IfSome result (λ at. IsOnlyAt New self.now at) }
        ensures ripe { IfSome result (λ at. All (λ s. has Ripe s ≡ false) self.now) }
    {
        self.windows.only_fresh(self.slots.len())
    }

    /// Returns where the first item with this mark stands, or how many items there are where none
    /// has it. The items and their marks stay.
    /// Rule: this project's own.
    pub fn first(&mut self, mark: Mark) -> usize
        ensures at { result ≡ position_or_len (has mark) self.old }
        ensures same { self.new ≡ self.old }
    {
        let len = self.slots.len();
        let at = first_in(self.slots.as_slice(), mark, self.windows.of(mark, len));
        self.windows = self.windows.narrowed(mark, at, len);
        at
    }

    /// Returns the item at a place, which is below `len`.
    /// Rule: this project's own.
    pub fn item(&self, at: usize) -> &T
        requires { at < length self.now }
        ensures { HoldsAt (λ s. result.now ≡ s.0) self.now at }
    {
        &self.slots[at].item
    }

    /// Marks the item at a place, which is below `len`.
    /// Rule: this project's own.
    pub fn set(&mut self, at: usize, mark: Mark)
        requires { at < length self.old }
        ensures { HoldsAt (λ s. self.new ≡ slice_set self.old at (s.0, mark)) self.old at }
    {
        self.slots[at].mark = mark;
        self.windows = self.windows.marked(at, mark);
    }

    /// Takes the item at a place, which is below `len`, out and returns it. The others stay in
    /// their order. It takes no memory.
    /// Rule: this project's own.
    pub fn take(&mut self, at: usize) -> T
        requires { at < length self.old }
        ensures taken { HoldsAt (λ s. result ≡ s.0) self.old at }
        ensures rest { self.new ≡ remove self.old at }
    {
        let slot = &self.slots[at];
        self.rows.take(&slot.item.key(), slot.place);
        self.windows = self.windows.without(at);
        take_slot(&mut self.slots, at)
    }

    /// Marks each item `New`.
    /// Rule: this project's own.
    pub fn forget_marks(&mut self)
        ensures { self.new ≡ map forgotten self.old }
    {
        forget_all(&mut self.slots);
        self.windows = Windows::all_fresh(self.slots.len());
    }
}

// Puts an item behind the others and its place into the row of its key. After want of memory all is as
// before.
fn put<T: Keyed>(
    slots: &mut Vec<Slot<T>>,
    rows: &mut Rows,
    item: T,
    place: u64,
) -> Result<(), AllocError>
    requires { vec_len slots.old < vec_capacity slots.old }
    ensures slots { let new : Slot T = record { item = item; place = place; mark = New } in OnOk result (slots.new.items ≡ slots.old.items ++ new ∷ []) }
    ensures ok { OnOk result ((q : List ℕ) → row_of rows.new.rows q ≡ (if bytes_eq (T.key item) q then row_of rows.old.rows q ++ place ∷ [] else row_of rows.old.rows q)) }
    ensures err { OnErr result ((q : List ℕ) → row_of rows.new.rows q ≡ row_of rows.old.rows q) }
    ensures same { OnErr result (slots.new.items ≡ slots.old.items) }
{
    let key = item.key();
    slots.push_reserved(Slot {
        item,
        place,
        mark: Mark::New,
    });
    match rows.note(key, place) {
        Ok(()) => Ok(()),
        Err(error) => {
            cut_last(slots);
            Err(error)
        }
    }
}

// The last slot goes.
fn cut_last<T: Drop>(slots: &mut Vec<Slot<T>>)
    ensures { slots.new.items ≡ take (length slots.old.items - 1) slots.old.items }
{
    let _ = slots.pop();
}

// The item at a place goes.
fn take_slot<T: Drop>(slots: &mut Vec<Slot<T>>, at: usize) -> T
    requires { at < length slots.old.items }
    ensures taken { HoldsAt (λ s. result ≡ s.item) slots.old.items at }
    ensures rest { slots.new.items ≡ remove slots.old.items at }
{
    bring_last(slots, at);
    match slots.pop() {
        Some(slot) => slot.item,
        None => unreachable!(),
    }
}

// The slot at a place becomes the last one. Mostly it is.
fn bring_last<T: Drop>(slots: &mut Vec<Slot<T>>, at: usize)
    requires { at < length slots.old.items }
    ensures last { HoldsAt (λ s. slots.new.items ≡ remove slots.old.items at ++ s ∷ []) slots.old.items at }
    ensures some { 0 < vec_len slots.new }
{
    if at + 1 != slots.len() {
        let slot = slots.remove(at);
        slots.push_reserved(slot);
    }
}

// The first slot with this mark in the window, or how many slots there are.
fn first_in<T>(slots: &[Slot<T>], mark: Mark, window: Window) -> usize
    requires { IsWithin mark (map seat_of slots.now) window }
    ensures { result ≡ position_or_len (has mark) (map seat_of slots.now) }
{
    let high = window.high.min(slots.len());
    for at in window.low..high {
        if slots[at].mark.is(mark) {
            return at;
        }
    }
    slots.len()
}

// Forgets what is remembered of any item.
fn forget_all<T>(slots: &mut [Slot<T>])
    ensures { slots.new ≡ map reset slots.old }
{
    for slot in slots.iter_mut() {
        slot.mark = Mark::New;
    }
}
