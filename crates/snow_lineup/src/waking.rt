ghost use Rattle.std.specs.Prelude.{◌≡◌, ◌<◌, ◌-◌, ◌==◌, [], ◌∷◌, ◌++◌, true, map, length, nat_lt, slice_set, HoldsAt};
ghost use Rattle.std.specs.List.{AllPairs, position_or_len};
ghost use Rattle.std.specs.Option.{option_to_list};
ghost use Rattle.snow_lineup.specs.Kept.Index.{seat_of, woken, woken_at, reset};
ghost use Rattle.snow_lineup.specs.Kept.Windows.{AreWithin};
ghost use Rattle.snow_lineup.specs.declared.marks.Mark.TheVariants.{New};

use crate::lineup::{Keyed, Lineup, Slot};
use crate::marks::Mark;
use crate::window::Windows;
use snow_base::Id;

impl<T: Keyed> Lineup<T> {
    /// Marks the items `New` that wait for a block; the others keep their marks. Mostly that is the
    /// last item alone, for which it asks no index.
    /// Rule: this project's own.
    pub fn wake(&mut self, key: &Id)
        ensures { self.new ≡ map (woken T.key key.now) self.old }
    {
        let len = self.slots.len();
        if len == 0 {
            return;
        }
        if self.is_of_newest(key) {
            self.set(len - 1, Mark::New);
        } else {
            self.wake_key(key);
        }
    }

    // Whether it is plain that the last item waits for a block, and no other.
    fn is_of_newest(&self, key: &Id) -> bool
        ensures there { result ≡ true → 0 < length self.now }
        ensures alone { result ≡ true → HoldsAt (λ s. map (woken T.key key.now) self.now ≡ slice_set self.now (length self.now - 1) (s.0, New)) self.now (length self.now - 1) }
    {
        let len = self.slots.len();
        if len == 0 {
            return false;
        }
        // (no key has several places then)
        let single = self.rows.are_single();
        if !single {
            return false;
        }
        self.slots[len - 1].item.key() == *key
    }

    // Marks the items that wait for a block, wherever they stand.
    fn wake_key(&mut self, key: &Id)
        ensures { self.new ≡ map (woken T.key key.now) self.old }
    {
        if !self.rows.are_single() {
            self.wake_several(key);
            return;
        }
        let last = self.rows.last(key);
        wake_last(&mut self.slots, &mut self.windows, last);
    }

    // Marks the items that wait for a block of several places.
    fn wake_several(&mut self, key: &Id)
        ensures { self.new ≡ map (woken T.key key.now) self.old }
    {
        let places = self.rows.of(key);
        wake_row(&mut self.slots, &mut self.windows, places.0, places.1);
    }
}

// How far a place is behind that of the first slot.
fn likely_place<T>(slots: &[Slot<T>], place: u64) -> usize {
    match slots.first() {
        Some(slot) => place.wrapping_sub(slot.place) as usize,
        None => 0,
    }
}

// The slot with this place, or how many slots there are.
fn search_place<T>(slots: &[Slot<T>], place: u64) -> usize
    requires { AllPairs (λ s t. s.place < t.place) slots.now }
    ensures { result ≡ position_or_len (λ s. s.place == place) slots.now }
{
    let at = slots.partition_point(
        |slot: &Slot<T>| -> bool
            ensures { result ≡ nat_lt slot.now.place place }
        { slot.place < place },
    );
    if at >= slots.len() {
        return slots.len();
    }
    if slots[at].place == place {
        return at;
    }
    slots.len()
}

// Forgets what is remembered of the item with this place, if there is one. It is looked for first
// where it stands if no place before it is missing.
fn wake_one<T>(slots: &mut [Slot<T>], windows: &mut Windows, place: u64)
    requires rising { AllPairs (λ s t. s.place < t.place) slots.old }
    requires within { AreWithin (map seat_of slots.old) windows.old }
    ensures slots { slots.new ≡ map (woken_at (place ∷ [])) slots.old }
    ensures within { AreWithin (map seat_of slots.new) windows.new }
{
    let likely = likely_place(slots, place);
    if likely < slots.len() && slots[likely].place == place {
        wake_at(slots, windows, likely);
    } else {
        wake_found(slots, windows, place);
    }
}

// Forgets what is remembered of the item with this place, wherever it stands.
fn wake_found<T>(slots: &mut [Slot<T>], windows: &mut Windows, place: u64)
    requires rising { AllPairs (λ s t. s.place < t.place) slots.old }
    requires within { AreWithin (map seat_of slots.old) windows.old }
    ensures slots { slots.new ≡ map (woken_at (place ∷ [])) slots.old }
    ensures within { AreWithin (map seat_of slots.new) windows.new }
{
    let at = search_place(slots, place);
    if at < slots.len() {
        wake_at(slots, windows, at);
    }
}

// Forgets what is remembered of the item at a place of the slots.
fn wake_at<T>(slots: &mut [Slot<T>], windows: &mut Windows, at: usize)
    requires there { at < length slots.old }
    requires within { AreWithin (map seat_of slots.old) windows.old }
    ensures slots { HoldsAt (λ s. slots.new ≡ slice_set slots.old at (reset s)) slots.old at }
    ensures within { AreWithin (map seat_of slots.new) windows.new }
{
    slots[at].mark = Mark::New;
    *windows = windows.marked(at, Mark::New);
}

// Forgets what is remembered of the item with the one place of a key, if it has one.
fn wake_last<T>(slots: &mut [Slot<T>], windows: &mut Windows, last: Option<u64>)
    requires rising { AllPairs (λ s t. s.place < t.place) slots.old }
    requires within { AreWithin (map seat_of slots.old) windows.old }
    ensures slots { slots.new ≡ map (woken_at (option_to_list last)) slots.old }
    ensures within { AreWithin (map seat_of slots.new) windows.new }
{
    match last {
        Some(place) => wake_one(slots, windows, place),
        None => (),
    }
}

// Forgets what is remembered of the items with these places.
fn wake_each<T>(slots: &mut [Slot<T>], windows: &mut Windows, places: &[u64])
    requires rising { AllPairs (λ s t. s.place < t.place) slots.old }
    requires within { AreWithin (map seat_of slots.old) windows.old }
    ensures slots { slots.new ≡ map (woken_at places.now) slots.old }
    ensures within { AreWithin (map seat_of slots.new) windows.new }
{
    for place in places {
        wake_one(slots, windows, *place);
    }
}

// Forgets what is remembered of the items with these places and the last one.
fn wake_row<T>(slots: &mut [Slot<T>], windows: &mut Windows, before: &[u64], last: Option<u64>)
    requires rising { AllPairs (λ s t. s.place < t.place) slots.old }
    requires within { AreWithin (map seat_of slots.old) windows.old }
    ensures slots { slots.new ≡ map (woken_at (before.now ++ option_to_list last)) slots.old }
    ensures within { AreWithin (map seat_of slots.new) windows.new }
{
    wake_each(slots, windows, before);
    wake_last(slots, windows, last);
}
