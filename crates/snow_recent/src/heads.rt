//! The entries that came last, by the seats of their identifiers.
ghost use Rattle.std.specs.Prelude.{◌≡◌, ◌==◌, ◌<◌, ◌≤◌, List, ℕ, length, slice_set, vec_capacity, IfOk};
ghost use Rattle.snow_recent.specs.Kept.Index.{seat_of, number_at};

use snow_base::Id;
use snow_map::seat_of;
use std::alloc::{AllocError, Global};
use std::marker::Model;

// There are no more seats than these.
const MOST_SEATS: usize = 65_536;

// So many there are at first: 256 bytes.
const FIRST_SEATS: usize = 64;

/// Maps each seat to the number of the entry of that seat that came last. Contracts see the
/// numbers.
///
/// Room for all seats is made at once. But there are only as many as the entries need, since room
/// that nobody has touched costs nothing.
#[derive(Drop)]
pub(crate) struct Heads {
    numbers: Vec<u32>,
}

impl Model for Heads {
    ghost use Rattle.std.specs.Prelude.{List, ℕ, length, vec_capacity};
    ghost use Rattle.snow_recent.specs.Kept.Index.{AreSeats};

    ghost Value = { List ℕ };

    ghost view = { λ a. a.numbers.items };

    ghost invariant = { λ a. AreSeats (length a.numbers.items) (vec_capacity a.numbers) };
}

impl Heads {
    /// Returns a number for each seat, that of an entry which is gone long since.
    pub(crate) fn new(alloc: Global) -> Result<Heads, AllocError> {
        let numbers = first_seats(alloc)?;
        Ok(Heads { numbers })
    }

    /// Makes twice as many seats where one more entry than so many would have fewer than eight for
    /// each, so that few entries share one. Each identifier has the number that it had: a seat
    /// becomes two that have its number. It takes no memory.
    pub(crate) fn make_room(&mut self, entries: usize)
        ensures { (id : List ℕ) → number_at self.new id ≡ number_at self.old id }
    {
        let seats = self.numbers.len();
        if entries < seats / 8 || seats > MOST_SEATS / 2 {
            return;
        }
        let doubled: Result<_, _> = self.numbers.extend_from_within(..);
        let _ = doubled.unwrap();
    }

    /// Returns the number at an identifier's seat.
    pub(crate) fn number(&self, id: &Id) -> u32
        ensures { result ≡ number_at self.now id.now }
    {
        self.numbers[self.seat(id)]
    }

    /// Puts another number at an identifier's seat.
    pub(crate) fn set(&mut self, id: &Id, number: u32)
        ensures there { seat_of (length self.old) id.now < length self.old }
        ensures set { self.new ≡ slice_set self.old (seat_of (length self.old) id.now) number }
    {
        let seat = self.seat(id);
        self.numbers[seat] = number;
    }

    /// Returns whether two identifiers share a seat.
    pub(crate) fn share(&self, id: &Id, other: &Id) -> bool
        ensures { result ≡ (seat_of (length self.now) id.now == seat_of (length self.now) other.now) }
    {
        self.seat(id) == self.seat(other)
    }

    // The seat of an identifier. The number of seats is a power of two.
    fn seat(&self, id: &Id) -> usize
        ensures seat { result ≡ seat_of (length self.now) id.now }
        ensures there { result < length self.now }
    {
        seat_of(id) & self.numbers.len().wrapping_sub(1)
    }
}

// The first seats, and room for all.
fn first_seats(alloc: Global) -> Result<Vec<u32>, AllocError>
    ensures count { IfOk result (λ list. length list.items ≡ 64) }
    ensures room { IfOk result (λ list. 65536 ≤ vec_capacity list) }
{
    let mut numbers = Vec::with_capacity(alloc, MOST_SEATS)?;
    let filled: Result<_, _> = numbers.resize(FIRST_SEATS, u32::MAX);
    let _ = filled.unwrap();
    Ok(numbers)
}
