ghost use Rattle.std.specs.Prelude.{◌≡◌, ◌<◌, ◌≤◌, ◌^◌, ◌∷◌, ◌++◌, [], None, IfOk, length, drop, nat_lt, if◌then◌else◌};
ghost use Rattle.std.specs.List.{last_or};
ghost use Rattle.std.specs.Option.{option_copied, option_to_list, is_some};
ghost use Rattle.std.specs.VecDeque.{deque_capacity};
ghost use Rattle.snow_recent.specs.Kept.Index.{id_of, IsRising};
ghost use Rattle.snow_recent.specs.Model.Recent.{with_latest, latest};
ghost use Rattle.snow_recent.specs.Kept.Table.{IsFiled};

use crate::heads::Heads;
use crate::table::Table;
use crate::{index, seats};
use snow_base::Id;
use std::alloc::{AllocError, Global};
use std::collections::VecDeque;
use std::marker::Model;

/// What has an identifier.
/// Rule: this project's own.
pub trait Named: Drop {
    ghost use Rattle.std.specs.Prelude.{◌≡◌, ℕ, List};

    ghost id: { Self → List ℕ };

    /// Returns its identifier.
    /// Rule: this project's own.
    fn id(&self) -> Id
        ensures { result ≡ id self.now };
}

/// The last `MOST` entries that came. Contracts see the list of them, the latest last.
///
/// The latest entry of an identifier mostly stands at the head of its seat, and else in a table. So
/// identifiers that a sender chooses cost little more than any others. It makes all room when it is
/// made, so that no later call takes memory.
/// Rule: this project's own.
#[derive(Drop)]
pub struct Recent<T: Named, const MOST: usize> {
    entries: VecDeque<T>,
    first: u32,
    heads: Heads,
    table: Table<MOST>,
}

impl<T: Named, const MOST: usize> Model for Recent<T, MOST> {
    ghost use Rattle.std.specs.Prelude.{List};
    ghost use Rattle.std.specs.VecDeque.{deque_capacity};
    ghost use Rattle.snow_recent.specs.Kept.Index.{IsRecent};

    ghost Value = { List T };

    ghost view = { λ a. a.entries.items };

    ghost invariant = { λ a. IsRecent T.id MOST a.entries.items a.first a.heads a.table (deque_capacity a.entries) };
}

impl<T: Named, const MOST: usize> Recent<T, MOST> {
    /// Returns the empty list, with room for all `MOST` entries, a number from 1 to 2^32-1. On want
    /// of memory it returns `AllocError`.
    /// Rule: this project's own.
    pub fn new(alloc: Global) -> Result<Self, AllocError>
        requires some { 0 < MOST }
        requires fits { MOST < 2 ^ 32 }
        ensures { IfOk result (λ made. made ≡ []) }
    {
        let entries = VecDeque::with_capacity(alloc, MOST)?;
        let heads = Heads::new(alloc)?;
        let table = Table::new(alloc)?;
        Ok(Recent {
            entries,
            first: 0,
            heads,
            table,
        })
    }

    /// Appends an entry. Where `MOST` entries are there, the oldest one goes. It takes no memory.
    /// Rule: this project's own.
    pub fn push(&mut self, entry: T)
        ensures { self.new ≡ with_latest MOST self.old entry }
    {
        let _forgotten = self.exchange(entry);
    }

    /// Appends an entry. Where `MOST` entries are there, the oldest one goes and is returned; else
    /// it returns `None`. It takes no memory.
    /// Rule: this project's own.
    pub fn exchange(&mut self, entry: T) -> Option<T>
        ensures list { self.new ≡ with_latest MOST self.old entry }
        ensures all { option_to_list result ++ self.new ≡ self.old ++ entry ∷ [] }
    {
        let forgotten = self.make_room();
        self.make_seats();
        self.append(entry);
        forgotten
    }

    // Forgets the oldest entry where `MOST` entries are there.
    fn make_room(&mut self) -> Option<T>
        ensures rest { self.new ≡ (if nat_lt (length self.old) MOST then self.old else drop 1 self.old) }
        ensures all { option_to_list result ++ self.new ≡ self.old }
        ensures room { length self.new < MOST }
    {
        if self.len() == MOST {
            return self.forget_oldest();
        }
        None
    }

    // Makes seats for one more entry, if there are few.
    fn make_seats(&mut self)
        ensures { self.new ≡ self.old }
    {
        self.heads.make_room(self.entries.len());
    }

    /// Returns how many entries there are, at most `MOST`.
    /// Rule: this project's own.
    pub fn len(&self) -> usize
        ensures len { result ≡ length self.now }
        ensures most { result ≤ MOST }
        ensures some { 0 < MOST }
        ensures fits { MOST < 2 ^ 32 }
    {
        self.entries.len()
    }

    /// Returns the latest entry of an identifier, or `None` exactly where it has none. Mostly the
    /// head of its seat tells.
    /// Rule: this project's own.
    pub fn latest(&self, id: &Id) -> Option<&T>
        ensures { option_copied result ≡ latest T.id self.now id.now }
    {
        // Where a seat has no head, no entry has the seat.
        let number = self.heads.number(id);
        let Some(head) = index::entry_of(&self.entries, self.first, number) else {
            return None;
        };
        if head.id() == *id {
            return Some(head);
        }
        latest_filed(&self.table, &self.entries, self.first, id)
    }

    /// Returns the entry that came last, or `None` exactly where the list is empty.
    /// Rule: this project's own.
    pub fn newest(&self) -> Option<&T>
        ensures { option_copied result ≡ last_or None self.now }
    {
        index::entry_at(&self.entries, self.entries.len().saturating_sub(1))
    }

    /// Returns whether there is an entry of an identifier.
    /// Rule: this project's own.
    pub fn holds(&self, id: &Id) -> bool
        ensures { result ≡ is_some (latest T.id self.now id.now) }
    {
        self.latest(id).is_some()
    }

    // Forgets the oldest entry, and gives it back.
    fn forget_oldest(&mut self) -> Option<T>
        requires { 0 < length self.old }
        ensures rest { self.new ≡ drop 1 self.old }
        ensures all { option_to_list result ++ self.new ≡ self.old }
    {
        seats::take_oldest_number(&mut self.table, &self.heads, &self.entries, self.first);
        let oldest = self.entries.pop_front();
        self.first = self.first.wrapping_add(1);
        oldest
    }

    // Appends an entry to a list that isn't full.
    fn append(&mut self, entry: T)
        requires { length self.old < MOST }
        ensures { self.new ≡ self.old ++ entry ∷ [] }
    {
        let id = entry.id();
        seats::take_seat(&mut self.table, &self.heads, &self.entries, self.first, &id);
        let number = self.first.wrapping_add(self.entries.len() as u32);
        self.entries.push_back_reserved(entry);
        self.heads.set(&id, number);
    }
}

// The latest entry of an identifier that isn't the head of its seat.
fn latest_filed<'a, T: Named, const MOST: usize>(
    table: &Table<MOST>,
    entries: &'a VecDeque<T>,
    first: u32,
    id: &Id,
) -> Option<&'a T>
    requires { IsRising (id_of T.id entries.now.items first) table.now }
    ensures { IsFiled T.id entries.now.items first table.now id.now (option_copied result) }
{
    match table.latest(entries, first, id) {
        Some(number) => index::entry_of(entries, first, number),
        None => None,
    }
}
