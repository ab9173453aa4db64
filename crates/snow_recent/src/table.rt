//! Numbers of entries, in the order of the entries' identifiers. A number that comes or leaves moves
//! those behind it, some ten kilobytes at most.
ghost use Rattle.std.specs.Prelude.{◌≡◌, ◌<◌, ◌≤◌, [], length, IfOk};
ghost use Rattle.std.specs.List.{insert};
ghost use Rattle.snow_recent.specs.Kept.Index.{id_of, IsRising, IsPlaceOf, without_oldest, filed};
ghost use Rattle.snow_recent.specs.Kept.Table.{IsLatest};

use crate::index;
use crate::recent::Named;
use snow_base::Id;
use std::alloc::{AllocError, Global};
use std::collections::VecDeque;
use std::marker::Model;

/// At most `MOST` numbers, each with a key, which tells where to look first for it. Contracts see the
/// numbers. It makes all its room when it is made.
#[derive(Drop)]
pub(crate) struct Table<const MOST: usize> {
    numbers: Vec<u32>,
    keys: Vec<u32>,
}

impl<const MOST: usize> Model for Table<MOST> {
    ghost use Rattle.std.specs.Prelude.{◌≡◌, ℕ, ◌≤◌, List, length, vec_capacity};

    ghost Value = { List ℕ };

    ghost view = { λ a. a.numbers.items };

    ghost invariant = { λ a. (MOST ≤ vec_capacity a.numbers) × (MOST ≤ vec_capacity a.keys) × (length a.keys.items ≡ length a.numbers.items) };
}

impl<const MOST: usize> Table<MOST> {
    /// Returns no number, and room for `MOST`.
    pub(crate) fn new(alloc: Global) -> Result<Self, AllocError>
        ensures { IfOk result (λ made. made ≡ []) }
    {
        let numbers = Vec::with_capacity(alloc, MOST)?;
        let keys = Vec::with_capacity(alloc, MOST)?;
        Ok(Table { numbers, keys })
    }

    // Where an identifier's number stands, or else where it belongs. Mostly the place to which its
    // first bytes lead tells, or the one before.
    fn place<T: Named>(&self, entries: &VecDeque<T>, first: u32, id: &Id) -> Result<usize, usize>
        requires { IsRising (id_of T.id entries.now.items first) self.now }
        ensures { IsPlaceOf (id_of T.id entries.now.items first) self.now id.now result }
    {
        let key = index::key_of(id);
        let likely = self.keys.partition_point(|other| *other < key);
        index::place(entries, first, self.numbers.as_slice(), likely, id)
    }

    /// Returns the number of an identifier's latest entry.
    pub(crate) fn latest<T: Named>(&self, entries: &VecDeque<T>, first: u32, id: &Id) -> Option<u32>
        requires { IsRising (id_of T.id entries.now.items first) self.now }
        ensures { IsLatest (id_of T.id entries.now.items first) self.now id.now result }
    {
        match self.place(entries, first, id) {
            Ok(at) => Some(self.numbers[at]),
            Err(_) => None,
        }
    }

    /// Takes the number of the oldest entry out, if it is there.
    pub(crate) fn take_oldest<T: Named>(&mut self, entries: &VecDeque<T>, first: u32)
        requires { IsRising (id_of T.id entries.now.items first) self.old }
        ensures { self.new ≡ without_oldest first self.old }
    {
        let oldest = index::id_of(entries, first, first);
        if let Ok(at) = self.place(entries, first, &oldest) {
            if self.numbers[at] == first {
                self.numbers.remove(at);
                self.keys.remove(at);
            }
        }
    }

    /// Files the number of a new entry, in place of that of an older entry of its identifier.
    pub(crate) fn file<T: Named>(&mut self, entries: &VecDeque<T>, first: u32, number: u32)
        requires order { IsRising (id_of T.id entries.now.items first) self.old }
        requires room { length self.old < MOST }
        ensures { self.new ≡ filed (id_of T.id entries.now.items first) self.old number }
    {
        let id = index::id_of(entries, first, number);
        match self.place(entries, first, &id) {
            Ok(at) => self.numbers[at] = number,
            Err(at) => self.insert(at, number, index::key_of(&id)),
        }
    }

    // Puts a number in at a place, for which there is room.
    fn insert(&mut self, at: usize, number: u32, key: u32)
        requires within { at ≤ length self.old }
        requires room { length self.old < MOST }
        ensures { self.new ≡ insert self.old at number }
    {
        let inserted: Result<_, _> = self.numbers.insert(at, number);
        let _ = inserted.unwrap();
        let keyed: Result<_, _> = self.keys.insert(at, key);
        let _ = keyed.unwrap();
    }
}
