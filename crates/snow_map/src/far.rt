//! Entries whose seat another one has, in order of identifiers.
ghost use Rattle.std.specs.Prelude.{◌≡◌, ◌<◌, ◌≤◌, ℕ, true, false, [], IfOk, OnOk, OnErr, Some, None, bytes_eq, cond, length, nat_eq};
ghost use Rattle.std.specs.List.{IsDistinct};
ghost use Rattle.std.specs.Map.{keys_of};
ghost use Rattle.std.specs.Option.{option_copied};
ghost use Rattle.snow_map.specs.Clauses.Entries.{value_of, HasAt};
ghost use Rattle.snow_map.specs.Kept.Placed.{mark_of, is_marked};

use crate::near::seat_of;
use snow_base::Id;
use std::alloc::{AllocError, Global};
use std::collections::BTreeMap;
use std::marker::Model;

// So many marks tell for which identifiers a search may find something.
const MARKS: usize = 4096;

/// Entries in order of identifiers. Contracts see the entries.
/// Rule: this project's own.
#[derive(Drop)]
pub(crate) struct Far<V> {
    entries: BTreeMap<Id, V>,
    // Every entry's mark is set, and those of some that went. Where it isn't, a look-up searches nothing.
    marks: Vec<bool>,
}

impl<V> Model for Far<V> {
    ghost use Rattle.std.specs.Prelude.{ℕ, List};
    ghost use Rattle.snow_map.specs.Kept.Placed.{IsInOrder};

    ghost Value = { List (List ℕ × V) };

    ghost view = { λ a. a.entries.entries };

    ghost invariant = { λ a. IsInOrder a.marks.items a.entries.entries };
}

impl<V: Drop> Far<V> {
    /// Returns no entry. It takes no memory.
    pub(crate) fn new(alloc: Global) -> Self
        ensures { result ≡ [] }
    {
        Far {
            entries: BTreeMap::new(alloc),
            marks: Vec::new(alloc),
        }
    }

    /// Returns the value at an identifier, or `None`. Mostly there is no entry.
    pub(crate) fn value(&self, id: &Id) -> Option<&V>
        ensures { option_copied result ≡ value_of self.now id.now }
    {
        if !is_marked(self.marks.as_slice(), id) {
            return None;
        }
        self.entries.get(id)
    }

    /// Puts a value at an identifier, and returns the one that was there. On want of memory all
    /// stays as it was.
    pub(crate) fn put(&mut self, id: Id, value: V) -> Result<Option<V>, AllocError>
        ensures before { IfOk result (λ before. before ≡ value_of self.old id) }
        ensures updates { OnOk result (HasAt self.old self.new id (Some value)) }
        ensures once { IsDistinct bytes_eq (keys_of self.new) }
        ensures err { OnErr result (self.new ≡ self.old) }
        ensures absent { OnErr result (value_of self.old id ≡ None) }
    {
        mark(&mut self.marks, &id)?;
        let before = self.entries.insert(id, value)?;
        Ok(before)
    }

    /// Takes the value at an identifier out and returns it.
    pub(crate) fn take(&mut self, id: &Id) -> Option<V>
        ensures value { result ≡ value_of self.old id.now }
        ensures updates { HasAt self.old self.new id.now None }
        ensures once { IsDistinct bytes_eq (keys_of self.new) }
    {
        let value = self.entries.remove(id);
        self.clear_marks();
        value
    }

    /// Clears the marks where there is no entry any more.
    fn clear_marks(&mut self)
        ensures { self.new ≡ self.old }
    {
        if self.entries.is_empty() {
            self.marks.clear();
        }
    }
}

/// The mark of an identifier.
fn mark_of(id: &Id) -> usize
    ensures mark { result ≡ mark_of id.now }
    ensures small { result < 4096 }
{
    seat_of(id) % MARKS
}

/// Whether the mark of an identifier is set.
fn is_marked(marks: &[bool], id: &Id) -> bool
    ensures { result ≡ is_marked marks.now (mark_of id.now) }
{
    match marks.get(mark_of(id)) {
        Some(mark) => *mark,
        None => false,
    }
}

/// Makes all marks. Those that are set stay so.
fn make_marks(marks: &mut Vec<bool>) -> Result<(), AllocError>
    ensures same { (at : ℕ) → is_marked marks.new.items at ≡ is_marked marks.old.items at }
    ensures ok { OnOk result (4096 ≤ length marks.new.items) }
{
    if marks.len() < MARKS {
        marks.resize(MARKS, false)?;
    }
    Ok(())
}

/// Sets the mark of an identifier. Want of memory can come only where it isn't set.
fn mark(marks: &mut Vec<bool>, id: &Id) -> Result<(), AllocError>
    ensures ok { OnOk result ((at : ℕ) → is_marked marks.new.items at ≡ cond (nat_eq (mark_of id.now) at) true (is_marked marks.old.items at)) }
    ensures err { OnErr result ((at : ℕ) → is_marked marks.new.items at ≡ is_marked marks.old.items at) }
    ensures unmarked { OnErr result (is_marked marks.old.items (mark_of id.now) ≡ false) }
{
    if is_marked(marks.as_slice(), id) {
        return Ok(());
    }
    make_marks(marks)?;
    marks[mark_of(id)] = true;
    Ok(())
}
