ghost use Rattle.std.specs.Prelude.{◌≡◌, ◌+◌, ◌-◌, ◌==◌, IfSome, ◌<◌, ◌∷◌, ◌++◌, [], List, map, true, false, length, slice_set, HoldsAt, OnOk, OnErr};
ghost use Rattle.std.specs.List.{position_or_len, remove};
ghost use Rattle.snow_issue.specs.Kept.Known.{items_of, NoneNew, NoneRipe};
ghost use Rattle.snow_issue.specs.Model.Lists.{waits_among, waits_below};
ghost use Rattle.snow_lineup.specs.Kept.Marks.{has, IsOnlyAt};
ghost use Rattle.snow_lineup.specs.Kept.Index.{woken, forgotten};

use crate::work::Waiting;
use snow_base::{Header, Id};
use snow_lineup::{Keyed, Lineup, Mark};
use snow_map::IdMap;
use std::alloc::{AllocError, Global};
use std::marker::Model;

impl Keyed for Waiting {
    ghost key = { λ w. w.header.parent };

    fn key(&self) -> Id {
        self.header.parent
    }
}

/// The waiting blocks in order of arrival, each with its mark, and indexes by parent and by
/// identifier.
#[derive(Drop)]
pub(crate) struct WaitingList {
    lineup: Lineup<Waiting>,
    heights: IdMap<u64>,
}

impl Model for WaitingList {
    ghost use Rattle.std.specs.Prelude.{List};
    ghost use Rattle.snow_issue.specs.declared.work.Waiting.{Waiting};
    ghost use Rattle.snow_lineup.specs.declared.marks.Mark.{Mark};
    ghost use Rattle.snow_issue.specs.Kept.Known.{items_of};
    ghost use Rattle.snow_issue.specs.Kept.Index.{HasHeights};
    ghost use Rattle.snow_map.specs.Clauses.Entries.{value_of};

    ghost Value = { List (Waiting × Mark) };

    ghost view = { λ a. a.lineup };

    ghost invariant = { λ a. HasHeights (value_of a.heights) (items_of a.lineup) };
}

impl WaitingList {
    ghost use Rattle.snow_lineup.specs.declared.marks.Mark.TheVariants.{New};

    /// Returns no block. It takes no memory.
    pub(crate) fn new(alloc: Global) -> Self
        ensures { result ≡ [] }
    {
        WaitingList {
            lineup: Lineup::new(alloc),
            heights: IdMap::new(alloc),
        }
    }

    pub(crate) fn len(&self) -> usize
        ensures { result ≡ length self.now }
    {
        self.lineup.len()
    }

    /// Returns whether a block waits.
    pub(crate) fn waits(&self, id: &Id) -> bool
        ensures { result ≡ waits_among (items_of self.now) id.now }
    {
        if self.lineup.len() == 0 {
            return false;
        }
        self.has_height(id)
    }

    // Whether a block waits, by the index.
    fn has_height(&self, id: &Id) -> bool
        ensures { result ≡ waits_among (items_of self.now) id.now }
    {
        self.heights.contains_key(id)
    }

    /// Returns whether the parent of a block waits, at the height right below it. Where it was
    /// asked for, it mostly came last.
    pub(crate) fn waits_below(&self, child: &Header) -> bool
        ensures { result ≡ waits_below (items_of self.now) child.now }
    {
        let len = self.lineup.len();
        if len == 0 {
            return false;
        }
        let newest = &self.lineup.item(len - 1).header;
        if newest.id == child.parent {
            return is_right_below(newest.height, child.height);
        }
        self.has_height_below(child)
    }

    // Whether its parent waits right below it, by the index.
    fn has_height_below(&self, child: &Header) -> bool
        ensures { result ≡ waits_below (items_of self.now) child.now }
    {
        match self.heights.get(&child.parent) {
            Some(height) => is_right_below(*height, child.height),
            None => false,
        }
    }

    /// Appends a block that doesn't wait yet. On want of memory all stays as it was.
    pub(crate) fn push(&mut self, block: Waiting) -> Result<(), AllocError>
        requires { waits_among (items_of self.old) block.header.id ≡ false }
        ensures ok { OnOk result (self.new ≡ self.old ++ (block, New) ∷ []) }
        ensures err { OnErr result (self.new ≡ self.old) }
    {
        let header = &block.header;
        let (id, height) = (header.id, header.height);
        // The block first, so that it is moved once.
        self.lineup.push(block)?;
        match self.heights.insert(id, height) {
            Ok(_) => Ok(()),
            Err(error) => {
                cut_last(&mut self.lineup);
                Err(error)
            }
        }
    }

    /// Returns `true` only where each block is marked and none is ripe. It may return `false` there
    /// too.
    pub(crate) fn all_quiet(&self) -> bool
        ensures new { result ≡ true → NoneNew self.now }
        ensures ripe { result ≡ true → NoneRipe self.now }
    {
        self.lineup.all_quiet()
    }

    /// Returns where the only block marked `New` stands, where no block is ripe. It may return
    /// `None` there too.
    pub(crate) fn only_new(&self) -> Option<usize>
        ensures there { IfSome result (λ at. at < length self.now) }
        ensures new { IfSome result (λ at. IsOnlyAt New self.now at) }
        ensures ripe { IfSome result (λ at. NoneRipe self.now) }
    {
        self.lineup.only_new()
    }

    /// Returns where the first block with this mark stands, or how many blocks there are.
    pub(crate) fn first(&mut self, mark: Mark) -> usize
        ensures at { result ≡ position_or_len (has mark) self.old }
        ensures same { self.new ≡ self.old }
    {
        self.lineup.first(mark)
    }

    /// Returns what the block at a place says of itself.
    pub(crate) fn header(&self, at: usize) -> &Header
        requires { at < length self.now }
        ensures { HoldsAt (λ s. result.now ≡ s.0.header) self.now at }
    {
        &self.lineup.item(at).header
    }

    /// Marks the block at a place.
    pub(crate) fn set(&mut self, at: usize, mark: Mark)
        requires { at < length self.old }
        ensures { HoldsAt (λ s. self.new ≡ slice_set self.old at (s.0, mark)) self.old at }
    {
        self.lineup.set(at, mark);
    }

    /// Takes the block at a place out and returns it. It takes no memory.
    pub(crate) fn take(&mut self, at: usize) -> Waiting
        requires { at < length self.old }
        ensures taken { HoldsAt (λ s. result ≡ s.0) self.old at }
        ensures rest { self.new ≡ remove self.old at }
    {
        let _ = self.heights.remove(&self.lineup.item(at).header.id);
        self.lineup.take(at)
    }

    /// Marks a block's children `New`.
    pub(crate) fn wake(&mut self, parent: &Id)
        ensures { self.new ≡ map (woken (λ w. w.header.parent) parent.now) self.old }
    {
        self.lineup.wake(parent);
    }

    /// Marks each block `New`.
    pub(crate) fn forget_marks(&mut self)
        ensures { self.new ≡ map forgotten self.old }
    {
        self.lineup.forget_marks();
    }
}

// The block that came last goes.
fn cut_last(lineup: &mut Lineup<Waiting>)
    requires { 0 < length lineup.old }
    ensures { lineup.new ≡ remove lineup.old (length lineup.old - 1) }
{
    let last = lineup.len() - 1;
    let _ = lineup.take(last);
}

// Whether a height is the one right below another. Heights are whole numbers: none is above the last.
fn is_right_below(height: u64, above: u64) -> bool
    ensures { result ≡ (height + 1 == above) }
{
    match height.checked_add(1) {
        Some(next) => next == above,
        None => false,
    }
}
