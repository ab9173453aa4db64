ghost use Rattle.std.specs.Prelude.{◌≡◌, ℕ, ◌+◌, ◌-◌, ◌<◌, List, true, [], Some, None, IfOk, IfSome, if◌then◌else◌};
ghost use Rattle.std.specs.List.{slice_get};
ghost use Rattle.std.specs.Option.{option_copied};
ghost use Rattle.snow_store.specs.Model.Keeping.{held, highest, stray, child_stop, fork_stop, below_stop, above_stop, misplaced, placed_there, placed, taken, after_taking, Answers};
ghost use Rattle.snow_store.specs.Model.Paths.{has_id, wanted_below, missed_from};
ghost use Rattle.snow_store.specs.Kept.Indexing.{top_of, children_of, links_of};
ghost use Rattle.snow_store.specs.Laws.Linking.{IsLinked, held_heights};
ghost use Rattle.snow_store.specs.Model.Needing.{need_at};

use crate::index;
use crate::index::{Children, Links};
use crate::stop::{BootStop, Verdict};
use snow_base::limits::MOST_KEPT;
use snow_base::{Bytes, Header, Id};
use snow_interval::Kept;
use snow_map::IdMap;
use std::alloc::Global;
use std::collections::BTreeMap;
use std::marker::Model;

/// A block that is kept until its path is whole.
/// Rule: AvalancheGo, snow/engine/snowman/bootstrap.
#[derive(Drop)]
pub struct KeptBlock {
    /// What the block says of itself.
    pub header: Header,
    /// Its bytes.
    pub bytes: Bytes,
}

/// The last accepted block, and at most 32,768 blocks that are kept above it. It finds each by its
/// height, by its identifier and by its parent. Contracts see the kept blocks, and whether the
/// store is whole. After want of memory it isn't, and its caller only drops it.
/// Rule: AvalancheGo, snow/engine/snowman/bootstrap.
#[derive(Drop)]
pub struct Store<H: Kept> {
    last: Id,
    height: u64,
    kept: Vec<KeptBlock>,
    places: BTreeMap<u64, usize>,
    by_id: IdMap<Links>,
    heights: H,
    whole: bool,
    alloc: Global,
}

impl<H: Kept> Model for Store<H> {
    ghost use Rattle.std.specs.Prelude.{◌≡◌, true, reverse};
    ghost use Rattle.snow_store.specs.Kept.StoreCode.{coded_shelf};
    ghost use Rattle.snow_store.specs.Kept.Indexing.{Shelf, IsStored};

    ghost Value = { Shelf };

    ghost coded = { coded_shelf };

    ghost view = { λ a. record { whole = a.whole; store = record { last = a.last; height = a.height; kept = reverse a.kept.items } } };

    ghost invariant = { λ a. a.whole ≡ true → IsStored record { last = a.last; height = a.height; kept = reverse a.kept.items } a.places a.by_id (H.floor a.heights) (H.held a.heights) };
}

impl<H: Kept> Store<H> {
    /// Returns the store that keeps no block above the last accepted one. It takes no memory.
    /// Rule: AvalancheGo, snow/engine/snowman/bootstrap.
    pub fn begin(alloc: Global, last: Id, height: u64) -> Self
        ensures { result ≡ record { whole = true; store = record { last = last; height = height; kept = [] } } }
    {
        Store {
            last,
            height,
            kept: Vec::new(alloc),
            places: BTreeMap::new(alloc),
            by_id: IdMap::new(alloc),
            heights: H::begin(alloc, height),
            whole: true,
            alloc,
        }
    }

    /// Returns the last accepted block.
    /// Rule: AvalancheGo, snow/engine/snowman/bootstrap.
    pub fn last(&self) -> Id
        ensures { result ≡ self.now.store.last }
    {
        self.last
    }

    /// Returns the height of the last accepted block, below 2^64.
    /// Rule: AvalancheGo, snow/engine/snowman/bootstrap.
    pub fn height(&self) -> u64
        ensures { result ≡ self.now.store.height }
    {
        self.height
    }

    /// Tells contracts that the kept blocks of a whole store fit one another. It does nothing.
    /// Rule: this project's own.
    pub fn links(&self)
        requires { self.now.whole ≡ true }
        ensures { IsLinked self.now.store }
    {
        let _count = self.kept.len();
    }

    /// Returns the kept block at a height, or `None` exactly where none is kept there. The store is
    /// whole.
    /// Rule: AvalancheGo, snow/engine/snowman/bootstrap.
    pub fn at(&self, height: u64) -> Option<&KeptBlock>
        requires { self.now.whole ≡ true }
        ensures { option_copied result ≡ held self.now.store.kept height }
    {
        match self.in_run(height) {
            Some(block) => Some(block),
            None => self.look_up(height),
        }
    }

    /// Returns the kept block at a height, where it came so many blocks before the last one as it
    /// is higher. Most blocks come so, each right below the one before.
    fn in_run(&self, height: u64) -> Option<&KeptBlock>
        requires { self.now.whole ≡ true }
        ensures { IfSome (option_copied result) (λ block. held self.now.store.kept height ≡ Some block) }
    {
        let last = self.kept.last()?;
        let higher = height.checked_sub(last.header.height)?;
        let place = (self.kept.len() as u64 - 1).checked_sub(higher)?;
        let block = item_at(self.kept.as_slice(), place as usize)?;
        if block.header.height != height {
            return None;
        }
        Some(block)
    }

    /// Returns the kept block at a height, by its place. It searches no place where none is kept.
    fn look_up(&self, height: u64) -> Option<&KeptBlock>
        requires { self.now.whole ≡ true }
        ensures { option_copied result ≡ held self.now.store.kept height }
    {
        if !self.heights.contains(height) {
            return None;
        }
        match self.places.get(&height) {
            Some(place) => item_at(self.kept.as_slice(), *place),
            None => None,
        }
    }

    /// Returns the kept block at the height above one.
    fn above_of(&self, height: u64) -> Option<&KeptBlock>
        requires { self.now.whole ≡ true }
        ensures { option_copied result ≡ held self.now.store.kept (height + 1) }
    {
        let _count = self.kept.len();
        match height.checked_add(1) {
            Some(above) => self.at(above),
            None => None,
        }
    }

    /// Returns the highest height at which an identifier is kept, or `None` exactly where it isn't.
    /// The store is whole.
    /// Rule: AvalancheGo, snow/engine/snowman/bootstrap.
    pub fn top(&self, id: &Id) -> Option<u64>
        requires { self.now.whole ≡ true }
        ensures { result ≡ top_of self.now.store.kept id.now }
    {
        self.links_of(id).top
    }

    /// Returns what is kept of an identifier.
    fn links_of(&self, id: &Id) -> Links
        requires { self.now.whole ≡ true }
        ensures { result ≡ links_of self.now.store.kept id.now }
    {
        index::links_at(&self.by_id, id)
    }

    /// Returns the lowest kept child of a block that isn't right above its height.
    fn stray(&self, header: &Header, children: Option<Children>) -> Option<&KeptBlock>
        requires whole { self.now.whole ≡ true }
        requires children { children ≡ children_of self.now.store.kept header.now.id }
        ensures { option_copied result ≡ stray self.now.store.kept header.now.id header.now.height }
    {
        self.links();
        match index::stray_height(header.height, children) {
            Some(height) => self.at(height),
            None => None,
        }
    }

    /// Returns the stop where a kept child of a block is at a wrong height.
    fn refused(&self, header: &Header, children: Option<Children>) -> Option<BootStop>
        requires whole { self.now.whole ≡ true }
        requires children { children ≡ children_of self.now.store.kept header.now.id }
        ensures { result ≡ child_stop (stray self.now.store.kept header.now.id header.now.height) }
    {
        let child = self.stray(header, children)?;
        Some(BootStop::Refused {
            id: child.header.id,
        })
    }

    /// Returns what becomes of a block that is taken: the first of the rules that applies.
    #[tactic(auto, unfolding(crate::specs::Model::Keeping::taken))]
    fn judge(&self, header: &Header, children: Option<Children>) -> Result<Verdict, BootStop>
        requires whole { self.now.whole ≡ true }
        requires children { children ≡ children_of self.now.store.kept header.now.id }
        ensures { result ≡ taken self.now.store header.now }
    {
        if let Some(stop) = self.refused(header, children) {
            return Err(stop);
        }
        if header.height <= self.height {
            return Ok(Verdict::Low);
        }
        match self.at(header.height) {
            Some(other) => judge_there(header, other),
            None => self.judge_free(header),
        }
    }

    /// Returns what becomes of a block above the last accepted one, at a height that is free.
    fn judge_free(&self, header: &Header) -> Result<Verdict, BootStop>
        requires whole { self.now.whole ≡ true }
        requires above { self.now.store.height < header.now.height }
        ensures { result ≡ placed self.now.store header.now None }
    {
        if self.kept.len() >= MOST_KEPT {
            return Err(BootStop::Full);
        }
        match self.misplaced(header) {
            Some(stop) => Err(stop),
            None => Ok(Verdict::Keeps),
        }
    }

    /// Returns the stop where a block doesn't fit the blocks around it.
    fn misplaced(&self, header: &Header) -> Option<BootStop>
        requires whole { self.now.whole ≡ true }
        requires above { self.now.store.height < header.now.height }
        ensures { result ≡ misplaced self.now.store header.now }
    {
        if let Some(stop) = self.fork(header) {
            return Some(stop);
        }
        if let Some(stop) = self.below(header) {
            return Some(stop);
        }
        self.above(header)
    }

    /// Returns the stop where the block below, if one is kept, isn't the parent.
    fn below(&self, header: &Header) -> Option<BootStop>
        requires whole { self.now.whole ≡ true }
        requires above { self.now.store.height < header.now.height }
        ensures { result ≡ below_stop header.now (held self.now.store.kept (header.now.height - 1)) }
    {
        let block = self.at(header.height - 1)?;
        if block.header.id == header.parent {
            return None;
        }
        Some(BootStop::Conflict {
            height: header.height - 1,
            first: block.header.id,
            second: header.parent,
        })
    }

    /// Returns the stop where the block above, if one is kept, has another parent.
    fn above(&self, header: &Header) -> Option<BootStop>
        requires { self.now.whole ≡ true }
        ensures { result ≡ above_stop header.now (held self.now.store.kept (header.now.height + 1)) }
    {
        let block = self.above_of(header.height)?;
        if block.header.parent == header.id {
            return None;
        }
        Some(BootStop::Conflict {
            height: header.height,
            first: block.header.parent,
            second: header.id,
        })
    }

    /// Returns the stop where a block right above the last accepted one has another parent.
    fn fork(&self, header: &Header) -> Option<BootStop>
        requires { self.now.store.height < header.now.height }
        ensures { result ≡ fork_stop self.now.store header.now }
    {
        if header.height - 1 == self.height && header.parent != self.last {
            return Some(BootStop::Fork {
                id: header.id,
                parent: header.parent,
            });
        }
        None
    }

    /// Takes a block into a whole store. The first of these applies:
    ///
    /// - `Err(Refused)`: a kept child of the block has a height other than one more.
    /// - `Low`: its height is at most the last accepted one.
    /// - `Known`: it is kept at its height.
    /// - `Err(Conflict)`: another block is kept there.
    /// - `Err(Full)`: 32,768 blocks are kept.
    /// - `Err(Fork)`: it is right above the last accepted block and has another parent.
    /// - `Err(Conflict)`: it doesn't fit the block below or above.
    /// - `Keeps`: none of these. It is kept then.
    ///
    /// On want of memory it returns `Err(Memory)`.
    /// Rule: AvalancheGo, snow/engine/snowman/bootstrap.
    pub fn take(&mut self, header: &Header, bytes: &[u8]) -> Result<Verdict, BootStop>
        requires { self.old.whole ≡ true }
        ensures answer { Answers result (taken self.old.store header.now) }
        ensures store { IfOk result (λ verdict. self.new ≡ record { whole = true; store = after_taking self.old.store record { header = header.now; bytes = bytes.now } verdict }) }
    {
        let links = self.links_of(&header.id);
        let verdict = self.judge(header, links.children)?;
        let Verdict::Keeps = verdict else {
            return Ok(verdict);
        };
        self.whole = false;
        self.kept.reserve(1)?;
        index::note_place(&mut self.places, header.height, self.kept.len())?;
        index::note_links(&mut self.by_id, header, links)?;
        let _ = self.heights.add(header.height)?;
        let bytes = Bytes::from_slice(self.alloc, bytes)?;
        self.kept.push_reserved(KeptBlock {
            header: *header,
            bytes,
        });
        self.whole = true;
        Ok(verdict)
    }

    /// Returns what is missed below the run of held heights that holds this one: the parent of the
    /// run's lowest block. It returns `None` where that block is right above the last accepted one.
    /// The store is whole.
    /// Rule: AvalancheGo, snow/engine/snowman/bootstrap.
    pub(crate) fn wanted_at(&self, height: u64) -> Option<Id>
        requires whole { self.now.whole ≡ true }
        requires held { held_heights self.now.store.kept height ≡ true }
        ensures { result ≡ need_at self.now.store height }
    {
        match self.at(self.heights.lowest(height)) {
            Some(block) => wanted_below(self.height, block),
            None => None,
        }
    }

    /// Returns what a target misses: what is missed below its highest kept block, or the target
    /// itself where it isn't kept. It returns `None` where the target misses nothing. `found` tells
    /// whether the target was found at or below the last accepted height. The store is whole.
    /// Rule: AvalancheGo, snow/engine/snowman/bootstrap.
    pub fn missed(&self, target: &Id, found: bool) -> Option<Id>
        requires { self.now.whole ≡ true }
        ensures { (noted : List (List ℕ)) → found ≡ has_id noted target.now → result ≡ missed_from self.now.store noted target.now (highest self.now.store.kept target.now) }
    {
        self.links();
        match self.top(target) {
            Some(top) => self.wanted_at(top),
            None => wanted(target, *target == self.last || found),
        }
    }
}

// The block at a place.
fn item_at(kept: &[KeptBlock], place: usize) -> Option<&KeptBlock>
    ensures { option_copied result ≡ slice_get kept.now place }
{
    kept.get(place)
}

// The parent of a block that isn't right above a height.
fn wanted_below(height: u64, block: &KeptBlock) -> Option<Id>
    ensures { result ≡ wanted_below height (Some block.now) }
{
    if block.header.height > 0 && block.header.height - 1 == height {
        return None;
    }
    Some(block.header.parent)
}

// A target that isn't kept, where it is neither the last accepted block nor found.
fn wanted(target: &Id, had: bool) -> Option<Id>
    ensures { result ≡ (if had then None else Some target.now) }
{
    if had {
        return None;
    }
    Some(*target)
}

// A block at a height that another holds.
fn judge_there(header: &Header, other: &KeptBlock) -> Result<Verdict, BootStop>
    ensures { result ≡ placed_there header.now other.now }
{
    if other.header.id == header.id {
        return Ok(Verdict::Known);
    }
    Err(BootStop::Conflict {
        height: header.height,
        first: other.header.id,
        second: header.id,
    })
}
