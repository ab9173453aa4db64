ghost use Rattle.std.specs.Prelude.{◌≡◌, [], IfOk};
ghost use Rattle.std.specs.Option.{option_copied};
ghost use Rattle.snow_issue.specs.Model.Gone.{with_gone, latest, stands_for, holds};

use snow_base::Id;
use snow_base::limits::MOST_GONE;
use snow_recent::{Named, Recent};
use std::alloc::{AllocError, Global};
use std::marker::Model;

/// A block that is gone: it was accepted, rejected or taken out. It may name a parent, which stands
/// for it in votes.
/// Rule: AvalancheGo, snow/engine/snowman.
#[derive(Clone, Copy, Debug, PartialEq, Eq)]
pub struct Gone {
    /// The block.
    pub id: Id,
    /// The block that stands for it in votes, where there is one.
    pub parent: Option<Id>,
}

impl Named for Gone {
    ghost id = { λ e. e.id };

    fn id(&self) -> Id {
        self.id
    }
}

/// The entries of the last 8,192 blocks that went. Contracts see the list of them, the latest last.
///
/// It makes all room when it is made, so that no later call takes memory.
/// Rule: this project's own.
#[derive(Drop)]
pub struct GoneList {
    entries: Recent<Gone, MOST_GONE>,
}

impl Model for GoneList {
    ghost use Rattle.std.specs.Prelude.{List};
    ghost use Rattle.snow_issue.specs.declared.gone.Gone.{Gone};

    ghost Value = { List Gone };

    ghost view = { λ a. a.entries };
}

impl GoneList {
    /// Returns the empty list, with room for 8,192 entries. On want of memory it returns
    /// `AllocError`.
    /// Rule: this project's own.
    pub fn new(alloc: Global) -> Result<Self, AllocError>
        ensures { IfOk result (λ list. list ≡ []) }
    {
        let entries = Recent::new(alloc)?;
        Ok(GoneList { entries })
    }

    /// Appends an entry. Where 8,192 are there, the oldest one goes. It takes no memory.
    /// Rule: this project's own.
    pub fn enter(&mut self, entry: Gone)
        ensures { self.new ≡ with_gone self.old entry }
    {
        push(&mut self.entries, entry.id, entry.parent);
    }

    /// Returns the latest entry of a block, or `None` exactly where the block has none.
    /// Rule: AvalancheGo, snow/engine/snowman.
    pub fn latest(&self, id: &Id) -> Option<&Gone>
        ensures { option_copied result ≡ latest self.now id.now }
    {
        self.entries.latest(id)
    }

    /// Returns the parent of a block's latest entry, or `None` where the block has no entry or that
    /// has no parent.
    /// Rule: AvalancheGo, snow/engine/snowman.
    pub fn stands_for(&self, id: &Id) -> Option<Id>
        ensures { result ≡ stands_for self.now id.now }
    {
        match self.latest(id) {
            Some(entry) => entry.parent,
            None => None,
        }
    }

    /// Returns whether a block has an entry in the list.
    /// Rule: AvalancheGo, snow/engine/snowman.
    pub fn holds(&self, id: &Id) -> bool
        ensures { result ≡ holds self.now id.now }
    {
        self.entries.holds(id)
    }
}

// Appends an entry of these.
fn push(entries: &mut Recent<Gone, MOST_GONE>, id: Id, parent: Option<Id>)
    ensures { entries.new ≡ with_gone entries.old (record { id = id; parent = parent }) }
{
    entries.push(Gone { id, parent });
}
