ghost use Rattle.std.specs.Prelude.{◌≡◌, ◌^◌, ◌<◌, OnOk, OnErr};

use crate::only_child::{OnlyChild, poll_alone, spread};
use crate::tree::{self, Tree};
use snow_base::{Id, Vote};
use snow_flake::{Params, Rule};
use std::alloc::{AllocError, Global};
use std::marker::Model;

/// The counters of one block's children, one for each bit list with which the bits of a child
/// begin.
///
/// As long as there is one child, and no votes for others come, one instance stands for all its
/// counters: a poll and a look at them take one step. The tree is then kept as the child's issue left
/// it, since a poll that needs it takes no memory.
/// Rule: AvalancheGo, snow/consensus/snowball.
#[derive(Drop)]
pub struct Conflict {
    only_child: Option<OnlyChild>,
    tree: Tree,
    alloc: Global,
}

impl Model for Conflict {
    ghost use Rattle.snow_plain.specs.Kept.Alone.{counters_seen, IsKept};
    ghost use Rattle.snow_board.specs.Model.Conflict.{Counters};
    ghost use Rattle.snow_board.specs.Kept.CountersCode.{coded_counters};
    ghost use Rattle.snow_plain.specs.Kept.Trees.{counters_of};

    ghost Value = { Counters };

    ghost coded = { coded_counters };

    ghost view = { λ a. counters_seen a.only_child (counters_of a.tree) };

    ghost invariant = { λ a. IsKept a.only_child (counters_of a.tree) };
}

impl Conflict {
    ghost use Rattle.snow_base.specs.Model.Identifier.{bits};
    ghost use Rattle.snow_base.specs.Model.Votes.{IsInBitOrder, total_count};
    ghost use Rattle.snow_board.specs.Model.Conflict.{Blank, with_child, all_polled, votes_on, leads_to, decides};

    /// Returns no counters, as before a child is issued. It takes no memory.
    /// Rule: AvalancheGo, snow/consensus/snowball.
    pub fn new(alloc: Global) -> Self
        ensures { result ≡ Blank }
    {
        Conflict {
            only_child: None,
            tree: Tree::Leaf,
            alloc,
        }
    }

    /// Adds a child: its bits get fresh counters where none stood, up to a decided counter of the
    /// other bit. On want of memory it returns `AllocError`, and the counters stay as they were.
    /// Rule: AvalancheGo, snow/consensus/snowball.
    pub fn add(&mut self, child: &Id) -> Result<(), AllocError>
        ensures ok { OnOk result (self.new ≡ with_child (bits child.now) self.old) }
        ensures err { OnErr result (self.new ≡ self.old) }
    {
        spread(&mut self.tree, &mut self.only_child);
        if !self.tree.is_leaf() {
            return tree::add(&mut self.tree, self.alloc, child, 0);
        }
        tree::add(&mut self.tree, self.alloc, child, 0)?;
        self.only_child = Some(OnlyChild::new(child));
        Ok(())
    }

    /// Lets every counter make the bit step with its own votes, and drops those behind a decided
    /// counter of the other bit. The votes are those for children, in bit order, fewer than 2^32.
    /// It takes no memory.
    /// Rule: AvalancheGo, snow/consensus/snowball.
    pub fn poll(&mut self, params: &Params, votes: &[Vote])
        requires order { IsInBitOrder votes.now }
        requires total { total_count votes.now < 2 ^ 32 }
        ensures { self.new ≡ all_polled params.now (votes_on votes.now) self.old }
    {
        if poll_alone(&mut self.only_child, params, votes) {
            return;
        }
        spread(&mut self.tree, &mut self.only_child);
        tree::poll(&mut self.tree, params, votes, 0);
    }

    /// Returns whether the counters lead to this identifier, each by its answer.
    /// Rule: AvalancheGo, snow/consensus/snowball.
    pub fn leads_to<R: Rule>(&self, id: &Id) -> bool
        ensures { result ≡ leads_to R.answer self.now id.now }
    {
        match &self.only_child {
            Some(only_child) => only_child.is(id),
            None => tree::leads_to::<R>(&self.tree, id, 0),
        }
    }

    /// Returns whether decided counters alone lead to this identifier.
    /// Rule: AvalancheGo, snow/consensus/snowball.
    pub fn decides(&self, id: &Id) -> bool
        ensures { result ≡ decides self.now id.now }
    {
        match &self.only_child {
            Some(only_child) => only_child.decides(id),
            None => tree::decides(&self.tree, id, 0),
        }
    }
}
