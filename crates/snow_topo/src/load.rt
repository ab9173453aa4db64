ghost use Rattle.std.specs.Prelude.{◌≡◌, ◌+◌, ◌≤◌, All, Contains, None, IfSome, false, if◌then◌else◌};
ghost use Rattle.snow_base.specs.Model.Votes.{IsInBitOrder, total_count};
ghost use Rattle.snow_board.specs.Model.Conflict.{all_polled, votes_on, chosen};
ghost use Rattle.snow_board.specs.Laws.FailingLaw.{failed};
ghost use Rattle.snow_trie.specs.Kept.Whole.{HasFewNodes};
ghost use Rattle.snow_topo.specs.Kept.Leading.{HasDecided};

use snow_base::{Id, Steps, Vote};
use snow_flake::{Params, Rule};
use snow_trie::Trie;
use std::alloc::{AllocError, Global};
use std::marker::Model;
use std::sync::ledger::Ledger;

/// What the board keeps of a block: the tree of its children, once it has some, and the number of
/// the poll that this recorded last. Polls since then have failed the tree, which none of them
/// touched. Contracts see the children with their counters, and that number.
/// Rule: this project's own.
#[derive(Debug, Drop)]
pub struct Load<R: Rule> {
    trie: Option<Trie<R>>,
    recorded: u64,
}

impl<R: Rule> Model for Load<R> {
    ghost use Rattle.std.specs.Prelude.{IfSome};
    ghost use Rattle.std.specs.Option.{option_map};
    ghost use Rattle.snow_trie.specs.Kept.Whole.{HasFewNodes};
    ghost use Rattle.snow_topo.specs.Kept.Children.{Kept, conflict_of};
    ghost use Rattle.snow_topo.specs.Kept.ChildrenCode.{coded_kept};

    ghost Value = { Kept };

    ghost coded = { coded_kept };

    ghost view = { λ a. record { conflict = option_map conflict_of a.trie; recorded = a.recorded } };

    ghost invariant = { λ a. IfSome a.trie HasFewNodes };
}

// The identifier to which decided counters alone lead.
fn decided_in<R: Rule>(trie: &Trie<R>) -> Option<Id>
    ensures { HasDecided (trie.now).counters result }
{
    if trie.is_final() {
        Some(trie.preference())
    } else {
        None
    }
}

impl<R: Rule> Load<R> {
    ghost use Rattle.std.specs.Prelude.{ℕ, ◌^◌, ◌*◌, ◌<◌, List, length, IfSome, OnOk, OnErr};
    ghost use Rattle.std.specs.Option.{option_map, option_copied};
    ghost use Rattle.snow_flake.specs.Model.Parameters.{Parameters};
    ghost use Rattle.snow_topo.specs.Kept.Children.{bare, gained, conflict_of, counters_in, ids_in, shown, IsFit};
    ghost use Rattle.snow_topo.specs.Kept.Leading.{leads_in};
    ghost use Rattle.snow_topo.specs.Kept.Renewed.{renewed};

    /// Returns what the board keeps of a block without children.
    pub(crate) fn new() -> Self
        ensures { result ≡ bare }
    {
        Load {
            trie: None,
            recorded: 0,
        }
    }

    /// Returns the tree of the children, or `None` where there is none.
    pub(crate) fn trie(&self) -> Option<&Trie<R>>
        ensures conflict { option_map conflict_of (option_copied result) ≡ (self.now).conflict }
        ensures few { IfSome (option_copied result) HasFewNodes }
    {
        match &self.trie {
            Some(trie) => Some(trie),
            None => None,
        }
    }

    /// Adds a child that was issued to the tree, which begins with the first one. On want of memory
    /// all stays as it was.
    pub(crate) fn add(&mut self, alloc: Global, params: &Params, id: &Id) -> Result<(), AllocError>
        ensures ok { OnOk result (self.new ≡ gained params.now id.now self.old) }
        ensures err { OnErr result (self.new ≡ self.old) }
    {
        match &mut self.trie {
            Some(trie) => trie.add(*id),
            None => {
                self.trie = Some(Trie::new(alloc, *params, *id)?);
                Ok(())
            }
        }
    }

    /// Returns whether decided counters alone lead anywhere.
    pub(crate) fn is_decided(&self) -> bool
        ensures { result ≡ false → HasDecided (counters_in (self.now).conflict) None }
    {
        match &self.trie {
            Some(trie) => trie.is_final(),
            None => false,
        }
    }

    /// Returns the child to which decided counters alone lead, or `None`.
    pub(crate) fn decided(&self) -> Option<Id>
        ensures { HasDecided (counters_in (self.now).conflict) result }
    {
        match &self.trie {
            Some(trie) => decided_in(trie),
            None => None,
        }
    }

    /// Lets the children make the bit step of the next poll with these votes, and returns whether
    /// they lead elsewhere then. It takes no memory.
    pub(crate) fn record<L: Ledger>(
        &mut self,
        polls: u64,
        votes: &[Vote],
        steps: &mut Steps<L>,
    ) -> bool
        requires room { polls + 1 < 2 ^ 64 }
        requires order { IsInBitOrder votes.now }
        requires most { IfSome (self.old).conflict (λ c. total_count votes.now ≤ c.parameters.k) }
        requires given { All (λ v. Contains (ids_in (self.old).conflict) v.id) votes.now }
        ensures counters { (p : Parameters) (children : List (List ℕ)) → IsFit p polls children self.old → shown p (polls + 1) self.new ≡ all_polled p (votes_on votes.now) (shown p polls self.old) }
        ensures fit { (p : Parameters) (children : List (List ℕ)) → IsFit p polls children self.old → IsFit p (polls + 1) children self.new }
        ensures steps { steps.new ≤ steps.old + 5 * length (ids_in (self.old).conflict) }
        ensures steady { result ≡ false → leads_in R.answer self.new ≡ leads_in R.answer self.old }
    {
        let is_behind = self.recorded != polls;
        self.recorded = polls + 1;
        match &mut self.trie {
            Some(trie) => {
                if is_behind {
                    trie.fail(steps);
                }
                trie.record(votes, steps)
            }
            None => false,
        }
    }

    /// Renumbers: the last poll is 1 from here on, where this tree recorded it, and all before it
    /// are 0.
    pub(crate) fn renew(&mut self, polls: u64)
        ensures { self.new ≡ renewed polls self.old }
    {
        self.recorded = if self.recorded == polls { 1 } else { 0 };
    }
}
