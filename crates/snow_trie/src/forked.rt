ghost use Rattle.std.specs.Prelude.{◌≡◌, ◌+◌, ◌<◌, ◌≤◌, false, is_some, length, [], ◌∷◌, ◌++◌, All, Contains, IfOk, OnOk, OnErr};

use crate::alone::Alone;
use crate::growing;
use crate::narrowing::{narrowed, total};
use crate::node::{self, Node};
use crate::peeling::peel;
use crate::polling::{poll, ready};
use snow_base::{Id, Steps, Vote};
use snow_flake::{Params, Rule};
use std::alloc::{AllocError, Global};
use std::marker::{Model, PhantomData};
use std::sync::ledger::Ledger;

// With the first one these are more identifiers than any memory holds.
const MOST_MORE: usize = (1 << 48) - 1;

/// The counters of one conflict of which several identifiers are a part, as a compressed tree. A poll
/// visits only nodes to which AlphaPreference votes come, so at most one at each bit; all others fail
/// by their stamps.
#[derive(Debug, Drop)]
pub(crate) struct Forked<R: Rule> {
    params: Params,
    // The identifiers in the order in which they were given. A list that is empty takes no memory.
    first: Id,
    more: Vec<Id>,
    polls: u64,
    // The bits up to here are decided, and are the leader's.
    decided: u16,
    leader: Id,
    root: Node,
    alloc: Global,
    rule: PhantomData<R>,
}

impl<R: Rule> Model for Forked<R> {
    ghost use Rattle.std.specs.Prelude.{◌∷◌};
    ghost use Rattle.snow_trie.specs.Kept.Tree.{tree_of};
    ghost use Rattle.snow_trie.specs.Kept.Stamped.{whole};
    ghost use Rattle.snow_trie.specs.Kept.Whole.{Compressed, coded_compressed, nodes_of, IsWhole};

    ghost Value = { Compressed };

    ghost coded = { coded_compressed };

    ghost view = { λ a. record {
      parameters = a.params;
      ids = a.first ∷ a.more.items;
      counters = whole a.polls a.decided a.leader (tree_of a.root);
      nodes = nodes_of (tree_of a.root);
    } };

    ghost invariant = { λ a. IsWhole (a.first ∷ a.more.items) a.polls a.decided a.leader (tree_of a.root) };
}

// Whether a poll may lead elsewhere: where it moved a counter that leads, or began the stamps anew. Nodes
// that it takes off are decided, and led to what is left.
fn has_moved(moved: bool, before: u64, polls: u64) -> bool
    ensures { result ≡ false → (moved ≡ false) × (before ≡ polls) }
{
    moved || before != polls
}

impl<R: Rule> Forked<R> {
    ghost use Rattle.snow_base.specs.Model.Identifier.{bits};
    ghost use Rattle.snow_base.specs.Model.Votes.{IsInBitOrder, total_count};
    ghost use Rattle.snow_board.specs.Model.Conflict.{with_child, all_polled, votes_on, chosen, decided_path};
    ghost use Rattle.snow_board.specs.Laws.FailingLaw.{failed};
    ghost use Rattle.snow_trie.specs.Kept.Whole.{HasFewNodes};

    /// Returns the counters of an identifier that stood alone. It takes no memory.
    pub(crate) fn of(alloc: Global, alone: &Alone) -> Self
        ensures { result ≡ alone.now }
    {
        let params = *alone.params();
        let run = alone.run();
        let first = run.id;
        let mut leader = first;
        let mut root = Node::Last(run);
        let decided = peel(&mut root, &mut leader, 0);
        Forked {
            params,
            first,
            more: Vec::new(alloc),
            polls: 0,
            decided,
            leader,
            root,
            alloc,
            rule: PhantomData,
        }
    }

    /// Adds an identifier: `Trie::add`.
    pub(crate) fn add(&mut self, id: Id) -> Result<(), AllocError>
        ensures counters { OnOk result ((self.new).counters ≡ with_child (bits id) (self.old).counters) }
        ensures ids { OnOk result ((self.new).ids ≡ (self.old).ids ++ id ∷ []) }
        ensures parameters { (self.new).parameters ≡ (self.old).parameters }
        ensures nodes { (self.new).nodes ≤ (self.old).nodes + 3 }
        ensures few { HasFewNodes self.new }
        ensures err { OnErr result (self.new ≡ self.old) }
    {
        if self.more.len() >= MOST_MORE {
            return Err(AllocError);
        }
        self.more.reserve(1)?;
        growing::add_behind(&mut self.root, self.alloc, &id, &self.leader, self.decided)?;
        self.more.push_reserved(id);
        Ok(())
    }

    /// Records a poll: `Trie::record`.
    pub(crate) fn record<L: Ledger>(&mut self, votes: &[Vote], steps: &mut Steps<L>) -> bool
        requires order { IsInBitOrder votes.now }
        requires most { total_count votes.now ≤ (self.old).parameters.k }
        requires given { All (λ v. Contains (self.old).ids v.id) votes.now }
        ensures counters { (self.new).counters ≡ all_polled (self.old).parameters (votes_on votes.now) (self.old).counters }
        ensures parameters { (self.new).parameters ≡ (self.old).parameters }
        ensures ids { (self.new).ids ≡ (self.old).ids }
        ensures nodes { (self.new).nodes ≤ (self.old).nodes }
        ensures few { HasFewNodes self.new }
        ensures least { steps.old < steps.new }
        ensures most { steps.new ≤ steps.old + (self.old).nodes }
        ensures steady { result ≡ false → chosen R.answer (self.new).counters ≡ chosen R.answer (self.old).counters }
    {
        let votes = narrowed(votes, &self.leader, self.decided, &self.params);
        let count = total(&self.params, votes);
        if count < self.params.alpha_preference() {
            self.fail(steps);
            return false;
        }
        let _k = self.params.k();
        let before = ready(&mut self.root, self.polls);
        let moved = poll::<R, L>(
            &mut self.root,
            self.decided,
            &self.params,
            votes,
            count,
            before,
            steps,
        );
        let from = peel(&mut self.root, &mut self.leader, self.decided);
        let is_elsewhere = has_moved(moved, before, self.polls);
        self.polls = before + 1;
        self.decided = from;
        is_elsewhere
    }

    /// Records a poll without votes: `Trie::fail`. It touches no node.
    pub(crate) fn fail<L: Ledger>(&mut self, steps: &mut Steps<L>)
        ensures trie { self.new ≡ record (self.old) { counters = failed (self.old).parameters (self.old).counters } }
        ensures few { HasFewNodes self.new }
        ensures steps { steps.new ≡ steps.old + 1 }
        ensures steady { chosen R.answer (self.new).counters ≡ chosen R.answer (self.old).counters }
    {
        let _k = self.params.k();
        steps.tick();
        let before = ready(&mut self.root, self.polls);
        self.polls = before + 1;
    }

    /// Returns the identifier to which the counters lead by their answers.
    pub(crate) fn preference(&self) -> Id
        ensures bits { chosen R.answer (self.now).counters ≡ bits result }
        ensures given { Contains (self.now).ids result }
    {
        *node::preference::<R>(&self.root)
    }

    /// Returns whether decided counters alone lead to an identifier.
    pub(crate) fn is_final(&self) -> bool
        ensures { result ≡ is_some (decided_path (self.now).counters) }
    {
        self.decided == 256
    }

    /// Returns how many nodes the tree has.
    pub(crate) fn nodes(&self) -> usize
        ensures nodes { result ≡ (self.now).nodes }
        ensures few { HasFewNodes self.now }
    {
        let _more = self.more.len();
        node::count(&self.root).max(1)
    }

    /// Returns how many identifiers were given: `Trie::choices`.
    pub(crate) fn choices(&self) -> usize
        ensures count { result ≡ length (self.now).ids }
        ensures alone { length (self.now).ids ≡ 1 → All (λ id. chosen R.answer (self.now).counters ≡ bits id) (self.now).ids }
    {
        self.more.len() + 1
    }
}
