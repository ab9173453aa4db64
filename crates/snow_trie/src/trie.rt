ghost use Rattle.std.specs.Prelude.{◌≡◌, ◌+◌, ◌<◌, ◌≤◌, false, is_some, length, [], ◌∷◌, ◌++◌, All, Contains, Ok, OnOk, OnErr};

use crate::alone::Alone;
use crate::forked::Forked;
use snow_base::{Id, Steps, Vote};
use snow_flake::{Params, Rule};
use std::alloc::{AllocError, Global};
use std::marker::Model;
use std::sync::ledger::Ledger;

// Most blocks have one child, and its counters are few bytes.
#[derive(Debug, Drop)]
enum Form<R: Rule> {
    Alone(Alone),
    Forked(Box<Forked<R>>),
}

/// The counters of one conflict as a compressed tree; `R` says how they answer. A poll visits only
/// nodes to which AlphaPreference votes come, so at most one at each bit; all others fail by their
/// stamps. Contracts see the parameters, the identifiers that were given, the counters with resets
/// at once, and how many nodes there are: at most three times the identifiers, less two.
/// Rule: AvalancheGo, snow/consensus/snowball.
#[derive(Debug, Drop)]
pub struct Trie<R: Rule> {
    form: Form<R>,
    alloc: Global,
}

impl<R: Rule> Model for Trie<R> {
    ghost use Rattle.snow_trie.specs.Kept.Whole.{Compressed, coded_compressed};
    ghost use Rattle.snow_trie.specs.Kept.Form.{shown_form};

    ghost Value = { Compressed };

    ghost coded = { coded_compressed };

    ghost view = { λ a. shown_form a.form };
}

impl<R: Rule> Trie<R> {
    ghost use Rattle.snow_base.specs.Model.Identifier.{bits};
    ghost use Rattle.snow_base.specs.Model.Votes.{IsInBitOrder, total_count};
    ghost use Rattle.snow_board.specs.Model.Conflict.{with_child, all_polled, votes_on, chosen, decided_path};
    ghost use Rattle.snow_board.specs.Laws.FailingLaw.{failed};
    ghost use Rattle.snow_trie.specs.Kept.Whole.{begun, HasFewNodes};

    /// Returns the counters where one identifier stands alone: one node. It takes no memory, so it
    /// never returns `AllocError`.
    /// Rule: AvalancheGo, snow/consensus/snowball.
    pub fn new(alloc: Global, params: Params, id: Id) -> Result<Self, AllocError>
        ensures { result ≡ Ok (begun params id) }
    {
        Ok(Trie {
            form: Form::Alone(Alone::new(params, id)),
            alloc,
        })
    }

    /// Adds an identifier: its bits get fresh counters where none stood, up to a decided counter of
    /// the other bit. It makes at most three nodes. On want of memory it returns `AllocError`, and
    /// all stays as it was.
    /// Rule: AvalancheGo, snow/consensus/snowball.
    pub fn add(&mut self, id: Id) -> Result<(), AllocError>
        ensures counters { OnOk result ((self.new).counters ≡ with_child (bits id) (self.old).counters) }
        ensures ids { OnOk result ((self.new).ids ≡ (self.old).ids ++ id ∷ []) }
        ensures parameters { (self.new).parameters ≡ (self.old).parameters }
        ensures nodes { (self.new).nodes ≤ (self.old).nodes + 3 }
        ensures few { HasFewNodes self.new }
        ensures err { OnErr result (self.new ≡ self.old) }
    {
        match &mut self.form {
            Form::Alone(alone) => {
                let _id = alone.id();
                let mut forked = Forked::of(self.alloc, alone);
                forked.add(id)?;
                self.form = Form::Forked(Box::new(self.alloc, forked)?);
                Ok(())
            }
            Form::Forked(forked) => forked.add(id),
        }
    }

    /// Records a poll with these votes, at most K, in bit order, each for an identifier that was
    /// given. Every counter makes the bit step with its own votes, all at once, and those behind a
    /// decided counter of the other bit go. It counts a step for each node that it visits, at least
    /// one and at most as many as the tree has nodes. The parameters and the identifiers stay. It
    /// takes no memory and can't fail.
    /// Rule: AvalancheGo, snow/consensus/snowball.
    pub fn apply<L: Ledger>(&mut self, votes: &[Vote], steps: &mut Steps<L>)
        requires order { IsInBitOrder votes.now }
        requires most { total_count votes.now ≤ (self.old).parameters.k }
        requires given { All (λ v. Contains (self.old).ids v.id) votes.now }
        ensures counters { (self.new).counters ≡ all_polled (self.old).parameters (votes_on votes.now) (self.old).counters }
        ensures parameters { (self.new).parameters ≡ (self.old).parameters }
        ensures ids { (self.new).ids ≡ (self.old).ids }
        ensures nodes { (self.new).nodes ≤ (self.old).nodes }
        ensures few { HasFewNodes self.new }
        ensures least { steps.old < steps.new }
        ensures most { steps.new ≤ steps.old + (self.old).nodes }
    {
        let _moved = self.record(votes, steps);
    }

    /// Does what `apply` does, and returns whether it may have moved where the counters lead:
    /// `false` only where they lead where they led.
    /// Rule: AvalancheGo, snow/consensus/snowball.
    pub fn record<L: Ledger>(&mut self, votes: &[Vote], steps: &mut Steps<L>) -> bool
        requires order { IsInBitOrder votes.now }
        requires most { total_count votes.now ≤ (self.old).parameters.k }
        requires given { All (λ v. Contains (self.old).ids v.id) votes.now }
        ensures counters { (self.new).counters ≡ all_polled (self.old).parameters (votes_on votes.now) (self.old).counters }
        ensures parameters { (self.new).parameters ≡ (self.old).parameters }
        ensures ids { (self.new).ids ≡ (self.old).ids }
        ensures nodes { (self.new).nodes ≤ (self.old).nodes }
        ensures few { HasFewNodes self.new }
        ensures least { steps.old < steps.new }
        ensures most { steps.new ≤ steps.old + (self.old).nodes }
        ensures steady { result ≡ false → chosen R.answer (self.new).counters ≡ chosen R.answer (self.old).counters }
    {
        match &mut self.form {
            Form::Alone(alone) => {
                let _before = alone.id();
                steps.tick();
                alone.record(votes);
                let _after = alone.id();
                false
            }
            Form::Forked(forked) => forked.record(votes, steps),
        }
    }

    /// Records a poll without votes: each confidence of a counter that isn't final becomes 0. It is
    /// one step, which touches no node. The answers, the parameters and the identifiers stay. It
    /// takes no memory.
    /// Rule: AvalancheGo, snow/consensus/snowball.
    pub fn fail<L: Ledger>(&mut self, steps: &mut Steps<L>)
        ensures trie { self.new ≡ record (self.old) { counters = failed (self.old).parameters (self.old).counters } }
        ensures few { HasFewNodes self.new }
        ensures steps { steps.new ≡ steps.old + 1 }
        ensures steady { chosen R.answer (self.new).counters ≡ chosen R.answer (self.old).counters }
    {
        match &mut self.form {
            Form::Alone(alone) => {
                let _before = alone.id();
                steps.tick();
                alone.fail();
                let _after = alone.id();
            }
            Form::Forked(forked) => forked.fail(steps),
        }
    }

    /// Returns the identifier to which the counters lead by their answers. It is one of those
    /// given.
    /// Rule: AvalancheGo, snow/consensus/snowball.
    pub fn preference(&self) -> Id
        ensures bits { chosen R.answer (self.now).counters ≡ bits result }
        ensures given { Contains (self.now).ids result }
    {
        match &self.form {
            Form::Alone(alone) => alone.id(),
            Form::Forked(forked) => forked.preference(),
        }
    }

    /// Returns whether decided counters alone lead to an identifier.
    /// Rule: AvalancheGo, snow/consensus/snowball.
    pub fn is_final(&self) -> bool
        ensures { result ≡ is_some (decided_path (self.now).counters) }
    {
        match &self.form {
            Form::Alone(alone) => alone.is_final(),
            Form::Forked(forked) => forked.is_final(),
        }
    }

    /// Returns how many nodes the tree has: at most three times `choices`, less two.
    /// Rule: AvalancheGo, snow/consensus/snowball.
    pub fn nodes(&self) -> usize
        ensures nodes { result ≡ (self.now).nodes }
        ensures few { HasFewNodes self.now }
    {
        match &self.form {
            Form::Alone(alone) => {
                let _id = alone.id();
                1
            }
            Form::Forked(forked) => forked.nodes(),
        }
    }

    /// Returns how many identifiers were given, at least one. Where one stands alone the counters
    /// lead to it, whatever they are.
    /// Rule: AvalancheGo, snow/consensus/snowball.
    pub fn choices(&self) -> usize
        ensures count { result ≡ length (self.now).ids }
        ensures alone { length (self.now).ids ≡ 1 → All (λ id. chosen R.answer (self.now).counters ≡ bits id) (self.now).ids }
    {
        match &self.form {
            Form::Alone(alone) => {
                let _id = alone.id();
                1
            }
            Form::Forked(forked) => forked.choices(),
        }
    }
}
