ghost use Rattle.std.specs.Prelude.{◌≡◌, ◌≤◌, Bool, [], ◌∷◌, All, Contains, is_some};
ghost use Rattle.snow_base.specs.Model.Identifier.{bits};
ghost use Rattle.snow_base.specs.Model.Votes.{total_count};
ghost use Rattle.snow_flake.specs.Model.Rule.{Answer};
ghost use Rattle.snow_board.specs.Model.Conflict.{all_polled, votes_on, chosen, decided_path};
ghost use Rattle.snow_board.specs.Laws.FailingLaw.{failed};
ghost use Rattle.snow_trie.specs.Kept.Alone.{run_of, last, shown_alone};
ghost use Rattle.snow_trie.specs.Kept.Shape.{IsOrdered};
ghost use Rattle.snow_trie.specs.Kept.Stamped.{counters};
ghost use Rattle.snow_trie.specs.Kept.Whole.{begun};

use crate::narrowing::total;
use crate::run::Run;
use snow_base::{Id, Vote};
use snow_flake::{Params, Unary};
use std::marker::Model;

/// The counters of an identifier that stands alone: one for all bits, without a stamp, since polls
/// that miss it fail it at once.
#[derive(Debug, Drop)]
pub(crate) struct Alone {
    params: Params,
    id: Id,
    counter: Unary,
}

impl Model for Alone {
    ghost use Rattle.snow_trie.specs.Kept.Alone.{run_of, last, shown_alone};
    ghost use Rattle.snow_trie.specs.Kept.Shape.{IsOrdered};
    ghost use Rattle.snow_trie.specs.Kept.Stamped.{counters};
    ghost use Rattle.snow_trie.specs.Kept.Whole.{Compressed, coded_compressed};

    ghost Value = { Compressed };

    ghost coded = { coded_compressed };

    ghost view = { λ a. shown_alone a.params a.id a.counter };

    ghost invariant = { λ a. IsOrdered (counters 0 0 (last (run_of a.id a.counter))) };
}

impl Alone {
    /// Returns fresh counters of an identifier.
    pub(crate) fn new(params: Params, id: Id) -> Self
        ensures { result ≡ begun params id }
    {
        Alone {
            params,
            id,
            counter: Unary::new(),
        }
    }

    /// Records a poll with these votes, at most K, all for this identifier.
    pub(crate) fn record(&mut self, votes: &[Vote])
        requires most { total_count votes.now ≤ (self.old).parameters.k }
        requires given { All (λ v. Contains (self.old).ids v.id) votes.now }
        ensures { self.new ≡ record (self.old) { counters = all_polled (self.old).parameters (votes_on votes.now) (self.old).counters } }
    {
        let _k = self.params.k();
        let count = total(&self.params, votes);
        self.counter.apply(&self.params, count);
    }

    /// Records a poll without votes.
    pub(crate) fn fail(&mut self)
        ensures { self.new ≡ record (self.old) { counters = failed (self.old).parameters (self.old).counters } }
    {
        let _k = self.params.k();
        self.counter.fail();
    }

    /// Returns the identifier. The counters lead to it, whatever they are.
    pub(crate) fn id(&self) -> Id
        ensures ids { (self.now).ids ≡ result ∷ [] }
        ensures nodes { (self.now).nodes ≡ 1 }
        ensures chosen { (answer : Answer) → ((b : Bool) → answer b b ≡ b) → chosen answer (self.now).counters ≡ bits result }
    {
        self.id
    }

    /// Returns whether decided counters alone lead to it.
    pub(crate) fn is_final(&self) -> bool
        ensures { result ≡ is_some (decided_path (self.now).counters) }
    {
        self.counter.is_final()
    }

    /// Returns the parameters.
    pub(crate) fn params(&self) -> &Params
        ensures { result.now ≡ (self.now).parameters }
    {
        &self.params
    }

    /// Returns the node that is the whole tree.
    pub(crate) fn run(&self) -> Run
        ensures run { result ≡ run_of result.id result.counter }
        ensures shown { self.now ≡ shown_alone (self.now).parameters result.id result.counter }
        ensures order { IsOrdered (counters 0 0 (last (run_of result.id result.counter))) }
    {
        Run {
            id: self.id,
            to: 256,
            counter: self.counter,
            seen: 0,
        }
    }
}
