//! The candidates of an election, in the order in which nodes named them, each with the weight that
//! backs it.
ghost use Rattle.std.specs.Prelude.{◌≡◌, ℕ, List, [], ◌∷◌, ◌==◌, ◌+◌, ◌^◌, ◌<◌, map, length, IfOk, OnOk, OnErr};
ghost use Rattle.snow_boot.specs.Model.Electing.{collected, backed, is_target, majority};
ghost use Rattle.snow_boot.specs.Kept.Surveying.{AreWithin, weight_of};
ghost use Rattle.snow_store.specs.Model.Paths.{has_id};

use crate::question::Candidate;
use snow_base::Id;
use snow_map::IdSet;
use std::alloc::{AllocError, Global};
use std::marker::Model;

/// Candidates in the order in which they were named, each once. Contracts see the list.
#[derive(Drop)]
pub(crate) struct Candidates {
    ids: IdSet,
    list: Vec<Candidate>,
}

impl Model for Candidates {
    ghost use Rattle.std.specs.Prelude.{List};
    ghost use Rattle.snow_boot.specs.declared.question.Candidate.{Candidate};
    ghost use Rattle.snow_boot.specs.Kept.Surveying.{AreListed};

    ghost Value = { List Candidate };

    ghost view = { λ a. a.list.items };

    ghost invariant = { λ a. AreListed a.ids a.list.items };
}

impl Candidates {
    /// Returns no candidate. It takes no memory.
    pub(crate) fn new(alloc: Global) -> Self
        ensures { result ≡ [] }
    {
        Candidates {
            ids: IdSet::new(alloc),
            list: Vec::new(alloc),
        }
    }

    /// Returns whether there is none.
    pub(crate) fn is_empty(&self) -> bool
        ensures { result ≡ (length self.now == 0) }
    {
        self.list.is_empty()
    }

    /// Returns their identifiers, in order.
    pub(crate) fn ids(&self) -> &[Id]
        ensures { result.now ≡ map (λ c. c.id) self.now }
    {
        self.ids.as_slice()
    }

    /// Collects an identifier, once. On want of memory all stays as it was.
    pub(crate) fn collect(&mut self, id: Id) -> Result<(), AllocError>
        ensures ok { OnOk result (self.new ≡ collected self.old id) }
        ensures err { OnErr result (self.new ≡ self.old) }
    {
        self.list.reserve(1)?;
        if self.ids.insert(id)? {
            self.list.push_reserved(Candidate { id, weight: 0 });
        }
        Ok(())
    }

    /// A node of this weight backs those that it names. It takes no memory.
    pub(crate) fn back(&mut self, weight: u64, named: &IdSet)
        requires within { AreWithin (2 ^ 63) self.old }
        requires small { weight < 2 ^ 63 }
        ensures { self.new ≡ backed weight named.now self.old }
    {
        for id in named.as_slice() {
            self.back_one(weight, id);
        }
    }

    // A node of this weight backs one identifier, where that is a candidate.
    fn back_one(&mut self, weight: u64, id: &Id)
        requires { weight_of self.old id.now + weight < 2 ^ 64 }
        ensures { self.new ≡ backed weight (id.now ∷ []) self.old }
    {
        if let Some(at) = self.ids.place_of(id) {
            self.list[at].weight += weight;
        }
    }

    /// Returns those that more than half of the weight backs, in order.
    pub(crate) fn elect(&self, alloc: Global, total: u64) -> Result<IdSet, AllocError>
        ensures { IfOk result (λ ids. ids ≡ majority total self.now) }
    {
        let mut elected = IdSet::new(alloc);
        for candidate in &self.list {
            if is_target(total, candidate) {
                elected.insert(candidate.id)?;
            }
        }
        Ok(elected)
    }
}

// Whether more than half of the weight backs a candidate.
fn is_target(total: u64, candidate: &Candidate) -> bool
    ensures { result ≡ is_target total candidate.now }
{
    candidate.weight > total / 2
}

/// Returns the identifiers of an answer, each once.
pub(crate) fn each_once(alloc: Global, ids: &[Id]) -> Result<IdSet, AllocError>
    ensures { IfOk result (λ made. (id : List ℕ) → has_id made id ≡ has_id ids.now id) }
{
    let mut once = IdSet::new(alloc);
    for id in ids {
        once.insert(*id)?;
    }
    Ok(once)
}
