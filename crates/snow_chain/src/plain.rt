ghost use Rattle.std.specs.Prelude.{◌≡◌};
ghost use Rattle.snow_chain.specs.Model.Plain.{header_of, is_valid, plain_rules};

use crate::chain::Chain;
use crate::fault::ChainFault;
use crate::fields::{id_at, number_at};
use crate::states::States;
use snow_base::{Header, Id, Nums};
use std::alloc::{AllocError, Global};
use std::marker::Model;

/// The plain chain. A block is its identifier of 32 bytes, its parent of 32, its height of 8, a
/// flag of 1 that is 0 or 1, and any bytes behind. It is valid where its flag is 1. Each state is
/// the empty list.
/// Rule: this project's own.
#[derive(Drop)]
pub struct PlainChain {
    states: States,
}

impl Model for PlainChain {
    ghost use Rattle.snow_chain.specs.Model.Chain.{Held};
    ghost use Rattle.snow_chain.specs.Kept.Coded.{coded_held};

    ghost Value = { Held };

    ghost coded = { coded_held };

    ghost view = { λ a. a.states };
}

impl PlainChain {
    /// Returns the states that it holds.
    /// Rule: this project's own.
    pub fn states(&self) -> &States
        ensures { result.now ≡ self.now }
    {
        &self.states
    }
}

impl Chain for PlainChain {
    ghost use Rattle.snow_chain.specs.Model.Plain.{plain_needs_header};

    ghost rules = { plain_rules };

    ghost held = { λ chain. chain };

    fn begin(alloc: Global, last: Id, state: &[u64]) -> Result<Self, ChainFault> {
        if !state.is_empty() {
            return Err(ChainFault::State);
        }
        let states = States::begin(alloc, last, Nums::new(alloc))?;
        Ok(PlainChain { states })
    }

    fn parse(&self, bytes: &[u8]) -> Option<Header> {
        header_of(bytes)
    }

    fn verify(&mut self, _parent: &Id, id: &Id, bytes: &[u8]) -> Result<bool, AllocError> {
        if !is_valid(bytes) {
            return Ok(false);
        }
        self.states.hold(*id, Nums::new(self.states.alloc()))?;
        Ok(true)
    }

    fn accept(&mut self, id: &Id) {
        self.states.accept(id);
    }

    fn reject(&mut self, id: &Id) {
        self.states.reject(id);
    }

    ghost needs_header = { plain_needs_header };
}

// What the bytes of a block say of it.
#[tactic(auto, unfolding(crate::specs::Model::Plain::header_of))]
fn header_of(bytes: &[u8]) -> Option<Header>
    ensures { result ≡ header_of bytes.now }
{
    if bytes.len() < 73 {
        return None;
    }
    if bytes[72] > 1 {
        return None;
    }
    Some(Header {
        id: id_at(bytes, 0),
        parent: id_at(bytes, 32),
        height: number_at(bytes, 64),
    })
}

// Whether a block is valid.
#[tactic(auto, unfolding(crate::specs::Model::Plain::header_of))]
fn is_valid(bytes: &[u8]) -> bool
    ensures { result ≡ is_valid bytes.now }
{
    bytes.get(72) == Some(&1)
}
