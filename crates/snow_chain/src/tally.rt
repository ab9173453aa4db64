ghost use Rattle.std.specs.Prelude.{◌≡◌, IfOk};
ghost use Rattle.snow_chain.specs.Model.Chain.{next_on};
ghost use Rattle.snow_chain.specs.Model.Tally.{header_of, raised, tally_rules};

use crate::chain::Chain;
use crate::fault::ChainFault;
use crate::fields::{id_at, number_at};
use crate::states::States;
use sha2::{Digest, Sha256};
use snow_base::{Header, Id, Nums};
use std::alloc::{AllocError, Global};
use std::marker::Model;

/// The tally chain. A block is its parent of 32 bytes, its height of 8, an amount of 8, and any
/// bytes behind. Its identifier is the SHA-256 digest of all its bytes. A state is a sum and a cap,
/// and a block is valid where its amount can be added to its parent's sum without passing the cap.
/// Rule: this project's own and FIPS 180-4.
#[derive(Drop)]
pub struct TallyChain {
    states: States,
}

impl Model for TallyChain {
    ghost use Rattle.snow_chain.specs.Model.Chain.{Held};
    ghost use Rattle.snow_chain.specs.Kept.Coded.{coded_held};

    ghost Value = { Held };

    ghost coded = { coded_held };

    ghost view = { λ a. a.states };
}

impl TallyChain {
    /// Returns the states that it holds.
    /// Rule: this project's own.
    pub fn states(&self) -> &States
        ensures { result.now ≡ self.now }
    {
        &self.states
    }
}

impl Chain for TallyChain {
    ghost use Rattle.snow_chain.specs.Model.Tally.{tally_needs_header};

    ghost rules = { tally_rules };

    ghost held = { λ chain. chain };

    fn begin(alloc: Global, last: Id, state: &[u64]) -> Result<Self, ChainFault> {
        let [sum, cap] = *state else {
            return Err(ChainFault::State);
        };
        if cap < sum {
            return Err(ChainFault::State);
        }
        let states = States::begin(alloc, last, numbers(alloc, [sum, cap])?)?;
        Ok(TallyChain { states })
    }

    fn parse(&self, bytes: &[u8]) -> Option<Header> {
        header_of(bytes)
    }

    fn verify(&mut self, parent: &Id, id: &Id, bytes: &[u8]) -> Result<bool, AllocError> {
        let Some(state) = next_on(&self.states, parent, bytes) else {
            return Ok(false);
        };
        let state = numbers(self.states.alloc(), state)?;
        self.states.hold(*id, state)?;
        Ok(true)
    }

    fn accept(&mut self, id: &Id) {
        self.states.accept(id);
    }

    fn reject(&mut self, id: &Id) {
        self.states.reject(id);
    }

    ghost needs_header = { tally_needs_header };
}

// What the bytes of a block say of it.
#[tactic(auto, unfolding(crate::specs::Model::Tally::header_of))]
fn header_of(bytes: &[u8]) -> Option<Header>
    ensures { result ≡ header_of bytes.now }
{
    if bytes.len() < 48 {
        return None;
    }
    Some(Header {
        id: Id::from_bytes(Sha256::digest(bytes)),
        parent: id_at(bytes, 0),
        height: number_at(bytes, 32),
    })
}

// The state of a block with these bytes on a parent, where the parent's is held and the block is valid.
#[tactic(auto, unfolding(crate::specs::Model::Tally::header_of))]
fn next_on(states: &States, parent: &Id, bytes: &[u8]) -> Option<[u64; 2]>
    ensures { result ≡ next_on tally_rules states.now parent.now bytes.now }
{
    if bytes.len() < 48 {
        return None;
    }
    raised(states.state_of(parent)?, number_at(bytes, 40))
}

// The state once an amount is added.
fn raised(state: &[u64], amount: u64) -> Option<[u64; 2]>
    ensures { result ≡ raised state.now amount }
{
    let [before, cap] = *state else {
        return None;
    };
    let sum = before.checked_add(amount)?;
    if sum > cap {
        return None;
    }
    Some([sum, cap])
}

// The list of a sum and a cap.
fn numbers(alloc: Global, state: [u64; 2]) -> Result<Nums, AllocError>
    ensures { IfOk result (λ list. list ≡ state) }
{
    let [sum, cap] = state;
    let mut list = Nums::new(alloc);
    list.push(sum)?;
    list.push(cap)?;
    Ok(list)
}
