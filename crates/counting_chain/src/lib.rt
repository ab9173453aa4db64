//! The counting chain: a chain of one's own, as `docs/CHAINS.md` explains it.
#![tactic(auto)]

ghost use Rattle.std.specs.Prelude.{◌≡◌, [], ◌∷◌, IfOk};
ghost use Rattle.std.specs.Option.{option_map};
ghost use Rattle.snow_chain.specs.Model.Chain.{next_on};
ghost use Rattle.counting_chain.specs.Model.Counting.{counting_rules, header_of};

use snow_base::{Header, Id, Nums};
use snow_chain::{Chain, ChainFault, States, id_at, number_at};
use std::alloc::{AllocError, Global};
use std::marker::Model;

#[cfg(test)]
mod tests;

/// A block is its identifier of 32 bytes, its parent of 32, its height of 8 and a number of 8, and
/// nothing behind: 80 bytes. A state is a counter below 2^64. A block is valid where its number is
/// its parent's counter plus 1; its own counter is then that number.
/// Rule: this project's own.
#[derive(Drop)]
pub struct CountingChain {
    states: States,
}

impl Model for CountingChain {
    ghost use Rattle.snow_chain.specs.Model.Chain.{Held};
    ghost use Rattle.snow_chain.specs.Kept.Coded.{coded_held};

    ghost Value = { Held };

    ghost coded = { coded_held };

    ghost view = { λ chain. chain.states };
}

impl CountingChain {
    /// Returns the states that it holds.
    /// Rule: this project's own.
    pub fn states(&self) -> &States
        ensures { result.now ≡ self.now }
    {
        &self.states
    }
}

impl Chain for CountingChain {
    ghost use Rattle.counting_chain.specs.Model.Counting.{counting_needs_header};

    ghost rules = { counting_rules };

    ghost held = { λ chain. chain };

    fn begin(alloc: Global, last: Id, state: &[u64]) -> Result<Self, ChainFault> {
        let [counter] = *state else {
            return Err(ChainFault::State);
        };
        let states = States::begin(alloc, last, only(alloc, counter)?)?;
        Ok(CountingChain { states })
    }

    fn parse(&self, bytes: &[u8]) -> Option<Header> {
        header_of(bytes)
    }

    fn verify(&mut self, parent: &Id, id: &Id, bytes: &[u8]) -> Result<bool, AllocError> {
        let Some(number) = counted(&self.states, parent, bytes) else {
            return Ok(false);
        };
        let state = only(self.states.alloc(), number)?;
        self.states.hold(*id, state)?;
        Ok(true)
    }

    fn accept(&mut self, id: &Id) {
        self.states.accept(id);
    }

    fn reject(&mut self, id: &Id) {
        self.states.reject(id);
    }

    ghost needs_header = { counting_needs_header };
}

// What the bytes of a block say of it.
#[tactic(auto, unfolding(crate::specs::Model::Counting::header_of))]
fn header_of(bytes: &[u8]) -> Option<Header>
    ensures { result ≡ header_of bytes.now }
{
    if bytes.len() != 80 {
        return None;
    }
    Some(Header {
        id: id_at(bytes, 0),
        parent: id_at(bytes, 32),
        height: number_at(bytes, 64),
    })
}

// The number of a block with these bytes on a parent, where the parent's state is held and the block is
// valid.
#[tactic(auto, unfolding(crate::specs::Model::Counting::header_of))]
fn counted(states: &States, parent: &Id, bytes: &[u8]) -> Option<u64>
    ensures { option_map (λ number. number ∷ []) result ≡ next_on counting_rules states.now parent.now bytes.now }
{
    if bytes.len() != 80 {
        return None;
    }
    let [counter] = *states.state_of(parent)? else {
        return None;
    };
    let number = number_at(bytes, 72);
    if counter.checked_add(1) != Some(number) {
        return None;
    }
    Some(number)
}

// The list of one number.
fn only(alloc: Global, number: u64) -> Result<Nums, AllocError>
    ensures { IfOk result (λ list. list ≡ number ∷ []) }
{
    let mut list = Nums::new(alloc);
    list.push(number)?;
    Ok(list)
}
