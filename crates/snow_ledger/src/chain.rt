ghost use Rattle.std.specs.Prelude.{◌≡◌, IfOk};
ghost use Rattle.snow_chain.specs.Model.Chain.{next_on};
ghost use Rattle.snow_ledger.specs.Model.Ledger.{ledger_rules, HoldsStates};
ghost use Rattle.snow_ledger.specs.Laws.Law.{LedgerLaw};

use crate::block::header_of;
use crate::state::{is_state, next};
use snow_base::{Header, Id, Nums};
use snow_chain::{Chain, ChainFault, States};
use std::alloc::{AllocError, Global};
use std::marker::Model;

/// The ledger chain. A block is its parent of 32 bytes, its height of 8, a count of 2, and so many
/// transfers of 20 bytes; its identifier is the SHA-256 digest of all its bytes. A state is the
/// balance and the next sequence of each account, and the balances add up to less than 2^64. A
/// block is valid where each of its transfers is good after those before it.
/// Rule: this project's own and FIPS 180-4.
#[derive(Drop)]
pub struct LedgerChain {
    states: States,
}

impl Model for LedgerChain {
    ghost use Rattle.snow_chain.specs.Model.Chain.{Held};
    ghost use Rattle.snow_chain.specs.Kept.Coded.{coded_held};
    ghost use Rattle.snow_ledger.specs.Model.Ledger.{HoldsStates};

    ghost Value = { Held };

    ghost coded = { coded_held };

    ghost view = { λ a. a.states };

    ghost invariant = { λ a. HoldsStates a.states };
}

impl LedgerChain {
    ghost use Rattle.std.specs.Prelude.{◌≡◌, ℕ, ◌<◌, List, None, Some, true, nat_lt, if◌then◌else◌};
    ghost use Rattle.snow_chain.specs.Kept.Alone.{last_state};
    ghost use Rattle.snow_ledger.specs.Model.Ledger as ledger;
    ghost use Rattle.snow_ledger.specs.Laws.Law.{followed, transfers_along};

    /// Returns the states that it holds.
    /// Rule: this project's own.
    pub fn states(&self) -> &States
        ensures { result.now ≡ self.now }
    {
        &self.states
    }

    /// Returns how many accounts the state of the last accepted block has.
    /// Rule: this project's own.
    pub fn accounts(&self) -> usize
        ensures { result ≡ ledger.accounts (last_state self.now) }
    {
        self.last_state().len() / 2
    }

    /// Returns the balance, below 2^64, of an account, counted from 0, in the state of the last
    /// accepted block. It returns `None` exactly where there is no such account.
    /// Rule: this project's own.
    pub fn balance(&self, account: usize) -> Option<u64>
        ensures held { result ≡ (if nat_lt account (ledger.accounts (last_state self.now)) then Some (ledger.held (last_state self.now) account) else None) }
        // After a path of valid blocks it is what all their transfers leave of the first balance.
        ensures path { (first : List ℕ) (blocks : List (List ℕ)) → ledger.takes first ≡ true → followed first blocks ≡ Some (last_state self.now)
            → account < ledger.accounts first → result ≡ Some (ledger.balance first (transfers_along blocks) account) }
    {
        if account >= self.accounts() {
            return None;
        }
        Some(self.last_state()[2 * account])
    }

    /// Returns the next sequence, below 2^64, of an account, counted from 0, in the state of the
    /// last accepted block. It returns `None` exactly where there is no such account.
    /// Rule: this project's own.
    pub fn sequence(&self, account: usize) -> Option<u64>
        ensures next { result ≡ (if nat_lt account (ledger.accounts (last_state self.now)) then Some (ledger.next_in (last_state self.now) account) else None) }
        // After a path of valid blocks it is what all their transfers make of the first sequence.
        ensures path { (first : List ℕ) (blocks : List (List ℕ)) → ledger.takes first ≡ true → followed first blocks ≡ Some (last_state self.now)
            → account < ledger.accounts first → result ≡ Some (ledger.sequence first (transfers_along blocks) account) }
    {
        if account >= self.accounts() {
            return None;
        }
        Some(self.last_state()[2 * account + 1])
    }

    // The state of the last accepted block.
    fn last_state(&self) -> &[u64]
        ensures { result.now ≡ last_state self.now }
    {
        self.states
            .state_of(&self.states.last())
            .unwrap_or_default()
    }
}

impl Chain for LedgerChain {
    ghost use Rattle.snow_ledger.specs.Model.Ledger.{ledger_needs_header};

    ghost rules = { ledger_rules };

    ghost held = { λ chain. chain };

    #[tactic(auto, using(crate::proofs::Holding::after_begin))]
    fn begin(alloc: Global, last: Id, state: &[u64]) -> Result<Self, ChainFault> {
        if !is_state(state) {
            return Err(ChainFault::State);
        }
        let states = States::begin(alloc, last, Nums::from_slice(alloc, state)?)?;
        Ok(LedgerChain { states })
    }

    fn parse(&self, bytes: &[u8]) -> Option<Header> {
        header_of(bytes)
    }

    #[tactic(auto, using(crate::proofs::Holding::after_hold, crate::proofs::Holding::next_on_is_state))]
    fn verify(&mut self, parent: &Id, id: &Id, bytes: &[u8]) -> Result<bool, AllocError> {
        let Some(state) = next_on(&self.states, parent, bytes)? else {
            return Ok(false);
        };
        self.states.hold(*id, state)?;
        Ok(true)
    }

    fn accept(&mut self, id: &Id) {
        self.states.accept(id);
    }

    fn reject(&mut self, id: &Id) {
        self.states.reject(id);
    }

    ghost needs_header = { ledger_needs_header };
}

// The state of a block with these bytes on a parent, where the parent's is held and the block is valid.
fn next_on(states: &States, parent: &Id, bytes: &[u8]) -> Result<Option<Nums>, AllocError>
    requires { HoldsStates states.now }
    ensures { IfOk result (λ made. made ≡ next_on ledger_rules states.now parent.now bytes.now) }
{
    match states.state_of(parent) {
        Some(state) => next(states.alloc(), state, bytes),
        None => Ok(None),
    }
}

/// From a state with which a run may begin, along every path of valid blocks nothing is made,
/// nothing is lost, nothing is spent twice, and nobody is ever below 0. Take all transfers of the
/// path in order as one list. The last state is balance and sequence after that list, and a run may
/// begin with it too. The accounts hold together what they held at first. Each transfer was good
/// after those before it. No two transfers have the same sender and the same sequence. At each
/// point of the list no account had sent more than it had held and received.
/// Rule: this project's own.
pub fn ledger_law()
    ensures { LedgerLaw }
{}
