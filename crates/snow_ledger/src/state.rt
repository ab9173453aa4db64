ghost use Rattle.std.specs.Prelude.{◌≡◌, ◌+◌, ◌-◌, ◌*◌, ◌^◌, ◌<◌, ◌≤◌, true, [], ◌∷◌, IfOk, slice_set, if◌then◌else◌};
ghost use Rattle.snow_ledger.specs.Model.Blocks.{is_whole, transfers_of};
ghost use Rattle.snow_ledger.specs.Model.Ledger.{accounts, held, next_in, total, is_state, after, is_good, are_good, next};

use crate::block::{count_of, is_whole, transfer_at};
use snow_base::Nums;
use std::alloc::{AllocError, Global};

/// A transfer of an amount below 2^64 from one account to another. Accounts are counted from 0,
/// below 2^16, and the sequence numbers the transfers of the sender. In a block it takes 20 bytes.
/// Rule: this project's own.
#[derive(Clone, Copy, Debug, PartialEq, Eq)]
pub struct Transfer {
    /// The account that sends.
    pub from: u16,
    /// The account that receives.
    pub to: u16,
    /// How much is moved.
    pub amount: u64,
    /// Which of the sender's transfers it is, counted from the sequence that the first state has.
    pub sequence: u64,
}

// Whether a list is a state: two numbers for each of one or more accounts, whose balances add up to at
// most 2^64-1.
#[tactic(auto, unfolding(crate::specs::Model::Ledger::is_state))]
pub(crate) fn is_state(state: &[u64]) -> bool
    ensures { result ≡ is_state state.now }
{
    state.len() >= 2 && state.len() % 2 == 0 && total(state) <= u128::from(u64::MAX)
}

// What all accounts hold together.
fn total(state: &[u64]) -> u128
    ensures { result ≡ total state.now }
{
    let mut sum = 0u128;
    for account in 0..state.len() / 2 {
        sum += u128::from(state[2 * account]);
    }
    sum
}

// The state of a block on this one, where the block is valid. Its transfers are made in a copy, and
// that copy is the state.
#[tactic(auto, using(crate::proofs::Blocks::next_unread, crate::proofs::Blocks::next_moved, crate::proofs::Blocks::next_refused))]
pub(crate) fn next(alloc: Global, state: &[u64], bytes: &[u8]) -> Result<Option<Nums>, AllocError>
    requires { is_state state.now ≡ true }
    ensures { IfOk result (λ made. made ≡ next state.now bytes.now) }
{
    if !is_whole(bytes) {
        return Ok(None);
    }
    let mut moved = Vec::from_slice(alloc, state)?;
    if !move_all(moved.as_mut_slice(), bytes) {
        return Ok(None);
    }
    Ok(Some(Nums::from_vec(moved)))
}

// Makes all transfers of a block, one after another, up to the first that isn't good after those before
// it, and answers whether all are.
pub(crate) fn move_all(state: &mut [u64], bytes: &[u8]) -> bool
    requires state { is_state state.old ≡ true }
    requires whole { is_whole bytes.now ≡ true }
    ensures good { result ≡ are_good state.old [] (transfers_of bytes.now) }
    ensures after { result ≡ true → state.new ≡ after state.old (transfers_of bytes.now) }
{
    for place in 0..usize::from(count_of(bytes)) {
        if !move_one(state, transfer_at(bytes, place)) {
            return false;
        }
    }
    true
}

// Makes a transfer, where it is good, and answers whether it is.
fn move_one(state: &mut [u64], t: Transfer) -> bool
    requires { is_state state.old ≡ true }
    ensures good { result ≡ is_good state.old [] t }
    ensures after { state.new ≡ (if result then after state.old (t ∷ []) else state.old) }
{
    if !is_good(state, t) {
        return false;
    }
    move_between(state, usize::from(t.from), usize::from(t.to), t.amount);
    true
}

// Whether a transfer is good in a state.
#[tactic(auto, unfolding(crate::specs::Model::Ledger::is_good, crate::specs::Model::Ledger::balance, crate::specs::Model::Ledger::sequence))]
fn is_good(state: &[u64], t: Transfer) -> bool
    ensures { result ≡ is_good state.now [] t }
{
    let (from, to) = (usize::from(t.from), usize::from(t.to));
    let accounts = state.len() / 2;
    if from >= accounts || to >= accounts || from == to {
        return false;
    }
    if t.amount == 0 || t.amount > state[2 * from] {
        return false;
    }
    t.sequence == state[2 * from + 1] && t.sequence < u64::MAX
}

// Moves an amount from one account to another, and counts the sender's transfer.
fn move_between(state: &mut [u64], from: usize, to: usize, amount: u64)
    requires from { from < accounts state.old }
    requires to { to < accounts state.old }
    requires covered { amount ≤ held state.old from }
    requires fits { held state.old to + amount < 2 ^ 64 }
    requires counts { next_in state.old from + 1 < 2 ^ 64 }
    ensures { state.new ≡ slice_set (slice_set (slice_set state.old (2 * from) (held state.old from - amount))
        (2 * from + 1) (next_in state.old from + 1)) (2 * to) (held state.old to + amount) }
{
    // All three numbers are read before the first is written.
    let left = state[2 * from] - amount;
    let sequence = state[2 * from + 1] + 1;
    let reached = state[2 * to] + amount;
    state[2 * from] = left;
    state[2 * from + 1] = sequence;
    state[2 * to] = reached;
}
