//! The ledger chain: blocks of transfers between accounts.
#![tactic(auto)]

mod block;
mod chain;
mod state;
#[cfg(test)]
mod tests;

pub use block::transfer;
pub use chain::{LedgerChain, ledger_law};
pub use state::Transfer;
