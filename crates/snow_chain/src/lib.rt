//! Kinds of blocks, and the states of blocks that a node holds.
#![tactic(auto)]

mod chain;
mod fault;
mod fields;
mod plain;
mod states;
mod tally;

pub use chain::Chain;
pub use fault::ChainFault;
pub use fields::{id_at, number_at};
pub use plain::PlainChain;
pub use snow_base::Header;
pub use states::States;
pub use tally::TallyChain;
