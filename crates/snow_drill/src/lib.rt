//! The drill: a node that runs over events which follow from a seed and from its own lines, and a
//! summary of it.
#![tactic(auto)]

mod account;
mod answering;
mod drilling;
mod driven;
mod generator;
mod made;
mod making;
mod player;
mod scratch;
mod stepping;
mod summary;
mod tally;

pub use drilling::drill;
