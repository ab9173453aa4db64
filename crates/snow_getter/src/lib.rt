//! What a node serves to its peers, and its answers to their questions.
#![tactic(auto)]

mod answering;
mod getter;
mod pending;
mod served;

pub use answering::longest_chain_law;
pub use getter::Getter;
pub use served::Served;
