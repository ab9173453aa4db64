//! The board of pending blocks over plain counters.
#![tactic(auto)]

mod accepting;
mod conflict;
mod counting;
mod issuing;
mod leading;
mod only_child;
mod places;
mod plain;
mod state;
mod tree;

pub use conflict::Conflict;
pub use plain::PlainBoard;
