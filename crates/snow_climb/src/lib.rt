//! The votes of a poll on their way up the pending blocks.
#![tactic(auto)]

mod climber;
mod gathering;
mod ladder;
mod majority;
mod naming;
mod starting;

pub use climber::{Climber, pass};
pub use gathering::gather;
pub use ladder::Ladder;
pub use majority::main_vote;
pub use naming::named;
pub use starting::{start_each, start_votes};
