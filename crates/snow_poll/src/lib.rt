//! The table of polls. A poll counts the replies of the nodes that it drew, and closes as soon as
//! no reply can change what it does.
#![tactic(auto)]

mod awaited;
mod poll;
mod polls;
mod room;
mod tally;
mod turns;

pub use poll::early_closing_law;
pub use polls::{Answered, Closed, PollFault, Polls};
