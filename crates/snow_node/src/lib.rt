//! A node that runs, and what every node does with its board, its chain and its lines.
#![tactic(auto)]

mod admitting;
mod laws;
mod reporting;
mod running;
mod stop;
mod telling;

pub use admitting::{admit, apply, apply_votes, opposition};
pub use laws::{completion_law, loops_law, rest_law};
pub use reporting::{tell, write};
pub use running::{Running, roster_of};
pub use stop::Halt;
