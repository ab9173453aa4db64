//! A lineup: items in order of arrival, each with the block that it waits for and with what is
//! remembered of it, so that what was looked at and didn't change is passed by.
#![tactic(auto)]

mod lineup;
mod marks;
mod rows;
mod waking;
mod window;

pub use lineup::{Keyed, Lineup};
pub use marks::Mark;
