//! Sets of heights above a height, as a list and as spans.
#![tactic(auto)]

mod intervals;
mod kept;
mod list;
mod spanning;

pub use intervals::{Intervals, Span};
pub use kept::Kept;
pub use list::KeptList;
