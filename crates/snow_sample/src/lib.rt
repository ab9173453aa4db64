//! Weighted sampling of nodes without replacement, by random words that are given.
#![tactic(auto)]

mod dividing;
mod draws;
mod fresh;
mod guide;
mod line;
mod places;
mod room;
mod roster;
mod sampling;
mod shuffle;
mod weighing;
mod words;

pub use draws::{Draw, Draws};
pub use fresh::zeros;
pub use roster::{Node, Roster, RosterFault};
pub use sampling::{SampleFault, distinct_units_law, whole_list_law};
pub use words::Words;
