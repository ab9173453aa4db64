//! The open gets of a node: the blocks for which it asked and that haven't come yet, found by number
//! and by block.
#![tactic(auto)]

mod get_map;
mod gets;

pub use gets::{Get, Gets};
