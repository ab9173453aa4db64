//! The pending blocks in order of issue, each with a load.
#![tactic(auto)]

mod children;
mod hints;
mod id_index;
mod leaving;
mod linking;
mod looking;
mod node;
mod placing;
mod row;
mod sweeping;
mod tree;

pub use tree::{Tree, TreeFull};
