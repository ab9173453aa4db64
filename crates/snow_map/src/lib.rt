//! Values by identifier: what an index of blocks is made of.
#![tactic(auto)]

mod far;
mod id_map;
mod id_set;
mod near;

pub use id_map::{IdHashing, IdMap};
pub use id_set::IdSet;
pub use near::seat_of;
