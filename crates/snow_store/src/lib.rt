//! The blocks that bootstrapping keeps above the last accepted one, by height, by parent and by
//! identifier, and what its targets miss.
#![tactic(auto)]

mod index;
mod laws;
pub mod needs;
mod stop;
mod store;

pub use index::{Children, Links};
pub use laws::{linked_law, path_law, progress_law, run_law};
pub use needs::Due;
pub use stop::{BootStop, Verdict};
pub use store::{KeptBlock, Store};
