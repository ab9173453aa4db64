//! The board of pending blocks over compressed trees of counters.
#![tactic(auto)]

mod accepting;
mod ballot;
mod climbing;
mod counting;
mod issuing;
mod leading;
mod load;
mod renewing;
mod replaying;
mod settling;
mod topo;
mod winning;

pub use replaying::replay_counted;
pub use topo::Topo;
