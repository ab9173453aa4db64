//! What waits in a node: blocks without a parent yet, replies that don't count yet, and the list of
//! blocks that are gone.
#![tactic(auto)]

mod bubbling;
mod gone;
mod laws;
mod looking;
mod offering;
mod queue;
mod settling;
mod spare;
mod voting;
mod waiting;
mod work;

pub use gone::Gone;
pub use laws::{bubbling_law, issue_stays_known_law, poll_stays_known_law};
pub use queue::Queue;
pub use snow_held::Held;
pub use spare::SpareBytes;
pub use work::{Offered, Waiting, Work};
