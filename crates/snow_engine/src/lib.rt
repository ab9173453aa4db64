//! The engine of one node: from the events of a stream to lines.
#![tactic(auto)]

mod booting;
mod boxed;
mod deciding;
mod end;
mod engine;
mod runner;
mod serving;
mod session;
mod stage;
mod stop;

pub use boxed::BoxedEnd;
pub use end::{BadKind, End};
pub use engine::{Engine, Task};
pub use runner::Runner;
pub use serving::serve;
pub use snow_boot::BootStop;
pub use snow_sample::RosterFault;
pub use stop::EngineStop;
