//! The lines that the program writes, each with its one text.
#![tactic(auto)]

mod boxed;
mod kind;
mod line;
mod why;

pub use boxed::BoxedId;
pub use kind::Kind;
pub use line::{Line, Lines};
pub use snow_sample::{Draw, Draws};
pub use why::{DropWhy, QueryWhy, RestartWhy, SkipKind};
