//! What the words of a line say: a frame's payload by its first word, the rest of a stream, or a
//! block's name.
#![tactic(auto)]

mod block;
mod chain;
mod form;
mod kind;
mod line;
mod meaning;
mod payload;
mod start;

pub use kind::Kind;
pub use line::last_place;
pub use meaning::{Meaning, say_words};
