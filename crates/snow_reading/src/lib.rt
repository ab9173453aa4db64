//! Lines read from their text.
#![tactic(auto)]

mod field;
mod kind;
mod reading;
mod why;
mod words;

pub use reading::read;
