//! The last entries that came, with the latest one of an identifier found by an index.
#![tactic(auto)]

mod heads;
mod index;
mod recent;
mod seats;
mod table;

pub use recent::{Named, Recent};
