//! The lines that show a stream: one for each frame, and one for the rest.
#![tactic(auto)]

mod blocks;
mod bytes;
mod events;
mod frames;
mod lines;
mod lists;
mod put;
mod rest;

pub use frames::show_frame;
pub use rest::show_rest;
