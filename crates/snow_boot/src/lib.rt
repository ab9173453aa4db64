//! Bootstrapping: how a node that starts behind comes to the block that its peers have accepted.
#![tactic(auto)]

mod asking;
mod boot;
mod candidates;
mod executing;
mod fetching;
mod following;
mod hearing;
mod inquiring;
mod laws;
mod question;
mod reply;
mod survey;

pub use boot::{Boot, Stage};
pub use laws::{
    asked_law, asked_once_law, end_law, execution_law, finish_law, quiet_law, reached_linked_law,
    refused_law, reply_law, stopped_law,
};
pub use question::{Candidate, Question};
pub use reply::ReplyBlocks;
pub use snow_interval::Intervals;
pub use snow_store::{
    BootStop, Children, KeptBlock, Verdict, linked_law, path_law, progress_law, run_law,
};
