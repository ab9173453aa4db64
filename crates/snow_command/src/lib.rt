//! The words of the command line, and what they ask for.
#![tactic(auto)]

mod command;
mod figures;
mod ordering;
mod parsing;
mod words;

pub use command::{ChainName, Command, Job, RuleName};
pub use words::read_words;
