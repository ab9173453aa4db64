//! The top call: from words and bytes that come in to the lines that go out.
#![tactic(auto)]

mod program;
mod report;
mod status;

pub use program::top;
pub use snow_command::{ChainName, Command, Job, RuleName, read_words};
pub use status::Status;
