//! The top call of the program that shows streams as text and makes them of text.
#![tactic(auto)]

mod finish;
mod program;
mod request;
mod status;
mod telling;

pub use finish::Finish;
pub use program::top;
pub use request::{Request, read_request};
pub use status::Status;
pub use telling::tell;
