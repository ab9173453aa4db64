//! Held replies in order of arrival, each with what is remembered of it, found by block and by poll
//! and node, so that one that was looked at and doesn't change is passed by.
#![tactic(auto)]

mod arrivals;
mod backlog;
mod held;
mod keys;
mod named;
mod replies;
mod roll;

pub use held::Held;
pub use replies::Replies;
