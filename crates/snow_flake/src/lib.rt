//! The parameters of the polls, and the one-bit instances of Snowball and Snowflake.
#![tactic(auto)]

mod binary;
mod params;
mod rule;
mod unary;
mod votes;

pub use binary::Binary;
pub use params::{ParamFault, Params};
pub use rule::{Rule, Snowball, Snowflake};
pub use unary::Unary;
