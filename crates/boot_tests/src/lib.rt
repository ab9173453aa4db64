//! Tests of a node that bootstraps, through its public calls and over the plain chain, and of what it
//! stands on: chains, and sets of heights. They stand apart from the crates that they test, since a
//! crate is proved a second time with its tests.
#![tactic(auto)]

#[cfg(test)]
mod boot;
#[cfg(test)]
mod chains;
#[cfg(test)]
mod heights;
