//! Tests of the board over compressed trees, through its public calls and beside the plain board. They
//! stand apart from the crate that they test, since a crate is proved a second time with its tests.
#![tactic(auto)]

#[cfg(test)]
mod beside;
#[cfg(test)]
mod counted;
#[cfg(test)]
mod tools;
