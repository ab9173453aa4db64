//! Tests of the boards and of what they stand on, through their public calls: parameters and one-bit
//! instances, the plain board and its counters, compressed trees, the tree of pending blocks. They stand
//! apart from the crates that they test, since a crate is proved a second time with its tests. What a
//! test looks at goes through helpers that answer numbers and truth values and promise nothing, so that
//! the contracts of a call are read in one short function alone.
#![tactic(auto)]

#[cfg(test)]
mod conflict;
#[cfg(test)]
mod plain;
#[cfg(test)]
mod rules;
#[cfg(test)]
mod slots;
#[cfg(test)]
mod tools;
#[cfg(test)]
mod tree;
#[cfg(test)]
mod trie;
