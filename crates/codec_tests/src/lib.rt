//! Tests of frames, events and lines, of what a node answers to its peers, and of what these stand on
//! (identifiers and votes, values by identifier, sources and sinks, samples, the last entries), through
//! their public calls. They stand apart from the crates that they test, since a crate is proved a
//! second time with its tests. What a test looks at goes through helpers that answer numbers and truth
//! values and promise nothing, so that the contracts of a call are read in one short function alone.
#![tactic(auto)]

#[cfg(test)]
mod base;
#[cfg(test)]
mod lines;
#[cfg(test)]
mod map;
#[cfg(test)]
mod pages;
#[cfg(test)]
mod recent;
#[cfg(test)]
mod sampling;
#[cfg(test)]
mod serving;
#[cfg(test)]
mod wire;
