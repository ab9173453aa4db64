//! Tests of what a running node waits for, through public calls: the queue over the plain board, and
//! the table of polls. They stand apart from the crates that they test, since a crate is proved a second
//! time with its tests.
#![tactic(auto)]

#[cfg(test)]
mod calls;
#[cfg(test)]
mod polls;
#[cfg(test)]
mod queue;
#[cfg(test)]
mod spare;
