//! The counters of one conflict as a compressed tree.
#![tactic(auto)]

mod alone;
mod fork;
mod forked;
mod growing;
mod narrowing;
mod node;
mod peeling;
mod polling;
mod run;
mod trie;

pub use trie::Trie;
