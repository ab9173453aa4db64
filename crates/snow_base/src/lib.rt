//! What every layer stands on: identifiers, votes, lists, and the outside as sources and sinks.
#![tactic(auto)]

mod adapter;
mod bag;
mod block;
mod comparing;
mod identifier;
mod items;
pub mod limits;
mod memory;
mod node;
mod numbers;
mod outside;
mod pure;
mod sides;
mod steps;

pub use adapter::{ReadSource, WriteSink};
pub use bag::Bag;
pub use block::{Header, Vote};
pub use identifier::Id;
pub use items::{Blocks, Bytes, Ids, Items, Nodes, Nums};
pub use memory::{MemSink, MemSource};
pub use node::NodeId;
pub use numbers::Numbers;
pub use outside::{Failed, Sink, Source, write_whole};
pub use pure::{PureSink, PureSource};
pub use sides::split;
pub use steps::Steps;
