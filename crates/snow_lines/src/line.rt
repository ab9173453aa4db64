use crate::boxed::BoxedId;
use crate::why::{DropWhy, QueryWhy, RestartWhy, SkipKind};
use snow_base::{Blocks, Bytes, Id, Ids, Items, NodeId};
use snow_sample::Draws;

/// A line of output. A frame's number is below 2^64, a request's below 2^32; a node has 20 bytes
/// and an identifier 32. The identifiers that chits tell stand in boxes, so that a line takes 64
/// bytes. The variants that hold a list or a box stand last, so that one test tells that a line has
/// nothing to free.
/// Rule: this project's own.
#[derive(Drop)]
pub enum Line {
    /// A node is asked for a block.
    Get {
        number: u32,
        node: NodeId,
        id: Id,
    },
    /// All nodes are asked for their accepted frontier.
    Frontier {
        number: u32,
    },
    /// A node is asked for a block and its ancestors.
    Ancestors {
        number: u32,
        node: NodeId,
        id: Id,
    },
    /// A block is accepted.
    Accept {
        id: Id,
    },
    /// A block is rejected.
    Reject {
        id: Id,
    },
    /// The preference changed, and is this block.
    Prefer {
        id: Id,
    },
    /// A block is given up.
    Drop {
        id: Id,
        why: DropWhy,
    },
    /// A query isn't sent.
    DropQuery {
        why: QueryWhy,
    },
    /// A frame, counted from 1, is passed over.
    Skip {
        frame: u64,
        kind: SkipKind,
    },
    /// Bootstrapping begins again.
    Restart {
        why: RestartWhy,
    },
    /// Bootstrapping is over, with this block accepted last.
    Bootstrapped {
        id: Id,
        height: u64,
    },
    /// A node is told the last accepted block.
    ToFrontier {
        node: NodeId,
        number: u32,
        id: Id,
    },
    /// A node is told the preference and the last accepted block.
    ToChits {
        node: NodeId,
        number: u32,
        preference: BoxedId,
        last: BoxedId,
    },
    /// Nodes are asked for their preference, each as often as it was drawn.
    Query {
        number: u32,
        id: Id,
        draws: Draws,
    },
    /// All nodes are asked which of these they hold accepted.
    Accepted {
        number: u32,
        ids: Ids,
    },
    /// A node is told which of its blocks are accepted.
    ToAccepted {
        node: NodeId,
        number: u32,
        ids: Ids,
    },
    /// A node is given a block and its ancestors.
    ToAncestors {
        node: NodeId,
        number: u32,
        blocks: Blocks,
    },
    /// A node is given a block.
    ToBlock {
        node: NodeId,
        number: u32,
        bytes: Bytes,
    },
}

/// A list of lines in the order in which they are written.
/// Rule: this project's own.
pub type Lines = Items<Line>;
