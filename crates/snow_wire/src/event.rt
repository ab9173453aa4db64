use snow_base::{Blocks, Bytes, Id, Ids, NodeId, Nodes, Nums};

/// How a run begins: the parameters of the polls, the last accepted block with the chain's state
/// there, of at most 4,096 numbers, and at most 4,096 nodes with their weights. Reading a Start
/// doesn't check the parameters, the state or the nodes.
/// Rule: this project's own.
#[derive(Drop)]
pub struct Start {
    /// How many units are sampled for a poll.
    pub k: u32,
    /// The votes that move a preference.
    pub alpha_preference: u32,
    /// The votes that raise a confidence.
    pub alpha_confidence: u32,
    /// The confidence that decides.
    pub beta: u32,
    /// How many polls run at a time.
    pub repolls: u32,
    /// Whether the node bootstraps first.
    pub boot: bool,
    /// The last accepted block.
    pub last: Id,
    /// Its height.
    pub height: u64,
    /// The chain's state there.
    pub state: Nums,
    /// The nodes that are asked, each with its weight.
    pub nodes: Nodes,
}

/// One thing that happens to a node. In a message `node` is the peer that sent it and `request` the
/// number of the request that it belongs to. A request number is below 2^32, and 0 means that
/// nobody asked.
/// Rule: this project's own.
#[derive(Drop)]
pub enum Event {
    /// The run begins.
    Start(Start),
    /// A block came, as its bytes.
    Block {
        node: NodeId,
        request: u32,
        bytes: Bytes,
    },
    /// A whole poll: the block that each vote is for.
    Poll {
        ids: Ids,
    },
    /// Random numbers for later samples.
    Words {
        words: Nums,
    },
    /// A peer's vote.
    Chits {
        node: NodeId,
        request: u32,
        id: Id,
    },
    /// A peer won't reply.
    Timeout {
        node: NodeId,
        request: u32,
    },
    /// A peer's last accepted block.
    Frontier {
        node: NodeId,
        request: u32,
        id: Id,
    },
    /// Those of the named blocks that a peer holds accepted.
    Accepted {
        node: NodeId,
        request: u32,
        ids: Ids,
    },
    /// A block and its ancestors, as their bytes.
    Ancestors {
        node: NodeId,
        request: u32,
        blocks: Blocks,
    },
    /// A block that was stored earlier, as its bytes.
    Stored {
        bytes: Bytes,
    },
    /// A new set of nodes to ask.
    Validators {
        nodes: Nodes,
    },
    /// A peer asks for this node's vote.
    AskQuery {
        node: NodeId,
        request: u32,
    },
    /// A peer asks for the last accepted block.
    AskFrontier {
        node: NodeId,
        request: u32,
    },
    /// A peer asks which of these blocks are accepted.
    AskAccepted {
        node: NodeId,
        request: u32,
        ids: Ids,
    },
    /// A peer asks for a block and its ancestors.
    AskAncestors {
        node: NodeId,
        request: u32,
        id: Id,
    },
    /// A peer asks for a block.
    AskBlock {
        node: NodeId,
        request: u32,
        id: Id,
    },
    /// A line that a run wrote, without the byte that ends it.
    Line {
        text: Bytes,
    },
}
