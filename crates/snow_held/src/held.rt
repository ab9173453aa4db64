use snow_base::{Id, NodeId};

/// A node's reply to the poll of this number, which names a block that waits or is asked for.
/// Rule: AvalancheGo, snow/engine/snowman.
#[derive(Clone, Copy, Debug, PartialEq, Eq)]
pub struct Held {
    pub number: u32,
    pub node: NodeId,
    pub id: Id,
}
