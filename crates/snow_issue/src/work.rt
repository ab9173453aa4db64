use snow_base::{Bytes, Header, Id, NodeId};
use snow_held::Held;

/// A block that waits, of at most 65,536 bytes, and the node that sent it.
/// Rule: AvalancheGo, snow/engine/snowman.
#[derive(Debug, Drop)]
pub struct Waiting {
    pub node: NodeId,
    pub header: Header,
    pub bytes: Bytes,
}

/// What `Queue::offer` did with a block.
/// Rule: AvalancheGo, snow/engine/snowman.
#[derive(Clone, Copy, Debug, PartialEq, Eq)]
pub enum Offered {
    /// It is on the board or waits already.
    Known,
    /// It is gone, and has a parent in the gone list: it was found invalid.
    Invalid,
    /// It is gone without a parent there, or its height is at most the last accepted one.
    Old,
    /// 4,096 blocks wait.
    Full,
    /// It waits. Its parent is to be asked for, if it is named.
    Waits { ask: Option<Id> },
}

/// One step of settling, with the block or the reply that `Queue::next_work` took out for it.
/// Rule: AvalancheGo, snow/engine/snowman.
#[derive(Debug, Drop)]
pub enum Work {
    /// No one can bring the parent of this block any more.
    Hopeless(Waiting),
    /// The parent of this block is on the board.
    Ready(Waiting),
    /// The block that this reply names neither waits nor is asked for.
    Vote(Held),
}
