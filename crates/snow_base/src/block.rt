//! What a block says of itself, and the votes for it.
use crate::identifier::Id;

/// What a block says of itself: its identifier, its parent's, and its height, which is below 2^64.
/// Rule: AvalancheGo, snow/consensus/snowman.
#[derive(Clone, Copy, Debug, PartialEq, Eq)]
pub struct Header {
    pub id: Id,
    pub parent: Id,
    pub height: u64,
}

/// A number of votes, below 2^32, for one block. A bag keeps no count of 0.
/// Rule: the Snow family paper.
#[derive(Clone, Copy, Debug, PartialEq, Eq)]
pub struct Vote {
    /// The block.
    pub id: Id,
    /// How many votes it has.
    pub count: u32,
}
