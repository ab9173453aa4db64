use snow_base::{Bytes, Id};
use snow_recent::Named;

/// A block that is served: one that is pending, or that was accepted since the node began to run.
/// Rule: AvalancheGo, snow/engine/snowman/getter.
#[derive(Drop)]
pub struct Served {
    /// The block.
    pub id: Id,
    /// Its parent.
    pub parent: Id,
    /// Its bytes.
    pub bytes: Bytes,
}

impl Named for Served {
    ghost id = { λ b. b.id };

    fn id(&self) -> Id {
        self.id
    }
}

/// A block that is held, its bytes where they stand.
#[derive(Clone, Copy)]
pub(crate) struct Held<'a> {
    pub(crate) id: Id,
    pub(crate) parent: Id,
    pub(crate) bytes: &'a [u8],
}
