use crate::booting::Booting;
use crate::deciding::Deciding;
use snow_node::Running;

/// A node, by its task and by how far it is.
/// Rule: this project's own.
#[derive(Drop)]
pub enum Stage<D, B, R> {
    /// It takes blocks and whole polls, and asks nobody.
    Deciding(D),
    /// It bootstraps, and then it runs.
    Booting(B),
    /// It asks other nodes.
    Running(R),
    /// It bootstrapped, and came to a stop.
    Ended,
}

/// A node over any chain and any board.
/// Rule: this project's own.
pub type Node<C, B> = Stage<Deciding<C, B>, Booting<C>, Running<C, B>>;
