use snow_base::Id;

/// What a node that bootstraps asks of all nodes.
/// Rule: AvalancheGo, snow/engine/snowman/bootstrap.
#[derive(Clone, Copy)]
pub enum Question {
    /// Their accepted frontier.
    Frontier,
    /// Which of the collected identifiers they hold accepted.
    Accepted,
    /// Nothing: the targets are known, and blocks are fetched.
    Nothing,
}

/// An identifier that the nodes named, and the weight, below 2^63, of those that hold it accepted.
/// Rule: AvalancheGo, snow/engine/snowman/bootstrap.
#[derive(Clone, Copy)]
pub struct Candidate {
    /// The identifier.
    pub id: Id,
    /// The weight that backs it.
    pub weight: u64,
}
