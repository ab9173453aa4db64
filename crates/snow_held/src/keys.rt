ghost use Rattle.std.specs.Prelude.{◌≡◌};
ghost use Rattle.snow_held.specs.Kept.Keys.{key_of};

use snow_base::NodeId;

/// A node behind its last eight bytes as a number. Most nodes differ in these, so an ordered map tells
/// them apart by one comparison of numbers.
#[derive(Clone, Copy, PartialEq, Eq, PartialOrd, Ord)]
pub(crate) struct NodeKey {
    last: u64,
    node: NodeId,
}

impl NodeKey {
    /// The key of a node.
    pub(crate) fn of(node: &NodeId) -> NodeKey
        ensures { result ≡ key_of node.now }
    {
        NodeKey {
            last: node.word(12),
            node: *node,
        }
    }
}
