ghost use Rattle.std.specs.Prelude.{◌≡◌, reverse, slice_get, bytes_eq};
ghost use Rattle.std.specs.List.{position};
ghost use Rattle.std.specs.Option.{option_map};
ghost use Rattle.snow_base.specs.Model.Ancestry.{child_on};
ghost use Rattle.snow_board.specs.Kept.Grown.{IsGrown};
ghost use Rattle.snow_tree.specs.Kept.Nodes.{block_of, blocks_of};

use crate::row::Row;
use snow_base::{Header, Id};

/// Returns where the block of an identifier stands in order of issue, or `None`.
pub(crate) fn place_of<T>(nodes: &Row<T>, id: &Id) -> Option<usize>
    ensures { result ≡ position (λ e. bytes_eq e.0 id.now) nodes.now.entries }
{
    nodes.get_index_of(id)
}

/// Returns the block at a place.
pub(crate) fn block_at<T>(nodes: &Row<T>, place: usize) -> Option<Header>
    ensures { result ≡ option_map block_of (slice_get nodes.now.entries place) }
{
    match nodes.get_index(place) {
        Some((id, node)) => Some(Header {
            id: *id,
            parent: node.parent,
            height: node.height,
        }),
        None => None,
    }
}

/// Returns the child of the last accepted block on the line of a block, or `None`.
pub(crate) fn ancestor<T>(nodes: &Row<T>, last: &Id, id: &Id) -> Option<Id>
    requires grown { IsGrown last.now (reverse (blocks_of nodes.now.entries)) }
    ensures { result ≡ option_map (λ b. b.id) (child_on (blocks_of nodes.now.entries) last.now id.now) }
{
    let mut place = place_of(nodes, id);
    while let Some(at) = place {
        let block = block_at(nodes, at)?;
        if block.parent == *last {
            return Some(block.id);
        }
        place = nodes.parent_of(at);
    }
    None
}
