ghost use Rattle.std.specs.Prelude.{◌≡◌, ◌+◌, ◌-◌, ◌<◌, ◌≤◌, ◌∷◌, ◌++◌, [], Some, false, bytes_eq, vec_capacity, length, take, map, slice_get, OnOk, OnErr};
ghost use Rattle.std.specs.List.{position};
ghost use Rattle.std.specs.Map.{values_of};
ghost use Rattle.snow_board.specs.Kept.Grown.{has_block};
ghost use Rattle.snow_tree.specs.declared.node.Node.{Node};
ghost use Rattle.snow_tree.specs.Kept.Nodes.{blocks_of, linked, unlinked, with_children};
ghost use Rattle.snow_tree.specs.Kept.Row.{set_children_at};

use crate::children::Children;
use crate::row::Row;
use snow_base::{Header, Id};
use std::alloc::{AllocError, Global};

// The block at a place has one child more. After want of memory all is as before.
fn link_at<T>(alloc: Global, nodes: &mut Row<T>, at: usize, id: Id) -> Result<(), AllocError>
    ensures ok { (n : Node T) → slice_get (values_of nodes.old.entries) at ≡ Some n → OnOk result (nodes.new.entries ≡ set_children_at nodes.old.entries at (n.children ++ id ∷ [])) }
    ensures err { OnErr result (nodes.new.entries ≡ nodes.old.entries) }
    ensures spare { nodes.new.spare ≡ nodes.old.spare }
    ensures next { nodes.new.next ≡ nodes.old.next }
{
    match nodes.children_mut(at) {
        Some(children) => children.push(alloc, id),
        None => Ok(()),
    }
}

// A block was issued: it is the last child of its parent, which stands at this place. After want of memory
// all is as before.
fn link<T>(
    alloc: Global,
    first: &mut Children,
    nodes: &mut Row<T>,
    last: &Id,
    block: &Header,
    at: Option<usize>,
) -> Result<(), AllocError>
    requires off { has_block (blocks_of nodes.old.entries) last.now ≡ false }
    requires exact { at ≡ position (λ e. bytes_eq e.0 (block.now).parent) nodes.old.entries }
    ensures first { OnOk result (first.new ≡ linked block.now last.now first.old) }
    ensures nodes { OnOk result (nodes.new.entries ≡ map (with_children (linked block.now)) nodes.old.entries) }
    ensures first_stay { OnErr result (first.new ≡ first.old) }
    ensures nodes_stay { OnErr result (nodes.new.entries ≡ nodes.old.entries) }
    ensures spare { nodes.new.spare ≡ nodes.old.spare }
    ensures next { nodes.new.next ≡ nodes.old.next }
{
    let _len = nodes.len();
    if *last == block.parent {
        return first.push(alloc, block.id);
    }
    match at {
        Some(at) => link_at(alloc, nodes, at, block.id),
        None => Ok(()),
    }
}

// The block at a place has one child less.
fn unlink_at<T>(nodes: &mut Row<T>, at: usize)
    ensures nodes { (n : Node T) → slice_get (values_of nodes.old.entries) at ≡ Some n → nodes.new.entries ≡ set_children_at nodes.old.entries at (take (length n.children - 1) n.children) }
{
    match nodes.children_mut(at) {
        Some(children) => children.pop(),
        None => (),
    }
}

/// Takes the last child of a block out of the block's children.
pub(crate) fn unlink<T>(first: &mut Children, nodes: &mut Row<T>, last: &Id, parent: &Id)
    requires { has_block (blocks_of nodes.old.entries) last.now ≡ false }
    ensures first { first.new ≡ unlinked parent.now last.now first.old }
    ensures nodes { nodes.new.entries ≡ map (with_children (unlinked parent.now)) nodes.old.entries }
{
    if *last == *parent {
        first.pop();
        return;
    }
    match nodes.get_index_of(parent) {
        Some(at) => unlink_at(nodes, at),
        None => (),
    }
}

/// Makes room for one more block, and puts the block among the children of its parent, which stands
/// at this place. On want of memory all stays as it was.
pub(crate) fn make_room_and_link<T>(
    alloc: Global,
    first: &mut Children,
    nodes: &mut Row<T>,
    rejected: &mut Vec<Id>,
    last: &Id,
    block: &Header,
    at: Option<usize>,
) -> Result<(), AllocError>
    requires off { has_block (blocks_of nodes.old.entries) last.now ≡ false }
    requires exact { at ≡ position (λ e. bytes_eq e.0 (block.now).parent) nodes.old.entries }
    ensures first { OnOk result (first.new ≡ linked block.now last.now first.old) }
    ensures nodes { OnOk result (nodes.new.entries ≡ map (with_children (linked block.now)) nodes.old.entries) }
    ensures room { OnOk result ((0 < nodes.new.spare) × (length nodes.old.entries + 1 ≤ vec_capacity rejected.new)) }
    ensures first_stay { OnErr result (first.new ≡ first.old) }
    ensures nodes_stay { OnErr result (nodes.new.entries ≡ nodes.old.entries) }
    ensures rejected { rejected.new.items ≡ rejected.old.items }
    ensures wide { vec_capacity rejected.old ≤ vec_capacity rejected.new }
{
    rejected.reserve(nodes.len() + 1)?;
    nodes.reserve_one()?;
    link(alloc, first, nodes, last, block, at)
}
