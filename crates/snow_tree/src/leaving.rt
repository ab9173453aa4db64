ghost use Rattle.std.specs.Prelude.{◌≡◌, ℕ, ◌+◌, ◌<◌, ◌≤◌, List, ◌++◌, [], IfSome, length, reverse, slice_get, bytes_eq, Some, vec_len, vec_capacity};
ghost use Rattle.std.specs.List.{remove};
ghost use Rattle.std.specs.Map.{lookup};
ghost use Rattle.std.specs.Option.{option_map};
ghost use Rattle.snow_board.specs.Kept.Grown.{IsGrown};
ghost use Rattle.snow_tree.specs.declared.node.Node.{Node};
ghost use Rattle.snow_tree.specs.Kept.Held.{children_of};
ghost use Rattle.snow_tree.specs.Kept.Nodes.{IsTakenOver, blocks_of, left, outsiders};
ghost use Rattle.snow_tree.specs.Kept.Row.{EndsBefore, IsFront, staying, leaving};

use crate::children::Children;
use crate::node::Node;
use crate::row::Row;
use snow_base::Id;

// Puts the children and the load of a node that went out in place of others, and returns its height.
fn unpack<T: Drop>(node: Node<T>, children: &mut Children, load: &mut T) -> u64
    ensures { IsTakenOver node children.new load.new result }
{
    *children = node.children;
    *load = node.load;
    node.height
}

// The only child, which was issued first, leaves.
fn take_first<T: Drop>(nodes: &mut Row<T>, children: &mut Children, load: &mut T) -> u64
    ensures node { (e : List ℕ × Node T) → slice_get nodes.old.entries 0 ≡ Some e → IsTakenOver e.1 children.new load.new result }
    ensures rest { nodes.new.entries ≡ remove nodes.old.entries 0 }
{
    match nodes.remove(0) {
        Some((_, node)) => unpack(node, children, load),
        None => 0,
    }
}

// How many nodes in front are sure to stay once the child at a place is out. Where it was issued first, all
// before its first brother descend from it. Else a brother stands in front. So where there is a brother, the
// first one is the next node.
fn before_brothers<T>(nodes: &Row<T>, place: usize, children: &Children) -> usize
    requires { (last : List ℕ) × IsGrown last (reverse (blocks_of nodes.now.entries)) × (children.now ≡ children_of (blocks_of nodes.now.entries) last) }
    ensures front { (e : List ℕ × Node T) → slice_get nodes.now.entries place ≡ Some e → IsFront e.1.number result (remove nodes.now.entries place) }
    ensures brother { 1 < length children.now → EndsBefore children.now result (remove nodes.now.entries place) }
{
    let _len = nodes.len();
    if place != 0 {
        return 0;
    }
    match children.list().get(1) {
        Some(brother) => nodes.get_index_of(brother).unwrap_or(0).saturating_sub(1),
        None => 0,
    }
}

// The child at a place leaves, and then all that don't stand above it. The first `from` of the others stay.
fn take_at<T: Drop>(
    nodes: &mut Row<T>,
    place: usize,
    from: usize,
    rejected: &mut Vec<Id>,
    children: &mut Children,
    load: &mut T,
) -> u64
    requires front { (e : List ℕ × Node T) → slice_get nodes.old.entries place ≡ Some e → IsFront e.1.number from (remove nodes.old.entries place) }
    requires room { vec_len rejected.old + length nodes.old.entries ≤ vec_capacity rejected.old }
    ensures node { (e : List ℕ × Node T) → slice_get nodes.old.entries place ≡ Some e → IsTakenOver e.1 children.new load.new result }
    ensures left { (e : List ℕ × Node T) → slice_get nodes.old.entries place ≡ Some e → nodes.new.entries ≡ staying e.1.number [] (remove nodes.old.entries place) }
    ensures told { (e : List ℕ × Node T) → slice_get nodes.old.entries place ≡ Some e → rejected.new.items ≡ rejected.old.items ++ leaving e.1.number [] (remove nodes.old.entries place) }
    ensures room { vec_capacity rejected.new ≡ vec_capacity rejected.old }
{
    match nodes.remove(place) {
        Some((_, node)) => {
            nodes.sweep(node.number, from, rejected);
            unpack(node, children, load)
        }
        None => 0,
    }
}

// A child that isn't the only one leaves, with all that don't descend from it.
fn take_among<T: Drop>(
    nodes: &mut Row<T>,
    last: &Id,
    child: &Id,
    rejected: &mut Vec<Id>,
    children: &mut Children,
    load: &mut T,
) -> u64
    requires grown { IsGrown last.now (reverse (blocks_of nodes.old.entries)) }
    requires child { option_map (λ n. n.parent) (lookup (bytes_eq child.now) nodes.old.entries) ≡ Some last.now }
    requires children { children.old ≡ children_of (blocks_of nodes.old.entries) last.now }
    requires room { vec_len rejected.old + length nodes.old.entries ≤ vec_capacity rejected.old }
    ensures node { IfSome (lookup (bytes_eq child.now) nodes.old.entries) (λ n. IsTakenOver n children.new load.new result) }
    ensures left { nodes.new.entries ≡ left nodes.old.entries child.now }
    ensures told { rejected.new.items ≡ rejected.old.items ++ outsiders nodes.old.entries child.now }
    ensures room { vec_capacity rejected.new ≡ vec_capacity rejected.old }
{
    let _len = nodes.len();
    let _last = last;
    match nodes.get_index_of(child) {
        Some(place) => {
            let from = before_brothers(nodes, place, children);
            take_at(nodes, place, from, rejected, children, load)
        }
        None => 0,
    }
}

/// Takes the child out that is accepted, and all blocks that don't descend from it. It appends
/// these to `rejected` in order of issue, puts the child's children and load in place of the
/// others, and returns the child's height. An only child is at the front, so no other block
/// changes. It takes no memory.
pub(crate) fn take_accepted<T: Drop>(
    nodes: &mut Row<T>,
    last: &Id,
    child: &Id,
    rejected: &mut Vec<Id>,
    children: &mut Children,
    load: &mut T,
) -> u64
    requires grown { IsGrown last.now (reverse (blocks_of nodes.old.entries)) }
    requires child { option_map (λ n. n.parent) (lookup (bytes_eq child.now) nodes.old.entries) ≡ Some last.now }
    requires children { children.old ≡ children_of (blocks_of nodes.old.entries) last.now }
    requires room { vec_len rejected.old + length nodes.old.entries ≤ vec_capacity rejected.old }
    ensures node { IfSome (lookup (bytes_eq child.now) nodes.old.entries) (λ n. IsTakenOver n children.new load.new result) }
    ensures left { nodes.new.entries ≡ left nodes.old.entries child.now }
    ensures told { rejected.new.items ≡ rejected.old.items ++ outsiders nodes.old.entries child.now }
    ensures room { vec_capacity rejected.new ≡ vec_capacity rejected.old }
{
    let _len = nodes.len();
    let is_alone = children.list().len() == 1;
    if is_alone {
        return take_first(nodes, children, load);
    }
    take_among(nodes, last, child, rejected, children, load)
}
