ghost use Rattle.std.specs.Prelude.{◌≡◌, ◌+◌, ◌<◌, IfOk, OnOk, OnErr};
ghost use Rattle.snow_base.specs.Model.Identifier.{bit};
ghost use Rattle.snow_trie.specs.Kept.Tree.{Tip, Line, tree_of};
ghost use Rattle.snow_trie.specs.Kept.Shape.{IsPlaced};
ghost use Rattle.snow_trie.specs.Kept.Growing.{grown, branch, parted, before, after, joined, fork_of};
ghost use Rattle.snow_trie.specs.Kept.Whole.{added};

use crate::fork::Fork;
use crate::node::{self, Node};
use crate::run::Run;
use snow_base::Id;
use std::alloc::{AllocError, Global};
use std::mem;

/// Adds an identifier to the tree behind a decided prefix, which is a leader's. It passes over one
/// that the prefix excludes. On want of memory it returns `AllocError`, and the tree stays as it
/// was.
/// Rule: AvalancheGo, snow/consensus/snowball.
pub fn add_behind(
    root: &mut Node,
    alloc: Global,
    id: &Id,
    leader: &Id,
    decided: u16,
) -> Result<(), AllocError>
    requires { IsPlaced decided (tree_of root.old) }
    ensures ok { OnOk result (tree_of root.new ≡ added decided leader.now id.now (tree_of root.old)) }
    ensures err { OnErr result (tree_of root.new ≡ tree_of root.old) }
{
    match leader.first_difference(id, 0, decided) {
        Some(_) => Ok(()),
        None => add(root, alloc, id, decided),
    }
}

// Adds an identifier to the tree that begins at a bit. After want of memory the tree is as before.
fn add(node: &mut Node, alloc: Global, id: &Id, from: u16) -> Result<(), AllocError>
    requires { IsPlaced from (tree_of node.old) }
    ensures ok { OnOk result (tree_of node.new ≡ grown from id.now (tree_of node.old)) }
    ensures err { OnErr result (tree_of node.new ≡ tree_of node.old) }
{
    if let Some(at) = node::parting(node, id, from) {
        return part(node, alloc, id, from, at);
    }
    match node {
        Node::End(_) | Node::Last(_) => Ok(()),
        Node::Along(run, below) => add(below, alloc, id, run.to),
        Node::Apart(_, zeros, ones) => {
            if id.bit(from) {
                add(ones, alloc, id, from + 1)
            } else {
                add(zeros, alloc, id, from + 1)
            }
        }
    }
}

// A unary node parts at a bit. Its nodes are made first.
fn part(node: &mut Node, alloc: Global, id: &Id, from: u16, at: u16) -> Result<(), AllocError>
    requires { at < 256 }
    ensures ok { OnOk result (tree_of node.new ≡ parted from at (branch id.now (at + 1)) (tree_of node.old)) }
    ensures err { OnErr result (tree_of node.new ≡ tree_of node.old) }
{
    if let Node::Last(run) = node {
        *node = parted_last(run, alloc, id, from, at)?;
        return Ok(());
    }
    let new = Box::new(alloc, node::branch(id, at + 1))?;
    let first = Box::new(alloc, Node::End(*id))?;
    let second = Box::new(alloc, Node::End(*id))?;
    let old = mem::replace(node, Node::End(*id));
    *node = match old {
        Node::Along(run, below) => {
            let rest = after(&run, at, below, second);
            apart(&run, from, at, rest, new, first)
        }
        other => other,
    };
    Ok(())
}

// A last unary node parted at a bit, with a new branch. It has nothing below it that would have to be
// moved, so each piece is made where it stays.
fn parted_last(run: &Run, alloc: Global, id: &Id, from: u16, at: u16) -> Result<Node, AllocError>
    requires { at < 256 }
    ensures { IfOk result (λ node. tree_of node ≡ parted from at (branch id.now (at + 1)) (Line run.now (Tip (run.now).id))) }
{
    let new = Box::new(alloc, node::branch(id, at + 1))?;
    let rest = Box::new(alloc, after_last(run, at))?;
    let side = run.id.bit(at);
    let fork = joined(side, Fork::of(run, side), rest, new);
    if from < at {
        let below = Box::new(alloc, fork)?;
        Ok(Node::Along(Run { to: at, ..*run }, below))
    } else {
        Ok(fork)
    }
}

// What is left of it behind a bit, or its identifier.
fn after_last(run: &Run, at: u16) -> Node
    requires { at < 256 }
    ensures { tree_of result ≡ after at run.now (Tip (run.now).id) }
{
    if at + 1 < run.to {
        Node::Last(*run)
    } else {
        Node::End(run.id)
    }
}

// What is left of a unary node behind a bit and a new branch, one on each side of that bit, behind what
// is left before it.
fn apart(run: &Run, from: u16, at: u16, rest: Box<Node>, new: Box<Node>, room: Box<Node>) -> Node
    requires { at < 256 }
    ensures { tree_of result ≡ before from at run.now (joined (bit (run.now).id at) (fork_of run.now (bit (run.now).id at)) (tree_of rest.value) (tree_of new.value)) }
{
    let side = run.id.bit(at);
    let fork = Fork::of(run, side);
    before(run, from, at, joined(side, fork, rest, new), room)
}

// The old piece on its side, and the new branch on the other.
fn joined(side: bool, fork: Fork, old: Box<Node>, new: Box<Node>) -> Node
    ensures { tree_of result ≡ joined side fork (tree_of old.value) (tree_of new.value) }
{
    if side {
        Node::Apart(fork, new, old)
    } else {
        Node::Apart(fork, old, new)
    }
}

// What is left of it behind a bit.
fn after(run: &Run, at: u16, below: Box<Node>, mut room: Box<Node>) -> Box<Node>
    requires { at < 256 }
    ensures { tree_of result.value ≡ after at run.now (tree_of below.value) }
{
    if at + 1 < run.to {
        *room = Node::Along(*run, below);
        room
    } else {
        below
    }
}

// What is left of it before a bit.
fn before(run: &Run, from: u16, at: u16, below: Node, mut room: Box<Node>) -> Node
    ensures { tree_of result ≡ before from at run.now (tree_of below) }
{
    if from < at {
        *room = below;
        Node::Along(Run { to: at, ..*run }, room)
    } else {
        below
    }
}
