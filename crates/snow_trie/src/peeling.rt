ghost use Rattle.std.specs.Prelude.{◌≡◌, ℕ, false};
ghost use Rattle.snow_trie.specs.Kept.Tree.{Tip, Line, tree_of};
ghost use Rattle.snow_trie.specs.Kept.Shape.{IsPlaced};
ghost use Rattle.snow_trie.specs.Kept.Peeling.{peeled};
ghost use Rattle.snow_trie.specs.Kept.Whole.{next_leader};

use crate::node::{Node, first_leaf};
use crate::run::Run;
use snow_base::Id;
use snow_flake::Snowflake;
use std::mem;

// A tree with the bit at which it begins.
#[derive(Drop)]
struct Rest {
    from: u16,
    root: Node,
}

// What is left of a last unary node: its identifier, where it is decided.
fn past_last(run: &Run, from: u16) -> Rest
    ensures from { result.from ≡ (peeled from (Line run.now (Tip (run.now).id))).0 }
    ensures root { tree_of result.root ≡ (peeled from (Line run.now (Tip (run.now).id))).1 }
{
    if run.counter.is_final() {
        Rest {
            from: run.to,
            root: Node::End(run.id),
        }
    } else {
        Rest {
            from,
            root: Node::Last(*run),
        }
    }
}

// What is left of a tree whose decided first nodes are taken off.
fn peeled(node: Node, from: u16) -> Rest
    requires { IsPlaced from (tree_of node) }
    ensures from { result.from ≡ (peeled from (tree_of node)).0 }
    ensures root { tree_of result.root ≡ (peeled from (tree_of node)).1 }
{
    match node {
        Node::Along(run, below) => {
            if run.counter.is_final() {
                peeled(Box::into_inner(below), run.to)
            } else {
                Rest {
                    from,
                    root: Node::Along(run, below),
                }
            }
        }
        Node::Last(run) => past_last(&run, from),
        Node::Apart(fork, zeros, ones) => {
            if fork.counter.is_final() {
                let side = if fork.counter.preference::<Snowflake>() {
                    ones
                } else {
                    zeros
                };
                peeled(Box::into_inner(side), from + 1)
            } else {
                Rest {
                    from,
                    root: Node::Apart(fork, zeros, ones),
                }
            }
        }
        end => Rest { from, root: end },
    }
}

// The leader of the prefix before what is left: as before where nothing was taken off, else an
// identifier that stands there.
fn leader_of(rest: &Rest, leader: &Id, decided: u16) -> Id
    ensures { result ≡ next_leader leader.now decided (rest.now).from (tree_of (rest.now).root) }
{
    if rest.from == decided {
        *leader
    } else {
        *first_leaf(&rest.root)
    }
}

// Whether the first node of a tree is decided.
fn is_decided(node: &Node) -> bool
    ensures { result ≡ false → (from : ℕ) → peeled from (tree_of node.now) ≡ (from, tree_of node.now) }
{
    match node {
        Node::End(_) => false,
        Node::Last(run) => run.counter.is_final(),
        Node::Along(run, _) => run.counter.is_final(),
        Node::Apart(fork, _, _) => fork.counter.is_final(),
    }
}

/// Takes the decided first nodes off a tree that begins at a bit behind a leader's first ones. It
/// returns the bit at which what is left begins, behind those of the leader then. Mostly it takes
/// nothing off.
/// Rule: AvalancheGo, snow/consensus/snowball.
pub fn peel(root: &mut Node, leader: &mut Id, decided: u16) -> u16
    requires { IsPlaced decided (tree_of root.old) }
    ensures from { result ≡ (peeled decided (tree_of root.old)).0 }
    ensures root { tree_of root.new ≡ (peeled decided (tree_of root.old)).1 }
    ensures leader { leader.new ≡ next_leader leader.old decided result (tree_of root.new) }
{
    if is_decided(root) {
        take_off(root, leader, decided)
    } else {
        decided
    }
}

// Takes off where the first node is decided.
fn take_off(root: &mut Node, leader: &mut Id, decided: u16) -> u16
    requires { IsPlaced decided (tree_of root.old) }
    ensures from { result ≡ (peeled decided (tree_of root.old)).0 }
    ensures root { tree_of root.new ≡ (peeled decided (tree_of root.old)).1 }
    ensures leader { leader.new ≡ next_leader leader.old decided result (tree_of root.new) }
{
    let whole = mem::replace(root, Node::End(*leader));
    let rest = peeled(whole, decided);
    *leader = leader_of(&rest, leader, decided);
    let Rest { from, root: left } = rest;
    *root = left;
    from
}
