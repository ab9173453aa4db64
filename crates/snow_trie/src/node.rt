ghost use Rattle.std.specs.Prelude.{◌≡◌, ◌^◌, ◌<◌};
ghost use Rattle.snow_trie.specs.Kept.Tree.{tree_of};
ghost use Rattle.snow_trie.specs.Kept.Outline.{size};
ghost use Rattle.snow_trie.specs.Kept.Shape.{IsPlaced};
ghost use Rattle.snow_trie.specs.Kept.Growing.{parting, branch};
ghost use Rattle.snow_trie.specs.Kept.Peeling.{preferred, first_leaf};

use crate::fork::Fork;
use crate::run::Run;
use snow_base::Id;
use snow_flake::Rule;

/// A node of the tree, with what is below it. Behind its last bit an identifier stands. A last
/// unary node, up to that bit, is that identifier's own: it keeps nothing below it.
/// Rule: AvalancheGo, snow/consensus/snowball.
#[derive(Debug, Drop)]
pub enum Node {
    End(Id),
    Last(Run),
    Along(Run, Box<Node>),
    Apart(Fork, Box<Node>, Box<Node>),
}

/// Returns what stands from a bit on for an identifier that is added: a fresh unary node up to its
/// end, or nothing behind the last bit.
/// Rule: AvalancheGo, snow/consensus/snowball.
pub fn branch(id: &Id, at: u16) -> Node
    ensures { tree_of result ≡ branch id.now at }
{
    if at < 256 {
        Node::Last(Run::fresh(id))
    } else {
        Node::End(*id)
    }
}

/// Returns the first bit at which an identifier differs from the node, where this is a unary one,
/// or `None`.
/// Rule: AvalancheGo, snow/consensus/snowball.
pub fn parting(node: &Node, id: &Id, from: u16) -> Option<u16>
    requires { IsPlaced from (tree_of node.now) }
    ensures { result ≡ parting from id.now (tree_of node.now) }
{
    match node {
        Node::Along(run, _) => run.id.first_difference(id, from, run.to),
        Node::Last(run) => run.id.first_difference(id, from, run.to),
        _ => None,
    }
}

/// Returns how many nodes there are, fewer than 2^64.
/// Rule: AvalancheGo, snow/consensus/snowball.
pub fn count(node: &Node) -> usize
    requires { size (tree_of node.now) < 2 ^ 64 }
    ensures { result ≡ size (tree_of node.now) }
{
    match node {
        Node::End(_) => 0,
        Node::Last(_) => 1,
        Node::Along(_, below) => count(below) + 1,
        Node::Apart(_, zeros, ones) => count(zeros) + count(ones) + 1,
    }
}

/// Returns the identifier to which the answers of the rule lead.
/// Rule: AvalancheGo, snow/consensus/snowball.
pub fn preference<R: Rule>(node: &Node) -> &Id
    ensures { result.now ≡ preferred R.answer (tree_of node.now) }
{
    match node {
        Node::End(id) => id,
        Node::Last(run) => &run.id,
        Node::Along(_, below) => preference::<R>(below),
        Node::Apart(fork, zeros, ones) => {
            preference::<R>(if fork.answer::<R>() { ones } else { zeros })
        }
    }
}

/// Returns an identifier that stands in the tree.
/// Rule: AvalancheGo, snow/consensus/snowball.
pub fn first_leaf(node: &Node) -> &Id
    ensures { result.now ≡ first_leaf (tree_of node.now) }
{
    match node {
        Node::End(id) => id,
        Node::Last(run) => &run.id,
        Node::Along(_, below) => first_leaf(below),
        Node::Apart(_, zeros, _) => first_leaf(zeros),
    }
}
