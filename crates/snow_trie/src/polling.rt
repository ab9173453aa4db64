ghost use Rattle.std.specs.Prelude.{◌≡◌, ◌+◌, ◌^◌, ◌<◌, ◌≤◌, false, max, All};
ghost use Rattle.snow_base.specs.Kept.Split.{AgreeBelow};
ghost use Rattle.snow_base.specs.Model.Votes.{IsInBitOrder, total_count};
ghost use Rattle.snow_trie.specs.Kept.Tree.{tree_of};
ghost use Rattle.snow_trie.specs.Kept.Outline.{outline, size, Leads};
ghost use Rattle.snow_trie.specs.Kept.Shape.{IsPlaced, IsStamped};
ghost use Rattle.snow_trie.specs.Kept.Polled.{IsPolled, IsRestamped};
ghost use Rattle.snow_trie.specs.Kept.Peeling.{preferred};

use crate::narrowing::total;
use crate::node::Node;
use snow_base::{Steps, Vote, split};
use snow_flake::{Params, Rule};
use std::sync::ledger::Ledger;

// One or the other.
fn either(one: bool, other: bool) -> bool
    ensures { result ≡ false → (one ≡ false) × (other ≡ false) }
{
    one || other
}

/// Takes a poll with these votes to a tree. `count` is their number, at most K, and all are for
/// identifiers that go down the tree, in bit order. `before` is the number of polls so far, below
/// 2^64-1. It counts a step for each node that it visits, at least one. It returns `false` only
/// where the tree leads where it led.
/// Rule: AvalancheGo, snow/consensus/snowball.
pub fn poll<R: Rule, L: Ledger>(
    root: &mut Node,
    from: u16,
    params: &Params,
    votes: &[Vote],
    count: u32,
    before: u64,
    steps: &mut Steps<L>,
) -> bool
    requires placed { IsPlaced from (tree_of root.old) }
    requires stamped { IsStamped before (tree_of root.old) }
    requires known { All (λ v. Leads (outline from (tree_of root.old)) v.id) votes.now }
    requires order { IsInBitOrder votes.now }
    requires agree { AgreeBelow from votes.now }
    requires count { count ≡ total_count votes.now }
    requires most { count ≤ params.now.k }
    requires room { before + 1 < 2 ^ 64 }
    ensures tree { IsPolled params.now votes.now before from (tree_of root.old) (tree_of root.new) }
    ensures least { steps.old < steps.new }
    ensures most { steps.new ≤ steps.old + max 1 (size (tree_of root.old)) }
    ensures steady { result ≡ false → preferred R.answer (tree_of root.new) ≡ preferred R.answer (tree_of root.old) }
{
    if from == 256 {
        steps.tick();
        return false;
    }
    visit::<R, L>(root, from, params, votes, count, before, steps, false)
}

// A poll comes to a node, where one above it moved, or none. It goes on to a side with AlphaPreference
// votes alone: the stamps of the others say that they failed.
fn visit<R: Rule, L: Ledger>(
    node: &mut Node,
    from: u16,
    params: &Params,
    votes: &[Vote],
    count: u32,
    before: u64,
    steps: &mut Steps<L>,
    moved: bool,
) -> bool
    requires placed { IsPlaced from (tree_of node.old) }
    requires stamped { IsStamped before (tree_of node.old) }
    requires known { All (λ v. Leads (outline from (tree_of node.old)) v.id) votes.now }
    requires order { IsInBitOrder votes.now }
    requires agree { AgreeBelow from votes.now }
    requires count { count ≡ total_count votes.now }
    requires most { count ≤ params.now.k }
    requires room { before + 1 < 2 ^ 64 }
    ensures tree { IsPolled params.now votes.now before from (tree_of node.old) (tree_of node.new) }
    ensures later { steps.old ≤ steps.new }
    ensures least { from < 256 → steps.old < steps.new }
    ensures most { steps.new ≤ steps.old + size (tree_of node.old) }
    ensures above { result ≡ false → moved ≡ false }
    ensures steady { result ≡ false → preferred R.answer (tree_of node.new) ≡ preferred R.answer (tree_of node.old) }
{
    match node {
        Node::End(_) => moved,
        Node::Along(run, below) => {
            steps.tick();
            run.poll(params, count, before);
            visit::<R, L>(below, run.to, params, votes, count, before, steps, moved)
        }
        Node::Last(run) => {
            steps.tick();
            run.poll(params, count, before);
            moved
        }
        Node::Apart(fork, zeros, ones) => {
            steps.tick();
            let at = split(votes, from);
            let (for_zero, for_one) = votes.split_at(at);
            let zero = total(params, for_zero);
            let one = behind(for_one, count, zero);
            let here = fork.poll::<R>(params, zero, one, before);
            let moved = either(moved, here);
            if params.alpha_preference() <= zero {
                visit::<R, L>(
                    zeros,
                    from + 1,
                    params,
                    for_zero,
                    zero,
                    before,
                    steps,
                    moved,
                )
            } else if params.alpha_preference() <= one {
                visit::<R, L>(ones, from + 1, params, for_one, one, before, steps, moved)
            } else {
                moved
            }
        }
    }
}

// How many of so many votes are these, where so many are before them.
fn behind(votes: &[Vote], count: u32, front: u32) -> u32
    requires { count ≡ front + total_count votes.now }
    ensures count { result ≡ total_count votes.now }
    ensures few { result ≤ count }
{
    count - front
}

/// Returns the number of polls so far, below 2^64-1, so that the next one has a number too. At the
/// end of 64 bits it makes the stamps begin anew; else the tree stays as it was.
/// Rule: AvalancheGo, snow/consensus/snowball.
pub fn ready(root: &mut Node, polls: u64) -> u64
    ensures room { result + 1 < 2 ^ 64 }
    ensures tree { IsRestamped polls result (tree_of root.old) (tree_of root.new) }
    ensures kept { result ≡ polls → tree_of root.new ≡ tree_of root.old }
{
    if polls < u64::MAX {
        return polls;
    }
    restamp(root, polls);
    0
}

// The stamps begin anew at 0, and say what they said after this many polls. That is rare.
fn restamp(node: &mut Node, now: u64)
    ensures { IsRestamped now 0 (tree_of node.old) (tree_of node.new) }
{
    match node {
        Node::End(_) => {}
        Node::Along(run, below) => {
            run.restamp(now);
            restamp(below, now);
        }
        Node::Last(run) => run.restamp(now),
        Node::Apart(fork, zeros, ones) => {
            fork.restamp(now);
            restamp(zeros, now);
            restamp(ones, now);
        }
    }
}
