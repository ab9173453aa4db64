ghost use Rattle.std.specs.Prelude.{◌≡◌, ◌+◌, ◌*◌, ◌^◌, ◌<◌, ◌≤◌, List, length, slice_get};
ghost use Rattle.snow_base.specs.Model.Votes.{total_count};
ghost use Rattle.snow_base.specs.declared.block.Vote.{Vote};
ghost use Rattle.snow_tree.specs.Kept.Held.{blocks_in};
ghost use Rattle.snow_climb.specs.Kept.Climbing.{id_in};
ghost use Rattle.snow_climb.specs.Kept.Ladder.{KeepsRoom, IsReady};
ghost use Rattle.snow_climb.specs.Kept.Majority.{StandFor};
ghost use Rattle.snow_topo.specs.Clauses.Ballot.{votes_of};
ghost use Rattle.snow_topo.specs.Kept.Counting.{HasCounted};
ghost use Rattle.snow_topo.specs.Kept.Recording.{recording};
ghost use Rattle.snow_topo.specs.Kept.View.{AreFit};

use crate::ballot::{Ballot, one_vote, start};
use crate::climbing::climb;
use crate::load::Load;
use snow_base::{Bag, Id, Steps, Vote};
use snow_climb::{Ladder, gather};
use snow_flake::{Params, Rule};
use snow_tree::Tree;
use std::slice;
use std::sync::ledger::Ledger;

// The identifier of the pending block at a place.
fn id_at<T: Drop>(tree: &Tree<T>, place: usize) -> Id
    requires { place < length (tree.now).pending }
    ensures { result ≡ id_in (slice_get (blocks_in (tree.now).pending) place) }
{
    match tree.at(place) {
        Some(id) => id,
        None => unreachable!(),
    }
}

// Counts the votes of a poll, which meet on their way and go on together.
fn count_all<R: Rule, L: Ledger>(
    params: &Params,
    root: &mut Load<R>,
    tree: &mut Tree<Load<R>>,
    polls: u64,
    ladder: &mut Ladder,
    children: &mut Bag,
    ballot: Ballot,
    steps: &mut Steps<L>,
) -> bool
    requires room { polls + 1 < 2 ^ 64 }
    requires most { total_count (votes_of ballot) ≤ params.now.k }
    requires fit { AreFit params.now polls root.old tree.old }
    requires ready { IsReady (length (tree.old).pending) ladder.old }
    requires votes { params.now.k ≤ (ladder.old).votes }
    requires places { params.now.k ≤ children.old.room + length children.old.list }
    ensures counted { HasCounted R.answer params.now polls (votes_of ballot.entry) root.old root.new tree.old tree.new result }
    ensures steps { steps.new ≤ steps.old + 5 * recording params.now (tree.old).last (blocks_in (tree.old).pending) (votes_of ballot.entry) }
    ensures low { (ladder.new).low ≡ 0 }
    ensures ladder { KeepsRoom ladder.old ladder.new }
    ensures places { children.old.room + length children.old.list ≤ children.new.room + length children.new.list }
{
    let _k = params.k();
    let _last = tree.last();
    start(params, tree, ladder, ballot);
    let mut moved = climb(params, tree, polls, ladder, children, steps);
    let count = ladder.take(0);
    // Without a quorum the last accepted block's tree stays as it is, and its old number tells that it
    // failed.
    if count >= params.alpha_preference() {
        gather(tree, ladder, children);
        moved |= root.record(polls, children.entries(), steps);
    }
    moved
}

/// Lets every counter make the bit step with its own votes of a poll, at most K. It returns `false`
/// only where each block leads where it led. The ladder is ready for the pending blocks, and the bag
/// has places, so it takes no memory. A vote that stands for all climbs the line of its block, from
/// parent to parent, and the ladder isn't asked.
pub(crate) fn count_votes<R: Rule, L: Ledger>(
    params: &Params,
    root: &mut Load<R>,
    tree: &mut Tree<Load<R>>,
    polls: u64,
    ladder: &mut Ladder,
    children: &mut Bag,
    ballot: Ballot,
    steps: &mut Steps<L>,
) -> bool
    requires room { polls + 1 < 2 ^ 64 }
    requires most { total_count (votes_of ballot) ≤ params.now.k }
    requires fit { AreFit params.now polls root.old tree.old }
    requires ready { IsReady (length (tree.old).pending) ladder.old }
    requires votes { params.now.k ≤ (ladder.old).votes }
    requires places { params.now.k ≤ children.old.room + length children.old.list }
    ensures counted { (votes : List Vote) × HasCounted R.answer params.now polls votes root.old root.new tree.old tree.new result × StandFor params.now votes (votes_of ballot.entry)
        × (steps.new ≤ steps.old + 5 * recording params.now (tree.old).last (blocks_in (tree.old).pending) votes) }
    ensures low { (ladder.new).low ≡ 0 }
    ensures ladder { KeepsRoom ladder.old ladder.new }
    ensures places { children.old.room + length children.old.list ≤ children.new.room + length children.new.list }
{
    let _k = params.k();
    let _last = tree.last();
    let Some(one) = one_vote(params, ballot) else {
        return count_all(params, root, tree, polls, ladder, children, ballot, steps);
    };
    let Some(from) = tree.place_of(&one.id) else {
        return false;
    };
    // The votes stand for the block that they passed last.
    let mut at = from;
    let mut vote = one;
    let mut moved = false;
    while let Some(above) = tree.parent_place(at) {
        let here = vote;
        vote = Vote {
            id: id_at(tree, above),
            count: one.count,
        };
        at = above;
        if let Some(load) = tree.load_mut(above) {
            moved |= load.record(polls, slice::from_ref(&here), steps);
        }
    }
    moved |= root.record(polls, slice::from_ref(&vote), steps);
    moved
}
