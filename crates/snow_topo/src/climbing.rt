ghost use Rattle.std.specs.Prelude.{◌≡◌, ◌+◌, ◌*◌, ◌^◌, ◌<◌, ◌≤◌, false, List, length};
ghost use Rattle.snow_base.specs.declared.block.Vote.{Vote};
ghost use Rattle.snow_tree.specs.Kept.Held.{blocks_in};
ghost use Rattle.snow_climb.specs.Kept.Starting.{HaveBegun, IsLoaded};
ghost use Rattle.snow_topo.specs.Kept.Climbed.{HasClimbed};
ghost use Rattle.snow_topo.specs.Kept.Leading.{all_leads};
ghost use Rattle.snow_topo.specs.Kept.Recording.{recording_in};
ghost use Rattle.snow_topo.specs.Kept.View.{AllFit};

use crate::load::Load;
use snow_base::{Bag, Steps};
use snow_climb::{Ladder, gather, pass};
use snow_flake::{Params, Rule};
use snow_tree::Tree;
use std::sync::ledger::Ledger;

/// Visits the pending blocks for which there are votes, the latest first, and no others. It returns
/// `false` only where each of them leads where it led. It takes no memory where the bag has places.
pub(crate) fn climb<R: Rule, L: Ledger>(
    params: &Params,
    tree: &mut Tree<Load<R>>,
    polls: u64,
    ladder: &mut Ladder,
    children: &mut Bag,
    steps: &mut Steps<L>,
) -> bool
    requires room { polls + 1 < 2 ^ 64 }
    requires places { length (ladder.old).climbers ≤ children.old.room + length children.old.list }
    requires begun { (votes : List Vote) × HaveBegun params.now votes (tree.old).pending ladder.old }
    requires loaded { IsLoaded (tree.old).pending ladder.old }
    requires fit { AllFit params.now polls (tree.old).pending }
    ensures climbed { HasClimbed params.now polls tree.old tree.new ladder.old ladder.new }
    ensures places { children.old.room + length children.old.list ≤ children.new.room + length children.new.list }
    ensures steady { result ≡ false → all_leads R.answer (tree.new).pending ≡ all_leads R.answer (tree.old).pending }
    ensures steps { (votes : List Vote) → HaveBegun params.now votes (tree.old).pending ladder.old
        → steps.new ≤ steps.old + 5 * recording_in params.now (blocks_in (tree.old).pending) votes (blocks_in (tree.old).pending) }
{
    let _k = params.k();
    let _last = tree.last();
    let mut moved = false;
    let mut top = ladder.top().min(tree.len());
    while top > 0 {
        let at = top - 1;
        let count = ladder.take(top);
        pass(tree, at, count, ladder);
        top = ladder.top().min(at);
        // Without a quorum the tree stays as it is, and its old number tells that it failed.
        if count < params.alpha_preference() {
            continue;
        }
        gather(tree, ladder, children);
        if let Some(load) = tree.load_mut(at) {
            moved |= load.record(polls, children.entries(), steps);
        }
    }
    moved
}
