ghost use Rattle.std.specs.Prelude.{◌≡◌, ◌+◌, ◌≤◌, All};
ghost use Rattle.snow_base.specs.Model.Votes.{total_count};
ghost use Rattle.snow_topo.specs.Laws.Costs.{replayed, replay_steps};

use crate::topo::Topo;
use snow_base::{Bag, Steps};
use snow_flake::Rule;
use std::sync::ledger::Ledger;

/// Records polls of at most K votes one after the other, and counts their steps: at most the sum of
/// each poll's bound. The decisions are those of the last poll; without a poll all stays as it is.
/// It takes no memory and can't fail.
/// Rule: AvalancheGo, snow/consensus/snowman.
pub fn replay_counted<R: Rule, L: Ledger>(board: &mut Topo<R>, polls: &[Bag], steps: &mut Steps<L>)
    requires { All (λ votes. total_count votes.list ≤ (board.old).board.parameters.k) polls.now }
    ensures board { board.new ≡ replayed board.old polls.now }
    ensures steps { steps.new ≤ steps.old + replay_steps (board.old).board polls.now }
{
    for votes in polls {
        board.apply_counted(votes, steps);
    }
}
