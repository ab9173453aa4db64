ghost use Rattle.std.specs.Prelude.{◌≡◌, ◌+◌, ◌≤◌, ◌++◌, length, vec_capacity};
ghost use Rattle.snow_board.specs.Model.Poll.{settled};
ghost use Rattle.snow_topo.specs.Kept.View.{view, AreFit};

use crate::accepting::accept_next;
use crate::load::Load;
use snow_board::Decision;
use snow_flake::{Params, Rule};
use snow_tree::Tree;

/// Accepts children of the last accepted block while decided counters lead to one, and appends the
/// decisions in order. It takes no memory where there is room for one on each pending block.
pub(crate) fn settle<R: Rule>(
    params: &Params,
    polls: u64,
    root: &mut Load<R>,
    tree: &mut Tree<Load<R>>,
    decisions: &mut Vec<Decision>,
)
    requires fit { AreFit params.now polls root.old tree.old }
    requires room { length decisions.old.items + length (tree.old).pending ≤ vec_capacity decisions.old }
    ensures board { let before = view params.now polls root.old tree.old in
        view params.now polls root.new tree.new ≡ (settled (length before.pending) before).0 }
    ensures told { let before = view params.now polls root.old tree.old in
        decisions.new.items ≡ decisions.old.items ++ (settled (length before.pending) before).1 }
    ensures fit { AreFit params.now polls root.new tree.new }
    ensures room { vec_capacity decisions.new ≡ vec_capacity decisions.old }
    ensures fewer { length decisions.new.items + length (tree.new).pending ≤ length decisions.old.items + length (tree.old).pending }
{
    // Mostly nothing is decided, and nothing is made ready for acceptance.
    let _k = params.k();
    let mut more = root.is_decided();
    while more {
        more = accept_next(params, polls, root, tree, decisions) && root.is_decided();
    }
}
