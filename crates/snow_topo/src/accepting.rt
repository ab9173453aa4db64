ghost use Rattle.std.specs.Prelude.{◌≡◌, ◌+◌, ◌≤◌, ◌++◌, Some, IfSome, map, length, vec_capacity};
ghost use Rattle.std.specs.Option.{option_map};
ghost use Rattle.snow_board.specs.Model.Acceptance.{Accepts};
ghost use Rattle.snow_board.specs.Model.Poll.{winner};
ghost use Rattle.snow_tree.specs.Kept.Held.{entry_in, promoted};
ghost use Rattle.snow_topo.specs.Clauses.Told.{rejection, told};
ghost use Rattle.snow_topo.specs.Kept.View.{view, AreFit};

use crate::load::Load;
use crate::winning::next_child;
use snow_base::Id;
use snow_board::Decision;
use snow_flake::{Params, Rule};
use snow_tree::Tree;

// Tells that these were rejected.
fn reject(decisions: &mut Vec<Decision>, rejected: &[Id])
    requires { length decisions.old.items + length rejected.now ≤ vec_capacity decisions.old }
    ensures told { decisions.new.items ≡ decisions.old.items ++ map rejection rejected.now }
    ensures room { vec_capacity decisions.new ≡ vec_capacity decisions.old }
{
    for id in rejected {
        decisions.push_reserved(Decision {
            accepted: false,
            id: *id,
        });
    }
}

// Tells that a block was accepted, and then that these were rejected.
fn tell(decisions: &mut Vec<Decision>, child: &Id, rejected: &[Id])
    requires { length decisions.old.items + 1 + length rejected.now ≤ vec_capacity decisions.old }
    ensures told { decisions.new.items ≡ decisions.old.items ++ told child.now rejected.now }
    ensures room { vec_capacity decisions.new ≡ vec_capacity decisions.old }
{
    decisions.push_reserved(Decision {
        accepted: true,
        id: *child,
    });
    reject(decisions, rejected);
}

// A child of the last accepted block is accepted: what is kept of its children takes the place of what
// was kept of its brothers and itself, and the blocks that don't descend from it go.
fn accept<R: Rule>(
    root: &mut Load<R>,
    tree: &mut Tree<Load<R>>,
    child: &Id,
    decisions: &mut Vec<Decision>,
)
    requires child { option_map (λ e. e.block.parent) (entry_in (tree.old).pending child.now) ≡ Some (tree.old).last }
    requires room { length decisions.old.items + length (tree.old).pending ≤ vec_capacity decisions.old }
    ensures root { IfSome (entry_in (tree.old).pending child.now) (λ e. root.new ≡ e.load) }
    ensures tree { IfSome (entry_in (tree.old).pending child.now) (λ e. tree.new ≡ promoted tree.old e.block) }
    ensures told { IfSome (entry_in (tree.old).pending child.now) (λ e. decisions.new.items ≡ decisions.old.items ++ told child.now (promoted tree.old e.block).rejected) }
    ensures room { vec_capacity decisions.new ≡ vec_capacity decisions.old }
{
    let _last = tree.last();
    tree.promote(child, root);
    tell(decisions, child, tree.rejected());
}

/// Accepts the child of the last accepted block to which decided counters alone lead, and rejects
/// those that don't descend from it. It returns whether there is such a child. It takes no memory
/// where there is room for a decision on each pending block.
pub(crate) fn accept_next<R: Rule>(
    params: &Params,
    polls: u64,
    root: &mut Load<R>,
    tree: &mut Tree<Load<R>>,
    decisions: &mut Vec<Decision>,
) -> bool
    requires fit { AreFit params.now polls root.old tree.old }
    requires room { length decisions.old.items + length (tree.old).pending ≤ vec_capacity decisions.old }
    ensures accepts { Accepts (winner (view params.now polls root.old tree.old)) (view params.now polls root.old tree.old) (view params.now polls root.new tree.new) decisions.old.items decisions.new.items result }
    ensures fit { AreFit params.now polls root.new tree.new }
    ensures room { vec_capacity decisions.new ≡ vec_capacity decisions.old }
    ensures fewer { length decisions.new.items + length (tree.new).pending ≤ length decisions.old.items + length (tree.old).pending }
{
    let _last = tree.last();
    match next_child(params, root, tree) {
        Some(child) => {
            accept(root, tree, &child, decisions);
            true
        }
        None => false,
    }
}
