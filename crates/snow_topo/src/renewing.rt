ghost use Rattle.std.specs.Prelude.{◌≡◌, ◌+◌, ◌^◌, ◌<◌, IfSome, slice_get};
ghost use Rattle.snow_flake.specs.Model.Parameters.{Parameters};
ghost use Rattle.snow_tree.specs.Kept.Held.{with_load};
ghost use Rattle.snow_topo.specs.Kept.Renewed.{renewed, all_renewed};
ghost use Rattle.snow_topo.specs.Kept.View.{view, AreFit};

use crate::load::Load;
use snow_flake::Rule;
use snow_tree::Tree;

// The number of what is kept at a place begins anew.
fn renew_at<R: Rule>(tree: &mut Tree<Load<R>>, at: usize, polls: u64)
    ensures { IfSome (slice_get (tree.old).pending at) (λ e. tree.new ≡ with_load tree.old at (renewed polls e.load)) }
{
    match tree.load_mut(at) {
        Some(load) => load.renew(polls),
        None => (),
    }
}

// All numbers begin anew.
fn renew_all<R: Rule>(tree: &mut Tree<Load<R>>, polls: u64)
    ensures { tree.new ≡ all_renewed polls tree.old }
{
    for at in 0..tree.len() {
        renew_at(tree, at, polls);
    }
}

/// Returns the number of polls, so that one more can be recorded. Where 64 bits hold no more, it
/// numbers all polls anew, and the board stays as it was. It takes no memory.
pub(crate) fn renew_if_full<R: Rule>(
    polls: u64,
    root: &mut Load<R>,
    tree: &mut Tree<Load<R>>,
) -> u64
    ensures room { result + 1 < 2 ^ 64 }
    ensures board { (p : Parameters) → AreFit p polls root.old tree.old → view p result root.new tree.new ≡ view p polls root.old tree.old }
    ensures fit { (p : Parameters) → AreFit p polls root.old tree.old → AreFit p result root.new tree.new }
{
    if polls < u64::MAX {
        return polls;
    }
    root.renew(polls);
    renew_all(tree, polls);
    1
}
