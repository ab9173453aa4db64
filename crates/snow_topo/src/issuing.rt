ghost use Rattle.std.specs.Prelude.{◌≡◌, ℕ, true, false, OnOk, OnErr};
ghost use Rattle.snow_board.specs.Model.Board.{issued};
ghost use Rattle.snow_board.specs.Kept.Grown.{is_on};
ghost use Rattle.snow_tree.specs.Kept.Held.{blocks_in, place_in};
ghost use Rattle.snow_topo.specs.Kept.View.{view, AreFit};

use crate::load::Load;
use snow_base::Header;
use snow_flake::{Params, Rule};
use snow_tree::Tree;
use std::alloc::{AllocError, Global};

/// Issues a block: it becomes the last pending one, without children, and its parent has one child
/// more. It costs what its parent's tree costs, however many blocks are pending. On want of memory
/// all stays as it was, but `rejected` is empty then.
pub(crate) fn issue<R: Rule>(
    alloc: Global,
    params: &Params,
    root: &mut Load<R>,
    tree: &mut Tree<Load<R>>,
    at: Option<usize>,
    child: &Header,
) -> Result<(), AllocError>
    requires unknown { is_on (tree.old).last (blocks_in (tree.old).pending) (child.now).id ≡ false }
    requires follows { is_on (tree.old).last (blocks_in (tree.old).pending) (child.now).parent ≡ true }
    requires place { at ≡ place_in (tree.old).pending (child.now).parent }
    ensures board { OnOk result ((polls : ℕ) → view params.now polls root.new tree.new ≡ issued (view params.now polls root.old tree.old) child.now) }
    ensures fit { OnOk result ((polls : ℕ) → AreFit params.now polls root.old tree.old → AreFit params.now polls root.new tree.new) }
    ensures root_stays { OnErr result (root.new ≡ root.old) }
    ensures tree_stays { OnErr result (tree.new ≡ record (tree.old) { rejected = (tree.new).rejected }) }
{
    let _k = params.k();
    let _last = tree.last();
    if tree
        .insert(child.id, child.parent, at, child.height, Load::new())
        .is_err()
    {
        return Err(AllocError);
    }
    let added = match at {
        Some(at) => match tree.load_mut(at) {
            Some(load) => load.add(alloc, params, &child.id),
            None => Ok(()),
        },
        None => root.add(alloc, params, &child.id),
    };
    if added.is_err() {
        let _ = tree.take_back();
        return added;
    }
    Ok(())
}
