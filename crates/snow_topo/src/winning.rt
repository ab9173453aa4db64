ghost use Rattle.std.specs.Prelude.{◌≡◌, ℕ, find, slice_get};
ghost use Rattle.std.specs.Bool.{beq};
ghost use Rattle.std.specs.Cmp.Lexicographic.{pointwise};
ghost use Rattle.std.specs.List.{position};
ghost use Rattle.std.specs.Option.{option_map};
ghost use Rattle.snow_base.specs.Model.Identifier.{bits};
ghost use Rattle.snow_board.specs.Model.Poll.{winner};
ghost use Rattle.snow_topo.specs.Kept.View.{view};

use crate::load::Load;
use snow_base::Id;
use snow_flake::{Params, Rule};
use snow_tree::Tree;

// Whether two identifiers have the same bits.
fn are_alike(id: &Id, other: &Id) -> bool
    ensures { result ≡ pointwise beq (bits id.now) (bits other.now) }
{
    // Mostly the first one that is asked is the same.
    if id == other {
        return true;
    }
    match id.first_difference(other, 0, 256) {
        None => true,
        Some(_) => false,
    }
}

// Where the first of these identifiers stands that has the bits of another.
fn place_alike(ids: &[Id], id: &Id) -> Option<usize>
    ensures { result ≡ position (λ x. pointwise beq (bits id.now) (bits x)) ids.now }
{
    ids.iter().position(|other| are_alike(id, other))
}

fn id_at(ids: &[Id], at: usize) -> Option<Id>
    ensures { result ≡ slice_get ids.now at }
{
    ids.get(at).copied()
}

// The first of these identifiers that has the bits of another.
fn first_alike(ids: &[Id], id: &Id) -> Option<Id>
    ensures { result ≡ find (λ x. pointwise beq (bits id.now) (bits x)) ids.now }
{
    match place_alike(ids, id) {
        Some(at) => id_at(ids, at),
        None => None,
    }
}

/// Returns the child of the last accepted block to which decided counters alone lead, or `None`. It
/// looks at children only where there is one, or none has its bits.
pub(crate) fn next_child<R: Rule>(
    params: &Params,
    root: &Load<R>,
    tree: &Tree<Load<R>>,
) -> Option<Id>
    ensures { (polls : ℕ) → option_map (λ q. q.block.id) (winner (view params.now polls root.now tree.now)) ≡ result }
{
    let _k = params.k();
    match root.decided() {
        Some(id) => first_alike(tree.first_ids(), &id),
        None => None,
    }
}
