ghost use Rattle.std.specs.Prelude.{◌≡◌, true, [], ◌∷◌, None, IfSome, bytes_eq};
ghost use Rattle.std.specs.List.{list_any};
ghost use Rattle.std.specs.Option.{option_copied};
ghost use Rattle.snow_board.specs.Kept.Ending.{IsTop};
ghost use Rattle.snow_board.specs.Kept.Grown.{is_on};
ghost use Rattle.snow_board.specs.Model.Preference.{path_from, preferred_path, preferred, is_preferred};
ghost use Rattle.snow_tree.specs.Kept.Held.{blocks_in, children_of, place_in};
ghost use Rattle.snow_topo.specs.Kept.Children.{shown, IsFit};
ghost use Rattle.snow_topo.specs.Kept.View.{all_pending, view, AllFit, AreFit};
ghost use Rattle.snow_topo.specs.Kept.Walking.{AreNamed, kept_of};

use crate::load::Load;
use snow_base::Id;
use snow_flake::{Params, Rule};
use snow_tree::Tree;

/// Returns where a block on the board stands, or `None` for the last accepted one, for which it
/// looks nothing up.
pub(crate) fn place_on<R: Rule>(tree: &Tree<Load<R>>, id: &Id) -> Option<usize>
    ensures { result ≡ place_in (tree.now).pending id.now }
{
    if tree.last() == *id {
        return None;
    }
    tree.place_of(id)
}

// What is kept of a block on the board, which stands at this place.
fn kept_at<'a, R: Rule>(
    root: &'a Load<R>,
    tree: &'a Tree<Load<R>>,
    id: &Id,
    at: Option<usize>,
) -> Option<&'a Load<R>>
    requires on { is_on (tree.now).last (blocks_in (tree.now).pending) id.now ≡ true }
    requires place { at ≡ place_in (tree.now).pending id.now }
    ensures { option_copied result ≡ kept_of root.now tree.now id.now }
{
    let _last = tree.last();
    match at {
        Some(at) => tree.load(at),
        None => Some(root),
    }
}

/// Returns what the board keeps of a block on it.
pub(crate) fn kept_of<'a, R: Rule>(
    root: &'a Load<R>,
    tree: &'a Tree<Load<R>>,
    id: &Id,
) -> Option<&'a Load<R>>
    ensures { option_copied result ≡ kept_of root.now tree.now id.now }
{
    if tree.last() == *id {
        return Some(root);
    }
    let place = tree.place_of(id)?;
    tree.load(place)
}

// The child to which the answers lead from a block, with what is kept of it; nothing where there is none.
fn next_of<'a, R: Rule>(
    params: &Params,
    polls: u64,
    tree: &'a Tree<Load<R>>,
    id: &Id,
    load: &Load<R>,
) -> Option<(Id, &'a Load<R>)>
    requires named { AreNamed (blocks_in (tree.now).pending) }
    requires all { AllFit params.now polls (tree.now).pending }
    requires fit { IsFit params.now polls (children_of (blocks_in (tree.now).pending) id.now) load.now }
    ensures some { IfSome result (λ r. path_from R.answer id.now (shown params.now polls load.now) (all_pending params.now polls (tree.now).pending)
        ≡ r.0 ∷ path_from R.answer r.0 (shown params.now polls r.1.now) (all_pending params.now polls (tree.now).pending)) }
    ensures fit { IfSome result (λ r. IsFit params.now polls (children_of (blocks_in (tree.now).pending) r.0) r.1.now) }
    ensures none { result ≡ None → path_from R.answer id.now (shown params.now polls load.now) (all_pending params.now polls (tree.now).pending) ≡ [] }
{
    let _k = params.k();
    let _last = tree.last();
    let trie = load.trie()?;
    let next = trie.preference();
    let place = tree.place_of(&next)?;
    let below = tree.load(place)?;
    Some((next, below))
}

/// Returns the preference, by a walk from child to child.
pub(crate) fn preference_of<R: Rule>(
    params: &Params,
    polls: u64,
    root: &Load<R>,
    tree: &Tree<Load<R>>,
) -> Id
    requires named { AreNamed (blocks_in (tree.now).pending) }
    requires fit { AreFit params.now polls root.now tree.now }
    ensures { result ≡ preferred R.answer (view params.now polls root.now tree.now) }
{
    let mut at = tree.last();
    let mut load = root;
    while let Some((next, below)) = next_of(params, polls, tree, &at, load) {
        at = next;
        load = below;
    }
    at
}

// Whether the walk from child to child comes to a block.
fn passes<R: Rule>(
    params: &Params,
    polls: u64,
    root: &Load<R>,
    tree: &Tree<Load<R>>,
    id: &Id,
) -> bool
    requires named { AreNamed (blocks_in (tree.now).pending) }
    requires fit { AreFit params.now polls root.now tree.now }
    ensures { result ≡ list_any (λ other. bytes_eq other id.now) (preferred_path R.answer (view params.now polls root.now tree.now)) }
{
    let mut at = tree.last();
    let mut load = root;
    while let Some((next, below)) = next_of(params, polls, tree, &at, load) {
        if next == *id {
            return true;
        }
        at = next;
        load = below;
    }
    false
}

/// Returns whether a block is on the path to the preference. It walks only for a block with
/// children that isn't the last accepted one. A block without children is on the path exactly where
/// it is its end.
pub(crate) fn is_preferred<R: Rule>(
    params: &Params,
    polls: u64,
    root: &Load<R>,
    tree: &Tree<Load<R>>,
    preference: &Id,
    id: &Id,
) -> bool
    requires named { AreNamed (blocks_in (tree.now).pending) }
    requires fit { AreFit params.now polls root.now tree.now }
    requires preference { preference.now ≡ preferred R.answer (view params.now polls root.now tree.now) }
    ensures { result ≡ is_preferred R.answer (view params.now polls root.now tree.now) id.now }
{
    if tree.last() == *id {
        return true;
    }
    let Some(load) = kept_of(root, tree, id) else {
        return false;
    };
    match load.trie() {
        Some(_) => passes(params, polls, root, tree, id),
        None => *preference == *id,
    }
}

/// Returns `true` where the block at this place is the preference and has no tree of children. No
/// block stands above it then.
pub(crate) fn is_top<R: Rule>(
    params: &Params,
    polls: u64,
    root: &Load<R>,
    tree: &Tree<Load<R>>,
    preference: &Id,
    id: &Id,
    at: Option<usize>,
) -> bool
    requires fit { AreFit params.now polls root.now tree.now }
    requires preference { preference.now ≡ preferred R.answer (view params.now polls root.now tree.now) }
    requires on { is_on (tree.now).last (blocks_in (tree.now).pending) id.now ≡ true }
    requires place { at ≡ place_in (tree.now).pending id.now }
    ensures top { result ≡ true → IsTop R.answer (view params.now polls root.now tree.now) }
    ensures same { result ≡ true → preference.now ≡ id.now }
{
    let _last = tree.last();
    if *preference != *id {
        return false;
    }
    let Some(load) = kept_at(root, tree, id, at) else {
        return false;
    };
    match load.trie() {
        Some(_) => false,
        None => true,
    }
}
