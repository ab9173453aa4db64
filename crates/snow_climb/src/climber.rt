ghost use Rattle.std.specs.Prelude.{◌≡◌, ◌+◌, ◌<◌, ◌≤◌, nat_lt, ◌∷◌, length, slice_get, IsPermutation, if◌then◌else◌};
ghost use Rattle.snow_tree.specs.Kept.Held.{blocks_in};
ghost use Rattle.snow_climb.specs.Kept.Climbing.{reach, parent_in, passing};
ghost use Rattle.snow_climb.specs.Kept.Ladder.{KeepsRoom};

use crate::ladder::Ladder;
use snow_tree::Tree;

/// Votes on their way up the line of their block. They passed the block at a place, and look for
/// its parent: `place` is one more than where that stands, and 0 where it isn't pending.
/// Rule: AvalancheGo, snow/consensus/snowman.
#[derive(Clone, Copy, Debug)]
pub struct Climber {
    pub place: usize,
    pub passed: usize,
    pub count: u32,
}

// One more than the place of the parent of the block at a place; 0 where that isn't pending.
fn parent_reach<T: Drop>(tree: &Tree<T>, at: usize) -> usize
    requires { at < length (tree.now).pending }
    ensures { result ≡ reach (blocks_in (tree.now).pending) (parent_in (slice_get (blocks_in (tree.now).pending) at)) }
{
    let _len = tree.len();
    match tree.parent_place(at) {
        Some(place) => place + 1,
        None => 0,
    }
}

/// Puts so many votes that came to the block at a place on the ladder, to go on to its parent
/// together; it puts nothing where `count` is 0. The block is pending, its parent's rung is below
/// the one that was taken off last, and the ladder has room for one more. It takes no memory.
/// Rule: AvalancheGo, snow/consensus/snowman.
pub fn pass<T: Drop>(tree: &Tree<T>, at: usize, count: u32, ladder: &mut Ladder)
    requires room { (ladder.old).put < (ladder.old).most }
    requires within { at < length (tree.now).pending }
    requires below { reach (blocks_in (tree.now).pending) (parent_in (slice_get (blocks_in (tree.now).pending) at)) < (ladder.old).low }
    ensures same { IsPermutation (if nat_lt 0 count then passing (blocks_in (tree.now).pending) at count ∷ (ladder.old).climbers else (ladder.old).climbers) (ladder.new).climbers }
    ensures put { (ladder.new).put ≤ (ladder.old).put + 1 }
    ensures came { (ladder.new).came ≡ (ladder.old).came }
    ensures low { (ladder.new).low ≡ (ladder.old).low }
    ensures room { KeepsRoom ladder.old ladder.new }
{
    if count > 0 {
        let place = parent_reach(tree, at);
        ladder.put(Climber {
            place,
            passed: at,
            count,
        });
    }
}
