ghost use Rattle.std.specs.Prelude.{◌≡◌, ◌+◌, ◌^◌, ◌<◌, ◌≤◌, List, ℕ, All, Contains, length};
ghost use Rattle.snow_base.specs.Model.Votes.{total_count};
ghost use Rattle.snow_board.specs.Model.Conflict.{votes_on};
ghost use Rattle.snow_board.specs.Kept.Cursors.{votes_at};
ghost use Rattle.snow_tree.specs.Kept.Held.{blocks_in, children_of};
ghost use Rattle.snow_climb.specs.Kept.Climbing.{climber_total, cursors_of, HasCome};

use crate::ladder::Ladder;
use snow_base::Bag;
use snow_tree::Tree;

/// Gathers the votes that were taken off a ladder last and came to a parent, at most 2^32 - 1, by
/// its children: they stand in `children`, in place of what it held. The bag has places for them,
/// so it takes no memory.
/// Rule: AvalancheGo, snow/consensus/snowman.
pub fn gather<T: Drop>(tree: &Tree<T>, ladder: &Ladder, children: &mut Bag)
    requires total { climber_total (ladder.now).came < 2 ^ 32 }
    requires places { length (ladder.now).came ≤ children.old.room + length children.old.list }
    requires placed { All (λ c. c.passed < length (tree.now).pending) (ladder.now).came }
    requires counts { All (λ c. 0 < c.count) (ladder.now).came }
    ensures votes { (parent : List ℕ) → All (HasCome (blocks_in (tree.now).pending) parent) (cursors_of (blocks_in (tree.now).pending) (ladder.now).came) → votes_on children.new.list ≡ votes_at (cursors_of (blocks_in (tree.now).pending) (ladder.now).came) parent }
    ensures among { (parent : List ℕ) → All (HasCome (blocks_in (tree.now).pending) parent) (cursors_of (blocks_in (tree.now).pending) (ladder.now).came) → All (λ v. Contains (children_of (blocks_in (tree.now).pending) parent) v.id) children.new.list }
    ensures total { total_count children.new.list ≤ climber_total (ladder.now).came }
    ensures places { children.old.room + length children.old.list ≤ children.new.room + length children.new.list }
{
    children.clear();
    let (links, last) = ladder.came();
    let mut left = last;
    while left > 0 {
        let link = links[left - 1];
        if let Some(child) = tree.at(link.climber.passed) {
            let _ = children.add(child, link.climber.count);
        }
        left = link.next;
    }
}
