ghost use Rattle.std.specs.Prelude.{◌≡◌, ◌≤◌, true, false, None, IfSome};
ghost use Rattle.std.specs.Bool.{beq};
ghost use Rattle.std.specs.Cmp.Lexicographic.{pointwise};
ghost use Rattle.snow_base.specs.Model.Identifier.{bits};
ghost use Rattle.snow_plain.specs.Kept.Alone.{lined, counters_seen, IsReserve, IsKept, AreFor};
ghost use Rattle.snow_board.specs.Model.Conflict.{Counters, Blank, with_child, all_polled, votes_on, decides};
ghost use Rattle.snow_plain.specs.Kept.Trees.{counters_of};
ghost use Rattle.snow_board.specs.Kept.Walk.{depth};

use crate::tree::{Tree, fill};
use snow_base::{Id, Vote};
use snow_flake::{Params, Unary};

/// The only child of a block so far. All its counters took the same steps, so one instance stands
/// for them.
/// Rule: this project's own.
#[derive(Clone, Copy)]
pub struct OnlyChild {
    pub child: Id,
    pub counter: Unary,
}

impl OnlyChild {
    /// Returns a child that is issued now.
    /// Rule: this project's own.
    pub fn new(child: &Id) -> Self
        ensures child { result.child ≡ child.now }
        ensures fresh { lined result.counter (bits child.now) ≡ with_child (bits child.now) Blank }
    {
        OnlyChild {
            child: *child,
            counter: Unary::new(),
        }
    }

    /// Returns whether this is the child.
    /// Rule: this project's own.
    pub fn is(&self, id: &Id) -> bool
        ensures { result ≡ pointwise beq (bits self.now.child) (bits id.now) }
    {
        self.child.bit_cmp(id).is_eq()
    }

    /// Returns whether the counters are decided, and lead to this identifier.
    /// Rule: this project's own.
    pub fn decides(&self, id: &Id) -> bool
        ensures { result ≡ decides (lined self.now.counter (bits self.now.child)) id.now }
    {
        self.counter.is_final() && self.is(id)
    }

    // Lets all its counters make the bit step, and returns true. Where votes for others come, it does
    // nothing and returns false.
    fn poll(&mut self, params: &Params, votes: &[Vote]) -> bool
        ensures polled { result ≡ true → lined self.new.counter (bits self.old.child)
            ≡ all_polled params.now (votes_on votes.now) (lined self.old.counter (bits self.old.child)) }
        ensures stays { result ≡ false → self.new ≡ self.old }
        ensures child { self.new.child ≡ self.old.child }
    {
        match count_for(votes, &self.child) {
            Some(count) => {
                self.counter.apply(params, count);
                true
            }
            None => false,
        }
    }
}

// Returns how many votes there are, where all are for this child.
fn count_for(votes: &[Vote], child: &Id) -> Option<u32>
    ensures { IfSome result (λ n. AreFor votes.now child.now n) }
{
    match votes {
        [] => Some(0),
        [vote] if vote.id == *child => Some(vote.count),
        _ => None,
    }
}

/// Lets all counters of an only child make the bit step, and returns true. Where there is none, or
/// votes for others come, it does nothing and returns false.
/// Rule: this project's own.
pub fn poll_alone(only_child: &mut Option<OnlyChild>, params: &Params, votes: &[Vote]) -> bool
    ensures polled { result ≡ true → (c : Counters)
        → counters_seen only_child.new c ≡ all_polled params.now (votes_on votes.now) (counters_seen only_child.old c) }
    ensures stays { result ≡ false → only_child.new ≡ only_child.old }
    ensures reserve { (c : Counters) → IsReserve only_child.old c → IsReserve only_child.new c }
{
    match only_child {
        Some(only) => only.poll(params, votes),
        None => false,
    }
}

/// Puts the counters of an only child into the tree, where they stand from now on. It takes no
/// memory.
/// Rule: this project's own.
pub fn spread(tree: &mut Tree, only_child: &mut Option<OnlyChild>)
    requires { IsKept only_child.old (counters_of tree.old) }
    ensures counters { counters_of tree.new ≡ counters_seen only_child.old (counters_of tree.old) }
    ensures shallow { depth (counters_of tree.new) ≤ 256 }
    ensures none { only_child.new ≡ None }
{
    if let Some(only) = only_child.take() {
        fill(tree, &only.counter);
    }
}
