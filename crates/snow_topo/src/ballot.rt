ghost use Rattle.std.specs.Prelude.{◌≡◌, ◌≤◌, [], ◌∷◌, IfSome, length};
ghost use Rattle.snow_base.specs.Model.Votes.{total_count};
ghost use Rattle.snow_climb.specs.Kept.Ladder.{KeepsRoom, IsReady};
ghost use Rattle.snow_climb.specs.Kept.Majority.{StandFor};
ghost use Rattle.snow_climb.specs.Kept.Starting.{HaveBegun, IsLoaded};
ghost use Rattle.snow_topo.specs.Clauses.Ballot.{votes_of};
ghost use Rattle.snow_topo.specs.Kept.Counting.{StandsAlone};

use snow_base::{Bag, Id, Vote};
use snow_climb::{Ladder, main_vote, start_each, start_votes};
use snow_flake::Params;
use snow_tree::Tree;

/// The votes of a poll: those of a bag, or one for each of some identifiers.
#[derive(Clone, Copy)]
pub(crate) enum Ballot<'a> {
    Counted(&'a Bag),
    Each(&'a [Id]),
}

// The only vote of a list, or `None`.
fn only_vote(votes: &[Vote]) -> Option<Vote>
    ensures { IfSome result (λ one. votes.now ≡ one ∷ []) }
{
    if votes.len() == 1 {
        Some(votes[0])
    } else {
        None
    }
}

// A vote, where it is a quorum.
fn with_quorum(params: &Params, one: Vote) -> Option<Vote>
    ensures { IfSome result (λ some. (some ≡ one) × (params.now.alpha_preference ≤ some.count)) }
{
    if one.count < params.alpha_preference() {
        None
    } else {
        Some(one)
    }
}

// One vote that does what all votes of a poll do, where it is seen that there is one.
fn alone(params: &Params, ballot: Ballot) -> Option<Vote>
    requires { total_count (votes_of ballot) ≤ params.now.k }
    ensures most { IfSome result (λ one. one.count ≤ params.now.k) }
    ensures same { IfSome result (λ one. StandFor params.now (one ∷ []) (votes_of ballot.entry)) }
{
    match ballot {
        Ballot::Counted(votes) => only_vote(votes.entries()),
        Ballot::Each(ids) => main_vote(params, ids),
    }
}

/// Returns one vote with a quorum that does what all votes of a poll do, at most K. It may return
/// `None` where there is one.
pub(crate) fn one_vote(params: &Params, ballot: Ballot) -> Option<Vote>
    requires { total_count (votes_of ballot) ≤ params.now.k }
    ensures { IfSome result (λ one. StandsAlone params.now one (votes_of ballot.entry)) }
{
    let one = alone(params, ballot)?;
    with_quorum(params, one)
}

/// Puts the votes of a poll, at most K, on an empty ladder, each past its own block. The ladder is
/// ready for the pending blocks, so it takes no memory.
pub(crate) fn start<T: Drop>(params: &Params, tree: &Tree<T>, ladder: &mut Ladder, ballot: Ballot)
    requires ready { IsReady (length (tree.now).pending) ladder.old }
    requires room { params.now.k ≤ (ladder.old).votes }
    requires most { total_count (votes_of ballot) ≤ params.now.k }
    ensures begun { HaveBegun params.now (votes_of ballot.entry) (tree.now).pending ladder.new }
    ensures loaded { IsLoaded (tree.now).pending ladder.new }
    ensures few { length (ladder.new).climbers ≤ params.now.k }
    ensures room { KeepsRoom ladder.old ladder.new }
{
    match ballot {
        Ballot::Counted(votes) => start_votes(tree, ladder, votes.entries()),
        Ballot::Each(ids) => {
            let _k = params.k();
            start_each(tree, ladder, ids);
        }
    }
}
