//! Laws of the board, each a function that does nothing and ensures the law.
ghost use Rattle.snow_board.specs.Laws.PointwiseLaw.{MapLaw, ExcludedLaw, PollLaw, IssueLaw};
ghost use Rattle.snow_board.specs.Laws.Alike.{AlikeLaw};
ghost use Rattle.snow_board.specs.Laws.FailingLaw.{FewVotesLaw, FewVotesOnBoardLaw, FailingTwiceLaw, FailingAndAddingLaw};
ghost use Rattle.snow_board.specs.Laws.LineLaw.{LineLaw};
ghost use Rattle.snow_board.specs.Laws.StandingLaw.{StandingLaw, ChildrenStayLaw, NoneExcludedLaw};
ghost use Rattle.snow_board.specs.Laws.ConfidenceLaw.{ConfidenceLaw};
ghost use Rattle.snow_board.specs.Laws.QuorumLaw.{OneQuorumLaw};
ghost use Rattle.snow_board.specs.Laws.KeepingLaw.{KeepingLaw};
ghost use Rattle.snow_board.specs.Laws.SettledLaw.{NoWinnerLaw, EnoughStepsLaw};
ghost use Rattle.snow_board.specs.Laws.RoomLaw.{RoomLaw};
ghost use Rattle.snow_board.specs.Laws.PreferenceLaw.{PreferenceEndsLaw};

/// The counters of a conflict are a map from bit lists: those that are the same at each list are
/// the same.
/// Rule: this project's own.
#[tactic(auto, using(crate::proofs::Pointwise::same_map))]
pub fn map_law()
    ensures { MapLaw }
{}

/// A bit list is excluded exactly where the counter at a proper front of it is decided, and not
/// with the bit that follows.
/// Rule: this project's own.
#[tactic(auto, using(crate::proofs::Pointwise::excluded_decides))]
pub fn excluded_law()
    ensures { ExcludedLaw }
{}

/// At each bit list a poll makes the bit step of the counter there, with that list's own two
/// counts; counters that are then excluded go.
/// Rule: this project's own.
#[tactic(auto, using(crate::proofs::Pointwise::polled_each))]
pub fn poll_law()
    ensures { PollLaw }
{}

/// At each bit list an issue leaves the counter that stands there, and it makes fresh ones at just
/// those fronts of the child's bits where none stood and no decided counter excludes them.
/// Rule: this project's own.
#[tactic(auto, using(crate::proofs::Pointwise::grown_each))]
pub fn issue_law()
    ensures { IssueLaw }
{}

/// Alike votes give one board: where on every list of identifiers the numbers of both votes are of
/// one class, polls with them leave the same board and make the same decisions.
/// Rule: this project's own.
#[tactic(auto, using(crate::proofs::Same::same_board))]
pub fn alike_law()
    ensures { AlikeLaw }
{}

/// A poll of the counters of a conflict with fewer than AlphaPreference votes on every side does
/// what a poll without votes does: it fails them.
/// Rule: this project's own.
#[tactic(auto, using(crate::proofs::Failing::few_fail))]
pub fn few_votes_law()
    ensures { FewVotesLaw }
{}

/// A poll of a board with fewer than AlphaPreference votes below each block at every bit list
/// leaves the board, and makes the decisions, of a poll without votes.
/// Rule: this project's own.
#[tactic(auto, using(crate::proofs::Failing::few_fail_all))]
pub fn few_votes_on_board_law()
    ensures { FewVotesOnBoardLaw }
{}

/// Failing the counters of a conflict twice is failing them once.
/// Rule: this project's own.
#[tactic(auto, using(crate::proofs::Failing::fails_once))]
pub fn failing_twice_law()
    ensures { FailingTwiceLaw }
{}

/// Failing the counters of a conflict and adding a child to them may change places.
/// Rule: this project's own.
#[tactic(auto, using(crate::proofs::Failing::fails_or_adds))]
pub fn failing_and_adding_law()
    ensures { FailingAndAddingLaw }
{}

/// At each height of a board that can be reached at most one block has AlphaPreference votes, of at
/// most K in all, for it and its descendants.
/// Rule: this project's own.
#[tactic(auto, using(crate::proofs::Heights::one_quorum))]
pub fn one_quorum_law()
    ensures { OneQuorumLaw }
{}

/// Two tests are the same on every board that can be reached: that a block or some ancestor of it
/// is a child of the parent whose bits begin so; and that the one child of the parent on the
/// block's line has such bits. So a vote counts by its block's line.
/// Rule: this project's own.
#[tactic(auto, using(crate::proofs::Lines::line_law))]
pub fn line_law()
    ensures { LineLaw }
{}

/// On a board that can be reached, counters stand just where a child was issued. Take a block and a
/// list of fewer than 256 bits. The block has a counter there exactly where two things hold: it has
/// a pending child whose bits begin so, and no decided counter excludes the list. It has none at
/// longer lists.
/// Rule: this project's own.
#[tactic(auto, using(crate::proofs::Standing::standing))]
pub fn standing_law()
    ensures { StandingLaw }
{}

/// No poll takes a child out while its parent stays on the board, so of a block on the board all
/// children that were issued are pending.
/// Rule: this project's own.
#[tactic(auto, using(crate::proofs::Children::children_stay))]
pub fn children_stay_law()
    ensures { ChildrenStayLaw }
{}

/// A board that can be reached keeps no counter that a decided one excludes.
/// Rule: this project's own.
#[tactic(auto, using(crate::proofs::Standing::none_excluded))]
pub fn none_excluded_law()
    ensures { NoneExcludedLaw }
{}

/// On a board that can be reached, confidence never rises on the way down. Take an undecided
/// counter and one to which it leads, in its conflict or in a block below. That one is undecided
/// too. Its confidence is at most the first one's, and 0 on the side other than the first one's
/// flake.
/// Rule: this project's own.
#[tactic(auto, using(crate::proofs::Confidence::confident))]
pub fn confidence_law()
    ensures { ConfidenceLaw }
{}

/// Nobody reads excluded counters. Take a board that keeps them, and the numbers of decided
/// counters too. After every list of issues and polls it would have made the same decisions. By
/// every rule it would have the same preference, with the same path to it.
/// Rule: this project's own.
#[tactic(auto, using(crate::proofs::Pruning::never_read))]
pub fn keeping_law()
    ensures { KeepingLaw }
{}

/// A poll leaves no child of the last accepted block to which decided counters alone lead: all that
/// are decided are accepted.
/// Rule: this project's own.
#[tactic(auto, using(crate::proofs::Stopping::no_winner))]
pub fn settled_law()
    ensures { NoWinnerLaw }
{}

/// The steps that a poll's acceptances are counted down from are never what ends them: with any
/// greater number the same board and the same decisions come out.
/// Rule: this project's own.
#[tactic(auto, using(crate::proofs::Stopping::enough_steps))]
pub fn enough_steps_law()
    ensures { EnoughStepsLaw }
{}

/// A board that can be reached has at most 4,096 pending blocks.
/// Rule: this project's own.
#[tactic(auto, using(crate::proofs::Room::room))]
pub fn room_law()
    ensures { RoomLaw }
{}

/// The preference of a board that can be reached has no pending child: it is the end of a whole
/// path, by every rule that answers the bit on which preference and flake agree.
/// Rule: this project's own.
#[tactic(auto, using(crate::proofs::Topmost::preference_ends))]
pub fn preference_ends_law()
    ensures { PreferenceEndsLaw }
{}
