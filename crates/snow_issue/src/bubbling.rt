ghost use Rattle.std.specs.Prelude.{◌≡◌};
ghost use Rattle.snow_board.specs.Model.Board.{is_pending};
ghost use Rattle.snow_issue.specs.Model.Bubbling.{bubbled_in};

use crate::gone::GoneList;
use snow_base::Id;
use snow_base::limits::MOST_GONE;
use snow_board::Board;

/// Returns whether a block is pending. Mostly it is the preference, which needs no look-up.
#[tactic(auto, using(crate::proofs::Preferred::preference_pending))]
pub(crate) fn is_pending<B: Board>(board: &B, id: &Id) -> bool
    ensures { result ≡ is_pending (B.board board.now) id.now }
{
    if board.preference() == *id && board.last() != *id {
        return true;
    }
    is_found(board, id)
}

// Whether a block is pending, by a look-up.
fn is_found<B: Board>(board: &B, id: &Id) -> bool
    ensures { result ≡ is_pending (B.board board.now) id.now }
{
    board.is_pending(id)
}

/// Returns the vote that a reply gives. Mostly its block is pending, and so is itself the vote. The
/// gone list can hold a circle, so the bound on the steps binds.
pub(crate) fn bubble<B: Board>(gone: &GoneList, board: &B, id: &Id) -> Option<Id>
    ensures { result ≡ bubbled_in MOST_GONE gone.now (B.board board.now) id.now }
{
    let mut at = *id;
    for _ in 0..MOST_GONE {
        if board.is_pending(&at) {
            return Some(at);
        }
        if board.last() == at {
            return None;
        }
        let Some(parent) = gone.stands_for(&at) else {
            return None;
        };
        at = parent;
    }
    if board.is_pending(&at) {
        return Some(at);
    }
    None
}
