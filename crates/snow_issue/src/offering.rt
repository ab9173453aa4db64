ghost use Rattle.std.specs.Prelude.{◌≡◌, ◌||◌, [], is_some, nat_le};
ghost use Rattle.std.specs.Option.{option_and_then, option_copied};
ghost use Rattle.snow_issue.specs.Model.Offering.{is_on, is_unknown, wanted, is_high, asks, refusal};
ghost use Rattle.snow_issue.specs.Model.Lists.{waits};
ghost use Rattle.snow_issue.specs.Kept.Keeping.{parts};

use crate::gone::{Gone, GoneList};
use crate::waiting::WaitingList;
use crate::work::Offered;
use snow_base::limits::{MOST_GETS, MOST_WAITING};
use snow_base::{Header, Id};
use snow_board::Board;
use snow_gets::Gets;

/// Returns whether a block is on the board: pending, or the last accepted one. The preference is
/// told without looking it up.
#[tactic(auto, using(crate::proofs::Preferred::preference_on))]
pub(crate) fn is_on<B: Board>(board: &B, id: &Id) -> bool
    ensures { result ≡ is_on (B.board board.now) id.now }
{
    // Where nothing is pending, only the last accepted block is there.
    if board.pending_len() == 0 {
        return board.last() == *id;
    }
    board.preference() == *id || board.height_of(id).is_some()
}

// Whether nothing is known of a block.
fn is_unknown<B: Board>(
    waiting: &WaitingList,
    gets: &Gets,
    gone: &GoneList,
    board: &B,
    id: &Id,
) -> bool
    ensures { result ≡ is_unknown (parts waiting.now gets.now gone.now) (B.board board.now) id.now }
{
    if gets.asks_for(id) {
        return false;
    }
    !(is_on(board, id) || waiting.waits(id) || gone.holds(id))
}

/// Returns whether a block that a reply names is to be asked for.
pub(crate) fn is_wanted<B: Board>(
    waiting: &WaitingList,
    gets: &Gets,
    gone: &GoneList,
    board: &B,
    id: &Id,
) -> bool
    ensures { result ≡ wanted (parts waiting.now gets.now gone.now) (B.board board.now) id.now }
{
    is_unknown(waiting, gets, gone, board, id) && gets.len() < MOST_GETS
}

// Whether a block is more than one above the last accepted height, a whole number.
fn is_high<B: Board>(board: &B, block: &Header) -> bool
    ensures { result ≡ is_high (B.board board.now) block.now }
{
    let height = block.height;
    match board.last_height().checked_add(1) {
        Some(next) => next < height,
        None => false,
    }
}

/// Returns the parent of a block that waits, where it is to be asked for.
pub(crate) fn ask<B: Board>(
    waiting: &WaitingList,
    gets: &Gets,
    gone: &GoneList,
    board: &B,
    block: &Header,
) -> Option<Id>
    ensures { result ≡ asks (parts waiting.now gets.now gone.now) (B.board board.now) block.now }
{
    if is_high(board, block) && is_wanted(waiting, gets, gone, board, &block.parent) {
        return Some(block.parent);
    }
    None
}

// Whether a block is on the board or waits.
fn is_known<B: Board>(waiting: &WaitingList, board: &B, id: &Id) -> bool
    ensures { result ≡ (is_on (B.board board.now) id.now || waits (parts waiting.now [] []) id.now) }
{
    is_on(board, id) || waiting.waits(id)
}

// Whether this entry of a block has a parent.
fn has_parent(entry: Option<&Gone>) -> bool
    ensures { result ≡ is_some (option_and_then (λ e. e.parent) (option_copied entry.entry)) }
{
    match entry {
        Some(entry) => entry.parent.is_some(),
        None => false,
    }
}

// Whether a block went, by its latest entry, or is too low to be issued.
fn is_old<B: Board>(latest: Option<&Gone>, board: &B, block: &Header) -> bool
    ensures { result ≡ (is_some (option_copied latest.entry) || nat_le block.now.height (B.board board.now).height) }
{
    latest.is_some() || block.height <= board.last_height()
}

/// Returns the first reason, if there is one, for which an offered block doesn't wait.
pub(crate) fn refusal<B: Board>(
    waiting: &WaitingList,
    gone: &GoneList,
    board: &B,
    block: &Header,
) -> Option<Offered>
    ensures { result ≡ refusal (parts waiting.now [] gone.now) (B.board board.now) block.now }
{
    if is_known(waiting, board, &block.id) {
        return Some(Offered::Known);
    }
    let latest = gone.latest(&block.id);
    if has_parent(latest) {
        return Some(Offered::Invalid);
    }
    if is_old(latest, board, block) {
        return Some(Offered::Old);
    }
    if waiting.len() < MOST_WAITING {
        return None;
    }
    Some(Offered::Full)
}
