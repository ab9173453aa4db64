ghost use Rattle.std.specs.Prelude.{◌≡◌, ◌<◌, IfSome, OnOk, OnErr, length, reverse, map};
ghost use Rattle.snow_board.specs.Model.Board.{blocks_of, with_counters, with_issued};
ghost use Rattle.snow_board.specs.Kept.Grown.{IsGrown};
ghost use Rattle.snow_plain.specs.Kept.Places.{place_from};

use crate::conflict::Conflict;
use snow_base::{Header, Id};
use snow_board::Pending;
use std::alloc::AllocError;

/// Adds a block that was issued to its parent's counters. A parent that is pending stands at the
/// place `above`. On want of memory it returns `AllocError`, and all counters stay as they were.
/// Rule: AvalancheGo, snow/consensus/snowman.
pub fn issue_below(
    last: &Id,
    counters: &mut Conflict,
    pending: &mut [Pending<Conflict>],
    above: Option<usize>,
    child: &Header,
) -> Result<(), AllocError>
    requires grown { IsGrown last.now (reverse (blocks_of pending.old)) }
    requires above { above ≡ place_from 0 (blocks_of pending.old) child.now.parent }
    requires within { IfSome above (λ at. at < length pending.old) }
    ensures counters { OnOk result (counters.new ≡ with_issued child.now last.now counters.old) }
    ensures pending { OnOk result (pending.new ≡ map (with_counters (with_issued child.now)) pending.old) }
    ensures counters_stay { OnErr result (counters.new ≡ counters.old) }
    ensures pending_stay { OnErr result (pending.new ≡ pending.old) }
{
    if child.parent == *last {
        return counters.add(&child.id);
    }
    match above {
        Some(at) => pending[at].counters.add(&child.id),
        None => Ok(()),
    }
}
