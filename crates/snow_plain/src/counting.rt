ghost use Rattle.std.specs.Prelude.{◌≡◌, ◌+◌, ◌^◌, ◌<◌, ◌≤◌, length, map, All};
ghost use Rattle.snow_board.specs.Model.Board.{blocks_of};
ghost use Rattle.snow_board.specs.Model.Conflict.{all_polled};
ghost use Rattle.snow_board.specs.Kept.Cursors.{moved_past, votes_at, cursor_total, polled};

use crate::conflict::Conflict;
use snow_base::{Bag, Id};
use snow_board::{Cursor, Pending, advance, gather};
use snow_flake::Params;

// The counters of one block take the bit step with the votes that came to it.
fn poll_counters(
    params: &Params,
    id: &Id,
    counters: &mut Conflict,
    cursors: &[Cursor],
    children: &mut Bag,
)
    requires places { length cursors.now ≤ children.old.room + length children.old.list }
    requires counts { All (λ c. 0 < c.count) cursors.now }
    requires total { cursor_total cursors.now < 2 ^ 32 }
    ensures counters { counters.new ≡ all_polled params.now (votes_at cursors.now id.now) counters.old }
    ensures places { children.old.room + length children.old.list ≤ children.new.room + length children.new.list }
{
    gather(cursors, id, children);
    counters.poll(params, children.entries());
}

// The counters of all pending blocks take the bit step, those of the latest first, and the votes
// climb past each block in turn.
fn poll_pending(
    params: &Params,
    pending: &mut [Pending<Conflict>],
    cursors: &mut [Cursor],
    children: &mut Bag,
)
    requires places { length cursors.old ≤ children.old.room + length children.old.list }
    requires counts { All (λ c. 0 < c.count) cursors.old }
    requires total { cursor_total cursors.old < 2 ^ 32 }
    ensures pending { pending.new ≡ polled params.now cursors.old pending.old }
    ensures cursors { cursors.new ≡ map (moved_past (blocks_of pending.old)) cursors.old }
    ensures places { children.old.room + length children.old.list ≤ children.new.room + length children.new.list }
{
    for i in (0..pending.len()).rev() {
        let entry = &mut pending[i];
        poll_counters(
            params,
            &entry.block.id,
            &mut entry.counters,
            cursors,
            children,
        );
        advance(cursors, &entry.block);
    }
}

/// Lets all counters make the bit step with the votes that came to their block. The votes climb
/// from where they are, past the latest block first, and `children` counts those that came to a
/// block by child. Each count is above 0, and all are fewer than 2^32 votes. It takes no memory,
/// since `children` has places for them.
/// Rule: AvalancheGo, snow/consensus/snowman.
pub fn poll_all(
    params: &Params,
    last: &Id,
    counters: &mut Conflict,
    pending: &mut [Pending<Conflict>],
    cursors: &mut [Cursor],
    children: &mut Bag,
)
    requires places { length cursors.old ≤ children.old.room + length children.old.list }
    requires counts { All (λ c. 0 < c.count) cursors.old }
    requires total { cursor_total cursors.old < 2 ^ 32 }
    ensures counters { counters.new ≡ all_polled params.now (votes_at (map (moved_past (blocks_of pending.old)) cursors.old) last.now) counters.old }
    ensures pending { pending.new ≡ polled params.now cursors.old pending.old }
    ensures places { children.old.room + length children.old.list ≤ children.new.room + length children.new.list }
{
    poll_pending(params, pending, cursors, children);
    poll_counters(params, last, counters, cursors, children);
}
