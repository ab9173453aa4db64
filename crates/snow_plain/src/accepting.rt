ghost use Rattle.std.specs.Prelude.{◌≡◌, ◌+◌, ◌≤◌, ◌<◌, ◌∷◌, ◌++◌, slice_index_or, not, length, reverse, map, filter, vec_len, vec_capacity};
ghost use Rattle.snow_board.specs.Model.Board.{blocks_of};
ghost use Rattle.snow_board.specs.Model.Poll.{accepts, rejects};
ghost use Rattle.snow_board.specs.Kept.Grown.{IsGrown};
ghost use Rattle.snow_board.specs.Model.Acceptance.{outsiders, descendants, has_decision, is_rejected};

use crate::conflict::Conflict;
use snow_base::{Header, Id};
use snow_board::{Decision, Pending};

// Whether some decision is on this block.
fn is_decided(decisions: &[Decision], id: &Id) -> bool
    ensures { result ≡ has_decision decisions.now id.now }
{
    decisions.iter().any(|decision| decision.id == *id)
}

// Whether a block is rejected, where these are the decisions on those issued before it.
fn is_rejected(last: &Id, child: &Id, told: &[Decision], block: &Header) -> bool
    ensures { result ≡ is_rejected last.now child.now told.now block.now }
{
    block.id != *child && (*last == block.parent || is_decided(told, &block.parent))
}

// Rejects, in order of issue, the pending blocks that neither are the child nor descend from it:
// those whose parent is the last accepted block or is rejected.
fn reject_others(
    pending: &[Pending<Conflict>],
    last: &Id,
    child: &Id,
    decisions: &mut Vec<Decision>,
)
    requires grown { IsGrown last.now (reverse (blocks_of pending.now)) }
    requires room { vec_len decisions.old + length (outsiders pending.now child.now) ≤ vec_capacity decisions.old }
    ensures told { decisions.new.items ≡ decisions.old.items ++ map rejects (outsiders pending.now child.now) }
    ensures room { vec_capacity decisions.new ≡ vec_capacity decisions.old }
{
    let first = decisions.len();
    for entry in pending {
        if is_rejected(last, child, &decisions[first..], &entry.block) {
            decisions.push_reserved(Decision {
                accepted: false,
                id: entry.block.id,
            });
        }
    }
}

// Takes out the pending blocks on which there is a decision.
fn drop_decided(pending: &mut Vec<Pending<Conflict>>, decisions: &[Decision])
    ensures { pending.new.items ≡ filter (λ q. not (has_decision decisions.now q.block.id)) pending.old.items }
{
    pending.retain(|entry| !is_decided(decisions, &entry.block.id));
}

/// Accepts the pending block at this place, which exists, and rejects those that don't descend from
/// it. It takes all these out of `pending` and appends them to `decisions`: the accepted one first,
/// then the others in order of issue. It returns the accepted block. `decisions` has room for all,
/// so it takes no memory.
/// Rule: AvalancheGo, snow/consensus/snowman.
pub fn take_accepted(
    pending: &mut Vec<Pending<Conflict>>,
    last: &Id,
    at: usize,
    decisions: &mut Vec<Decision>,
) -> Pending<Conflict>
    requires there { at < vec_len pending.old }
    requires grown { IsGrown last.now (reverse (blocks_of pending.old.items)) }
    requires room { vec_len decisions.old + vec_len pending.old ≤ vec_capacity decisions.old }
    ensures child { result ≡ slice_index_or pending.old.items at result }
    ensures left { pending.new.items ≡ descendants pending.old.items result.block.id }
    ensures told { decisions.new.items ≡ decisions.old.items ++ accepts result ∷ map rejects (outsiders pending.old.items result.block.id) }
    ensures room { vec_capacity decisions.new ≡ vec_capacity decisions.old }
    ensures fewer { vec_len decisions.new + vec_len pending.new ≤ vec_len decisions.old + vec_len pending.old }
{
    let first = decisions.len();
    let id = pending[at].block.id;
    decisions.push_reserved(Decision { accepted: true, id });
    reject_others(pending, last, &id, decisions);
    let child = pending.remove(at);
    drop_decided(pending, &decisions[first..]);
    child
}
