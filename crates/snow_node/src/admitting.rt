//! What every node does with its board and its chain: it admits a block, and applies a poll.

ghost use Rattle.std.specs.Prelude.{◌≡◌, ◌+◌, ◌≤◌, ◌==◌, None, length, IfOk, OnOk, OnErr};
ghost use Rattle.snow_base.specs.Clauses.Gathered.{one_each};
ghost use Rattle.snow_base.specs.Model.Votes.{total_count};
ghost use Rattle.snow_board.specs.Model.Board.{height_of};
ghost use Rattle.snow_board.specs.Model.Poll.{poll};
ghost use Rattle.snow_board.specs.Laws.Reached.{MayIssue};
ghost use Rattle.snow_chain.specs.Model.Chain.{next_on};
ghost use Rattle.snow_node.specs.Clauses.Matching.{IsSteady, Admits};
ghost use Rattle.snow_node.specs.Model.Placing.{opposed};
ghost use Rattle.snow_node.specs.Model.Telling.{with_decisions};

use crate::telling;
use snow_base::limits::MOST_PENDING;
use snow_base::{Bag, Header, Id};
use snow_board::Board;
use snow_chain::Chain;
use snow_lines::DropWhy;
use std::alloc::AllocError;

/// Returns why a block that isn't on the board can't be issued, whatever its chain says: `Parent`
/// where its parent isn't on the board, `Full` where 4,096 blocks are pending, `Invalid` where its
/// height isn't its parent's plus one. It returns the first that holds, or `None` exactly where
/// none does.
/// Rule: AvalancheGo, snow/consensus/snowman.
#[tactic(auto, using(crate::proofs::Offers::unopposed))]
pub fn opposition<B: Board>(board: &B, block: &Header) -> Option<DropWhy>
    requires { height_of (B.board board.now) block.now.id ≡ None }
    ensures why { result ≡ opposed (B.board board.now) block.now (height_of (B.board board.now) block.now.parent) }
    ensures none { result ≡ None → MayIssue (B.board board.now) block.now }
{
    let Some(below) = board.height_of(&block.parent) else {
        return Some(DropWhy::Parent);
    };
    if board.pending_len() >= MOST_PENDING {
        return Some(DropWhy::Full);
    }
    if is_above(block.height, below) {
        None
    } else {
        Some(DropWhy::Invalid)
    }
}

/// Returns whether a height is one more than another, as whole numbers.
fn is_above(height: u64, below: u64) -> bool
    ensures { result ≡ (height == below + 1) }
{
    height > below && height - below == 1
}

/// Issues a block, if its chain finds it valid, and returns whether it did. An invalid block
/// changes nothing. On want of memory it returns `AllocError`, and all stays as it was: where the
/// board has no room for a valid block, it takes the block's state back out of the chain.
/// Rule: AvalancheGo, snow/consensus/snowman.
#[tactic(auto, using(crate::proofs::Offers::may_take_back))]
pub fn admit<C: Chain, B: Board>(
    board: &mut B,
    chain: &mut C,
    block: &Header,
    bytes: &[u8],
) -> Result<bool, AllocError>
    requires steady { IsSteady (B.board board.old) (C.held chain.old) }
    requires may { MayIssue (B.board board.old) block.now }
    ensures admits { IfOk result (λ valid. Admits valid (B.board board.old) (C.held chain.old) (B.board board.new) (C.held chain.new)
        (B.decided board.new) block.now (next_on C.rules (C.held chain.old) block.now.parent bytes.now)) }
    ensures board { OnErr result (B.board board.new ≡ B.board board.old) }
    ensures decided { OnErr result (B.decided board.new ≡ B.decided board.old) }
    ensures held { OnErr result (C.held chain.new ≡ C.held chain.old) }
    ensures steady { IsSteady (B.board board.new) (C.held chain.new) }
{
    if !chain.verify(&block.parent, &block.id, bytes)? {
        return Ok(false);
    }
    if let Err(error) = board.issue(block.id, block.parent, block.height) {
        chain.reject(&block.id);
        return Err(error);
    }
    Ok(true)
}

/// Records a poll of at most K votes on the board, and tells the chain what it decided. It takes no
/// memory and can't fail.
/// Rule: AvalancheGo, snow/consensus/snowman.
#[tactic(auto, using(crate::proofs::Offers::poll_keeps))]
pub fn apply<C: Chain, B: Board>(board: &mut B, chain: &mut C, votes: &Bag)
    requires steady { IsSteady (B.board board.old) (C.held chain.old) }
    requires few { total_count votes.now.list ≤ (B.board board.old).parameters.k }
    ensures board { B.board board.new ≡ (poll (B.board board.old) votes.now.list).0 }
    ensures decided { B.decided board.new ≡ (poll (B.board board.old) votes.now.list).1 }
    ensures held { C.held chain.new ≡ with_decisions (C.held chain.old) (poll (B.board board.old) votes.now.list).1 }
    ensures steady { IsSteady (B.board board.new) (C.held chain.new) }
    ensures parameters { (B.board board.new).parameters ≡ (B.board board.old).parameters }
{
    board.apply_poll(votes);
    telling::notify_chain(chain, board.decisions());
}

/// Records a poll with one vote for each of these identifiers, at most K, and tells the chain what
/// it decided. On want of memory it returns `AllocError`, and all stays as it was.
/// Rule: AvalancheGo, snow/consensus/snowman.
#[tactic(auto, using(crate::proofs::Offers::poll_keeps))]
pub fn apply_votes<C: Chain, B: Board>(
    board: &mut B,
    chain: &mut C,
    ids: &[Id],
) -> Result<(), AllocError>
    requires steady { IsSteady (B.board board.old) (C.held chain.old) }
    requires few { length ids.now ≤ (B.board board.old).parameters.k }
    ensures board { OnOk result (B.board board.new ≡ (poll (B.board board.old) (one_each ids.now)).0) }
    ensures decided { OnOk result (B.decided board.new ≡ (poll (B.board board.old) (one_each ids.now)).1) }
    ensures held { OnOk result (C.held chain.new ≡ with_decisions (C.held chain.old) (poll (B.board board.old) (one_each ids.now)).1) }
    ensures board_stays { OnErr result (B.board board.new ≡ B.board board.old) }
    ensures decided_stays { OnErr result (B.decided board.new ≡ B.decided board.old) }
    ensures held_stays { OnErr result (C.held chain.new ≡ C.held chain.old) }
    ensures steady { IsSteady (B.board board.new) (C.held chain.new) }
    ensures parameters { (B.board board.new).parameters ≡ (B.board board.old).parameters }
{
    board.apply_votes(ids)?;
    telling::notify_chain(chain, board.decisions());
    Ok(())
}
