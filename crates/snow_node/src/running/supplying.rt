ghost use Rattle.std.specs.Prelude.{◌≡◌, IfOk, OnErr};
ghost use Rattle.snow_board.specs.Laws.Reached.{MayIssue};
ghost use Rattle.snow_chain.specs.Model.Chain.{next_on};
ghost use Rattle.snow_node.specs.Clauses.Matching.{IsSteady, Admits};
ghost use Rattle.snow_node.specs.Model.Supplying as model;
ghost use Rattle.snow_node.specs.Model.Supplying.{Serves};

use snow_base::{Bytes, Header};
use snow_board::{Board, Decision};
use snow_chain::Chain;
use snow_getter::Getter;
use snow_issue::SpareBytes;
use std::alloc::AllocError;

/// Issues a block, if it is valid, and serves it, and returns whether it did. On want of memory all
/// stays as it was: where there is no room for a valid block, it takes the block's state back out
/// of the chain, and the block back out of what is served.
#[tactic(auto, using(crate::proofs::Offers::may_take_back, crate::proofs::Supplying::new_to_serve))]
pub(super) fn verify_and_issue<C: Chain, B: Board>(
    board: &mut B,
    chain: &mut C,
    served: &mut Getter,
    block: &Header,
    bytes: Bytes,
) -> Result<bool, AllocError>
    requires steady { IsSteady (B.board board.old) (C.held chain.old) }
    requires may { MayIssue (B.board board.old) block.now }
    requires serves { Serves (B.board board.old) served.old }
    ensures admits { IfOk result (λ valid. Admits valid (B.board board.old) (C.held chain.old) (B.board board.new) (C.held chain.new)
        (B.decided board.new) block.now (next_on C.rules (C.held chain.old) block.now.parent bytes)) }
    ensures served { IfOk result (λ valid. served.new ≡ model.if_issued served.old valid block.now bytes) }
    ensures board { OnErr result (B.board board.new ≡ B.board board.old) }
    ensures held { OnErr result (C.held chain.new ≡ C.held chain.old) }
    ensures unserved { OnErr result (served.new ≡ served.old) }
    ensures steady { IsSteady (B.board board.new) (C.held chain.new) }
    ensures serves { Serves (B.board board.new) served.new }
{
    if !chain.verify(&block.parent, &block.id, bytes.list())? {
        return Ok(false);
    }
    if let Err(error) = served.issued(block.id, block.parent, bytes) {
        chain.reject(&block.id);
        return Err(error);
    }
    if let Err(error) = board.issue(block.id, block.parent, block.height) {
        let _taken_back = served.rejected(&block.id);
        chain.reject(&block.id);
        return Err(error);
    }
    Ok(true)
}

/// Makes what peers are served follow the decisions. It keeps the room of bytes that aren't served
/// any more. It needs no memory.
pub(super) fn serve_decisions(served: &mut Getter, room: &mut SpareBytes, decisions: &[Decision])
    ensures { served.new ≡ model.with_decisions served.old decisions.now }
{
    for decision in decisions {
        if let Some(bytes) = serve_decision(served, decision) {
            room.keep(bytes);
        }
    }
}

/// Makes what peers are served follow one decision. It returns bytes that aren't served any more.
fn serve_decision(served: &mut Getter, decision: &Decision) -> Option<Bytes>
    ensures { served.new ≡ model.with_decision served.old decision.now }
{
    if decision.accepted {
        served.accepted(&decision.id)
    } else {
        served.rejected(&decision.id)
    }
}
