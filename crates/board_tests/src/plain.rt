ghost use Rattle.std.specs.Prelude.{◌≡◌, ◌≤◌, IfOk};

use crate::tools::{add_all, first};
use snow_base::{Bag, Id};
use snow_board::Board;
use snow_flake::{Params, Snowball, Snowflake};
use snow_plain::PlainBoard;
use std::alloc::{AllocError, Global};
use std::test::Fail;

// Issues a block right above its parent, where that may be.
fn issue<B: Board>(board: &mut B, id: Id, parent: Id) -> Result<(), AllocError>
    ensures { (B.board board.new).parameters ≡ (B.board board.old).parameters }
{
    let Some(below) = board.height_of(&parent) else {
        return Ok(());
    };
    if below == u64::MAX || board.height_of(&id).is_some() || board.pending_len() >= 4096 {
        return Ok(());
    }
    board.issue(id, parent, below + 1)
}

// Issues blocks, each beside its parent.
fn issue_all<B: Board>(board: &mut B, blocks: &[(u8, u8)]) -> Result<(), AllocError>
    ensures { (B.board board.new).parameters ≡ (B.board board.old).parameters }
{
    for (id, parent) in blocks {
        issue(board, first(*id), first(*parent))?;
    }
    Ok(())
}

// Records a poll of a board with one vote.
#[tactic(auto, using(snow_board::proofs::Polled::poll_parameters))]
fn record<B: Board>(board: &mut B, votes: &Bag)
    requires { 1 ≤ (B.board board.old).parameters.k }
    ensures { (B.board board.new).parameters ≡ (B.board board.old).parameters }
{
    if votes.total() <= 1 {
        board.apply_poll(votes);
    }
}

fn vote<B: Board>(alloc: Global, board: &mut B, byte: u8) -> Result<(), AllocError>
    requires { 1 ≤ (B.board board.old).parameters.k }
    ensures { (B.board board.new).parameters ≡ (B.board board.old).parameters }
{
    let mut votes = Bag::new(alloc);
    let added = add_all(&mut votes, &[(byte, 1)]);
    record(board, &votes);
    drop(votes);
    added
}

// A board above the block 255 for polls of one vote, with these blocks, each beside its parent.
fn grown<B: Board>(alloc: Global, beta: u32, blocks: &[(u8, u8)]) -> Result<B, Fail>
    ensures { IfOk result (λ made. 1 ≤ (B.board made).parameters.k) }
{
    let params = Params::check(1, 1, 1, beta, 1)?;
    let mut board = B::begin(alloc, params, first(255), 0)?;
    issue_all(&mut board, blocks)?;
    Ok(board)
}

fn prefers<B: Board>(board: &B, byte: u8) -> bool {
    board.preference() == first(byte)
}

// Whether the last poll decided so: which blocks, and whether each is accepted.
fn decided<B: Board>(board: &B, decisions: &[(u8, bool)]) -> bool {
    for (decision, (byte, accepted)) in board.decisions().iter().zip(decisions) {
        if decision.accepted != *accepted || decision.id != first(*byte) {
            return false;
        }
    }
    board.decisions().len() == decisions.len()
}

// The height of the last accepted block and how many blocks are pending, where it is this one.
fn end<B: Board>(board: &B, last: u8) -> Option<(u64, usize)> {
    if board.last() != first(last) {
        return None;
    }
    Some((board.last_height(), board.pending_len()))
}

// Whether the second of two votes for the second of two children decides, and the first doesn't.
fn two_polls<B: Board>(alloc: Global) -> Result<bool, Fail> {
    let mut board = grown::<B>(alloc, 2, &[(0, 255), (128, 255)])?;
    let at_first = prefers(&board, 0);
    vote(alloc, &mut board, 128)?;
    let between = prefers(&board, 128) && decided(&board, &[]);
    vote(alloc, &mut board, 128)?;
    let at_last = decided(&board, &[(128, true), (0, false)]);
    Ok(at_first && between && at_last && end(&board, 128) == Some((1, 0)))
}

#[test]
fn two_polls_decide(rt: HostRuntime) -> Result<(), Fail> {
    assert!(rt; two_polls::<PlainBoard<Snowball>>(rt.alloc())?);
    Ok(())
}

// What a board prefers after votes for the first, the first and the second of two children.
fn contested<B: Board>(alloc: Global) -> Result<Id, Fail> {
    let mut board = grown::<B>(alloc, 3, &[(0, 255), (128, 255)])?;
    vote(alloc, &mut board, 0)?;
    vote(alloc, &mut board, 0)?;
    vote(alloc, &mut board, 128)?;
    Ok(board.preference())
}

#[test]
fn rules_part(rt: HostRuntime) -> Result<(), Fail> {
    let balls = contested::<PlainBoard<Snowball>>(rt.alloc())?;
    let flakes = contested::<PlainBoard<Snowflake>>(rt.alloc())?;
    assert!(rt; balls == first(0) && flakes == first(128));
    Ok(())
}

// Whether block 4 stands on block 3, at height 3, and the way to the preference goes by that.
fn is_branch<B: Board>(board: &B) -> bool {
    let four = first(4);
    board.is_preferred(&first(3))
        && !board.is_preferred(&first(2))
        && board.parent_of(&four) == Some(first(3))
        && board.height_of(&four) == Some(3)
}

// Whether a vote for the second of two children rejects the first and all above it.
fn branch<B: Board>(alloc: Global) -> Result<bool, Fail> {
    let mut board = grown::<B>(alloc, 1, &[(1, 255), (2, 255), (3, 1), (4, 3)])?;
    let at_first = is_branch(&board);
    vote(alloc, &mut board, 2)?;
    let between = decided(&board, &[(2, true), (1, false), (3, false), (4, false)])
        && !board.is_pending(&first(4))
        && end(&board, 2).is_some();
    issue(&mut board, first(5), first(2))?;
    Ok(at_first && between && decided(&board, &[]) && prefers(&board, 5))
}

#[test]
fn a_branch_is_rejected(rt: HostRuntime) -> Result<(), Fail> {
    assert!(rt; branch::<PlainBoard<Snowflake>>(rt.alloc())?);
    Ok(())
}
