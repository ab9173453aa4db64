ghost use Rattle.std.specs.Prelude.{◌≡◌, ◌<◌, ◌≤◌, length};
ghost use Rattle.snow_base.specs.Model.Votes.{total_count};

use snow_base::{Bag, Id};
use snow_board::Board;
use std::alloc::{AllocError, Global};
use std::test::Fail;

// Numbers that look random, each below a bound.
#[derive(Drop)]
pub(crate) struct Draws {
    state: u64,
}

impl Draws {
    pub(crate) fn new(seed: u64) -> Self {
        Draws { state: seed }
    }

    pub(crate) fn next(&mut self, below: u64) -> u64
        requires { 0 < below }
        ensures { result < below }
    {
        self.state = self
            .state
            .wrapping_mul(6364136223846793005)
            .wrapping_add(1442695040888963407);
        (self.state >> 33) % below
    }
}

pub(crate) fn holds(condition: bool) -> Result<(), Fail> {
    if condition {
        Ok(())
    } else {
        Err(Fail::from("it doesn't hold"))
    }
}

// The identifier of a number: its bits stand at the beginning, in the middle and at the end.
pub(crate) fn named(number: u16) -> Id {
    let mut bytes = [0; 32];
    let [a, b] = number.to_be_bytes();
    bytes[0] = b & 0x0f;
    bytes[15] = a;
    bytes[31] = b & 0xf0;
    Id::from_bytes(bytes)
}

// Issues the block of a number right above its parent, where that may be.
pub(crate) fn offer<B: Board>(board: &mut B, number: u16, parent: u16) -> Result<(), AllocError>
    ensures { (B.board board.new).parameters ≡ (B.board board.old).parameters }
{
    let (id, parent) = (named(number), named(parent));
    let Some(below) = board.height_of(&parent) else {
        return Ok(());
    };
    if below == u64::MAX || board.height_of(&id).is_some() || board.pending_len() >= 4096 {
        return Ok(());
    }
    board.issue(id, parent, below + 1)
}

// Issues blocks, each beside its parent.
pub(crate) fn offer_all<B: Board>(board: &mut B, blocks: &[(u16, u16)]) -> Result<(), AllocError>
    ensures { (B.board board.new).parameters ≡ (B.board board.old).parameters }
{
    for (number, parent) in blocks {
        offer(board, *number, *parent)?;
    }
    Ok(())
}

// Issues a chain of blocks above the block 0, and beside each another with the same parent, where there
// are to be two.
pub(crate) fn chain<B: Board>(board: &mut B, len: u16, in_pairs: bool) -> Result<(), AllocError>
    ensures { (B.board board.new).parameters ≡ (B.board board.old).parameters }
{
    for number in 0..len.min(5000) {
        offer(board, number + 1, number)?;
        if in_pairs {
            offer(board, number + 10_001, number)?;
        }
    }
    Ok(())
}

// Records a poll.
pub(crate) fn record<B: Board>(board: &mut B, votes: &Bag)
    requires { total_count votes.now.list ≤ (B.board board.old).parameters.k }
    ensures { (B.board board.new).parameters ≡ (B.board board.old).parameters }
{
    board.apply_poll(votes);
}

// Records a poll with one vote for each of these identifiers.
pub(crate) fn record_each<B: Board>(board: &mut B, ids: &[Id]) -> Result<(), AllocError>
    requires { length ids.now ≤ (B.board board.old).parameters.k }
    ensures { (B.board board.new).parameters ≡ (B.board board.old).parameters }
{
    board.apply_votes(ids)
}

// Adds votes for the block of a number, where there may be so many.
pub(crate) fn add(votes: &mut Bag, number: u16, count: u32) -> Result<(), AllocError> {
    if count == 0 || count > 1024 || votes.total() > 1024 {
        return Ok(());
    }
    votes.add(named(number), count)
}

// So many votes for the block of a number.
pub(crate) fn votes_for(alloc: Global, number: u16, count: u32) -> Result<Bag, AllocError> {
    let mut votes = Bag::new(alloc);
    add(&mut votes, number, count)?;
    Ok(votes)
}
