ghost use Rattle.std.specs.Prelude.{◌≡◌, ◌<◌, ◌≤◌, true, All, IfOk};
ghost use Rattle.snow_base.specs.Model.Votes.{total_count};

use crate::tools::{chain, named, offer_all, record, votes_for};
use snow_base::{Bag, Steps};
use snow_board::Board;
use snow_flake::{Params, Rule, Snowball};
use snow_topo::{Topo, replay_counted};
use std::alloc::{AllocError, Global};
use std::marker::Brand;
use std::sync::ledger::{Blank, Ledger};
use std::test::Fail;

// Records a poll with one vote for the block of a number.
fn vote<B: Board>(alloc: Global, board: &mut B, number: u16) -> Result<(), AllocError>
    requires { 1 ≤ (B.board board.old).parameters.k }
{
    let votes = votes_for(alloc, number, 1)?;
    if votes.total() <= 1 {
        record(board, &votes);
    }
    drop(votes);
    Ok(())
}

// How many blocks a chain has pending, where the end of it is preferred, and no block behind it is known.
fn chain_len<B: Board>(board: &B) -> Option<usize> {
    let preferred = board.preference() == named(4096) && board.is_preferred(&named(2000));
    if !preferred || board.is_pending(&named(4097)) {
        return None;
    }
    Some(board.pending_len())
}

// How many decisions the last poll made, and the height that is accepted.
fn decided<B: Board>(board: &B) -> (usize, u64) {
    (board.decisions().len(), board.last_height())
}

// The same of a long chain, before and after a vote for the end of it.
fn long_chain<B: Board>(alloc: Global) -> Result<(Option<usize>, (usize, u64)), Fail> {
    let params = Params::check(1, 1, 1, 1, 1)?;
    let mut board = B::begin(alloc, params, named(0), 0)?;
    chain(&mut board, 4097, false)?;
    let len = chain_len(&board);
    vote(alloc, &mut board, 4096)?;
    Ok((len, decided(&board)))
}

#[test]
fn a_chain_of_4096_blocks(rt: HostRuntime) -> Result<(), Fail> {
    let told = long_chain::<Topo<Snowball>>(rt.alloc())?;
    assert_eq!(rt; told, (Some(4096), (4096, 4096)));
    Ok(())
}

fn choices_of<R: Rule>(board: &Topo<R>, number: u16) -> Option<usize> {
    match board.trie_of(&named(number)) {
        Some(trie) => Some(trie.choices()),
        None => None,
    }
}

// A board above the block 0 with these blocks, each beside its parent.
fn grown<B: Board>(alloc: Global, blocks: &[(u16, u16)]) -> Result<B, Fail> {
    let params = Params::check(1, 1, 1, 2, 1)?;
    let mut board = B::begin(alloc, params, named(0), 0)?;
    offer_all(&mut board, blocks)?;
    Ok(board)
}

#[test]
fn trees_are_shown(rt: HostRuntime) -> Result<(), Fail> {
    let board = grown::<Topo<Snowball>>(rt.alloc(), &[(1, 0), (2, 1), (3, 0)])?;
    assert!(rt; choices_of(&board, 0) == Some(2));
    assert!(rt; choices_of(&board, 2).is_none());
    assert!(rt; choices_of(&board, 9).is_none());
    drop(board);
    Ok(())
}

// Whether each poll has at most so many votes.
fn are_few(polls: &[Bag], most: u32) -> bool
    ensures { result ≡ true → All (λ votes. total_count votes.list ≤ most) polls.now }
{
    for votes in polls {
        if votes.total() > most {
            return false;
        }
    }
    true
}

// Adds a poll of twenty votes for the end of a chain of fifty blocks.
fn add_poll(alloc: Global, polls: &mut Vec<Bag>) -> Result<(), AllocError> {
    let votes = votes_for(alloc, 50, 20)?;
    polls.push(votes)?;
    Ok(())
}

// Fifty such polls.
fn fifty_polls(alloc: Global) -> Result<Vec<Bag>, AllocError> {
    let mut polls = Vec::new(alloc);
    for _ in 0..50 {
        add_poll(alloc, &mut polls)?;
    }
    Ok(polls)
}

// A chain of fifty blocks, beside each of which stands another with the same parent.
fn fifty<B: Board>(alloc: Global, params: Params) -> Result<B, AllocError>
    ensures { IfOk result (λ made. (B.board made).parameters ≡ params) }
{
    let mut board = B::begin(alloc, params, named(0), 0)?;
    chain(&mut board, 50, true)?;
    Ok(board)
}

// The polls recorded one by one.
fn one_by_one<B: Board>(board: &mut B, polls: &[Bag], most: u32)
    requires { most ≤ (B.board board.old).parameters.k }
{
    for votes in polls {
        if votes.total() <= most {
            record(board, votes);
        }
    }
}

fn same_ends<B: Board>(a: &B, b: &B) -> bool {
    a.last() == named(50)
        && a.last() == b.last()
        && a.preference() == b.preference()
        && a.pending_len() == b.pending_len()
        && a.decisions() == b.decisions()
}

// The polls replayed with their steps counted, where each has at most so many votes.
fn replay<R: Rule, L: Ledger>(board: &mut Topo<R>, polls: &[Bag], most: u32, steps: &mut Steps<L>)
    requires { most ≤ (board.old).board.parameters.k }
{
    if are_few(polls, most) {
        replay_counted(board, polls, steps);
    }
}

// Whether a board on which the polls are replayed with their steps counted ends as another on which they
// are recorded one by one.
fn end_alike<R: Rule, L: Ledger>(
    board: &mut Topo<R>,
    other: &mut Topo<R>,
    polls: &[Bag],
    steps: &mut Steps<L>,
) -> bool
    requires first { 20 ≤ (board.old).board.parameters.k }
    requires second { 20 ≤ (other.old).board.parameters.k }
{
    replay(board, polls, 20, steps);
    one_by_one(other, polls, 20);
    same_ends(board, other)
}

// Two boards that have grown alike.
fn two_of<B: Board>(alloc: Global, params: Params) -> Result<(B, B), AllocError>
    requires { 20 ≤ params.k }
    ensures first { IfOk result (λ made. 20 ≤ (B.board made.0).parameters.k) }
    ensures second { IfOk result (λ made. 20 ≤ (B.board made.1).parameters.k) }
{
    let board = fifty(alloc, params)?;
    Ok((board, fifty(alloc, params)?))
}

// The same, with new boards.
fn replayed<R: Rule, L: Ledger>(
    alloc: Global,
    polls: &[Bag],
    steps: &mut Steps<L>,
) -> Result<bool, Fail> {
    let params = Params::check(20, 15, 15, 20, 4)?;
    let (mut board, mut other) = two_of::<Topo<R>>(alloc, params)?;
    let alike = end_alike(&mut board, &mut other, polls, steps);
    drop(board);
    drop(other);
    Ok(alike)
}

// The same, with fifty polls and a counter on a blank page.
fn fifty_replayed<R: Rule, L: Ledger>(alloc: Global, blank: Blank) -> Result<bool, Fail>
    requires name { blank.name ≡ L.name }
    requires parts { blank.parts ≡ L.parts }
    requires some { 0 < L.parts }
{
    let mut steps = Steps::<L>::new(blank);
    let polls = fifty_polls(alloc)?;
    let alike = replayed::<R, L>(alloc, &polls, &mut steps);
    drop(polls);
    alike
}

#[test]
fn fifty_polls_are_replayed(rt: HostRuntime) -> Result<(), Fail> {
    assert!(rt; fifty_replayed::<Snowball, Brand>(rt.alloc(), Blank::new(1))?);
    Ok(())
}
