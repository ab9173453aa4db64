ghost use Rattle.std.specs.Prelude.{◌≡◌};

use crate::tools::{Draws, add, holds, named, offer, offer_all, record, record_each, votes_for};
use snow_base::{Bag, Id};
use snow_board::Board;
use snow_flake::{Params, Snowball, Snowflake};
use snow_plain::PlainBoard;
use snow_topo::Topo;
use std::alloc::{AllocError, Global};
use std::test::Fail;

// Two boards that are given the same.
#[derive(Drop)]
struct Pair<A: Board, B: Board> {
    first: A,
    second: B,
    params: Params,
    ghost own: { (A.board first).parameters ≡ params },
    ghost same: { (B.board second).parameters ≡ params },
}

impl<A: Board, B: Board> Pair<A, B> {
    // Above the block 0.
    fn new(alloc: Global, params: Params) -> Result<Self, AllocError> {
        Ok(Pair {
            first: A::begin(alloc, params, named(0), 0)?,
            second: B::begin(alloc, params, named(0), 0)?,
            params,
        })
    }

    fn offer(&mut self, number: u16, parent: u16) -> Result<(), AllocError> {
        offer(&mut self.first, number, parent)?;
        offer(&mut self.second, number, parent)
    }

    fn offer_all(&mut self, blocks: &[(u16, u16)]) -> Result<(), AllocError> {
        offer_all(&mut self.first, blocks)?;
        offer_all(&mut self.second, blocks)
    }

    // A poll, where there are at most K votes.
    fn record(&mut self, votes: &Bag) {
        if votes.total() <= self.params.k() {
            record(&mut self.first, votes);
            record(&mut self.second, votes);
        }
    }

    // The same with one vote for each identifier.
    fn record_each(&mut self, ids: &[Id]) -> Result<(), AllocError> {
        if ids.len() <= self.params.k() as usize {
            record_each(&mut self.first, ids)?;
            record_each(&mut self.second, ids)?;
        }
        Ok(())
    }

    fn vote(&mut self, alloc: Global, number: u16) -> Result<(), AllocError> {
        let votes = votes_for(alloc, number, 1)?;
        self.record(&votes);
        Ok(())
    }

    // Whether both answer the same, also of the first forty blocks.
    fn is_same(&self) -> bool {
        same_boards(&self.first, &self.second) && same_blocks(&self.first, &self.second)
    }
}

fn same_boards<A: Board, B: Board>(a: &A, b: &B) -> bool {
    a.preference() == b.preference()
        && a.last() == b.last()
        && a.last_height() == b.last_height()
        && a.pending_len() == b.pending_len()
        && a.decisions() == b.decisions()
}

fn same_block<A: Board, B: Board>(a: &A, b: &B, id: &Id) -> bool {
    a.is_pending(id) == b.is_pending(id)
        && a.is_preferred(id) == b.is_preferred(id)
        && a.parent_of(id) == b.parent_of(id)
        && a.height_of(id) == b.height_of(id)
}

fn same_blocks<A: Board, B: Board>(a: &A, b: &B) -> bool {
    for number in 0..40 {
        if !same_block(a, b, &named(number)) {
            return false;
        }
    }
    true
}

// The preference and how many decisions there are after a vote for the second of two children of the
// last accepted block, each poll deciding, and after one block more.
fn branch<A: Board, B: Board>(alloc: Global) -> Result<[(Id, usize); 2], Fail> {
    let mut pair = Pair::<A, B>::new(alloc, Params::check(1, 1, 1, 1, 1)?)?;
    pair.offer_all(&[(1, 0), (2, 0), (3, 1), (4, 3)])?;
    pair.vote(alloc, 2)?;
    let voted = (pair.first.preference(), pair.first.decisions().len());
    let was_same = pair.is_same();
    pair.offer(5, 2)?;
    holds(was_same && pair.is_same())?;
    Ok([
        voted,
        (pair.first.preference(), pair.first.decisions().len()),
    ])
}

#[test]
fn a_branch_is_rejected(rt: HostRuntime) -> Result<(), Fail> {
    let [voted, grown] = branch::<Topo<Snowball>, PlainBoard<Snowball>>(rt.alloc())?;
    assert!(rt; voted == (named(2), 4) && grown == (named(5), 0));
    Ok(())
}

// What a rule prefers after votes for the first, the first and the second of two children, some of them
// for blocks above.
fn contested<A: Board, B: Board>(alloc: Global) -> Result<Id, Fail> {
    let mut pair = Pair::<A, B>::new(alloc, Params::check(1, 1, 1, 3, 1)?)?;
    pair.offer_all(&[(16, 0), (32, 0), (5, 32), (6, 16)])?;
    for number in [6, 16, 5] {
        pair.vote(alloc, number)?;
    }
    holds(pair.is_same())?;
    Ok(pair.first.preference())
}

#[test]
fn rules_part(rt: HostRuntime) -> Result<(), Fail> {
    let balls = contested::<Topo<Snowball>, PlainBoard<Snowball>>(rt.alloc())?;
    let flakes = contested::<Topo<Snowflake>, PlainBoard<Snowflake>>(rt.alloc())?;
    assert!(rt; balls == named(6) && flakes == named(5));
    Ok(())
}

// A poll with some votes for some blocks.
fn some_votes(alloc: Global, draws: &mut Draws) -> Result<Bag, AllocError> {
    let mut votes = Bag::new(alloc);
    for _ in 0..draws.next(4) {
        let number = draws.next(40) as u16;
        add(&mut votes, number, draws.next(3) as u32)?;
    }
    Ok(votes)
}

// Some of four identifiers again and again, in any order; those of the blocks from 40 on aren't known.
fn some_ids(alloc: Global, draws: &mut Draws) -> Result<Vec<Id>, AllocError> {
    let some = [
        draws.next(40),
        draws.next(40),
        draws.next(44),
        40 + draws.next(4),
    ];
    let mut ids = Vec::new(alloc);
    for _ in 0..draws.next(9) {
        let number = some[draws.next(4) as usize];
        ids.push(named(number as u16))?;
    }
    Ok(ids)
}

impl<A: Board, B: Board> Pair<A, B> {
    // A random issue or poll.
    fn step(&mut self, alloc: Global, draws: &mut Draws) -> Result<(), AllocError> {
        if draws.next(5) < 3 {
            return self.offer(draws.next(40) as u16, draws.next(40) as u16);
        }
        if draws.next(2) == 0 {
            let ids = some_ids(alloc, draws)?;
            return self.record_each(&ids);
        }
        let votes = some_votes(alloc, draws)?;
        self.record(&votes);
        Ok(())
    }
}

// Random issues and polls, after each of which both boards are compared.
fn random<A: Board, B: Board>(alloc: Global, beta: u32, rounds: u16) -> Result<(), Fail> {
    let mut draws = Draws::new(u64::from(beta));
    let mut pair = Pair::<A, B>::new(alloc, Params::check(4, 3, 3, beta, 1)?)?;
    for _ in 0..rounds {
        pair.step(alloc, &mut draws)?;
        holds(pair.is_same())?;
    }
    Ok(())
}

#[test]
fn random_issues_and_polls(rt: HostRuntime) -> Result<(), Fail> {
    random::<Topo<Snowball>, PlainBoard<Snowball>>(rt.alloc(), 2, 1200)?;
    random::<Topo<Snowball>, PlainBoard<Snowball>>(rt.alloc(), 4, 800)?;
    random::<Topo<Snowflake>, PlainBoard<Snowflake>>(rt.alloc(), 3, 800)
}
