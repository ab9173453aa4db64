ghost use Rattle.std.specs.Prelude.{◌≡◌, ◌+◌, ◌^◌, ◌<◌, ◌≤◌, All, Contains, IfOk};
ghost use Rattle.snow_base.specs.Model.Votes.{total_count};

use snow_base::{Bag, Id, Steps};
use snow_flake::{Params, Rule, Snowball, Snowflake};
use snow_plain::Conflict;
use snow_trie::Trie;
use std::alloc::{AllocError, Global};
use std::marker::Brand;
use std::sync::ledger::{Blank, Ledger};
use std::test::Fail;

// A tree beside the plain counters, with the identifiers that both were given.
#[derive(Drop)]
struct Pair<R: Rule> {
    trie: Trie<R>,
    plain: Conflict,
    given: Vec<Id>,
    params: Params,
    ghost same: { trie.ids ≡ given.items },
    ghost parameters: { trie.parameters ≡ params },
}

// Plain counters with this child.
fn counters(alloc: Global, id: &Id) -> Result<Conflict, AllocError> {
    let mut plain = Conflict::new(alloc);
    plain.add(id)?;
    Ok(plain)
}

impl<R: Rule> Pair<R> {
    fn new(alloc: Global, params: Params, id: Id) -> Result<Self, AllocError> {
        let mut given = Vec::with_capacity(alloc, 1)?;
        given.push_reserved(id);
        let plain = counters(alloc, &id)?;
        Ok(Pair {
            trie: Trie::new(alloc, params, id)?,
            plain,
            given,
            params,
        })
    }

    fn add(&mut self, id: Id) -> Result<(), AllocError> {
        self.given.reserve(1)?;
        self.plain.add(&id)?;
        self.trie.add(id)?;
        self.given.push_reserved(id);
        Ok(())
    }

    // So many votes for the identifier that was given at this place.
    fn vote(&self, bag: &mut Bag, at: usize, count: u32) -> Result<(), AllocError>
        requires count { 1 ≤ count }
        requires room { total_count (bag.old).list + count < 2 ^ 32 }
        requires given { All (λ v. Contains (self.now).given.items v.id) (bag.old).list }
        ensures total { total_count (bag.new).list ≤ total_count (bag.old).list + count }
        ensures given { All (λ v. Contains (self.now).given.items v.id) (bag.new).list }
    {
        if at < self.given.len() {
            bag.add(self.given[at], count)?;
        }
        Ok(())
    }

    // Votes for two of them.
    fn votes(&self, alloc: Global, picks: [(usize, u32); 2]) -> Result<Bag, AllocError>
        ensures { IfOk result (λ bag. All (λ v. Contains (self.now).given.items v.id) bag.list) }
    {
        let mut bag = Bag::new(alloc);
        let [(first, many), (second, more)] = picks;
        self.vote(&mut bag, first, many.clamp(1, 1000))?;
        self.vote(&mut bag, second, more.clamp(1, 1000))?;
        Ok(bag)
    }

    // A poll, where there are no more votes than K.
    fn record<L: Ledger>(&mut self, votes: &Bag, steps: &mut Steps<L>)
        requires { All (λ v. Contains (self.old).given.items v.id) votes.now.list }
    {
        if votes.total() <= self.params.k() {
            self.trie.apply(votes.entries(), steps);
            self.plain.poll(&self.params, votes.entries());
        }
    }

    // A poll with votes for two of them.
    fn poll<L: Ledger>(
        &mut self,
        alloc: Global,
        picks: [(usize, u32); 2],
        steps: &mut Steps<L>,
    ) -> Result<(), AllocError> {
        let votes = self.votes(alloc, picks)?;
        self.record(&votes, steps);
        drop(votes);
        Ok(())
    }

    fn fail<L: Ledger>(&mut self, alloc: Global, steps: &mut Steps<L>) {
        self.trie.fail(steps);
        let none = Bag::new(alloc);
        self.plain.poll(&self.params, none.entries());
    }

    // Whether both lead to one identifier, and both are final or neither.
    fn is_same(&self) -> bool {
        let preference = self.trie.preference();
        self.plain.leads_to::<R>(&preference)
            && self.plain.decides(&preference) == self.trie.is_final()
    }

    fn call<L: Ledger>(
        &mut self,
        alloc: Global,
        call: Call,
        steps: &mut Steps<L>,
    ) -> Result<(), AllocError> {
        match call {
            Call::Add(id) => self.add(id),
            Call::Fail => {
                self.fail(alloc, steps);
                Ok(())
            }
            Call::Poll(picks) => self.poll(alloc, picks, steps),
        }
    }

    // Whether it answers as a row says, and as the plain counters do.
    fn is(&self, (_, (first, last), is_final, nodes, choices): Row) -> bool {
        self.is_same()
            && self.trie.preference() == named(first, last)
            && self.trie.is_final() == is_final
            && self.trie.nodes() == nodes
            && self.trie.choices() == choices
    }

    // Whether it answers so behind each call.
    fn follows<L: Ledger>(
        &mut self,
        alloc: Global,
        rows: &[Row],
        steps: &mut Steps<L>,
    ) -> Result<bool, AllocError> {
        for row in rows {
            self.call(alloc, call_of(row.0), steps)?;
            if !self.is(*row) {
                return Ok(false);
            }
        }
        Ok(true)
    }

    // Whether it answers as the plain counters do behind each of a hundred random calls.
    fn stays_same<L: Ledger>(
        &mut self,
        alloc: Global,
        draws: &mut Draws,
        steps: &mut Steps<L>,
    ) -> Result<bool, AllocError> {
        for _ in 0..100 {
            self.call(alloc, some_call(draws), steps)?;
            if !self.is_same() {
                return Ok(false);
            }
        }
        Ok(true)
    }
}

#[derive(Clone, Copy)]
enum Call {
    Add(Id),
    Fail,
    Poll([(usize, u32); 2]),
}

// A call of an example: one vote for the identifier that was given at a place, no vote, or an identifier
// by its first byte and its last one.
#[derive(Clone, Copy)]
enum Step {
    Vote(usize),
    Fail,
    Add(u8, u8),
}

// A call, and what the tree answers then: its preference, whether it is final, how many nodes it has and
// how many choices.
type Row = (Step, (u8, u8), bool, usize, usize);

// The identifier with this first byte and this last one, and zeros between.
fn named(first: u8, last: u8) -> Id {
    let mut bytes = [0; 32];
    bytes[0] = first;
    bytes[31] = last;
    Id::from_bytes(bytes)
}

fn call_of(step: Step) -> Call {
    match step {
        Step::Vote(place) => Call::Poll([(place, 1), (9, 1)]),
        Step::Fail => Call::Fail,
        Step::Add(first, last) => Call::Add(named(first, last)),
    }
}

// Two choices fill the bound of four nodes; a failed poll lies between their votes.
const TWO_CHOICES: [Row; 5] = [
    (Step::Vote(0), (0, 0), false, 1, 1),
    (Step::Fail, (0, 0), false, 1, 1),
    (Step::Add(0x80, 0), (0, 0), false, 4, 2),
    (Step::Vote(0), (0, 0), false, 4, 2),
    (Step::Vote(0), (0, 0), true, 1, 2),
];

// Identifiers that differ in the last bit alone, and one that differs from both.
const LAST_BIT: [Row; 4] = [
    (Step::Add(0, 0x80), (0, 0), false, 2, 2),
    (Step::Vote(1), (0, 0x80), true, 1, 2),
    (Step::Add(1, 0), (0, 0x80), true, 1, 3),
    (Step::Vote(0), (0, 0x80), true, 1, 3),
];

// Three choices that differ at the first bits, with votes between.
const FIRST_BITS: [Row; 7] = [
    (Step::Vote(0), (0, 0), false, 1, 1),
    (Step::Add(1, 0), (0, 0), false, 3, 2),
    (Step::Vote(1), (1, 0), false, 3, 2),
    (Step::Add(3, 0), (1, 0), false, 5, 3),
    (Step::Vote(2), (3, 0), false, 5, 3),
    (Step::Vote(2), (3, 0), false, 3, 3),
    (Step::Vote(2), (3, 0), true, 1, 3),
];

// Whether a new tree answers so, for polls of one vote that decide at this confidence.
fn follows<R: Rule, L: Ledger>(
    alloc: Global,
    beta: u32,
    rows: &[Row],
    steps: &mut Steps<L>,
) -> Result<bool, Fail> {
    let params = Params::check(1, 1, 1, beta, 1)?;
    let mut pair = Pair::<R>::new(alloc, params, named(0, 0))?;
    let follows = pair.follows(alloc, rows, steps);
    drop(pair);
    Ok(follows?)
}

fn examples<L: Ledger>(alloc: Global, blank: Blank) -> Result<bool, Fail>
    requires name { blank.name ≡ L.name }
    requires parts { blank.parts ≡ L.parts }
    requires some { 0 < L.parts }
{
    let mut steps = Steps::<L>::new(blank);
    Ok(
        follows::<Snowball, L>(alloc, 2, &TWO_CHOICES, &mut steps)?
            && follows::<Snowball, L>(alloc, 1, &LAST_BIT, &mut steps)?
            && follows::<Snowflake, L>(alloc, 3, &FIRST_BITS, &mut steps)?,
    )
}

#[test]
fn worked_examples(rt: HostRuntime) -> Result<(), Fail> {
    assert!(rt; examples::<Brand>(rt.alloc(), Blank::new(1))?);
    Ok(())
}

// Numbers that look random, each below a bound.
#[derive(Drop)]
struct Draws {
    state: u64,
}

impl Draws {
    fn next(&mut self, below: u64) -> u64
        requires { 0 < below }
        ensures { result < below }
    {
        self.state = self
            .state
            .wrapping_mul(6364136223846793005)
            .wrapping_add(1442695040888963407);
        (self.state >> 33) % below
    }
}

// 0, or the last bit of a byte alone.
fn some_bit(draws: &mut Draws) -> u8 {
    if draws.next(2) == 0 { 0 } else { 0x80 }
}

// One of sixteen identifiers, which differ at bits 0, 1, 127 and 255.
fn some_id(draws: &mut Draws) -> Id {
    let mut bytes = [0; 32];
    bytes[0] = draws.next(4) as u8;
    bytes[15] = some_bit(draws);
    bytes[31] = some_bit(draws);
    Id::from_bytes(bytes)
}

// Votes for an identifier, fewer than so many.
fn some_votes(draws: &mut Draws, below: u32) -> (usize, u32)
    requires { 0 < below }
{
    let place = draws.next(6) as usize;
    (place, draws.next(u64::from(below)) as u32)
}

fn some_call(draws: &mut Draws) -> Call {
    match draws.next(8) {
        0 => Call::Add(some_id(draws)),
        1 => Call::Fail,
        _ => Call::Poll([some_votes(draws, 4), some_votes(draws, 3)]),
    }
}

// Whether a new tree answers as the plain counters do behind each of a hundred random calls.
fn stays_same<R: Rule, L: Ledger>(
    alloc: Global,
    beta: u32,
    draws: &mut Draws,
    steps: &mut Steps<L>,
) -> Result<bool, Fail> {
    let params = Params::check(4, 3, 3, beta, 1)?;
    let mut pair = Pair::<R>::new(alloc, params, some_id(draws))?;
    let same = pair.stays_same(alloc, draws, steps);
    drop(pair);
    Ok(same?)
}

fn compared<L: Ledger>(alloc: Global, blank: Blank) -> Result<bool, Fail>
    requires name { blank.name ≡ L.name }
    requires parts { blank.parts ≡ L.parts }
    requires some { 0 < L.parts }
{
    let mut steps = Steps::<L>::new(blank);
    let mut draws = Draws { state: 1 };
    for beta in 1..11 {
        let same = stays_same::<Snowball, L>(alloc, beta, &mut draws, &mut steps)?
            && stays_same::<Snowflake, L>(alloc, beta, &mut draws, &mut steps)?;
        if !same {
            return Ok(false);
        }
    }
    Ok(true)
}

#[test]
fn random_calls_beside_plain_counters(rt: HostRuntime) -> Result<(), Fail> {
    assert!(rt; compared::<Brand>(rt.alloc(), Blank::new(1))?);
    Ok(())
}
