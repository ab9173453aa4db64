ghost use Rattle.std.specs.Prelude.{◌≡◌, ◌+◌, ◌^◌, ◌<◌, ◌≤◌, [], length, All, take, ◌-◌, IsOk, IfOk, OnOk, OnErr, vec_len, vec_capacity};
ghost use Rattle.std.specs.List.{insert};
ghost use Rattle.snow_base.specs.Model.Votes.{total_count, most_count, IsInBitOrder, HasVotesFor, added, IsPlaceOf};
ghost use Rattle.snow_base.specs.Clauses.Gathered.{one_each};

use crate::block::Vote;
use crate::identifier::Id;
use std::alloc::{AllocError, Global};
use std::cmp::Ordering;
use std::marker::Model;

/// Votes in bit order: identifiers distinct, counts above 0, at most 2^32-1 votes in all. Contracts
/// see the list of votes, and the room: how many more identifiers fit without new memory. A poll is
/// such a bag of at most K votes.
/// Rule: AvalancheGo, snow/consensus/snowman.
#[derive(Debug, Drop)]
pub struct Bag {
    votes: Vec<Vote>,
    total: u32,
}

impl Model for Bag {
    ghost use Rattle.std.specs.Prelude.{◌-◌, vec_len, vec_capacity};
    ghost use Rattle.snow_base.specs.Model.Votes.{Votes, IsTally};

    ghost Value = { Votes };

    ghost view = { λ a. record { list = a.votes.items; room = vec_capacity a.votes - vec_len a.votes } };

    ghost invariant = { λ a. IsTally a.votes.items a.total };
}

impl Bag {
    /// Returns the bag without a vote. It takes no memory.
    /// Rule: AvalancheGo, snow/consensus/snowman.
    pub fn new(alloc: Global) -> Self
        ensures { result.list ≡ [] }
    {
        Bag {
            votes: Vec::new(alloc),
            total: 0,
        }
    }

    /// Returns the bag with one vote for each of these identifiers, which may repeat: there are
    /// fewer than 2^32. Its total is their number. On want of memory it returns `AllocError`.
    /// Rule: AvalancheGo, snow/consensus/snowman.
    pub fn of(alloc: Global, ids: &[Id]) -> Result<Self, AllocError>
        requires { length ids.now < 2 ^ 32 }
        ensures votes { IfOk result (λ votes. votes.list ≡ one_each ids.now) }
        ensures total { IfOk result (λ votes. total_count votes.list ≡ length ids.now) }
    {
        // In bit order each one goes to the end, and no other moves.
        let mut sorted = Vec::from_slice(alloc, ids)?;
        sorted.sort_unstable_by(|a, b| a.bit_cmp(b));
        let mut votes = Bag::new(alloc);
        votes.reserve(sorted.len())?;
        for id in &sorted {
            id.named();
            votes.add(*id, 1)?;
        }
        Ok(votes)
    }

    /// Makes room for `n` more identifiers. With that much room already it takes no memory and
    /// can't fail. On want of memory it returns `AllocError`. The votes stay as they are in each
    /// case, and the room never shrinks.
    /// Rule: AvalancheGo, snow/consensus/snowman.
    pub fn reserve(&mut self, n: usize) -> Result<(), AllocError>
        ensures list { self.new.list ≡ self.old.list }
        ensures ok { OnOk result (n ≤ self.new.room) }
        ensures fits { n ≤ self.old.room → IsOk result }
        ensures room { self.old.room ≤ self.new.room }
    {
        self.votes.reserve(n)
    }

    /// Adds `n` votes for `id`. There is at least one, and the total stays below 2^32. An
    /// identifier that has votes gets `n` more; a new one takes its place in bit order. With room,
    /// or where `id` has votes already, the call takes no memory and can't fail. On want of memory
    /// it returns `AllocError`, and the votes stay as they were.
    /// Rule: AvalancheGo, snow/consensus/snowman.
    #[inline(always)]
    pub fn add(&mut self, id: Id, n: u32) -> Result<(), AllocError>
        requires some { 1 ≤ n }
        requires total { total_count self.old.list + n < 2 ^ 32 }
        ensures ok { OnOk result (self.new.list ≡ added self.old.list id n) }
        ensures counted { OnOk result (total_count self.new.list ≡ total_count self.old.list + n) }
        ensures err { OnErr result (self.new.list ≡ self.old.list) }
        ensures fits { 0 < self.old.room → IsOk result }
        ensures known { HasVotesFor self.old.list id → IsOk result × (self.old.room ≤ self.new.room) }
        ensures room { self.old.room ≤ self.new.room + 1 }
        ensures room_kept { OnErr result (self.old.room ≤ self.new.room) }
        ensures places { self.old.room + length self.old.list ≤ self.new.room + length self.new.list }
    {
        count_in(&mut self.votes, id, n)?;
        self.total += n;
        Ok(())
    }

    /// Returns how many votes there are in all, below 2^32.
    /// Rule: AvalancheGo, snow/consensus/snowman.
    pub fn total(&self) -> u32
        ensures { result ≡ total_count self.now.list }
    {
        self.total
    }

    /// Returns the votes in bit order. Each identifier stands once, each count is above 0, and the
    /// counts add up to less than 2^32.
    /// Rule: AvalancheGo, snow/consensus/snowman.
    pub fn entries(&self) -> &[Vote]
        ensures list { result.now ≡ self.now.list }
        ensures order { IsInBitOrder result.now }
        ensures counts { All (λ v. 0 < v.count) result.now }
        ensures total { total_count result.now < 2 ^ 32 }
    {
        self.votes.as_slice()
    }

    /// Returns the greatest count, or 0 where the bag is empty.
    /// Rule: AvalancheGo, snow/consensus/snowman.
    pub fn most(&self) -> u32
        ensures { result ≡ most_count self.now.list }
    {
        let mut most = 0;
        for vote in &self.votes {
            most = most.max(vote.count);
        }
        most
    }

    /// Takes all votes out. Their places become room, so as many identifiers fit again without
    /// memory.
    /// Rule: AvalancheGo, snow/consensus/snowman.
    pub fn clear(&mut self)
        ensures list { self.new.list ≡ [] }
        ensures room { self.old.room + length self.old.list ≤ self.new.room }
    {
        self.votes.clear();
        self.total = 0;
    }
}

// Among so few identifiers one is found by looking at each.
const FEW: usize = 8;

// Adds `n` votes for `id` to votes in bit order. Most that come one after another are for the last
// identifier: those are counted at once.
#[inline(always)]
fn count_in(votes: &mut Vec<Vote>, id: Id, n: u32) -> Result<(), AllocError>
    requires order { IsInBitOrder votes.old.items }
    requires total { total_count votes.old.items + n < 2 ^ 32 }
    ensures ok { OnOk result (votes.new.items ≡ added votes.old.items id n) }
    ensures err { OnErr result (votes.new.items ≡ votes.old.items) }
    ensures fits { vec_len votes.old < vec_capacity votes.old → IsOk result }
    ensures known { HasVotesFor votes.old.items id → IsOk result × (vec_len votes.new ≡ vec_len votes.old) }
    ensures len { vec_len votes.new ≤ vec_len votes.old + 1 }
    ensures len_kept { OnErr result (vec_len votes.new ≡ vec_len votes.old) }
    ensures capacity { vec_capacity votes.old ≤ vec_capacity votes.new }
{
    let len = votes.len();
    if len == 0 {
        votes.reserve(1)?;
        votes.push_reserved(Vote { id, count: n });
        return Ok(());
    }
    if votes[len - 1].id.word(0) == id.word(0) && votes[len - 1].id == id {
        votes[len - 1].count += n;
        return Ok(());
    }
    count_past(votes, &id, n)
}

// Adds votes where the last ones are for another identifier.
#[inline(never)]
fn count_past(votes: &mut Vec<Vote>, id: &Id, n: u32) -> Result<(), AllocError>
    requires order { IsInBitOrder votes.old.items }
    requires total { total_count votes.old.items + n < 2 ^ 32 }
    ensures ok { OnOk result (votes.new.items ≡ added votes.old.items id.now n) }
    ensures err { OnErr result (votes.new.items ≡ votes.old.items) }
    ensures fits { vec_len votes.old < vec_capacity votes.old → IsOk result }
    ensures known { HasVotesFor votes.old.items id.now → IsOk result × (vec_len votes.new ≡ vec_len votes.old) }
    ensures len { vec_len votes.new ≤ vec_len votes.old + 1 }
    ensures len_kept { OnErr result (vec_len votes.new ≡ vec_len votes.old) }
    ensures capacity { vec_capacity votes.old ≤ vec_capacity votes.new }
{
    match place(votes.as_slice(), id) {
        Ok(at) => {
            votes[at].count += n;
            Ok(())
        }
        Err(at) => put_in(votes, at, id, n),
    }
}

// Puts new votes at their place.
#[inline(always)]
fn put_in(votes: &mut Vec<Vote>, at: usize, id: &Id, n: u32) -> Result<(), AllocError>
    requires { at ≤ vec_len votes.old }
    ensures ok { OnOk result (votes.new.items ≡ insert votes.old.items at (record { id = id.now; count = n })) }
    ensures err { OnErr result (votes.new.items ≡ votes.old.items) }
    ensures fits { vec_len votes.old < vec_capacity votes.old → IsOk result }
    ensures len { OnOk result (vec_len votes.new ≡ vec_len votes.old + 1) }
    ensures len_kept { OnErr result (vec_len votes.new ≡ vec_len votes.old) }
    ensures capacity { vec_capacity votes.old ≤ vec_capacity votes.new }
{
    let end = votes.len();
    votes.reserve(1)?;
    votes.push_reserved(Vote { id: *id, count: n });
    if at < end {
        move_in(votes.as_mut_slice(), at, id, n);
    }
    Ok(())
}

// Puts new votes at their place over the last ones: those between move up by one.
#[inline(always)]
fn move_in(row: &mut [Vote], at: usize, id: &Id, n: u32)
    requires { at < length row.old }
    ensures { row.new ≡ insert (take (length row.old - 1) row.old) at (record { id = id.now; count = n }) }
{
    let mut free = row.len() - 1;
    while free > at {
        row[free] = row[free - 1];
        free -= 1;
    }
    row[at] = Vote { id: *id, count: n };
}

// Where the votes for `id` stand, or else where new ones belong. Identifiers that come in bit order
// aren't searched for.
#[inline(always)]
fn place(votes: &[Vote], id: &Id) -> Result<usize, usize>
    requires { IsInBitOrder votes.now }
    ensures { IsPlaceOf votes.now id.now result }
{
    if votes.len() <= FEW {
        return place_among_few(votes, id);
    }
    match votes[votes.len() - 1].id.bit_cmp(id) {
        Ordering::Less => Err(votes.len()),
        _ => search(votes, id),
    }
}

// The place among few votes, by looking at one after another, the last one first.
#[inline(always)]
fn place_among_few(votes: &[Vote], id: &Id) -> Result<usize, usize>
    requires { IsInBitOrder votes.now }
    ensures { IsPlaceOf votes.now id.now result }
{
    let mut at = votes.len();
    while at > 0 {
        match votes[at - 1].id.bit_cmp(id) {
            Ordering::Less => return Err(at),
            Ordering::Equal => return Ok(at - 1),
            Ordering::Greater => at -= 1,
        }
    }
    Err(0)
}

// The place by a search.
fn search(votes: &[Vote], id: &Id) -> Result<usize, usize>
    requires { IsInBitOrder votes.now }
    ensures { IsPlaceOf votes.now id.now result }
{
    votes.binary_search_by(|vote| vote.id.bit_cmp(id))
}
