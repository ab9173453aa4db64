ghost use Rattle.std.specs.Prelude.{◌≡◌, ◌≢◌, ℕ, ◌+◌, ◌*◌, ◌/◌, ◌%◌, ◌^◌, ◌<◌, ◌≤◌, All, length, get_or, vec_capacity, OnOk};
ghost use Rattle.snow_climb.specs.Kept.Climbing.{climber_total};
ghost use Rattle.snow_climb.specs.Kept.Ladder.{chain, mark_at, no_head, AreLinked};

use crate::climber::Climber;
use std::alloc::{AllocError, Global};
use std::marker::Model;

/// A climber that was put on a ladder. `next` tells who was put on its rung before: one more than
/// where that stands among all, and 0 where nobody was.
#[derive(Clone, Copy, Debug)]
pub(crate) struct Link {
    pub(crate) climber: Climber,
    pub(crate) next: usize,
}

/// Who was put on a rung last, as `next` of a link tells it, and how many votes stand there in all.
#[derive(Clone, Copy, Debug)]
pub(crate) struct Head {
    pub(crate) last: usize,
    pub(crate) count: u32,
}

/// Climbers, each on the rung of the place for which it looks. Putting one on, or taking those of
/// the highest rung off, costs nothing for the others. It takes no memory while it has room for
/// those that are put on. Contracts see those who stand on it, those who were taken off last, and
/// its room.
/// Rule: this project's own.
#[derive(Debug, Drop)]
pub struct Ladder {
    links: Vec<Link>,
    heads: Vec<Head>,
    // A bit for each rung, which is set where somebody stands.
    words: Vec<u64>,
    // Nobody stands on this rung or a higher one.
    low: usize,
    // Nobody stands on a higher rung.
    high: usize,
    // Who was put last on the rung that was taken off last, as `next` of a link tells it.
    taken: usize,
    // A poll has no more votes.
    votes: u32,
}

impl Model for Ladder {
    ghost use Rattle.std.specs.Prelude.{length, vec_capacity};
    ghost use Rattle.snow_climb.specs.Kept.Ladder.{Rungs, climbers_of, under, chain, IsHung};

    ghost Value = { Rungs };

    ghost view = { λ a. record {
      climbers = under a.low (climbers_of a.links.items);
      came = chain a.links.items a.taken;
      low = a.low;
      put = length a.links.items;
      most = vec_capacity a.links;
      votes = a.votes;
      rungs = length a.heads.items;
    } };

    ghost invariant = { λ a. IsHung a.links.items a.heads.items a.words.items a.low a.high a.taken };
}

// The bit of a rung is set.
fn mark(words: &mut [u64], rung: usize)
    requires { rung / 64 < length words.old }
    ensures here { mark_at words.new rung ≡ 1 }
    ensures others { (other : ℕ) → other ≢ rung → mark_at words.new other ≡ mark_at words.old other }
    ensures len { length words.new ≡ length words.old }
{
    words[rung / 64] |= 1 << (rung % 64);
}

// It isn't set any more.
fn unmark(words: &mut [u64], rung: usize)
    requires { rung / 64 < length words.old }
    ensures others { (other : ℕ) → other ≢ rung → mark_at words.new other ≡ mark_at words.old other }
    ensures len { length words.new ≡ length words.old }
{
    words[rung / 64] &= !(1 << (rung % 64));
}

// The highest rung whose bit is set in the first so many words; 0 where none is.
fn highest(words: &[u64], count: usize) -> usize
    requires within { count ≤ length words.now }
    requires small { 64 * count < 2 ^ 64 }
    ensures { (rung : ℕ) → rung < 64 * count → mark_at words.now rung ≡ 1 → rung ≤ result }
{
    let mut at = count;
    while at > 0 {
        let word = words[at - 1];
        if word > 0 {
            return 64 * (at - 1) + word.ilog2() as usize;
        }
        at -= 1;
    }
    0
}

// There is a bit for one rung more.
fn add_bit(words: &mut Vec<u64>, rungs: usize) -> Result<(), AllocError>
    requires small { rungs + 1 < 2 ^ 64 }
    requires covered { rungs < 64 * length words.old.items }
    ensures ok { OnOk result (rungs + 1 < 64 * length words.new.items) }
    ensures covered { rungs < 64 * length words.new.items }
{
    if (rungs + 1) / 64 < words.len() {
        return Ok(());
    }
    words.push(0)?;
    Ok(())
}

// There is one rung more.
fn add_rung(heads: &mut Vec<Head>, words: &mut Vec<u64>) -> Result<(), AllocError>
    requires { length heads.old.items < 64 * length words.old.items }
    ensures ok { OnOk result (length heads.new.items ≡ length heads.old.items + 1) }
    ensures more { length heads.old.items ≤ length heads.new.items }
    ensures covered { length heads.new.items < 64 * length words.new.items }
    ensures clear { (rung : ℕ) → get_or heads.new.items rung no_head ≡ get_or heads.old.items rung no_head }
{
    add_bit(words, heads.len())?;
    heads.push(Head { last: 0, count: 0 })?;
    Ok(())
}

impl Ladder {
    ghost use Rattle.std.specs.Prelude.{[], ◌∷◌, ◌++◌, IfOk, IsPermutation};
    ghost use Rattle.snow_climb.specs.Kept.Ladder.{under, up_from, IsReady};

    /// Returns a ladder for polls of so many votes, as long as nothing is pending. On want of
    /// memory it returns `AllocError`.
    /// Rule: this project's own.
    pub fn new(alloc: Global, votes: u32) -> Result<Self, AllocError>
        ensures ready { IfOk result (λ r. IsReady 0 r) }
        ensures votes { IfOk result (λ r. r.votes ≡ votes) }
    {
        let links = Vec::with_capacity(alloc, votes as usize)?;
        let heads = vec![in alloc; Head { last: 0, count: 0 }]?;
        let words = vec![in alloc; 0]?;
        Ok(Ladder {
            links,
            heads,
            words,
            low: 0,
            high: 0,
            taken: 0,
            votes,
        })
    }

    /// Makes room for polls over so many pending blocks, where nobody stands on the ladder. The
    /// ladder has at least as many rungs, so it adds at most one. On want of memory it returns
    /// `AllocError`; the ladder has no less room then, and the number of votes stays.
    /// Rule: this project's own.
    pub fn make_room(&mut self, pending: usize) -> Result<(), AllocError>
        requires low { (self.old).low ≡ 0 }
        requires pending { pending ≤ (self.old).rungs }
        ensures ok { OnOk result (IsReady pending self.new) }
        ensures low { (self.new).low ≡ 0 }
        ensures votes { (self.new).votes ≡ (self.old).votes }
        ensures most { (self.old).most ≤ (self.new).most }
        ensures rungs { (self.old).rungs ≤ (self.new).rungs }
    {
        self.links.clear();
        self.taken = 0;
        self.links.reserve(self.votes as usize + pending)?;
        if pending < self.heads.len() {
            return Ok(());
        }
        add_rung(&mut self.heads, &mut self.words)
    }

    /// Begins anew, where nobody stands on it. It takes no memory.
    pub(crate) fn begin(&mut self)
        requires { (self.old).low ≡ 0 }
        ensures { self.new ≡ record (self.old) { climbers = []; came = []; low = (self.old).rungs; put = 0 } }
    {
        self.links.clear();
        self.low = self.heads.len();
        self.high = 0;
        self.taken = 0;
    }

    /// Puts a climber on its rung, which is below all that were taken off. The ladder has room for
    /// one more, so it takes no memory.
    pub(crate) fn put(&mut self, climber: Climber)
        requires below { climber.place < (self.old).low }
        requires room { (self.old).put < (self.old).most }
        ensures { self.new ≡ record (self.old) { climbers = (self.old).climbers ++ climber ∷ []; put = (self.old).put + 1 } }
    {
        self.high = self.high.max(climber.place);
        let head = self.heads[climber.place];
        self.links.push_reserved(Link {
            climber,
            next: head.last,
        });
        self.heads[climber.place] = Head {
            last: self.links.len(),
            count: head.count.wrapping_add(climber.count),
        };
        mark(&mut self.words, climber.place);
    }

    /// Returns a rung above which nobody stands.
    /// Rule: this project's own.
    pub fn top(&self) -> usize
        ensures { All (λ c. c.place ≤ result) (self.now).climbers }
    {
        let bound = self.high.min(self.low);
        highest(&self.words, bound / 64 + 1)
    }

    /// Takes all off this rung, above which nobody stands; it is below those that were taken off
    /// before. It returns how many votes they are, modulo 2^32. It takes no memory.
    /// Rule: this project's own.
    pub fn take(&mut self, rung: usize) -> u32
        requires below { rung < (self.old).low }
        requires highest { All (λ c. c.place ≤ rung) (self.old).climbers }
        ensures climbers { (self.new).climbers ≡ under rung (self.old).climbers }
        ensures came { IsPermutation (up_from rung (self.old).climbers) (self.new).came }
        ensures total { result ≡ climber_total (self.new).came % 2 ^ 32 }
        ensures rest { self.new ≡ record (self.old) { climbers = (self.new).climbers; came = (self.new).came; low = rung } }
    {
        let head = self.heads[rung];
        self.heads[rung] = Head { last: 0, count: 0 };
        unmark(&mut self.words, rung);
        self.low = rung;
        self.taken = head.last;
        head.count
    }

    /// Returns those that were taken off last: the links of all, and who of them was put last on
    /// that rung, as `next` of a link tells it.
    pub(crate) fn came(&self) -> (&[Link], usize)
        ensures linked { AreLinked result.0.now }
        ensures within { result.1 ≤ length result.0.now }
        ensures all { chain result.0.now result.1 ≡ (self.now).came }
    {
        (self.links.as_slice(), self.taken)
    }
}
