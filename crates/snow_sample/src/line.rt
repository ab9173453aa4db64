ghost use Rattle.std.specs.Prelude.{◌≡◌, ◌+◌, ◌^◌, ◌<◌, ◌≤◌, [], ◌++◌, length, drop, vec_len, vec_capacity, OnOk, OnErr, IfSome, IfNone};
ghost use Rattle.std.specs.Option.{option_map};
ghost use Rattle.snow_base.specs.declared.limits.TheConstants.{MOST_WORDS};
ghost use Rattle.snow_sample.specs.Model.Words.{choice, reduced, spelled, IsRest};

use crate::dividing::remainder;
use byteorder::{BigEndian, ByteOrder};
use std::alloc::{AllocError, Global};
use std::marker::Model;

// The low 63 bits of a word.
const LOW_BITS: u64 = 0x7fff_ffff_ffff_ffff;

// So many words are copied at a time.
const SOME: usize = 256;

// Random words, first in first out, at most 65,536 of them. Contracts see the list of them.
#[derive(Debug, Drop)]
pub(crate) struct Line {
    // So many in front were taken. They go where words are appended and few are left beside them.
    words: Vec<u64>,
    taken: usize,
}

impl Model for Line {
    ghost use Rattle.std.specs.Prelude.{ℕ, ◌-◌, ◌≤◌, List, drop, length};
    ghost use Rattle.snow_base.specs.declared.limits.TheConstants.{MOST_WORDS};

    ghost Value = { List ℕ };

    ghost view = { λ a. drop a.taken a.words.items };

    ghost invariant = { λ a. (a.taken ≤ length a.words.items) × (length a.words.items - a.taken ≤ MOST_WORDS) };
}

impl Line {
    // No words. It takes no memory.
    pub(crate) fn new(alloc: Global) -> Line
        ensures { result ≡ [] }
    {
        Line {
            words: Vec::new(alloc),
            taken: 0,
        }
    }

    // Appends words, where at most 65,536 stand there afterwards. After want of memory those that
    // stood there are as before.
    pub(crate) fn push_all(&mut self, words: &[u64]) -> Result<(), AllocError>
        requires { length self.old + length words.now ≤ MOST_WORDS }
        ensures ok { OnOk result (self.new ≡ self.old ++ words.now) }
        ensures err { OnErr result (self.new ≡ self.old) }
    {
        self.close_up();
        append(&mut self.words, words)
    }

    // Appends the words that these bytes spell, where at most 65,536 stand there afterwards. After
    // want of memory those that stood there are as before.
    pub(crate) fn push_spelled(&mut self, words: &[[u8; 8]]) -> Result<(), AllocError>
        requires { length self.old + length words.now ≤ MOST_WORDS }
        ensures ok { OnOk result (self.new ≡ self.old ++ spelled words.now) }
        ensures err { OnErr result (self.new ≡ self.old) }
    {
        self.close_up();
        append_spelled(&mut self.words, words)
    }

    // Moves the words that are left to the front, where more were taken: so at most a word is moved for
    // each that is taken, and the room stays small.
    fn close_up(&mut self)
        ensures { self.new ≡ self.old }
    {
        if self.taken > self.len() {
            cut_front(&mut self.words, self.taken);
            self.taken = 0;
        }
    }

    // How many words there are.
    pub(crate) fn len(&self) -> usize
        ensures len { result ≡ length self.now }
        ensures small { result ≤ MOST_WORDS }
    {
        self.words.len() - self.taken
    }

    // Takes all words out.
    pub(crate) fn clear(&mut self)
        ensures { self.new ≡ [] }
    {
        self.taken = self.words.len();
    }

    // A number from 0 to `n` by the words at the front, which are taken out. There is none where a
    // word past the last is asked for; no word is left then. Where `n + 1` is a power of two no word
    // is passed over, and the remainder is the bits that `n` has. `inverse` is 2^64 over `n + 1`: by any
    // other number it takes longer.
    pub(crate) fn choose(&mut self, n: u64, inverse: u64) -> Option<u64>
        requires { n + 1 < 2 ^ 63 }
        ensures chosen { choice n self.old ≡ option_map (λ r. (r, self.new)) result }
        ensures out { IfNone result (self.new ≡ []) }
        ensures within { IfSome result (λ r. r ≤ n) }
        ensures rest { IsRest self.old self.new }
        ensures fewer { IfSome result (λ r. length self.new < length self.old) }
    {
        reduce(self.words.as_slice(), &mut self.taken, n, inverse)
    }
}

// The low 63 bits of the first word from a place on that isn't passed over, modulo `n + 1`. The
// place is then behind that word, or behind all.
fn reduce(words: &[u64], at: &mut usize, n: u64, inverse: u64) -> Option<u64>
    requires few { n + 1 < 2 ^ 63 }
    requires begins { at.old ≤ length words.now }
    ensures reduced { reduced n (drop at.old words.now) ≡ option_map (λ r. (r, drop at.new words.now)) result }
    ensures out { IfNone result (at.new ≡ length words.now) }
    ensures within { IfSome result (λ r. r ≤ n) }
    ensures ends { at.new ≤ length words.now }
    ensures further { IfSome result (λ r. at.old < at.new) }
    ensures rest { IsRest (drop at.old words.now) (drop at.new words.now) }
{
    while *at < words.len() {
        let value = words[*at] & LOW_BITS;
        *at += 1;
        let r = remainder(value, n + 1, inverse);
        // A value is good where all values with its quotient are below 2^63.
        if value - r <= LOW_BITS - n {
            return Some(r);
        }
    }
    None
}

// Takes so many words off the front.
fn cut_front(words: &mut Vec<u64>, taken: usize)
    requires { taken ≤ length words.old.items }
    ensures { words.new.items ≡ drop taken words.old.items }
{
    let left = words.len() - taken;
    words.copy_within(taken.., 0);
    words.truncate(left);
}

// Appends all words, or none where there is no memory for them.
fn append(room: &mut Vec<u64>, words: &[u64]) -> Result<(), AllocError>
    ensures ok { OnOk result (room.new.items ≡ room.old.items ++ words.now) }
    ensures err { OnErr result (room.new.items ≡ room.old.items) }
{
    room.reserve(words.len())?;
    let mut rest = words;
    while !rest.is_empty() {
        let len = rest.len().min(SOME);
        append_some(room, &rest[..len]);
        rest = &rest[len..];
    }
    Ok(())
}

// Appends the words that these bytes spell, or none where there is no memory for them.
fn append_spelled(room: &mut Vec<u64>, words: &[[u8; 8]]) -> Result<(), AllocError>
    ensures ok { OnOk result (room.new.items ≡ room.old.items ++ spelled words.now) }
    ensures err { OnErr result (room.new.items ≡ room.old.items) }
{
    room.reserve(words.len())?;
    for word in words {
        room.push_reserved(BigEndian::read_u64(word));
    }
    Ok(())
}

// Appends a few words, for which there is room.
fn append_some(room: &mut Vec<u64>, some: &[u64])
    requires { vec_len room.old + length some.now ≤ vec_capacity room.old }
    ensures items { room.new.items ≡ room.old.items ++ some.now }
    ensures len { vec_len room.new ≡ vec_len room.old + length some.now }
    ensures capacity { vec_capacity room.old ≤ vec_capacity room.new }
{
    let taken = room.extend_from_slice(some);
    prove!(taken.is_ok());
    let _ = taken;
}
