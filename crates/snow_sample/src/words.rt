ghost use Rattle.std.specs.Prelude.{◌≡◌, ◌+◌, ◌≤◌, [], ◌++◌, length, Ok, IfErr, OnOk, OnErr};
ghost use Rattle.snow_base.specs.declared.limits.TheConstants.{MOST_WORDS};
ghost use Rattle.snow_sample.specs.Model.Roster.{total_weight};
ghost use Rattle.snow_sample.specs.Model.Words.{spelled};
ghost use Rattle.snow_sample.specs.Model.Sampling.{sample_of, IsFault, draw_count, AreOfDistinctNodes};

use crate::draws::Draws;
use crate::line::Line;
use crate::room::Room;
use crate::roster::Roster;
use crate::sampling::{SampleFault, draw_one};
use std::alloc::{AllocError, Global};
use std::marker::Model;

/// Random words below 2^64, first in first out, at most 65,536 of them. Contracts see the list of
/// them.
///
/// The room that a sample works in stays beside the words, for the next sample.
/// Rule: this project's own.
#[derive(Debug, Drop)]
pub struct Words {
    line: Line,
    room: Room,
}

impl Model for Words {
    ghost use Rattle.std.specs.Prelude.{ℕ, List};

    ghost Value = { List ℕ };

    ghost view = { λ a. a.line };
}

impl Words {
    /// Returns the empty queue of words. It takes no memory.
    /// Rule: this project's own.
    pub fn new(alloc: Global) -> Words
        ensures { result ≡ [] }
    {
        Words {
            line: Line::new(alloc),
            room: Room::new(alloc),
        }
    }

    /// Appends these words. At most 65,536 stand there afterwards. On want of memory it returns
    /// `AllocError`, and the words that stood there stay as they were.
    /// Rule: this project's own.
    pub fn push_all(&mut self, words: &[u64]) -> Result<(), AllocError>
        requires { length self.old + length words.now ≤ MOST_WORDS }
        ensures ok { OnOk result (self.new ≡ self.old ++ words.now) }
        ensures err { OnErr result (self.new ≡ self.old) }
    {
        self.line.push_all(words)
    }

    /// Appends the words that these bytes spell, the highest byte first. At most 65,536 stand there
    /// afterwards. On want of memory it returns `AllocError`, and the words that stood there stay as
    /// they were.
    /// Rule: this project's own.
    pub fn push_spelled(&mut self, words: &[[u8; 8]]) -> Result<(), AllocError>
        requires { length self.old + length words.now ≤ MOST_WORDS }
        ensures ok { OnOk result (self.new ≡ self.old ++ spelled words.now) }
        ensures err { OnErr result (self.new ≡ self.old) }
    {
        self.line.push_spelled(words)
    }

    /// Returns how many words there are, at most 65,536.
    /// Rule: this project's own.
    pub fn len(&self) -> usize
        ensures len { result ≡ length self.now }
        ensures small { result ≤ MOST_WORDS }
    {
        self.line.len()
    }

    // Draws `k` units, at most all, and counts the draws of their nodes. One draw needs no room. Each
    // draw takes a word, so that none is made where they can't suffice.
    pub(crate) fn draw(
        &mut self,
        roster: &Roster,
        k: u32,
        out: &mut Draws,
    ) -> Result<(), SampleFault>
        requires enough { k ≤ total_weight roster.now }
        requires empty { out.old ≡ [] }
        ensures sample { OnOk result (sample_of roster.now k self.old ≡ Ok (out.new, self.new)) }
        ensures fault { IfErr result (λ fault. IsFault (sample_of roster.now k self.old) self.old fault self.new) }
        ensures counts { OnOk result (draw_count out.new ≡ k) }
        ensures nodes { OnOk result (AreOfDistinctNodes out.new) }
    {
        let total = roster.total();
        self.room.inverses.begin(u64::from(k), total)?;
        if k == 1 {
            let inverse = self.room.inverses.at(0);
            return draw_one(roster, &mut self.line, inverse, out);
        }
        let draws = k as usize;
        if self.line.len() < draws {
            self.line.clear();
            return Err(SampleFault::WordsOut);
        }
        out.reserve(draws.min(roster.nodes().len()))?;
        self.room.shuffle.begin(draws, total)?;
        self.room.places.begin(roster)?;
        for j in 0..u64::from(k) {
            let Some(r) = self.line.choose(total - 1 - j, self.room.inverses.at(j)) else {
                return Err(SampleFault::WordsOut);
            };
            let unit = self.room.shuffle.exchange(j, r)?;
            self.room.places.count(out, roster, unit)?;
        }
        Ok(())
    }
}
