ghost use Rattle.std.specs.Prelude.{◌≡◌, ℕ, ◌+◌, ◌^◌, ◌<◌, false};
ghost use Rattle.snow_flake.specs.Model.Counter.{stepped};
ghost use Rattle.snow_flake.specs.Model.Rule.{answer_of};
ghost use Rattle.snow_flake.specs.Kept.Instance.{counter_of};
ghost use Rattle.snow_trie.specs.Kept.Counted.{fork_counter, standing_at};
ghost use Rattle.snow_trie.specs.Kept.Growing.{fork_of};

use crate::run::Run;
use snow_flake::{Binary, Params, Rule};

/// A binary node: the counter of one bit, on which identifiers below it differ. `seen` is the
/// number of the poll that visited it last. Stamps are below 2^64.
/// Rule: AvalancheGo, snow/consensus/snowball.
#[derive(Clone, Copy, Debug)]
pub struct Fork {
    pub counter: Binary,
    pub seen: u64,
}

impl Fork {
    /// Returns the counter of a unary node as that of one bit. `bit` is what all identifiers there
    /// had so far.
    /// Rule: AvalancheGo, snow/consensus/snowball.
    pub fn of(run: &Run, bit: bool) -> Self
        ensures { result ≡ fork_of run.now bit }
    {
        Fork {
            counter: run.counter.extend(bit),
            seen: run.seen,
        }
    }

    /// Returns the counter as it stands after this many polls: failed, where the last one didn't
    /// come here.
    /// Rule: AvalancheGo, snow/consensus/snowball.
    pub fn standing(&self, now: u64) -> Binary
        ensures { result ≡ standing_at now (self.now).seen (self.now).counter }
    {
        let mut counter = self.counter;
        if self.seen != now {
            counter.fail();
        }
        counter
    }

    // The counter fails where it stands, if the last of so many polls didn't come here.
    fn catch_up(&mut self, now: u64)
        ensures { self.new ≡ record (self.old) { counter = standing_at now (self.old).seen (self.old).counter } }
    {
        if self.seen != now {
            self.counter.fail();
        }
    }

    /// Takes a poll with votes for both bits; the counter follows the one that has AlphaPreference
    /// votes. `before` is the number of polls so far, below 2^64-1, and the stamp becomes one more.
    /// It returns `false` only where the rule answers as it did.
    /// Rule: AvalancheGo, snow/consensus/snowball.
    pub fn poll<R: Rule>(
        &mut self,
        params: &Params,
        for_zero: u32,
        for_one: u32,
        before: u64,
    ) -> bool
        requires { before + 1 < 2 ^ 64 }
        ensures counter { fork_counter (before + 1) self.new ≡ stepped params.now (fork_counter before self.old) for_zero for_one }
        ensures seen { (self.new).seen ≡ before + 1 }
        ensures steady { result ≡ false → answer_of R.answer (fork_counter 0 self.new) ≡ answer_of R.answer (fork_counter 0 self.old) }
    {
        let answer = self.answer::<R>();
        self.catch_up(before);
        step(&mut self.counter, params, for_zero, for_one);
        self.seen = before + 1;
        self.answer::<R>() != answer
    }

    /// Returns how the rule answers, whatever the stamp.
    /// Rule: AvalancheGo, snow/consensus/snowball.
    pub fn answer<R: Rule>(&self) -> bool
        ensures { (now : ℕ) → result ≡ answer_of R.answer (fork_counter now self.now) }
    {
        self.counter.preference::<R>()
    }

    /// Puts the stamp to 0. The counter then says at 0 polls what it said after this many.
    /// Rule: AvalancheGo, snow/consensus/snowball.
    pub fn restamp(&mut self, now: u64)
        ensures counter { fork_counter 0 self.new ≡ fork_counter now self.old }
        ensures seen { (self.new).seen ≡ 0 }
    {
        self.counter = self.standing(now);
        self.seen = 0;
    }
}

// The bit step with votes for both bits: those for 0 are followed where they reach AlphaPreference.
fn step(counter: &mut Binary, params: &Params, for_zero: u32, for_one: u32)
    ensures { counter_of counter.new ≡ stepped params.now (counter_of counter.old) for_zero for_one }
{
    if params.alpha_preference() <= for_zero {
        counter.apply(params, for_zero, false);
    } else {
        counter.apply(params, for_one, true);
    }
}
