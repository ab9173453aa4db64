ghost use Rattle.std.specs.Prelude.{◌≡◌, ◌+◌, ◌^◌, ◌<◌, Bool, true, false};
ghost use Rattle.snow_flake.specs.Model.Counter.{stepped};
ghost use Rattle.snow_flake.specs.Kept.Instance.{on_side, at_bit};
ghost use Rattle.snow_trie.specs.Kept.Counted.{run_counter, standing_at};
ghost use Rattle.snow_trie.specs.Kept.Growing.{fresh_run};

use snow_base::Id;
use snow_flake::{Params, Unary};

/// A unary node: one counter for all bits from where it stands up to, not including, `to`, which is
/// at most 256. On these all identifiers below it agree with `id`. `seen` is the number of the poll
/// that visited it last.
/// Rule: AvalancheGo, snow/consensus/snowball.
#[derive(Clone, Copy, Debug)]
pub struct Run {
    pub id: Id,
    pub to: u16,
    pub counter: Unary,
    pub seen: u64,
}

impl Run {
    /// Returns the node of an identifier that was just added, up to its end.
    /// Rule: AvalancheGo, snow/consensus/snowball.
    pub fn fresh(id: &Id) -> Self
        ensures { result ≡ fresh_run id.now }
    {
        Run {
            id: *id,
            to: 256,
            counter: Unary::new(),
            seen: 0,
        }
    }

    /// Returns the counter as it stands after this many polls: failed, where the last one didn't
    /// come here.
    /// Rule: AvalancheGo, snow/consensus/snowball.
    pub fn standing(&self, now: u64) -> Unary
        ensures { (bit : Bool) → at_bit result bit ≡ standing_at now (self.now).seen (at_bit (self.now).counter bit) }
    {
        let mut counter = self.counter;
        if self.seen != now {
            counter.fail();
        }
        counter
    }

    /// Takes a poll with these votes, all for identifiers with the bits of this node. `before` is
    /// the number of polls so far, below 2^64-1, and the stamp becomes one more. `id` and `to`
    /// stay.
    /// Rule: AvalancheGo, snow/consensus/snowball.
    pub fn poll(&mut self, params: &Params, votes: u32, before: u64)
        requires { before + 1 < 2 ^ 64 }
        ensures counter { (bit : Bool) → run_counter (before + 1) self.new bit ≡ stepped params.now
            (run_counter before self.old bit) (on_side false votes bit) (on_side true votes bit) }
        ensures id { (self.new).id ≡ (self.old).id }
        ensures to { (self.new).to ≡ (self.old).to }
        ensures seen { (self.new).seen ≡ before + 1 }
    {
        let mut counter = self.standing(before);
        counter.apply(params, votes);
        self.counter = counter;
        self.seen = before + 1;
    }

    /// Puts the stamp to 0. The counter then says at 0 polls what it said after this many. `id` and
    /// `to` stay.
    /// Rule: AvalancheGo, snow/consensus/snowball.
    pub fn restamp(&mut self, now: u64)
        ensures counter { (bit : Bool) → run_counter 0 self.new bit ≡ run_counter now self.old bit }
        ensures id { (self.new).id ≡ (self.old).id }
        ensures to { (self.new).to ≡ (self.old).to }
        ensures seen { (self.new).seen ≡ 0 }
    {
        self.counter = self.standing(now);
        self.seen = 0;
    }
}
