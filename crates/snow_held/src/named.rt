ghost use Rattle.std.specs.Prelude.{◌≡◌, ℕ, ◌∷◌, ◌++◌, [], filter, true, false, Some, None, OnOk, OnErr};
ghost use Rattle.std.specs.BTreeMap.{is_at};
ghost use Rattle.std.specs.Bool.{OnTrue};
ghost use Rattle.std.specs.Option.{is_some};
ghost use Rattle.std.specs.Ordering.{nat_cmp};
ghost use Rattle.snow_held.specs.declared.backlog.Kept.{Kept};
ghost use Rattle.snow_held.specs.Kept.Arrivals.{at_arrival, is_among};

use crate::backlog::Backlog;
use std::alloc::{AllocError, Global};
use std::marker::Model;

/// The numbers of arrival of the replies that named a block, in order of arrival. The number of a
/// reply that left may stay for a while: at most twice as many stand here as replies are held, and
/// eight.
#[derive(Drop)]
pub(crate) struct Named {
    numbers: Vec<u64>,
    // How many of these replies are held. It decides only when numbers go.
    live: usize,
}

impl Model for Named {
    ghost use Rattle.std.specs.Prelude.{List, ℕ};

    ghost Value = { List ℕ };

    ghost view = { λ a. a.numbers.items };
}

impl Named {
    /// No number. It takes no memory.
    pub(crate) fn new(alloc: Global) -> Self
        ensures { result ≡ [] }
    {
        Named {
            numbers: Vec::new(alloc),
            live: 0,
        }
    }

    /// All numbers.
    pub(crate) fn numbers(&self) -> &[u64]
        ensures { result.now ≡ self.now }
    {
        &self.numbers
    }

    /// Puts the number of a reply behind the others. On want of memory all stays as it was.
    pub(crate) fn push(&mut self, arrival: u64) -> Result<(), AllocError>
        ensures ok { OnOk result (self.new ≡ self.old ++ arrival ∷ []) }
        ensures err { OnErr result (self.new ≡ self.old) }
    {
        self.numbers.push(arrival)?;
        self.live = self.live.saturating_add(1);
        Ok(())
    }

    /// The reply with a number left. Whether no number stays. It takes no memory.
    pub(crate) fn leave(&mut self, backlog: &Backlog, arrival: u64) -> bool
        requires { at_arrival backlog.now arrival ≡ None }
        ensures kept { (a : ℕ) (k : Kept) → at_arrival backlog.now a ≡ Some k → is_among self.old a ≡ true → is_among self.new a ≡ true }
        ensures none { OnTrue result (self.new ≡ []) }
    {
        self.drop_last(arrival);
        self.live = self.live.saturating_sub(1);
        if self.is_stale() {
            self.tidy(backlog);
        }
        self.numbers.is_empty()
    }

    // The last number goes, if it is this one. So a reply that isn't kept for want of memory leaves
    // nothing behind.
    fn drop_last(&mut self, arrival: u64)
        ensures { (a : ℕ) → is_at (nat_cmp arrival) a ≡ false → is_among self.new a ≡ is_among self.old a }
    {
        let Some(last) = self.numbers.last().copied() else {
            return;
        };
        if last == arrival {
            let _ = self.numbers.pop();
        }
    }

    // Whether there are too many numbers of replies that left.
    fn is_stale(&self) -> bool {
        self.live == 0 || self.numbers.len() > self.live.saturating_mul(2).saturating_add(8)
    }

    // The numbers of replies that left go.
    fn tidy(&mut self, backlog: &Backlog)
        ensures { self.new ≡ filter (λ a. is_some (at_arrival backlog.now a)) self.old }
    {
        self.numbers.retain(|arrival| backlog.has(*arrival));
        self.live = self.numbers.len();
    }
}
