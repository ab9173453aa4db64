ghost use Rattle.std.specs.Prelude.{◌≡◌, ◌+◌};
ghost use Rattle.snow_interval.specs.Kept.Spans.{spanned, AreApart};

use crate::kept::Kept;
use crate::spanning;
use std::alloc::{AllocError, Global};
use std::marker::Model;

/// Heights below 2^64, from a lowest to a highest one, both included.
/// Rule: this project's own.
#[derive(Clone, Copy, Debug, PartialEq, Eq)]
pub struct Span {
    /// The lowest height.
    pub low: u64,
    /// The highest height.
    pub high: u64,
}

/// Heights as spans that rise and never touch. Adding and finding a height look at about the
/// logarithm of the number of spans.
/// Rule: this project's own.
#[derive(Drop)]
pub struct Intervals {
    last: u64,
    spans: Vec<Span>,
}

impl Model for Intervals {
    ghost use Rattle.std.specs.Prelude.{◌+◌};
    ghost use Rattle.snow_interval.specs.Kept.Spans.{Spans, AreApart};

    ghost Value = { Spans };

    ghost view = { λ a. record { floor = a.last; spans = a.spans.items } };

    ghost invariant = { λ a. AreApart (a.last + 1) a.spans.items };
}

impl Intervals {
    /// Returns the spans of the held heights. They rise, all are above the floor, and between two
    /// of them stands at least one height that isn't held.
    /// Rule: this project's own.
    pub fn spans(&self) -> &[Span]
        ensures spans { result.now ≡ self.now.spans }
        ensures apart { AreApart (self.now.floor + 1) result.now }
    {
        self.spans.as_slice()
    }
}

impl Kept for Intervals {
    ghost floor = { λ a. a.floor };

    ghost held = { λ a. spanned a.spans };

    fn begin(alloc: Global, last: u64) -> Self {
        Intervals {
            last,
            spans: Vec::new(alloc),
        }
    }

    fn add(&mut self, height: u64) -> Result<bool, AllocError> {
        let begins = self.last < height - 1 && !self.contains(height - 1);
        spanning::put(&mut self.spans, height)?;
        Ok(begins)
    }

    fn contains(&self, height: u64) -> bool {
        spanning::contains(self.spans.as_slice(), height)
    }

    fn lowest(&self, height: u64) -> u64 {
        spanning::lowest(self.spans.as_slice(), height)
    }
}
