ghost use Rattle.snow_interval.specs.Clauses.Listed.{listed};

use crate::kept::Kept;
use std::alloc::{AllocError, Global};
use std::marker::Model;

/// Heights in the order in which they were added. It looks for a height among them all.
/// Rule: this project's own.
#[derive(Drop)]
pub struct KeptList {
    last: u64,
    heights: Vec<u64>,
}

impl Model for KeptList {
    ghost use Rattle.snow_interval.specs.Clauses.Listed.{Listed, AreAbove};

    ghost Value = { Listed };

    ghost view = { λ a. record { floor = a.last; heights = a.heights.items } };

    ghost invariant = { λ a. AreAbove a.last a.heights.items };
}

impl Kept for KeptList {
    ghost floor = { λ a. a.floor };

    ghost held = { λ a. listed a.heights };

    fn begin(alloc: Global, last: u64) -> Self {
        KeptList {
            last,
            heights: Vec::new(alloc),
        }
    }

    fn add(&mut self, height: u64) -> Result<bool, AllocError> {
        let begins = self.last < height - 1 && !self.contains(height - 1);
        self.heights.push(height)?;
        Ok(begins)
    }

    fn contains(&self, height: u64) -> bool {
        self.heights.contains(&height)
    }

    fn lowest(&self, height: u64) -> u64 {
        let mut low = height;
        while low > 0 && self.contains(low - 1) {
            low -= 1;
        }
        low
    }
}
