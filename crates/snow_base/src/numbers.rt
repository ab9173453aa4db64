ghost use Rattle.std.specs.Prelude.{◌≡◌};

use std::marker::Model;

/// Request numbers, drawn one after the other, each once. Contracts see the last one drawn, or 0
/// where none was.
/// Rule: this project's own.
#[derive(Drop)]
pub struct Numbers {
    last: u32,
}

impl Model for Numbers {
    ghost use Rattle.std.specs.Prelude.{ℕ};

    ghost Value = { ℕ };

    ghost view = { λ n. n.last };
}

impl Numbers {
    ghost use Rattle.snow_base.specs.Model.Numbers.{next_number, last_after};

    /// Returns the numbers before the first draw.
    /// Rule: this project's own.
    pub fn new() -> Self
        ensures { result ≡ 0 }
    {
        Numbers { last: 0 }
    }

    /// Returns the next number: 1, 2, and so on, up to 2^32-1. It returns `None` exactly after
    /// 2^32-1 draws, and the last number then stays.
    /// Rule: this project's own.
    pub fn draw(&mut self) -> Option<u32>
        ensures number { result ≡ next_number self.old }
        ensures last { self.new ≡ last_after self.old }
    {
        let next = self.last.checked_add(1)?;
        self.last = next;
        Some(next)
    }
}
