ghost use Rattle.std.specs.Prelude.{◌≡◌, ℕ, ◌<◌, false, true, IfOk, OnOk, OnErr};

use std::alloc::{AllocError, Global};

/// A set of heights below 2^64 above a height, the floor. Contracts see the floor, and of each
/// height whether it is held.
/// Rule: AvalancheGo, snow/engine/snowman/bootstrap.
pub trait Kept: Sized + Drop {
    ghost use Rattle.snow_interval.specs.Model.Heights as model;

    /// The height above which heights are held.
    ghost floor: { Self → ℕ };

    /// The heights that are held.
    ghost held: { Self → model.Heights };

    /// Returns the empty set above the height `last`. It takes no memory.
    /// Rule: AvalancheGo, snow/engine/snowman/bootstrap.
    fn begin(alloc: Global, last: u64) -> Self
        ensures floor { floor result ≡ last }
        ensures held { (h : ℕ) → held result h ≡ false };

    /// Holds one height more, which is above the floor and isn't held. It returns whether a run
    /// begins there: whether the height below it is above the floor and isn't held. On want of
    /// memory it returns `AllocError`, and the set stays as it was.
    /// Rule: AvalancheGo, snow/engine/snowman/bootstrap.
    fn add(&mut self, height: u64) -> Result<bool, AllocError>
        requires above { floor self.old < height }
        requires new { held self.old height ≡ false }
        ensures floor { floor self.new ≡ floor self.old }
        ensures held { OnOk result ((h : ℕ) → held self.new h ≡ model.with_height (held self.old) height h) }
        ensures begins { IfOk result (λ begins. begins ≡ model.begins_run (floor self.old) (held self.old) height) }
        ensures err { OnErr result ((h : ℕ) → held self.new h ≡ held self.old h) };

    /// Returns whether a height is held. No height up to the floor is.
    /// Rule: AvalancheGo, snow/engine/snowman/bootstrap.
    fn contains(&self, height: u64) -> bool
        ensures held { result ≡ held self.now height }
        ensures above { result ≡ true → floor self.now < height };

    /// Returns the lowest height of the unbroken run of held heights up to this one, which is held.
    /// Rule: AvalancheGo, snow/engine/snowman/bootstrap.
    fn lowest(&self, height: u64) -> u64
        requires { held self.now height ≡ true }
        ensures { result ≡ model.lowest (held self.now) height };
}
