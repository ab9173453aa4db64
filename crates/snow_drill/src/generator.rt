ghost use Rattle.std.specs.Prelude.{◌≡◌, ◌<◌, map, OnOk, IfOk};
ghost use Rattle.byteorder.specs.Endian.{big_number};
ghost use Rattle.snow_drill.specs.Model.Generator.{following, last_of, values, picked};

use byteorder::{BigEndian, ByteOrder};
use std::alloc::{AllocError, Global};
use std::marker::Model;

/// A linear congruential generator of 64 bits. Contracts see its last value.
/// Rule: this project's own.
#[derive(Drop)]
pub struct Generator {
    x: u64,
}

impl Model for Generator {
    ghost use Rattle.std.specs.Prelude.{ℕ};

    ghost Value = { ℕ };

    ghost view = { λ a. a.x };
}

impl Generator {
    /// Returns the generator whose last value is the seed.
    /// Rule: this project's own.
    pub fn new(seed: u64) -> Self
        ensures { result ≡ seed }
    {
        Generator { x: seed }
    }

    /// Returns the next value.
    fn next(&mut self) -> u64
        ensures value { result ≡ following self.old }
        ensures state { self.new ≡ following self.old }
    {
        self.x = self
            .x
            .wrapping_mul(6364136223846793005)
            .wrapping_add(1442695040888963407);
        self.x
    }

    /// Makes the next value, and returns the number below `m` that it picks. `m` is at least 1.
    /// Rule: this project's own.
    pub fn pick(&mut self, m: u64) -> u64
        requires { 0 < m }
        ensures value { result ≡ picked m (following self.old) }
        ensures state { self.new ≡ following self.old }
    {
        (self.next() >> 33) % m
    }

    /// Makes the next values, so many, and returns each in eight bytes, the highest first. On want
    /// of memory it returns `AllocError`.
    /// Rule: this project's own.
    #[tactic(auto, unfolding(crate::specs::Model::Generator::values, crate::specs::Model::Generator::last_of))]
    pub fn values(&mut self, alloc: Global, n: u32) -> Result<Vec<[u8; 8]>, AllocError>
        ensures values { IfOk result (λ list. map (big_number 8) list.items ≡ values n self.old) }
        ensures state { OnOk result (self.new ≡ last_of n self.old) }
    {
        let mut list = Vec::with_capacity(alloc, n as usize)?;
        for _ in 0..n {
            list.push(spelled(self.next()))?;
        }
        Ok(list)
    }
}

// A value in eight bytes, the highest first.
#[tactic(auto, using(crate::proofs::Spelled::read_back))]
fn spelled(value: u64) -> [u8; 8]
    ensures { big_number 8 result ≡ value }
{
    let mut word = [0; 8];
    BigEndian::write_u64(&mut word, value);
    word
}
