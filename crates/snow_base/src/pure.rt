ghost use Rattle.std.specs.Prelude.{◌≡◌, ℕ, ◌<◌, ◌≤◌, length, IfOk};
ghost use Rattle.std.specs.Io.KnownBytes.{ReadConsumes, WriteAppends};
ghost use Rattle.snow_base.specs.Clauses.Outside.{HasCause};
ghost use Rattle.snow_base.specs.Clauses.Memory.{raised, read_len};

use crate::items::Bytes;
use crate::memory::give;
use crate::outside::{Failed, Sink, Source};
use std::marker::Model;

/// A source of bytes in memory that never fails. Its count of faults is always 0.
/// Rule: this project's own.
#[derive(Drop)]
pub struct PureSource {
    bytes: Bytes,
    at: usize,
    piece: usize,
}

impl Model for PureSource {
    ghost use Rattle.std.specs.Prelude.{◌≤◌, length, drop};
    ghost use Rattle.snow_base.specs.Clauses.Memory.{PureReading};

    ghost Value = { PureReading };

    ghost view = { λ a. record { left = drop a.at a.bytes; piece = a.piece } };

    ghost invariant = { λ a. (a.at ≤ length a.bytes) × (1 ≤ a.piece) };
}

impl PureSource {
    /// Returns a source of these bytes. A read gives at most `piece` of them, and `piece` is at
    /// least 1.
    /// Rule: this project's own.
    pub fn new(bytes: Bytes, piece: usize) -> Self
        requires { 1 ≤ piece }
        ensures { result ≡ record { left = bytes; piece = piece } }
    {
        PureSource {
            bytes,
            at: 0,
            piece,
        }
    }
}

impl Source for PureSource {
    ghost use Rattle.std.specs.Prelude.{Some};

    ghost left = { λ source. Some source.left };

    ghost faults = { λ _. 0 };

    fn read(&mut self, buf: &mut [u8]) -> Result<usize, Failed>
        ensures bound { IfOk result (λ n. n ≤ length buf.new) }
        ensures bytes { ReadConsumes (Some self.old.left) (Some self.new.left) result buf.new }
        ensures cause { HasCause 0 0 result }

        ensures size { result ≡ Ok (read_len self.old.left self.old.piece buf.new) }
        ensures piece { self.new.piece ≡ self.old.piece }
    {
        let given = give(&self.bytes.list()[self.at..], self.piece, buf);
        self.at += given;
        Ok(given)
    }
}

/// A sink that takes every piece whole, keeps nothing of it and never fails. Contracts see how many
/// bytes it took.
/// Rule: this project's own.
#[derive(Drop)]
pub struct PureSink {
    taken: u64,
}

impl Model for PureSink {
    ghost use Rattle.std.specs.Prelude.{ℕ};

    ghost Value = { ℕ };

    ghost view = { λ a. a.taken };
}

impl PureSink {
    /// Returns the sink that took nothing yet.
    /// Rule: this project's own.
    pub fn new() -> Self
        ensures { result ≡ 0 }
    {
        PureSink { taken: 0 }
    }

    /// Returns how many bytes it took. The count stays at 2^64-1 once it is there.
    /// Rule: this project's own.
    pub fn taken(&self) -> u64
        ensures { result ≡ self.now }
    {
        self.taken
    }
}

impl Sink for PureSink {
    ghost use Rattle.std.specs.Prelude.{None};

    ghost written = { λ _. None };

    ghost faults = { λ _. 0 };

    fn write(&mut self, bytes: &[u8]) -> Result<usize, Failed>
        ensures bound { IfOk result (λ n. n ≤ length bytes.now) }
        ensures some { IfOk result (λ n. 0 < length bytes.now → 0 < n) }
        ensures bytes { WriteAppends None None result bytes.now }
        ensures cause { HasCause 0 0 result }

        ensures whole { result ≡ Ok (length bytes.now) }
        ensures taken { self.new ≡ raised self.old (length bytes.now) }
    {
        self.taken = self.taken.saturating_add(bytes.len() as u64);
        Ok(bytes.len())
    }
}
