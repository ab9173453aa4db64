ghost use Rattle.std.specs.Prelude.{◌≡◌, ◌^◌, ◌<◌, ◌≤◌, ◌++◌, [], length, drop, Ok, IfOk, OnOk, OnErr};
ghost use Rattle.std.specs.Io.KnownBytes.{IsAtEnd, Keeps};
ghost use Rattle.snow_base.specs.Clauses.Outside.{HasCause};
ghost use Rattle.snow_wire.specs.Clauses.Filling.{TakesIn};

use snow_base::limits::{FRAME_BYTES, PIECE_BYTES};
use snow_base::{Failed, Source};
use std::alloc::{AllocError, Global};
use std::marker::Model;

/// The longest frame with its length word, and a piece behind it. Room for these is mostly enough, so
/// that beyond it only what is wanted is filled with zeros.
const MOSTLY_ENOUGH: usize = 4 + FRAME_BYTES as usize + PIECE_BYTES;

/// Bytes, and room behind them into which a source can read. The room is filled with zeros once,
/// when it is made, and never cleared. Contracts see the bytes, and how many more fit.
#[derive(Drop)]
pub(crate) struct Buffer {
    bytes: Vec<u8>,
    len: usize,
}

impl Model for Buffer {
    ghost use Rattle.std.specs.Prelude.{take, ◌-◌, ◌≤◌, vec_len};
    ghost use Rattle.snow_wire.specs.Clauses.Filling.{Filled};

    ghost Value = { Filled };

    ghost view = { λ b. record { bytes = take b.len b.bytes.items; room = vec_len b.bytes - b.len } };

    ghost invariant = { λ b. b.len ≤ vec_len b.bytes };
}

impl Buffer {
    /// Returns no bytes, and no room.
    pub(crate) fn new(alloc: Global) -> Self
        ensures { result.bytes ≡ [] }
    {
        Buffer {
            bytes: Vec::new(alloc),
            len: 0,
        }
    }

    /// Returns the bytes.
    pub(crate) fn as_slice(&self) -> &[u8]
        ensures bytes { result.now ≡ self.now.bytes }
    {
        &self.bytes[..self.len]
    }

    /// Returns how many bytes there are.
    pub(crate) fn len(&self) -> usize
        ensures { result ≡ length self.now.bytes }
    {
        self.len
    }

    /// Returns how many more find room.
    pub(crate) fn room(&self) -> usize
        ensures { result ≡ self.now.room }
    {
        self.bytes.len() - self.len
    }

    /// Takes so many bytes off the front.
    #[tactic(auto, using(crate::proofs::Behind::moved))]
    pub(crate) fn discard_front(&mut self, n: usize)
        requires { n ≤ length self.old.bytes }
        ensures { self.new.bytes ≡ drop n self.old.bytes }
    {
        self.bytes.copy_within(n..self.len, 0);
        self.len -= n;
    }

    /// Makes room for so many more. On want of memory all stays as it was.
    #[tactic(auto, using(crate::proofs::Behind::grown))]
    pub(crate) fn make_room(&mut self, more: usize) -> Result<(), AllocError>
        requires { more < 2 ^ 63 }
        ensures room { OnOk result (more ≤ self.new.room) }
        ensures bytes { self.new.bytes ≡ self.old.bytes }
    {
        if more <= self.room() {
            return Ok(());
        }
        let twice = self.bytes.len().saturating_mul(2).min(MOSTLY_ENOUGH);
        let size = twice.max(self.len + more);
        self.bytes.resize(size, 0)?;
        Ok(())
    }

    /// Appends a piece for which there is room.
    pub(crate) fn append(&mut self, piece: &[u8])
        requires { length piece.now ≤ self.old.room }
        ensures { self.new.bytes ≡ self.old.bytes ++ piece.now }
    {
        let end = self.len + piece.len();
        self.bytes[self.len..end].copy_from_slice(piece);
        self.len = end;
    }

    /// Reads at most so many bytes behind the others, and returns how many: none at the end alone.
    /// At `Failed` it has taken nothing.
    #[tactic(auto, using(crate::proofs::Behind::read_behind))]
    pub(crate) fn read<S: Source>(&mut self, source: &mut S, most: usize) -> Result<usize, Failed>
        requires some { 0 < most }
        requires room { most ≤ self.old.room }
        ensures took { IfOk result (λ n. TakesIn (S.left source.old) (S.left source.new) self.old.bytes self.new.bytes n) }
        ensures few { IfOk result (λ n. n ≤ most) }
        ensures none { result ≡ Ok 0 → IsAtEnd (S.left source.new) }
        ensures err { OnErr result (self.new.bytes ≡ self.old.bytes) }
        ensures kept { OnErr result (Keeps (S.left source.old) (S.left source.new)) }
        ensures cause { HasCause (S.faults source.old) (S.faults source.new) result }
    {
        let len = self.len;
        let taken = source.read(&mut self.bytes[len..len + most])?;
        self.len = len + taken;
        Ok(taken)
    }
}
