ghost use Rattle.std.specs.Prelude.{◌≡◌, ◌+◌, ◌<◌, ◌≤◌, ◌||◌, [], length, take, nat_lt, is_err, IsOk, IfOk, OnOk, OnErr};
ghost use Rattle.std.specs.Io.KnownBytes.{ReadConsumes, WriteAppends};
ghost use Rattle.snow_base.specs.Clauses.Outside.{HasCause};
ghost use Rattle.snow_base.specs.Clauses.Memory.{raised, is_listed, faults_after, read_len};

use crate::items::{Bytes, Nums};
use crate::outside::{Failed, Sink, Source};
use std::alloc::{AllocError, Global};
use std::marker::Model;

/// A source of bytes in memory, which fails at calls that are chosen beforehand. Tests choose with
/// it how a stream is cut into pieces and which reads fail.
/// Rule: this project's own.
#[derive(Drop)]
pub struct MemSource {
    bytes: Bytes,
    at: usize,
    piece: usize,
    failing: Nums,
    calls: u64,
    faults: u64,
}

impl Model for MemSource {
    ghost use Rattle.std.specs.Prelude.{◌≤◌, length, drop};
    ghost use Rattle.snow_base.specs.Clauses.Memory.{Reading};

    ghost Value = { Reading };

    ghost view = { λ a. record { left = drop a.at a.bytes; piece = a.piece; failing = a.failing; calls = a.calls; faults = a.faults } };

    ghost invariant = { λ a. (a.at ≤ length a.bytes) × (1 ≤ a.piece) };
}

impl MemSource {
    /// Returns a source of these bytes. A read gives at most `piece` of them, and `piece` is at
    /// least 1. It fails exactly at the calls whose numbers, counted from 1, are in `failing`; such
    /// a call takes nothing. No call and no fault has been counted yet.
    /// Rule: this project's own.
    pub fn new(bytes: Bytes, piece: usize, failing: Nums) -> Self
        requires { 1 ≤ piece }
        ensures { result ≡ record { left = bytes; piece = piece; failing = failing; calls = 0; faults = 0 } }
    {
        MemSource {
            bytes,
            at: 0,
            piece,
            failing,
            calls: 0,
            faults: 0,
        }
    }
}

impl Source for MemSource {
    ghost use Rattle.std.specs.Prelude.{Some};

    ghost left = { λ source. Some source.left };

    ghost faults = { λ source. source.faults };

    /// Gives the least of three: the bytes that are left, those that fit into `buf`, and those of a
    /// piece. It fails exactly where the number of the call is listed, and then takes nothing.
    fn read(&mut self, buf: &mut [u8]) -> Result<usize, Failed>
        ensures bound { IfOk result (λ n. n ≤ length buf.new) }
        ensures bytes { ReadConsumes (Some self.old.left) (Some self.new.left) result buf.new }
        ensures cause { HasCause self.old.faults self.new.faults result }

        ensures fails { is_err result ≡ is_listed self.old.failing self.new.calls }
        ensures size { IfOk result (λ n. n ≡ read_len self.old.left self.old.piece buf.new) }
        ensures calls { self.new.calls ≡ raised self.old.calls 1 }
        ensures faults { self.new.faults ≡ faults_after result self.old.faults }
        ensures piece { self.new.piece ≡ self.old.piece }
        ensures failing { self.new.failing ≡ self.old.failing }
    {
        self.calls = self.calls.saturating_add(1);
        if self.failing.list().contains(&self.calls) {
            self.faults = self.faults.saturating_add(1);
            return Err(Failed);
        }
        let given = give(&self.bytes.list()[self.at..], self.piece, buf);
        self.at += given;
        Ok(given)
    }
}

/// A sink that keeps its bytes in memory, and fails at calls that are chosen beforehand. A write
/// takes the whole piece or fails.
/// Rule: this project's own.
#[derive(Drop)]
pub struct MemSink {
    written: Vec<u8>,
    room: usize,
    failing: Nums,
    calls: u64,
    faults: u64,
}

impl Model for MemSink {
    ghost use Rattle.std.specs.Prelude.{◌+◌, ◌≤◌, vec_len, vec_capacity};
    ghost use Rattle.snow_base.specs.Clauses.Memory.{Writing};

    ghost Value = { Writing };

    ghost view = { λ a. record { written = a.written.items; room = a.room; failing = a.failing; calls = a.calls; faults = a.faults } };

    ghost invariant = { λ a. vec_len a.written + a.room ≤ vec_capacity a.written };
}

impl MemSink {
    /// Returns an empty sink without room. A call fails exactly where its number, counted from 1,
    /// is in `failing`, or its piece is longer than the room. It takes nothing then. `new` takes no
    /// memory.
    /// Rule: this project's own.
    pub fn new(alloc: Global, failing: Nums) -> Self
        ensures { result ≡ record { written = []; room = 0; failing = failing; calls = 0; faults = 0 } }
    {
        MemSink {
            written: Vec::new(alloc),
            room: 0,
            failing,
            calls: 0,
            faults: 0,
        }
    }

    /// Makes room for `n` more bytes. With that much room already it can't fail. On want of memory
    /// it returns `AllocError`. The bytes and the counts stay as they are in each case, and the
    /// room never shrinks.
    /// Rule: this project's own.
    pub fn reserve(&mut self, n: usize) -> Result<(), AllocError>
        ensures ok { OnOk result (n ≤ self.new.room) }
        ensures fits { n ≤ self.old.room → IsOk result }
        ensures rest { self.new ≡ record self.old { room = self.new.room } }
        ensures room { self.old.room ≤ self.new.room }
    {
        self.written.reserve(n)?;
        self.room = self.written.capacity() - self.written.len();
        Ok(())
    }

    /// Returns the bytes that the sink took, in the order in which they came.
    /// Rule: this project's own.
    pub fn bytes(&self) -> &[u8]
        ensures { result.now ≡ self.now.written }
    {
        self.written.as_slice()
    }
}

impl Sink for MemSink {
    ghost use Rattle.std.specs.Prelude.{Some};

    ghost written = { λ sink. Some sink.written };

    ghost faults = { λ sink. sink.faults };

    /// Takes the whole piece, and no memory. It fails exactly where the number of the call is
    /// listed or the piece is longer than the room, and then takes nothing.
    fn write(&mut self, bytes: &[u8]) -> Result<usize, Failed>
        ensures bound { IfOk result (λ n. n ≤ length bytes.now) }
        ensures some { IfOk result (λ n. 0 < length bytes.now → 0 < n) }
        ensures bytes { WriteAppends (Some self.old.written) (Some self.new.written) result bytes.now }
        ensures cause { HasCause self.old.faults self.new.faults result }

        ensures fails { is_err result ≡ (is_listed self.old.failing self.new.calls || nat_lt self.old.room (length bytes.now)) }
        ensures whole { IfOk result (λ n. n ≡ length bytes.now) }
        ensures room { OnOk result (self.new.room + length bytes.now ≡ self.old.room) }
        ensures room_kept { OnErr result (self.new.room ≡ self.old.room) }
        ensures calls { self.new.calls ≡ raised self.old.calls 1 }
        ensures faults { self.new.faults ≡ faults_after result self.old.faults }
        ensures failing { self.new.failing ≡ self.old.failing }
    {
        self.calls = self.calls.saturating_add(1);
        if self.failing.list().contains(&self.calls) || bytes.len() > self.room {
            self.faults = self.faults.saturating_add(1);
            return Err(Failed);
        }
        let taken = self.written.extend_from_slice(bytes);
        prove!(taken.is_ok());
        let _ = taken;
        self.room -= bytes.len();
        Ok(bytes.len())
    }
}

// Copies bytes from the front of those that are left into the front of `buf`, and answers how many.
pub(crate) fn give(left: &[u8], piece: usize, buf: &mut [u8]) -> usize
    ensures size { result ≡ read_len left.now piece buf.new }
    ensures bytes { take result buf.new ≡ take result left.now }
{
    let given = left.len().min(buf.len()).min(piece);
    buf[..given].copy_from_slice(&left[..given]);
    given
}
