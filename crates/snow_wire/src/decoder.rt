ghost use Rattle.std.specs.Prelude.{◌≡◌, ◌+◌, ◌-◌, ◌^◌, ◌<◌, ◌≤◌, length, Ok, Err, OnOk, OnErr, IfOk, IfNone};
ghost use Rattle.std.specs.Borrow.{sem};
ghost use Rattle.std.specs.Io.BufRead.{Rests};
ghost use Rattle.std.specs.Io.KnownBytes.{IsAtEnd, Keeps};
ghost use Rattle.snow_base.specs.declared.limits.TheConstants.{FRAME_BYTES};
ghost use Rattle.snow_base.specs.Clauses.Outside.{Rose};
ghost use Rattle.snow_wire.specs.declared.decoder.ReadFault.TheVariants as fault;

use crate::buffer::Buffer;
use crate::frame::{Frame, TooLong, first_frame, too_long};
use snow_base::Source;
use snow_base::limits::PIECE_BYTES;
use std::alloc::{AllocError, Global};
use std::marker::Model;

/// The bytes that are left move to the front once this many times as many bytes were worked.
const TIMES: usize = 8;

/// Why `Decoder::read_from` took no bytes. The decoder stays as it was.
/// Rule: this project's own.
#[derive(Clone, Copy, Debug, PartialEq, Eq)]
pub enum ReadFault {
    /// The source failed.
    Source,
    /// There was no memory for them.
    Memory,
}

/// Finds the frames of a stream that comes in pieces. Contracts see how many frames it gave, and
/// the bytes behind them.
/// Rule: this project's own.
#[derive(Drop)]
pub struct Decoder {
    bytes: Buffer,
    start: usize,
    given: u64,
}

impl Model for Decoder {
    ghost use Rattle.std.specs.Prelude.{◌≤◌, drop, length};
    ghost use Rattle.snow_wire.specs.Clauses.Stream.{Intake};

    ghost Value = { Intake };

    ghost view = { λ d. record { given = d.given; rest = drop d.start d.bytes.bytes } };

    ghost invariant = { λ d. d.start ≤ length d.bytes.bytes };
}

impl Decoder {
    ghost use Rattle.snow_wire.specs.Clauses.Filling.{TakesIn};
    ghost use Rattle.snow_wire.specs.Clauses.Stream.{IsNext, fed, fresh, taken};
    ghost use Rattle.snow_wire.specs.contracts.decoder.Decoder.{the_row};

    /// Returns a decoder that got no byte yet. It takes no memory.
    /// Rule: this project's own.
    pub fn new(alloc: Global) -> Self
        ensures { result ≡ fresh }
    {
        Decoder {
            bytes: Buffer::new(alloc),
            start: 0,
            given: 0,
        }
    }

    /// Puts the next piece of the stream behind the bytes that are left. On want of memory it
    /// returns `AllocError`, and all stays as it was. Where it needs room it lets the bytes of
    /// frames go that were given already.
    /// Rule: this project's own.
    pub fn feed(&mut self, piece: &[u8]) -> Result<(), AllocError>
        ensures ok { OnOk result (self.new ≡ fed self.old piece.now) }
        ensures err { OnErr result (self.new ≡ self.old) }
    {
        self.discard_given(piece.len());
        self.bytes.make_room(piece.len())?;
        self.bytes.append(piece);
        Ok(())
    }

    /// Reads the next piece of the stream from a source, in place behind the bytes that are left,
    /// and returns how many bytes came: at most `most`, which is at least 1, and none at the end
    /// alone. It returns `ReadFault::Source` only where the source's count of faults rose or stands
    /// at 2^64-1, and `ReadFault::Memory` on want of memory. At a fault the decoder stays as it
    /// was, and the source has lost no byte.
    /// Rule: this project's own.
    pub fn read_from<S: Source>(&mut self, source: &mut S, most: u64) -> Result<usize, ReadFault>
        requires { 0 < most }
        ensures took { IfOk result (λ n. TakesIn (S.left source.old) (S.left source.new) self.old.rest self.new.rest n) }
        ensures given { self.new.given ≡ self.old.given }
        ensures few { IfOk result (λ n. n ≤ most) }
        ensures none { result ≡ Ok 0 → IsAtEnd (S.left source.new) }
        ensures err { OnErr result (self.new ≡ self.old) }
        ensures kept { OnErr result (Keeps (S.left source.old) (S.left source.new)) }
        ensures later { S.faults source.old ≤ S.faults source.new }
        ensures cause { result ≡ Err fault.Source → Rose (S.faults source.old) (S.faults source.new) }
    {
        let most = if most < PIECE_BYTES as u64 {
            most as usize
        } else {
            PIECE_BYTES
        };
        self.discard_given(most);
        if self.bytes.make_room(most).is_err() {
            return Err(ReadFault::Memory);
        }
        match self.bytes.read(source, most) {
            Ok(taken) => Ok(taken),
            Err(_) => Err(ReadFault::Source),
        }
    }

    // Discards the bytes of the frames that were given, before so many more come: where they are
    // most of those that are held; and, where room is wanted, also where they are half of them.
    fn discard_given(&mut self, more: usize)
        ensures { self.new ≡ self.old }
    {
        let rest = self.bytes.len() - self.start;
        if rest <= self.start / TIMES || (self.bytes.room() < more && rest <= self.start) {
            self.bytes.discard_front(self.start);
            self.start = 0;
        }
    }

    /// Takes the next frame off and returns it. It returns `Ok(None)` exactly where the bytes so
    /// far hold no further whole frame and no length above 2,097,152; fewer than 2,097,156 bytes
    /// are left then. It returns `TooLong` exactly where the next length is above 2,097,152, and
    /// again at each later call. In these two cases all stays as it was. Fewer than 2^64-1 frames
    /// were given before. It takes no memory.
    /// Rule: this project's own.
    pub fn next(&mut self) -> Result<Option<Frame<'_>>, TooLong>
        requires { self.old.given < 2 ^ 64 - 1 }
        ensures answer { IsNext self.old result }
        // The first frame is taken off the rest; without one all stays as it was.
        ensures* rests { sem 𝓛 (Rests the_row self.entry (λ new. new ≡ taken self.old)) }
        // What is kept for later is less than a frame.
        ensures held { IfOk result (λ frame. IfNone frame (length self.old.rest ≤ FRAME_BYTES + 3)) }
    {
        let rest = &self.bytes.as_slice()[self.start..];
        if let Some(length) = too_long(rest) {
            return Err(TooLong {
                number: self.given + 1,
                length,
            });
        }
        let Some((payload, _)) = first_frame(rest) else {
            return Ok(None);
        };
        self.start += 4 + payload.len();
        self.given += 1;
        Ok(Some(Frame {
            number: self.given,
            payload,
        }))
    }

    /// Returns the bytes that came behind the frames that were given.
    /// Rule: this project's own.
    pub fn rest(&self) -> &[u8]
        ensures { result.now ≡ self.now.rest }
    {
        &self.bytes.as_slice()[self.start..]
    }

    /// Returns how many bytes came behind the frames that were given.
    /// Rule: this project's own.
    pub fn rest_len(&self) -> usize
        ensures { result ≡ length self.now.rest }
    {
        self.bytes.len() - self.start
    }

    /// Returns how many frames were given, below 2^64.
    /// Rule: this project's own.
    pub fn given(&self) -> u64
        ensures { result ≡ self.now.given }
    {
        self.given
    }
}
