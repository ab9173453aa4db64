ghost use Rattle.std.specs.Prelude.{◌≡◌, ◌<◌, ◌≤◌, length, IfOk};
ghost use Rattle.std.specs.Io.KnownBytes.{ReadConsumes, WriteAppends};
ghost use Rattle.snow_base.specs.Clauses.Outside.{HasCause};
ghost use Rattle.snow_base.specs.Clauses.Memory.{faults_after};

use crate::outside::{Failed, Sink, Source};
use std::io::{ErrorKind, Read, Write};
use std::marker::Model;

/// A source over a reader of std, as standard input. Contracts see the bytes that the reader tells,
/// and a count of faults below 2^64. Standard input tells no bytes.
/// Rule: this project's own.
#[derive(Drop)]
pub struct ReadSource<R: Read + Drop> {
    reader: R,
    faults: u64,
}

impl<R: Read + Drop> Model for ReadSource<R> {
    ghost use Rattle.snow_base.specs.Clauses.Memory.{Passing};

    ghost Value = { Passing };

    ghost view = { λ a. record { known = R.remaining a.reader; faults = a.faults } };
}

impl<R: Read + Drop> ReadSource<R> {
    /// Returns the source over this reader. It has no fault yet, and it reads nothing before its
    /// first call.
    /// Rule: this project's own.
    pub fn new(reader: R) -> Self
        ensures { result ≡ record { known = R.remaining reader; faults = 0 } }
    {
        ReadSource { reader, faults: 0 }
    }
}

impl<R: Read + Drop> Source for ReadSource<R> {
    ghost left = { λ source. source.known };

    ghost faults = { λ source. source.faults };

    /// Reads, and tries an interrupted read again, which is no fault.
    fn read(&mut self, buf: &mut [u8]) -> Result<usize, Failed>
        ensures bound { IfOk result (λ n. n ≤ length buf.new) }
        ensures bytes { ReadConsumes self.old.known self.new.known result buf.new }
        ensures cause { HasCause self.old.faults self.new.faults result }

        ensures faults { self.new.faults ≡ faults_after result self.old.faults }
    {
        let result = read_retrying(&mut self.reader, buf);
        if result.is_err() {
            self.faults = self.faults.saturating_add(1);
        }
        result
    }
}

/// A sink over a writer of std, as standard output or standard error. Contracts see the bytes that
/// the writer tells, and a count of faults below 2^64. The standard streams tell no bytes.
/// Rule: this project's own.
#[derive(Drop)]
pub struct WriteSink<W: Write + Drop> {
    writer: W,
    faults: u64,
}

impl<W: Write + Drop> Model for WriteSink<W> {
    ghost use Rattle.snow_base.specs.Clauses.Memory.{Passing};

    ghost Value = { Passing };

    ghost view = { λ a. record { known = W.contents a.writer; faults = a.faults } };
}

impl<W: Write + Drop> WriteSink<W> {
    /// Returns the sink over this writer. It has no fault yet, and it writes nothing before its
    /// first call.
    /// Rule: this project's own.
    pub fn new(writer: W) -> Self
        ensures { result ≡ record { known = W.contents writer; faults = 0 } }
    {
        WriteSink { writer, faults: 0 }
    }
}

impl<W: Write + Drop> Sink for WriteSink<W> {
    ghost written = { λ sink. sink.known };

    ghost faults = { λ sink. sink.faults };

    /// Writes, and tries an interrupted write again, which is no fault. A write that takes none of
    /// a piece that isn't empty is one.
    fn write(&mut self, bytes: &[u8]) -> Result<usize, Failed>
        ensures bound { IfOk result (λ n. n ≤ length bytes.now) }
        ensures some { IfOk result (λ n. 0 < length bytes.now → 0 < n) }
        ensures bytes { WriteAppends self.old.known self.new.known result bytes.now }
        ensures cause { HasCause self.old.faults self.new.faults result }

        ensures faults { self.new.faults ≡ faults_after result self.old.faults }
    {
        let result = write_retrying(&mut self.writer, bytes);
        if result.is_err() {
            self.faults = self.faults.saturating_add(1);
        }
        result
    }
}

// One read, tried again as long as it is interrupted.
#[tactic(auto, using(crate::proofs::Known::consuming))]
fn read_retrying<R: Read>(reader: &mut R, buf: &mut [u8]) -> Result<usize, Failed>
    ensures bound { IfOk result (λ n. n ≤ length buf.new) }
    ensures bytes { ReadConsumes (R.remaining reader.old) (R.remaining reader.new) result buf.new }
{
    for _ in 0..u64::MAX {
        match reader.read(buf) {
            Ok(given) => return Ok(given),
            Err(error) if error.kind() == ErrorKind::Interrupted => {}
            Err(_) => return Err(Failed),
        }
    }
    Err(Failed)
}

// One write, tried again as long as it is interrupted.
#[tactic(auto, using(crate::proofs::Known::appending))]
fn write_retrying<W: Write>(writer: &mut W, bytes: &[u8]) -> Result<usize, Failed>
    ensures bound { IfOk result (λ n. n ≤ length bytes.now) }
    ensures some { IfOk result (λ n. 0 < length bytes.now → 0 < n) }
    ensures bytes { WriteAppends (W.contents writer.old) (W.contents writer.new) result bytes.now }
{
    for _ in 0..u64::MAX {
        match writer.write(bytes) {
            Ok(0) if !bytes.is_empty() => return Err(Failed),
            Ok(taken) => return Ok(taken),
            Err(error) if error.kind() == ErrorKind::Interrupted => {}
            Err(_) => return Err(Failed),
        }
    }
    Err(Failed)
}
