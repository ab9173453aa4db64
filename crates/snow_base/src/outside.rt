ghost use Rattle.std.specs.Prelude.{ℕ, ◌<◌, ◌≤◌, List, Option, length, IfOk, OnOk, OnErr};
ghost use Rattle.std.specs.Io.KnownBytes.{Appends, ReadConsumes, WriteAppends};
ghost use Rattle.snow_base.specs.Clauses.Outside.{HasCause, AppendsFront};

/// Tells that a source or a sink failed. It comes only from a call in which the count of faults
/// rose or stands at its last value, 2^64-1.
/// Rule: this project's own.
#[derive(Clone, Copy, Debug, PartialEq, Eq)]
pub struct Failed;

/// Where bytes come from. Contracts see the bytes that are left, where the source tells them, and a
/// count of faults, which never falls.
/// Rule: this project's own.
pub trait Source {
    /// The bytes that are left, where the source tells them.
    ghost left: { Self → Option (List ℕ) };

    /// How often it has failed: a count that never falls.
    ghost faults: { Self → ℕ };

    /// Reads into the front of `buf` and returns how many bytes it put there, at most the length of
    /// `buf`. Into a buffer that isn't empty it puts none exactly at the end, where the source
    /// tells its bytes. It returns `Failed` only where the count of faults rose or stands at
    /// 2^64-1; it has taken nothing then.
    /// Rule: this project's own.
    fn read(&mut self, buf: &mut [u8]) -> Result<usize, Failed>
        ensures bound { IfOk result (λ n. n ≤ length buf.new) }
        ensures bytes { ReadConsumes (left self.old) (left self.new) result buf.new }
        ensures cause { HasCause (faults self.old) (faults self.new) result };
}

/// Where bytes go. Contracts see the bytes written, where the sink tells them, and a count of
/// faults, which never falls.
/// Rule: this project's own.
pub trait Sink {
    /// The bytes written so far, where the sink tells them.
    ghost written: { Self → Option (List ℕ) };

    /// How often it has failed: a count that never falls.
    ghost faults: { Self → ℕ };

    /// Writes bytes from the front of `bytes` and returns how many, at most their number. Of a
    /// piece that isn't empty it writes at least one. It returns `Failed` only where the count of
    /// faults rose or stands at 2^64-1; it has written nothing then.
    /// Rule: this project's own.
    fn write(&mut self, bytes: &[u8]) -> Result<usize, Failed>
        ensures bound { IfOk result (λ n. n ≤ length bytes.now) }
        ensures some { IfOk result (λ n. 0 < length bytes.now → 0 < n) }
        ensures bytes { WriteAppends (written self.old) (written self.new) result bytes.now }
        ensures cause { HasCause (faults self.old) (faults self.new) result };
}

/// Writes all of `bytes`, by as many writes as the sink needs. It returns `Failed` where a write
/// fails, which happens only where the sink's count of faults rose or stands at 2^64-1; a front of
/// `bytes` was written then, perhaps nothing.
/// Rule: this project's own.
#[tactic(auto, using(crate::proofs::Known::appending))]
pub fn write_whole<K: Sink>(sink: &mut K, bytes: &[u8]) -> Result<(), Failed>
    ensures ok { OnOk result (Appends (K.written sink.old) (K.written sink.new) bytes.now) }
    ensures err { OnErr result (AppendsFront (K.written sink.old) (K.written sink.new) bytes.now) }
    ensures cause { HasCause (K.faults sink.old) (K.faults sink.new) result }
{
    let mut rest = bytes;
    while !rest.is_empty() {
        let taken = sink.write(rest)?;
        rest = &rest[taken..];
    }
    Ok(())
}
