ghost use Rattle.std.specs.Prelude.{◌≤◌, ℕ, List, [], ◌++◌, length, take, OnOk, OnErr};
ghost use Rattle.snow_base.specs.Clauses.Outside.{AppendsFront, HasCause};
ghost use Rattle.snow_page.specs.Kept.Gathered.{Gathers};

use snow_base::{Failed, Sink, write_whole};

/// Where pieces wait, one behind another, until they are written.
/// Rule: this project's own.
pub trait Gather {
    /// The bytes that wait.
    ghost waiting: { Self → List ℕ };

    /// Appends a piece of at most 256 bytes to the bytes that wait. Where there is no room for it,
    /// it writes these first. It returns `Failed` only where the sink's count of faults rose or
    /// stands at 2^64-1; a front of what waited and of the piece was written then.
    /// Rule: this project's own.
    fn put<K: Sink>(&mut self, piece: &[u8], sink: &mut K) -> Result<(), Failed>
        requires { length piece.now ≤ 256 }
        ensures ok { OnOk result (Gathers (K.written sink.old) (waiting self.old) (K.written sink.new) (waiting self.new) piece.now) }
        ensures err { OnErr result (AppendsFront (K.written sink.old) (K.written sink.new) (waiting self.old ++ piece.now)) }
        ensures cause { HasCause (K.faults sink.old) (K.faults sink.new) result };

    /// Appends the first `len` bytes of a piece of at most 256 bytes, as `put` does. It may copy
    /// the whole piece, so that its length is known where that of the front isn't.
    /// Rule: this project's own.
    fn put_front<K: Sink>(&mut self, piece: &[u8], len: usize, sink: &mut K) -> Result<(), Failed>
        requires piece { length piece.now ≤ 256 }
        requires len { len ≤ length piece.now }
        ensures ok { OnOk result (Gathers (K.written sink.old) (waiting self.old) (K.written sink.new) (waiting self.new) (take len piece.now)) }
        ensures err { OnErr result (AppendsFront (K.written sink.old) (K.written sink.new) (waiting self.old ++ take len piece.now)) }
        ensures cause { HasCause (K.faults sink.old) (K.faults sink.new) result };
}

/// Where nothing waits: it writes each piece as it comes.
/// Rule: this project's own.
#[derive(Clone, Copy)]
pub struct AtOnce;

impl Gather for AtOnce {
    ghost waiting = { λ place. [] };

    #[tactic(auto, using(crate::proofs::Waiting::gathers_through))]
    fn put<K: Sink>(&mut self, piece: &[u8], sink: &mut K) -> Result<(), Failed> {
        write_whole(sink, piece)
    }

    #[tactic(auto, using(crate::proofs::Waiting::gathers_through))]
    fn put_front<K: Sink>(&mut self, piece: &[u8], len: usize, sink: &mut K) -> Result<(), Failed> {
        write_whole(sink, &piece[..len])
    }
}
