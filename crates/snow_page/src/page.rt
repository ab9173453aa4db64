ghost use Rattle.std.specs.Prelude.{◌≡◌, ◌≤◌, ◌+◌, ◌-◌, [], ◌++◌, length, take, vec_len, IfOk, OnOk, OnErr};
ghost use Rattle.std.specs.Io.KnownBytes.{Appends};
ghost use Rattle.snow_base.specs.Clauses.Outside.{AppendsFront, HasCause};
ghost use Rattle.snow_page.specs.Kept.Gathered.{Gathers};
ghost use Rattle.snow_lines.specs.Model.Text.{text, texts};

use crate::gathering::Gather;
use crate::printing::put_line;
use snow_base::limits::PIECE_BYTES;
use snow_base::{Failed, Sink, write_whole};
use snow_lines::Line;
use std::alloc::{AllocError, Global};
use std::marker::Model;

/// Text of lines that waits to be written, at most 65,536 bytes. A new page takes the memory for
/// all of them, and no later call takes any. Contracts see the bytes that wait.
/// Rule: this project's own.
#[derive(Drop)]
pub struct Page {
    bytes: Vec<u8>,
    len: usize,
}

impl Model for Page {
    ghost use Rattle.std.specs.Prelude.{ℕ, List, ◌≡◌, ◌≤◌, take, vec_len};
    ghost use Rattle.snow_base.specs.declared.limits.TheConstants.{PIECE_BYTES};

    ghost Value = { List ℕ };

    ghost view = { λ a. take a.len a.bytes.items };

    ghost invariant = { λ a. (a.len ≤ PIECE_BYTES) × (vec_len a.bytes ≡ PIECE_BYTES) };
}

impl Page {
    /// Returns a page on which nothing waits. On want of memory it returns `AllocError`.
    /// Rule: this project's own.
    pub fn new(alloc: Global) -> Result<Self, AllocError>
        ensures { IfOk result (λ page. page ≡ []) }
    {
        let bytes = filled(alloc, PIECE_BYTES)?;
        Ok(Page { bytes, len: 0 })
    }

    /// Appends a line. Where there is no room for a piece of it, it writes what waits first, all at
    /// once. It returns `Failed` only where the sink's count of faults rose or stands at 2^64-1. A
    /// front of what waited and of the line was written then, and the contract leaves open what
    /// waits.
    /// Rule: this project's own.
    #[inline(always)]
    pub fn print<K: Sink>(&mut self, line: &Line, sink: &mut K) -> Result<(), Failed>
        ensures ok { OnOk result (Gathers (K.written sink.old) self.old (K.written sink.new) self.new (text line.now)) }
        ensures err { OnErr result (AppendsFront (K.written sink.old) (K.written sink.new) (self.old ++ text line.now)) }
        ensures cause { HasCause (K.faults sink.old) (K.faults sink.new) result }
    {
        put_line(self, line, sink)
    }

    /// Appends lines, one after another, as `print` does, and fails as it does. Its test whether
    /// there is a line stands where it is called, since most frames have none.
    /// Rule: this project's own.
    #[tactic(auto, using(crate::proofs::Waiting::gathers_none))]
    #[inline(always)]
    pub fn print_all<K: Sink>(&mut self, lines: &[Line], sink: &mut K) -> Result<(), Failed>
        ensures ok { OnOk result (Gathers (K.written sink.old) self.old (K.written sink.new) self.new (texts lines.now)) }
        ensures err { OnErr result (AppendsFront (K.written sink.old) (K.written sink.new) (self.old ++ texts lines.now)) }
        ensures cause { HasCause (K.faults sink.old) (K.faults sink.new) result }
    {
        if lines.is_empty() {
            return Ok(());
        }
        self.print_some(lines, sink)
    }

    /// Appends lines, where it isn't known whether there are any.
    #[tactic(auto, using(crate::proofs::Waiting::gathers_none))]
    #[inline(never)]
    fn print_some<K: Sink>(&mut self, lines: &[Line], sink: &mut K) -> Result<(), Failed>
        ensures ok { OnOk result (Gathers (K.written sink.old) self.old (K.written sink.new) self.new (texts lines.now)) }
        ensures err { OnErr result (AppendsFront (K.written sink.old) (K.written sink.new) (self.old ++ texts lines.now)) }
        ensures cause { HasCause (K.faults sink.old) (K.faults sink.new) result }
    {
        for line in lines {
            self.print(line, sink)?;
        }
        Ok(())
    }

    /// Writes what waits, so that nothing waits any more. Where nothing waits it doesn't call the
    /// sink. It returns `Failed` only where the sink's count of faults rose or stands at 2^64-1; a
    /// front of what waits was written then, and the page stays as it was.
    /// Rule: this project's own.
    #[inline(never)]
    pub fn flush<K: Sink>(&mut self, sink: &mut K) -> Result<(), Failed>
        ensures ok { OnOk result (Appends (K.written sink.old) (K.written sink.new) self.old) }
        ensures empty { OnOk result (self.new ≡ []) }
        ensures err { OnErr result (AppendsFront (K.written sink.old) (K.written sink.new) self.old) }
        ensures kept { OnErr result (self.new ≡ self.old) }
        ensures uncalled { self.old ≡ [] → sink.new ≡ sink.old }
        ensures cause { HasCause (K.faults sink.old) (K.faults sink.new) result }
    {
        if self.len == 0 {
            return Ok(());
        }
        write_whole(sink, &self.bytes[..self.len])?;
        self.len = 0;
        Ok(())
    }

    /// Appends a piece for which there is room.
    #[inline(always)]
    fn append(&mut self, piece: &[u8])
        requires { length self.old + length piece.now ≤ PIECE_BYTES }
        ensures { self.new ≡ self.old ++ piece.now }
    {
        let end = self.len + piece.len();
        self.bytes[self.len..end].copy_from_slice(piece);
        self.len = end;
    }

    /// Takes so many bytes off the end.
    #[inline(always)]
    fn shorten(&mut self, n: usize)
        requires { n ≤ length self.old }
        ensures { self.new ≡ take (length self.old - n) self.old }
    {
        self.len -= n;
    }

    /// Appends the first bytes of a piece, for all of which there is room.
    #[tactic(auto, using(crate::proofs::Placed::shortened))]
    #[inline(always)]
    fn append_front(&mut self, piece: &[u8], len: usize)
        requires room { length self.old + length piece.now ≤ PIECE_BYTES }
        requires len { len ≤ length piece.now }
        ensures { self.new ≡ self.old ++ take len piece.now }
    {
        self.append(piece);
        self.shorten(piece.len() - len);
    }
}

/// Returns so many bytes, all zero.
fn filled(alloc: Global, len: usize) -> Result<Vec<u8>, AllocError>
    ensures { IfOk result (λ bytes. vec_len bytes ≡ len) }
{
    let mut bytes = Vec::new(alloc);
    bytes.resize(len, 0)?;
    Ok(bytes)
}

impl Gather for Page {
    ghost waiting = { λ page. page };

    #[inline(always)]
    fn put<K: Sink>(&mut self, piece: &[u8], sink: &mut K) -> Result<(), Failed> {
        self.put_front(piece, piece.len(), sink)
    }

    #[tactic(auto, using(crate::proofs::Waiting::gathers_waiting, crate::proofs::Waiting::gathers_written, snow_base::proofs::Known::front_of_more))]
    #[inline(always)]
    fn put_front<K: Sink>(&mut self, piece: &[u8], len: usize, sink: &mut K) -> Result<(), Failed> {
        if piece.len() > PIECE_BYTES - self.len {
            self.flush(sink)?;
        }
        self.append_front(piece, len);
        Ok(())
    }
}
