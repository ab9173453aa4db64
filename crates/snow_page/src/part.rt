ghost use Rattle.std.specs.Prelude.{◌≡◌, ◌<◌, ◌≤◌, ℕ, List, [], ◌∷◌, ◌++◌, length, flat_map, codes, decimal, OnOk, OnErr};
ghost use Rattle.hex.specs.Hex.{encode_lower};
ghost use Rattle.snow_base.specs.Clauses.Outside.{AppendsFront, HasCause};
ghost use Rattle.snow_page.specs.Kept.Gathered.{Gathers};
ghost use Rattle.snow_lines.specs.Model.Names.{line_name};
ghost use Rattle.snow_lines.specs.Model.Text.{spaced, draw_word, block_word, kind_word, query_word, restart_word, why_word};

use crate::gathering::Gather;
use crate::whole::node_and_id;
use snow_base::{Bytes, Failed, Id, NodeId, Sink};
use snow_digits::{marked, marked_long, marked_short, write_hex, write_id, write_node};
use snow_lines::{Draw, DropWhy, Kind, QueryWhy, RestartWhy, SkipKind};

/// A part of a line. Each but the first word begins with a space.
/// Rule: this project's own.
pub trait Part {
    /// Its bytes.
    ghost text: { Self → List ℕ };

    /// Appends the part's text to the bytes that wait. It returns `Failed` only where the sink's
    /// count of faults rose or stands at 2^64-1; a front of what waited and of the text was written
    /// then.
    /// Rule: this project's own.
    fn put_into<G: Gather, K: Sink>(&self, out: &mut G, sink: &mut K) -> Result<(), Failed>
        ensures ok { OnOk result (Gathers (K.written sink.old) (G.waiting out.old) (K.written sink.new) (G.waiting out.new) (text self.now)) }
        ensures err { OnErr result (AppendsFront (K.written sink.old) (K.written sink.new) (G.waiting out.old ++ text self.now)) }
        ensures cause { HasCause (K.faults sink.old) (K.faults sink.new) result };
}

impl Part for Kind {
    ghost text = { line_name };

    fn put_into<G: Gather, K: Sink>(&self, out: &mut G, sink: &mut K) -> Result<(), Failed> {
        out.put(self.word(), sink)
    }
}

impl Part for DropWhy {
    ghost text = { λ why. spaced (why_word why) };

    fn put_into<G: Gather, K: Sink>(&self, out: &mut G, sink: &mut K) -> Result<(), Failed> {
        out.put(self.spaced_word(), sink)
    }
}

impl Part for QueryWhy {
    ghost text = { λ why. spaced (query_word why) };

    fn put_into<G: Gather, K: Sink>(&self, out: &mut G, sink: &mut K) -> Result<(), Failed> {
        out.put(self.spaced_word(), sink)
    }
}

impl Part for RestartWhy {
    ghost text = { λ why. spaced (restart_word why) };

    fn put_into<G: Gather, K: Sink>(&self, out: &mut G, sink: &mut K) -> Result<(), Failed> {
        out.put(self.spaced_word(), sink)
    }
}

impl Part for SkipKind {
    ghost text = { λ kind. spaced (kind_word kind) };

    fn put_into<G: Gather, K: Sink>(&self, out: &mut G, sink: &mut K) -> Result<(), Failed> {
        out.put(self.spaced_word(), sink)
    }
}

impl Part for u64 {
    ghost text = { λ number. spaced (decimal number) };

    fn put_into<G: Gather, K: Sink>(&self, out: &mut G, sink: &mut K) -> Result<(), Failed> {
        let mut buffer = [0; 21];
        out.put(marked(b' ', *self, &mut buffer), sink)
    }
}

impl Part for u32 {
    ghost text = { λ number. spaced (decimal number) };

    fn put_into<G: Gather, K: Sink>(&self, out: &mut G, sink: &mut K) -> Result<(), Failed> {
        put_number(out, b" ", *self, sink)
    }
}

/// How often, behind what it counts.
#[derive(Drop)]
struct Times(u32);

impl Part for Times {
    ghost text = { λ times. 42 ∷ decimal times.0 };

    fn put_into<G: Gather, K: Sink>(&self, out: &mut G, sink: &mut K) -> Result<(), Failed> {
        put_number(out, b"*", self.0, sink)
    }
}

/// The first word of a line that asks a node for a block, and the number of the get.
/// Rule: this project's own.
#[derive(Drop)]
pub struct Get(pub u32);

impl Part for Get {
    ghost text = { λ get. codes "get " ++ decimal get.0 };

    #[inline(always)]
    fn put_into<G: Gather, K: Sink>(&self, out: &mut G, sink: &mut K) -> Result<(), Failed> {
        put_number(out, b"get ", self.0, sink)
    }
}

/// The first word of a line of a frame that is passed over, and the number of the frame.
/// Rule: this project's own.
#[derive(Drop)]
pub struct Skipped(pub u64);

impl Part for Skipped {
    ghost text = { λ skipped. codes "skip " ++ decimal skipped.0 };

    #[inline(always)]
    fn put_into<G: Gather, K: Sink>(&self, out: &mut G, sink: &mut K) -> Result<(), Failed> {
        let mut buffer = [0; 64];
        let (piece, len) = marked_long(b"skip ", self.0, &mut buffer);
        out.put_front(piece, len, sink)
    }
}

/// Why a frame is passed over, which is the last word of its line, with its newline.
/// Rule: this project's own.
#[derive(Drop)]
pub struct LastKind(pub SkipKind);

impl Part for LastKind {
    ghost text = { λ last. spaced (kind_word last.0) ++ 10 ∷ [] };

    #[inline(always)]
    fn put_into<G: Gather, K: Sink>(&self, out: &mut G, sink: &mut K) -> Result<(), Failed> {
        let (piece, len) = self.0.line_end();
        out.put_front(piece, len, sink)
    }
}

/// Appends a mark and a number in decimal behind it.
#[inline(always)]
fn put_number<const M: usize, G: Gather, K: Sink>(
    out: &mut G,
    mark: &[u8; M],
    number: u32,
    sink: &mut K,
) -> Result<(), Failed>
    requires { M ≤ 6 }
    ensures ok { OnOk result (Gathers (K.written sink.old) (G.waiting out.old) (K.written sink.new) (G.waiting out.new) (mark.now ++ decimal number)) }
    ensures err { OnErr result (AppendsFront (K.written sink.old) (K.written sink.new) (G.waiting out.old ++ (mark.now ++ decimal number))) }
    ensures cause { HasCause (K.faults sink.old) (K.faults sink.new) result }
{
    let mut buffer = [0; 32];
    let (piece, len) = marked_short(mark, u64::from(number), &mut buffer);
    out.put_front(piece, len, sink)
}

impl Part for Id {
    ghost text = { λ id. spaced (encode_lower id) };

    fn put_into<G: Gather, K: Sink>(&self, out: &mut G, sink: &mut K) -> Result<(), Failed> {
        let mut word = [b' '; 65];
        write_id(self, &mut word[1..]);
        out.put(&word, sink)
    }
}

/// A node and an identifier, which are the last words of a line, with its newline.
/// Rule: this project's own.
#[derive(Drop)]
pub struct NodeAndId<'a>(pub &'a NodeId, pub &'a Id);

impl<'a> Part for NodeAndId<'a> {
    ghost text = { λ words. spaced (encode_lower words.0.now) ++ (spaced (encode_lower words.1.now) ++ 10 ∷ []) };

    #[inline(always)]
    fn put_into<G: Gather, K: Sink>(&self, out: &mut G, sink: &mut K) -> Result<(), Failed> {
        out.put(&node_and_id(self.0, self.1), sink)
    }
}

impl Part for NodeId {
    ghost text = { λ node. spaced (encode_lower node) };

    fn put_into<G: Gather, K: Sink>(&self, out: &mut G, sink: &mut K) -> Result<(), Failed> {
        let mut word = [b' '; 41];
        write_node(self, &mut word[1..]);
        out.put(&word, sink)
    }
}

impl Part for Draw {
    ghost text = { λ draw. spaced (draw_word draw) };

    // Most nodes are drawn a few times: then the whole word is one piece.
    fn put_into<G: Gather, K: Sink>(&self, out: &mut G, sink: &mut K) -> Result<(), Failed> {
        if self.count < 10 {
            return out.put(&short_word(self), sink);
        }
        put_two(out, &self.node, &Times(self.count), sink)
    }
}

/// Returns the word of a draw whose count has one digit, behind a space.
#[inline(always)]
fn short_word(draw: &Draw) -> [u8; 43]
    requires { draw.now.count < 10 }
    ensures { result ≡ spaced (draw_word draw.now) }
{
    let mut word = *b" 0000000000000000000000000000000000000000*0";
    word[42] = b'0' + draw.count as u8;
    write_node(&draw.node, &mut word[1..41]);
    word
}

impl Part for Bytes {
    ghost text = { λ bytes. spaced (block_word bytes) };

    #[tactic(auto, using(crate::proofs::Waiting::gathers_then, crate::proofs::Waiting::gathers_then_front))]
    fn put_into<G: Gather, K: Sink>(&self, out: &mut G, sink: &mut K) -> Result<(), Failed> {
        if self.list().is_empty() {
            return out.put(b" .", sink);
        }
        out.put(b" ", sink)?;
        put_digits(out, self.list(), sink)
    }
}

/// The digits of so many bytes of a block are made at a time.
const SOME: usize = 64;

/// Appends the digits of bytes.
fn put_digits<G: Gather, K: Sink>(out: &mut G, bytes: &[u8], sink: &mut K) -> Result<(), Failed>
    ensures ok { OnOk result (Gathers (K.written sink.old) (G.waiting out.old) (K.written sink.new) (G.waiting out.new) (encode_lower bytes.now)) }
    ensures err { OnErr result (AppendsFront (K.written sink.old) (K.written sink.new) (G.waiting out.old ++ encode_lower bytes.now)) }
    ensures cause { HasCause (K.faults sink.old) (K.faults sink.new) result }
{
    let mut digits = [0; 2 * SOME];
    let mut rest = bytes;
    while !rest.is_empty() {
        let len = rest.len().min(SOME);
        put_some(out, &rest[..len], &mut digits, sink)?;
        rest = &rest[len..];
    }
    Ok(())
}

// Appends the digits of a few bytes, which are made in a buffer.
fn put_some<G: Gather, K: Sink>(
    out: &mut G,
    some: &[u8],
    digits: &mut [u8; 2 * SOME],
    sink: &mut K,
) -> Result<(), Failed>
    requires { length some.now ≤ 64 }
    ensures ok { OnOk result (Gathers (K.written sink.old) (G.waiting out.old) (K.written sink.new) (G.waiting out.new) (encode_lower some.now)) }
    ensures err { OnErr result (AppendsFront (K.written sink.old) (K.written sink.new) (G.waiting out.old ++ encode_lower some.now)) }
    ensures cause { HasCause (K.faults sink.old) (K.faults sink.new) result }
{
    let digits = &mut digits[..2 * some.len()];
    write_hex(some, digits);
    out.put(digits, sink)
}

/// Appends one part and then another. It returns `Failed` as `Part::put_into` does, with a front of
/// the text written.
/// Rule: this project's own.
pub fn put_two<A: Part, B: Part, G: Gather, K: Sink>(
    out: &mut G,
    a: &A,
    b: &B,
    sink: &mut K,
) -> Result<(), Failed>
    ensures ok { OnOk result (Gathers (K.written sink.old) (G.waiting out.old) (K.written sink.new) (G.waiting out.new) (A.text a.now ++ B.text b.now)) }
    ensures err { OnErr result (AppendsFront (K.written sink.old) (K.written sink.new) (G.waiting out.old ++ (A.text a.now ++ B.text b.now))) }
    ensures cause { HasCause (K.faults sink.old) (K.faults sink.new) result }
{
    a.put_into(out, sink)?;
    b.put_into(out, sink)
}

/// Appends one part and then two, and fails as `put_two` does.
/// Rule: this project's own.
pub fn put_three<A: Part, B: Part, C: Part, G: Gather, K: Sink>(
    out: &mut G,
    a: &A,
    b: &B,
    c: &C,
    sink: &mut K,
) -> Result<(), Failed>
    ensures ok { OnOk result (Gathers (K.written sink.old) (G.waiting out.old) (K.written sink.new) (G.waiting out.new) (A.text a.now ++ (B.text b.now ++ C.text c.now))) }
    ensures err { OnErr result (AppendsFront (K.written sink.old) (K.written sink.new) (G.waiting out.old ++ (A.text a.now ++ (B.text b.now ++ C.text c.now)))) }
    ensures cause { HasCause (K.faults sink.old) (K.faults sink.new) result }
{
    a.put_into(out, sink)?;
    put_two(out, b, c, sink)
}

/// Appends one part and then three, and fails as `put_two` does. The compiler puts it where it is
/// called, so that the word of a line is known where it is written.
/// Rule: this project's own.
#[inline(always)]
pub fn put_four<A: Part, B: Part, C: Part, D: Part, G: Gather, K: Sink>(
    out: &mut G,
    a: &A,
    b: &B,
    c: &C,
    d: &D,
    sink: &mut K,
) -> Result<(), Failed>
    ensures ok { OnOk result (Gathers (K.written sink.old) (G.waiting out.old) (K.written sink.new) (G.waiting out.new) (A.text a.now ++ (B.text b.now ++ (C.text c.now ++ D.text d.now)))) }
    ensures err { OnErr result (AppendsFront (K.written sink.old) (K.written sink.new) (G.waiting out.old ++ (A.text a.now ++ (B.text b.now ++ (C.text c.now ++ D.text d.now))))) }
    ensures cause { HasCause (K.faults sink.old) (K.faults sink.new) result }
{
    a.put_into(out, sink)?;
    put_three(out, b, c, d, sink)
}

/// Appends one part and then four, and fails as `put_two` does.
/// Rule: this project's own.
pub fn put_five<A: Part, B: Part, C: Part, D: Part, E: Part, G: Gather, K: Sink>(
    out: &mut G,
    a: &A,
    b: &B,
    c: &C,
    d: &D,
    e: &E,
    sink: &mut K,
) -> Result<(), Failed>
    ensures ok { OnOk result (Gathers (K.written sink.old) (G.waiting out.old) (K.written sink.new) (G.waiting out.new) (A.text a.now ++ (B.text b.now ++ (C.text c.now ++ (D.text d.now ++ E.text e.now))))) }
    ensures err { OnErr result (AppendsFront (K.written sink.old) (K.written sink.new) (G.waiting out.old ++ (A.text a.now ++ (B.text b.now ++ (C.text c.now ++ (D.text d.now ++ E.text e.now)))))) }
    ensures cause { HasCause (K.faults sink.old) (K.faults sink.new) result }
{
    a.put_into(out, sink)?;
    put_four(out, b, c, d, e, sink)
}

/// Appends parts, one after another, and fails as `put_two` does. Of no parts it appends nothing.
/// Rule: this project's own.
#[tactic(auto, using(crate::proofs::Waiting::gathers_none))]
pub fn put_all<T: Part, G: Gather, K: Sink>(
    out: &mut G,
    parts: &[T],
    sink: &mut K,
) -> Result<(), Failed>
    ensures ok { OnOk result (Gathers (K.written sink.old) (G.waiting out.old) (K.written sink.new) (G.waiting out.new) (flat_map (λ part. T.text part) parts.now)) }
    ensures err { OnErr result (AppendsFront (K.written sink.old) (K.written sink.new) (G.waiting out.old ++ flat_map (λ part. T.text part) parts.now)) }
    ensures cause { HasCause (K.faults sink.old) (K.faults sink.new) result }
{
    for part in parts {
        part.put_into(out, sink)?;
    }
    Ok(())
}
