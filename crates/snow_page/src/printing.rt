ghost use Rattle.std.specs.Prelude.{◌∷◌, ◌++◌, flat_map, OnOk, OnErr};
ghost use Rattle.std.specs.List.{join_with_byte};
ghost use Rattle.std.specs.Io.KnownBytes.{Appends};
ghost use Rattle.snow_base.specs.Clauses.Outside.{AppendsFront, HasCause};
ghost use Rattle.snow_page.specs.Kept.Gathered.{Gathers};
ghost use Rattle.snow_lines.specs.declared.line.Line.TheVariants as line;
ghost use Rattle.snow_lines.specs.Model.Text.{fields, listed, name, spaced, text, texts};

use crate::gathering::{AtOnce, Gather};
use crate::part::{
    Get, LastKind, NodeAndId, Part, Skipped, put_all, put_five, put_four, put_three, put_two,
};
use crate::whole::word_and_id;
use snow_base::{Failed, Sink};
use snow_lines::{Kind, Line, QueryWhy};

/// Writes a line with its newline, a piece at a time. It returns `Failed` only where the sink's
/// count of faults rose or stands at 2^64-1; a front of the line was written then. It takes no
/// memory.
/// Rule: this project's own.
#[tactic(auto, using(crate::proofs::Waiting::gathers_whole))]
pub fn print<K: Sink>(line: &Line, sink: &mut K) -> Result<(), Failed>
    ensures ok { OnOk result (Appends (K.written sink.old) (K.written sink.new) (text line.now)) }
    ensures err { OnErr result (AppendsFront (K.written sink.old) (K.written sink.new) (text line.now)) }
    ensures cause { HasCause (K.faults sink.old) (K.faults sink.new) result }
{
    put_line(&mut AtOnce, line, sink)
}

/// Writes lines, one after another. It returns `Failed` only where the sink's count of faults rose
/// or stands at 2^64-1; a front of their text was written then.
/// Rule: this project's own.
#[tactic(auto, using(snow_base::proofs::Known::appends_none, snow_base::proofs::Known::appends_then))]
pub fn print_all<K: Sink>(lines: &[Line], sink: &mut K) -> Result<(), Failed>
    ensures ok { OnOk result (Appends (K.written sink.old) (K.written sink.new) (texts lines.now)) }
    ensures err { OnErr result (AppendsFront (K.written sink.old) (K.written sink.new) (texts lines.now)) }
    ensures cause { HasCause (K.faults sink.old) (K.faults sink.new) result }
{
    for line in lines {
        print(line, sink)?;
    }
    Ok(())
}

/// Appends a line to the bytes that wait, in few pieces where the line is one that comes often. It
/// returns `Failed` only where the sink's count of faults rose or stands at 2^64-1; a front of what
/// waited and of the line was written then.
/// Rule: this project's own.
#[tactic(auto, unfolding(snow_lines::specs::Model::Text::text))]
#[inline(always)]
pub fn put_line<G: Gather, K: Sink>(out: &mut G, line: &Line, sink: &mut K) -> Result<(), Failed>
    ensures ok { OnOk result (Gathers (K.written sink.old) (G.waiting out.old) (K.written sink.new) (G.waiting out.new) (text line.now)) }
    ensures err { OnErr result (AppendsFront (K.written sink.old) (K.written sink.new) (G.waiting out.old ++ text line.now)) }
    ensures cause { HasCause (K.faults sink.old) (K.faults sink.new) result }
{
    match line {
        Line::Accept { id } => out.put(&word_and_id(b"accept", id), sink),
        Line::Reject { id } => out.put(&word_and_id(b"reject", id), sink),
        Line::Prefer { id } => out.put(&word_and_id(b"prefer", id), sink),
        Line::Get { number, node, id } => {
            put_two(out, &Get(*number), &NodeAndId(node, id), sink)
        }
        Line::Skip { frame, kind } => put_two(out, &Skipped(*frame), &LastKind(*kind), sink),
        Line::DropQuery { why } => put_dropped_query(out, *why, sink),
        _ => put_words(out, line, sink),
    }
}

/// Appends the line of a query that isn't sent.
#[tactic(auto, unfolding(snow_lines::specs::Model::Text::text))]
#[inline(always)]
fn put_dropped_query<G: Gather, K: Sink>(
    out: &mut G,
    why: QueryWhy,
    sink: &mut K,
) -> Result<(), Failed>
    ensures ok { OnOk result (Gathers (K.written sink.old) (G.waiting out.old) (K.written sink.new) (G.waiting out.new) (text (line.DropQuery why))) }
    ensures err { OnErr result (AppendsFront (K.written sink.old) (K.written sink.new) (G.waiting out.old ++ text (line.DropQuery why))) }
    ensures cause { HasCause (K.faults sink.old) (K.faults sink.new) result }
{
    match why {
        QueryWhy::Full => {
            let line = *b"drop-query full\n";
            out.put(&line, sink)
        }
        QueryWhy::Units => {
            let line = *b"drop-query units\n";
            out.put(&line, sink)
        }
        QueryWhy::Words => {
            let line = *b"drop-query words\n";
            out.put(&line, sink)
        }
    }
}

/// Appends a line word by word.
#[inline(never)]
fn put_words<G: Gather, K: Sink>(out: &mut G, line: &Line, sink: &mut K) -> Result<(), Failed>
    ensures ok { OnOk result (Gathers (K.written sink.old) (G.waiting out.old) (K.written sink.new) (G.waiting out.new) (text line.now)) }
    ensures err { OnErr result (AppendsFront (K.written sink.old) (K.written sink.new) (G.waiting out.old ++ text line.now)) }
    ensures cause { HasCause (K.faults sink.old) (K.faults sink.new) result }
{
    put_head(out, line, sink)?;
    put_list(out, line, sink)?;
    out.put(b"\n", sink)
}

/// Appends a line without its list and its newline.
fn put_head<G: Gather, K: Sink>(out: &mut G, line: &Line, sink: &mut K) -> Result<(), Failed>
    ensures ok { OnOk result (Gathers (K.written sink.old) (G.waiting out.old) (K.written sink.new) (G.waiting out.new) (join_with_byte 32 (name line.now ∷ fields line.now))) }
    ensures err { OnErr result (AppendsFront (K.written sink.old) (K.written sink.new) (G.waiting out.old ++ join_with_byte 32 (name line.now ∷ fields line.now))) }
    ensures cause { HasCause (K.faults sink.old) (K.faults sink.new) result }
{
    match line {
        Line::Query { number, id, .. } => put_three(out, &Kind::Query, number, id, sink),
        Line::Get { number, node, id } => put_four(out, &Kind::Get, number, node, id, sink),
        Line::Frontier { number } => put_two(out, &Kind::Frontier, number, sink),
        Line::Accepted { number, .. } => put_two(out, &Kind::Accepted, number, sink),
        Line::Ancestors { number, node, id } => {
            put_four(out, &Kind::Ancestors, number, node, id, sink)
        }
        Line::Accept { id } => put_two(out, &Kind::Accept, id, sink),
        Line::Reject { id } => put_two(out, &Kind::Reject, id, sink),
        Line::Prefer { id } => put_two(out, &Kind::Prefer, id, sink),
        Line::Drop { id, why } => put_three(out, &Kind::Drop, id, why, sink),
        Line::DropQuery { why } => put_two(out, &Kind::DropQuery, why, sink),
        Line::Skip { frame, kind } => put_three(out, &Kind::Skip, frame, kind, sink),
        Line::Restart { why } => put_two(out, &Kind::Restart, why, sink),
        Line::Bootstrapped { id, height } => {
            put_three(out, &Kind::Bootstrapped, id, height, sink)
        }
        Line::ToChits {
            node,
            number,
            preference,
            last,
        } => put_five(
            out,
            &Kind::ToChits,
            node,
            number,
            preference.id(),
            last.id(),
            sink,
        ),
        Line::ToFrontier { node, number, id } => {
            put_four(out, &Kind::ToFrontier, node, number, id, sink)
        }
        Line::ToAccepted { node, number, .. } => {
            put_three(out, &Kind::ToAccepted, node, number, sink)
        }
        Line::ToAncestors { node, number, .. } => {
            put_three(out, &Kind::ToAncestors, node, number, sink)
        }
        Line::ToBlock { node, number, .. } => put_three(out, &Kind::ToBlock, node, number, sink),
    }
}

/// Appends the words of a line's list.
#[tactic(auto, using(crate::proofs::Waiting::gathers_none))]
fn put_list<G: Gather, K: Sink>(out: &mut G, line: &Line, sink: &mut K) -> Result<(), Failed>
    ensures ok { OnOk result (Gathers (K.written sink.old) (G.waiting out.old) (K.written sink.new) (G.waiting out.new) (flat_map spaced (listed line.now))) }
    ensures err { OnErr result (AppendsFront (K.written sink.old) (K.written sink.new) (G.waiting out.old ++ flat_map spaced (listed line.now))) }
    ensures cause { HasCause (K.faults sink.old) (K.faults sink.new) result }
{
    match line {
        Line::Query { draws, .. } => put_all(out, draws.list(), sink),
        Line::Accepted { ids, .. } => put_all(out, ids.list(), sink),
        Line::ToAccepted { ids, .. } => put_all(out, ids.list(), sink),
        Line::ToAncestors { blocks, .. } => put_all(out, blocks.list(), sink),
        Line::ToBlock { bytes, .. } => bytes.put_into(out, sink),
        _ => Ok(()),
    }
}
