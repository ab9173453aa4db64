ghost use Rattle.std.specs.Prelude.{◌≡◌, ◌≢◌, ◌^◌, IfOk, IfSome, Some};
ghost use Rattle.std.specs.Option.{option_map};
ghost use Rattle.snow_reading.specs.Clauses.Range.{IsLine};
ghost use Rattle.snow_lines.specs.Model.Text.{text};
ghost use Rattle.snow_lines.specs.declared.line.Line.{Line};
ghost use Rattle.snow_reading.specs.Model.Reading.{Reads, asked_at, both_at, bytes_of, number_of, asks, asks_accepted, before_newline, fields_of, frontier_at, line_of, plain_at, tells_accepted, tells_ancestors, tells_block, whole_at, words_of};
ghost use Rattle.snow_reading.specs.Model.Names.{kind_of, why_of};
ghost use Rattle.snow_lines.specs.declared.kind.Kind.TheVariants as kinds;
ghost use Rattle.snow_lines.specs.declared.line.Line.TheVariants as line;

use crate::field::{self, Field};
use crate::words::Words;
use snow_lines::{BoxedId, Kind, Line};
use std::alloc::{AllocError, Global};

/// Returns the line whose text the bytes are, newline included, or `None` exactly where they are no
/// line's text. On want of memory it returns `AllocError`.
/// Rule: this project's own.
#[tactic(auto, using(crate::proofs::Again::line_found, crate::proofs::Again::line_only))]
pub fn read(alloc: Global, bytes: &[u8]) -> Result<Option<Line>, AllocError>
    ensures found { IfOk result (λ r. IfSome r (λ l. IsLine l × (bytes.now ≡ text l))) }
    ensures only { (l : Line) → IsLine l → bytes.now ≡ text l → IfOk result (λ r. r ≡ Some l) }
{
    read_line(alloc, bytes)
}

// The line that is read from the bytes.
#[tactic(auto, unfolding(crate::specs::Model::Reading::line_of))]
fn read_line(alloc: Global, bytes: &[u8]) -> Result<Option<Line>, AllocError>
    ensures { IfOk result (λ r. r ≡ line_of bytes.now) }
{
    let Some(front) = front_of(bytes) else {
        return Ok(None);
    };
    line(alloc, &mut Words::new(front))
}

// The bytes before the newline at the end.
#[tactic(auto, unfolding(crate::specs::Model::Reading::before_newline))]
fn front_of(bytes: &[u8]) -> Option<&[u8]>
    ensures { option_map (λ b. b.now) result ≡ before_newline bytes.now }
{
    bytes.strip_suffix(b"\n".as_slice())
}

// The line with these words.
#[tactic(auto, unfolding(crate::specs::Model::Reading::words_of))]
fn line(alloc: Global, words: &mut Words) -> Result<Option<Line>, AllocError>
    ensures { IfOk result (λ r. r ≡ words_of words.old) }
{
    let Some(name) = words.next() else {
        return Ok(None);
    };
    let Some(kind) = Kind::of(name) else {
        return Ok(None);
    };
    fields(alloc, kind, words)
}

// The line of a kind with these words behind its first.
#[tactic(auto, unfolding(crate::specs::Model::Reading::fields_of))]
fn fields(alloc: Global, kind: Kind, words: &mut Words) -> Result<Option<Line>, AllocError>
    ensures { IfOk result (λ r. r ≡ fields_of kind words.old) }
{
    match kind {
        Kind::Query => query(alloc, words),
        Kind::Accepted => accepted(alloc, words),
        Kind::ToChits => to_chits(alloc, words),
        Kind::ToAccepted => to_accepted(alloc, words),
        Kind::ToAncestors => to_ancestors(alloc, words),
        Kind::ToBlock => to_block(alloc, words),
        _ => Ok(whole(kind, words)),
    }
}

#[tactic(auto, unfolding(crate::specs::Model::Reading::whole_at))]
fn whole(kind: Kind, words: &mut Words) -> Option<Line>
    requires { kind ≢ kinds.ToChits }
    ensures { result ≡ whole_at kind words.old }
{
    let line = plain(kind, words)?;
    if words.is_at_end() { Some(line) } else { None }
}

#[tactic(auto, unfolding(crate::specs::Model::Reading::asks))]
fn query(alloc: Global, words: &mut Words) -> Result<Option<Line>, AllocError>
    ensures { IfOk result (λ r. r ≡ asks words.old) }
{
    let Some(number) = words.take() else {
        return Ok(None);
    };
    let Some(id) = words.take() else {
        return Ok(None);
    };
    let Some(draws) = words.draws(alloc)? else {
        return Ok(None);
    };
    if draws.list().is_empty() {
        return Ok(None);
    }
    Ok(Some(Line::Query { number, id, draws }))
}

#[tactic(auto, unfolding(crate::specs::Model::Reading::asks_accepted))]
fn accepted(alloc: Global, words: &mut Words) -> Result<Option<Line>, AllocError>
    ensures { IfOk result (λ r. r ≡ asks_accepted words.old) }
{
    let Some(number) = words.take() else {
        return Ok(None);
    };
    let Some(ids) = words.ids(alloc)? else {
        return Ok(None);
    };
    if ids.list().is_empty() {
        return Ok(None);
    }
    Ok(Some(Line::Accepted { number, ids }))
}

#[tactic(auto, unfolding(crate::specs::Model::Reading::whole_at, crate::specs::Model::Reading::plain_at, crate::specs::Model::Reading::chits_at))]
fn to_chits(alloc: Global, words: &mut Words) -> Result<Option<Line>, AllocError>
    ensures { IfOk result (λ r. r ≡ whole_at kinds.ToChits words.old) }
{
    let Some((node, number)) = words.told() else {
        return Ok(None);
    };
    let Some(preference) = words.take() else {
        return Ok(None);
    };
    let Some(last) = words.take() else {
        return Ok(None);
    };
    if !words.is_at_end() {
        return Ok(None);
    }
    let preference = BoxedId::new(alloc, preference)?;
    let last = BoxedId::new(alloc, last)?;
    Ok(Some(Line::ToChits {
        node,
        number,
        preference,
        last,
    }))
}

#[tactic(auto, unfolding(crate::specs::Model::Reading::tells_accepted))]
fn to_accepted(alloc: Global, words: &mut Words) -> Result<Option<Line>, AllocError>
    ensures { IfOk result (λ r. r ≡ tells_accepted words.old) }
{
    let Some((node, number)) = words.told() else {
        return Ok(None);
    };
    match words.ids(alloc)? {
        Some(ids) => Ok(Some(Line::ToAccepted { node, number, ids })),
        None => Ok(None),
    }
}

#[tactic(auto, unfolding(crate::specs::Model::Reading::tells_ancestors))]
fn to_ancestors(alloc: Global, words: &mut Words) -> Result<Option<Line>, AllocError>
    ensures { IfOk result (λ r. r ≡ tells_ancestors words.old) }
{
    let Some((node, number)) = words.told() else {
        return Ok(None);
    };
    let Some(blocks) = words.blocks(alloc)? else {
        return Ok(None);
    };
    if blocks.list().is_empty() {
        return Ok(None);
    }
    Ok(Some(Line::ToAncestors {
        node,
        number,
        blocks,
    }))
}

#[tactic(auto, unfolding(crate::specs::Model::Reading::tells_block, crate::specs::Model::Reading::field))]
fn to_block(alloc: Global, words: &mut Words) -> Result<Option<Line>, AllocError>
    ensures { IfOk result (λ r. r ≡ tells_block words.old) }
{
    let Some((node, number)) = words.told() else {
        return Ok(None);
    };
    let Some(word) = words.next() else {
        return Ok(None);
    };
    let Some(bytes) = field::block(alloc, word)? else {
        return Ok(None);
    };
    if !words.is_at_end() {
        return Ok(None);
    }
    Ok(Some(Line::ToBlock {
        node,
        number,
        bytes,
    }))
}

// A line without a list or a box, up to its last word.
#[tactic(auto, unfolding(crate::specs::Model::Reading::plain_at, crate::specs::Model::Reading::only_at))]
fn plain(kind: Kind, words: &mut Words) -> Option<Line>
    requires { kind ≢ kinds.ToChits }
    ensures { Reads result words.new (plain_at kind words.old) }
{
    match kind {
        Kind::Get => get(words),
        Kind::Frontier => Some(Line::Frontier {
            number: words.take()?,
        }),
        Kind::Ancestors => ancestors(words),
        Kind::Accept => Some(Line::Accept { id: words.take()? }),
        Kind::Reject => Some(Line::Reject { id: words.take()? }),
        Kind::Prefer => Some(Line::Prefer { id: words.take()? }),
        Kind::Drop => drop_block(words),
        Kind::DropQuery => Some(Line::DropQuery { why: words.take()? }),
        Kind::Skip => skip(words),
        Kind::Restart => Some(Line::Restart { why: words.take()? }),
        Kind::Bootstrapped => bootstrapped(words),
        Kind::ToFrontier => to_frontier(words),
        _ => None,
    }
}

#[tactic(auto, unfolding(crate::specs::Model::Reading::asked_at))]
fn get(words: &mut Words) -> Option<Line>
    ensures { Reads result words.new (asked_at line.Get words.old) }
{
    let number = words.take()?;
    let node = words.take()?;
    let id = words.take()?;
    Some(Line::Get { number, node, id })
}

#[tactic(auto, unfolding(crate::specs::Model::Reading::asked_at))]
fn ancestors(words: &mut Words) -> Option<Line>
    ensures { Reads result words.new (asked_at line.Ancestors words.old) }
{
    let number = words.take()?;
    let node = words.take()?;
    let id = words.take()?;
    Some(Line::Ancestors { number, node, id })
}

#[tactic(auto, unfolding(crate::specs::Model::Reading::both_at))]
fn drop_block(words: &mut Words) -> Option<Line>
    ensures { Reads result words.new (both_at (bytes_of 32) why_of line.Drop words.old) }
{
    let id = words.take()?;
    let why = words.take()?;
    Some(Line::Drop { id, why })
}

#[tactic(auto, unfolding(crate::specs::Model::Reading::both_at))]
fn skip(words: &mut Words) -> Option<Line>
    ensures { Reads result words.new (both_at (number_of (2 ^ 64)) kind_of line.Skip words.old) }
{
    let frame = words.take()?;
    let kind = words.take()?;
    Some(Line::Skip { frame, kind })
}

#[tactic(auto, unfolding(crate::specs::Model::Reading::both_at))]
fn bootstrapped(words: &mut Words) -> Option<Line>
    ensures { Reads result words.new (both_at (bytes_of 32) (number_of (2 ^ 64)) line.Bootstrapped words.old) }
{
    let id = words.take()?;
    let height = words.take()?;
    Some(Line::Bootstrapped { id, height })
}

#[tactic(auto, unfolding(crate::specs::Model::Reading::frontier_at))]
fn to_frontier(words: &mut Words) -> Option<Line>
    ensures { Reads result words.new (frontier_at words.old) }
{
    let (node, number) = words.told()?;
    let id = words.take()?;
    Some(Line::ToFrontier { node, number, id })
}
