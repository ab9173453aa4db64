ghost use Rattle.std.specs.Prelude.{◌≤◌, ◌^◌, ◌∷◌, ◌++◌, [], map};
ghost use Rattle.snow_text_model.specs.Model.Bytes.{item_word};
ghost use Rattle.snow_text_model.specs.Model.Events.{text_of};
ghost use Rattle.snow_text_model.specs.Model.Lines.{Block, Draw, digits, line_of, long_as, long_words};
ghost use Rattle.snow_words.specs.Clauses.Making.{Reads, Tells, onto};
ghost use Rattle.snow_say.specs.Clauses.Lined.{IsLastCut, drawn_as, kind_in, sized_line, trailing};

use crate::kind::Kind;
use snow_words::{Names, Output, Stop, Why, Words, is, item_word, part_word};

/// Takes all words that are left and appends the payload of the line that they say. It returns the
/// model's stop exactly where they say none, and want of memory too where a line has 4 GiB.
/// Rule: this project's own.
#[tactic(auto, using(crate::proofs::Lined::lining))]
pub fn line(names: &Names, words: &mut Words, out: &mut Output) -> Result<(), Stop>
    ensures { Reads result out.new (onto out.old (text_of names.now words.old)) }
{
    out.push(17)?;
    sized_line(names, words, out)
}

// The text of a line behind its length.
#[tactic(auto, using(crate::proofs::Sized::sizing))]
fn sized_line(names: &Names, words: &mut Words, out: &mut Output) -> Result<(), Stop>
    ensures { Reads result out.new (onto out.old (sized_line names.now words.old)) }
{
    let start = out.len();
    out.append(&[0, 0, 0, 0])?;
    text(names, words, out)?;
    let len = out.len() - start - 4;
    match u32::try_from(len) {
        Ok(len) => {
            out.write_long(start, len);
            Ok(())
        }
        Err(_) => Err(Stop::Memory),
    }
}

// The text of a line.
#[tactic(auto, using(crate::proofs::Lined::texting))]
fn text(names: &Names, words: &mut Words, out: &mut Output) -> Result<(), Stop>
    ensures { Reads result out.new (onto out.old (line_of names.now words.old)) }
{
    match words.next() {
        None => Ok(()),
        Some(name) => {
            out.append(name)?;
            long_words(Kind::of_words(name), names, words, out)
        }
    }
}

// The words behind the first, as the program writes them, each behind a space.
#[tactic(auto, using(crate::proofs::Lined::wording))]
fn long_words(
    kinds: &[Kind],
    names: &Names,
    words: &mut Words,
    out: &mut Output,
) -> Result<(), Stop>
    ensures { Reads result out.new (trailing out.old (long_words names.now (map kind_in kinds.now) words.old)) }
{
    let mut kinds = kinds;
    let mut scratch = Output::new(names.alloc());
    while let Some(word) = words.next() {
        words.at(long_word(Kind::next(kinds), names, word, &mut scratch, out))?;
        kinds = Kind::later(kinds);
    }
    Ok(())
}

// A word as the program writes it, behind a space.
fn long_word(
    kind: Kind,
    names: &Names,
    word: &[u8],
    scratch: &mut Output,
    out: &mut Output,
) -> Result<(), Why>
    ensures { Tells result out.new (onto (out.old ++ 32 ∷ []) (long_as names.now (kind_in kind) word.now)) }
{
    out.push(b' ')?;
    long_as(kind, names, word, scratch, out)
}

// A word as the program writes it.
#[tactic(auto, unfolding(snow_text_model::specs::Model::Lines::long_as))]
fn long_as(
    kind: Kind,
    names: &Names,
    word: &[u8],
    scratch: &mut Output,
    out: &mut Output,
) -> Result<(), Why>
    ensures { Tells result out.new (onto out.old (long_as names.now (kind_in kind) word.now)) }
{
    match kind {
        Kind::Id => item_digits(32, names, word, scratch, out),
        Kind::Node => item_digits(20, names, word, scratch, out),
        Kind::Block => block_digits(names, word, scratch, out),
        Kind::Draw => draw_digits(names, word, scratch, out),
        Kind::Other => Ok(out.append(word)?),
    }
}

// So many bytes as the program writes them.
#[tactic(auto, using(crate::proofs::Lined::digiting))]
fn item_digits(
    size: usize,
    names: &Names,
    word: &[u8],
    scratch: &mut Output,
    out: &mut Output,
) -> Result<(), Why>
    requires { size ≤ 2 ^ 16 }
    ensures { Tells result out.new (onto out.old (digits (item_word names.now size word.now))) }
{
    scratch.clear();
    item_word(names, size, word, scratch)?;
    out.encode(scratch.list())?;
    Ok(())
}

// A block as the program writes it.
#[tactic(auto, using(crate::proofs::Lined::digiting), unfolding(snow_text_model::specs::Model::Lines::long_as))]
fn block_digits(
    names: &Names,
    word: &[u8],
    scratch: &mut Output,
    out: &mut Output,
) -> Result<(), Why>
    ensures { Tells result out.new (onto out.old (long_as names.now Block word.now)) }
{
    if is(word, b".") {
        return Ok(out.append(word)?);
    }
    scratch.clear();
    part_word(names, word, scratch)?;
    out.encode(scratch.list())?;
    Ok(())
}

// A node and how often it was drawn, as the program writes them.
#[tactic(auto, using(crate::proofs::Lined::drawing))]
fn draw_digits(
    names: &Names,
    word: &[u8],
    scratch: &mut Output,
    out: &mut Output,
) -> Result<(), Why>
    ensures { Tells result out.new (onto out.old (long_as names.now Draw word.now)) }
{
    match last_place(b'*', word) {
        None => drawn(names, &[], word, scratch, out),
        Some(at) => drawn(names, &word[..at], &word[at + 1..], scratch, out),
    }
}

// A node as the program writes it, and how often it was drawn.
#[tactic(auto, using(crate::proofs::Lined::drawn_more, crate::proofs::Lined::drawn_not))]
fn drawn(
    names: &Names,
    node: &[u8],
    times: &[u8],
    scratch: &mut Output,
    out: &mut Output,
) -> Result<(), Why>
    ensures { Tells result out.new (onto out.old (drawn_as (digits (item_word names.now 20 node.now)) times.now)) }
{
    item_digits(20, names, node, scratch, out)?;
    out.push(b'*')?;
    out.append(times)?;
    Ok(())
}

/// Returns the place of the last byte `mark`.
/// Rule: this project's own.
#[tactic(auto, using(crate::proofs::Lined::last_end, crate::proofs::Lined::last_at, crate::proofs::Lined::no_mark_behind, crate::proofs::Lined::none_behind))]
pub fn last_place(mark: u8, text: &[u8]) -> Option<usize>
    ensures { IsLastCut mark text.now result }
{
    let mut at = text.len();
    while at > 0 {
        at -= 1;
        if text[at] == mark {
            return Some(at);
        }
    }
    None
}
