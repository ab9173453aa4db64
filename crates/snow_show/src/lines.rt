//! The lines that a program wrote.

ghost use Rattle.std.specs.Prelude.{◌≡◌, ◌<◌, ◌==◌, not, length, [], ◌∷◌, ◌++◌, codes, map, IfOk};
ghost use Rattle.std.specs.List.{list_all};
ghost use Rattle.snow_text_model.specs.Model.Bytes.{bytes_text, fixed_text};
ghost use Rattle.snow_text_model.specs.Model.Lines.{Draw, kinds_of, line_words, short_as, short_words};
ghost use Rattle.snow_text_model.specs.Model.Shown.{line};
ghost use Rattle.snow_text_model.specs.Model.Words.{parts};
ghost use Rattle.snow_say.specs.Clauses.Lined.{drawn_text, kind_in, shorter_by, tells, written_words};
ghost use Rattle.snow_show.specs.Clauses.Putting.{Puts};
ghost use Rattle.snow_show.specs.Kept.Listing.{led};

use crate::bytes::{put_bytes, put_fixed};
use crate::frames::put_as_it_is;
use crate::put::put;
use snow_say::{Kind, Meaning, last_place, say_words};
use snow_words::{Names, Output, Parts, Stop, Why, Words, halved};
use std::alloc::{AllocError, Global};

/// Puts so many bytes, which a word tells by digits, in short behind a text, or else the word.
#[tactic(auto, using(crate::proofs::Brevity::shortening))]
fn put_fixed_digits(text: &mut Vec<u8>, word: &[u8], scratch: &mut Output) -> Result<(), AllocError>
    ensures { Puts result text.old.items text.new.items (shorter_by fixed_text word.now word.now) }
{
    scratch.clear();
    match scratch.digits(word) {
        Ok(()) => put_fixed(text, scratch.list()),
        Err(Why::Memory) => Err(AllocError),
        Err(Why::Not(_)) => put(text, word),
    }
}

/// Puts a block, which a word tells by digits, in short behind a text, or else the word.
#[tactic(auto, using(crate::proofs::Brevity::shortening))]
fn put_block_digits(text: &mut Vec<u8>, word: &[u8], scratch: &mut Output) -> Result<(), AllocError>
    ensures { Puts result text.old.items text.new.items (shorter_by bytes_text word.now word.now) }
{
    scratch.clear();
    match scratch.digits(word) {
        Ok(()) => put_bytes(text, scratch.list()),
        Err(Why::Memory) => Err(AllocError),
        Err(Why::Not(_)) => put(text, word),
    }
}

/// Puts the short form of a node, and how often it was drawn, behind a text.
fn put_drawn(text: &mut Vec<u8>, node: &[u8], times: &[u8]) -> Result<(), AllocError>
    requires { 0 < length node.now }
    ensures { Puts result text.old.items text.new.items (drawn_text times.now node.now) }
{
    put_fixed(text, node)?;
    put(text, b"*")?;
    put(text, times)
}

/// Puts a node, which digits tell, and how often it was drawn, in short behind a text, or else the
/// word.
#[tactic(auto, using(crate::proofs::Brevity::shortening))]
fn put_drawn_digits(
    text: &mut Vec<u8>,
    word: &[u8],
    node: &[u8],
    times: &[u8],
    scratch: &mut Output,
) -> Result<(), AllocError>
    ensures { Puts result text.old.items text.new.items (shorter_by (drawn_text times.now) word.now node.now) }
{
    scratch.clear();
    match scratch.digits(node) {
        Ok(()) => put_drawn(text, scratch.list(), times),
        Err(Why::Memory) => Err(AllocError),
        Err(Why::Not(_)) => put(text, word),
    }
}

/// Puts a word that tells a draw, as short as it can be, behind a text.
fn put_draw(text: &mut Vec<u8>, word: &[u8], scratch: &mut Output) -> Result<(), AllocError>
    ensures { Puts result text.old.items text.new.items (short_as Draw word.now) }
{
    match last_place(b'*', word) {
        None => put(text, word),
        Some(at) => put_drawn_digits(text, word, &word[..at], &word[at + 1..], scratch),
    }
}

/// Puts a word, as short as it can be, behind a text.
#[tactic(auto, unfolding(snow_text_model::specs::Model::Lines::short_as))]
fn put_short(
    text: &mut Vec<u8>,
    kind: Kind,
    word: &[u8],
    scratch: &mut Output,
) -> Result<(), AllocError>
    ensures { Puts result text.old.items text.new.items (short_as (kind_in kind) word.now) }
{
    match kind {
        Kind::Id | Kind::Node => put_fixed_digits(text, word, scratch),
        Kind::Block => put_block_digits(text, word, scratch),
        Kind::Draw => put_draw(text, word, scratch),
        Kind::Other => put(text, word),
    }
}

/// Puts a space and a word, as short as it can be, behind a text.
fn put_short_word(
    text: &mut Vec<u8>,
    kind: Kind,
    word: &[u8],
    scratch: &mut Output,
) -> Result<(), AllocError>
    ensures { Puts result text.old.items text.new.items (32 ∷ short_as (kind_in kind) word.now) }
{
    put(text, b" ")?;
    put_short(text, kind, word, scratch)
}

/// Puts words, each as short as it can be behind a space, behind a text.
#[tactic(auto, using(crate::proofs::Putting::going_begins, crate::proofs::Putting::going_stops, snow_words::proofs::Cutting::taken_shorter))]
fn put_short_words(text: &mut Vec<u8>, kinds: &[Kind], words: &[u8]) -> Result<(), AllocError>
    ensures { Puts result text.old.items text.new.items (led (32 ∷ []) (32 ∷ []) (short_words (map kind_in kinds.now) (parts 32 words.now))) }
{
    let mut scratch = Output::new(*text.allocator());
    let mut kinds = kinds;
    let mut rest = Parts::new(b' ', words);
    while let Some(word) = rest.next() {
        put_short_word(text, Kind::next(kinds), word, &mut scratch)?;
        kinds = Kind::later(kinds);
    }
    Ok(())
}

/// Puts the first word of a line, and the words behind it, behind a text.
fn put_named_words(text: &mut Vec<u8>, name: &[u8], words: &[u8]) -> Result<(), AllocError>
    ensures { Puts result text.old.items text.new.items (name.now ++ led (32 ∷ []) (32 ∷ []) (short_words (kinds_of name.now) (parts 32 words.now))) }
{
    put(text, name)?;
    put_short_words(text, Kind::of_words(name), words)
}

/// Puts the text of a line, in words as short as they can be, behind a text.
#[tactic(auto, using(crate::proofs::Brevity::line_one, crate::proofs::Brevity::line_more, crate::proofs::Putting::puts_as))]
fn put_line_words(text: &mut Vec<u8>, said: &[u8]) -> Result<(), AllocError>
    ensures { Puts result text.old.items text.new.items (line (line_words said.now)) }
{
    match halved(b' ', said) {
        None => put(text, said),
        Some((name, words)) => put_named_words(text, name, words),
    }
}

/// Puts a line in its own words behind a text.
fn put_line(text: &mut Vec<u8>, said: &[u8]) -> Result<(), AllocError>
    ensures { Puts result text.old.items text.new.items (line (codes ">" ∷ line_words said.now)) }
{
    put(text, b"> ")?;
    put_line_words(text, said)
}

/// Returns whether a text has no newline.
fn is_one_line(text: &[u8]) -> bool
    ensures { result ≡ list_all (λ c. not (c == 10)) text.now }
{
    text.iter().all(|c| *c != 10)
}

/// Returns whether a text is one line that says just this payload.
fn tells(alloc: Global, text: &[u8], payload: &[u8]) -> Result<bool, AllocError>
    ensures { IfOk result (λ told. told ≡ tells text.now payload.now) }
{
    if !is_one_line(text) {
        return Ok(false);
    }
    let names = Names::new(alloc);
    let mut words = Words::of_line(text);
    let mut found = Output::new(alloc);
    match say_words(&names, &mut words, &mut found) {
        Ok(Meaning::Frame) => Ok(found.list() == payload),
        Ok(_) => Ok(false),
        Err(Stop::Memory) => Err(AllocError),
        Err(Stop::At(_, _)) => Ok(false),
    }
}

/// Puts the line of a payload that holds a program's line behind a text: in words where these say
/// the very payload, and else as it is.
/// On want of memory it returns `AllocError`, and the text begins with what it was.
/// Rule: this project's own.
pub fn put_written(text: &mut Vec<u8>, payload: &[u8], said: &[u8]) -> Result<(), AllocError>
    ensures { Puts result text.old.items text.new.items (line (written_words said.now payload.now) ++ 10 ∷ []) }
{
    let start = text.len();
    put_line(text, said)?;
    if tells(*text.allocator(), &text.as_slice()[start..], payload)? {
        return put(text, b"\n");
    }
    text.truncate(start);
    put_as_it_is(text, payload)
}
