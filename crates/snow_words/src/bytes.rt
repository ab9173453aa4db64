ghost use Rattle.std.specs.Prelude.{◌≤◌, ◌^◌, ◌∷◌};
ghost use Rattle.snow_text_model.specs.Model.Words.{parts};
ghost use Rattle.snow_text_model.specs.Model.Bytes.{bytes_word, digits_word, fixed_word, number_below, number_word, piece_of, piece_word};
ghost use Rattle.snow_words.specs.Clauses.Making.{Tells, filled, onto, repeated, sized_as};
ghost use Rattle.snow_words.specs.Clauses.Numbers.{size_of};

use crate::number::{Width, number_up_to};
use crate::output::Output;
use crate::parts::{Parts, place};
use crate::stop::Why;
use snow_text_model::Reason;

/// How often a byte or a number is said again at most.
/// Rule: this project's own.
pub const MOST_TIMES: u64 = 4_194_304;

/// Appends the bytes of a decimal number. It returns `Number` exactly where the word says none
/// that so many bytes hold.
/// Rule: this project's own.
#[tactic(auto, unfolding(snow_text_model::specs::Model::Bytes::number_word))]
pub fn number_word(width: Width, word: &[u8], out: &mut Output) -> Result<(), Why>
    ensures { Tells result out.new (onto out.old (number_word (size_of width) word.now)) }
{
    let n = number_up_to(width.most(), word)?;
    out.number(width, n)?;
    Ok(())
}

/// Appends the bytes of a piece: digits, or a byte again and again.
/// Rule: this project's own.
#[tactic(auto, using(crate::proofs::Saying::piece_plain))]
fn piece_word(word: &[u8], out: &mut Output) -> Result<(), Why>
    ensures { Tells result out.new (onto out.old (piece_word word.now)) }
{
    match place(b'*', word) {
        None => out.digits(word),
        Some(at) => piece_again(&word[..at], &word[at + 1..], out),
    }
}

// A piece with a star, where one more isn't taken.
#[tactic(auto, using(crate::proofs::Saying::piece_two, crate::proofs::Saying::piece_many))]
fn piece_again(digits: &[u8], times: &[u8], out: &mut Output) -> Result<(), Why>
    ensures { Tells result out.new (onto out.old (piece_of (digits.now ∷ parts 42 times.now))) }
{
    match place(b'*', times) {
        None => repeated(digits, times, out),
        Some(_) => Err(Why::Not(Reason::Digits)),
    }
}

// A byte again and again.
#[tactic(auto, using(crate::proofs::Saying::repeating))]
fn repeated(digits: &[u8], times: &[u8], out: &mut Output) -> Result<(), Why>
    ensures { Tells result out.new (onto out.old (repeated (digits_word digits.now) (number_below 4194305 times.now))) }
{
    let len = out.len();
    out.digits(digits)?;
    let times = number_up_to(MOST_TIMES, times)?;
    if out.len() != len + 1 {
        return Err(Why::Not(Reason::Digits));
    }
    let byte = out.list()[len];
    out.cut(len);
    out.repeat(byte, times as usize)?;
    Ok(())
}

/// Appends the bytes of pieces with `+` between them. It returns `Digits` or `Number` exactly where
/// the model does.
/// Rule: this project's own.
#[tactic(auto, using(crate::proofs::Saying::eaching, crate::proofs::Saying::piece_failed), unfolding(snow_text_model::specs::Model::Bytes::bytes_word))]
pub fn bytes_word(word: &[u8], out: &mut Output) -> Result<(), Why>
    ensures { Tells result out.new (onto out.old (bytes_word word.now)) }
{
    let mut parts = Parts::new(b'+', word);
    while let Some(part) = parts.next() {
        piece_word(part, out)?;
    }
    Ok(())
}

/// Appends so many bytes, where `..` at the end of the word fills up with zeros. It returns what
/// `bytes_word` does, and `Size` exactly where the bytes aren't so many.
/// Rule: this project's own.
#[tactic(auto, using(crate::proofs::Saying::fixed_open, crate::proofs::Saying::fixed_closed))]
pub fn fixed_word(size: usize, word: &[u8], out: &mut Output) -> Result<(), Why>
    requires { size ≤ 2 ^ 16 }
    ensures { Tells result out.new (onto out.old (fixed_word size word.now)) }
{
    match word.strip_suffix(b"..".as_slice()) {
        Some(front) => open_word(size, front, out),
        None => closed_word(size, word, out),
    }
}

// So many bytes, of which the zeros at the end are left out.
#[tactic(auto, using(crate::proofs::Saying::sizing))]
fn open_word(size: usize, word: &[u8], out: &mut Output) -> Result<(), Why>
    requires { size ≤ 2 ^ 16 }
    ensures { Tells result out.new (onto out.old (filled size (bytes_word word.now))) }
{
    let start = out.len();
    bytes_word(word, out)?;
    let len = out.len() - start;
    if size < len {
        return Err(Why::Not(Reason::Size));
    }
    out.repeat(0, size - len)?;
    Ok(())
}

// So many bytes, all of them said.
#[tactic(auto, using(crate::proofs::Saying::sizing))]
fn closed_word(size: usize, word: &[u8], out: &mut Output) -> Result<(), Why>
    ensures { Tells result out.new (onto out.old (sized_as size (bytes_word word.now))) }
{
    let start = out.len();
    bytes_word(word, out)?;
    if out.len() - start != size {
        return Err(Why::Not(Reason::Size));
    }
    Ok(())
}
