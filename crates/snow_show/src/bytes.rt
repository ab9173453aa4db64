//! The short form of bytes.

ghost use Rattle.std.specs.Prelude.{◌≡◌, ◌<◌, ◌≤◌, [], ◌∷◌, IfOk, length, drop, slice_index};
ghost use Rattle.hex.specs.Hex.{encode_lower};
ghost use Rattle.snow_text_model.specs.Model.Bytes.{bytes_text, fixed_text, runs_of, short, some_of, trimmed};
ghost use Rattle.snow_show.specs.Clauses.Putting.{Puts};
ghost use Rattle.snow_show.specs.Kept.Shortening.{behind_run, plus_before_digits, plus_before_times, run_text, times_in_front};

use crate::put::{put, put_decimal};
use std::alloc::AllocError;

/// The sixteen digits.
const DIGITS: [u8; 16] = *b"0123456789abcdef";

/// The most times that one piece tells.
/// Rule: this project's own.
pub const MOST_TIMES: usize = 4_194_304;

/// What stands at the end of a short form.
/// Rule: this project's own.
#[derive(Clone, Copy, Debug, PartialEq, Eq)]
pub enum Last {
    /// Nothing yet.
    Nothing,
    /// Digits of bytes.
    Digits,
    /// A byte again and again.
    Times,
}

/// Returns the digits of a byte.
#[tactic(auto, unfolding(hex::specs::Hex::encode_with))]
fn digits_of(byte: u8) -> [u8; 2]
    ensures { result ≡ encode_lower (byte ∷ []) }
{
    [
        DIGITS[usize::from(byte / 16)],
        DIGITS[usize::from(byte % 16)],
    ]
}

/// Returns how often the first byte stands in front, at least once.
#[tactic(auto, using(crate::proofs::Shortened::front_more, crate::proofs::Shortened::front_ends, crate::proofs::Shortened::front_none))]
fn times_of(bytes: &[u8]) -> usize
    requires { 0 < length bytes.now }
    ensures times { result ≡ times_in_front (slice_index bytes.now 0) bytes.now }
    ensures some { 0 < result }
    ensures within { result ≤ length bytes.now }
{
    let byte = bytes[0];
    for times in 1..bytes.len() {
        if bytes[times] != byte {
            return times;
        }
    }
    bytes.len()
}

/// Returns the length of the first run.
#[tactic(auto, using(crate::proofs::Shortened::first_of_runs))]
fn first_run_of(bytes: &[u8]) -> usize
    requires { 0 < length bytes.now }
    ensures runs { runs_of bytes.now ≡ (slice_index bytes.now 0, result) ∷ runs_of (drop result bytes.now) }
    ensures some { 0 < result }
    ensures within { result ≤ length bytes.now }
{
    (times_of(bytes) - 1) % MOST_TIMES + 1
}

/// Returns the `+` that stands before digits, if one does.
fn plus_before_digits(last: Last) -> &'static [u8]
    ensures { result.now ≡ plus_before_digits last }
{
    match last {
        Last::Times => b"+",
        _ => b"",
    }
}

/// Returns the `+` that stands before a byte again and again, if one does.
fn plus_before_times(last: Last) -> &'static [u8]
    ensures { result.now ≡ plus_before_times last }
{
    match last {
        Last::Nothing => b"",
        _ => b"+",
    }
}

/// Puts digits of a byte, which stands once or twice, behind what stands there.
fn put_digits(text: &mut Vec<u8>, last: Last, byte: u8, times: usize) -> Result<(), AllocError>
    requires some { 0 < times }
    requires few { times < 3 }
    ensures { Puts result text.old.items text.new.items (run_text last (byte, times)) }
{
    let digits = digits_of(byte);
    put(text, plus_before_digits(last))?;
    put(text, &digits)?;
    if times < 2 {
        return Ok(());
    }
    put(text, &digits)
}

/// Puts a byte, which stands three times or more, behind what stands there.
fn put_times(text: &mut Vec<u8>, last: Last, byte: u8, times: usize) -> Result<(), AllocError>
    requires { 3 ≤ times }
    ensures { Puts result text.old.items text.new.items (run_text last (byte, times)) }
{
    put(text, plus_before_times(last))?;
    put(text, &digits_of(byte))?;
    put(text, b"*")?;
    put_decimal(text, times as u64)
}

/// Puts a run behind what stands there, and returns what stands there then.
fn put_run(text: &mut Vec<u8>, last: Last, byte: u8, times: usize) -> Result<Last, AllocError>
    requires { 0 < times }
    ensures text { Puts result text.old.items text.new.items (run_text last (byte, times)) }
    ensures last { IfOk result (λ now. now ≡ behind_run times) }
{
    if times < 3 {
        put_digits(text, last, byte, times)?;
        return Ok(Last::Digits);
    }
    put_times(text, last, byte, times)?;
    Ok(Last::Times)
}

/// Puts the short form of bytes behind a text.
#[tactic(auto, using(crate::proofs::Shortened::short_runs, crate::proofs::Putting::going_begins, crate::proofs::Putting::going_stops))]
fn put_short(text: &mut Vec<u8>, bytes: &[u8]) -> Result<(), AllocError>
    ensures { Puts result text.old.items text.new.items (short bytes.now) }
{
    let mut last = Last::Nothing;
    let mut rest = bytes;
    while rest.len() > 0 {
        let times = first_run_of(rest);
        last = put_run(text, last, rest[0], times)?;
        rest = &rest[times..];
    }
    Ok(())
}

/// Puts the short form of any bytes behind a text.
/// On want of memory it returns `AllocError`, and the text begins with what it was.
/// Rule: this project's own.
#[tactic(auto, unfolding(snow_text_model::specs::Model::Bytes::bytes_text))]
pub fn put_bytes(text: &mut Vec<u8>, bytes: &[u8]) -> Result<(), AllocError>
    ensures { Puts result text.old.items text.new.items (bytes_text bytes.now) }
{
    if bytes.is_empty() {
        return put(text, b".");
    }
    put_short(text, bytes)
}

/// Returns the bytes without the zeros at the end, but for one where all are zeros.
#[tactic(auto, using(crate::proofs::Shortened::trimmed_less, crate::proofs::Shortened::trimmed_whole, crate::proofs::Shortened::some_taken, crate::proofs::Shortened::one_kept))]
fn without_zeros(bytes: &[u8]) -> &[u8]
    requires { 0 < length bytes.now }
    ensures { result.now ≡ some_of (trimmed bytes.now) }
{
    let mut end = bytes.len();
    while end > 1 {
        if bytes[end - 1] != 0 {
            return &bytes[..end];
        }
        end -= 1;
    }
    &bytes[..1]
}

/// Puts the short form of bytes whose number is known behind a text.
/// On want of memory it returns `AllocError`, and the text begins with what it was.
/// Rule: this project's own.
#[tactic(auto, unfolding(snow_text_model::specs::Model::Bytes::fixed_text))]
pub fn put_fixed(text: &mut Vec<u8>, bytes: &[u8]) -> Result<(), AllocError>
    requires { 0 < length bytes.now }
    ensures { Puts result text.old.items text.new.items (fixed_text bytes.now) }
{
    let front = without_zeros(bytes);
    if front.len() == bytes.len() {
        return put_short(text, bytes);
    }
    put_short(text, front)?;
    put(text, b"..")
}

/// Puts a space and the short form of bytes whose number is known behind a text.
/// On want of memory it returns `AllocError`, and the text begins with what it was.
/// Rule: this project's own.
pub fn put_fixed_word(text: &mut Vec<u8>, bytes: &[u8]) -> Result<(), AllocError>
    requires { 0 < length bytes.now }
    ensures { Puts result text.old.items text.new.items (32 ∷ fixed_text bytes.now) }
{
    put(text, b" ")?;
    put_fixed(text, bytes)
}
