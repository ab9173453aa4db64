//! The words of lists.

ghost use Rattle.std.specs.Prelude.{◌≡◌, ◌<◌, ◌≤◌, [], ◌∷◌, ◌++◌, length, drop, map, slice_index};
ghost use Rattle.byteorder.specs.Endian.{big_number};
ghost use Rattle.snow_wire.specs.Clauses.Spelled.{weighed_in};
ghost use Rattle.snow_text_model.specs.Model.Bytes.{fixed_text, runs_of};
ghost use Rattle.snow_text_model.specs.Model.Shown.{times_text, times_texts, weighed_text};
ghost use Rattle.snow_show.specs.Clauses.Putting.{Puts};
ghost use Rattle.snow_show.specs.Kept.Listing.{led};
ghost use Rattle.snow_show.specs.Kept.Shortening.{times_in_front};

use crate::bytes::{MOST_TIMES, put_fixed, put_fixed_word};
use crate::put::{put, put_decimal};
use byteorder::{BigEndian, ByteOrder};
use std::alloc::AllocError;

/// Puts identifiers behind a text, with a space before each.
/// On want of memory it returns `AllocError`, and the text begins with what it was.
/// Rule: this project's own.
#[tactic(auto, using(crate::proofs::Putting::going_begins, crate::proofs::Putting::going_stops))]
pub fn put_ids(text: &mut Vec<u8>, ids: &[[u8; 32]]) -> Result<(), AllocError>
    ensures { Puts result text.old.items text.new.items (led (32 ∷ []) (32 ∷ []) (map fixed_text ids.now)) }
{
    for id in ids {
        put_fixed_word(text, id)?;
    }
    Ok(())
}

/// Puts a node and its weight, in 28 bytes, behind a text.
fn put_node(text: &mut Vec<u8>, node: &[u8; 28]) -> Result<(), AllocError>
    ensures { Puts result text.old.items text.new.items (weighed_text (weighed_in node.now)) }
{
    let (name, weight) = node.split_at(20);
    put_fixed(text, name)?;
    put(text, b":")?;
    put_decimal(text, BigEndian::read_u64(weight))
}

/// Puts a mark and a node behind a text.
fn put_marked_node(text: &mut Vec<u8>, mark: &[u8], node: &[u8; 28]) -> Result<(), AllocError>
    ensures { Puts result text.old.items text.new.items (mark.now ++ weighed_text (weighed_in node.now)) }
{
    put(text, mark)?;
    put_node(text, node)
}

/// Puts nodes behind a text, with a mark before the first, and a comma before each other.
/// On want of memory it returns `AllocError`, and the text begins with what it was.
/// Rule: this project's own.
#[tactic(auto, using(crate::proofs::Putting::going_begins, crate::proofs::Putting::going_stops))]
pub fn put_nodes(text: &mut Vec<u8>, mark: &[u8], nodes: &[[u8; 28]]) -> Result<(), AllocError>
    ensures { Puts result text.old.items text.new.items (led mark.now (44 ∷ []) (map (λ n. weighed_text (weighed_in n)) nodes.now)) }
{
    let mut before = mark;
    for node in nodes {
        put_marked_node(text, before, node)?;
        before = b",";
    }
    Ok(())
}

/// Returns how often the first number stands in front, at least once.
fn times_of(numbers: &[[u8; 8]]) -> usize
    requires { 0 < length numbers.now }
    ensures times { result ≡ times_in_front (slice_index (map (big_number 8) numbers.now) 0) (map (big_number 8) numbers.now) }
    ensures some { 0 < result }
    ensures within { result ≤ length numbers.now }
{
    let number = BigEndian::read_u64(&numbers[0]);
    for times in 1..numbers.len() {
        if BigEndian::read_u64(&numbers[times]) != number {
            return times;
        }
    }
    numbers.len()
}

/// Returns the length of the first run.
fn first_run_of(numbers: &[[u8; 8]]) -> usize
    requires { 0 < length numbers.now }
    ensures runs { runs_of (map (big_number 8) numbers.now)
        ≡ (slice_index (map (big_number 8) numbers.now) 0, result) ∷ runs_of (drop result (map (big_number 8) numbers.now)) }
    ensures some { 0 < result }
    ensures within { result ≤ length numbers.now }
{
    (times_of(numbers) - 1) % MOST_TIMES + 1
}

/// Puts a number that stands so often in a row behind a text.
fn put_run(text: &mut Vec<u8>, number: u64, times: usize) -> Result<(), AllocError>
    ensures { Puts result text.old.items text.new.items (times_text (number, times)) }
{
    put_decimal(text, number)?;
    if times == 1 {
        return Ok(());
    }
    put(text, b"*")?;
    put_decimal(text, times as u64)
}

/// Puts a mark, and a number that stands so often in a row, behind a text.
fn put_marked_run(
    text: &mut Vec<u8>,
    mark: &[u8],
    number: u64,
    times: usize,
) -> Result<(), AllocError>
    ensures { Puts result text.old.items text.new.items (mark.now ++ times_text (number, times)) }
{
    put(text, mark)?;
    put_run(text, number, times)
}

/// Puts numbers behind a text, with a mark before the first word, and a gap before each other.
/// On want of memory it returns `AllocError`, and the text begins with what it was.
/// Rule: this project's own.
#[tactic(auto, using(crate::proofs::Putting::going_begins, crate::proofs::Putting::going_stops))]
pub fn put_numbers(
    text: &mut Vec<u8>,
    mark: &[u8],
    gap: &[u8],
    numbers: &[[u8; 8]],
) -> Result<(), AllocError>
    ensures { Puts result text.old.items text.new.items (led mark.now gap.now (times_texts (map (big_number 8) numbers.now))) }
{
    let mut before = mark;
    let mut rest = numbers;
    while rest.len() > 0 {
        let times = first_run_of(rest);
        put_marked_run(text, before, BigEndian::read_u64(&rest[0]), times)?;
        before = gap;
        let (_, more) = rest.split_at(times);
        rest = more;
    }
    Ok(())
}
