ghost use Rattle.std.specs.Prelude.{◌≡◌, ◌≤◌, ◌^◌, ℕ, List, Option, IfSome, nat_lt, length, take, drop, if◌then◌else◌, Some, None, IfOk};
ghost use Rattle.hex.specs.Hex.{decode_of};
ghost use Rattle.snow_reading.specs.Model.Reading.{number_of, bytes_of, block_of, draw_of, if_digits, if_draw, value_after};

use hex::FromHexError;
use snow_base::{Bytes, Id, NodeId};
use snow_digits::{Text, id_digits, node_digits};
use snow_lines::Draw;
use std::alloc::{AllocError, Global};

/// What a word of a line can stand for.
/// Rule: this project's own.
pub trait Field: Sized {
    /// What a word stands for.
    ghost read: { List ℕ → Option Self };

    /// Returns what this word stands for, or `None` where it stands for no such thing.
    /// Rule: this project's own.
    fn of(word: &[u8]) -> Option<Self>
        ensures { result ≡ read word.now };
}

// The number whose text the word is.
impl Field for u64 {
    ghost read = { number_of (2 ^ 64) };

    #[tactic(auto, unfolding(crate::specs::Model::Reading::number_of))]
    fn of(word: &[u8]) -> Option<u64> {
        let number = value(word)?;
        let mut buffer = itoa::Buffer::new();
        if buffer.format(number).as_bytes() == word {
            Some(number)
        } else {
            None
        }
    }
}

impl Field for u32 {
    ghost read = { number_of (2 ^ 32) };

    #[tactic(auto, unfolding(crate::specs::Model::Reading::number_of))]
    fn of(word: &[u8]) -> Option<u32> {
        u32::try_from(u64::of(word)?).ok()
    }
}

// The number that the bytes write as if each was a digit, where it has 64 bits.
fn value(word: &[u8]) -> Option<u64>
    ensures { result ≡ (if nat_lt (value_after 0 word.now) (2 ^ 64) then Some (value_after 0 word.now) else None) }
{
    let mut value = 0u64;
    for byte in word {
        let digit = u64::from(byte.saturating_sub(b'0'));
        value = value.checked_mul(10)?.checked_add(digit)?;
    }
    Some(value)
}

// The identifier whose digits the word is.
impl Field for Id {
    ghost read = { bytes_of 32 };

    #[tactic(auto, unfolding(crate::specs::Model::Reading::bytes_of))]
    fn of(word: &[u8]) -> Option<Id> {
        let mut bytes = [0; 32];
        let decoded = hex::decode_to_slice(word, &mut bytes);
        let id = Id::from_bytes(bytes);
        if decoded.is_ok() && id_digits(&id).as_slice() == word {
            Some(id)
        } else {
            None
        }
    }
}

impl Field for NodeId {
    ghost read = { bytes_of 20 };

    #[tactic(auto, unfolding(crate::specs::Model::Reading::bytes_of))]
    fn of(word: &[u8]) -> Option<NodeId> {
        let mut bytes = [0; 20];
        let decoded = hex::decode_to_slice(word, &mut bytes);
        let node = NodeId::from_bytes(bytes);
        if decoded.is_ok() && node_digits(&node).as_slice() == word {
            Some(node)
        } else {
            None
        }
    }
}

/// Returns the draw whose word this is, with a count of at least 1, or `None` where it is no
/// draw's.
/// Rule: this project's own.
#[tactic(auto, unfolding(crate::specs::Model::Reading::draw_of))]
pub fn draw(word: &[u8]) -> Option<Draw>
    ensures draw { result ≡ draw_of word.now }
    ensures count { IfSome result (λ d. 1 ≤ d.count) }
{
    if word.len() < 41 {
        return None;
    }
    let node = NodeId::of(front(word, 40))?;
    let count = u32::of(behind(word, 41))?;
    drawn(Draw { node, count }, word)
}

// So many bytes in front.
fn front(word: &[u8], at: usize) -> &[u8]
    requires { at ≤ length word.now }
    ensures { result.now ≡ take at word.now }
{
    &word[..at]
}

// The bytes behind so many.
fn behind(word: &[u8], at: usize) -> &[u8]
    requires { at ≤ length word.now }
    ensures { result.now ≡ drop at word.now }
{
    &word[at..]
}

// The draw, where the word is its.
fn drawn(draw: Draw, word: &[u8]) -> Option<Draw>
    ensures draw { result ≡ if_draw word.now draw }
    ensures count { IfSome result (λ d. 1 ≤ d.count) }
{
    let mut text: Text<64> = Text::new();
    text.push(&node_digits(&draw.node));
    text.push_number(b'*', u64::from(draw.count));
    if 1 <= draw.count && text.as_slice() == word {
        Some(draw)
    } else {
        None
    }
}

/// Returns the block whose word this is, or `None` where it is no block's. On want of memory it
/// returns `AllocError`.
/// Rule: this project's own.
#[tactic(auto, unfolding(crate::specs::Model::Reading::block_of))]
pub fn block(alloc: Global, word: &[u8]) -> Result<Option<Bytes>, AllocError>
    ensures { IfOk result (λ r. r ≡ block_of word.now) }
{
    if word.is_empty() {
        return Ok(None);
    }
    if word == b".".as_slice() {
        return Ok(Some(Bytes::new(alloc)));
    }
    digits(alloc, word)
}

// The bytes whose digits the word is.
fn digits(alloc: Global, word: &[u8]) -> Result<Option<Bytes>, AllocError>
    ensures { IfOk result (λ r. r ≡ if_digits word.now (decode_of word.now)) }
{
    match hex::decode(alloc, word) {
        Err(FromHexError::OutOfMemory) => Err(AllocError),
        Err(_) => Ok(None),
        Ok(bytes) => {
            let again = hex::encode(alloc, bytes.as_slice())?;
            if again.as_bytes() == word {
                Ok(Some(Bytes::from_slice(alloc, bytes.as_slice())?))
            } else {
                Ok(None)
            }
        }
    }
}
