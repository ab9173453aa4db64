ghost use Rattle.std.specs.Prelude.{◌≡◌, ◌*◌, ◌^◌, ◌<◌, ◌≤◌, ◌∷◌, ◌++◌, length, take, decimal};
ghost use Rattle.hex.specs.Hex.{encode_lower};

use crate::lanes::{write_last_four, write_sixteen};
use snow_base::{Id, NodeId};

/// Writes the lower-case hexadecimal digits of bytes over a slice of just their length, which is
/// twice that of the bytes.
/// Rule: this project's own.
pub fn write_hex(bytes: &[u8], digits: &mut [u8])
    requires { length digits.old ≡ 2 * length bytes.now }
    ensures { digits.new ≡ encode_lower bytes.now }
{
    let written: Result<_, _> = hex::encode_to_slice(bytes, digits);
    let _ = written.unwrap();
}

/// Writes the digits of an identifier over a slice of 64 bytes.
/// Rule: this project's own.
#[tactic(auto, using(crate::proofs::Encoded::digits_append))]
#[inline(always)]
pub fn write_id(id: &Id, digits: &mut [u8])
    requires { length digits.old ≡ 64 }
    ensures { digits.new ≡ encode_lower id.now }
{
    let (front, back) = id.as_bytes().split_at(16);
    let (front_digits, back_digits) = digits.split_at_mut(32);
    write_sixteen(front, front_digits);
    write_sixteen(back, back_digits);
}

/// Writes the digits of a node over a slice of 40 bytes. It looks those of the last four bytes up
/// in the table with the twelve before them.
/// Rule: this project's own.
#[tactic(auto, using(crate::proofs::Encoded::node_parts))]
#[inline(always)]
pub fn write_node(node: &NodeId, digits: &mut [u8])
    requires { length digits.old ≡ 40 }
    ensures { digits.new ≡ encode_lower node.now }
{
    let bytes = node.as_bytes();
    let (front, _) = bytes.split_at(16);
    let (_, last) = bytes.split_at(4);
    let (front_digits, last_digits) = digits.split_at_mut(32);
    write_sixteen(front, front_digits);
    write_last_four(last, last_digits);
}

/// Returns the 64 digits of an identifier.
/// Rule: this project's own.
pub fn id_digits(id: &Id) -> [u8; 64]
    ensures { result ≡ encode_lower id.now }
{
    let mut digits = [0; 64];
    write_id(id, &mut digits);
    digits
}

/// Returns the 40 digits of a node.
/// Rule: this project's own.
pub fn node_digits(node: &NodeId) -> [u8; 40]
    ensures { result ≡ encode_lower node.now }
{
    let mut digits = [0; 40];
    write_node(node, &mut digits);
    digits
}

/// Writes a mark and a number below 2^64 in decimal behind it at the end of a buffer, and returns
/// them, at most 21 bytes.
/// Rule: this project's own.
#[tactic(auto, using(crate::proofs::Figures::decimal_short))]
pub fn marked(mark: u8, number: u64, buffer: &mut [u8; 21]) -> &[u8]
    ensures text { result.now ≡ mark ∷ decimal number }
    ensures length { length result.now ≤ 21 }
{
    let start = itoa::write_digits(number, buffer, 21);
    buffer[start - 1] = mark;
    &buffer[start - 1..]
}

/// Writes a mark of at most 6 bytes and a number below 2^32 in decimal behind it to the front of a
/// piece of 16 bytes. It returns the piece, and how long the text is, at most 16 bytes.
/// Rule: this project's own.
#[tactic(auto, using(crate::proofs::Figures::decimal_shorter))]
#[inline(always)]
pub fn marked_short<'a, const M: usize>(
    mark: &[u8; M],
    number: u64,
    buffer: &'a mut [u8; 32],
) -> (&'a [u8], usize)
    requires mark { M ≤ 6 }
    requires number { number < 2 ^ 32 }
    ensures text { take result.1 result.0.now ≡ mark.now ++ decimal number }
    ensures piece { length result.0.now ≡ 16 }
    ensures length { result.1 ≤ 16 }
{
    let start = itoa::write_digits(number, buffer, 16);
    buffer[start - M..start].copy_from_slice(mark);
    (&buffer[start - M..start - M + 16], 16 - start + M)
}

/// Writes a mark of at most 12 bytes and a number below 2^64 in decimal behind it to the front of a
/// piece of 32 bytes. It returns the piece, and how long the text is, at most 32 bytes.
/// Rule: this project's own.
#[tactic(auto, using(crate::proofs::Figures::decimal_short))]
#[inline(always)]
pub fn marked_long<'a, const M: usize>(
    mark: &[u8; M],
    number: u64,
    buffer: &'a mut [u8; 64],
) -> (&'a [u8], usize)
    requires { M ≤ 12 }
    ensures text { take result.1 result.0.now ≡ mark.now ++ decimal number }
    ensures piece { length result.0.now ≡ 32 }
    ensures length { result.1 ≤ 32 }
{
    let start = itoa::write_digits(number, buffer, 32);
    buffer[start - M..start].copy_from_slice(mark);
    (&buffer[start - M..start - M + 32], 32 - start + M)
}
