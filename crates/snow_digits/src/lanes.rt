//! Hexadecimal digits, those of sixteen bytes at a time.

ghost use Rattle.std.specs.Prelude.{◌≡◌, ◌/◌, ◌%◌, ◌++◌, length, drop, map, slice_index};
ghost use Rattle.hex.specs.Hex.{encode_lower, lower_digits};

use std::simd::prelude::*;

/// The sixteen digits.
const DIGITS: [u8; 16] = *b"0123456789abcdef";

/// Returns the digit of the high four bits of each byte.
#[inline(always)]
fn high_digits(bytes: u8x16) -> u8x16
    ensures { result ≡ map (λ b. slice_index lower_digits (b / 16)) bytes }
{
    u8x16::from_array(DIGITS).swizzle_dyn(bytes >> u8x16::splat(4))
}

/// Returns the digit of the low four bits of each byte.
#[inline(always)]
fn low_digits(bytes: u8x16) -> u8x16
    ensures { result ≡ map (λ b. slice_index lower_digits (b % 16)) bytes }
{
    u8x16::from_array(DIGITS).swizzle_dyn(bytes & u8x16::splat(15))
}

/// Returns the digits of sixteen bytes: those of the first eight, and those of the others.
#[inline(always)]
fn digits_of(bytes: u8x16) -> (u8x16, u8x16)
    ensures digits { result.0 ++ result.1 ≡ encode_lower bytes }
    ensures front { length result.0 ≡ 16 }
    ensures back { length result.1 ≡ 16 }
{
    let high = high_digits(bytes);
    let low = low_digits(bytes);
    (
        high.shuffle(
            low,
            [0, 16, 1, 17, 2, 18, 3, 19, 4, 20, 5, 21, 6, 22, 7, 23],
        ),
        high.shuffle(
            low,
            [8, 24, 9, 25, 10, 26, 11, 27, 12, 28, 13, 29, 14, 30, 15, 31],
        ),
    )
}

/// Writes the lanes over a slice of just their length.
#[inline(always)]
fn put_lanes(lanes: u8x16, place: &mut [u8])
    requires { length place.old ≡ 16 }
    ensures { place.new ≡ lanes }
{
    lanes.copy_to_slice(place);
}

/// Writes the digits of 16 bytes over a slice of 32 bytes.
/// Rule: this project's own.
#[tactic(auto, using(crate::proofs::Sixteen::whole))]
#[inline(always)]
pub fn write_sixteen(bytes: &[u8], digits: &mut [u8])
    requires bytes { length bytes.now ≡ 16 }
    requires digits { length digits.old ≡ 32 }
    ensures { digits.new ≡ encode_lower bytes.now }
{
    let (front, back) = digits_of(u8x16::from_slice(bytes));
    let (front_digits, back_digits) = digits.split_at_mut(16);
    put_lanes(front, front_digits);
    put_lanes(back, back_digits);
}

/// Writes the last eight lanes over a slice of just their length.
#[inline(always)]
fn put_last(lanes: u8x16, place: &mut [u8])
    requires { length place.old ≡ 8 }
    ensures { place.new ≡ drop 8 lanes }
{
    let last: u8x8 = lanes.extract::<8, 8>();
    last.copy_to_slice(place);
}

/// Writes the digits of the last four of 16 bytes over a slice of 8 bytes.
/// Rule: this project's own.
#[inline(always)]
pub fn write_last_four(bytes: &[u8], digits: &mut [u8])
    requires bytes { length bytes.now ≡ 16 }
    requires digits { length digits.old ≡ 8 }
    ensures { digits.new ≡ encode_lower (drop 12 bytes.now) }
{
    let (_, back) = digits_of(u8x16::from_slice(bytes));
    put_last(back, digits);
}
