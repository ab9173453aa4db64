//! Compares bytes many at a time.
ghost use Rattle.std.specs.Prelude.{◌≡◌, ◌+◌, ◌-◌, ◌≤◌, length, bytes_eq, slice_index};
ghost use Rattle.std.specs.Cmp.Lexicographic.{slice_cmp};
ghost use Rattle.std.specs.Ordering.{nat_cmp};
ghost use Rattle.snow_base.specs.Kept.Words.{high_first};
ghost use Rattle.snow_base.specs.Model.Identifier.{eight_from};

use std::cmp::Ordering;

// Whether all bytes are equal. It compares eight at a time, as a hash reads them, and doesn't
// branch on them.
#[inline(always)]
pub(crate) fn are_equal(a: &[u8], b: &[u8]) -> bool
    requires same { length a.now ≡ length b.now }
    requires long { 8 ≤ length a.now }
    ensures { result ≡ bytes_eq a.now b.now }
{
    let mut same = true;
    for at in 0..a.len().div_ceil(8) {
        let from = (a.len() - 8).min(8 * at);
        same = same & (low_word(a, from) == low_word(b, from));
    }
    same
}

// Order by bytes: the first one that differs decides. It compares eight at a time; the last eight may
// have been looked at in part.
#[inline(always)]
pub(crate) fn order(a: &[u8], b: &[u8]) -> Ordering
    requires same { length a.now ≡ length b.now }
    requires long { 8 ≤ length a.now }
    ensures { result ≡ slice_cmp nat_cmp a.now b.now }
{
    let last = a.len() - 8;
    for at in 0..a.len().div_ceil(8) {
        let from = last.min(8 * at);
        let (x, y) = (high_word(a, from), high_word(b, from));
        if x != y {
            return x.cmp(&y);
        }
    }
    Ordering::Equal
}

// Eight bytes as a number, the first one the highest: so numbers stand in the order of bytes.
#[inline]
fn high_word(bytes: &[u8], from: usize) -> u64
    requires { from + 8 ≤ length bytes.now }
    ensures { result ≡ high_first (λ k. slice_index bytes.now (from + k)) 8 }
{
    u64::from_be_bytes(eight(bytes, from))
}

// Eight bytes as a number, the first one the lowest, as the machine reads them.
#[inline(always)]
fn low_word(bytes: &[u8], from: usize) -> u64
    requires { from + 8 ≤ length bytes.now }
    ensures { result ≡ high_first (λ k. slice_index bytes.now (from + (7 - k))) 8 }
{
    u64::from_le_bytes(eight(bytes, from))
}

// Eight bytes from a place on.
#[inline(always)]
pub(crate) fn eight(bytes: &[u8], from: usize) -> [u8; 8]
    requires { from + 8 ≤ length bytes.now }
    ensures { result ≡ eight_from bytes.now from }
{
    [
        bytes[from],
        bytes[from + 1],
        bytes[from + 2],
        bytes[from + 3],
        bytes[from + 4],
        bytes[from + 5],
        bytes[from + 6],
        bytes[from + 7],
    ]
}
