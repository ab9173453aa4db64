ghost use Rattle.std.specs.Prelude.{◌≡◌, ◌≢◌, ℕ, ◌+◌, ◌*◌, ◌/◌, ◌^◌, ◌<◌, ◌≤◌, length, slice_index};
ghost use Rattle.std.specs.Int.{bit_at};

use crate::comparing::{are_equal, eight, order};
use std::cmp::Ordering;
use std::hash::{Hash, Hasher};
use std::marker::Model;

/// A block's identifier: 32 bytes, which contracts see as a list of bytes. Its 256 bits choose the
/// counters of a conflict.
/// Rule: AvalancheGo, snow/consensus/snowman.
#[derive(Clone, Copy, Debug, Eq)]
pub struct Id {
    bytes: [u8; 32],
}

impl Model for Id {
    ghost use Rattle.std.specs.Prelude.{ℕ, List};

    ghost Value = { List ℕ };

    ghost view = { λ a. a.bytes };

    ghost inverse = { λ bytes. record { bytes = bytes } };
}

impl PartialEq for Id {
    ghost use Rattle.std.specs.Prelude.{bytes_eq};
    ghost use Rattle.std.specs.Cmp.Rules.{comparing};
    ghost use Rattle.std.proofs.Common.{rules};

    ghost eq = { bytes_eq };

    ghost laws = { Prim.search (comparing, rules) };

    #[inline(always)]
    fn eq(&self, other: &Self) -> bool {
        are_equal(&self.bytes, &other.bytes)
    }
}

impl PartialOrd for Id {
    ghost use Rattle.std.specs.Cmp.Lexicographic.{slice_cmp, texts_po};
    ghost use Rattle.std.specs.Ordering.{nat_cmp, as_partial_cmp};

    ghost partial_cmp = { as_partial_cmp (slice_cmp nat_cmp) };

    ghost laws = { texts_po };

    #[inline]
    fn partial_cmp(&self, other: &Self) -> Option<Ordering> {
        Some(self.cmp(other))
    }
}

impl Ord for Id {
    ghost use Rattle.std.specs.Prelude.{refl};
    ghost use Rattle.std.specs.Cmp.Lexicographic.{slice_cmp, nat_list_cmp_total, texts_ties};
    ghost use Rattle.std.specs.Ordering.{nat_cmp};

    ghost cmp = { slice_cmp nat_cmp };

    ghost total = { nat_list_cmp_total };

    ghost matches_partial_cmp = { λ x y. refl };

    ghost matches_eq = { texts_ties };

    #[inline]
    fn cmp(&self, other: &Self) -> Ordering {
        order(&self.bytes, &other.bytes)
    }
}

impl Hash for Id {
    ghost use Rattle.std.specs.Prelude.{[], ◌∷◌};
    ghost use Rattle.std.specs.Cmp.Rules.{comparing, hashing};
    ghost use Rattle.std.proofs.Common.{rules};

    ghost hash_input = { λ a. a ∷ [] };

    ghost respects_eq = { Prim.search (hashing, rules) };

    #[inline]
    fn hash<H: Hasher>(&self, state: &mut H) {
        state.write(&self.bytes);
    }
}

impl Id {
    ghost use Rattle.snow_base.specs.Model.Identifier.{bit, bit_cmp, AgreeFrom, FirstDiffers};
    ghost use Rattle.snow_base.specs.Clauses.Gathered.{IsNamed};
    ghost use Rattle.snow_base.specs.Kept.Words.{IsWord};

    /// Returns the identifier of these 32 bytes. Any bytes are one.
    /// Rule: AvalancheGo, snow/consensus/snowman.
    pub fn from_bytes(bytes: [u8; 32]) -> Self
        ensures { result ≡ bytes }
    {
        Id { bytes }
    }

    /// Returns its 32 bytes.
    /// Rule: AvalancheGo, snow/consensus/snowman.
    pub fn as_bytes(&self) -> &[u8; 32]
        ensures bytes { result.now ≡ self.now }
        ensures length { length self.now ≡ 32 }
    {
        &self.bytes
    }

    // It has 32 bytes, which contracts see as a list of numbers.
    pub(crate) fn named(&self)
        ensures { IsNamed self.now }
    {
        small(self.as_bytes());
    }

    /// Returns bit `i`, which is below 256: bit `i % 8`, counted from the least significant, of
    /// byte `i / 8`. A 1 is `true`.
    /// Rule: AvalancheGo, snow/consensus/snowball.
    pub fn bit(&self, i: u16) -> bool
        requires { i < 256 }
        ensures { result ≡ bit self.now i }
    {
        (self.bytes[usize::from(i / 8)] >> (i % 8)) & 1 == 1
    }

    // The 64 bits from bit `64 * at` on, the first one the lowest.
    #[inline]
    pub(crate) fn word(&self, at: usize) -> u64
        requires { at < 4 }
        ensures { IsWord self.now at result }
    {
        small(&self.bytes);
        u64::from_le_bytes(eight(&self.bytes, 8 * at))
    }

    /// Compares two identifiers in bit order: by bit 0 first, then by bit 1, and so on. A 0 stands
    /// before a 1. It returns `Equal` for the same bytes alone.
    /// Rule: this project's own.
    #[inline]
    pub fn bit_cmp(&self, other: &Id) -> Ordering
        ensures { result ≡ bit_cmp self.now other.now }
    {
        let (a, b) = (self.word(0), other.word(0));
        if a == b {
            return self.bit_cmp_past(other);
        }
        if (a >> lowest_differing(a, b)) & 1 == 0 {
            Ordering::Less
        } else {
            Ordering::Greater
        }
    }

    // Bit order behind the first 64 bits, which agree: mostly the two are one then.
    #[inline(never)]
    fn bit_cmp_past(&self, other: &Id) -> Ordering
        requires { AgreeFrom 0 64 self.now other.now }
        ensures { result ≡ bit_cmp self.now other.now }
    {
        if self == other {
            return Ordering::Equal;
        }
        match self.first_past(other, 1) {
            None => Ordering::Equal,
            Some(i) => self.bit(i).cmp(&other.bit(i)),
        }
    }

    /// Returns the first bit from `from` up to, not including, `to` at which the two differ. `from`
    /// is at most `to`, and `to` at most 256. It returns `None` exactly where they agree on these
    /// bits.
    /// Rule: AvalancheGo, snow/consensus/snowball.
    #[inline]
    pub fn first_difference(&self, other: &Id, from: u16, to: u16) -> Option<u16>
        requires order { from ≤ to }
        requires within { to ≤ 256 }
        ensures { FirstDiffers from to self.now other.now result }
    {
        if from == to {
            return None;
        }
        let found = match self.first_in_word(other, from) {
            Some(i) => Some(i),
            None => self.first_past(other, from / 64 + 1),
        };
        match found {
            Some(i) if i < to => Some(i),
            _ => None,
        }
    }

    // The first difference up to the end of the 64 bits among which `from` is.
    #[inline]
    fn first_in_word(&self, other: &Id, from: u16) -> Option<u16>
        requires { from < 256 }
        ensures { FirstDiffers from (64 * (from / 64) + 64) self.now other.now result }
    {
        let at = usize::from(from / 64);
        let a = self.word(at) >> (from % 64);
        let b = other.word(at) >> (from % 64);
        if a == b {
            return None;
        }
        Some(from + lowest_differing(a, b))
    }

    // The first difference from bit `64 * from` on.
    #[inline(never)]
    fn first_past(&self, other: &Id, from: u16) -> Option<u16>
        requires { from ≤ 4 }
        ensures { FirstDiffers (64 * from) 256 self.now other.now result }
    {
        for at in from..4 {
            if let Some(i) = self.first_in_word(other, 64 * at) {
                return Some(i);
            }
        }
        None
    }
}

// Bytes are small, as their type says.
fn small(bytes: &[u8])
    ensures { (i : ℕ) → slice_index bytes.now i < 2 ^ 8 }
{
    let _len = bytes.len();
}

// The lowest bit in which two numbers differ.
#[inline]
fn lowest_differing(a: u64, b: u64) -> u16
    requires { a ≢ b }
    ensures within { result < 64 }
    ensures below { (k : ℕ) → k < result → bit_at a k ≡ bit_at b k }
    ensures differs { bit_at a result ≢ bit_at b result }
{
    (a ^ b).trailing_zeros() as u16
}
