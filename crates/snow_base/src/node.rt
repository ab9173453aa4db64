ghost use Rattle.std.specs.Prelude.{◌≡◌, ◌≤◌, length};
ghost use Rattle.snow_base.specs.Model.Identifier.{word_at};

use crate::comparing::{are_equal, eight, order};
use std::cmp::Ordering;
use std::marker::Model;

/// A node's identifier: 20 bytes, which contracts see as a list of bytes.
/// Rule: AvalancheGo, snow/engine/snowman.
#[derive(Clone, Copy, Debug, Eq)]
pub struct NodeId {
    bytes: [u8; 20],
}

impl Model for NodeId {
    ghost use Rattle.std.specs.Prelude.{ℕ, List};

    ghost Value = { List ℕ };

    ghost view = { λ a. a.bytes };

    ghost inverse = { λ bytes. record { bytes = bytes } };
}

impl PartialEq for NodeId {
    ghost use Rattle.std.specs.Prelude.{bytes_eq};
    ghost use Rattle.std.specs.Cmp.Rules.{comparing};
    ghost use Rattle.std.proofs.Common.{rules};

    ghost eq = { bytes_eq };

    ghost laws = { Prim.search (comparing, rules) };

    #[inline(always)]
    fn eq(&self, other: &Self) -> bool {
        are_equal(&self.bytes, &other.bytes)
    }
}

impl PartialOrd for NodeId {
    ghost use Rattle.std.specs.Cmp.Lexicographic.{slice_cmp, texts_po};
    ghost use Rattle.std.specs.Ordering.{nat_cmp, as_partial_cmp};

    ghost partial_cmp = { as_partial_cmp (slice_cmp nat_cmp) };

    ghost laws = { texts_po };

    #[inline]
    fn partial_cmp(&self, other: &Self) -> Option<Ordering> {
        Some(self.cmp(other))
    }
}

impl Ord for NodeId {
    ghost use Rattle.std.specs.Prelude.{refl};
    ghost use Rattle.std.specs.Cmp.Lexicographic.{slice_cmp, nat_list_cmp_total, texts_ties};
    ghost use Rattle.std.specs.Ordering.{nat_cmp};

    ghost cmp = { slice_cmp nat_cmp };

    ghost total = { nat_list_cmp_total };

    ghost matches_partial_cmp = { λ x y. refl };

    ghost matches_eq = { texts_ties };

    #[inline]
    fn cmp(&self, other: &Self) -> Ordering {
        order(&self.bytes, &other.bytes)
    }
}

impl NodeId {
    /// Returns the identifier of these 20 bytes. Any bytes are one.
    /// Rule: AvalancheGo, snow/engine/snowman.
    pub fn from_bytes(bytes: [u8; 20]) -> Self
        ensures { result ≡ bytes }
    {
        NodeId { bytes }
    }

    /// Returns its 20 bytes.
    /// Rule: AvalancheGo, snow/engine/snowman.
    pub fn as_bytes(&self) -> &[u8; 20]
        ensures bytes { result.now ≡ self.now }
        ensures length { length self.now ≡ 20 }
    {
        &self.bytes
    }
    /// Returns the eight bytes from place `from` on as a number, the first one the lowest. `from`
    /// is at most 12.
    /// Rule: this project's own.
    pub fn word(&self, from: usize) -> u64
        requires { from ≤ 12 }
        ensures { result ≡ word_at from self.now }
    {
        u64::from_le_bytes(eight(&self.bytes, from))
    }
}
