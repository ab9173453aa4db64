ghost use Rattle.std.specs.Prelude.{◌≡◌, ◌<◌, Bool, false, true};

use crate::binary::Binary;
use crate::params::Params;
use crate::votes::{confidence_after, raised_strength};
use std::marker::Model;

/// A one-bit instance where all choices so far have the same bit. It keeps one strength, a
/// confidence, and whether it is final.
/// Rule: AvalancheGo, snow/consensus/snowball.
#[derive(Clone, Copy, Debug, PartialEq, Eq)]
pub struct Unary {
    strength: u64,
    confidence: u32,
    decided: bool,
}

impl Model for Unary {
    ghost use Rattle.std.specs.Prelude.{◌≡◌, ◌<◌, false};
    ghost use Rattle.snow_base.specs.declared.limits.TheConstants.{MOST_BETA};
    ghost use Rattle.snow_flake.specs.Kept.Instance.{Single};

    ghost Value = { Single };

    ghost view = { λ a. record { strength = a.strength; confidence = a.confidence; final = a.decided } };

    ghost invariant = { λ a. a.decided ≡ false → a.confidence < MOST_BETA };

    ghost inverse = { λ s. record { strength = s.strength; confidence = s.confidence; decided = s.final } };
}

impl Unary {
    ghost use Rattle.snow_flake.specs.Model.Counter.{fresh};
    ghost use Rattle.snow_flake.specs.Kept.Instance.{at_bit, polled, failed, on_side, counter_of};

    /// Returns an instance that no poll has moved: strength and confidence are 0, and it isn't
    /// final.
    /// Rule: AvalancheGo, snow/consensus/snowball.
    pub fn new() -> Self
        ensures { (bit : Bool) → counter_of (at_bit result bit) ≡ fresh bit }
    {
        Unary {
            strength: 0,
            confidence: 0,
            decided: false,
        }
    }

    /// Makes the bit step with these votes at the one bit, whichever it is, and none at the other.
    /// Below AlphaPreference votes the confidence becomes 0. Else the strength rises by one, up to
    /// 2^64-1. With AlphaConfidence votes the confidence rises by one, with fewer it becomes 0. At
    /// Beta the instance is final. A final instance stays as it is.
    /// Rule: AvalancheGo, snow/consensus/snowball.
    pub fn apply(&mut self, params: &Params, votes: u32)
        ensures { (bit : Bool) → at_bit self.new bit
            ≡ polled params.now (at_bit self.old bit) (on_side false votes bit) (on_side true votes bit) }
    {
        if votes < params.alpha_preference() {
            self.fail();
        } else if !self.decided {
            self.strength = raised_strength(self.strength);
            self.confidence = confidence_after(params, votes, true, self.confidence);
            self.decided = params.beta() <= self.confidence;
        }
    }

    /// Makes the bit step of a poll without votes: the confidence becomes 0. A final instance stays
    /// as it is.
    /// Rule: AvalancheGo, snow/consensus/snowball.
    pub fn fail(&mut self)
        ensures { (bit : Bool) → at_bit self.new bit ≡ failed (at_bit self.old bit) }
    {
        if !self.decided {
            self.confidence = 0;
        }
    }

    /// Returns the same instance as one that can follow both bits. `bit` is its preference and its
    /// flake and has its strength; the other bit has strength 0. Confidence and finality stay.
    /// Rule: AvalancheGo, snow/consensus/snowball.
    pub fn extend(&self, bit: bool) -> Binary
        ensures { result ≡ at_bit self.now bit }
    {
        Binary::at_bit(bit, self.strength, self.confidence, self.decided)
    }

    /// Returns whether the instance is decided.
    /// Rule: AvalancheGo, snow/consensus/snowball.
    pub fn is_final(&self) -> bool
        ensures { result ≡ self.now.final }
    {
        self.decided
    }

    /// Returns how many polls in a row had AlphaConfidence votes. A final instance keeps the number
    /// that it had then.
    /// Rule: AvalancheGo, snow/consensus/snowball.
    pub fn confidence(&self) -> u32
        ensures { result ≡ self.now.confidence }
    {
        self.confidence
    }
}
