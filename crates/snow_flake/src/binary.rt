ghost use Rattle.std.specs.Prelude.{◌≡◌, ◌<◌, ◌≤◌, false, true, not, nat_lt, if◌then◌else◌};
ghost use Rattle.std.specs.Bool.{beq};
ghost use Rattle.snow_base.specs.declared.limits.TheConstants.{MOST_BETA};

use crate::params::Params;
use crate::rule::Rule;
use crate::votes::{confidence_after, raised_strength};
use std::marker::Model;

/// A one-bit instance of Snowball or Snowflake: a preference, a flake, a strength of each bit, a
/// confidence, and whether it is final. Polls move it until it is final.
/// Rule: the Snow family paper.
#[derive(Clone, Copy, Debug, PartialEq, Eq)]
pub struct Binary {
    preference: bool,
    flake: bool,
    strength_zero: u64,
    strength_one: u64,
    confidence: u32,
    decided: bool,
}

impl Model for Binary {
    ghost use Rattle.std.specs.Prelude.{◌≡◌, ◌<◌, false};
    ghost use Rattle.snow_base.specs.declared.limits.TheConstants.{MOST_BETA};
    ghost use Rattle.snow_flake.specs.Kept.Instance.{Instance};

    ghost Value = { Instance };

    ghost view = { λ a. record {
      standing = record {
        preference = a.preference;
        flake = a.flake;
        strength_zero = a.strength_zero;
        strength_one = a.strength_one;
        confidence = a.confidence;
      };
      final = a.decided;
    } };

    ghost invariant = { λ a. a.decided ≡ false → a.confidence < MOST_BETA };

    ghost inverse = { λ i. record {
      preference = i.standing.preference;
      flake = i.standing.flake;
      strength_zero = i.standing.strength_zero;
      strength_one = i.standing.strength_one;
      confidence = i.standing.confidence;
      decided = i.final;
    } };
}

impl Binary {
    ghost use Rattle.snow_flake.specs.Model.Counter.{followed, class, stepped, strength, raised};
    ghost use Rattle.snow_flake.specs.Kept.Instance.{Single, at_bit, polled, failed, on_side, judged, counter_of};
    ghost use Rattle.snow_flake.specs.Model.Parameters.{Parameters, AreGood};
    ghost use Rattle.snow_flake.specs.Model.Rule.{answer_of};

    /// Returns the instance where all choices so far had this bit.
    pub(crate) fn at_bit(bit: bool, strength: u64, confidence: u32, decided: bool) -> Self
        requires { decided ≡ false → confidence < MOST_BETA }
        ensures { let s : Single = record { strength = strength; confidence = confidence; final = decided } in
            result ≡ at_bit s bit }
    {
        Binary {
            preference: bit,
            flake: bit,
            strength_zero: if bit { 0 } else { strength },
            strength_one: if bit { strength } else { 0 },
            confidence,
            decided,
        }
    }

    /// Makes the bit step with these votes at `choice` and none at the other bit. Below
    /// AlphaPreference votes the confidence becomes 0. Else the strength of `choice` rises by one,
    /// up to 2^64-1, and the preference becomes `choice` where that strength is then the greater
    /// one. The flake becomes `choice`, and the confidence begins again at 0 where the flake
    /// changed. With AlphaConfidence votes it then rises by one; with fewer it becomes 0. At Beta
    /// the instance is final. A final instance stays as it is.
    /// Rule: the Snow family paper and AvalancheGo, snow/consensus/snowball.
    pub fn apply(&mut self, params: &Params, votes: u32, choice: bool)
        ensures instance { self.new ≡ polled params.now self.old (on_side false votes choice) (on_side true votes choice) }
        ensures counter { counter_of self.new ≡ stepped params.now (counter_of self.old)
            (on_side false votes choice) (on_side true votes choice) }
    {
        if votes < params.alpha_preference() {
            self.fail();
        } else if !self.decided {
            *self = self.after_quorum(params, votes, choice);
        }
    }

    /// Returns what the instance is after at least AlphaPreference votes for the choice.
    fn after_quorum(&self, params: &Params, votes: u32, choice: bool) -> Self
        requires open { self.now.final ≡ false }
        requires quorum { params.now.alpha_preference ≤ votes }
        ensures { result ≡ judged params.now (followed self.now.standing choice (class params.now votes)) }
    {
        let confidence = confidence_after(params, votes, self.flake == choice, self.confidence);
        Binary {
            preference: self.preference_after(choice),
            flake: choice,
            strength_zero: self.strength_after(false, choice),
            strength_one: self.strength_after(true, choice),
            confidence,
            decided: params.beta() <= confidence,
        }
    }

    fn strength(&self, bit: bool) -> u64
        ensures { result ≡ strength self.now.standing bit }
    {
        if bit {
            self.strength_one
        } else {
            self.strength_zero
        }
    }

    /// Returns the strength of a bit after a poll that followed the choice.
    fn strength_after(&self, bit: bool, choice: bool) -> u64
        ensures { result ≡ (if beq bit choice then raised (strength self.now.standing bit) else strength self.now.standing bit) }
    {
        let strength = self.strength(bit);
        if bit == choice {
            raised_strength(strength)
        } else {
            strength
        }
    }

    /// Returns the preference after a poll that followed the choice.
    fn preference_after(&self, choice: bool) -> bool
        ensures { result ≡ (if nat_lt (strength self.now.standing (not choice)) (raised (strength self.now.standing choice))
            then choice else self.now.standing.preference) }
    {
        if self.strength(!choice) < raised_strength(self.strength(choice)) {
            choice
        } else {
            self.preference
        }
    }

    /// Makes the bit step of a poll without votes: the confidence becomes 0. A final instance stays
    /// as it is.
    /// Rule: the Snow family paper.
    pub fn fail(&mut self)
        ensures instance { self.new ≡ failed self.old }
        ensures counter { (p : Parameters) → AreGood p → counter_of self.new ≡ stepped p (counter_of self.old) 0 0 }
    {
        if !self.decided {
            self.confidence = 0;
        }
    }

    /// Returns the bit that the instance answers. A final one answers its flake. Another answers as
    /// `R` says: Snowball its preference, Snowflake its flake.
    /// Rule: the Snow family paper and AvalancheGo, snow/consensus/snowball.
    pub fn preference<R: Rule>(&self) -> bool
        ensures { result ≡ answer_of R.answer (counter_of self.now) }
    {
        if self.decided {
            self.flake
        } else {
            R::answer(self.preference, self.flake)
        }
    }

    /// Returns whether the instance is decided. It then answers its flake for ever.
    /// Rule: the Snow family paper.
    pub fn is_final(&self) -> bool
        ensures { result ≡ self.now.final }
    {
        self.decided
    }

    /// Returns how many polls in a row had AlphaConfidence votes for the flake. A final instance
    /// keeps the number that it had then.
    /// Rule: the Snow family paper.
    pub fn confidence(&self) -> u32
        ensures { result ≡ self.now.standing.confidence }
    {
        self.confidence
    }
}
