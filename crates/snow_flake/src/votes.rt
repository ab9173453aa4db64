ghost use Rattle.std.specs.Prelude.{◌≡◌, ◌<◌, ◌+◌};
ghost use Rattle.snow_flake.specs.Model.Counter.{raised, next_confidence, class};

use crate::params::Params;

/// Returns a strength after one more poll that followed its bit: one more, or 2^64-1 once it is
/// there.
/// Rule: the Snow family paper.
pub fn raised_strength(strength: u64) -> u64
    ensures { result ≡ raised strength }
{
    strength.saturating_add(1)
}

/// Returns the confidence after a poll with so many votes for one bit; `same` tells whether that
/// bit is the flake. `confidence` is below 2^32-1. Below AlphaPreference votes it is 0, from there
/// to below AlphaConfidence too. With AlphaConfidence votes it is one more for the flake, and 1 for
/// the other bit.
/// Rule: AvalancheGo, snow/consensus/snowball.
pub fn confidence_after(params: &Params, votes: u32, same: bool, confidence: u32) -> u32
    requires { confidence + 1 < 4294967296 }
    ensures { result ≡ next_confidence (class params.now votes) same confidence }
{
    if votes < params.alpha_preference() || votes < params.alpha_confidence() {
        0
    } else if same {
        confidence + 1
    } else {
        1
    }
}
