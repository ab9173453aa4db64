ghost use Rattle.std.specs.Prelude.{◌≡◌};

use snow_base::limits::{MOST_BETA, MOST_K};
use std::marker::Model;
use thiserror::Error;

/// Why `Params::check` refuses parameters. Where more than one holds, it returns the first in this
/// order.
/// Rule: AvalancheGo, snow/consensus/snowball.
#[derive(Clone, Copy, Debug, PartialEq, Eq, Error)]
pub enum ParamFault {
    #[error("twice AlphaPreference is at most K")]
    AlphaLow,
    #[error("AlphaConfidence is below AlphaPreference")]
    AlphaOrder,
    #[error("AlphaConfidence is above K")]
    AlphaHigh,
    #[error("Beta is 0")]
    BetaZero,
    #[error("ConcurrentRepolls is 0")]
    RepollsZero,
    #[error("ConcurrentRepolls is above Beta")]
    RepollsHigh,
    #[error("K is above 1,024")]
    KLarge,
    #[error("Beta is above 65,535")]
    BetaLarge,
}

/// The parameters of the polls, which passed `check`. K is from 1 to 1,024, AlphaPreference above
/// K/2 and at most AlphaConfidence, AlphaConfidence at most K, Beta from 1 to 65,535, and
/// ConcurrentRepolls from 1 to Beta.
/// Rule: AvalancheGo, snow/consensus/snowball.
#[derive(Clone, Copy, Debug, PartialEq, Eq)]
pub struct Params {
    k: u32,
    alpha_preference: u32,
    alpha_confidence: u32,
    beta: u32,
    repolls: u32,
}

impl Model for Params {
    ghost use Rattle.snow_flake.specs.Model.Parameters.{Parameters, AreGood};

    ghost Value = { Parameters };

    ghost view = { λ p. record {
      k = p.k;
      alpha_preference = p.alpha_preference;
      alpha_confidence = p.alpha_confidence;
      beta = p.beta;
      repolls = p.repolls;
    } };

    ghost invariant = { λ p. AreGood (record {
      k = p.k;
      alpha_preference = p.alpha_preference;
      alpha_confidence = p.alpha_confidence;
      beta = p.beta;
      repolls = p.repolls;
    }) };

    ghost inverse = { λ p. record {
      k = p.k;
      alpha_preference = p.alpha_preference;
      alpha_confidence = p.alpha_confidence;
      beta = p.beta;
      repolls = p.repolls;
    } };
}

impl Params {
    ghost use Rattle.snow_flake.specs.Model.Parameters.{Parameters, AreGood, checked};

    /// Returns the parameters, or the first fault in the order of `ParamFault`. `AlphaLow` comes
    /// where twice AlphaPreference is at most K, `AlphaOrder` where AlphaConfidence is below
    /// AlphaPreference, `AlphaHigh` where K is below AlphaConfidence. `BetaZero` and `RepollsZero`
    /// come at a 0, `RepollsHigh` where Beta is below ConcurrentRepolls, `KLarge` where K is above
    /// 1,024, `BetaLarge` where Beta is above 65,535. No other parameters are refused.
    /// Rule: AvalancheGo, snow/consensus/snowball.
    pub fn check(
        k: u32,
        alpha_preference: u32,
        alpha_confidence: u32,
        beta: u32,
        repolls: u32,
    ) -> Result<Params, ParamFault>
        ensures { let p : Parameters = record {
          k = k;
          alpha_preference = alpha_preference;
          alpha_confidence = alpha_confidence;
          beta = beta;
          repolls = repolls;
        } in result ≡ checked p }
    {
        if 2 * u64::from(alpha_preference) <= u64::from(k) {
            return Err(ParamFault::AlphaLow);
        }
        if alpha_confidence < alpha_preference {
            return Err(ParamFault::AlphaOrder);
        }
        if k < alpha_confidence {
            return Err(ParamFault::AlphaHigh);
        }
        if beta == 0 {
            return Err(ParamFault::BetaZero);
        }
        if repolls == 0 {
            return Err(ParamFault::RepollsZero);
        }
        if beta < repolls {
            return Err(ParamFault::RepollsHigh);
        }
        if k > MOST_K {
            return Err(ParamFault::KLarge);
        }
        if beta > MOST_BETA {
            return Err(ParamFault::BetaLarge);
        }
        Ok(Params {
            k,
            alpha_preference,
            alpha_confidence,
            beta,
            repolls,
        })
    }

    /// Returns K, from 1 to 1,024: how many votes a poll has at most, and how many units a sample
    /// draws.
    /// Rule: the Snow family paper.
    pub fn k(&self) -> u32
        ensures value { result ≡ self.now.k }
        ensures good { AreGood self.now }
    {
        self.k
    }

    /// Returns AlphaPreference, above K/2 and at most K: a counter follows a bit that has so many
    /// votes.
    /// Rule: AvalancheGo, snow/consensus/snowball.
    pub fn alpha_preference(&self) -> u32
        ensures value { result ≡ self.now.alpha_preference }
        ensures good { AreGood self.now }
    {
        self.alpha_preference
    }

    /// Returns AlphaConfidence, from AlphaPreference to K: so many votes raise the confidence by
    /// one.
    /// Rule: AvalancheGo, snow/consensus/snowball.
    pub fn alpha_confidence(&self) -> u32
        ensures value { result ≡ self.now.alpha_confidence }
        ensures good { AreGood self.now }
    {
        self.alpha_confidence
    }

    /// Returns Beta, from 1 to 65,535: a counter whose confidence is so high is final.
    /// Rule: the Snow family paper.
    pub fn beta(&self) -> u32
        ensures value { result ≡ self.now.beta }
        ensures good { AreGood self.now }
    {
        self.beta
    }

    /// Returns ConcurrentRepolls, from 1 to Beta: so many polls are to be under way while a block
    /// is pending.
    /// Rule: AvalancheGo, snow/consensus/snowball.
    pub fn repolls(&self) -> u32
        ensures value { result ≡ self.now.repolls }
        ensures good { AreGood self.now }
    {
        self.repolls
    }
}
