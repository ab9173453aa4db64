ghost use Rattle.std.specs.Prelude.{◌≡◌, Bool, refl};
ghost use Rattle.snow_flake.specs.Model.Rule.{by_preference, by_flake};

/// How an instance that isn't final answers. Contracts see a function of the preference and the
/// flake, which answers the bit on which both agree.
/// Rule: the Snow family paper.
pub trait Rule {
    ghost answer: { Bool → Bool → Bool };

    /// Returns the answer of an instance with this preference and this flake. Where both are one
    /// bit, it is that bit.
    /// Rule: the Snow family paper.
    fn answer(preference: bool, flake: bool) -> bool
        ensures { result ≡ answer preference flake };

    /// Where both are one bit, the answer is that bit.
    ghost agrees: { (b : Bool) → answer b b ≡ b };
}

/// The rule Snowball answers the preference, which moves once the other bit has the greater
/// strength.
/// Rule: the Snow family paper.
#[derive(Clone, Copy, Debug, PartialEq, Eq)]
pub struct Snowball;

impl Rule for Snowball {
    ghost answer = { by_preference };

    ghost agrees = { λ b. refl };

    fn answer(preference: bool, _flake: bool) -> bool {
        preference
    }
}

/// The rule Snowflake answers the flake, which is the bit that was followed last.
/// Rule: the Snow family paper.
#[derive(Clone, Copy, Debug, PartialEq, Eq)]
pub struct Snowflake;

impl Rule for Snowflake {
    ghost answer = { by_flake };

    ghost agrees = { λ b. refl };

    fn answer(_preference: bool, flake: bool) -> bool {
        flake
    }
}
