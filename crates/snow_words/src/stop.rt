use snow_text_model::Reason;
use std::alloc::AllocError;

/// Why a word says nothing, or want of memory.
/// Rule: this project's own.
#[derive(Clone, Copy, Debug)]
pub enum Why {
    /// Memory ran out.
    Memory,
    /// The word isn't taken.
    Not(Reason),
}

impl From<AllocError> for Why {
    ghost use Rattle.std.specs.Prelude.{◌≡◌};
    ghost use Rattle.snow_words.specs.declared.stop.Why.TheVariants.{Memory};

    ghost from_gives = { λ _ why. why ≡ Memory };

    fn from(_error: AllocError) -> Why {
        Why::Memory
    }
}

impl From<Reason> for Why {
    ghost use Rattle.std.specs.Prelude.{◌≡◌};
    ghost use Rattle.snow_words.specs.declared.stop.Why.TheVariants.{Not};

    ghost from_gives = { λ reason why. why ≡ Not reason };

    fn from(reason: Reason) -> Why {
        Why::Not(reason)
    }
}

/// Why a line says nothing, or want of memory.
/// Rule: this project's own.
#[derive(Clone, Copy, Debug)]
pub enum Stop {
    /// Memory ran out.
    Memory,
    /// A word isn't taken: why, and how many words are left there.
    At(Reason, usize),
}

impl From<AllocError> for Stop {
    ghost use Rattle.std.specs.Prelude.{◌≡◌};
    ghost use Rattle.snow_words.specs.declared.stop.Stop.TheVariants.{Memory};

    ghost from_gives = { λ _ stop. stop ≡ Memory };

    fn from(_error: AllocError) -> Stop {
        Stop::Memory
    }
}
