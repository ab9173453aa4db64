ghost use Rattle.std.specs.Prelude.{◌≡◌};

use std::alloc::AllocError;

/// Why a payload spells no event: the first thing that goes wrong, read from the front.
/// Rule: this project's own.
#[derive(Clone, Copy, Debug, PartialEq, Eq)]
pub enum Fault {
    /// The first byte is no event's tag.
    Tag,
    /// The payload ends before its tag, or inside a field, a list or a block.
    Short,
    /// All fields were read, and bytes are left.
    Extra,
    /// A field was read whole and is out of its range.
    Count,
}

/// Why `decode` gives no event.
/// Rule: this project's own.
#[derive(Clone, Copy, Debug, PartialEq, Eq)]
pub enum Skip {
    /// The payload spells none.
    Fault(Fault),
    /// There was no memory for the event.
    Memory,
}

impl From<AllocError> for Skip {
    ghost use Rattle.std.specs.Prelude.{◌≡◌};
    ghost use Rattle.snow_wire.specs.declared.skip.Skip.TheVariants.{Memory};

    ghost from_gives = { λ _ e. e ≡ Memory };

    fn from(_error: AllocError) -> Skip {
        Skip::Memory
    }
}

impl From<Fault> for Skip {
    ghost use Rattle.std.specs.Prelude.{◌≡◌};
    ghost use Rattle.snow_wire.specs.declared.skip.Skip.TheVariants as skip;

    ghost from_gives = { λ f e. e ≡ skip.Fault f };

    fn from(fault: Fault) -> Skip {
        Skip::Fault(fault)
    }
}
