use std::alloc::AllocError;

/// Why a node that decides or runs goes no further. Its caller then only drops it.
/// Rule: this project's own.
#[derive(Clone, Copy, Debug, PartialEq, Eq)]
pub enum Halt {
    /// A Start came though the run has begun.
    SecondStart,
    /// A request number was needed, and all are used up.
    Requests,
    /// Memory ran out.
    Memory,
}

impl From<AllocError> for Halt {
    ghost use Rattle.std.specs.Prelude.{◌≡◌};
    ghost use Rattle.snow_node.specs.declared.stop.Halt.TheVariants.{Memory};

    ghost from_gives = { λ _ halt. halt ≡ Memory };

    fn from(_error: AllocError) -> Halt {
        Halt::Memory
    }
}
