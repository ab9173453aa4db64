use std::alloc::AllocError;
use thiserror::Error;

/// Why `Chain::begin` begins no chain: `State` where the chain's rules don't take the state,
/// `Memory` on want of memory.
/// Rule: this project's own.
#[derive(Clone, Copy, Debug, PartialEq, Eq, Error)]
pub enum ChainFault {
    /// The chain's rules don't take the state.
    #[error("the chain takes no such state")]
    State,
    /// Memory ran out.
    #[error("out of memory")]
    Memory,
}

impl From<AllocError> for ChainFault {
    ghost use Rattle.std.specs.Prelude.{◌≡◌};
    ghost use Rattle.snow_chain.specs.declared.fault.ChainFault.TheVariants.{Memory};

    ghost from_gives = { λ _ fault. fault ≡ Memory };

    fn from(_: AllocError) -> Self {
        ChainFault::Memory
    }
}
