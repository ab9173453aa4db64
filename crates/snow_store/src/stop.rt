use snow_base::Id;
use std::alloc::AllocError;
use thiserror::Error;

/// What `Store::take` did with a block.
/// Rule: AvalancheGo, snow/engine/snowman/bootstrap.
#[derive(Clone, Copy)]
pub enum Verdict {
    /// It is kept.
    Keeps,
    /// Its height is at most that of the last accepted block, so it isn't kept.
    Low,
    /// It is kept already, at its height.
    Known,
}

/// Why bootstrapping stops. `Conflict`, `Fork`, `Refused` and `Full` are what the blocks themselves
/// show. `Requests` comes where all 2^32-1 numbers are drawn, and `Memory` on want of memory.
/// Rule: AvalancheGo, snow/engine/snowman/bootstrap.
#[derive(Clone, Copy, Debug, PartialEq, Eq, Error)]
pub enum BootStop {
    /// At a height stands one block, and another belongs there.
    #[error("two blocks at height {height}")]
    Conflict { height: u64, first: Id, second: Id },
    /// A block right above the last accepted one has another parent.
    #[error("a block right above the last accepted one has another parent")]
    Fork { id: Id, parent: Id },
    /// A block isn't valid where it stands.
    #[error("a block is refused")]
    Refused { id: Id },
    /// 32,768 blocks are kept.
    #[error("32768 blocks are kept")]
    Full,
    /// No number is left to ask with.
    #[error("no number is left")]
    Requests,
    /// There is no memory.
    #[error("no memory")]
    Memory,
}

impl From<AllocError> for BootStop {
    ghost use Rattle.std.specs.Prelude.{◌≡◌};
    ghost use Rattle.snow_store.specs.declared.stop.BootStop.TheVariants.{Memory};

    ghost from_gives = { λ _ stop. stop ≡ Memory };

    fn from(_: AllocError) -> Self {
        BootStop::Memory
    }
}
