use snow_chain::ChainFault;
use snow_flake::ParamFault;
use snow_node::Halt;
use snow_sample::RosterFault;
use snow_store::BootStop;
use std::alloc::AllocError;

/// Why an engine doesn't start, or stops. `Engine::start` returns `Params`, `Roster`, `State` or
/// `Memory`; `Engine::step` returns `Boot`, `SecondStart`, `Requests` or `Memory`. The caller then
/// only drops the engine.
/// Rule: this project's own.
#[derive(Clone, Copy, Debug)]
pub enum EngineStop {
    /// The parameters of the Start are refused.
    Params(ParamFault),
    /// The nodes of the Start are refused; want of memory is never told so.
    Roster(RosterFault),
    /// The chain doesn't take the state of the Start.
    State,
    /// Bootstrapping stopped; want of memory and of numbers are never told so.
    Boot(BootStop),
    /// A Start came though the run has begun.
    SecondStart,
    /// A request number was needed, and all are used up.
    Requests,
    /// Memory ran out.
    Memory,
}

impl From<Halt> for EngineStop {
    ghost use Rattle.std.specs.Prelude.{◌≡◌};
    ghost use Rattle.snow_engine.specs.Kept.Staging.{stop_for};

    ghost from_gives = { λ halt stop. stop ≡ stop_for halt };

    fn from(halt: Halt) -> EngineStop {
        match halt {
            Halt::SecondStart => EngineStop::SecondStart,
            Halt::Requests => EngineStop::Requests,
            Halt::Memory => EngineStop::Memory,
        }
    }
}

impl From<AllocError> for EngineStop {
    ghost use Rattle.std.specs.Prelude.{◌≡◌};
    ghost use Rattle.snow_engine.specs.declared.stop.EngineStop.TheVariants.{Memory};

    ghost from_gives = { λ _ e. e ≡ Memory };

    fn from(_error: AllocError) -> EngineStop {
        EngineStop::Memory
    }
}

impl From<ChainFault> for EngineStop {
    ghost use Rattle.std.specs.Prelude.{◌≡◌};
    ghost use Rattle.snow_engine.specs.Clauses.Stopping.{stop_of};

    ghost from_gives = { λ fault stop. stop ≡ stop_of fault };

    fn from(fault: ChainFault) -> EngineStop {
        match fault {
            ChainFault::State => EngineStop::State,
            ChainFault::Memory => EngineStop::Memory,
        }
    }
}

impl From<RosterFault> for EngineStop {
    ghost use Rattle.std.specs.Prelude.{◌≡◌};
    ghost use Rattle.snow_engine.specs.Clauses.Stopping.{stop_of_roster};

    ghost from_gives = { λ fault stop. stop ≡ stop_of_roster fault };

    fn from(fault: RosterFault) -> EngineStop {
        match fault {
            RosterFault::Memory => EngineStop::Memory,
            other => EngineStop::Roster(other),
        }
    }
}

impl From<BootStop> for EngineStop {
    ghost use Rattle.std.specs.Prelude.{◌≡◌};
    ghost use Rattle.snow_engine.specs.Kept.Staging.{stop_of_boot};

    ghost from_gives = { λ why stop. stop ≡ stop_of_boot why };

    fn from(why: BootStop) -> EngineStop {
        match why {
            BootStop::Requests => EngineStop::Requests,
            BootStop::Memory => EngineStop::Memory,
            other => EngineStop::Boot(other),
        }
    }
}
