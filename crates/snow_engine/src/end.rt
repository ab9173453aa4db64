ghost use Rattle.std.specs.Prelude.{◌≡◌};
ghost use Rattle.snow_engine.specs.Model.Run.{end_at};

use crate::stop::EngineStop;
use snow_boot::BootStop;
use snow_flake::ParamFault;
use snow_sample::RosterFault;

/// What is wrong with an input, at the frame at which the run stops. `Params`, `Roster` and `State`
/// come at the Start alone, and `Roster` only where the task is `Run`.
/// Rule: this project's own.
#[derive(Clone, Copy, Debug, PartialEq, Eq)]
pub enum BadKind {
    /// A length word says more than 2,097,152.
    Length,
    /// The input ends inside the frame.
    Cut,
    /// The input ends before any byte.
    NoStart,
    /// The first frame is no Start.
    NotStart,
    /// The parameters of the Start are refused.
    Params(ParamFault),
    /// The nodes of the Start are refused; want of memory is never told so.
    Roster(RosterFault),
    /// The chain doesn't take the state of the Start.
    State,
    /// A Start came though the run has begun.
    SecondStart,
}

/// How a run over a source ended. At `Done` it wrote all lines. At `BadInput`, `InputLimit`,
/// `RequestLimit` and `BootStopped` it wrote all lines before the stop. At `SourceFault`,
/// `SinkFault` and `Memory` it wrote a front of the lines.
/// Rule: this project's own.
#[derive(Clone, Copy, Debug, PartialEq, Eq)]
pub enum End {
    /// All lines were written, and the end of the input was read.
    Done,
    /// The input is bad at this frame, counted from 1.
    BadInput { frame: u64, kind: BadKind },
    /// The source failed.
    SourceFault,
    /// The sink failed.
    SinkFault,
    /// Memory ran out.
    Memory,
    /// 2^40 bytes were taken, and no stop lies in them.
    InputLimit,
    /// A request number was needed, and all are used up.
    RequestLimit,
    /// Bootstrapping stopped; want of memory and of numbers are never told so.
    BootStopped(BootStop),
}

impl End {
    /// Returns the end of the run that a stop makes in a frame.
    pub(crate) fn at(frame: u64, stop: EngineStop) -> End
        ensures { result ≡ end_at frame stop }
    {
        let kind = match stop {
            EngineStop::Params(fault) => BadKind::Params(fault),
            EngineStop::Roster(fault) => BadKind::Roster(fault),
            EngineStop::State => BadKind::State,
            EngineStop::SecondStart => BadKind::SecondStart,
            EngineStop::Boot(why) => return End::BootStopped(why),
            EngineStop::Requests => return End::RequestLimit,
            EngineStop::Memory => return End::Memory,
        };
        End::BadInput { frame, kind }
    }
}
