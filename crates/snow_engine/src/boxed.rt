//! Stops and ends in boxes, so that a call which brings none returns a few bytes.

ghost use Rattle.std.specs.Prelude.{◌≡◌};
ghost use Rattle.snow_engine.specs.Kept.Boxed.{as_step};

use crate::end::End;
use crate::stop::EngineStop;
use snow_node::Halt;
use std::alloc::Global;
use std::marker::Model;

/// The stop of an engine, in a box where it may be large.
#[derive(Drop)]
pub(crate) struct BoxedStop {
    kept: KeptStop,
}

#[derive(Drop)]
enum KeptStop {
    Halted(Halt),
    Boxed(Box<EngineStop>),
}

impl Model for BoxedStop {
    ghost use Rattle.snow_engine.specs.declared.stop.EngineStop.{EngineStop};
    ghost use Rattle.snow_engine.specs.Kept.Boxed.{stop_in};

    ghost Value = { EngineStop };

    ghost view = { λ b. stop_in b.kept };
}

impl BoxedStop {
    ghost use Rattle.std.specs.Prelude.{◌≡◌};
    ghost use Rattle.snow_engine.specs.Clauses.Boxing.{IsBoxed};

    /// Puts a stop in a box. Where there is no memory for it, the stop is `Memory`.
    pub(crate) fn new(alloc: Global, stop: EngineStop) -> Self
        ensures { IsBoxed EngineStop.Memory stop result }
    {
        match Box::new(alloc, stop) {
            Ok(stop) => BoxedStop {
                kept: KeptStop::Boxed(stop),
            },
            Err(_) => BoxedStop::from(Halt::Memory),
        }
    }
}

impl From<Halt> for BoxedStop {
    ghost use Rattle.std.specs.Prelude.{◌≡◌};
    ghost use Rattle.snow_engine.specs.Kept.Staging.{stop_for};

    ghost from_gives = { λ halt stop. stop ≡ stop_for halt };

    fn from(halt: Halt) -> BoxedStop {
        BoxedStop {
            kept: KeptStop::Halted(halt),
        }
    }
}

impl From<BoxedStop> for EngineStop {
    ghost use Rattle.std.specs.Prelude.{◌≡◌};

    ghost from_gives = { λ boxed stop. stop ≡ boxed };

    fn from(boxed: BoxedStop) -> EngineStop {
        match &boxed.kept {
            KeptStop::Halted(halt) => EngineStop::from(*halt),
            KeptStop::Boxed(stop) => **stop,
        }
    }
}

/// Returns what a step of a node gave, with its stop as one of the engine.
pub(crate) fn boxed(stepped: Result<(), Halt>) -> Result<(), BoxedStop>
    ensures { result ≡ as_step stepped }
{
    match stepped {
        Ok(()) => Ok(()),
        Err(halt) => Err(BoxedStop::from(halt)),
    }
}

/// How a run ended, in a box where it may be large. `End::from` returns the end.
/// Rule: this project's own.
#[derive(Drop)]
pub struct BoxedEnd {
    kept: KeptEnd,
}

#[derive(Drop)]
enum KeptEnd {
    Memory,
    SinkFault,
    Boxed(Box<End>),
}

impl Model for BoxedEnd {
    ghost use Rattle.snow_engine.specs.declared.end.End.{End};
    ghost use Rattle.snow_engine.specs.Kept.Boxed.{end_in};

    ghost Value = { End };

    ghost view = { λ b. end_in b.kept };
}

impl BoxedEnd {
    ghost use Rattle.std.specs.Prelude.{◌≡◌};
    ghost use Rattle.snow_engine.specs.Clauses.Boxing.{IsBoxed};

    /// Puts an end in a box. Where there is no memory for it, the end is `Memory`.
    pub(crate) fn new(alloc: Global, end: End) -> Self
        ensures { IsBoxed End.Memory end result }
    {
        match Box::new(alloc, end) {
            Ok(end) => BoxedEnd {
                kept: KeptEnd::Boxed(end),
            },
            Err(_) => BoxedEnd {
                kept: KeptEnd::Memory,
            },
        }
    }

    /// Returns the end of a run whose sink failed. It takes no memory.
    pub(crate) fn sink_fault() -> Self
        ensures { result ≡ End.SinkFault }
    {
        BoxedEnd {
            kept: KeptEnd::SinkFault,
        }
    }
}

impl From<BoxedEnd> for End {
    ghost use Rattle.std.specs.Prelude.{◌≡◌};

    ghost from_gives = { λ boxed end. end ≡ boxed };

    fn from(boxed: BoxedEnd) -> End {
        match &boxed.kept {
            KeptEnd::Memory => End::Memory,
            KeptEnd::SinkFault => End::SinkFault,
            KeptEnd::Boxed(end) => **end,
        }
    }
}
