ghost use Rattle.std.specs.Prelude.{◌≡◌, [], Ok, OnOk};
ghost use Rattle.snow_engine.specs.Model.Node.{step};
ghost use Rattle.snow_wire.specs.Clauses.Viewed.{as_event};

use snow_board::Board;
use snow_chain::Chain;
use snow_engine::Engine;
use snow_lines::Lines;
use snow_wire::View;
use std::alloc::AllocError;

/// A node that a drill drives by events. The drill doesn't look into it, and drops it by a call:
/// dropping a whole node is many steps, which the engine's crate proves once.
pub(crate) trait Driven: Sized {
    ghost use Rattle.std.specs.Prelude.{◌≡◌, [], Ok, OnOk};
    ghost use Rattle.snow_wire.specs.Clauses.Viewed.{as_event};
    ghost use Rattle.snow_drill.specs.Model.Drill.{Step};

    /// What an event makes of it, and its lines.
    ghost step: { Step Self };

    /// Gives the node the event of a frame, whose lines go to an empty log. A stop, to which no
    /// drill comes, counts as want of memory.
    fn drive(&mut self, frame: u64, event: View<'_>, log: &mut Lines) -> Result<(), AllocError>
        requires { log.old ≡ [] }
        ensures node { OnOk result ((step self.old frame (as_event event.entry)).1 ≡ Ok self.new) }
        ensures lines { OnOk result (log.new ≡ (step self.old frame (as_event event.entry)).0) };

    /// Drops it.
    fn discard(self);
}

impl<C: Chain, B: Board> Driven for Engine<C, B> {
    ghost step = { step C.rules B.answer };

    fn drive(&mut self, frame: u64, event: View<'_>, log: &mut Lines) -> Result<(), AllocError> {
        match self.step(frame, event, log) {
            Ok(()) => Ok(()),
            Err(_) => Err(AllocError),
        }
    }

    fn discard(self) {
        self.discard();
    }
}
