ghost use Rattle.std.specs.Prelude.{◌≡◌, fold, OnOk};
ghost use Rattle.snow_drill.specs.Model.Drill as model;
ghost use Rattle.snow_drill.specs.Kept.Following.{Plays, Follows};
ghost use Rattle.snow_wire.specs.Clauses.Viewed.{as_event};

use crate::driven::Driven;
use crate::player::Player;
use snow_lines::{Line, Lines};
use snow_wire::{Sender, View};
use std::alloc::AllocError;
use std::mem;

impl<E: Driven> Player<E> {
    // The next event, whose lines stand in the log then. A stop, which none comes to, and a count past
    // 64 bits are told as want of memory.
    fn event(&mut self, event: View<'_>) -> Result<(), AllocError>
        ensures follows { OnOk result (Follows self.old self.new (λ d. model.with_event E.step d (as_event event.entry))) }
        ensures lines { OnOk result ((d : model.Drill E) → Plays self.old d → self.new.log ≡ (model.comes E.step d (as_event event.entry)).0) }
    {
        let Some(frame) = self.frame.checked_add(1) else {
            return Err(AllocError);
        };
        self.log.clear();
        self.node.drive(frame, event, &mut self.log)?;
        self.frame = frame;
        self.account.keep(self.log.list())
    }

    // A node that was asked for a block gives none.
    fn time_out(&mut self, line: &Line) -> Result<(), AllocError>
        ensures { OnOk result (Follows self.old self.new (λ d. model.timed_out E.step d line.now)) }
    {
        let Line::Get { number, node, .. } = line else {
            return Ok(());
        };
        self.event(View::Timeout(Sender {
            node: node.as_bytes(),
            request: *number,
        }))
    }

    // A Timeout for each block that these lines ask for.
    fn time_outs(&mut self, lines: &[Line]) -> Result<(), AllocError>
        ensures { OnOk result (Follows self.old self.new (λ d. fold (model.timed_out E.step) d lines.now)) }
    {
        for line in lines {
            self.time_out(line)?;
        }
        Ok(())
    }

    /// Gives the node the next event, and a Timeout for each block for which it then asks. On want
    /// of memory it returns `AllocError`.
    /// Rule: this project's own.
    pub fn make(&mut self, event: View<'_>) -> Result<(), AllocError>
        ensures { OnOk result (Follows self.old self.new (λ d. model.with_timeouts E.step d (as_event event.entry))) }
    {
        self.event(event)?;
        if self.log.list().is_empty() {
            return Ok(());
        }
        // The lines of a Timeout come in place of these.
        let log = mem::replace(&mut self.log, Lines::new(self.alloc));
        let came = self.time_outs(log.list());
        drop(log);
        came
    }
}
