ghost use Rattle.std.specs.Prelude.{◌≡◌, ◌+◌, ◌^◌, ◌<◌, [], OnOk};
ghost use Rattle.snow_sample.specs.Kept.Drawn.{HasSlots};
ghost use Rattle.snow_sample.specs.Model.Roster.{total_weight, owner};
ghost use Rattle.snow_sample.specs.Model.Sampling.{counted, draw_count};

use crate::draws::Draws;
use crate::roster::Roster;
use std::alloc::{AllocError, Global};

// For each node of a roster a slot, so that a draw needs no walk over them all. That of a node that
// was drawn has the place at which its draws are counted. Any other may have whatever an earlier
// sample left there: no draw of its node stands at that place.
#[derive(Debug, Drop)]
pub(crate) struct Places {
    pub(crate) slots: Vec<u32>,
}

impl Places {
    // No slot. It takes no memory.
    pub(crate) fn new(alloc: Global) -> Places {
        Places {
            slots: Vec::new(alloc),
        }
    }

    // No node was drawn. The slots may have any numbers, and are made more where they are too few.
    pub(crate) fn begin(&mut self, roster: &Roster) -> Result<(), AllocError>
        ensures { OnOk result (HasSlots roster.now self.new.slots.items []) }
    {
        let nodes = roster.nodes().len();
        if self.slots.len() < nodes {
            self.slots.resize(nodes, 0)?;
        }
        Ok(())
    }

    // Counts one more draw, that of the node which has a unit.
    pub(crate) fn count(
        &mut self,
        draws: &mut Draws,
        roster: &Roster,
        unit: u64,
    ) -> Result<(), AllocError>
        requires unit { unit < total_weight roster.now }
        requires slots { HasSlots roster.now self.old.slots.items draws.old }
        requires few { draw_count draws.old + 1 < 2 ^ 32 }
        ensures counted { OnOk result (draws.new ≡ counted draws.old (owner roster.now unit)) }
        ensures slots { OnOk result (HasSlots roster.now self.new.slots.items draws.new) }
    {
        let at = roster.place(unit);
        let node = &roster.nodes()[at].id;
        // (By a minimum, since whether what an earlier sample left there is a place can't be guessed.)
        let last = draws.list().len().saturating_sub(1);
        let slot = last.min(self.slots[at] as usize);
        if draws.is_at(slot, node) {
            draws.add_one(slot);
            return Ok(());
        }
        draws.push_first(node)?;
        self.slots[at] = draws.list().len() as u32 - 1;
        Ok(())
    }
}
