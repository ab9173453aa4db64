ghost use Rattle.std.specs.Prelude.{◌≡◌, Ok, IfOk};
ghost use Rattle.snow_wire.specs.declared.event.Event.{Event};
ghost use Rattle.snow_wire.specs.Model.Spelling.{IsInRange, spelling};
ghost use Rattle.snow_wire.specs.Model.Reading.{Gives, event_of};

use crate::event::Event;
use crate::skip::Skip;
use crate::view::View;
use std::alloc::Global;

/// Returns the event that all bytes of a payload spell. An event that is in range and spelled so is
/// always found, except on want of memory. Any other payload is refused with the first thing that
/// goes wrong, read from the front; a field's range is checked as soon as the field is read. The
/// fault says what it is. On want of memory it returns `Skip::Memory`.
/// Rule: this project's own.
pub fn decode(alloc: Global, payload: &[u8]) -> Result<Event, Skip>
    // The answer is what reading gives, unless memory ran out.
    ensures exact { Gives result (event_of payload.now) }
    // What is read is in range and spelled so.
    ensures found { IfOk result (λ event. IsInRange event × (payload.now ≡ spelling event)) }
    // What is in range and spelled so is read, unless memory ran out.
    ensures only { (event : Event) → IsInRange event → payload.now ≡ spelling event → Gives result (Ok event) }
{
    whole(alloc, payload)
}

fn whole(alloc: Global, payload: &[u8]) -> Result<Event, Skip>
    ensures { Gives result (event_of payload.now) }
{
    let view = View::read(payload)?;
    Ok(view.to_event(alloc)?)
}
