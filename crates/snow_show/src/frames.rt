//! The lines of frames.

ghost use Rattle.std.specs.Prelude.{◌≡◌, false, [], ◌∷◌, ◌++◌, OnErr, OnOk};
ghost use Rattle.snow_wire.specs.Clauses.Viewed.{as_event};
ghost use Rattle.snow_text_model.specs.Model.Shown.{event_words, frame_words, is_line, line, shown_frame};
ghost use Rattle.snow_show.specs.Clauses.Putting.{Puts};

use crate::bytes::put_bytes;
use crate::events::put_event;
use crate::lines::put_written;
use crate::put::put;
use snow_base::limits::FRAME_BYTES;
use snow_text_model::BlockForm;
use snow_wire::View;
use std::alloc::AllocError;

/// Puts the line of a payload as it is behind a text.
/// On want of memory it returns `AllocError`, and the text begins with what it was.
/// Rule: this project's own.
pub fn put_as_it_is(text: &mut Vec<u8>, payload: &[u8]) -> Result<(), AllocError>
    ensures { Puts result text.old.items text.new.items (line (frame_words payload.now) ++ 10 ∷ []) }
{
    put(text, b"frame ")?;
    put_bytes(text, payload)?;
    put(text, b"\n")
}

/// Puts the line of an event, in the event's own words, behind a text.
fn put_own_words(text: &mut Vec<u8>, form: BlockForm, view: &View) -> Result<(), AllocError>
    requires { is_line (as_event view.now) ≡ false }
    ensures { Puts result text.old.items text.new.items (line (event_words form (as_event view.now)) ++ 10 ∷ []) }
{
    put_event(text, form, view)?;
    put(text, b"\n")
}

/// Puts the line of a frame's payload behind a text.
fn put_frame(text: &mut Vec<u8>, form: BlockForm, payload: &[u8]) -> Result<(), AllocError>
    ensures { Puts result text.old.items text.new.items (shown_frame form payload.now) }
{
    if payload.len() > FRAME_BYTES as usize {
        return put_as_it_is(text, payload);
    }
    match View::read(payload) {
        Ok(View::Line(said)) => put_written(text, payload, said),
        Ok(view) => put_own_words(text, form, &view),
        Err(_) => put_as_it_is(text, payload),
    }
}

/// Appends the line of a frame with this payload: the words of the event that it holds, with blocks
/// in this form, or the payload as it is where it holds none. On want of memory it returns
/// `AllocError`, and the text stays as it was.
/// Rule: this project's own.
pub fn show_frame(form: BlockForm, payload: &[u8], text: &mut Vec<u8>) -> Result<(), AllocError>
    ensures ok { OnOk result (text.new.items ≡ text.old.items ++ shown_frame form payload.now) }
    ensures err { OnErr result (text.new.items ≡ text.old.items) }
{
    let before = text.len();
    match put_frame(text, form, payload) {
        Ok(()) => Ok(()),
        Err(error) => {
            text.truncate(before);
            Err(error)
        }
    }
}
