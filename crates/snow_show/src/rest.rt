//! The line of what stands behind the last whole frame.

ghost use Rattle.std.specs.Prelude.{◌≡◌, ◌++◌, OnOk, OnErr};
ghost use Rattle.snow_text_model.specs.Model.Shown.{shown_rest};
ghost use Rattle.snow_show.specs.Clauses.Putting.{Puts};

use crate::bytes::put_bytes;
use crate::put::put;
use std::alloc::AllocError;

/// Appends the line of what stands behind the last whole frame of a stream: nothing where nothing
/// does. On want of memory it returns `AllocError`, and the text stays as it was.
/// Rule: this project's own.
pub fn show_rest(rest: &[u8], text: &mut Vec<u8>) -> Result<(), AllocError>
    ensures ok { OnOk result (text.new.items ≡ text.old.items ++ shown_rest rest.now) }
    ensures err { OnErr result (text.new.items ≡ text.old.items) }
{
    let before = text.len();
    match put_rest(text, rest) {
        Ok(()) => Ok(()),
        Err(error) => {
            text.truncate(before);
            Err(error)
        }
    }
}

/// Puts the line of a rest behind a text.
#[tactic(auto, unfolding(snow_text_model::specs::Model::Shown::shown_rest, snow_text_model::specs::Model::Bytes::bytes_text))]
fn put_rest(text: &mut Vec<u8>, rest: &[u8]) -> Result<(), AllocError>
    ensures { Puts result text.old.items text.new.items (shown_rest rest.now) }
{
    if rest.is_empty() {
        return Ok(());
    }
    put(text, b"rest ")?;
    put_bytes(text, rest)?;
    put(text, b"\n")
}
