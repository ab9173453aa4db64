//! Streams as text: a line a frame, and back.
#![tactic(auto)]

mod lines;
mod maker;
mod refusing;
mod streaming;
mod text;
mod whole;

pub use maker::{MakeStop, Maker};
pub use snow_show::{show_frame, show_rest};
pub use snow_text_model::{BlockForm, Reason, Refusal, one_by_one, one_form, one_text, own_words};
pub use streaming::{ShowEnd, show};
pub use whole::{MakeEnd, make};
