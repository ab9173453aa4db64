//! Frames and events: how the program reads a stream of bytes as events, and how it spells an
//! event.
#![tactic(auto)]

mod buffer;
mod decoder;
mod decoding;
mod encoding;
mod event;
mod field;
mod frame;
mod laws;
mod lists;
mod opening;
mod owned;
mod packed;
mod reader;
mod shapes;
mod skip;
mod view;

pub use decoder::{Decoder, ReadFault};
pub use decoding::decode;
pub use encoding::encode;
pub use event::{Event, Start};
pub use frame::{Frame, TooLong, first_frame};
pub use laws::{frame_holds_law, one_reading, one_spelling};
pub use lists::{ids_of, nodes_of, words_of};
pub use opening::{Opening, StartFields};
pub use packed::Packed;
pub use shapes::{Brought, Listing, Named, Parcel, Sender};
pub use skip::{Fault, Skip};
pub use view::View;
