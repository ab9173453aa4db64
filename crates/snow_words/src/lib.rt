//! The words of a line of a text, and the bytes that each says. A cursor goes over the words, and
//! what they say is appended to an `Output`; a `Stop` tells why a word isn't taken.
#![tactic(auto)]

mod bytes;
pub mod fields;
mod items;
mod lists;
mod names;
mod number;
mod output;
mod parts;
mod stop;
mod words;

pub use bytes::number_word;
pub use items::{Item, count_more, halves};
pub use lists::{close, list_of_words, list_word};
pub use names::{Block, Names, item_word, part_word};
pub use number::Width;
pub use output::Output;
pub use parts::{Parts, halved, place};
pub use stop::{Stop, Why};
pub use words::{Words, is, said};
