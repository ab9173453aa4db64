//! What the text of a stream is and what a text means, as definitions, with the laws that one
//! undoes the other.
#![tactic(auto)]

mod block_form;
mod laws;
mod refusal;

pub use block_form::BlockForm;
pub use laws::{one_by_one, one_form, one_text, own_words};
pub use refusal::{Reason, Refusal};
