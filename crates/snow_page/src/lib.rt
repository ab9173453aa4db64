//! Lines as text: printed to a sink, or gathered on a page.
#![tactic(auto)]

mod gathering;
mod page;
mod part;
mod printing;
mod whole;

pub use page::Page;
pub use printing::{print, print_all};
