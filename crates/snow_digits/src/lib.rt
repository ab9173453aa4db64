//! Hexadecimal and decimal digits, and short texts that are built in place.
#![tactic(auto)]

mod digits;
mod lanes;
mod text;

pub use digits::{
    id_digits, marked, marked_long, marked_short, node_digits, write_hex, write_id, write_node,
};
pub use text::Text;
