//! The board of pending blocks: its model, the trait of every board, and the laws.
#![tactic(auto)]

mod board;
mod cursor;
mod laws;

pub use board::{Board, Decision, Leading, Pending};
pub use cursor::{Cursor, advance, gather, start_all};
pub use laws::{
    alike_law, children_stay_law, confidence_law, enough_steps_law, excluded_law,
    failing_and_adding_law, failing_twice_law, few_votes_law, few_votes_on_board_law, issue_law,
    keeping_law, line_law, map_law, none_excluded_law, one_quorum_law, poll_law,
    preference_ends_law, room_law, settled_law, standing_law,
};
