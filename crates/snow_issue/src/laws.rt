//! Laws of what a queue remembers of the board, and of the votes of held replies, each a function
//! that does nothing and ensures the law.
ghost use Rattle.snow_issue.specs.Laws.BubblingLaw.{BubblingLaw};
ghost use Rattle.snow_issue.specs.Laws.KnownLaw.{StaysKnownAtIssue, StaysKnownAtPoll};

/// After `Queue::next_known` returned `Ready`, what the queue remembers stays true when that block
/// is issued: it remembers nothing of the block's children.
/// Rule: this project's own.
pub fn issue_stays_known_law()
    ensures { StaysKnownAtIssue }
{}

/// After `Queue::next_known` returned `Vote` or `None`, what the queue remembers stays true when a
/// poll is recorded: no block is ready, and a poll brings no block to the board.
/// Rule: this project's own.
pub fn poll_stays_known_law()
    ensures { StaysKnownAtPoll }
{}

/// The 8,192 replacements after which no further gone block is replaced never end the search for a
/// vote: more of them give the same, also where the gone list has a circle.
/// Rule: this project's own.
#[tactic(auto, using(crate::proofs::Descending::enough_replaced))]
pub fn bubbling_law()
    ensures { BubblingLaw }
{}
