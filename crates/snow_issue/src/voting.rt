ghost use Rattle.std.specs.Prelude.{◌≡◌, Some, true};
ghost use Rattle.snow_issue.specs.Model.Bubbling.{bubbled, vote_at_once, is_own_vote};
ghost use Rattle.snow_issue.specs.Kept.Known.{lists_of};

use crate::bubbling;
use crate::queue::Queue;
use snow_base::Id;
use snow_board::Board;

impl Queue {
    /// Returns the vote that a reply gives. A pending block is its own vote, and the last accepted
    /// one gives none. A gone block is replaced by the parent of its latest entry, at most 8,192
    /// times. It returns `None` where this leads to no pending block.
    /// Rule: AvalancheGo, snow/engine/snowman.
    pub fn bubble<B: Board>(&self, id: &Id, board: &B) -> Option<Id>
        ensures { result ≡ bubbled (lists_of self.now) (B.board board.now) id.now }
    {
        bubbling::bubble(&self.gone, board, id)
    }

    /// Returns whether a reply's vote is the very block that it names and may be counted as it
    /// comes: the block is pending, and neither waits nor is asked for. Mostly that is so.
    /// Rule: AvalancheGo, snow/engine/snowman.
    pub fn is_own_vote<B: Board>(&self, id: &Id, board: &B) -> bool
        ensures is { result ≡ is_own_vote (lists_of self.now) (B.board board.now) id.now }
        ensures vote { result ≡ true → vote_at_once (lists_of self.now) (B.board board.now) id.now ≡ Some (Some id.now) }
    {
        if self.gets.asks_for(id) || self.waiting.waits(id) {
            return false;
        }
        bubbling::is_pending(board, id)
    }

    /// Returns the vote of a reply that needn't wait; it may be none. It returns `None` where the
    /// reply has to be held: its block waits, is asked for, or is to be asked for.
    /// Rule: AvalancheGo, snow/engine/snowman.
    pub fn vote_at_once<B: Board>(&self, id: &Id, board: &B) -> Option<Option<Id>>
        ensures { result ≡ vote_at_once (lists_of self.now) (B.board board.now) id.now }
    {
        if self.gets.asks_for(id) || self.waiting.waits(id) {
            return None;
        }
        // A block that gives a vote is pending or gone, so that it needn't be asked for.
        if let Some(vote) = self.bubble(id, board) {
            return Some(Some(vote));
        }
        if self.wants(id, board) {
            return None;
        }
        Some(None)
    }
}
