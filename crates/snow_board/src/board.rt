ghost use Rattle.std.specs.Prelude.{◌≡◌, ◌≤◌, Bool, List, [], length, IfOk, OnOk, OnErr};
ghost use Rattle.snow_base.specs.Clauses.Gathered.{one_each};
ghost use Rattle.snow_base.specs.Model.Votes.{total_count};
ghost use Rattle.snow_base.specs.declared.block.Header.{Header};
ghost use Rattle.snow_board.specs.Model.Board as model;

use snow_base::{Bag, Header, Id};
use snow_flake::Params;
use std::alloc::{AllocError, Global};

/// Tells that a block was accepted, or rejected.
/// Rule: AvalancheGo, snow/consensus/snowman.
#[derive(Clone, Copy, Debug, PartialEq, Eq)]
pub struct Decision {
    pub accepted: bool,
    pub id: Id,
}

/// The preference of a board, and whether it is known that no block stands above it.
/// Rule: AvalancheGo, snow/consensus/snowman.
#[derive(Clone, Copy)]
pub struct Leading {
    pub block: Id,
    pub is_top: bool,
}

/// A pending block, with the counters of its children in whatever form a board keeps them.
/// Rule: AvalancheGo, snow/consensus/snowman.
#[derive(Drop)]
pub struct Pending<T> {
    pub block: Header,
    pub counters: T,
}

/// A board of pending blocks above a last accepted one. It decides by polls, and meets the same
/// definitions however it is kept. At most 4,096 blocks are pending.
/// Rule: AvalancheGo, snow/consensus/snowman.
pub trait Board: Sized + Drop {
    ghost use Rattle.snow_board.specs.declared.board.Decision.{Decision};
    ghost use Rattle.snow_board.specs.Model.Poll.{poll};
    ghost use Rattle.snow_board.specs.Laws.Alike.{GivesAll};
    ghost use Rattle.snow_board.specs.Model.Preference.{preferred, is_preferred};
    ghost use Rattle.snow_board.specs.Laws.Reached.{MayIssue};

    /// The board that it stands for.
    ghost board: { Self → model.Board };

    /// The decisions of the last poll.
    ghost decided: { Self → List Decision };

    /// How its rule answers from the preference and the flake of a counter. It is for contracts
    /// alone.
    ghost answer: { Bool → Bool → Bool };

    /// Returns a board with this last accepted block at this height, below 2^64, with nothing
    /// pending and no decision. On want of memory it returns `AllocError`.
    /// Rule: AvalancheGo, snow/consensus/snowman.
    fn begin(alloc: Global, params: Params, last: Id, height: u64) -> Result<Self, AllocError>
        ensures board { IfOk result (λ made. board made ≡ model.begin params last height) }
        ensures decided { IfOk result (λ made. decided made ≡ []) };

    /// Issues a block. Its identifier isn't on the board, its parent is, its height is its parent's
    /// plus one, and fewer than 4,096 blocks are pending. It becomes the last pending block, its
    /// parent gets counters for its bits, and there are no decisions then. On want of memory it
    /// returns `AllocError`, and the board and the decisions stay as they were.
    /// Rule: AvalancheGo, snow/consensus/snowman.
    fn issue(&mut self, id: Id, parent: Id, height: u64) -> Result<(), AllocError>
        requires { let child : Header = record { id = id; parent = parent; height = height } in
            MayIssue (board self.old) child }
        ensures board { let child : Header = record { id = id; parent = parent; height = height } in
            OnOk result (board self.new ≡ model.issued (board self.old) child) }
        ensures decided { OnOk result (decided self.new ≡ []) }
        ensures board_stays { OnErr result (board self.new ≡ board self.old) }
        ensures decided_stays { OnErr result (decided self.new ≡ decided self.old) };

    /// Records a poll of at most K votes. A vote counts for its block and for each pending
    /// ancestor; votes for blocks that aren't pending don't count. Every counter makes the bit step
    /// with its own votes, and then the board accepts and rejects blocks while decided counters
    /// lead to one. The board and the decisions are the same for all votes that are alike to these.
    /// It takes no memory and can't fail.
    /// Rule: the Snow family paper and AvalancheGo, snow/consensus/snowman.
    fn apply_poll(&mut self, votes: &Bag)
        requires { total_count votes.now.list ≤ (board self.old).parameters.k }
        ensures board { board self.new ≡ (poll (board self.old) votes.now.list).0 }
        ensures decided { decided self.new ≡ (poll (board self.old) votes.now.list).1 }
        // Each other multiset of at most K votes that is alike to these gives the same.
        ensures alike { GivesAll (board self.old) votes.now.list (board self.new) (decided self.new) };

    /// Records a poll with one vote for each of these identifiers, at most K of them. On want of
    /// memory it returns `AllocError`, and the board and the decisions stay as they were.
    /// Rule: AvalancheGo, snow/consensus/snowman.
    fn apply_votes(&mut self, ids: &[Id]) -> Result<(), AllocError>
        requires { length ids.now ≤ (board self.old).parameters.k }
        ensures board { OnOk result (board self.new ≡ (poll (board self.old) (one_each ids.now)).0) }
        ensures decided { OnOk result (decided self.new ≡ (poll (board self.old) (one_each ids.now)).1) }
        ensures board_stays { OnErr result (board self.new ≡ board self.old) }
        ensures decided_stays { OnErr result (decided self.new ≡ decided self.old) };

    /// Returns the decisions of the last poll, in order: each accepted block, then those rejected
    /// with it in order of issue. They are empty before the first poll and after an issue.
    /// Rule: AvalancheGo, snow/consensus/snowman.
    fn decisions(&self) -> &[Decision]
        ensures { result.now ≡ decided self.now };

    /// Returns the block to which the answers lead from the last accepted one. It is the last
    /// accepted one where nothing is pending.
    /// Rule: AvalancheGo, snow/consensus/snowman.
    fn preference(&self) -> Id
        ensures { result ≡ preferred answer (board self.now) };

    /// Returns whether a block is on the path from the last accepted block to the preference, both
    /// included.
    /// Rule: AvalancheGo, snow/consensus/snowman.
    fn is_preferred(&self, id: &Id) -> bool
        ensures { result ≡ is_preferred answer (board self.now) id.now };

    /// Returns whether a block was issued and isn't decided yet.
    /// Rule: AvalancheGo, snow/consensus/snowman.
    fn is_pending(&self, id: &Id) -> bool
        ensures { result ≡ model.is_pending (board self.now) id.now };

    /// Returns the parent of a pending block, or `None` exactly where the block isn't pending.
    /// Rule: AvalancheGo, snow/consensus/snowman.
    fn parent_of(&self, id: &Id) -> Option<Id>
        ensures { result ≡ model.parent_of (board self.now) id.now };

    /// Returns the height, below 2^64, of a pending block or of the last accepted one, or `None`
    /// exactly where the block is neither.
    /// Rule: AvalancheGo, snow/consensus/snowman.
    fn height_of(&self, id: &Id) -> Option<u64>
        ensures { result ≡ model.height_of (board self.now) id.now };

    /// Returns the last accepted block.
    /// Rule: AvalancheGo, snow/consensus/snowman.
    fn last(&self) -> Id
        ensures { result ≡ (board self.now).last };

    /// Returns the height of the last accepted block, below 2^64.
    /// Rule: AvalancheGo, snow/consensus/snowman.
    fn last_height(&self) -> u64
        ensures { result ≡ (board self.now).height };

    /// Returns how many blocks are pending, at most 4,096 where each issue met its condition.
    /// Rule: AvalancheGo, snow/consensus/snowman.
    fn pending_len(&self) -> usize
        ensures { result ≡ length (board self.now).pending };

    /// Where a counter's preference and flake are one bit, the rule answers that bit.
    ghost agrees: { (b : Bool) → answer b b ≡ b };
}
