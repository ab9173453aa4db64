use crate::accepting::take_accepted;
use crate::conflict::Conflict;
use crate::counting::poll_all;
use crate::issuing::issue_below;
use crate::places::{Places, no_places, place, place_all, place_of, reserve_one};
use snow_base::{Bag, Header, Id, Vote};
use snow_board::{Cursor, Decision, Pending, start_all};
use snow_flake::{Params, Rule};
use std::alloc::{AllocError, Global};
use std::marker::Model;

/// The last accepted block and the pending ones in order of issue, with the counters of their
/// children, the parameters of the polls, and the place of each pending block by its identifier.
/// Rule: AvalancheGo, snow/consensus/snowman.
#[derive(Drop)]
pub struct State {
    params: Params,
    last: Id,
    height: u64,
    counters: Conflict,
    pending: Vec<Pending<Conflict>>,
    places: Places,
}

impl Model for State {
    ghost use Rattle.std.specs.Prelude.{bytes_eq};
    ghost use Rattle.std.specs.HashMap.{get, hash_map_len};
    ghost use Rattle.snow_board.specs.Model.Board.{Board, blocks_of};
    ghost use Rattle.snow_board.specs.Kept.BoardCode.{coded_board};
    ghost use Rattle.snow_plain.specs.Kept.Places.{IsIndexed};

    ghost Value = { Board };

    ghost coded = { coded_board };

    ghost view = { λ s. record {
      parameters = s.params;
      last = s.last;
      height = s.height;
      counters = s.counters;
      pending = s.pending.items;
    } };

    ghost invariant = { λ s. IsIndexed s.last (get bytes_eq s.places) (hash_map_len s.places) (blocks_of s.pending.items) };
}

impl State {
    ghost use Rattle.std.specs.Prelude.{◌≡◌, ◌+◌, ◌^◌, ◌<◌, ◌≤◌, ◌++◌, ◌&&◌, true, false, length, All, OnOk, OnErr, bytes_eq, slice_get, vec_len, vec_capacity};
    ghost use Rattle.std.specs.List.{position};
    ghost use Rattle.std.specs.Option.{option_map};
    ghost use Rattle.snow_base.specs.Model.Votes.{total_count};
    ghost use Rattle.snow_board.specs.Model.Board.{begin, block_of, issued, is_pending, parent_of, height_of};
    ghost use Rattle.snow_board.specs.Model.Conflict.{decides};
    ghost use Rattle.snow_board.specs.Model.Poll.{winner, settled, counted};
    ghost use Rattle.snow_board.specs.Model.Preference.{preferred, is_preferred};
    ghost use Rattle.snow_board.specs.Kept.Ending.{has_pending_child};
    ghost use Rattle.snow_board.specs.Laws.Reached.{MayIssue};
    ghost use Rattle.snow_board.specs.Model.Acceptance.{Accepts};

    /// Returns the state where nothing is pending above this block.
    /// Rule: AvalancheGo, snow/consensus/snowman.
    pub fn begin(alloc: Global, params: Params, last: Id, height: u64) -> Self
        ensures { result ≡ begin params last height }
    {
        State {
            params,
            last,
            height,
            counters: Conflict::new(alloc),
            pending: Vec::new(alloc),
            places: no_places(alloc),
        }
    }

    /// Issues a block as `Board::issue` may; no pending block stands above it then. On want of
    /// memory it returns `AllocError`, and all stays as it was.
    /// Rule: AvalancheGo, snow/consensus/snowman.
    pub fn issue(&mut self, alloc: Global, child: Header) -> Result<(), AllocError>
        requires { MayIssue self.old child }
        ensures ok { OnOk result (self.new ≡ issued self.old child) }
        ensures alone { OnOk result (has_pending_child self.new.pending child.id ≡ false) }
        ensures err { OnErr result (self.new ≡ self.old) }
    {
        self.pending.reserve(1)?;
        reserve_one(&mut self.places)?;
        let at = self.pending.len();
        let above = place_of(&self.places, &child.parent);
        issue_below(
            &self.last,
            &mut self.counters,
            &mut self.pending,
            above,
            &child,
        )?;
        self.pending.push_reserved(Pending {
            block: child,
            counters: Conflict::new(alloc),
        });
        place(&mut self.places, &child.id, at);
        Ok(())
    }

    /// Returns K, from 1 to 1,024: how many votes a poll has at most.
    /// Rule: the Snow family paper.
    pub fn k(&self) -> u32
        ensures { result ≡ self.now.parameters.k }
    {
        self.params.k()
    }

    /// Returns the last accepted block.
    /// Rule: AvalancheGo, snow/consensus/snowman.
    pub fn last(&self) -> Id
        ensures { result ≡ self.now.last }
    {
        self.last
    }

    /// Returns the height of the last accepted block, below 2^64.
    /// Rule: AvalancheGo, snow/consensus/snowman.
    pub fn height(&self) -> u64
        ensures { result ≡ self.now.height }
    {
        self.height
    }

    /// Returns how many blocks are pending.
    /// Rule: AvalancheGo, snow/consensus/snowman.
    pub fn pending_len(&self) -> usize
        ensures { result ≡ length self.now.pending }
    {
        self.pending.len()
    }

    /// Returns what a pending block says of itself, or `None` for any other.
    /// Rule: AvalancheGo, snow/consensus/snowman.
    pub fn block(&self, id: &Id) -> Option<Header>
        ensures { result ≡ option_map (λ q. q.block) (block_of self.now id.now) }
    {
        match place_of(&self.places, id) {
            Some(at) => Some(self.pending[at].block),
            None => None,
        }
    }

    /// Returns whether a block is pending.
    /// Rule: AvalancheGo, snow/consensus/snowman.
    pub fn is_pending(&self, id: &Id) -> bool
        ensures { result ≡ is_pending self.now id.now }
    {
        self.block(id).is_some()
    }

    /// Returns the parent of a pending block, or `None` for any other.
    /// Rule: AvalancheGo, snow/consensus/snowman.
    pub fn parent_of(&self, id: &Id) -> Option<Id>
        ensures { result ≡ parent_of self.now id.now }
    {
        self.block(id).map(|block| block.parent)
    }

    /// Returns the height of a block on the board, below 2^64, or `None` for any other.
    /// Rule: AvalancheGo, snow/consensus/snowman.
    pub fn height_of(&self, id: &Id) -> Option<u64>
        ensures { result ≡ height_of self.now id.now }
    {
        if self.last == *id {
            return Some(self.height);
        }
        self.block(id).map(|block| block.height)
    }

    /// Returns the block to which the answers lead from the last accepted one.
    /// Rule: AvalancheGo, snow/consensus/snowman.
    #[tactic(auto, unfolding(snow_board::specs::Model::Preference::path_from))]
    pub fn preference<R: Rule>(&self) -> Id
        ensures { result ≡ preferred R.answer self.now }
    {
        let mut at = self.last;
        let mut counters = &self.counters;
        for entry in &self.pending {
            if entry.block.parent == at && counters.leads_to::<R>(&entry.block.id) {
                at = entry.block.id;
                counters = &entry.counters;
            }
        }
        at
    }

    /// Returns whether a block is on the path from the last accepted block to the preference, both
    /// included.
    /// Rule: AvalancheGo, snow/consensus/snowman.
    #[tactic(auto, unfolding(snow_board::specs::Model::Preference::path_from))]
    pub fn is_preferred<R: Rule>(&self, id: &Id) -> bool
        ensures { result ≡ is_preferred R.answer self.now id.now }
    {
        if self.last == *id {
            return true;
        }
        let mut at = self.last;
        let mut counters = &self.counters;
        for entry in &self.pending {
            if entry.block.parent == at && counters.leads_to::<R>(&entry.block.id) {
                if entry.block.id == *id {
                    return true;
                }
                at = entry.block.id;
                counters = &entry.counters;
            }
        }
        false
    }

    /// Lets every counter make the bit step with the votes below its own block. The counts are
    /// above 0 and add up to less than 2^32. It walks the votes in `cursors`, and counts those that
    /// came to a block by child in `children`. Both have room for them, so it takes no memory.
    /// Rule: AvalancheGo, snow/consensus/snowman.
    pub fn count(&mut self, votes: &[Vote], cursors: &mut Vec<Cursor>, children: &mut Bag)
        requires room { length votes.now ≤ vec_capacity cursors.old }
        requires places { length votes.now ≤ children.old.room + length children.old.list }
        requires counts { All (λ v. 0 < v.count) votes.now }
        requires total { total_count votes.now < 2 ^ 32 }
        ensures board { self.new ≡ counted self.old votes.now }
        ensures room { vec_capacity cursors.new ≡ vec_capacity cursors.old }
        ensures places { children.old.room + length children.old.list ≤ children.new.room + length children.new.list }
    {
        start_all(cursors, votes);
        poll_all(
            &self.params,
            &self.last,
            &mut self.counters,
            &mut self.pending,
            cursors,
            children,
        );
    }

    // The place of the child of the last accepted block to which decided counters alone lead.
    fn winner_place(&self) -> Option<usize>
        ensures { result ≡ position (λ q. bytes_eq q.block.parent self.now.last && decides self.now.counters q.block.id) self.now.pending }
    {
        let last = &self.last;
        let counters = &self.counters;
        self.pending.iter().position(|entry| entry.block.parent == *last
            && counters.decides(&entry.block.id))
    }

    // Accepts the pending block at this place. The blocks that don't descend from it are rejected.
    fn accept(&mut self, at: usize, decisions: &mut Vec<Decision>)
        requires there { at < length self.old.pending }
        requires room { vec_len decisions.old + length self.old.pending ≤ vec_capacity decisions.old }
        ensures accepts { Accepts (slice_get self.old.pending at) self.old self.new decisions.old.items decisions.new.items true }
        ensures room { vec_capacity decisions.new ≡ vec_capacity decisions.old }
        ensures fewer { vec_len decisions.new + length self.new.pending ≤ vec_len decisions.old + length self.old.pending }
    {
        let child = take_accepted(&mut self.pending, &self.last, at, decisions);
        place_all(&mut self.places, &self.pending);
        let Pending { block, counters } = child;
        self.last = block.id;
        self.height = block.height;
        self.counters = counters;
    }

    // Accepts a child of the last accepted block, where decided counters lead to one, and answers
    // whether there was one.
    fn accept_next(&mut self, decisions: &mut Vec<Decision>) -> bool
        requires { vec_len decisions.old + length self.old.pending ≤ vec_capacity decisions.old }
        ensures accepts { Accepts (winner self.old) self.old self.new decisions.old.items decisions.new.items result }
        ensures room { vec_capacity decisions.new ≡ vec_capacity decisions.old }
        ensures fewer { vec_len decisions.new + length self.new.pending ≤ vec_len decisions.old + length self.old.pending }
    {
        match self.winner_place() {
            Some(at) => {
                self.accept(at, decisions);
                true
            }
            None => false,
        }
    }

    /// Accepts children of the last accepted block while decided counters lead to one, and appends
    /// the decisions in order. `decisions` has room for one of each pending block, so it takes no
    /// memory.
    /// Rule: AvalancheGo, snow/consensus/snowman.
    pub fn settle(&mut self, decisions: &mut Vec<Decision>)
        requires { vec_len decisions.old + length self.old.pending ≤ vec_capacity decisions.old }
        ensures board { self.new ≡ (settled (length self.old.pending) self.old).0 }
        ensures told { decisions.new.items ≡ decisions.old.items ++ (settled (length self.old.pending) self.old).1 }
        ensures room { vec_capacity decisions.new ≡ vec_capacity decisions.old }
        ensures fewer { vec_len decisions.new + length self.new.pending ≤ vec_len decisions.old + length self.old.pending }
    {
        let mut more = true;
        while more {
            more = self.accept_next(decisions);
        }
    }
}
