ghost use Rattle.std.specs.Prelude.{◌≡◌, ◌≤◌, ◌↔◌, true, false, length, is_some, IfSome, OnOk, OnErr, Err};
ghost use Rattle.std.specs.Option.{option_map};
ghost use Rattle.snow_base.specs.Model.Votes.{total_count};
ghost use Rattle.snow_flake.specs.Model.Parameters.{AreGood};
ghost use Rattle.snow_sample.specs.Model.Sampling.{draw_count, AreOfDistinctNodes};
ghost use Rattle.snow_poll.specs.Kept.Tallied.{place, is_front, ArePlaced};

use crate::poll::Poll;
use crate::room::Nodes;
use crate::turns::Turns;
use snow_base::limits::MOST_POLLS;
use snow_base::{Bag, Id, NodeId};
use snow_flake::Params;
use snow_sample::Draws;
use std::alloc::{AllocError, Global};
use std::collections::VecDeque;
use std::marker::Model;
use std::mem;
use thiserror::Error;

/// Why `Polls::begin` begins no poll: `Full` exactly at 1,024 polls, `Memory` on want of memory.
/// The table stays as it was.
/// Rule: this project's own.
#[derive(Clone, Copy, Debug, PartialEq, Eq, Error)]
pub enum PollFault {
    /// There are 1,024 polls in the table.
    #[error("1,024 polls are in the table")]
    Full,
    #[error("no memory")]
    Memory,
}

impl From<AllocError> for PollFault {
    ghost use Rattle.std.specs.Prelude.{◌≡◌};
    ghost use Rattle.snow_poll.specs.declared.polls.PollFault.TheVariants.{Memory};

    ghost from_gives = { λ _ fault. fault ≡ Memory };

    fn from(_: AllocError) -> Self {
        PollFault::Memory
    }
}

/// What `Polls::vote` did with a reply.
/// Rule: AvalancheGo, snow/consensus/snowman/poll.
#[derive(Clone, Copy, Debug, PartialEq, Eq)]
pub enum Answered {
    /// It was counted.
    Counted,
    /// No poll of that number awaits a reply of that node: nothing changed.
    NotAwaited,
}

/// A closed poll that left the table, with the votes that its nodes gave, at most K.
/// Rule: AvalancheGo, snow/consensus/snowman/poll.
#[derive(Debug, Drop)]
pub struct Closed {
    /// Its number.
    pub number: u32,
    /// The votes that its nodes gave.
    pub votes: Bag,
}

/// The table of polls, at most 1,024 of them. Contracts see the parameters, and the list of polls
/// in order of beginning, each with its number, its draws and its replies.
///
/// A poll counts the reply of each node as often as the node was drawn, and once only. It is closed
/// in four cases: nothing is outstanding; received and outstanding together are below
/// AlphaPreference; one identifier has AlphaPreference, and received and outstanding together are
/// below AlphaConfidence; one identifier has AlphaConfidence. Only the front poll leaves, and only
/// while it is closed; until it leaves, its late replies count. The next poll that is begun uses
/// the room of the one that left last.
/// Rule: AvalancheGo, snow/consensus/snowman/poll.
#[derive(Debug, Drop)]
pub struct Polls {
    alloc: Global,
    params: Params,
    polls: VecDeque<Poll>,
    turns: Turns,
    /// What the poll that left last kept of its nodes.
    left: Option<Box<Nodes>>,
    /// Votes that came back. Only their room counts.
    spare: Bag,
}

impl Model for Polls {
    ghost use Rattle.snow_poll.specs.Model.Table.{Table};
    ghost use Rattle.snow_poll.specs.Kept.Tallied.{IsTable};

    ghost Value = { Table };

    ghost view = { λ a. record { parameters = a.params; polls = a.polls.items } };

    ghost invariant = { λ a. IsTable a.params a.polls.items a.turns.turns a.turns.gone };
}

impl Polls {
    ghost use Rattle.snow_poll.specs.Model.Table.{no_polls, has_number, begun, is_awaited, voted, answer, finished, shortened, StandsForFront};

    /// Returns the table without polls. It takes no memory.
    /// Rule: AvalancheGo, snow/consensus/snowman/poll.
    pub fn new(alloc: Global, params: Params) -> Polls
        ensures { result ≡ no_polls params }
    {
        Polls {
            alloc,
            params,
            polls: VecDeque::new(alloc),
            turns: Turns::new(alloc),
            left: None,
            spare: Bag::new(alloc),
        }
    }

    /// Begins a poll over draws that add up to K, of distinct nodes, under a number that isn't in
    /// the table. It makes all room that the poll will need. It returns `Full` exactly where 1,024
    /// polls are in the table, and `Memory` on want of memory; at both the table stays as it was.
    /// Rule: AvalancheGo, snow/consensus/snowman/poll.
    pub fn begin(&mut self, number: u32, draws: &Draws) -> Result<(), PollFault>
        requires number { has_number self.old.polls number ≡ false }
        requires whole { draw_count draws.now ≡ self.old.parameters.k }
        requires nodes { AreOfDistinctNodes draws.now }
        ensures ok { OnOk result (self.new ≡ begun self.old number draws.now) }
        ensures err { OnErr result (self.new ≡ self.old) }
        ensures full { (result ≡ Err PollFault.Full) ↔ (length self.old.polls ≡ MOST_POLLS) }
    {
        if self.polls.len() >= MOST_POLLS {
            return Err(PollFault::Full);
        }
        let left = self.left.take();
        let votes = mem::replace(&mut self.spare, Bag::new(self.alloc));
        let poll = Poll::begin(self.alloc, left, votes, number, draws, self.params.k())?;
        self.polls.reserve(1)?;
        self.turns.enter(number, self.polls.len())?;
        self.polls.push_back_reserved(poll);
        Ok(())
    }

    /// Returns whether a poll of this number awaits a reply of this node: it drew the node, and the
    /// node has neither replied nor been dropped.
    /// Rule: AvalancheGo, snow/consensus/snowman/poll.
    pub fn awaits(&self, number: u32, node: &NodeId) -> bool
        ensures { result ≡ is_awaited self.now.polls number node.now }
    {
        match find_place(&self.polls, &self.turns, number) {
            Some(at) => self.polls[at].awaits(node),
            None => false,
        }
    }

    /// Counts the reply of a node to the poll of a number: an identifier, or `None` where the node
    /// gives no vote. It returns `NotAwaited` exactly where `awaits` is false, and nothing changes
    /// then; else `Counted`. It takes no memory.
    /// Rule: AvalancheGo, snow/consensus/snowman/poll.
    pub fn vote(&mut self, number: u32, node: &NodeId, id: Option<Id>) -> Answered
        ensures answer { result ≡ answer self.old.polls number node.now }
        ensures table { self.new ≡ voted self.old number node.now id }
        ensures unchanged { result ≡ Answered.NotAwaited → self.new ≡ self.old }
    {
        if !self.has_in_front(number) {
            return self.vote_behind(number, node, &id);
        }
        if !self.polls[0].count(node, &id) {
            return Answered::NotAwaited;
        }
        Answered::Counted
    }

    // Whether the front poll has this number, as that of most replies.
    fn has_in_front(&self, number: u32) -> bool
        ensures { result ≡ is_front self.now.polls number }
    {
        match self.polls.front() {
            Some(front) => front.number() == number,
            None => false,
        }
    }

    // What `vote` does, for the poll of any number.
    fn vote_behind(&mut self, number: u32, node: &NodeId, id: &Option<Id>) -> Answered
        ensures answer { result ≡ answer self.old.polls number node.now }
        ensures table { self.new ≡ voted self.old number node.now id.now }
        ensures unchanged { result ≡ Answered.NotAwaited → self.new ≡ self.old }
    {
        let Some(at) = find_place(&self.polls, &self.turns, number) else {
            return Answered::NotAwaited;
        };
        if !self.polls[at].count(node, id) {
            return Answered::NotAwaited;
        }
        Answered::Counted
    }

    /// Takes the front poll out where it is closed, and returns it. It returns `None` exactly where
    /// no poll is in the table or the front one isn't closed; nothing changes then. The votes, at
    /// most K, stand for those of each completion of the poll: they are alike to them, so a board
    /// makes the same of both. It takes no memory.
    /// Rule: AvalancheGo, snow/consensus/snowman/poll.
    pub fn take_finished(&mut self) -> Option<Closed>
        ensures found { option_map (λ c. (c.number, c.votes.list)) result ≡ finished self.old.parameters self.old.polls }
        ensures table { self.new ≡ shortened self.old }
        ensures stands { IfSome result (λ c. StandsForFront self.old.parameters self.old.polls c.votes.list) }
        ensures few { IfSome result (λ c. total_count c.votes.list ≤ self.old.parameters.k) }
    {
        if !self.has_finished() {
            return None;
        }
        self.take_front()
    }

    /// Returns whether the front poll is closed, so that `take_finished` would take it out.
    /// Rule: AvalancheGo, snow/consensus/snowman/poll.
    pub fn has_finished(&self) -> bool
        ensures finished { result ≡ is_some (finished self.now.parameters self.now.polls) }
        ensures good { result ≡ true → AreGood self.now.parameters }
    {
        match self.polls.front() {
            Some(front) => front.is_closed(&self.params),
            None => false,
        }
    }

    // Takes out the front poll, which is closed.
    fn take_front(&mut self) -> Option<Closed>
        requires closed { is_some (finished self.old.parameters self.old.polls) ≡ true }
        requires good { AreGood self.old.parameters }
        ensures found { option_map (λ c. (c.number, c.votes.list)) result ≡ finished self.old.parameters self.old.polls }
        ensures table { self.new ≡ shortened self.old }
        ensures stands { IfSome result (λ c. StandsForFront self.old.parameters self.old.polls c.votes.list) }
        ensures few { IfSome result (λ c. total_count c.votes.list ≤ self.old.parameters.k) }
    {
        let poll = self.polls.pop_front()?;
        let number = poll.number();
        self.turns.leave(number);
        let votes = poll.into_votes(&mut self.left);
        Some(Closed { number, votes })
    }

    /// Takes back the votes of a poll that left, so that the next poll uses their room. The table
    /// stays as it is for contracts.
    /// Rule: this project's own.
    pub fn take_back(&mut self, votes: Bag)
        ensures { self.new ≡ self.old }
    {
        self.spare = votes;
    }

    /// Returns how many polls are in the table, at most 1,024.
    /// Rule: AvalancheGo, snow/consensus/snowman/poll.
    pub fn len(&self) -> usize
        ensures len { result ≡ length self.now.polls }
        ensures few { result ≤ MOST_POLLS }
    {
        self.polls.len()
    }
}

// The place of the poll of a number, where there is one. Most replies are to the front poll, whose
// turn needn't be kept.
fn find_place(polls: &VecDeque<Poll>, turns: &Turns, number: u32) -> Option<usize>
    ensures { length polls.now.items ≤ MOST_POLLS → ArePlaced turns.now.turns turns.now.gone polls.now.items → result ≡ place polls.now.items number }
{
    if let Some(front) = polls.front() {
        if front.number() == number {
            return Some(0);
        }
    }
    turns.place(number)
}
