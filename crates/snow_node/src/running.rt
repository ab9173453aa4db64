//! A node that runs: it asks other nodes, and decides by what they answer.

ghost use Rattle.std.specs.Prelude.{◌≡◌, ◌-◌, ◌^◌, ◌≤◌, [], ◌∷◌, Err, IfOk, OnErr};
ghost use Rattle.snow_flake.specs.Model.Parameters.{AreGood};
ghost use Rattle.snow_sample.specs.Model.Roster.{first_fault, IsRosterOf};
ghost use Rattle.snow_sample.specs.Model.Words.{spelled};
ghost use Rattle.snow_getter.specs.Model.Answer.{answer};
ghost use Rattle.snow_board.specs.Model.Preference.{preferred};
ghost use Rattle.snow_wire.specs.Clauses.Viewed.{as_event};
ghost use Rattle.snow_board.specs.Model.Board.{begin};
ghost use Rattle.snow_chain.specs.Kept.Alone.{IsAlone, last_state};
ghost use Rattle.snow_getter.specs.Model.Serving.{serving_from};
ghost use Rattle.snow_issue.specs.Kept.Known.{lists_of};
ghost use Rattle.snow_issue.specs.Model.Lists.{begun};
ghost use Rattle.snow_node.specs.Model.Running.{begun_above};
ghost use Rattle.snow_node.specs.Clauses.Stepping.{Tells, Turns};
ghost use Rattle.snow_node.specs.Model.Turning as model;

mod closing;
mod fetching;
mod hearing;
mod querying;
mod queue_state;
mod settling;
mod supplying;

use crate::reporting::write;
use crate::running::queue_state::QueueState;
use crate::stop::Halt;
use snow_base::limits::MOST_WORDS;
use snow_base::{Id, Nodes, Numbers};
use snow_board::Board;
use snow_chain::Chain;
use snow_flake::Params;
use snow_getter::Getter;
use snow_issue::{Queue, SpareBytes};
use snow_lines::{Line, Lines, SkipKind};
use snow_poll::Polls;
use snow_sample::{Node, Roster, RosterFault, Words};
use snow_wire::{View, nodes_of};
use std::alloc::{AllocError, Global};
use std::marker::Model;
use std::mem;

/// A node that runs, over any chain and any board. Contracts see the node of the definitions. It
/// appends its lines to a log. After a stop its caller only drops it.
/// Rule: AvalancheGo, snow/engine/snowman.
#[derive(Drop)]
pub struct Running<C: Chain, B: Board> {
    params: Params,
    board: B,
    chain: C,
    /// What peers are served.
    served: Getter,
    roster: Roster,
    polls: Polls,
    queue: Queue,
    words: Words,
    /// Room of bytes of blocks that went.
    room: SpareBytes,
    numbers: Numbers,
    /// Whether a poll was recorded since the event began.
    recorded: bool,
    /// How far the queue's marks can be trusted.
    queue_state: QueueState,
    alloc: Global,
}

impl<C: Chain, B: Board> Model for Running<C, B> {
    ghost use Rattle.snow_issue.specs.Kept.Known.{lists_of};
    ghost use Rattle.snow_node.specs.Model.Running.{Running};
    ghost use Rattle.snow_node.specs.Kept.RunningCode.{coded_running};
    ghost use Rattle.snow_node.specs.Kept.Tied.{IsKept};
    ghost use Rattle.snow_node.specs.Kept.QueueState.{IsInState};
    ghost use Rattle.snow_node.specs.Model.Supplying.{Serves};

    ghost Value = { Running };

    ghost coded = { coded_running };

    ghost view = { λ r. record {
      board = B.board r.board;
      chain = C.held r.chain;
      served = r.served;
      roster = r.roster;
      polls = r.polls;
      queue = lists_of r.queue;
      words = r.words;
      last = r.numbers;
      recorded = r.recorded;
    } };

    ghost invariant = { λ r.
        IsKept r.params (B.board r.board) (C.held r.chain) (r.polls) (lists_of r.queue) r.numbers
        × IsInState (B.board r.board) r.queue r.queue_state
        × Serves (B.board r.board) r.served };
}

impl<C: Chain, B: Board> Running<C, B> {
    /// Returns the node that begins to run above this block, whose state alone its chain holds. The
    /// numbers go on behind the last one drawn. On want of memory it returns `AllocError`.
    /// Rule: AvalancheGo, snow/engine/snowman.
    pub fn above(
        alloc: Global,
        params: Params,
        chain: C,
        roster: Roster,
        words: Words,
        numbers: Numbers,
        last: Id,
        height: u64,
    ) -> Result<Self, AllocError>
        requires good { AreGood params }
        requires last { (C.held chain).last ≡ last }
        requires alone { IsAlone (C.held chain) }
        requires small { numbers ≤ 2 ^ 32 - 1 }
        ensures { IfOk result (λ node. node ≡ begun_above params roster words numbers last height (last_state (C.held chain))) }
    {
        // (large values are let go by a call: each is many steps, which stand in one place then)
        match fresh(alloc, params, last, height) {
            Ok((board, served, queue)) => Ok(Running {
                params,
                board,
                chain,
                served,
                roster,
                polls: Polls::new(alloc, params),
                queue,
                words,
                room: SpareBytes::none(alloc),
                numbers,
                recorded: false,
                queue_state: QueueState::Stale,
                alloc,
            }),
            Err(error) => {
                drop(chain);
                drop(roster);
                drop(words);
                Err(error)
            }
        }
    }

    /// Takes one event, which came in this frame. It returns `SecondStart` at a Start, `Requests`
    /// where a number is needed and all are used up, and `Memory` on want of memory. The log has
    /// all lines before the stop, after `Memory` a front of the event's lines.
    /// Rule: AvalancheGo, snow/engine/snowman.
    #[tactic(auto, unfolding(crate::specs::Model::Turning::runs_on), using(crate::proofs::Logs::logs_nothing))]
    pub fn step(&mut self, frame: u64, event: View<'_>, log: &mut Lines) -> Result<(), Halt>
        ensures answer { Turns result self.new (model.runs_on C.rules B.answer self.old frame (as_event event.entry)).1 }
        ensures lines { Tells result log.old log.new (model.runs_on C.rules B.answer self.old frame (as_event event.entry)).0 }
    {
        match event {
            View::Start(_) => Err(Halt::SecondStart),
            View::Block(block) => {
                self.on_block(frame, block, log)?;
                self.round(log)
            }
            View::Chits(vote) => {
                self.on_chits(vote, log)?;
                self.round(log)
            }
            View::Timeout(timeout) => {
                self.on_timeout(timeout, log)?;
                self.round(log)
            }
            View::Words(words) => self.on_words(frame, words, log),
            View::Validators(nodes) => {
                self.on_validators(frame, &nodes_of(self.alloc, nodes)?, log)
            }
            View::Frontier(_) | View::Accepted(_) | View::Ancestors(_) => Ok(()),
            View::Poll(_) | View::Line(_) => skip(frame, SkipKind::Task, log),
            View::Stored(_) => skip(frame, SkipKind::Stage, log),
            question @ (View::AskQuery(_)
            | View::AskFrontier(_)
            | View::AskAccepted(_)
            | View::AskAncestors(_)
            | View::AskBlock(_)) => self.on_question(question, log),
        }
    }

    /// Answers a peer's question.
    #[tactic(auto, using(crate::proofs::Logs::logs_nothing))]
    fn on_question(&self, question: View<'_>, log: &mut Lines) -> Result<(), Halt>
        ensures memory { OnErr result (result ≡ Err Halt.Memory) }
        ensures lines { Tells result log.old log.new (answer self.now.served (preferred B.answer self.now.board) (as_event question.entry)) }
    {
        self.served.answer(self.board.preference(), &question, log)?;
        Ok(())
    }

    /// Ends an event: it makes queries where a poll was recorded.
    fn round(&mut self, log: &mut Lines) -> Result<(), Halt>
        ensures answer { Turns result self.new (model.rounded B.answer self.old).1 }
        ensures lines { Tells result log.old log.new (model.rounded B.answer self.old).0 }
    {
        if !self.recorded {
            return Ok(());
        }
        self.recorded = false;
        self.repoll(log)
    }

    /// Takes words, which may bring queries where no poll runs.
    #[tactic(auto, using(crate::proofs::Logs::logs_nothing, snow_sample::proofs::Spelled::as_many))]
    fn on_words(&mut self, frame: u64, words: &[[u8; 8]], log: &mut Lines) -> Result<(), Halt>
        ensures answer { Turns result self.new (model.words_came B.answer self.old frame (spelled words.now)).1 }
        ensures lines { Tells result log.old log.new (model.words_came B.answer self.old frame (spelled words.now)).0 }
    {
        if words.len() > MOST_WORDS - self.words.len() {
            return skip(frame, SkipKind::Full, log);
        }
        self.words.push_spelled(words)?;
        if self.polls.len() > 0 {
            return Ok(());
        }
        self.repoll(log)
    }

    /// Puts a new roster in force, unless something is wrong with it.
    fn on_validators(&mut self, frame: u64, nodes: &Nodes, log: &mut Lines) -> Result<(), Halt>
        ensures answer { Turns result self.new (model.roster_came self.old frame (model.members nodes.now) (first_fault (model.members nodes.now))).1 }
        ensures lines { Tells result log.old log.new (model.roster_came self.old frame (model.members nodes.now) (first_fault (model.members nodes.now))).0 }
    {
        match roster_of(self.alloc, nodes) {
            Ok(roster) => {
                drop(mem::replace(&mut self.roster, roster));
                Ok(())
            }
            Err(RosterFault::Memory) => Err(Halt::Memory),
            Err(
                RosterFault::Empty
                | RosterFault::Duplicate { .. }
                | RosterFault::ZeroWeight { .. }
                | RosterFault::TooHeavy,
            ) => skip(frame, SkipKind::Nodes, log),
        }
    }
}

/// Returns the board above a block, what peers are served then, and a queue in which nothing waits.
fn fresh<B: Board>(
    alloc: Global,
    params: Params,
    last: Id,
    height: u64,
) -> Result<(B, Getter, Queue), AllocError>
    requires { AreGood params }
    ensures board { IfOk result (λ made. B.board made.0 ≡ begin params last height) }
    ensures served { IfOk result (λ made. made.1 ≡ serving_from last) }
    ensures lists { IfOk result (λ made. lists_of made.2 ≡ begun last) }
{
    let board = B::begin(alloc, params, last, height)?;
    match lists(alloc, last) {
        Ok((served, queue)) => Ok((board, served, queue)),
        Err(error) => {
            drop(board);
            Err(error)
        }
    }
}

/// Returns what peers are served above this block, and a queue in which nothing waits.
fn lists(alloc: Global, last: Id) -> Result<(Getter, Queue), AllocError>
    ensures served { IfOk result (λ made. made.0 ≡ serving_from last) }
    ensures lists { IfOk result (λ made. lists_of made.1 ≡ begun last) }
{
    let served = Getter::begin(alloc, last)?;
    match Queue::new(alloc, last) {
        Ok(queue) => Ok((served, queue)),
        Err(error) => {
            drop(served);
            Err(error)
        }
    }
}

/// Writes that a frame is passed over.
fn skip(frame: u64, kind: SkipKind, log: &mut Lines) -> Result<(), Halt>
    ensures memory { OnErr result (result ≡ Err Halt.Memory) }
    ensures lines { Tells result log.old log.new (Line.Skip frame kind ∷ []) }
{
    write(Line::Skip { frame, kind }, log)
}

/// Returns the roster of these nodes, or the first fault that holds, as `Roster::new` does. On want
/// of memory it returns `Memory`.
/// Rule: AvalancheGo, snow/engine/snowman.
pub fn roster_of(alloc: Global, nodes: &Nodes) -> Result<Roster, RosterFault>
    ensures { IsRosterOf (model.members nodes.now) result }
{
    let members = members_of(alloc, nodes)?;
    Roster::new(alloc, members.as_slice())
}

/// Returns the nodes as a roster has them.
fn members_of(alloc: Global, nodes: &Nodes) -> Result<Vec<Node>, AllocError>
    ensures { IfOk result (λ members. members.items ≡ model.members nodes.now) }
{
    let mut members = Vec::new(alloc);
    for (id, weight) in nodes.list() {
        members.push(Node {
            id: *id,
            weight: *weight,
        })?;
    }
    Ok(members)
}
