//! A node that decides: it takes blocks and whole polls, and asks nobody.

ghost use Rattle.std.specs.Prelude.{◌≡◌};
ghost use Rattle.snow_flake.specs.Model.Parameters.{AreGood};
ghost use Rattle.snow_board.specs.Laws.Reached.{MayIssue};
ghost use Rattle.snow_chain.specs.Model.Chain.{next_on};
ghost use Rattle.snow_engine.specs.Model.Deciding as model;
ghost use Rattle.snow_engine.specs.Model.Node.{decides_with};
ghost use Rattle.snow_engine.specs.Clauses.Stopping.{Starts};
ghost use Rattle.snow_node.specs.Clauses.Stepping.{Tells, Turns};
ghost use Rattle.snow_wire.specs.Clauses.Viewed.{as_event};

use crate::stop::EngineStop;
use snow_base::{Header, Ids};
use snow_board::Board;
use snow_chain::Chain;
use snow_flake::Params;
use snow_lines::{DropWhy, Line, Lines, SkipKind};
use snow_node::{Halt, admit, apply_votes, opposition, tell, write};
use snow_wire::{Start, View};
use std::alloc::Global;
use std::marker::Model;

/// A node that decides, over any chain and any board. Contracts see the node of the definitions.
/// After a stop its caller only drops it.
/// Rule: AvalancheGo, snow/consensus/snowman.
#[derive(Drop)]
pub struct Deciding<C: Chain, B: Board> {
    params: Params,
    board: B,
    chain: C,
    /// Room for the votes of a poll.
    ids: Ids,
}

impl<C: Chain, B: Board> Model for Deciding<C, B> {
    ghost use Rattle.std.specs.Prelude.{◌≡◌};
    ghost use Rattle.snow_engine.specs.Model.Deciding.{Deciding};
    ghost use Rattle.snow_engine.specs.Kept.NodeCode.{coded_deciding};
    ghost use Rattle.snow_node.specs.Clauses.Matching.{IsSteady};

    ghost Value = { Deciding };

    ghost coded = { coded_deciding };

    ghost view = { λ e. record { board = B.board e.board; chain = C.held e.chain } };

    ghost invariant = { λ e. ((B.board e.board).parameters ≡ e.params) × IsSteady (B.board e.board) (C.held e.chain) };
}

impl<C: Chain, B: Board> Deciding<C, B> {
    /// Returns the node that begins with a Start of these parameters. It returns `State` exactly
    /// where the chain doesn't take the Start's state, unless memory ran out, and `Memory` on want
    /// of memory.
    /// Rule: AvalancheGo, snow/consensus/snowman.
    pub fn start(alloc: Global, first: &Start, params: Params) -> Result<Self, EngineStop>
        requires { AreGood params }
        ensures { Starts result (decides_with C.rules first.now params) }
    {
        let chain = C::begin(alloc, first.last, first.state.list())?;
        let board = B::begin(alloc, params, first.last, first.height)?;
        Ok(Deciding {
            params,
            board,
            chain,
            ids: Ids::new(alloc),
        })
    }

    /// Takes one event, which came in this frame. It returns `SecondStart` at a Start, and `Memory`
    /// on want of memory. The log has all lines before the stop, after `Memory` a front of the
    /// event's lines.
    /// Rule: AvalancheGo, snow/consensus/snowman.
    #[tactic(auto, unfolding(crate::specs::Model::Deciding::decides_on), using(snow_node::proofs::Logs::logs_nothing))]
    pub fn step(&mut self, frame: u64, event: View<'_>, log: &mut Lines) -> Result<(), Halt>
        ensures answer { Turns result self.new (model.decides_on C.rules B.answer self.old frame (as_event event.entry)).1 }
        ensures lines { Tells result log.old log.new (model.decides_on C.rules B.answer self.old frame (as_event event.entry)).0 }
    {
        match event {
            View::Start(_) => Err(Halt::SecondStart),
            View::Block(block) => self.on_block(frame, block.bytes, log),
            View::Poll(votes) => self.on_poll(frame, votes, log),
            _ => write(
                Line::Skip {
                    frame,
                    kind: SkipKind::Task,
                },
                log,
            ),
        }
    }

    /// Takes a block's bytes: issues it above its parent, unless something stands against it. A
    /// block that is on the board changes nothing.
    fn on_block(&mut self, frame: u64, bytes: &[u8], log: &mut Lines) -> Result<(), Halt>
        ensures answer { Turns result self.new (model.received C.rules B.answer self.old frame bytes.now (C.rules.header_of bytes.now)).1 }
        ensures lines { Tells result log.old log.new (model.received C.rules B.answer self.old frame bytes.now (C.rules.header_of bytes.now)).0 }
    {
        let Some(block) = self.chain.parse(bytes) else {
            let kind = SkipKind::Block;
            return write(Line::Skip { frame, kind }, log);
        };
        if self.board.height_of(&block.id).is_some() {
            return Ok(());
        }
        match opposition(&self.board, &block) {
            Some(why) => write(Line::Drop { id: block.id, why }, log),
            None => self.issue(&block, bytes, log),
        }
    }

    /// Issues a block where its chain takes it, and tells a change of the preference.
    fn issue(&mut self, block: &Header, bytes: &[u8], log: &mut Lines) -> Result<(), Halt>
        requires { MayIssue self.old.board block.now }
        ensures answer { Turns result self.new (model.issued_with B.answer self.old block.now
            (next_on C.rules self.old.chain block.now.parent bytes.now)).1 }
        ensures lines { Tells result log.old log.new (model.issued_with B.answer self.old block.now
            (next_on C.rules self.old.chain block.now.parent bytes.now)).0 }
    {
        let before = self.board.preference();
        if !admit(&mut self.board, &mut self.chain, block, bytes)? {
            return write(
                Line::Drop {
                    id: block.id,
                    why: DropWhy::Invalid,
                },
                log,
            );
        }
        tell(&self.board, &before, log)?;
        Ok(())
    }

    /// Records a poll with one vote for each of these identifiers. More than K votes write a line
    /// and change nothing else.
    fn on_poll(&mut self, frame: u64, votes: &[[u8; 32]], log: &mut Lines) -> Result<(), Halt>
        ensures answer { Turns result self.new (model.recorded B.answer self.old frame votes.now).1 }
        ensures lines { Tells result log.old log.new (model.recorded B.answer self.old frame votes.now).0 }
    {
        if votes.len() > self.params.k() as usize {
            return write(
                Line::Skip {
                    frame,
                    kind: SkipKind::Votes,
                },
                log,
            );
        }
        self.ids.replace(votes)?;
        let before = self.board.preference();
        apply_votes(&mut self.board, &mut self.chain, self.ids.list())?;
        tell(&self.board, &before, log)?;
        Ok(())
    }
}
