ghost use Rattle.std.specs.Prelude.{◌≡◌};
ghost use Rattle.snow_board.specs.Model.Poll.{poll};
ghost use Rattle.snow_board.specs.Model.Board.{Board};
ghost use Rattle.snow_issue.specs.Kept.Known.{Knows, lists_of};
ghost use Rattle.snow_node.specs.Model.Closing as model;
ghost use Rattle.snow_node.specs.Clauses.Stepping.{Tells, Turns};

use crate::admitting::apply;
use crate::reporting::tell;
use crate::running::Running;
use crate::running::supplying::serve_decisions;
use crate::stop::Halt;
use snow_board::{Board, Decision};
use snow_chain::Chain;
use snow_issue::Queue;
use snow_lines::Lines;

impl<C: Chain, B: Board> Running<C, B> {
    /// Lets polls leave while the front one is closed, and their held replies with them. It records
    /// their votes, tells chain and queue what they decided, and makes what peers are served follow.
    pub(super) fn close_polls(&mut self, log: &mut Lines) -> Result<(), Halt>
        ensures answer { Turns result self.new (model.closed_out B.answer self.old).1 }
        ensures lines { Tells result log.old log.new (model.closed_out B.answer self.old).0 }
    {
        while let Some(closed) = self.polls.take_finished() {
            self.queue.forget(closed.number);
            let before = self.board.preference();
            apply(&mut self.board, &mut self.chain, &closed.votes);
            mark_gone(&mut self.queue, self.board.decisions());
            serve_decisions(&mut self.served, &mut self.room, self.board.decisions());
            self.polls.take_back(closed.votes);
            self.recorded = true;
            self.queue_state = self.queue_state.polled();
            tell(&self.board, &before, log)?;
        }
        Ok(())
    }
}

/// Enters each decided block in the gone list. It takes no memory.
fn mark_gone(queue: &mut Queue, decisions: &[Decision])
    ensures lists { lists_of queue.new ≡ model.all_gone (lists_of queue.old) decisions.now }
    ensures knows { (board : Board) → Knows queue.old board → Knows queue.new board }
    ensures seats { queue.new.seats ≡ queue.old.seats }
{
    for decision in decisions {
        queue.gone(decision.id, None);
    }
}
