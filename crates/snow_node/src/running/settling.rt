ghost use Rattle.std.specs.Prelude.{◌≡◌, IfSome};
ghost use Rattle.snow_board.specs.Model.Board.{height_of};
ghost use Rattle.snow_chain.specs.Model.Chain.{next_on};
ghost use Rattle.snow_issue.specs.Kept.Known.{Knows, MarksAfter, lists_of};
ghost use Rattle.snow_issue.specs.Model.Settling.{after, work_of};
ghost use Rattle.snow_node.specs.Kept.QueueState.{IsInState};
ghost use Rattle.snow_node.specs.Kept.Tied.{IsApart, MayWork};
ghost use Rattle.snow_node.specs.Model.Placing.{opposed};
ghost use Rattle.snow_node.specs.Model.Settling as model;
ghost use Rattle.snow_node.specs.Clauses.Stepping.{Tells, Turns};

use crate::admitting::opposition;
use crate::reporting::{drop_block, tell};
use crate::running::Running;
use crate::running::queue_state::QueueState;
use crate::running::supplying::verify_and_issue;
use crate::stop::Halt;
use snow_base::{Bytes, Header};
use snow_board::Board;
use snow_chain::Chain;
use snow_issue::{Queue, Work};
use snow_lines::{DropWhy, Lines};

impl<C: Chain, B: Board> Running<C, B> {
    /// Does all that is to do with the blocks and replies that wait.
    pub(super) fn settle(&mut self, log: &mut Lines) -> Result<(), Halt>
        ensures answer { Turns result self.new (model.settled C.rules B.answer self.old).1 }
        ensures lines { Tells result log.old log.new (model.settled C.rules B.answer self.old).0 }
    {
        while let Some(work) = self.take_work() {
            self.work(work, log)?;
        }
        Ok(())
    }

    /// Takes the first thing that is to do out of the queue, if there is any.
    fn take_work(&mut self) -> Option<Work>
        ensures work { result ≡ work_of self.old.queue self.old.board }
        ensures node { self.new ≡ model.without_work self.old result }
        ensures may { IfSome result (λ work. MayWork self.new.board self.new.queue work) }
    {
        if let QueueState::Settled = self.queue_state {
            return None;
        }
        let work = take_next(&mut self.queue, &self.board, &self.queue_state);
        self.queue_state = QueueState::taken(&work);
        work
    }

    /// Does what it took out of the queue. A held reply counts as a vote for what its block stands
    /// for, and closed polls leave.
    fn work(&mut self, work: Work, log: &mut Lines) -> Result<(), Halt>
        requires { MayWork self.old.board self.old.queue work }
        ensures answer { Turns result self.new (model.done C.rules B.answer self.old work).1 }
        ensures lines { Tells result log.old log.new (model.done C.rules B.answer self.old work).0 }
    {
        match work {
            Work::Hopeless(block) => drop_block(block.header.id, DropWhy::Parent, log),
            Work::Ready(block) => {
                let header = block.header;
                self.place(&header, block.bytes, log)
            }
            Work::Vote(reply) => {
                let vote = self.queue.bubble(&reply.id, &self.board);
                self.polls.vote(reply.number, &reply.node, vote);
                self.close_polls(log)
            }
        }
    }

    /// Issues a block that is valid and against which nothing stands, and serves it. It makes a query
    /// where the block is on the way to the preference. It gives up any other block.
    #[tactic(auto, using(crate::proofs::Logs::logs_nothing, crate::proofs::Preferred::preference_leads))]
    pub(super) fn place(
        &mut self,
        block: &Header,
        bytes: Bytes,
        log: &mut Lines,
    ) -> Result<(), Halt>
        requires { IsApart self.old.board self.old.queue.waiting block.now.id }
        ensures answer { Turns result self.new (model.placed_by B.answer self.old block.now bytes (next_on C.rules self.old.chain block.now.parent bytes)
            (opposed self.old.board block.now (height_of self.old.board block.now.parent))).1 }
        ensures lines { Tells result log.old log.new (model.placed_by B.answer self.old block.now bytes (next_on C.rules self.old.chain block.now.parent bytes)
            (opposed self.old.board block.now (height_of self.old.board block.now.parent))).0 }
    {
        match opposition(&self.board, block) {
            None => {}
            Some(DropWhy::Invalid) => return self.refuse(block, log),
            Some(why) => return drop_block(block.id, why, log),
        }
        let before = self.board.preference();
        if !verify_and_issue(
            &mut self.board,
            &mut self.chain,
            &mut self.served,
            block,
            bytes,
        )? {
            return self.refuse(block, log);
        }
        self.queue_state = self.queue_state.issued(&block.id);
        tell(&self.board, &before, log)?;
        // The preference itself is told without a walk.
        if self.board.preference() == block.id || self.board.is_preferred(&block.id) {
            self.query(log)?;
        }
        Ok(())
    }

    /// Enters an invalid block in the gone list, with its parent.
    fn refuse(&mut self, block: &Header, log: &mut Lines) -> Result<(), Halt>
        ensures answer { Turns result self.new (model.refused self.old block.now).1 }
        ensures lines { Tells result log.old log.new (model.refused self.old block.now).0 }
    {
        self.queue.gone(block.id, Some(block.parent));
        drop_block(block.id, DropWhy::Invalid, log)
    }
}

/// Takes the first thing that is to do out of a queue that can be trusted so far.
fn take_next<B: Board>(queue: &mut Queue, board: &B, queue_state: &QueueState) -> Option<Work>
    requires { IsInState (B.board board.now) queue.old queue_state.now }
    ensures work { result ≡ work_of (lists_of queue.old) (B.board board.now) }
    ensures lists { lists_of queue.new ≡ after (lists_of queue.old) (B.board board.now) result }
    ensures knows { Knows queue.new (B.board board.now) }
    ensures marks { MarksAfter result queue.new.seats }
{
    match queue_state {
        QueueState::Stale => queue.next_work(board),
        QueueState::Accurate => queue.next_known(board),
        QueueState::NoneReady => queue.next_known(board),
        QueueState::Settled => None,
        QueueState::Issuing(_) => queue.next_known(board),
    }
}
