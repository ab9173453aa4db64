ghost use Rattle.std.specs.Prelude.{◌≡◌, Some, true, IfSome, if◌then◌else◌};
ghost use Rattle.snow_held.specs.declared.held.Held.{Held};
ghost use Rattle.snow_issue.specs.declared.work.Waiting.{Waiting as Block};
ghost use Rattle.snow_poll.specs.Model.Table.{is_awaited};
ghost use Rattle.snow_node.specs.Model.Hearing as model;
ghost use Rattle.snow_node.specs.Clauses.Stepping.{Tells, Turns};

use crate::reporting::{drop_block, write};
use crate::running::Running;
use crate::running::queue_state::QueueState;
use crate::stop::Halt;
use snow_base::{Header, Id, NodeId};
use snow_board::Board;
use snow_chain::Chain;
use snow_issue::{Held, Offered};
use snow_lines::{DropWhy, Line, Lines, SkipKind};
use snow_poll::Answered;
use snow_wire::{Brought, Named, Sender};

impl<C: Chain, B: Board> Running<C, B> {
    /// Takes a block for which nobody asked, or the answer to a get, and does all that this brings. It
    /// passes over one that no get awaits. Where placing it would be the first step of settling, it
    /// places it at once: the queue forgets what it remembers of the block's children, so that the
    /// block may be issued. Else it offers it to the queue.
    pub(super) fn on_block(
        &mut self,
        frame: u64,
        block: Brought<'_>,
        log: &mut Lines,
    ) -> Result<(), Halt>
        ensures answer { Turns result self.new (model.block_came C.rules B.answer self.old frame block.entry.node.now block.entry.request block.entry.bytes.now).1 }
        ensures lines { Tells result log.old log.new (model.block_came C.rules B.answer self.old frame block.entry.node.now block.entry.request block.entry.bytes.now).0 }
    {
        let peer = NodeId::from_bytes(*block.node);
        let asked = if block.request == 0 {
            None
        } else {
            match self.close_get(block.request, &peer) {
                None => return Ok(()),
                asked => asked,
            }
        };
        let Some(header) = self.chain.parse(block.bytes) else {
            let kind = SkipKind::Block;
            write(Line::Skip { frame, kind }, log)?;
            return self.settle(log);
        };
        if is_other(&asked, &header.id) {
            return self.settle(log);
        }
        if self.is_next(&header) {
            let bytes = self.room.list(block.bytes)?;
            self.queue_state = self.queue_state.next(&header.id);
            self.queue.forget_children(&header.id);
            self.place(&header, bytes, log)?;
            return self.settle(log);
        }
        self.offer(&peer, &header, block.bytes, log)?;
        self.settle(log)
    }

    /// Returns whether a block is ready as it comes and would be the first thing to do. Then it
    /// needn't wait.
    fn is_next(&self, block: &Header) -> bool
        ensures { result ≡ true → model.IsNext self.now block.now }
    {
        match self.queue_state {
            QueueState::Settled => self.queue.is_next(block, &self.board),
            _ => false,
        }
    }

    /// Offers a block to the queue, and asks for its parent where nothing is known of that.
    #[tactic(auto, using(crate::proofs::Logs::logs_nothing))]
    fn offer(
        &mut self,
        peer: &NodeId,
        header: &Header,
        bytes: &[u8],
        log: &mut Lines,
    ) -> Result<(), Halt>
        ensures answer { let block : Block = record { node = peer.now; header = header.now; bytes = bytes.now } in
            Turns result self.new (model.brought self.old block).1 }
        ensures lines { let block : Block = record { node = peer.now; header = header.now; bytes = bytes.now } in
            Tells result log.old log.new (model.brought self.old block).0 }
    {
        self.queue_state = self.queue_state.woken();
        match self
            .queue
            .bring(&mut self.room, *peer, header, bytes, &self.board)?
        {
            Offered::Known => Ok(()),
            Offered::Invalid => drop_block(header.id, DropWhy::Invalid, log),
            Offered::Old => drop_block(header.id, DropWhy::Old, log),
            Offered::Full => drop_block(header.id, DropWhy::Full, log),
            Offered::Waits { ask } => self.fetch_parent(peer, ask, header, log),
        }
    }

    /// Takes a vote. Most votes are for the block that they name, and count as they come. Of any
    /// other it asks first whether the poll awaits it, so that one that isn't awaited costs no walk
    /// from block to parent. Whether a reply of the peer is held it asks last, since a reply that
    /// is held itself tells that.
    pub(super) fn on_chits(&mut self, vote: Named<'_>, log: &mut Lines) -> Result<(), Halt>
        ensures answer { Turns result self.new (model.vote_came C.rules B.answer self.old vote.entry.request vote.entry.node.now vote.entry.id.now).1 }
        ensures lines { Tells result log.old log.new (model.vote_came C.rules B.answer self.old vote.entry.request vote.entry.node.now vote.entry.id.now).0 }
    {
        let number = vote.request;
        let peer = NodeId::from_bytes(*vote.node);
        let id = Id::from_bytes(*vote.id);
        if let QueueState::Settled = self.queue_state {
            if self.queue.is_own_vote(&id, &self.board) {
                return self.count(number, &peer, &id, Some(id), log);
            }
        }
        if !self.polls.awaits(number, &peer) {
            return Ok(());
        }
        match self.vote_at_once(&id) {
            Some(vote) => self.count(number, &peer, &id, vote, log),
            None => self.hold(number, &peer, &id, log),
        }
    }

    /// Returns the vote of a reply that would be the first thing to do, if its poll awaits it: then
    /// it needn't be held.
    fn vote_at_once(&self, id: &Id) -> Option<Option<Id>>
        ensures { IfSome result (λ vote. model.IsFirst self.now id.now vote) }
    {
        match self.queue_state {
            QueueState::Settled => self.queue.vote_at_once(id, &self.board),
            _ => None,
        }
    }

    /// Counts a vote that would be the first thing to do, and does all that this brings. It passes
    /// over one that its poll doesn't await, or whose peer has a reply that is held.
    fn count(
        &mut self,
        number: u32,
        peer: &NodeId,
        id: &Id,
        vote: Option<Id>,
        log: &mut Lines,
    ) -> Result<(), Halt>
        requires { model.IsFirst self.old id.now vote }
        ensures answer { Turns result self.new (model.vote_came C.rules B.answer self.old number peer.now id.now).1 }
        ensures lines { Tells result log.old log.new (model.vote_came C.rules B.answer self.old number peer.now id.now).0 }
    {
        if self.queue.holds(number, peer) {
            return Ok(());
        }
        match self.polls.vote(number, peer, vote) {
            Answered::NotAwaited => Ok(()),
            Answered::Counted => {
                // Where no poll is closed, nothing is to be done, as before.
                if !self.polls.has_finished() {
                    return Ok(());
                }
                self.close_polls(log)?;
                self.settle(log)
            }
        }
    }

    /// Holds a reply that its poll awaits, unless one of the peer is held. Then it asks for the
    /// reply's block, if nothing is known of it, and does all that this brings.
    #[tactic(auto, using(crate::proofs::Logs::logs_nothing))]
    fn hold(&mut self, number: u32, peer: &NodeId, id: &Id, log: &mut Lines) -> Result<(), Halt>
        requires { is_awaited self.old.polls.polls number peer.now ≡ true }
        ensures answer { Turns result self.new (model.vote_came C.rules B.answer self.old number peer.now id.now).1 }
        ensures lines { Tells result log.old log.new (model.vote_came C.rules B.answer self.old number peer.now id.now).0 }
    {
        let (node, id) = (*peer, *id);
        if !self.queue.hold_once(Held { number, node, id })? {
            return Ok(());
        }
        self.queue_state = self.queue_state.woken();
        self.fetch_unknown(peer, id, log)?;
        self.settle(log)
    }

    /// Takes that a peer won't answer. It closes a get, or counts that the peer gives no vote, where
    /// a poll awaits it and no reply of it is held. Then it does all that this brings.
    pub(super) fn on_timeout(&mut self, timeout: Sender<'_>, log: &mut Lines) -> Result<(), Halt>
        ensures answer { Turns result self.new (model.timed_out C.rules B.answer self.old timeout.entry.request timeout.entry.node.now).1 }
        ensures lines { Tells result log.old log.new (model.timed_out C.rules B.answer self.old timeout.entry.request timeout.entry.node.now).0 }
    {
        let number = timeout.request;
        let peer = NodeId::from_bytes(*timeout.node);
        if self.close_get(number, &peer).is_some() {
            return self.settle(log);
        }
        if !self.polls.awaits(number, &peer) || self.queue.holds(number, &peer) {
            return self.settle(log);
        }
        self.polls.vote(number, &peer, None);
        self.close_polls(log)?;
        self.settle(log)
    }
}

/// Returns whether a block is another than the one that was asked for.
fn is_other(asked: &Option<Id>, id: &Id) -> bool
    ensures { result ≡ model.is_other asked.now id.now }
{
    match asked {
        Some(asked) => asked != id,
        None => false,
    }
}
