//! How a node that runs asks for blocks.

ghost use Rattle.std.specs.Prelude.{◌≡◌, None, IfSome, OnOk};
ghost use Rattle.snow_node.specs.Kept.Tied.{MayFetch, AreBothOff};
ghost use Rattle.snow_node.specs.Model.Running.{numbered};
ghost use Rattle.snow_node.specs.Model.Hearing as model;
ghost use Rattle.snow_node.specs.Clauses.Stepping.{Tells, Turns};

use crate::running::Running;
use crate::stop::Halt;
use snow_base::{Header, Id, NodeId};
use snow_board::Board;
use snow_chain::Chain;
use snow_lines::{Line, Lines};

impl<C: Chain, B: Board> Running<C, B> {
    /// Asks a peer for the parent of a block that came last and waits, if the parent is wanted. It
    /// marks the block as quiet, and the one before it where that is its child: then mostly nothing
    /// is to be done.
    pub(super) fn fetch_parent(
        &mut self,
        peer: &NodeId,
        id: Option<Id>,
        block: &Header,
        log: &mut Lines,
    ) -> Result<(), Halt>
        requires may { IfSome id (λ id. MayFetch self.old.queue id) }
        requires off { IfSome id (λ _. AreBothOff self.old.board block.now) }
        ensures answer { Turns result self.new (model.fetched_if self.old peer.now id).1 }
        ensures lines { Tells result log.old log.new (model.fetched_if self.old peer.now id).0 }
    {
        let Some(id) = id else {
            return Ok(());
        };
        self.fetch(peer, id, log)?;
        let idle = self.queue.mark_quiet(block);
        self.queue_state = self.queue_state.looked(idle);
        Ok(())
    }

    /// Asks a peer for a block, by a number of its own.
    #[tactic(auto, using(crate::proofs::Logs::logs_nothing))]
    fn fetch(&mut self, peer: &NodeId, id: Id, log: &mut Lines) -> Result<(), Halt>
        requires { MayFetch self.old.queue id }
        ensures answer { Turns result self.new (numbered self.old (model.fetched peer.now id)).1 }
        ensures lines { Tells result log.old log.new (numbered self.old (model.fetched peer.now id)).0 }
        ensures board { OnOk result (self.new.board ≡ self.old.board) }
    {
        let Some(number) = self.numbers.draw() else {
            return Err(Halt::Requests);
        };
        self.queue.asked(number, *peer, id)?;
        log.push(Line::Get {
            number,
            node: *peer,
            id,
        })?;
        Ok(())
    }

    /// Asks a peer for a block, if nothing is known of it.
    pub(super) fn fetch_unknown(
        &mut self,
        peer: &NodeId,
        id: Id,
        log: &mut Lines,
    ) -> Result<(), Halt>
        ensures answer { Turns result self.new (model.fetched_unknown self.old peer.now id).1 }
        ensures lines { Tells result log.old log.new (model.fetched_unknown self.old peer.now id).0 }
    {
        if self.queue.wants(&id, &self.board) {
            self.fetch(peer, id, log)
        } else {
            Ok(())
        }
    }

    /// Closes an open get, and returns the block for which it asked. Where no get has the number,
    /// the node still knows what it knew of the queue, so it looks for nothing.
    pub(super) fn close_get(&mut self, number: u32, peer: &NodeId) -> Option<Id>
        ensures found { result ≡ model.asked_by self.old.queue number peer.now }
        ensures node { self.new ≡ model.without_get self.old number peer.now }
        ensures none { result ≡ None → self.new ≡ self.old }
    {
        if !self.queue.has_number(number) {
            return None;
        }
        self.queue_state = self.queue_state.woken();
        self.queue.close_get(number, peer)
    }
}
