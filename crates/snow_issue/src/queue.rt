ghost use Rattle.std.specs.Prelude.{◌≡◌, ◌<◌, find, length, not, None, Ok, IfOk, OnOk, OnErr, true, false, if◌then◌else◌};
ghost use Rattle.std.specs.Option.{option_map};
ghost use Rattle.snow_base.specs.declared.limits.TheConstants.{MOST_GETS};
ghost use Rattle.snow_board.specs.Model.Board as model;
ghost use Rattle.snow_gets.specs.declared.gets.Get.{Get};
ghost use Rattle.snow_issue.specs.declared.work.Waiting.{Waiting};
ghost use Rattle.snow_issue.specs.declared.gone.Gone.{Gone};
ghost use Rattle.snow_gets.specs.Model.Gets.{has_number, is_get};
ghost use Rattle.snow_held.specs.Model.Replies.{holds_in};
ghost use Rattle.snow_issue.specs.Model.Lists.{begun, is_asked, after_asked, after_closed, after_held, after_forgotten, after_gone, AreWithinLimits};
ghost use Rattle.snow_issue.specs.Model.Offering.{is_on, offered, after_offer, refusal, is_next, wanted};
ghost use Rattle.snow_issue.specs.Model.Settling.{work_of, after, is_free, IsIdle};
ghost use Rattle.snow_issue.specs.declared.work.Work.TheVariants as work;
ghost use Rattle.snow_issue.specs.Kept.Known.{lists_of, Knows, ForgetsChildren, NoneRipe, MarksAfter, TakesStep};

use crate::gone::{Gone, GoneList};
use crate::spare::SpareBytes;
use crate::waiting::WaitingList;
use crate::work::{Offered, Waiting, Work};
use crate::{looking, offering};
use snow_base::{Bytes, Header, Id, NodeId};
use snow_board::Board;
use snow_gets::{Get, Gets};
use snow_held::{Held, Replies};
use std::alloc::{AllocError, Global};
use std::marker::Model;

/// What a running node waits for: at most 4,096 blocks in order of arrival, at most 4,096 open gets
/// in order of number, held replies in order of arrival, and the last 8,192 blocks that went, the
/// latest last. Contracts see these four lists, and beside each waiting block what the queue
/// remembers of it. It looks at nothing again that an event doesn't touch.
/// Rule: AvalancheGo, snow/engine/snowman.
#[derive(Drop)]
pub struct Queue {
    pub(crate) waiting: WaitingList,
    pub(crate) gets: Gets,
    pub(crate) replies: Replies,
    pub(crate) gone: GoneList,
}

impl Model for Queue {
    ghost use Rattle.snow_issue.specs.Kept.Known.{Seen, items_of};
    ghost use Rattle.snow_issue.specs.Kept.Keeping.{IsKept};

    ghost Value = { Seen };

    ghost view = { λ a. record { seats = a.waiting; gets = a.gets; held = items_of a.replies; gone = a.gone } };

    ghost invariant = { λ a. IsKept a.waiting a.gets a.replies a.gone };
}

impl Queue {
    /// Returns the queue of a node that begins to run above its last accepted block, which is gone.
    /// Nothing waits. It makes room for all 8,192 entries of the gone list. On want of memory it
    /// returns `AllocError`.
    /// Rule: AvalancheGo, snow/engine/snowman.
    pub fn new(alloc: Global, last: Id) -> Result<Queue, AllocError>
        ensures lists { IfOk result (λ made. lists_of made ≡ begun last) }
        ensures knows { IfOk result (λ made. (board : model.Board) → Knows made board) }
    {
        let mut gone = GoneList::new(alloc)?;
        gone.enter(Gone {
            id: last,
            parent: None,
        });
        Ok(Queue {
            waiting: WaitingList::new(alloc),
            gets: Gets::new(alloc),
            replies: Replies::new(alloc),
            gone,
        })
    }

    /// Offers a block, and returns the first that holds. `Known`: it is on the board or waits.
    /// `Invalid`: its latest entry in the gone list has a parent. `Old`: it has an entry without
    /// one, or its height is at most the last accepted one. `Full`: 4,096 blocks wait. Else it
    /// waits: `Waits`, and `ask` names its parent where nothing is known of that, the block is more
    /// than one above the last accepted height, and fewer than 4,096 gets are open. Only `Waits`
    /// changes the lists. On want of memory it returns `AllocError`, and all stays as it was.
    /// Rule: AvalancheGo, snow/engine/snowman.
    pub fn offer<B: Board>(&mut self, block: Waiting, board: &B) -> Result<Offered, AllocError>
        ensures answer { IfOk result (λ answer. answer ≡ offered (lists_of self.old) (B.board board.now) block) }
        ensures lists { IfOk result (λ answer. lists_of self.new ≡ after_offer (lists_of self.old) block answer) }
        ensures err { OnErr result (self.new ≡ self.old) }
        ensures knows { (b : model.Board) → Knows self.old b → Knows self.new b }
        ensures ripe { NoneRipe self.old.seats → NoneRipe self.new.seats }
        ensures limits { AreWithinLimits (lists_of self.new) }
    {
        if let Some(answer) = offering::refusal(&self.waiting, &self.gone, board, &block.header) {
            return Ok(answer);
        }
        let Waiting {
            node,
            header,
            bytes,
        } = block;
        self.wait(node, &header, bytes, board)
    }

    /// Offers a block whose bytes stand elsewhere, and returns what `offer` does. It copies the
    /// bytes only where the block waits, into room of `spare` where there is some. On want of
    /// memory it returns `AllocError`, and the queue stays as it was.
    /// Rule: AvalancheGo, snow/engine/snowman.
    pub fn bring<B: Board>(
        &mut self,
        spare: &mut SpareBytes,
        node: NodeId,
        header: &Header,
        bytes: &[u8],
        board: &B,
    ) -> Result<Offered, AllocError>
        ensures answer { let block : Waiting = record { node = node; header = header.now; bytes = bytes.now } in
            IfOk result (λ answer. answer ≡ offered (lists_of self.old) (B.board board.now) block) }
        ensures lists { let block : Waiting = record { node = node; header = header.now; bytes = bytes.now } in
            IfOk result (λ answer. lists_of self.new ≡ after_offer (lists_of self.old) block answer) }
        ensures err { OnErr result (self.new ≡ self.old) }
        ensures knows { (b : model.Board) → Knows self.old b → Knows self.new b }
        ensures ripe { NoneRipe self.old.seats → NoneRipe self.new.seats }
        ensures limits { AreWithinLimits (lists_of self.new) }
    {
        if let Some(answer) = offering::refusal(&self.waiting, &self.gone, board, header) {
            return Ok(answer);
        }
        let bytes = spare.list(bytes)?;
        self.wait(node, header, bytes, board)
    }

    // A block waits that nothing stands against. It is put together here, so that its header is copied
    // once.
    fn wait<B: Board>(
        &mut self,
        node: NodeId,
        header: &Header,
        bytes: Bytes,
        board: &B,
    ) -> Result<Offered, AllocError>
        requires { refusal (lists_of self.old) (B.board board.now) header.now ≡ None }
        ensures answer { let block : Waiting = record { node = node; header = header.now; bytes = bytes } in
            IfOk result (λ answer. answer ≡ offered (lists_of self.old) (B.board board.now) block) }
        ensures lists { let block : Waiting = record { node = node; header = header.now; bytes = bytes } in
            IfOk result (λ answer. lists_of self.new ≡ after_offer (lists_of self.old) block answer) }
        ensures err { OnErr result (self.new ≡ self.old) }
        ensures knows { (b : model.Board) → Knows self.old b → Knows self.new b }
        ensures ripe { NoneRipe self.old.seats → NoneRipe self.new.seats }
        ensures limits { AreWithinLimits (lists_of self.new) }
    {
        self.waiting.push(Waiting {
            node,
            header: *header,
            bytes,
        })?;
        Ok(Offered::Waits {
            ask: offering::ask(&self.waiting, &self.gets, &self.gone, board, header),
        })
    }

    /// Returns whether a block's parent is on the board and the block would wait if it were
    /// offered. Such a block needn't wait where nothing else is to be done.
    /// Rule: AvalancheGo, snow/engine/snowman.
    pub fn is_next<B: Board>(&self, block: &Header, board: &B) -> bool
        ensures { result ≡ is_next (lists_of self.now) (B.board board.now) block.now }
    {
        offering::is_on(board, &block.parent)
            && offering::refusal(&self.waiting, &self.gone, board, block).is_none()
    }

    /// Forgets what is remembered of a block's children, so that the block may be issued. The lists
    /// stay as they were. It takes no memory.
    /// Rule: this project's own.
    pub fn forget_children(&mut self, id: &Id)
        ensures lists { lists_of self.new ≡ lists_of self.old }
        ensures knows { (b : model.Board) → Knows self.old b → Knows self.new b }
        ensures forgets { ForgetsChildren id.now self.new.seats }
        ensures ripe { NoneRipe self.old.seats → NoneRipe self.new.seats }
        ensures limits { AreWithinLimits (lists_of self.new) }
    {
        self.waiting.wake(id);
    }

    /// Returns whether a block that a reply names is to be asked for: it is neither on the board
    /// nor waiting nor asked for nor gone, and fewer than 4,096 gets are open.
    /// Rule: AvalancheGo, snow/engine/snowman.
    pub fn wants<B: Board>(&self, id: &Id, board: &B) -> bool
        ensures { result ≡ wanted (lists_of self.now) (B.board board.now) id.now }
    {
        offering::is_wanted(&self.waiting, &self.gets, &self.gone, board, id)
    }

    /// Opens a get: a node was asked for a block under a number. Fewer than 4,096 gets are open,
    /// and none has this number or asks for this block. On want of memory it returns `AllocError`,
    /// and all stays as it was.
    /// Rule: AvalancheGo, snow/engine/snowman.
    pub fn asked(&mut self, number: u32, node: NodeId, id: Id) -> Result<(), AllocError>
        requires room { length self.old.gets < MOST_GETS }
        requires number { has_number self.old.gets number ≡ false }
        requires id { is_asked (lists_of self.old) id ≡ false }
        ensures lists { let get : Get = record { number = number; node = node; id = id } in OnOk result (lists_of self.new ≡ after_asked (lists_of self.old) get) }
        ensures err { OnErr result (self.new ≡ self.old) }
        ensures knows { (b : model.Board) → Knows self.old b → Knows self.new b }
        ensures seats { self.new.seats ≡ self.old.seats }
        ensures limits { AreWithinLimits (lists_of self.new) }
    {
        self.gets.open(Get { number, node, id })?;
        Ok(())
    }

    /// Marks the block that came last as quiet, since its parent is asked for. It marks the one
    /// before too, where that is a child of the block. It returns `true` only where no step of
    /// settling applies then, and may return `false` there too. The lists stay as they were. It
    /// looks neither at the board nor at any other block.
    /// Rule: this project's own.
    pub fn mark_quiet(&mut self, block: &Header) -> bool
        ensures lists { lists_of self.new ≡ lists_of self.old }
        ensures knows { (b : model.Board) → is_on b block.now.id ≡ false → is_on b block.now.parent ≡ false → Knows self.old b → Knows self.new b }
        ensures ripe { NoneRipe self.old.seats → NoneRipe self.new.seats }
        ensures calm { result ≡ true → NoneRipe self.new.seats }
        ensures idle { (b : model.Board) → result ≡ true → Knows self.new b → IsIdle (lists_of self.new) b }
        ensures limits { AreWithinLimits (lists_of self.new) }
    {
        let all_quiet = looking::mark_last_quiet(&mut self.waiting, &self.gets, block);
        all_quiet && self.replies.len() == 0
    }

    /// Closes the get of this number and node, and returns the block for which it asked. It returns
    /// `None` exactly where there is no such get, and all lists stay as they were then. It takes no
    /// memory.
    /// Rule: AvalancheGo, snow/engine/snowman.
    pub fn close_get(&mut self, number: u32, node: &NodeId) -> Option<Id>
        ensures answer { result ≡ option_map (λ get. get.id) (find (is_get number node.now) self.old.gets) }
        ensures lists { lists_of self.new ≡ after_closed (lists_of self.old) number node.now }
        ensures knows { (b : model.Board) → Knows self.old b → Knows self.new b }
        ensures ripe { NoneRipe self.old.seats → NoneRipe self.new.seats }
        ensures limits { AreWithinLimits (lists_of self.new) }
    {
        let id = self.gets.close(number, node)?;
        self.waiting.wake(&id);
        self.replies.wake(&id);
        Some(id)
    }

    /// Holds a reply of a node that has none held for this poll. On want of memory it returns
    /// `AllocError`, and all stays as it was.
    /// Rule: AvalancheGo, snow/engine/snowman.
    pub fn hold(&mut self, reply: Held) -> Result<(), AllocError>
        requires { holds_in self.old.held reply.number reply.node ≡ false }
        ensures lists { OnOk result (lists_of self.new ≡ after_held (lists_of self.old) reply) }
        ensures err { OnErr result (self.new ≡ self.old) }
        ensures knows { (b : model.Board) → Knows self.old b → Knows self.new b }
        ensures seats { self.new.seats ≡ self.old.seats }
        ensures limits { AreWithinLimits (lists_of self.new) }
    {
        let _is_new = self.hold_once(reply)?;
        Ok(())
    }

    /// Holds a reply, and returns `true`. It returns `false` exactly where a reply of its node to
    /// its poll is held already, and all stays as it was then. On want of memory it returns
    /// `AllocError`, and all stays as it was too.
    /// Rule: AvalancheGo, snow/engine/snowman.
    pub fn hold_once(&mut self, reply: Held) -> Result<bool, AllocError>
        ensures is_new { IfOk result (λ is_new. is_new ≡ not (holds_in self.old.held reply.number reply.node)) }
        ensures lists { IfOk result (λ is_new. lists_of self.new ≡ (if is_new then after_held (lists_of self.old) reply else lists_of self.old)) }
        ensures again { result ≡ Ok false → self.new ≡ self.old }
        ensures err { OnErr result (self.new ≡ self.old) }
        ensures knows { (b : model.Board) → Knows self.old b → Knows self.new b }
        ensures seats { self.new.seats ≡ self.old.seats }
        ensures limits { AreWithinLimits (lists_of self.new) }
    {
        // Mostly its block is asked for. So it needn't be looked at before that changes.
        let quiet = !looking::is_free(&self.waiting, &self.gets, &reply);
        self.replies.push(reply, quiet)
    }

    /// Returns whether a reply of this node to the poll of this number is held.
    /// Rule: AvalancheGo, snow/engine/snowman.
    pub fn holds(&self, number: u32, node: &NodeId) -> bool
        ensures { result ≡ holds_in self.now.held number node.now }
    {
        self.replies.holds(number, node)
    }

    /// Takes the held replies of a poll out, since the poll left. It takes no memory.
    /// Rule: AvalancheGo, snow/engine/snowman.
    pub fn forget(&mut self, number: u32)
        ensures lists { lists_of self.new ≡ after_forgotten (lists_of self.old) number }
        ensures knows { (b : model.Board) → Knows self.old b → Knows self.new b }
        ensures seats { self.new.seats ≡ self.old.seats }
        ensures limits { AreWithinLimits (lists_of self.new) }
    {
        self.replies.forget(number);
    }

    /// Returns whether an open get asks for this block.
    /// Rule: AvalancheGo, snow/engine/snowman.
    pub fn is_asked(&self, id: &Id) -> bool
        ensures { result ≡ is_asked (lists_of self.now) id.now }
    {
        self.gets.asks_for(id)
    }

    /// Returns whether a get with this number is open.
    /// Rule: AvalancheGo, snow/engine/snowman.
    pub fn has_number(&self, number: u32) -> bool
        ensures { result ≡ has_number self.now.gets number }
    {
        self.gets.has_number(number)
    }

    /// Returns how many gets are open, at most 4,096.
    /// Rule: AvalancheGo, snow/engine/snowman.
    pub fn gets_len(&self) -> usize
        ensures { result ≡ length self.now.gets }
    {
        self.gets.len()
    }

    /// Takes out and returns the block or the reply of the first step of settling that applies: the
    /// earliest hopeless block, else the earliest ready one, else the earliest free reply. It
    /// returns `None` exactly where no step applies. It enters a hopeless block in the gone list
    /// with its parent, where the latest entry of that has a parent. It looks at every waiting
    /// block anew. It takes no memory.
    /// Rule: AvalancheGo, snow/engine/snowman.
    pub fn next_work<B: Board>(&mut self, board: &B) -> Option<Work>
        ensures work { result ≡ work_of (lists_of self.old) (B.board board.now) }
        ensures lists { lists_of self.new ≡ after (lists_of self.old) (B.board board.now) result }
        ensures knows { Knows self.new (B.board board.now) }
        ensures marks { MarksAfter result self.new.seats }
        ensures limits { AreWithinLimits (lists_of self.new) }
    {
        self.waiting.forget_marks();
        self.next_known(board)
    }

    /// Does what `next_work` does, where what the queue remembers is true of the board. It looks
    /// only at blocks and replies of which nothing is remembered. So where nothing changed it finds
    /// at once that no step applies.
    /// Rule: AvalancheGo, snow/engine/snowman.
    pub fn next_known<B: Board>(&mut self, board: &B) -> Option<Work>
        requires { Knows self.old (B.board board.now) }
        ensures work { result ≡ work_of (lists_of self.old) (B.board board.now) }
        ensures lists { lists_of self.new ≡ after (lists_of self.old) (B.board board.now) result }
        ensures knows { Knows self.new (B.board board.now) }
        ensures marks { MarksAfter result self.new.seats }
        ensures limits { AreWithinLimits (lists_of self.new) }
    {
        if self.waiting.all_quiet() {
            return self.next_vote();
        }
        if let Some(at) = self.only_new_ready(board) {
            return self.take_ready(at, board);
        }
        self.next_step(board)
    }

    // The next step, whatever is remembered of the waiting blocks.
    fn next_step<B: Board>(&mut self, board: &B) -> Option<Work>
        requires { Knows self.old (B.board board.now) }
        ensures { TakesStep self.old self.new (B.board board.now) result }
    {
        let lost = self.first_hopeless(board);
        if lost < self.blocks() {
            return self.take_hopeless(lost, board);
        }
        let ready = self.first_ready(board);
        if ready < self.blocks() {
            return self.take_ready(ready, board);
        }
        self.next_vote()
    }

    // The next step where each waiting block is marked, and none is ready.
    fn next_vote(&mut self) -> Option<Work>
        ensures work { result ≡ option_map work.Vote (find (is_free (lists_of self.old)) self.old.held) }
        ensures lists { (b : model.Board) → lists_of self.new ≡ after (lists_of self.old) b result }
        ensures knows { (b : model.Board) → Knows self.old b → Knows self.new b }
        ensures marks { NoneRipe self.old.seats → MarksAfter result self.new.seats }
        ensures limits { AreWithinLimits (lists_of self.new) }
    {
        if self.replies.len() == 0 {
            return None;
        }
        self.held_vote()
    }

    // The next step where, besides, a reply is held.
    fn held_vote(&mut self) -> Option<Work>
        ensures work { result ≡ option_map work.Vote (find (is_free (lists_of self.old)) self.old.held) }
        ensures lists { (b : model.Board) → lists_of self.new ≡ after (lists_of self.old) b result }
        ensures knows { (b : model.Board) → Knows self.old b → Knows self.new b }
        ensures marks { NoneRipe self.old.seats → MarksAfter result self.new.seats }
        ensures limits { AreWithinLimits (lists_of self.new) }
    {
        match self.take_vote() {
            Some(reply) => Some(Work::Vote(reply)),
            None => None,
        }
    }

    /// Enters a block in the gone list: with a parent where the block was found invalid, and with
    /// none where it was accepted or rejected. Where there are 8,192 entries, the oldest goes. It
    /// takes no memory.
    /// Rule: AvalancheGo, snow/engine/snowman.
    pub fn gone(&mut self, id: Id, parent: Option<Id>)
        ensures lists { let entry : Gone = record { id = id; parent = parent } in lists_of self.new ≡ after_gone (lists_of self.old) entry }
        ensures knows { (b : model.Board) → Knows self.old b → Knows self.new b }
        ensures seats { self.new.seats ≡ self.old.seats }
        ensures limits { AreWithinLimits (lists_of self.new) }
    {
        self.gone.enter(Gone { id, parent });
    }
}
