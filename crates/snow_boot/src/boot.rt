ghost use Rattle.std.specs.Prelude.{◌≡◌, IfOk};
ghost use Rattle.snow_chain.specs.Model.Chain.{Held};
ghost use Rattle.snow_boot.specs.Model.Booting as model;
ghost use Rattle.snow_chain.specs.Kept.Alone.{IsAlone, last_state};
ghost use Rattle.snow_boot.specs.Clauses.Calling.{MayGoOn, OnGoing, OnDone, Brings, Begins, Logs, Leaves};
ghost use Rattle.snow_boot.specs.Kept.Coursing.{is_going};
ghost use Rattle.snow_boot.specs.Kept.Reply.{left};
ghost use Rattle.snow_boot.specs.Clauses.Promising.{Promises};

use crate::fetching::Fetching;
use crate::inquiring;
use crate::reply::ReplyBlocks;
use crate::survey::Survey;
use snow_base::{Blocks, Bytes, Id, Ids, NodeId, Numbers};
use snow_chain::Chain;
use snow_gets::Gets;
use snow_interval::Kept;
use snow_lines::Lines;
use snow_sample::Roster;
use snow_store::BootStop;
use std::alloc::Global;
use std::marker::{Model, PhantomData};

/// How far bootstrapping is.
/// Rule: AvalancheGo, snow/engine/snowman/bootstrap.
#[derive(Clone, Copy, PartialEq, Eq)]
pub enum Stage {
    /// It goes on: the targets aren't known yet, or one of them misses a block.
    Going,
    /// It is done, with this block accepted last.
    Done { last: Id, height: u64 },
}

/// What a node that bootstraps knows: what it asks of all nodes, what it fetches, and its open
/// requests.
#[derive(Drop)]
pub(crate) struct Parts<H: Kept> {
    pub(crate) survey: Survey,
    pub(crate) fetching: Fetching<H>,
    pub(crate) requests: Gets,
}

/// A node that bootstraps, over any chain and any set of heights. It asks all nodes for their
/// accepted frontier, and which of these identifiers they hold accepted. It fetches the blocks that
/// more than half of the weight holds accepted, with all their ancestors, and executes them from
/// the last accepted block upwards.
///
/// Contracts see the node of the definitions, and whether it goes on. Each call appends its lines
/// to a log. After a stop and at the end the caller only drops the node. The log has all lines
/// before the stop, after `Memory` a front of the event's lines; and after `Memory` the caller
/// drops the chain and the numbers too. Where a block of the path is `Refused`, exactly the blocks
/// below it were accepted.
/// Rule: AvalancheGo, snow/engine/snowman/bootstrap.
#[derive(Drop)]
pub struct Boot<C: Chain, H: Kept> {
    going: bool,
    parts: Parts<H>,
    chain: PhantomData<C>,
}

impl<C: Chain, H: Kept> Model for Boot<C, H> {
    ghost use Rattle.std.specs.Prelude.{◌≡◌, true};
    ghost use Rattle.snow_boot.specs.Kept.BootCode.{coded_course};
    ghost use Rattle.snow_boot.specs.Clauses.Calling.{Course};
    ghost use Rattle.snow_boot.specs.Kept.Coursing.{course_of, IsCourse};

    ghost Value = { Course };

    ghost coded = { coded_course };

    ghost view = { λ a. course_of a.going a.parts.survey a.parts.fetching.fetch a.parts.requests };

    ghost invariant = { λ a. a.going ≡ true → IsCourse a.parts.survey a.parts.fetching a.parts.requests };
}

impl<C: Chain, H: Kept> Boot<C, H> {
    /// Begins bootstrapping from the last accepted block and its height, with the nodes of a
    /// roster, and asks all of them for their frontier. It returns `Requests` exactly where no
    /// number is left to ask with, unless memory ran out, and `Memory` on want of memory.
    /// Rule: AvalancheGo, snow/engine/snowman/bootstrap.
    pub fn start(
        alloc: Global,
        roster: &Roster,
        last: Id,
        height: u64,
        numbers: &mut Numbers,
        log: &mut Lines,
    ) -> Result<Self, BootStop>
        ensures answer { Begins result numbers.new (model.started last height roster.now numbers.old).1 }
        ensures lines { Logs result log.old log.new (model.started last height roster.now numbers.old).0 }
        ensures goes_on { IfOk result (λ made. (held : Held) → held.last ≡ last → IsAlone held → MayGoOn made held numbers.new) }
    {
        let mut survey = Survey::begin(alloc, roster)?;
        match inquiring::ask_frontier(&mut survey, numbers, log) {
            Ok(_) => Ok(Boot {
                going: true,
                parts: Parts {
                    survey,
                    fetching: Fetching::begin(alloc, last, height),
                    requests: Gets::new(alloc),
                },
                chain: PhantomData,
            }),
            Err(stop) => Err(stop),
        }
    }

    /// Takes a node's accepted frontier, as an answer to the request of this number. It returns
    /// `Going`, or `Done` where no target misses a block any more, or the stop that comes. An
    /// answer for which nobody waits changes nothing. On want of memory it returns `Memory`.
    /// Rule: AvalancheGo, snow/engine/snowman/bootstrap.
    pub fn frontier(
        &mut self,
        node: &NodeId,
        number: u32,
        id: Id,
        chain: &mut C,
        numbers: &mut Numbers,
        log: &mut Lines,
    ) -> Result<Stage, BootStop>
        requires { MayGoOn self.old (C.held chain.old) numbers.old }
        ensures answer { Brings result self.new.boot numbers.new (C.held chain.new) (model.frontier_came C.rules (last_state (C.held chain.old)) self.old.boot numbers.old node.now number id).1 }
        ensures lines { Logs result log.old log.new (model.frontier_came C.rules (last_state (C.held chain.old)) self.old.boot numbers.old node.now number id).0 }
        ensures chain { Leaves result (C.held chain.old) (C.held chain.new) }
        ensures goes_on { OnGoing result (MayGoOn self.new (C.held chain.new) numbers.new) }
        ensures numbers { OnDone result (numbers.new ≡ numbers.old) }
        ensures promise { Promises result log.old log.new self.new.boot }
    {
        self.going = false;
        let came = self.parts.frontier(node, number, id, chain, numbers, log);
        self.going = goes_on(&came);
        came
    }

    /// Takes which of the collected identifiers a node holds accepted, at most 4,096 in an event.
    /// It returns `Going`, or `Done` where no target misses a block any more, or the stop that
    /// comes. An answer for which nobody waits changes nothing. On want of memory it returns
    /// `Memory`.
    /// Rule: AvalancheGo, snow/engine/snowman/bootstrap.
    pub fn accepted(
        &mut self,
        node: &NodeId,
        number: u32,
        ids: &Ids,
        chain: &mut C,
        numbers: &mut Numbers,
        log: &mut Lines,
    ) -> Result<Stage, BootStop>
        requires { MayGoOn self.old (C.held chain.old) numbers.old }
        ensures answer { Brings result self.new.boot numbers.new (C.held chain.new) (model.accepted_came C.rules (last_state (C.held chain.old)) self.old.boot numbers.old node.now number ids.now).1 }
        ensures lines { Logs result log.old log.new (model.accepted_came C.rules (last_state (C.held chain.old)) self.old.boot numbers.old node.now number ids.now).0 }
        ensures chain { Leaves result (C.held chain.old) (C.held chain.new) }
        ensures goes_on { OnGoing result (MayGoOn self.new (C.held chain.new) numbers.new) }
        ensures numbers { OnDone result (numbers.new ≡ numbers.old) }
        ensures promise { Promises result log.old log.new self.new.boot }
    {
        self.going = false;
        let came = self.parts.accepted(node, number, ids, chain, numbers, log);
        self.going = goes_on(&came);
        came
    }

    /// Takes a block for which a node was asked, and its ancestors, at most 2,048 blocks in an
    /// event. It returns `Going`, or `Done` where no target misses a block any more, or the stop
    /// that comes. A reply for which nobody waits changes nothing. On want of memory it returns
    /// `Memory`.
    /// Rule: AvalancheGo, snow/engine/snowman/bootstrap.
    pub fn ancestors(
        &mut self,
        node: &NodeId,
        number: u32,
        blocks: &Blocks,
        chain: &mut C,
        numbers: &mut Numbers,
        log: &mut Lines,
    ) -> Result<Stage, BootStop>
        requires { MayGoOn self.old (C.held chain.old) numbers.old }
        ensures answer { Brings result self.new.boot numbers.new (C.held chain.new) (model.ancestors_came C.rules (last_state (C.held chain.old)) self.old.boot numbers.old node.now number blocks.now).1 }
        ensures lines { Logs result log.old log.new (model.ancestors_came C.rules (last_state (C.held chain.old)) self.old.boot numbers.old node.now number blocks.now).0 }
        ensures chain { Leaves result (C.held chain.old) (C.held chain.new) }
        ensures goes_on { OnGoing result (MayGoOn self.new (C.held chain.new) numbers.new) }
        ensures numbers { OnDone result (numbers.new ≡ numbers.old) }
        ensures promise { Promises result log.old log.new self.new.boot }
    {
        let listed = ReplyBlocks::Listed(blocks.list());
        self.reply(node, number, listed, chain, numbers, log)
    }

    /// Takes such a reply as `ancestors` does, whose blocks stand in a list, or still in the payload
    /// of their frame. Those that it keeps are copied once.
    /// Rule: AvalancheGo, snow/engine/snowman/bootstrap.
    pub fn reply(
        &mut self,
        node: &NodeId,
        number: u32,
        blocks: ReplyBlocks<'_>,
        chain: &mut C,
        numbers: &mut Numbers,
        log: &mut Lines,
    ) -> Result<Stage, BootStop>
        requires { MayGoOn self.old (C.held chain.old) numbers.old }
        ensures answer { Brings result self.new.boot numbers.new (C.held chain.new) (model.ancestors_came C.rules (last_state (C.held chain.old)) self.old.boot numbers.old node.now number (left blocks.entry)).1 }
        ensures lines { Logs result log.old log.new (model.ancestors_came C.rules (last_state (C.held chain.old)) self.old.boot numbers.old node.now number (left blocks.entry)).0 }
        ensures chain { Leaves result (C.held chain.old) (C.held chain.new) }
        ensures goes_on { OnGoing result (MayGoOn self.new (C.held chain.new) numbers.new) }
        ensures numbers { OnDone result (numbers.new ≡ numbers.old) }
        ensures promise { Promises result log.old log.new self.new.boot }
    {
        self.going = false;
        let came = match self.parts.requests.close(number, node) {
            Some(id) => match self.parts.fetching.reply(&*chain, id, blocks) {
                Ok(()) => self.parts.follow(chain, numbers, log),
                Err(stop) => Err(stop),
            },
            None => Ok(Stage::Going),
        };
        self.going = goes_on(&came);
        came
    }

    /// Takes that a node doesn't answer: what all nodes are asked, or a request for blocks. It
    /// returns `Going`, or `Done` where no target misses a block any more, or the stop that comes.
    /// One for which nobody waits changes nothing. On want of memory it returns `Memory`.
    /// Rule: AvalancheGo, snow/engine/snowman/bootstrap.
    pub fn timeout(
        &mut self,
        node: &NodeId,
        number: u32,
        chain: &mut C,
        numbers: &mut Numbers,
        log: &mut Lines,
    ) -> Result<Stage, BootStop>
        requires { MayGoOn self.old (C.held chain.old) numbers.old }
        ensures answer { Brings result self.new.boot numbers.new (C.held chain.new) (model.timeout_came C.rules (last_state (C.held chain.old)) self.old.boot numbers.old node.now number).1 }
        ensures lines { Logs result log.old log.new (model.timeout_came C.rules (last_state (C.held chain.old)) self.old.boot numbers.old node.now number).0 }
        ensures chain { Leaves result (C.held chain.old) (C.held chain.new) }
        ensures goes_on { OnGoing result (MayGoOn self.new (C.held chain.new) numbers.new) }
        ensures numbers { OnDone result (numbers.new ≡ numbers.old) }
        ensures promise { Promises result log.old log.new self.new.boot }
    {
        self.going = false;
        let came = self.parts.timeout(node, number, chain, numbers, log);
        self.going = goes_on(&came);
        came
    }

    /// Takes a block, in this frame, that an earlier run had kept. It passes over bytes that are no
    /// block's, with a line. It returns `Going`, or `Done` where no target misses a block any more,
    /// or the stop that comes. On want of memory it returns `Memory`.
    /// Rule: this project's own.
    pub fn stored(
        &mut self,
        frame: u64,
        bytes: &Bytes,
        chain: &mut C,
        numbers: &mut Numbers,
        log: &mut Lines,
    ) -> Result<Stage, BootStop>
        requires { MayGoOn self.old (C.held chain.old) numbers.old }
        ensures answer { Brings result self.new.boot numbers.new (C.held chain.new) (model.stored_came C.rules (last_state (C.held chain.old)) self.old.boot numbers.old frame bytes.now).1 }
        ensures lines { Logs result log.old log.new (model.stored_came C.rules (last_state (C.held chain.old)) self.old.boot numbers.old frame bytes.now).0 }
        ensures chain { Leaves result (C.held chain.old) (C.held chain.new) }
        ensures goes_on { OnGoing result (MayGoOn self.new (C.held chain.new) numbers.new) }
        ensures numbers { OnDone result (numbers.new ≡ numbers.old) }
        ensures promise { Promises result log.old log.new self.new.boot }
    {
        self.stored_slice(frame, bytes.list(), chain, numbers, log)
    }

    /// Takes such a block as `stored` does, whose bytes stand anywhere. Where it is kept they are
    /// copied once.
    /// Rule: this project's own.
    pub fn stored_slice(
        &mut self,
        frame: u64,
        bytes: &[u8],
        chain: &mut C,
        numbers: &mut Numbers,
        log: &mut Lines,
    ) -> Result<Stage, BootStop>
        requires { MayGoOn self.old (C.held chain.old) numbers.old }
        ensures answer { Brings result self.new.boot numbers.new (C.held chain.new) (model.stored_came C.rules (last_state (C.held chain.old)) self.old.boot numbers.old frame bytes.now).1 }
        ensures lines { Logs result log.old log.new (model.stored_came C.rules (last_state (C.held chain.old)) self.old.boot numbers.old frame bytes.now).0 }
        ensures chain { Leaves result (C.held chain.old) (C.held chain.new) }
        ensures goes_on { OnGoing result (MayGoOn self.new (C.held chain.new) numbers.new) }
        ensures numbers { OnDone result (numbers.new ≡ numbers.old) }
        ensures promise { Promises result log.old log.new self.new.boot }
    {
        self.going = false;
        let came = self.parts.stored(frame, bytes, chain, numbers, log);
        self.going = goes_on(&came);
        came
    }
}

// Whether bootstrapping goes on.
fn goes_on(came: &Result<Stage, BootStop>) -> bool
    ensures { result ≡ is_going came.now }
{
    match came {
        Ok(Stage::Going) => true,
        _ => false,
    }
}
