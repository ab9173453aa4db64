//! How a node that bootstraps takes each event, over its parts.
ghost use Rattle.std.specs.Prelude.{◌≡◌};
ghost use Rattle.snow_boot.specs.Model.Asking.{due_of};
ghost use Rattle.snow_boot.specs.Model.Booting as model;
ghost use Rattle.snow_chain.specs.Kept.Alone.{last_state};
ghost use Rattle.snow_boot.specs.Kept.Coursing.{boot_of, MayHear, Comes};

use crate::boot::{Parts, Stage};
use crate::question::Question;
use snow_base::{Id, Ids, NodeId, Numbers};
use snow_chain::Chain;
use snow_interval::Kept;
use snow_lines::{Line, Lines, SkipKind};
use snow_store::{BootStop, Due};

impl<H: Kept> Parts<H> {
    /// Takes the frontier that a node names.
    pub(crate) fn frontier<C: Chain>(
        &mut self,
        node: &NodeId,
        number: u32,
        id: Id,
        chain: &mut C,
        numbers: &mut Numbers,
        log: &mut Lines,
    ) -> Result<Stage, BootStop>
        requires { MayHear self.old.survey self.old.fetching self.old.requests (C.held chain.old) numbers.old }
        ensures { Comes result log.old log.new self.new.survey self.new.fetching self.new.requests numbers.old numbers.new (C.held chain.old) (C.held chain.new)
            (model.frontier_came C.rules (last_state (C.held chain.old)) (boot_of self.old.survey self.old.fetching.fetch self.old.requests) numbers.old node.now number id) }
    {
        let Some(_weight) = self.survey.awaits(Question::Frontier, number, node) else {
            return Ok(Stage::Going);
        };
        self.survey.collect(node, id)?;
        self.conclude(chain, numbers, log)
    }

    /// Takes what a node holds accepted.
    pub(crate) fn accepted<C: Chain>(
        &mut self,
        node: &NodeId,
        number: u32,
        ids: &Ids,
        chain: &mut C,
        numbers: &mut Numbers,
        log: &mut Lines,
    ) -> Result<Stage, BootStop>
        requires { MayHear self.old.survey self.old.fetching self.old.requests (C.held chain.old) numbers.old }
        ensures { Comes result log.old log.new self.new.survey self.new.fetching self.new.requests numbers.old numbers.new (C.held chain.old) (C.held chain.new)
            (model.accepted_came C.rules (last_state (C.held chain.old)) (boot_of self.old.survey self.old.fetching.fetch self.old.requests) numbers.old node.now number ids.now) }
    {
        let Some(weight) = self.survey.awaits(Question::Accepted, number, node) else {
            return Ok(Stage::Going);
        };
        self.survey.back(node, weight, ids)?;
        self.conclude(chain, numbers, log)
    }

    /// Takes that a node doesn't answer: what all nodes are asked, or a request.
    pub(crate) fn timeout<C: Chain>(
        &mut self,
        node: &NodeId,
        number: u32,
        chain: &mut C,
        numbers: &mut Numbers,
        log: &mut Lines,
    ) -> Result<Stage, BootStop>
        requires { MayHear self.old.survey self.old.fetching self.old.requests (C.held chain.old) numbers.old }
        ensures { Comes result log.old log.new self.new.survey self.new.fetching self.new.requests numbers.old numbers.new (C.held chain.old) (C.held chain.new)
            (model.timeout_came C.rules (last_state (C.held chain.old)) (boot_of self.old.survey self.old.fetching.fetch self.old.requests) numbers.old node.now number) }
    {
        let question = self.survey.question();
        if let Question::Nothing = question {
            let closed = self.requests.close(number, node);
            self.fetching.expect(due_of(closed));
            return self.follow(chain, numbers, log);
        }
        let Some(_weight) = self.survey.awaits(question, number, node) else {
            return Ok(Stage::Going);
        };
        self.survey.hear(node);
        self.conclude(chain, numbers, log)
    }

    /// Takes a block that an earlier run had kept.
    pub(crate) fn stored<C: Chain>(
        &mut self,
        frame: u64,
        bytes: &[u8],
        chain: &mut C,
        numbers: &mut Numbers,
        log: &mut Lines,
    ) -> Result<Stage, BootStop>
        requires { MayHear self.old.survey self.old.fetching self.old.requests (C.held chain.old) numbers.old }
        ensures { Comes result log.old log.new self.new.survey self.new.fetching self.new.requests numbers.old numbers.new (C.held chain.old) (C.held chain.new)
            (model.stored_came C.rules (last_state (C.held chain.old)) (boot_of self.old.survey self.old.fetching.fetch self.old.requests) numbers.old frame bytes.now) }
    {
        let Some(header) = chain.parse(bytes) else {
            log.push(Line::Skip {
                frame,
                kind: SkipKind::Block,
            })?;
            return Ok(Stage::Going);
        };
        match self.fetching.take(&header, bytes) {
            Ok(_) => self.follow(chain, numbers, log),
            Err(stop) => Err(stop),
        }
    }
}

// What is due once a request for an identifier is closed, if one is.
fn due_of(closed: Option<Id>) -> Due
    ensures { result ≡ due_of closed }
{
    match closed {
        Some(id) => Due::One(id),
        None => Due::Nothing,
    }
}
