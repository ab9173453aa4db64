ghost use Rattle.std.specs.Prelude.{◌≡◌, IfOk};
ghost use Rattle.snow_flake.specs.Model.Parameters.{AreGood, checked};
ghost use Rattle.snow_sample.specs.Model.Roster.{first_fault};
ghost use Rattle.snow_chain.specs.Model.Chain.{begun};
ghost use Rattle.snow_wire.specs.Clauses.Viewed.{as_event};
ghost use Rattle.snow_engine.specs.Model.Node as model;
ghost use Rattle.snow_engine.specs.Clauses.Stopping.{Logs, Starts, Steps};
ghost use Rattle.snow_node.specs.Model.Turning.{members};

use crate::booting::{Booting, catch_up, is_heard};
use crate::boxed::{BoxedStop, boxed};
use crate::deciding::Deciding;
use crate::stage::{Node, Stage};
use crate::stop::EngineStop;
use snow_base::Numbers;
use snow_board::Board;
use snow_chain::Chain;
use snow_flake::{ParamFault, Params};
use snow_lines::Lines;
use snow_node::{Running, roster_of};
use snow_sample::{Roster, Words};
use snow_wire::{Start, View};
use std::alloc::Global;
use std::marker::Model;

/// What a node does with the events of its stream.
/// Rule: this project's own.
#[derive(Clone, Copy, Debug, PartialEq, Eq)]
pub enum Task {
    /// It takes blocks and whole polls, and asks nobody.
    Decide,
    /// It asks other nodes, and takes their replies, blocks and votes.
    Run,
}

/// The engine of one node, over any chain and any board. Contracts see the node of the definitions.
/// Each call appends its lines to a log. How blocks wait and are issued, and how polls are begun,
/// closed and recorded, is AvalancheGo's; the events and the lines are this project's own.
/// Rule: AvalancheGo, snow/engine/snowman.
#[derive(Drop)]
pub struct Engine<C: Chain, B: Board> {
    stage: Node<C, B>,
    alloc: Global,
}

impl<C: Chain, B: Board> Model for Engine<C, B> {
    ghost use Rattle.snow_engine.specs.Kept.Staging.{Node};
    ghost use Rattle.snow_engine.specs.Kept.NodeCode.{coded_node};

    ghost Value = { Node };

    ghost coded = { coded_node };

    ghost view = { λ e. e.stage };
}

impl<C: Chain, B: Board> Engine<C, B> {
    /// Returns the engine that begins with this Start. It checks the parameters first, then, for
    /// `Run` alone, the nodes, and then whether the chain takes the state. It returns `Params`,
    /// `Roster` or `State` for the first that is refused, and `Memory` on want of memory. A node
    /// that is to bootstrap asks for frontiers at once. `Decide` looks neither at the nodes nor at
    /// boot.
    /// Rule: this project's own.
    #[tactic(auto, unfolding(crate::specs::Model::Node::started))]
    pub fn start(
        alloc: Global,
        task: Task,
        first: &Start,
        log: &mut Lines,
    ) -> Result<Self, EngineStop>
        ensures answer { Starts result (model.started C.rules task first.now).1 }
        ensures lines { Logs result log.old log.new (model.started C.rules task first.now).0 }
    {
        let params = match parameters_of(first) {
            Ok(params) => params,
            Err(fault) => return Err(EngineStop::Params(fault)),
        };
        let stage = match task {
            Task::Decide => Stage::Deciding(Deciding::start(alloc, first, params)?),
            Task::Run => begin_node(alloc, first, params, log)?,
        };
        Ok(Engine { stage, alloc })
    }

    /// Takes one event, which came in this frame. It returns `SecondStart` at a second Start,
    /// `Requests` where a number is needed and all are used up, `Boot` where bootstrapping stops,
    /// and `Memory` on want of memory. After a stop the caller only drops the engine. The log has
    /// all lines before the stop, after `Memory` a front of the event's lines.
    /// Rule: AvalancheGo, snow/engine/snowman.
    pub fn step(&mut self, frame: u64, event: View<'_>, log: &mut Lines) -> Result<(), EngineStop>
        ensures answer { Steps result self.new (model.step C.rules B.answer self.old frame (as_event event.entry)).1 }
        ensures lines { Logs result log.old log.new (model.step C.rules B.answer self.old frame (as_event event.entry)).0 }
    {
        match self.advance(frame, event, log) {
            Ok(()) => Ok(()),
            Err(stop) => Err(EngineStop::from(stop)),
        }
    }

    /// Takes one event, as `step` does, and returns a stop in a box.
    #[tactic(auto, using(crate::proofs::Staged::stepped, crate::proofs::Staged::step_logged))]
    pub(crate) fn advance(
        &mut self,
        frame: u64,
        event: View<'_>,
        log: &mut Lines,
    ) -> Result<(), BoxedStop>
        ensures answer { Steps result self.new (model.step C.rules B.answer self.old frame (as_event event.entry)).1 }
        ensures lines { Logs result log.old log.new (model.step C.rules B.answer self.old frame (as_event event.entry)).0 }
    {
        match &mut self.stage {
            Stage::Deciding(node) => boxed(node.step(frame, event, log)),
            Stage::Booting(node) if !is_heard(&event) => node.note(frame, event, log),
            stage @ Stage::Booting(_) => catch_up(self.alloc, stage, frame, event, log),
            Stage::Running(node) => boxed(node.step(frame, event, log)),
            Stage::Ended => Ok(()),
        }
    }

    /// Drops the engine. A call of it is one step in a proof, where dropping a whole node is many.
    /// Rule: this project's own.
    pub fn discard(self) {
        drop(self);
    }
}

/// Returns the node that begins to run, or to bootstrap, with a Start of these parameters. It
/// checks the nodes first, and then whether the chain takes the state.
fn begin_node<C: Chain, B: Board>(
    alloc: Global,
    first: &Start,
    params: Params,
    log: &mut Lines,
) -> Result<Node<C, B>, EngineStop>
    requires { AreGood params }
    ensures answer { Starts result (model.runs_with C.rules first.now params (first_fault (members first.now.nodes))).1 }
    ensures lines { Logs result log.old log.new (model.runs_with C.rules first.now params (first_fault (members first.now.nodes))).0 }
{
    let roster = roster_of(alloc, &first.nodes)?;
    match C::begin(alloc, first.last, first.state.list()) {
        Ok(chain) => begin_on(alloc, first, params, roster, chain, log),
        Err(fault) => {
            drop(roster);
            Err(EngineStop::from(fault))
        }
    }
}

/// Returns the node that begins so with the roster of its nodes, on a chain that took its state.
fn begin_on<C: Chain, B: Board>(
    alloc: Global,
    first: &Start,
    params: Params,
    roster: Roster,
    chain: C,
    log: &mut Lines,
) -> Result<Node<C, B>, EngineStop>
    requires good { AreGood params }
    requires roster { roster ≡ members first.now.nodes }
    requires chain { C.held chain ≡ begun first.now.last first.now.state }
    ensures answer { Starts result (model.begun_by first.now params).1 }
    ensures lines { Logs result log.old log.new (model.begun_by first.now params).0 }
{
    if first.boot {
        return Booting::start(alloc, first, params, roster, chain, log);
    }
    let node = Running::above(
        alloc,
        params,
        chain,
        roster,
        Words::new(alloc),
        Numbers::new(),
        first.last,
        first.height,
    )?;
    Ok(Stage::Running(node))
}

/// Returns the parameters that a Start states, or the first thing that is wrong with them.
#[tactic(auto, using(crate::proofs::Good::checked_good))]
fn parameters_of(first: &Start) -> Result<Params, ParamFault>
    ensures checked { result ≡ checked (model.stated first.now) }
    ensures good { IfOk result (λ params. AreGood params) }
{
    Params::check(
        first.k,
        first.alpha_preference,
        first.alpha_confidence,
        first.beta,
        first.repolls,
    )
}
