//! A node that bootstraps before it runs.

ghost use Rattle.std.specs.Prelude.{◌≡◌, [], ◌∷◌, Err, OnErr, true, false};
ghost use Rattle.snow_flake.specs.Model.Parameters.{AreGood};
ghost use Rattle.snow_chain.specs.Model.Chain.{begun};
ghost use Rattle.snow_chain.specs.Kept.Alone.{last_state};
ghost use Rattle.snow_boot.specs.Clauses.Calling.{Brings, Leaves, MayGoOn, OnDone, OnGoing};
ghost use Rattle.snow_boot.specs.Clauses.Calling.{Logs as BootLogs};
ghost use Rattle.snow_sample.specs.Model.Words.{spelled};
ghost use Rattle.snow_wire.specs.Clauses.Viewed.{as_event};
ghost use Rattle.snow_engine.specs.Model.Catching as model;
ghost use Rattle.snow_engine.specs.Model.Node.{is_booting, step};
ghost use Rattle.snow_engine.specs.Clauses.Stopping.{Logs, Starts, Steps};
ghost use Rattle.snow_engine.specs.declared.stage.Stage.TheVariants as node;
ghost use Rattle.snow_lines.specs.declared.line.Line.TheVariants as line;
ghost use Rattle.snow_node.specs.Clauses.Stepping.{Tells, Turns};
ghost use Rattle.snow_node.specs.Model.Turning.{members};

use crate::boxed::{BoxedStop, boxed};
use crate::stage::{Node, Stage};
use crate::stop::EngineStop;
use snow_base::limits::MOST_WORDS;
use snow_base::{Id, NodeId, Numbers};
use snow_board::Board;
use snow_boot::{Boot, BootStop, Intervals, ReplyBlocks, Stage as BootStage};
use snow_chain::Chain;
use snow_flake::Params;
use snow_lines::{Line, Lines, SkipKind};
use snow_node::{Halt, Running, write};
use snow_sample::{Roster, Words};
use snow_wire::{Start, View, ids_of};
use std::alloc::Global;
use std::marker::Model;
use std::mem;

/// A node that bootstraps, over any chain. Contracts see the node of the definitions. After a stop
/// its caller only drops it.
/// Rule: AvalancheGo, snow/engine/snowman/bootstrap.
#[derive(Drop)]
pub struct Booting<C: Chain> {
    params: Params,
    roster: Roster,
    boot: Boot<C, Intervals>,
    chain: C,
    words: Words,
    numbers: Numbers,
}

impl<C: Chain> Model for Booting<C> {
    ghost use Rattle.snow_chain.specs.Kept.Alone.{last_state};
    ghost use Rattle.snow_engine.specs.Model.Booting.{Booting};
    ghost use Rattle.snow_engine.specs.Kept.NodeCode.{coded_booting};
    ghost use Rattle.snow_engine.specs.Model.Booting.{IsCatchingUp};

    ghost Value = { Booting };

    ghost coded = { coded_booting };

    ghost view = { λ b. record {
      parameters = b.params;
      roster = b.roster;
      boot = b.boot.boot;
      state = last_state (C.held b.chain);
      words = b.words;
      last = b.numbers;
    } };

    ghost invariant = { λ b. IsCatchingUp b.params b.boot (C.held b.chain) b.numbers };
}

impl<C: Chain> Booting<C> {
    /// Returns the node that begins with a Start of these parameters, with the roster of its nodes
    /// and a chain at its last accepted block. It asks all nodes for their frontier. It returns
    /// `Memory` on want of memory, and no other stop, since a number is left.
    /// Rule: AvalancheGo, snow/engine/snowman/bootstrap.
    pub fn start<B: Board>(
        alloc: Global,
        first: &Start,
        params: Params,
        roster: Roster,
        chain: C,
        log: &mut Lines,
    ) -> Result<Node<C, B>, EngineStop>
        requires good { AreGood params }
        requires roster { roster ≡ members first.now.nodes }
        requires chain { C.held chain ≡ begun first.now.last first.now.state }
        ensures answer { Starts result (model.boots_first first.now params).1 }
        ensures lines { Logs result log.old log.new (model.boots_first first.now params).0 }
    {
        let mut numbers = Numbers::new();
        match Boot::start(alloc, &roster, first.last, first.height, &mut numbers, log) {
            Ok(boot) => Ok(Stage::Booting(Booting {
                params,
                roster,
                boot,
                chain,
                words: Words::new(alloc),
                numbers,
            })),
            Err(stop) => {
                drop(roster);
                drop(chain);
                Err(EngineStop::from(stop))
            }
        }
    }

    /// Takes note of an event that brings nothing to bootstrapping.
    #[tactic(auto, unfolding(crate::specs::Model::Catching::boots_on), using(crate::proofs::Staged::stepped, crate::proofs::Staged::step_logged))]
    pub(crate) fn note(
        &mut self,
        frame: u64,
        event: View<'_>,
        log: &mut Lines,
    ) -> Result<(), BoxedStop>
        requires { model.is_heard (as_event event) ≡ false }
        ensures answer { Steps result (node.Booting self.new) (model.boots_on C.rules self.old frame (as_event event.entry)).1 }
        ensures lines { Logs result log.old log.new (model.boots_on C.rules self.old frame (as_event event.entry)).0 }
    {
        boxed(note(&mut self.words, frame, event, log))
    }
}

/// Gives an answer, or that none will come, or a block that was stored, to a node that bootstraps.
/// The node runs once it has caught up. At a stop it is dropped.
// It moves whole nodes: were it inlined, each frame would probe the stack that this takes, page
// by page.
#[inline(never)]
#[tactic(auto, unfolding(crate::specs::Model::Catching::boots_on), using(crate::proofs::Staged::stopped))]
pub(crate) fn catch_up<C: Chain, B: Board>(
    alloc: Global,
    stage: &mut Node<C, B>,
    frame: u64,
    event: View<'_>,
    log: &mut Lines,
) -> Result<(), BoxedStop>
    requires booting { is_booting stage.old ≡ true }
    requires heard { model.is_heard (as_event event) ≡ true }
    ensures answer { Steps result stage.new (step C.rules B.answer stage.old frame (as_event event.entry)).1 }
    ensures lines { Logs result log.old log.new (step C.rules B.answer stage.old frame (as_event event.entry)).0 }
{
    let mut node = match mem::replace(stage, Stage::Ended) {
        Stage::Booting(node) => node,
        other => {
            drop(other);
            return Ok(());
        }
    };
    let came = match hear(
        alloc,
        &mut node.boot,
        &mut node.chain,
        &mut node.numbers,
        frame,
        event,
        log,
    ) {
        Ok(came) => came,
        Err(stop) => {
            drop((node.boot, node.roster, node.words));
            return Err(BoxedStop::new(alloc, EngineStop::from(stop)));
        }
    };
    let next = match came {
        BootStage::Going => Stage::Booting(node),
        BootStage::Done { last, height } => {
            drop(node.boot);
            match Running::above(
                alloc,
                node.params,
                node.chain,
                node.roster,
                node.words,
                node.numbers,
                last,
                height,
            ) {
                Ok(running) => Stage::Running(running),
                Err(_) => return Err(BoxedStop::from(Halt::Memory)),
            }
        }
    };
    drop(mem::replace(stage, next));
    Ok(())
}

/// Returns whether an event brings something to bootstrapping.
pub(crate) fn is_heard(event: &View<'_>) -> bool
    ensures { result ≡ model.is_heard (as_event event.now) }
{
    matches!(
        event,
        View::Frontier(_)
            | View::Accepted(_)
            | View::Ancestors(_)
            | View::Timeout(_)
            | View::Stored(_)
    )
}

/// Takes an event that brings nothing to bootstrapping: words are kept, and most others are passed
/// over.
#[tactic(auto, using(snow_node::proofs::Logs::logs_nothing))]
fn note(kept: &mut Words, frame: u64, event: View<'_>, log: &mut Lines) -> Result<(), Halt>
    ensures answer { Turns result kept.new (model.noted kept.old frame (as_event event.entry)).1 }
    ensures lines { Tells result log.old log.new (model.noted kept.old frame (as_event event.entry)).0 }
{
    match event {
        View::Start(_) => Err(Halt::SecondStart),
        View::Words(words) => keep(kept, frame, words, log),
        View::Chits(_) => Ok(()),
        View::Poll(_) | View::Line(_) => skip(frame, SkipKind::Task, log),
        _ => skip(frame, SkipKind::Stage, log),
    }
}

/// Keeps words until the node runs, unless they are too many.
#[tactic(auto, using(snow_node::proofs::Logs::logs_nothing, snow_sample::proofs::Spelled::as_many))]
fn keep(kept: &mut Words, frame: u64, words: &[[u8; 8]], log: &mut Lines) -> Result<(), Halt>
    ensures answer { Turns result kept.new (model.words_kept kept.old frame (spelled words.now)).1 }
    ensures lines { Tells result log.old log.new (model.words_kept kept.old frame (spelled words.now)).0 }
{
    if words.len() > MOST_WORDS - kept.len() {
        return skip(frame, SkipKind::Full, log);
    }
    kept.push_spelled(words)?;
    Ok(())
}

/// Writes that a frame is passed over.
fn skip(frame: u64, kind: SkipKind, log: &mut Lines) -> Result<(), Halt>
    ensures memory { OnErr result (result ≡ Err Halt.Memory) }
    ensures lines { Tells result log.old log.new (line.Skip frame kind ∷ []) }
{
    write(Line::Skip { frame, kind }, log)
}

/// Takes an event into bootstrapping.
fn hear<C: Chain>(
    alloc: Global,
    boot: &mut Boot<C, Intervals>,
    chain: &mut C,
    numbers: &mut Numbers,
    frame: u64,
    event: View<'_>,
    log: &mut Lines,
) -> Result<BootStage, BootStop>
    requires { MayGoOn boot.old (C.held chain.old) numbers.old }
    ensures answer { Brings result boot.new.boot numbers.new (C.held chain.new)
        (model.heard C.rules (last_state (C.held chain.old)) boot.old.boot numbers.old frame (as_event event.entry)).1 }
    ensures lines { BootLogs result log.old log.new
        (model.heard C.rules (last_state (C.held chain.old)) boot.old.boot numbers.old frame (as_event event.entry)).0 }
    ensures chain { Leaves result (C.held chain.old) (C.held chain.new) }
    ensures goes_on { OnGoing result (MayGoOn boot.new (C.held chain.new) numbers.new) }
    ensures numbers { OnDone result (numbers.new ≡ numbers.old) }
{
    match event {
        View::Frontier(named) => {
            let node = NodeId::from_bytes(*named.node);
            let id = Id::from_bytes(*named.id);
            boot.frontier(&node, named.request, id, chain, numbers, log)
        }
        View::Accepted(listing) => {
            let node = NodeId::from_bytes(*listing.node);
            let ids = ids_of(alloc, listing.ids)?;
            boot.accepted(&node, listing.request, &ids, chain, numbers, log)
        }
        View::Ancestors(parcel) => {
            let node = NodeId::from_bytes(*parcel.node);
            let blocks = ReplyBlocks::Packed(parcel.blocks);
            boot.reply(&node, parcel.request, blocks, chain, numbers, log)
        }
        View::Timeout(sender) => {
            let node = NodeId::from_bytes(*sender.node);
            boot.timeout(&node, sender.request, chain, numbers, log)
        }
        View::Stored(bytes) => boot.stored_slice(frame, bytes, chain, numbers, log),
        _ => Ok(BootStage::Going),
    }
}
