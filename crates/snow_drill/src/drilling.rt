ghost use Rattle.std.specs.Prelude.{◌≡◌, ◌<◌, [], fold, Ok, OnOk, IfOk};
ghost use Rattle.snow_chain.specs.Model.Tally.{tally_rules};
ghost use Rattle.snow_engine.specs.Model.Node.{started, step};
ghost use Rattle.snow_engine.specs.declared.engine.Task.TheVariants as task;
ghost use Rattle.snow_drill.specs.Model.Drill as model;
ghost use Rattle.snow_drill.specs.Model.First.{first, nodes};
ghost use Rattle.snow_drill.specs.Model.Summary.{drilled};
ghost use Rattle.snow_drill.specs.Kept.Told.{untold, noted};
ghost use Rattle.snow_drill.specs.Kept.Following.{Follows, Opens, Digests, Wrote, HasFault};

use crate::account::Account;
use crate::driven::Driven;
use crate::generator::Generator;
use crate::made::Made;
use crate::player::Player;
use crate::summary::summary;
use snow_base::{Bytes, Id, NodeId, Nodes, Nums, Sink, write_whole};
use snow_board::Board;
use snow_chain::TallyChain;
use snow_engine::{End, Engine, Task};
use snow_lines::Lines;
use snow_wire::Start;
use std::alloc::{AllocError, Global};

/// Makes events from a seed and from the lines that they bring, runs a node on them over the tally
/// chain, makes so many blocks, and writes a summary of six lines. It returns `Done` where it wrote
/// the summary, and `SinkFault` behind a front of it, only where the sink's count of faults rose or
/// stands at 2^64-1. On want of memory it returns `Memory`, and wrote nothing; `Memory` also tells
/// that the engine stopped, which it doesn't in a drill. It returns no other end.
/// Rule: this project's own.
pub fn drill<B: Board, O: Sink>(alloc: Global, seed: u64, blocks: u32, out: &mut O) -> End
    ensures output { Wrote result (O.written out.old) (O.written out.new)
        (drilled (step tally_rules B.answer) seed blocks (started tally_rules task.Run first)) }
    ensures fault { HasFault result (O.faults out.old) (O.faults out.new) }
{
    let Ok(text) = drilled::<B>(alloc, seed, blocks) else {
        return End::Memory;
    };
    match write_whole(out, text.list()) {
        Ok(()) => End::Done,
        Err(_) => End::SinkFault,
    }
}

// The summary of a drill. The node is handed on at once, to calls over any kind of node.
fn drilled<B: Board>(alloc: Global, seed: u64, blocks: u32) -> Result<Bytes, AllocError>
    ensures { IfOk result (λ text. text
        ≡ drilled (step tally_rules B.answer) seed blocks (started tally_rules task.Run first)) }
{
    let mut log = Lines::new(alloc);
    match start::<B>(alloc, &mut log) {
        Ok(node) => played(alloc, seed, blocks, node, &mut log),
        Err(_) => Err(AllocError),
    }
}

// The node of a drill.
fn start<B: Board>(alloc: Global, log: &mut Lines) -> Result<Engine<TallyChain, B>, AllocError>
    requires { log.old ≡ [] }
    ensures node { IfOk result (λ node. (started tally_rules task.Run first).1 ≡ Ok node) }
    ensures lines { OnOk result (log.new ≡ (started tally_rules task.Run first).0) }
{
    let first = first(alloc)?;
    match Engine::start(alloc, Task::Run, &first, log) {
        Ok(node) => Ok(node),
        Err(_) => Err(AllocError),
    }
}

// The summary of a drill of this node, whose Start brought these lines.
fn played<E: Driven>(
    alloc: Global,
    seed: u64,
    blocks: u32,
    node: E,
    log: &mut Lines,
) -> Result<Bytes, AllocError>
    ensures { IfOk result (λ text. text ≡ drilled E.step seed blocks (log.old, Ok node)) }
{
    let mut player = begin(alloc, seed, node, log)?;
    let went = player.play(blocks);
    let account = player.into_account();
    match went {
        Ok(()) => summary(alloc, blocks, account),
        Err(fault) => {
            drop(account);
            Err(fault)
        }
    }
}

// A drill behind its Start, which brought these lines.
fn begin<E: Driven>(
    alloc: Global,
    seed: u64,
    node: E,
    log: &mut Lines,
) -> Result<Player<E>, AllocError>
    ensures { IfOk result (λ player. Opens player seed (log.old, Ok node)) }
{
    match opened(alloc, log) {
        Ok(account) => Ok(Player {
            node,
            frame: 1,
            generator: Generator::new(seed),
            made: Made::new(alloc),
            account,
            log: Lines::new(alloc),
            alloc,
        }),
        Err(fault) => {
            node.discard();
            Err(fault)
        }
    }
}

// What is kept of the lines of a Start.
fn opened(alloc: Global, log: &mut Lines) -> Result<Account, AllocError>
    ensures told { IfOk result (λ account. account.tally ≡ fold noted untold log.old) }
    ensures digest { IfOk result (λ account. Digests account log.old) }
{
    let mut account = Account::new(alloc)?;
    match account.keep(log.list()) {
        Ok(()) => Ok(account),
        Err(fault) => {
            drop(account);
            Err(fault)
        }
    }
}

// The Start of a drill.
fn first(alloc: Global) -> Result<Start, AllocError>
    ensures { IfOk result (λ start. start ≡ first) }
{
    let mut state = Nums::new(alloc);
    state.push(0)?;
    state.push(1 << 63)?;
    Ok(Start {
        k: 20,
        alpha_preference: 15,
        alpha_confidence: 15,
        beta: 20,
        repolls: 4,
        boot: false,
        last: Id::from_bytes([0; 32]),
        height: 0,
        state,
        nodes: nodes(alloc, 25)?,
    })
}

// So many nodes of weight 1.
#[tactic(auto, unfolding(crate::specs::Model::First::nodes))]
fn nodes(alloc: Global, count: u8) -> Result<Nodes, AllocError>
    requires { count < 255 }
    ensures { IfOk result (λ list. list ≡ nodes count) }
{
    let mut list = Nodes::new(alloc);
    for i in 0..count {
        list.push((NodeId::from_bytes([i + 1; 20]), 1))?;
    }
    Ok(list)
}

impl<E: Driven> Player<E> {
    // The round of a block: words, the block, and three answers.
    #[tactic(auto, unfolding(crate::specs::Model::Drill::with_round))]
    fn round(&mut self, number: u64) -> Result<(), AllocError>
        ensures { OnOk result (Follows self.old self.new (λ d. model.with_round E.step d number)) }
    {
        self.words(20)?;
        self.block(number)?;
        self.answers(3)
    }

    // The rounds of so many blocks.
    #[tactic(auto, unfolding(crate::specs::Model::Drill::with_rounds))]
    fn rounds(&mut self, blocks: u32) -> Result<(), AllocError>
        ensures { OnOk result (Follows self.old self.new (λ d. model.with_rounds blocks E.step d)) }
    {
        for i in 0..blocks {
            self.round(u64::from(i) + 1)?;
        }
        Ok(())
    }

    // All that follows the Start.
    fn play(&mut self, blocks: u32) -> Result<(), AllocError>
        ensures { OnOk result (Follows self.old self.new (λ d. model.played E.step blocks d)) }
    {
        self.words(1024)?;
        self.rounds(blocks)?;
        self.answers(64 * u64::from(blocks) + 4096)
    }
}
