ghost use Rattle.std.specs.Prelude.{IfOk};
ghost use Rattle.snow_boot.specs.Clauses.Calling.{MayGoOn, OnGoing};

mod many;

use snow_base::{Blocks, Bytes, Id, Ids, NodeId, Numbers};
use snow_boot::{Boot, BootStop, Stage};
use snow_chain::{Chain, PlainChain};
use snow_interval::Intervals;
use snow_lines::Lines;
use snow_sample::{Node, Roster};
use std::alloc::{AllocError, Global};
use std::test::Fail;

// What comes: nodes and identifiers by their first byte, a block by its identifier, its parent and its
// height.
#[derive(Clone, Copy)]
enum Step {
    Frontier(u8, u32, u8),
    Accepted(u8, u32, u8),
    Ancestors(u8, u32, [u8; 3]),
    Timeout(u8, u32),
    Stored([u8; 3]),
}

// A node that bootstraps, with all that its calls take.
#[derive(Drop)]
struct Run {
    alloc: Global,
    boot: Boot<PlainChain, Intervals>,
    chain: PlainChain,
    numbers: Numbers,
    log: Lines,
}

fn named(first: u8) -> Id {
    let mut bytes = [0; 32];
    bytes[0] = first;
    Id::from_bytes(bytes)
}

fn node(number: u8) -> Node {
    Node {
        id: NodeId::from_bytes([number; 20]),
        weight: 1,
    }
}

// The bytes of a valid block of the plain chain.
fn block(alloc: Global, [id, parent, height]: [u8; 3]) -> Result<Bytes, AllocError> {
    let mut bytes = [0; 73];
    bytes[0] = id;
    bytes[32] = parent;
    bytes[71] = height;
    bytes[72] = 1;
    Bytes::from_slice(alloc, &bytes)
}

// One step of a node.
fn go(run: &mut Run, step: Step) -> Result<Stage, BootStop>
    requires { MayGoOn run.old.boot run.old.chain run.old.numbers }
    ensures { OnGoing result (MayGoOn run.new.boot run.new.chain run.new.numbers) }
{
    match step {
        Step::Frontier(from, number, id) => run.boot.frontier(
            &node(from).id,
            number,
            named(id),
            &mut run.chain,
            &mut run.numbers,
            &mut run.log,
        ),
        Step::Accepted(from, number, id) => {
            let mut ids = Ids::new(run.alloc);
            ids.push(named(id))?;
            ids.push(named(id))?;
            run.boot.accepted(
                &node(from).id,
                number,
                &ids,
                &mut run.chain,
                &mut run.numbers,
                &mut run.log,
            )
        }
        Step::Ancestors(from, number, one) => {
            let mut blocks = Blocks::new(run.alloc);
            blocks.push(block(run.alloc, one)?)?;
            run.boot.ancestors(
                &node(from).id,
                number,
                &blocks,
                &mut run.chain,
                &mut run.numbers,
                &mut run.log,
            )
        }
        Step::Timeout(from, number) => run.boot.timeout(
            &node(from).id,
            number,
            &mut run.chain,
            &mut run.numbers,
            &mut run.log,
        ),
        Step::Stored(one) => {
            let bytes = block(run.alloc, one)?;
            run.boot
                .stored(1, &bytes, &mut run.chain, &mut run.numbers, &mut run.log)
        }
    }
}

// Steps of a node, up to the first after which it doesn't go on.
fn walk(run: &mut Run, steps: &[Step]) -> Result<Stage, BootStop>
    requires { MayGoOn run.old.boot run.old.chain run.old.numbers }
{
    for one in steps {
        match go(run, *one) {
            Ok(Stage::Going) => {}
            Ok(stage) => return Ok(stage),
            Err(stop) => return Err(stop),
        }
    }
    Ok(Stage::Going)
}

// A node that begins with a block at a height, beside these nodes.
fn begin(alloc: Global, nodes: &[Node], last: Id, height: u64) -> Result<Run, Fail>
    ensures { IfOk result (λ run. MayGoOn run.boot run.chain run.numbers) }
{
    let roster = Roster::new(alloc, nodes)?;
    let chain = PlainChain::begin(alloc, last, &[])?;
    let mut numbers = Numbers::new();
    let mut log = Lines::new(alloc);
    let boot = Boot::start(alloc, &roster, last, height, &mut numbers, &mut log)?;
    Ok(Run {
        alloc,
        boot,
        chain,
        numbers,
        log,
    })
}

// The end of these steps of a node that begins with the block 255 at this height, beside two nodes of
// one unit of weight each.
fn end(alloc: Global, height: u64, steps: &[Step]) -> Result<Result<Stage, BootStop>, Fail> {
    let mut run = begin(alloc, &[node(1), node(2)], named(255), height)?;
    Ok(walk(&mut run, steps))
}

fn conflict(height: u64, first: u8, second: u8) -> Result<Stage, BootStop> {
    Err(BootStop::Conflict {
        height,
        first: named(first),
        second: named(second),
    })
}

// A wrong number, a node that isn't in the roster and a second answer change nothing; an identifier
// that is named twice in one answer is backed once, and half of the weight makes no target.
#[test]
fn a_node_bootstraps(rt: HostRuntime) -> Result<(), Fail> {
    let steps = [
        Step::Frontier(1, 9, 7),
        Step::Frontier(3, 1, 7),
        Step::Frontier(1, 1, 2),
        Step::Frontier(1, 1, 7),
        Step::Timeout(2, 1),
        Step::Accepted(1, 2, 2),
        Step::Timeout(2, 2),
        Step::Frontier(1, 3, 2),
        Step::Frontier(2, 3, 2),
        Step::Accepted(1, 4, 2),
        Step::Accepted(2, 4, 2),
        Step::Ancestors(2, 5, [2, 1, 2]),
        Step::Ancestors(1, 6, [1, 255, 1]),
    ];
    let last = named(2);
    assert!(rt; end(rt.alloc(), 0, steps.as_slice())? == Ok(Stage::Done { last, height: 2 }));
    Ok(())
}

#[test]
fn blocks_that_do_not_fit_stop_it(rt: HostRuntime) -> Result<(), Fail> {
    let alloc = rt.alloc();
    let id = named(1);
    let fork = [Step::Stored([1, 9, 1])];
    assert!(rt;
        end(alloc, 0, fork.as_slice())?
            == Err(BootStop::Fork {
                id,
                parent: named(9)
            })
    );
    let same = [Step::Stored([1, 255, 1]), Step::Stored([2, 255, 1])];
    assert!(rt; end(alloc, 0, same.as_slice())? == conflict(1, 1, 2));
    let below = [Step::Stored([1, 255, 1]), Step::Stored([3, 2, 2])];
    assert!(rt; end(alloc, 0, below.as_slice())? == conflict(1, 1, 2));
    let above = [Step::Stored([3, 2, 2]), Step::Stored([1, 255, 1])];
    assert!(rt; end(alloc, 0, above.as_slice())? == conflict(1, 2, 1));
    Ok(())
}

// A block that names itself as parent, a child at a wrong height, and one identifier at two heights.
#[test]
fn children_at_wrong_heights_are_refused(rt: HostRuntime) -> Result<(), Fail> {
    let alloc = rt.alloc();
    let id = named(4);
    let itself = [Step::Stored([4, 4, 5]), Step::Stored([4, 4, 5])];
    assert!(rt; end(alloc, 0, itself.as_slice())? == Err(BootStop::Refused { id }));
    let child = [Step::Stored([4, 3, 6]), Step::Stored([3, 2, 4])];
    assert!(rt; end(alloc, 0, child.as_slice())? == Err(BootStop::Refused { id }));
    let twice = [Step::Stored([4, 3, 6]), Step::Stored([4, 3, 9])];
    assert!(rt; end(alloc, 0, twice.as_slice())? == Ok(Stage::Going));
    Ok(())
}

// Nothing is kept above the greatest height.
#[test]
fn the_last_height_is_the_greatest(rt: HostRuntime) -> Result<(), Fail> {
    let steps = [Step::Stored([1, 255, 1]), Step::Stored([2, 255, 1])];
    assert!(rt; end(rt.alloc(), u64::MAX, steps.as_slice())? == Ok(Stage::Going));
    Ok(())
}

/// In which order blocks come: upwards, downwards or in jumps.
#[derive(Clone, Copy)]
enum Order {
    Up,
    Down,
    Jumps,
}

// The block of a number, which is its height too, on the one below it.
fn tall(alloc: Global, number: u16) -> Result<Bytes, AllocError> {
    let mut bytes = [0; 73];
    bytes[0..2].copy_from_slice(&number.to_be_bytes());
    bytes[32..34].copy_from_slice(&number.wrapping_sub(1).to_be_bytes());
    bytes[70..72].copy_from_slice(&number.to_be_bytes());
    bytes[72] = 1;
    Bytes::from_slice(alloc, &bytes)
}

fn numbered(number: u16) -> Id {
    let mut bytes = [0; 32];
    bytes[0..2].copy_from_slice(&number.to_be_bytes());
    Id::from_bytes(bytes)
}

// The block that comes after so many.
fn next_in(order: Order, came: u16) -> u16 {
    match order {
        Order::Up => came.wrapping_add(1),
        Order::Down => 32_768u16.wrapping_sub(came),
        Order::Jumps => (came.wrapping_mul(12_345) % 32_768).wrapping_add(1),
    }
}

// So many blocks come.
fn fill(run: &mut Run, order: Order, count: u16) -> Result<Stage, BootStop>
    requires { MayGoOn run.old.boot run.old.chain run.old.numbers }
{
    for came in 0..count {
        let bytes = tall(run.alloc, next_in(order, came))?;
        let stored = run
            .boot
            .stored(1, &bytes, &mut run.chain, &mut run.numbers, &mut run.log);
        match stored {
            Ok(Stage::Going) => {}
            Ok(stage) => return Ok(stage),
            Err(stop) => return Err(stop),
        }
    }
    Ok(Stage::Going)
}

// The only node names a block and holds it accepted.
fn aim(run: &mut Run, id: Id) -> Result<Stage, BootStop>
    requires { MayGoOn run.old.boot run.old.chain run.old.numbers }
    ensures { OnGoing result (MayGoOn run.new.boot run.new.chain run.new.numbers) }
{
    let from = node(1).id;
    let asked = run.boot.frontier(&from, 1, id, &mut run.chain, &mut run.numbers, &mut run.log);
    match asked {
        Ok(Stage::Going) => {}
        other => return other,
    }
    let mut ids = Ids::new(run.alloc);
    ids.push(id)?;
    run.boot.accepted(
        &from,
        2,
        &ids,
        &mut run.chain,
        &mut run.numbers,
        &mut run.log,
    )
}

// The end where so many blocks come to a node that aims at the block of this number.
fn filled(
    alloc: Global,
    top: u16,
    order: Order,
    count: u16,
) -> Result<Result<Stage, BootStop>, Fail> {
    let mut run = begin(alloc, &[node(1)], numbered(0), 0)?;
    match aim(&mut run, numbered(top)) {
        Ok(Stage::Going) => Ok(fill(&mut run, order, count)),
        other => Ok(other),
    }
}

// In whatever order they come, 32,768 blocks are executed at once when the last of them comes.
#[test]
fn all_blocks_come_in_any_order(rt: HostRuntime) -> Result<(), Fail> {
    let last = numbered(32_768);
    let done = Ok(Stage::Done {
        last,
        height: 32_768,
    });
    for order in [Order::Up, Order::Down, Order::Jumps] {
        assert!(rt; filled(rt.alloc(), 32_768, order, 32_767)? == Ok(Stage::Going));
        assert!(rt; filled(rt.alloc(), 32_768, order, 32_768)? == done);
    }
    Ok(())
}

#[test]
fn one_block_more_is_too_many(rt: HostRuntime) -> Result<(), Fail> {
    assert!(rt; filled(rt.alloc(), 40_000, Order::Up, 32_769)? == Err(BootStop::Full));
    Ok(())
}
