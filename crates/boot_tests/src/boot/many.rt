//! Nodes that aim at many targets.

ghost use Rattle.snow_boot.specs.Clauses.Calling.{MayGoOn, OnGoing};

use super::{Order, Run, begin, fill, numbered};
use snow_base::{Id, Ids, NodeId};
use snow_boot::{BootStop, Stage};
use snow_sample::Node;
use std::alloc::{AllocError, Global};
use std::test::Fail;

// How many targets a node aims at, each eight blocks above the one before.
const MANY: u16 = 4_096;

// A node of a roster of many.
fn member(number: u16) -> NodeId {
    let mut bytes = [0; 20];
    bytes[0..2].copy_from_slice(&number.to_be_bytes());
    NodeId::from_bytes(bytes)
}

// The block that it names.
fn target(number: u16) -> Id {
    numbered(number.wrapping_add(1).wrapping_mul(8))
}

// Many nodes, of which the first has more than half of all weight.
fn members(alloc: Global) -> Result<Vec<Node>, AllocError> {
    let mut nodes = Vec::new(alloc);
    for number in 0..MANY {
        nodes.push(Node {
            id: member(number),
            weight: if number == 0 { 10_000 } else { 1 },
        })?;
    }
    Ok(nodes)
}

// Each node names its block.
fn name_all(run: &mut Run) -> Result<Stage, BootStop>
    requires { MayGoOn run.old.boot run.old.chain run.old.numbers }
    ensures { OnGoing result (MayGoOn run.new.boot run.new.chain run.new.numbers) }
{
    for number in 0..MANY {
        match run.boot.frontier(
            &member(number),
            1,
            target(number),
            &mut run.chain,
            &mut run.numbers,
            &mut run.log,
        ) {
            Ok(Stage::Going) => {}
            other => return other,
        }
    }
    Ok(Stage::Going)
}

// The first node holds all of them accepted.
fn hold_all(run: &mut Run) -> Result<Stage, BootStop>
    requires { MayGoOn run.old.boot run.old.chain run.old.numbers }
    ensures { OnGoing result (MayGoOn run.new.boot run.new.chain run.new.numbers) }
{
    let mut ids = Ids::new(run.alloc);
    for number in 0..MANY {
        ids.push(target(number))?;
    }
    run.boot.accepted(
        &member(0),
        2,
        &ids,
        &mut run.chain,
        &mut run.numbers,
        &mut run.log,
    )
}

// The others don't answer.
fn others_wait(run: &mut Run) -> Result<Stage, BootStop>
    requires { MayGoOn run.old.boot run.old.chain run.old.numbers }
    ensures { OnGoing result (MayGoOn run.new.boot run.new.chain run.new.numbers) }
{
    for number in 1..MANY {
        match run.boot.timeout(
            &member(number),
            2,
            &mut run.chain,
            &mut run.numbers,
            &mut run.log,
        ) {
            Ok(Stage::Going) => {}
            other => return other,
        }
    }
    Ok(Stage::Going)
}

// A node comes to aim at many blocks.
fn aim_at_many(run: &mut Run) -> Result<Stage, BootStop>
    requires { MayGoOn run.old.boot run.old.chain run.old.numbers }
    ensures { OnGoing result (MayGoOn run.new.boot run.new.chain run.new.numbers) }
{
    match name_all(run) {
        Ok(Stage::Going) => {}
        other => return other,
    }
    match hold_all(run) {
        Ok(Stage::Going) => {}
        other => return other,
    }
    others_wait(run)
}

// The end where all blocks come to a node with many targets.
fn filled_many(alloc: Global, order: Order, count: u16) -> Result<Result<Stage, BootStop>, Fail> {
    let nodes = members(alloc)?;
    let mut run = begin(alloc, nodes.as_slice(), numbered(0), 0)?;
    match aim_at_many(&mut run) {
        Ok(Stage::Going) => Ok(fill(&mut run, order, count)),
        other => Ok(other),
    }
}

// So too where 4,096 of them are targets.
#[test]
fn many_targets_are_reached_in_any_order(rt: HostRuntime) -> Result<(), Fail> {
    let last = numbered(32_768);
    let done = Ok(Stage::Done {
        last,
        height: 32_768,
    });
    for order in [Order::Up, Order::Down, Order::Jumps] {
        assert!(rt; filled_many(rt.alloc(), order, 32_767)? == Ok(Stage::Going));
        assert!(rt; filled_many(rt.alloc(), order, 32_768)? == done);
    }
    Ok(())
}
