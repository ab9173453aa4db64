use snow_base::{Bytes, Id};
use snow_getter::Getter;
use snow_lines::{Line, Lines};
use snow_wire::{Listing, Named, Sender, View};
use std::alloc::{AllocError, Global};

// The one line of an answer: a letter, the request, and a block, or how many blocks, identifiers or
// bytes there are.
type Told = (char, u32, u64);

const NOTHING: Told = ('-', 0, 0);

// The answers of a case, and nothing behind.
type Tale = [Told; 4];

// What a node serves, and what it is asked then.
#[derive(Clone, Copy)]
enum Case {
    Peers,
    Rejected,
    ManyBlocks,
    ManyBytes,
    ManyAccepted,
    Again,
}

// What is told in a case, above block 0. What is served is let go by a call: that is many
// steps, which are proved once then.
fn told_in(alloc: Global, case: Case) -> Result<Tale, AllocError> {
    let mut getter = Getter::begin(alloc, named(0))?;
    let told = play(alloc, &mut getter, case);
    drop(getter);
    told
}

fn play(alloc: Global, getter: &mut Getter, case: Case) -> Result<Tale, AllocError> {
    match case {
        Case::Peers => peers(alloc, getter),
        Case::Rejected => rejected(alloc, getter),
        Case::ManyBlocks => many_blocks(alloc, getter),
        Case::ManyBytes => many_bytes(alloc, getter),
        Case::ManyAccepted => many_accepted(alloc, getter),
        Case::Again => again(alloc, getter),
    }
}

// The bytes of the identifier that begins with those of a number.
fn bytes_of(number: u16) -> [u8; 32] {
    let mut bytes = [0; 32];
    let [a, b] = number.to_be_bytes();
    bytes[0] = a;
    bytes[1] = b;
    bytes
}

fn named(number: u16) -> Id {
    Id::from_bytes(bytes_of(number))
}

fn number_of(id: &Id) -> u64 {
    let bytes = id.as_bytes();
    u64::from(u16::from_be_bytes([bytes[0], bytes[1]]))
}

// The node that asks.
const NODE: [u8; 20] = [2; 20];

fn told_of(line: &Line) -> Told {
    match line {
        Line::ToChits { number, last, .. } => ('c', *number, number_of(last.id())),
        Line::ToFrontier { number, id, .. } => ('f', *number, number_of(id)),
        Line::ToAccepted { number, ids, .. } => ('a', *number, ids.list().len() as u64),
        Line::ToAncestors { number, blocks, .. } => ('n', *number, blocks.list().len() as u64),
        Line::ToBlock { number, bytes, .. } => ('b', *number, bytes.list().len() as u64),
        _ => ('?', 0, 0),
    }
}

// What a node answers that prefers block 1.
fn ask(alloc: Global, getter: &Getter, question: &View) -> Result<Told, AllocError> {
    let mut log = Lines::new(alloc);
    let answered = getter.answer(named(1), question, &mut log);
    let told = told_in_log(&log);
    drop(log);
    answered?;
    Ok(told)
}

fn told_in_log(log: &Lines) -> Told {
    match log.list() {
        [] => NOTHING,
        [line] => told_of(line),
        _ => ('?', 1, 1),
    }
}

fn ask_block(alloc: Global, getter: &Getter, id: u16) -> Result<Told, AllocError> {
    let question = View::AskBlock(Named {
        node: &NODE,
        request: 5,
        id: &bytes_of(id),
    });
    ask(alloc, getter, &question)
}

fn ask_ancestors(alloc: Global, getter: &Getter, id: u16) -> Result<Told, AllocError> {
    let question = View::AskAncestors(Named {
        node: &NODE,
        request: 6,
        id: &bytes_of(id),
    });
    ask(alloc, getter, &question)
}

fn ask_accepted(alloc: Global, getter: &Getter, ids: &[[u8; 32]]) -> Result<Told, AllocError> {
    let question = View::AskAccepted(Listing {
        node: &NODE,
        request: 7,
        ids,
    });
    ask(alloc, getter, &question)
}

// So many bytes.
fn filled(alloc: Global, count: u32) -> Result<Bytes, AllocError> {
    let mut bytes = Bytes::new(alloc);
    for _ in 0..count {
        bytes.push(9)?;
    }
    Ok(bytes)
}

// Issues a block with so many bytes on another. One that is pending isn't issued again.
fn issue(
    alloc: Global,
    getter: &mut Getter,
    (id, parent): (u16, u16),
    count: u32,
) -> Result<(), AllocError> {
    let bytes = filled(alloc, count)?;
    let (id, parent) = (named(id), named(parent));
    if getter.is_pending(&id) {
        return Ok(());
    }
    getter.issued(id, parent, bytes)
}

// Issues the blocks from one number to before another, each with so many bytes on the one before it.
fn issue_all(
    alloc: Global,
    getter: &mut Getter,
    (from, to): (u16, u16),
    count: u32,
) -> Result<(), AllocError> {
    for id in from..to {
        issue(alloc, getter, (id, id.wrapping_sub(1)), count)?;
    }
    Ok(())
}

// Issues and accepts them, each with one byte.
fn accept_all(
    alloc: Global,
    getter: &mut Getter,
    (from, to): (u16, u16),
) -> Result<(), AllocError> {
    for id in from..to {
        issue(alloc, getter, (id, id.wrapping_sub(1)), 1)?;
        getter.accepted(&named(id));
    }
    Ok(())
}

fn peers(alloc: Global, getter: &mut Getter) -> Result<Tale, AllocError> {
    issue(alloc, getter, (1, 0), 73)?;
    let asked = Sender {
        node: &NODE,
        request: 8,
    };
    let preferred = ask(alloc, getter, &View::AskQuery(asked))?;
    getter.accepted(&named(1));
    let last = ask(alloc, getter, &View::AskFrontier(asked))?;
    let accepted = ask_accepted(
        alloc,
        getter,
        &[bytes_of(0), bytes_of(2), bytes_of(1), bytes_of(0)],
    )?;
    Ok([preferred, last, accepted, ask_block(alloc, getter, 1)?])
}

#[test]
fn peers_ask(rt: HostRuntime) {
    let told = [('c', 8, 0), ('f', 8, 1), ('a', 7, 2), ('b', 5, 73)];
    assert_eq!(rt; told_in(rt.alloc(), Case::Peers), Ok(told));
}

// What is told of a block without bytes while it is pending and once it was rejected, and of blocks
// that never were issued.
fn rejected(alloc: Global, getter: &mut Getter) -> Result<Tale, AllocError> {
    issue(alloc, getter, (1, 0), 0)?;
    let pending = ask_block(alloc, getter, 1)?;
    getter.rejected(&named(1));
    let gone = ask_block(alloc, getter, 1)?;
    let first = ask_block(alloc, getter, 0)?;
    Ok([pending, gone, first, ask_ancestors(alloc, getter, 2)?])
}

#[test]
fn what_is_not_served_has_no_answer(rt: HostRuntime) {
    let told = [('b', 5, 0), NOTHING, NOTHING, NOTHING];
    assert_eq!(rt; told_in(rt.alloc(), Case::Rejected), Ok(told));
}

// How many blocks come with the 64th and the 65th of a chain.
fn many_blocks(alloc: Global, getter: &mut Getter) -> Result<Tale, AllocError> {
    issue_all(alloc, getter, (1, 66), 1)?;
    let all = ask_ancestors(alloc, getter, 64)?;
    let rest = ask_ancestors(alloc, getter, 65)?;
    Ok([all, rest, NOTHING, NOTHING])
}

#[test]
fn a_chain_has_at_most_64_blocks(rt: HostRuntime) {
    let told = [('n', 6, 64), ('n', 6, 64), NOTHING, NOTHING];
    assert_eq!(rt; told_in(rt.alloc(), Case::ManyBlocks), Ok(told));
}

// How many blocks come above eight with 524,288 bytes: with a block of one byte, and of none.
fn many_bytes(alloc: Global, getter: &mut Getter) -> Result<Tale, AllocError> {
    issue_all(alloc, getter, (1, 9), 65_536)?;
    issue(alloc, getter, (9, 8), 1)?;
    issue(alloc, getter, (10, 8), 0)?;
    let more = ask_ancestors(alloc, getter, 9)?;
    let none = ask_ancestors(alloc, getter, 10)?;
    Ok([more, none, NOTHING, NOTHING])
}

#[test]
fn a_chain_has_at_most_524288_bytes(rt: HostRuntime) {
    let told = [('n', 6, 8), ('n', 6, 9), NOTHING, NOTHING];
    assert_eq!(rt; told_in(rt.alloc(), Case::ManyBytes), Ok(told));
}

// What is told of the first of 4,096 accepted blocks, and of the first two of one more.
fn many_accepted(alloc: Global, getter: &mut Getter) -> Result<Tale, AllocError> {
    accept_all(alloc, getter, (1, 4_097))?;
    let first = ask_block(alloc, getter, 1)?;
    accept_all(alloc, getter, (4_097, 4_098))?;
    let gone = ask_block(alloc, getter, 1)?;
    let second = ask_ancestors(alloc, getter, 2)?;
    Ok([first, gone, second, NOTHING])
}

#[test]
fn the_last_4096_accepted_blocks_are_served(rt: HostRuntime) {
    let told = [('b', 5, 1), NOTHING, ('n', 6, 1), NOTHING];
    assert_eq!(rt; told_in(rt.alloc(), Case::ManyAccepted), Ok(told));
}

// What is told of a block that was accepted with one byte, and issued again with five.
fn again(alloc: Global, getter: &mut Getter) -> Result<Tale, AllocError> {
    accept_all(alloc, getter, (1, 3))?;
    issue(alloc, getter, (1, 7), 5)?;
    let pending = ask_block(alloc, getter, 1)?;
    let accepted = ask_accepted(alloc, getter, &[bytes_of(1)])?;
    getter.rejected(&named(1));
    let served = ask_block(alloc, getter, 1)?;
    Ok([pending, accepted, served, NOTHING])
}

#[test]
fn the_pending_block_comes_before_the_accepted_one(rt: HostRuntime) {
    let told = [('b', 5, 5), ('a', 7, 1), ('b', 5, 1), NOTHING];
    assert_eq!(rt; told_in(rt.alloc(), Case::Again), Ok(told));
}
