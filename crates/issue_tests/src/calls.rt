//! The calls of a queue with small numbers for identifiers, each with what it answers.
use snow_base::{Bytes, Header, Id, NodeId};
use snow_board::Board;
use snow_issue::{Held, Offered, Queue, Waiting, Work};
use std::alloc::{AllocError, Global};

// What a call answers: a letter, and a block or 0.
pub(crate) type Told = (char, u16);

pub(crate) const NOTHING: Told = ('-', 0);

// What the calls of a case answer, and nothing behind.
pub(crate) type Tale = [Told; 8];

pub(crate) fn tale(told: &[Told]) -> Tale {
    let mut tale = [NOTHING; 8];
    for (place, one) in tale.iter_mut().zip(told) {
        *place = *one;
    }
    tale
}

// The identifier that begins with the bytes of a number.
pub(crate) fn named(number: u16) -> Id {
    let mut bytes = [0; 32];
    let [a, b] = number.to_be_bytes();
    bytes[0] = a;
    bytes[1] = b;
    Id::from_bytes(bytes)
}

fn number_of(id: &Id) -> u16 {
    let bytes = id.as_bytes();
    u16::from_be_bytes([bytes[0], bytes[1]])
}

fn node() -> NodeId {
    NodeId::from_bytes([7; 20])
}

fn told_of(letter: char, id: Option<Id>) -> Told {
    match id {
        Some(id) => (letter, number_of(&id)),
        None => NOTHING,
    }
}

// A block by its number, that of its parent, and its height.
type Placed = (u16, u16, u64);

fn header_of((id, parent, height): Placed) -> Header {
    Header {
        id: named(id),
        parent: named(parent),
        height,
    }
}

pub(crate) fn offer<B: Board>(
    alloc: Global,
    queue: &mut Queue,
    board: &B,
    block: Placed,
) -> Result<Told, AllocError> {
    let block = Waiting {
        node: node(),
        header: header_of(block),
        bytes: Bytes::new(alloc),
    };
    let answer = queue.offer(block, board)?;
    Ok(told_answer(answer))
}

fn told_answer(answer: Offered) -> Told {
    match answer {
        Offered::Known => ('k', 0),
        Offered::Invalid => ('i', 0),
        Offered::Old => ('o', 0),
        Offered::Full => ('f', 0),
        Offered::Waits { ask: Some(id) } => ('w', number_of(&id)),
        Offered::Waits { ask: None } => ('w', 0),
    }
}

pub(crate) fn ask(queue: &mut Queue, number: u32, id: u16) -> Result<(), AllocError> {
    let id = named(id);
    if queue.gets_len() >= 4096 || queue.has_number(number) || queue.is_asked(&id) {
        return Ok(());
    }
    queue.asked(number, node(), id)
}

pub(crate) fn hold(queue: &mut Queue, number: u32, id: u16) -> Result<(), AllocError> {
    let (node, id) = (node(), named(id));
    if queue.holds(number, &node) {
        return Ok(());
    }
    queue.hold(Held { number, node, id })
}

pub(crate) fn issue<B: Board>(board: &mut B, id: u16, parent: u16) -> Result<(), AllocError> {
    let (id, parent) = (named(id), named(parent));
    let Some(below) = board.height_of(&parent) else {
        return Ok(());
    };
    if below == u64::MAX || board.height_of(&id).is_some() || board.pending_len() >= 4096 {
        return Ok(());
    }
    board.issue(id, parent, below + 1)
}

fn told_work(work: Option<Work>) -> Told {
    match work {
        Some(Work::Hopeless(block)) => ('h', number_of(&block.header.id)),
        Some(Work::Ready(block)) => ('r', number_of(&block.header.id)),
        Some(Work::Vote(reply)) => ('v', number_of(&reply.id)),
        None => NOTHING,
    }
}

pub(crate) fn step<B: Board>(queue: &mut Queue, board: &B) -> Told {
    told_work(queue.next_work(board))
}

// A step without a look at everything, behind one with it that found nothing.
pub(crate) fn step_known<B: Board>(queue: &mut Queue, board: &B) -> Told {
    if queue.next_work(board).is_some() {
        return ('?', 0);
    }
    told_work(queue.next_known(board))
}

pub(crate) fn close(queue: &mut Queue, number: u32) -> Told {
    told_of('c', queue.close_get(number, &node()))
}

pub(crate) fn go(queue: &mut Queue, id: u16, parent: Option<u16>) {
    queue.gone(named(id), parent.map(|number| named(number)));
}

pub(crate) fn bubble<B: Board>(queue: &Queue, board: &B, id: u16) -> Told {
    told_of('b', queue.bubble(&named(id), board))
}

// The vote that a reply gives as it comes, or that it is to be held.
pub(crate) fn count<B: Board>(queue: &Queue, board: &B, id: u16) -> Told {
    match queue.vote_at_once(&named(id), board) {
        Some(vote) => told_of('b', vote),
        None => ('h', 0),
    }
}

pub(crate) fn told_flag(flag: bool) -> Told {
    if flag { ('y', 0) } else { ('n', 0) }
}

// Whether a block needn't wait.
pub(crate) fn is_next<B: Board>(queue: &Queue, board: &B, block: Placed) -> Told {
    told_flag(queue.is_next(&header_of(block), board))
}

// Whether nothing is to be done once the parent of a block that waits is asked for.
pub(crate) fn mark_quiet(queue: &mut Queue, block: Placed) -> Told {
    told_flag(queue.mark_quiet(&header_of(block)))
}
