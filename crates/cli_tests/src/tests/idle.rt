use crate::tests::runs::{Run, asking, tried};
use crate::tests::streams::{A, Frame, ROOT, put_frames, put_text, stream_of};
use snow_cli::Status;
use std::alloc::{AllocError, Global};
use std::test::Fail;

// How many blocks stand in a chain for which nobody votes, and how often the block beside it, A, has the
// vote: as often as decides it.
const BLOCKS: u16 = 4094;

const VOTES: u32 = 65_535;

// What stands before the identifier of a block: the length of its frame, its tag, who sent it and why, and
// its length.
const HEAD: [u8; 33] = [
    0, 0, 0, 102, 2, 0, 0, 0, 0, 0, 0, 0, 0, 0, 0, 0, 0, 0, 0, 0, 0, 0, 0, 0, 0, 0, 0, 0, 0, 0, 0,
    0, 73,
];

// What stands before the number of a reply: the length of its frame, its tag, and the node.
const REPLY: [u8; 25] = [
    0, 0, 0, 57, 5, 1, 1, 1, 1, 1, 1, 1, 1, 1, 1, 1, 1, 1, 1, 1, 1, 1, 1, 1, 1,
];

// The identifier of the block of a number: that of A is 0.
fn put_id(out: &mut Vec<u8>, number: u16) -> Result<(), AllocError> {
    out.extend_from_slice(&[0; 30])?;
    out.extend_from_slice(&number.to_be_bytes())
}

// The parent of the block of a number.
fn put_parent(out: &mut Vec<u8>, number: u16) -> Result<(), AllocError> {
    if number > 1 {
        return put_id(out, number - 1);
    }
    out.push(0xff)?;
    out.extend_from_slice(&[0; 31])
}

// The height of the block of a number, and that it is valid.
fn put_height(out: &mut Vec<u8>, number: u16) -> Result<(), AllocError> {
    out.extend_from_slice(&[0; 6])?;
    out.extend_from_slice(&number.to_be_bytes())?;
    out.extend_from_slice(&[1])
}

// The frame of a block of the chain.
fn put_block(out: &mut Vec<u8>, number: u16) -> Result<(), AllocError> {
    out.extend_from_slice(&HEAD)?;
    put_id(out, number)?;
    put_parent(out, number)?;
    put_height(out, number)
}

fn put_blocks(out: &mut Vec<u8>) -> Result<(), AllocError> {
    for number in 0..BLOCKS {
        put_block(out, number + 1)?;
    }
    Ok(())
}

// Polls that name A, each by itself.
fn put_polls(alloc: Global, out: &mut Vec<u8>) -> Result<(), AllocError> {
    let poll = stream_of(alloc, &[Frame::Poll(&[A])])?;
    let put = put_often(out, &poll);
    drop(poll);
    put
}

fn put_often(out: &mut Vec<u8>, bytes: &[u8]) -> Result<(), AllocError> {
    for _ in 0..VOTES {
        out.extend_from_slice(bytes)?;
    }
    Ok(())
}

// The replies of the node to the queries 1 and so on, that it prefers A.
fn put_replies(out: &mut Vec<u8>) -> Result<(), AllocError> {
    for number in 0..VOTES {
        put_reply(out, number + 1)?;
    }
    Ok(())
}

fn put_reply(out: &mut Vec<u8>, number: u32) -> Result<(), AllocError> {
    out.extend_from_slice(&REPLY)?;
    out.extend_from_slice(&number.to_be_bytes())?;
    out.extend_from_slice(&[0; 32])
}

fn put_hex(out: &mut Vec<u8>, bytes: &[u8]) -> Result<(), AllocError> {
    let digits = b"0123456789abcdef";
    for byte in bytes {
        out.push(digits[usize::from(*byte >> 4)])?;
        out.push(digits[usize::from(*byte & 15)])?;
    }
    Ok(())
}

// A line of a word and the block of a number.
fn put_line(out: &mut Vec<u8>, word: &str, number: u16) -> Result<(), AllocError> {
    put_text(out, word)?;
    put_text(out, " ~")?;
    put_hex(out, &number.to_be_bytes())?;
    put_text(out, "\n")
}

fn put_queries(out: &mut Vec<u8>) -> Result<(), AllocError> {
    for number in 0..VOTES {
        put_query(out, number + 1)?;
    }
    Ok(())
}

fn put_query(out: &mut Vec<u8>, number: u32) -> Result<(), AllocError> {
    let mut digits = itoa::Buffer::new();
    put_text(out, "query ")?;
    put_text(out, digits.format(number))?;
    put_text(out, " 00~00 P*1\n")
}

fn put_rejects(out: &mut Vec<u8>) -> Result<(), AllocError> {
    for number in 0..BLOCKS {
        put_line(out, "reject", number + 1)?;
    }
    Ok(())
}

// Whether a task is done with these bytes, and writes these lines.
fn gives_all(alloc: Global, task: &str, stream: &[u8], lines: &[u8]) -> Result<bool, AllocError> {
    let words = [task];
    let run = Run {
        room: lines.len(),
        ..asking(&words, stream)
    };
    let outcome = tried(alloc, &run)?;
    let given = outcome.status == Status::Done && outcome.out.as_slice() == lines;
    drop(outcome);
    Ok(given)
}

// A Start, A, the chain beside it, and as many polls for A as decide it.
fn put_polled(alloc: Global, out: &mut Vec<u8>) -> Result<(), AllocError> {
    let start = Frame::Start([1, 1, 1, VOTES, 1]);
    put_frames(alloc, out, &[start, Frame::Block(A, ROOT, 1, 1)])?;
    put_blocks(out)?;
    put_polls(alloc, out)
}

fn put_polled_lines(out: &mut Vec<u8>) -> Result<(), AllocError> {
    put_line(out, "prefer", 0)?;
    put_line(out, "accept", 0)?;
    put_rejects(out)
}

// The same for a node that asks, with words for each of its queries.
fn put_queried(alloc: Global, out: &mut Vec<u8>) -> Result<(), AllocError> {
    put_frames(alloc, out, &[Frame::Run([1, 1, 1, VOTES, 1], &[(1, 1)])])?;
    put_frames(alloc, out, &[Frame::Words(4096, 0); 16])?;
    put_frames(alloc, out, &[Frame::Block(A, ROOT, 1, 1)])?;
    put_blocks(out)?;
    put_replies(out)
}

fn put_queried_lines(out: &mut Vec<u8>) -> Result<(), AllocError> {
    put_line(out, "prefer", 0)?;
    put_queries(out)?;
    put_line(out, "accept", 0)?;
    put_rejects(out)
}

/// Over counters that each poll touches, every poll would pass over more than a million of them.
#[test]
fn nobody_votes_for_a_chain_in_polls(rt: HostRuntime) -> Result<(), Fail> {
    let alloc = rt.alloc();
    let mut stream = Vec::new(alloc);
    put_polled(alloc, &mut stream)?;
    let mut lines = Vec::new(alloc);
    put_polled_lines(&mut lines)?;
    assert!(rt; gives_all(alloc, "decide", &stream, &lines)?);
    Ok(())
}

#[test]
fn nobody_votes_for_a_chain_in_queries(rt: HostRuntime) -> Result<(), Fail> {
    let alloc = rt.alloc();
    let mut stream = Vec::new(alloc);
    put_queried(alloc, &mut stream)?;
    let mut lines = Vec::new(alloc);
    put_queried_lines(&mut lines)?;
    assert!(rt; gives_all(alloc, "run", &stream, &lines)?);
    Ok(())
}
