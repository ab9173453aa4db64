use std::alloc::{AllocError, Global};

/// An identifier with this first and this last byte, and zeros between.
#[derive(Clone, Copy)]
pub struct Name(pub u8, pub u8);

/// The last accepted block at the beginning, at height 0.
pub const ROOT: Name = Name(0xff, 0);

/// Blocks by their first bytes.
pub const A: Name = Name(0x00, 0);

pub const B: Name = Name(0x01, 0);

pub const C: Name = Name(0x02, 0);

pub const D: Name = Name(0x03, 0);

pub const E: Name = Name(0x04, 0);

pub const FAR: Name = Name(0x80, 0);

/// What stands in a stream.
#[derive(Clone, Copy)]
pub enum Frame {
    /// A Start with K, the two quorums, Beta and ConcurrentRepolls; else plain.
    Start([u32; 5]),
    /// A Start on this last accepted block with this state; the parameters are all 1.
    StartOn(Name, &'static [u64]),
    /// A Start for a node that runs: the same, with nodes, each by its byte and its weight.
    Run([u32; 5], &'static [(u8, u64)]),
    /// A Start for a node that bootstraps: the height of the last accepted block, and nodes.
    Boot(u8, &'static [(u8, u64)]),
    /// A block of the plain chain: it, its parent, its height and its flag.
    Block(Name, Name, u8, u8),
    /// The same as the answer of node 1 to a request.
    Brought(u32, Name, Name, u8, u8),
    /// Random words: how often this one.
    Words(usize, u64),
    /// Two random words.
    Pair(u64, u64),
    /// A line that a run wrote, without its end.
    Line(&'static str),
    /// A vote of a node in a poll.
    Chits(u8, u32, Name),
    /// A node doesn't answer a request.
    Timeout(u8, u32),
    /// A question of a node, or its answer: its tag, the node, its number, and the blocks that it names.
    Ask(u8, u8, u32, &'static [Name]),
    /// A node's reply: blocks, each with its parent, its height and its flag.
    Ancestors(u8, u32, &'static [(Name, Name, u8, u8)]),
    /// A block that was kept earlier.
    Stored(Name, Name, u8, u8),
    /// New nodes, each by its byte and its weight.
    Validators(&'static [(u8, u64)]),
    /// A block of these bytes.
    Whole(&'static [u8]),
    /// A poll for these blocks.
    Poll(&'static [Name]),
    /// A payload of so many bytes, all the same.
    Same(usize, u8),
    /// A payload of a tag and so many zero bytes.
    Zeros(u8, usize),
    /// Bytes with no length word before them.
    Bare(&'static [u8]),
}

/// A plain Start whose parameters are all 1.
pub const START: Frame = Frame::Start([1, 1, 1, 1, 1]);

/// One block and one poll for it: 215 bytes, of which the frames end behind the bytes 70, 176 and 215.
pub const ONE: &[Frame] = &[START, Frame::Block(B, ROOT, 1, 1), Frame::Poll(&[B])];

/// The lines of that stream.
pub const ONE_LINES: &str = "prefer 01~00\naccept 01~00\n";

/// The bytes of a stream.
pub fn stream_of(alloc: Global, frames: &[Frame]) -> Result<Vec<u8>, AllocError> {
    let mut bytes = Vec::new(alloc);
    put_frames(alloc, &mut bytes, frames)?;
    Ok(bytes)
}

/// Puts the bytes of frames behind those of a stream.
pub fn put_frames(alloc: Global, out: &mut Vec<u8>, frames: &[Frame]) -> Result<(), AllocError> {
    for frame in frames {
        put_frame(alloc, out, *frame)?;
    }
    Ok(())
}

/// The text of lines, where `~` stands for 60 digits 0, and `P` to `T` for the nodes 1 to 5.
pub fn text_of(alloc: Global, lines: &str) -> Result<Vec<u8>, AllocError> {
    let mut text = Vec::new(alloc);
    put_text(&mut text, lines)?;
    Ok(text)
}

/// Puts the text of lines behind others.
pub fn put_text(out: &mut Vec<u8>, lines: &str) -> Result<(), AllocError> {
    for byte in lines.as_bytes() {
        put_digits(out, *byte)?;
    }
    Ok(())
}

fn put_digits(out: &mut Vec<u8>, byte: u8) -> Result<(), AllocError> {
    match byte {
        b'~' => out.extend_from_slice(&[b'0'; 60])?,
        b'P'..=b'T' => put_node(out, byte - b'P' + b'1')?,
        _ => out.push(byte)?,
    }
    Ok(())
}

/// The digits of a node whose bytes end in this digit.
fn put_node(out: &mut Vec<u8>, digit: u8) -> Result<(), AllocError> {
    for _ in 0..20 {
        out.extend_from_slice(&[b'0', digit])?;
    }
    Ok(())
}

fn put_frame(alloc: Global, out: &mut Vec<u8>, frame: Frame) -> Result<(), AllocError> {
    if let Frame::Bare(bytes) = frame {
        return out.extend_from_slice(bytes);
    }
    let mut payload = Vec::new(alloc);
    let framed = put_framed(out, &mut payload, frame);
    drop(payload);
    framed
}

/// Puts the payload of a frame into room that is empty, and then its length and it.
fn put_framed(out: &mut Vec<u8>, payload: &mut Vec<u8>, frame: Frame) -> Result<(), AllocError> {
    put_payload(payload, frame)?;
    out.extend_from_slice(&word(payload.len()).to_be_bytes())?;
    out.extend_from_slice(payload.as_slice())
}

fn word(n: usize) -> u32 {
    u32::try_from(n).unwrap_or(u32::MAX)
}

fn put_payload(out: &mut Vec<u8>, frame: Frame) -> Result<(), AllocError> {
    match frame {
        Frame::Start(parameters) => put_start(out, parameters, ROOT, &[], &[]),
        Frame::StartOn(last, state) => put_start(out, [1; 5], last, state, &[]),
        Frame::Run(parameters, nodes) => put_start(out, parameters, ROOT, &[], nodes),
        Frame::Boot(height, nodes) => put_boot(out, height, nodes),
        Frame::Block(id, parent, height, flag) => put_block(out, 0, id, parent, height, flag),
        Frame::Brought(number, id, parent, height, flag) => {
            put_block(out, number, id, parent, height, flag)
        }
        Frame::Words(count, word) => put_words(out, count, word),
        Frame::Pair(first, second) => put_pair(out, first, second),
        Frame::Line(line) => put_line(out, line),
        Frame::Chits(node, number, id) => put_vote(out, node, number, id),
        Frame::Timeout(node, number) => put_message(out, 6, node, number),
        Frame::Ask(tag, node, number, blocks) => put_asked(out, tag, node, number, blocks),
        Frame::Ancestors(node, number, blocks) => put_ancestors(out, node, number, blocks),
        Frame::Stored(id, parent, height, flag) => put_stored(out, id, parent, height, flag),
        Frame::Validators(nodes) => put_validators(out, nodes),
        Frame::Whole(bytes) => put_whole(out, bytes),
        Frame::Poll(votes) => put_poll(out, votes),
        Frame::Same(count, byte) => out.resize(count, byte),
        Frame::Zeros(tag, count) => put_zeros(out, tag, count),
        Frame::Bare(bytes) => out.extend_from_slice(bytes),
    }
}

fn put_name(out: &mut Vec<u8>, name: Name) -> Result<(), AllocError> {
    let mut bytes = [0; 32];
    bytes[0] = name.0;
    bytes[31] = name.1;
    out.extend_from_slice(&bytes)
}

fn put_count(out: &mut Vec<u8>, count: usize) -> Result<(), AllocError> {
    let short = u16::try_from(count).unwrap_or(u16::MAX);
    out.extend_from_slice(&short.to_be_bytes())
}

fn put_start(
    out: &mut Vec<u8>,
    parameters: [u32; 5],
    last: Name,
    state: &[u64],
    nodes: &[(u8, u64)],
) -> Result<(), AllocError> {
    put_first(out, parameters, 0, last, 0)?;
    put_state(out, state)?;
    put_nodes(out, nodes)
}

fn put_boot(out: &mut Vec<u8>, height: u8, nodes: &[(u8, u64)]) -> Result<(), AllocError> {
    put_first(out, [1; 5], 1, ROOT, height)?;
    put_state(out, &[])?;
    put_nodes(out, nodes)
}

/// A Start up to the height of its last accepted block.
fn put_first(
    out: &mut Vec<u8>,
    parameters: [u32; 5],
    boot: u8,
    last: Name,
    height: u8,
) -> Result<(), AllocError> {
    out.push(1)?;
    for number in parameters {
        out.extend_from_slice(&number.to_be_bytes())?;
    }
    out.push(boot)?;
    put_name(out, last)?;
    out.extend_from_slice(&[0, 0, 0, 0, 0, 0, 0, height])
}

fn put_nodes(out: &mut Vec<u8>, nodes: &[(u8, u64)]) -> Result<(), AllocError> {
    put_count(out, nodes.len())?;
    for (node, weight) in nodes {
        out.extend_from_slice(&[*node; 20])?;
        out.extend_from_slice(&weight.to_be_bytes())?;
    }
    Ok(())
}

fn put_words(out: &mut Vec<u8>, count: usize, word: u64) -> Result<(), AllocError> {
    out.push(4)?;
    put_count(out, count)?;
    for _ in 0..count {
        out.extend_from_slice(&word.to_be_bytes())?;
    }
    Ok(())
}

/// A message of a node: its tag, the node and the number of a request.
fn put_message(out: &mut Vec<u8>, tag: u8, node: u8, number: u32) -> Result<(), AllocError> {
    out.push(tag)?;
    out.extend_from_slice(&[node; 20])?;
    out.extend_from_slice(&number.to_be_bytes())
}

fn put_vote(out: &mut Vec<u8>, node: u8, number: u32, id: Name) -> Result<(), AllocError> {
    put_message(out, 5, node, number)?;
    put_name(out, id)
}

/// A question or an answer of a node, with the blocks that it names.
fn put_asked(
    out: &mut Vec<u8>,
    tag: u8,
    node: u8,
    number: u32,
    blocks: &[Name],
) -> Result<(), AllocError> {
    put_message(out, tag, node, number)?;
    put_named(out, tag, blocks)
}

/// The blocks that a question or an answer names; those of the tags 8 and 14 are counted.
fn put_named(out: &mut Vec<u8>, tag: u8, blocks: &[Name]) -> Result<(), AllocError> {
    if tag == 8 || tag == 14 {
        put_count(out, blocks.len())?;
    }
    for block in blocks {
        put_name(out, *block)?;
    }
    Ok(())
}

fn put_state(out: &mut Vec<u8>, state: &[u64]) -> Result<(), AllocError> {
    put_count(out, state.len())?;
    for number in state {
        out.extend_from_slice(&number.to_be_bytes())?;
    }
    Ok(())
}

fn put_block(
    out: &mut Vec<u8>,
    number: u32,
    id: Name,
    parent: Name,
    height: u8,
    flag: u8,
) -> Result<(), AllocError> {
    put_message(out, 2, 1, number)?;
    put_plain(out, id, parent, height, flag)
}

fn put_stored(
    out: &mut Vec<u8>,
    id: Name,
    parent: Name,
    height: u8,
    flag: u8,
) -> Result<(), AllocError> {
    out.push(10)?;
    put_plain(out, id, parent, height, flag)
}

fn put_validators(out: &mut Vec<u8>, nodes: &[(u8, u64)]) -> Result<(), AllocError> {
    out.push(11)?;
    put_nodes(out, nodes)
}

fn put_ancestors(
    out: &mut Vec<u8>,
    node: u8,
    number: u32,
    blocks: &[(Name, Name, u8, u8)],
) -> Result<(), AllocError> {
    put_message(out, 9, node, number)?;
    put_count(out, blocks.len())?;
    for (id, parent, height, flag) in blocks {
        put_plain(out, *id, *parent, *height, *flag)?;
    }
    Ok(())
}

/// The bytes of a block of the plain chain, behind their length.
fn put_plain(
    out: &mut Vec<u8>,
    id: Name,
    parent: Name,
    height: u8,
    flag: u8,
) -> Result<(), AllocError> {
    out.extend_from_slice(&[0, 0, 0, 73])?;
    put_name(out, id)?;
    put_name(out, parent)?;
    out.extend_from_slice(&[0, 0, 0, 0, 0, 0, 0, height, flag])
}

fn put_whole(out: &mut Vec<u8>, bytes: &[u8]) -> Result<(), AllocError> {
    put_zeros(out, 2, 24)?;
    out.extend_from_slice(&word(bytes.len()).to_be_bytes())?;
    out.extend_from_slice(bytes)
}

fn put_poll(out: &mut Vec<u8>, votes: &[Name]) -> Result<(), AllocError> {
    out.push(3)?;
    put_count(out, votes.len())?;
    for vote in votes {
        put_name(out, *vote)?;
    }
    Ok(())
}

fn put_pair(out: &mut Vec<u8>, first: u64, second: u64) -> Result<(), AllocError> {
    out.extend_from_slice(&[4, 0, 2])?;
    out.extend_from_slice(&first.to_be_bytes())?;
    out.extend_from_slice(&second.to_be_bytes())
}

/// A recorded line: its tag, the length of its text, and its text.
fn put_line(out: &mut Vec<u8>, line: &str) -> Result<(), AllocError> {
    out.push(17)?;
    out.extend_from_slice(&word(text_len(line)).to_be_bytes())?;
    put_text(out, line)
}

/// How many bytes the text of a line has.
fn text_len(line: &str) -> usize {
    let mut len = 0usize;
    for byte in line.as_bytes() {
        len = len.wrapping_add(digits_len(*byte));
    }
    len
}

fn digits_len(byte: u8) -> usize {
    match byte {
        b'~' => 60,
        b'P'..=b'T' => 40,
        _ => 1,
    }
}

fn put_zeros(out: &mut Vec<u8>, tag: u8, count: usize) -> Result<(), AllocError> {
    out.push(tag)?;
    for _ in 0..count {
        out.push(0)?;
    }
    Ok(())
}
