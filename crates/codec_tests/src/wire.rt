mod payloads;

use crate::base::is;
use crate::wire::payloads::{
    ANCESTORS, ASK_BLOCK, ASK_QUERY, BLOCK, CHITS, FRONTIER, PAYLOADS, POLL, START, STORED,
    TIMEOUT, WORDS,
};
use snow_base::{Ids, NodeId};
use snow_wire::{Decoder, Event, Fault, Skip, Start, TooLong, View, decode, encode};
use std::alloc::{AllocError, Global};
use std::test::Fail;

/// A Start, a block and a poll, as they come in a stream.
const STREAM: [u8; 215] = [
    0, 0, 0, 66, 1, 0, 0, 0, 1, 0, 0, 0, 1, 0, 0, 0, 1, 0, 0, 0, 1, 0, 0, 0, 1, 0, 255, 0, 0, 0, 0,
    0, 0, 0, 0, 0, 0, 0, 0, 0, 0, 0, 0, 0, 0, 0, 0, 0, 0, 0, 0, 0, 0, 0, 0, 0, 0, 0, 0, 0, 0, 0, 0,
    0, 0, 0, 0, 0, 0, 0, 0, 0, 0, 102, 2, 1, 1, 1, 1, 1, 1, 1, 1, 1, 1, 1, 1, 1, 1, 1, 1, 1, 1, 1,
    1, 0, 0, 0, 0, 0, 0, 0, 73, 1, 0, 0, 0, 0, 0, 0, 0, 0, 0, 0, 0, 0, 0, 0, 0, 0, 0, 0, 0, 0, 0,
    0, 0, 0, 0, 0, 0, 0, 0, 0, 0, 255, 0, 0, 0, 0, 0, 0, 0, 0, 0, 0, 0, 0, 0, 0, 0, 0, 0, 0, 0, 0,
    0, 0, 0, 0, 0, 0, 0, 0, 0, 0, 0, 0, 0, 0, 0, 0, 0, 0, 1, 1, 0, 0, 0, 35, 3, 0, 1, 1, 0, 0, 0,
    0, 0, 0, 0, 0, 0, 0, 0, 0, 0, 0, 0, 0, 0, 0, 0, 0, 0, 0, 0, 0, 0, 0, 0, 0, 0, 0, 0,
];

/// The number of the frame that is whole with this byte; 0 where none is.
fn frame_with(decoder: &mut Decoder, byte: u8) -> Result<u64, AllocError> {
    decoder.feed(&[byte])?;
    if decoder.given() == u64::MAX {
        return Ok(0);
    }
    match decoder.next() {
        Ok(Some(frame)) => Ok(frame.number),
        _ => Ok(0),
    }
}

/// The number of the frame in the stream that ends here; 0 where none does.
fn frame_at(place: usize) -> u64 {
    match place {
        69 => 1,
        175 => 2,
        214 => 3,
        _ => 0,
    }
}

/// Whether each frame of the stream comes with its last byte.
fn come_whole(decoder: &mut Decoder) -> Result<bool, AllocError> {
    for (place, byte) in STREAM.iter().enumerate() {
        if frame_with(decoder, *byte)? != frame_at(place) {
            return Ok(false);
        }
    }
    Ok(decoder.rest_len() == 0)
}

#[test]
fn frames_come_as_soon_as_they_are_whole(rt: HostRuntime) {
    let mut decoder = Decoder::new(rt.alloc());
    assert!(rt; come_whole(&mut decoder) == Ok(true));
    drop(decoder);
}

/// Whether a frame comes next.
fn comes(decoder: &mut Decoder) -> Result<bool, TooLong> {
    if decoder.given() == u64::MAX {
        return Ok(false);
    }
    let frame = decoder.next()?;
    Ok(frame.is_some())
}

/// Whether the next frame is refused, as the second one and by its length.
fn is_refused(decoder: &mut Decoder) -> bool {
    let long = TooLong {
        number: 2,
        length: 2_097_153,
    };
    comes(decoder) == Err(long)
}

#[test]
fn a_length_above_the_limit_is_refused_again(rt: HostRuntime) {
    let mut decoder = Decoder::new(rt.alloc());
    assert!(rt; decoder.feed(&[0, 0, 0, 1, 7, 0, 0x20, 0, 1]).is_ok());
    assert!(rt; comes(&mut decoder) == Ok(true));
    assert!(rt; is_refused(&mut decoder));
    assert!(rt; decoder.feed(&[0]).is_ok());
    assert!(rt; is_refused(&mut decoder));
    drop(decoder);
}

/// Whether a payload is an event that is spelled so again.
fn respells(alloc: Global, payload: &[u8]) -> Result<bool, AllocError> {
    let Ok(event) = decode(alloc, payload) else {
        return Ok(false);
    };
    let spelled = encode(alloc, &event);
    drop(event);
    let bytes = spelled?;
    Ok(is(bytes.list(), payload))
}

#[test]
fn each_kind_is_spelled_as_it_was_read(rt: HostRuntime) -> Result<(), Fail> {
    for payload in PAYLOADS {
        assert!(rt; respells(rt.alloc(), payload)?);
    }
    Ok(())
}

/// Whether a start has these numbers, in order.
fn has_numbers(start: &Start) -> bool {
    start.k == 20
        && start.alpha_preference == 15
        && start.alpha_confidence == 16
        && start.beta == 21
        && start.repolls == 4
        && start.boot
        && start.height == 5
}

/// Whether it has these lists.
fn has_lists(start: &Start) -> bool {
    let nodes = [
        (NodeId::from_bytes([1; 20]), 3),
        (NodeId::from_bytes([2; 20]), 1),
    ];
    start.state.list() == [7, 1 << 63].as_slice() && start.nodes.list() == nodes.as_slice()
}

/// Whether an event is the start.
fn is_start(event: &Event) -> bool {
    match event {
        Event::Start(start) => has_numbers(start) && has_lists(start),
        _ => false,
    }
}

/// Whether a payload is the start.
fn spells_start(alloc: Global, payload: &[u8]) -> bool {
    let Ok(event) = decode(alloc, payload) else {
        return false;
    };
    let is_start = is_start(&event);
    drop(event);
    is_start
}

#[test]
fn a_start_has_its_fields_in_order(rt: HostRuntime) {
    assert!(rt; spells_start(rt.alloc(), &START));
}

/// Why a payload is no event.
fn fault_of(alloc: Global, payload: &[u8]) -> Option<Skip> {
    decode(alloc, payload).err()
}

/// Payloads, and the first fault of each.
const FAULTS: &[(&[u8], Fault)] = &[
    (&[], Fault::Short),
    (&[0], Fault::Tag),
    (&[18, 1], Fault::Tag),
    (&[255], Fault::Tag),
    (&[3, 0], Fault::Short),
    (&[3, 4, 0], Fault::Short),
    (&[3, 4, 1], Fault::Count),
    (&[4, 0x10, 1], Fault::Count),
    (&[11, 0x10, 1], Fault::Count),
    (&[17, 0, 0x10, 0xc8, 0xe0], Fault::Short),
    (&[17, 0, 0x10, 0xc8, 0xe1], Fault::Count),
    (&[3, 0, 0, 9], Fault::Extra),
];

#[test]
fn the_first_fault_is_named(rt: HostRuntime) {
    for (payload, fault) in FAULTS {
        assert!(rt;
            fault_of(rt.alloc(), payload) == Some(Skip::Fault(*fault)),
            "{fault:?}"
        );
    }
}

/// A start with a flag that is none, a block that is too long, and too many blocks, up to there.
const OUT_OF_RANGE: &[&[u8]] = &[
    &[
        1, 0, 0, 0, 20, 0, 0, 0, 15, 0, 0, 0, 16, 0, 0, 0, 21, 0, 0, 0, 4, 2,
    ],
    &[
        2, 1, 1, 1, 1, 1, 1, 1, 1, 1, 1, 1, 1, 1, 1, 1, 1, 1, 1, 1, 1, 0, 0, 0, 2, 0, 1, 0, 1,
    ],
    &[
        9, 1, 1, 1, 1, 1, 1, 1, 1, 1, 1, 1, 1, 1, 1, 1, 1, 1, 1, 1, 1, 0, 0, 0, 3, 8, 2,
    ],
];

#[test]
fn fields_out_of_range_are_named(rt: HostRuntime) {
    for payload in OUT_OF_RANGE {
        assert!(rt; fault_of(rt.alloc(), payload) == Some(Skip::Fault(Fault::Count)));
    }
    assert!(rt; fault_of(rt.alloc(), &START[..21]) == Some(Skip::Fault(Fault::Short)));
}

/// Whether a payload has a block with these bytes, which answers request 2.
fn has_block(payload: &[u8], bytes: &[u8]) -> bool {
    match View::read(payload) {
        Ok(View::Block(block)) => {
            let node = block.node;
            is(node, &BLOCK[1..21]) && block.request == 2 && is(block.bytes, bytes)
        }
        _ => false,
    }
}

/// A block cut short, and other events that bring bytes.
#[test]
fn a_block_is_found_where_it_stands(rt: HostRuntime) {
    assert!(rt; has_block(&BLOCK, &[1, 2, 3]));
    for payload in [&[], &BLOCK[..31], &STORED, &CHITS] {
        assert!(rt; !has_block(payload, &[1, 2, 3]));
    }
}

/// Whether a payload has the vote of `CHITS`.
fn has_vote(payload: &[u8]) -> bool {
    match View::read(payload) {
        Ok(View::Chits(vote)) => {
            let node = vote.node;
            let id = vote.id;
            is(node, &CHITS[1..21]) && vote.request == 2 && is(id, &CHITS[25..])
        }
        _ => false,
    }
}

/// Whether a payload is a vote.
fn is_vote(payload: &[u8]) -> bool {
    match View::read(payload) {
        Ok(View::Chits(_)) => true,
        _ => false,
    }
}

/// A vote too short, one with a byte behind it, and others of its length.
#[test]
fn a_vote_is_found_where_it_stands(rt: HostRuntime) {
    assert!(rt; has_vote(&CHITS));
    assert!(rt; is_vote(&[5; 57]));
    for payload in [&[], &CHITS[..56], &[5; 58], &FRONTIER, &ASK_BLOCK] {
        assert!(rt; !is_vote(payload));
    }
}

/// Whether a payload has the timeout of `TIMEOUT`.
fn has_timeout(payload: &[u8]) -> bool {
    match View::read(payload) {
        Ok(View::Timeout(timeout)) => {
            let node = timeout.node;
            is(node, &TIMEOUT[1..21]) && timeout.request == 4_294_967_294
        }
        _ => false,
    }
}

/// A timeout too short, one with a byte behind it, and another event of its length.
#[test]
fn a_timeout_is_found_where_it_stands(rt: HostRuntime) {
    assert!(rt; has_timeout(&TIMEOUT));
    for payload in [&[], &TIMEOUT[..24], &[6; 26], &ASK_QUERY, &CHITS] {
        assert!(rt; !has_timeout(payload));
    }
}

/// How many votes a poll has, which are put into this list.
fn votes_in(payload: &[u8], ids: &mut Ids) -> Result<Option<usize>, AllocError> {
    match View::read(payload) {
        Ok(View::Poll(votes)) => {
            ids.replace(votes)?;
            Ok(Some(ids.list().len()))
        }
        _ => Ok(None),
    }
}

/// Whether the second vote is for the identifier with these bytes.
fn has_second(ids: &Ids, bytes: &[u8]) -> bool {
    match ids.list().get(1) {
        Some(id) => is(id.as_bytes(), bytes),
        None => false,
    }
}

/// A poll too short, one with a byte behind it, and one of more votes than there may be.
#[test]
fn the_votes_of_a_poll_replace_those_before(rt: HostRuntime) {
    let mut ids = Ids::new(rt.alloc());
    assert!(rt; votes_in(&POLL, &mut ids) == Ok(Some(2)));
    assert!(rt; has_second(&ids, &POLL[35..]));
    assert!(rt; votes_in(&[3, 0, 0], &mut ids) == Ok(Some(0)));
    for payload in [&[], &POLL[..66], &[3, 0, 0, 9], &[3, 4, 1], &WORDS] {
        assert!(rt; votes_in(payload, &mut ids) == Ok(None));
    }
    drop(ids);
}

/// How many blocks an Ancestors brings, and how many bytes they have.
fn blocks_in(payload: &[u8]) -> Option<(u64, u64)> {
    match View::read(payload) {
        Ok(View::Ancestors(parcel)) => {
            let mut found = (0u64, 0u64);
            for block in parcel.blocks.again() {
                found = (
                    found.0.wrapping_add(1),
                    found.1.wrapping_add(block.len() as u64),
                );
            }
            Some(found)
        }
        _ => None,
    }
}

/// Two blocks, the second without bytes; and too few.
#[test]
fn blocks_come_one_after_another(rt: HostRuntime) {
    assert!(rt; blocks_in(&ANCESTORS) == Some((2, 1)));
    for payload in [&[], &ANCESTORS[..35], &BLOCK] {
        assert!(rt; blocks_in(payload).is_none());
    }
}
