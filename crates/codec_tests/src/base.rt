ghost use Rattle.std.specs.Prelude.{◌≡◌, ◌<◌};

use snow_base::{
    Bag, Bytes, Id, Ids, MemSink, MemSource, Numbers, Nums, PureSink, PureSource, ReadSource, Sink,
    Source, Steps, WriteSink, write_whole,
};
use std::alloc::{AllocError, Global};
use std::io::{self, ErrorKind, Read, Write};
use std::marker::Brand;
use std::sync::ledger::{Blank, Ledger};
use std::test::Fail;

/// The identifier with these first two bytes and zeros behind.
pub(crate) fn id(first: u8, second: u8) -> Id {
    let mut bytes = [0; 32];
    bytes[0] = first;
    bytes[1] = second;
    Id::from_bytes(bytes)
}

/// Whether two texts are the same. All tests compare by this call: what the standard library says of a
/// comparison is brought into each function that makes one.
pub(crate) fn is(text: &[u8], other: &[u8]) -> bool {
    text == other
}

// Adds votes for the identifier with this first byte, where there may be so many.
fn add(bag: &mut Bag, first: u8, count: u32) -> Result<(), AllocError> {
    if count == 0 || count > 1024 || bag.total() > 1024 {
        return Ok(());
    }
    bag.add(id(first, 0), count)
}

// Whether these votes are added, each by the first byte of its identifier.
fn adds(bag: &mut Bag, votes: &[(u8, u32)]) -> bool {
    for (first, count) in votes {
        if add(bag, *first, *count).is_err() {
            return false;
        }
    }
    true
}

// Whether these votes stand in a bag, in this order, and none else.
fn stand(bag: &Bag, votes: &[(u8, u32)]) -> bool {
    for (vote, (first, count)) in bag.entries().iter().zip(votes) {
        if vote.id != id(*first, 0) || vote.count != *count {
            return false;
        }
    }
    bag.entries().len() == votes.len()
}

// How many votes there are, and how many for one identifier at most.
fn counts(bag: &Bag) -> (u32, u32) {
    (bag.total(), bag.most())
}

#[test]
fn votes_stand_in_bit_order(rt: HostRuntime) {
    let mut bag = Bag::new(rt.alloc());
    assert!(rt; bag.reserve(4).is_ok());
    assert!(rt; adds(&mut bag, &[(0x80, 2), (0x01, 1), (0x80, 1)]));
    assert!(rt; stand(&bag, &[(0x80, 3), (0x01, 1)]));
    assert_eq!(rt; counts(&bag), (4, 3));
    bag.clear();
    assert!(rt; stand(&bag, &[]));
    assert_eq!(rt; counts(&bag), (0, 0));
    drop(bag);
}

// Twelve identifiers, more than are looked at one by one, and two of them twice.
#[test]
fn many_votes_stand_in_bit_order(rt: HostRuntime) {
    let mut bag = Bag::new(rt.alloc());
    let came = [(3, 1), (8, 1), (0, 1), (5, 1), (11, 1), (2, 1), (9, 1)];
    let more = [(6, 1), (1, 1), (10, 1), (4, 1), (7, 1), (5, 2), (7, 1)];
    assert!(rt; adds(&mut bag, &came));
    assert!(rt; adds(&mut bag, &more));
    let order = [
        (0, 1),
        (8, 1),
        (4, 1),
        (2, 1),
        (10, 1),
        (6, 1),
        (1, 1),
        (9, 1),
        (5, 3),
        (3, 1),
        (11, 1),
        (7, 2),
    ];
    assert!(rt; stand(&bag, &order));
    drop(bag);
}

// Whether identifiers of these bytes, each of one byte again and again, are the list's, in this order.
fn are(ids: &Ids, bytes: &[u8]) -> bool {
    for (id, byte) in ids.list().iter().zip(bytes) {
        if *id != Id::from_bytes([*byte; 32]) {
            return false;
        }
    }
    ids.list().len() == bytes.len()
}

#[test]
fn identifiers_take_the_place_of_others(rt: HostRuntime) {
    let mut ids = Ids::new(rt.alloc());
    assert!(rt; ids.replace(&[[1; 32], [2; 32], [3; 32]]).is_ok());
    assert!(rt; are(&ids, &[1, 2, 3]));
    assert!(rt; ids.replace(&[[4; 32]]).is_ok());
    assert!(rt; are(&ids, &[4]));
    assert!(rt; ids.replace(&[[5; 32], [4; 32]]).is_ok());
    assert!(rt; are(&ids, &[5, 4]));
    drop(ids);
}

// Whether the votes of a list of identifiers are gathered so.
fn gathers(alloc: Global, ids: &[Id; 4], votes: &[(u8, u32)]) -> Result<bool, AllocError> {
    let bag = Bag::of(alloc, ids)?;
    let stand = bag.total() == 4 && stand(&bag, votes);
    drop(bag);
    Ok(stand)
}

#[test]
fn votes_are_gathered_in_bit_order(rt: HostRuntime) -> Result<(), Fail> {
    let ids = [id(0x01, 0), id(0x80, 0), id(0x03, 0), id(0x80, 0)];
    assert!(rt; gathers(rt.alloc(), &ids, &[(0x80, 2), (0x01, 1), (0x03, 1)])?);
    Ok(())
}

// The list of this number alone.
fn only(alloc: Global, number: u64) -> Result<Nums, AllocError> {
    let mut list = Nums::new(alloc);
    list.push(number)?;
    Ok(list)
}

// How many bytes a source gives; none where it fails.
fn given<S: Source>(source: &mut S, buf: &mut [u8]) -> Option<usize> {
    source.read(buf).ok()
}

// What four reads give.
fn reads<S: Source>(source: &mut S, buf: &mut [u8]) -> [Option<usize>; 4] {
    [
        given(source, buf),
        given(source, buf),
        given(source, buf),
        given(source, buf),
    ]
}

// A source of five bytes in pieces of three, which fails at the second call.
fn hello(alloc: Global) -> Result<MemSource, AllocError> {
    let failing = only(alloc, 2)?;
    let bytes = Bytes::from_slice(alloc, b"hello")?;
    Ok(MemSource::new(bytes, 3, failing))
}

#[test]
fn a_source_fails_at_listed_calls(rt: HostRuntime) -> Result<(), Fail> {
    let mut source = hello(rt.alloc())?;
    let mut buf = [0; 8];
    let given = reads(&mut source, &mut buf);
    assert_eq!(rt; given, [Some(3), None, Some(2), Some(0)]);
    assert!(rt; is(&buf[..3], b"lol"));
    drop(source);
    Ok(())
}

// Whether a sink takes the whole of some bytes.
fn takes<K: Sink>(sink: &mut K, bytes: &[u8]) -> bool {
    write_whole(sink, bytes).is_ok()
}

// Which of four words a sink takes.
fn takes_words<K: Sink>(sink: &mut K) -> [bool; 4] {
    [
        takes(sink, b"one"),
        takes(sink, b"two"),
        takes(sink, b"three and more"),
        takes(sink, b"six"),
    ]
}

// A sink with room for six bytes, which fails at the second call.
fn small_sink(alloc: Global) -> Result<MemSink, AllocError> {
    let mut sink = MemSink::new(alloc, only(alloc, 2)?);
    sink.reserve(6)?;
    Ok(sink)
}

#[test]
fn a_sink_fails_at_listed_calls_and_for_room(rt: HostRuntime) -> Result<(), Fail> {
    let mut sink = small_sink(rt.alloc())?;
    assert_eq!(rt; takes_words(&mut sink), [true, false, false, true]);
    assert!(rt; is(sink.bytes(), b"onesix"));
    drop(sink);
    Ok(())
}

// How many bytes go from a source to a sink, at most two; none where either fails.
fn passed_on<S: Source, K: Sink>(source: &mut S, sink: &mut K) -> Option<usize> {
    let mut buf = [0; 2];
    let given = source.read(&mut buf).ok()?;
    write_whole(sink, &buf[..given]).ok()?;
    Some(given)
}

// The same, three times.
fn passed_on_thrice<S: Source, K: Sink>(source: &mut S, sink: &mut K) -> [Option<usize>; 3] {
    [
        passed_on(source, sink),
        passed_on(source, sink),
        passed_on(source, sink),
    ]
}

#[test]
fn pure_ones_never_fail(rt: HostRuntime) -> Result<(), Fail> {
    let mut source = PureSource::new(Bytes::from_slice(rt.alloc(), b"abc")?, 2);
    let mut sink = PureSink::new();
    let passed = passed_on_thrice(&mut source, &mut sink);
    assert_eq!(rt; passed, [Some(2), Some(1), Some(0)]);
    assert_eq!(rt; sink.taken(), 3);
    drop(source);
    Ok(())
}

// A stream that is interrupted, then gives or takes a byte, then none, and then fails.
#[derive(Drop)]
struct Stream {
    turn: u8,
}

impl Stream {
    fn next(&mut self) -> io::Result<usize> {
        self.turn = self.turn.saturating_add(1);
        match self.turn {
            1 => Err(io::Error::from(ErrorKind::Interrupted)),
            2 => Ok(1),
            3 => Ok(0),
            _ => Err(io::Error::from(ErrorKind::BrokenPipe)),
        }
    }
}

impl Read for Stream {
    fn read(&mut self, buf: &mut [u8]) -> io::Result<usize> {
        Ok(self.next()?.min(buf.len()))
    }
}

impl Write for Stream {
    fn write(&mut self, bytes: &[u8]) -> io::Result<usize> {
        Ok(self.next()?.min(bytes.len()))
    }

    fn flush(&mut self) -> io::Result<()> {
        Ok(())
    }
}

// How many bytes a sink takes of two, three times; none where it fails.
fn taken_thrice<K: Sink>(sink: &mut K) -> [Option<usize>; 3] {
    [
        sink.write(b"ab").ok(),
        sink.write(b"ab").ok(),
        sink.write(b"ab").ok(),
    ]
}

#[test]
fn interruptions_are_no_faults(rt: HostRuntime) {
    let mut source = ReadSource::new(Stream { turn: 0 });
    let given = reads(&mut source, &mut [0; 2]);
    assert_eq!(rt; given, [Some(1), Some(0), None, None]);
    let mut sink = WriteSink::new(Stream { turn: 0 });
    let taken = taken_thrice(&mut sink);
    assert_eq!(rt; taken, [Some(1), None, None]);
}

// The first bit from one place to before another in which two identifiers differ.
fn difference(one: &Id, other: &Id, (from, to): (u16, u16)) -> Option<u16> {
    if from > to || to > 256 {
        return None;
    }
    one.first_difference(other, from, to)
}

#[test]
fn first_differences(rt: HostRuntime) {
    let mut bytes = [0; 32];
    bytes[1] = 0x20;
    bytes[31] = 0x80;
    let (zero, other) = (id(0, 0), Id::from_bytes(bytes));
    for (places, bit) in [
        ((0, 256), Some(13)),
        ((13, 14), Some(13)),
        ((14, 256), Some(255)),
        ((14, 255), None),
        ((5, 13), None),
        ((256, 256), None),
    ] {
        assert_eq!(rt; difference(&zero, &other, places), bit);
    }
}

#[test]
fn numbers_come_in_order(rt: HostRuntime) {
    let mut numbers = Numbers::new();
    for expected in [1, 2, 3] {
        let drawn = numbers.draw();
        assert_eq!(rt; drawn, Some(expected));
    }
}

fn two_steps<L: Ledger>(blank: Blank)
    requires name { blank.name ≡ L.name }
    requires parts { blank.parts ≡ L.parts }
    requires some { 0 < L.parts }
{
    let mut steps = Steps::<L>::new(blank);
    steps.tick();
    steps.tick();
}

#[test]
fn steps_are_counted(_rt: HostRuntime) {
    two_steps::<Brand>(Blank::new(1));
}
