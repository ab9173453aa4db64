use crate::tests::runs::{DECIDE, Run, asking, gives, tried_on};
use crate::tests::streams::{ONE, ONE_LINES, stream_of};
use snow_base::{Bytes, Failed, PureSource, Source};
use snow_cli::Status;
use std::alloc::{AllocError, Global};
use std::test::Fail;

/// Cuts of the stream with one block and one poll: from so many bytes to so many, the status, the
/// lines, and the line on standard error.
type Cuts = (usize, usize, Status, &'static str, &'static str);

const CUTS: &[Cuts] = &[
    (
        0,
        0,
        Status::BadInput,
        "",
        "snowman: bad input at frame 1: no-start\n",
    ),
    (
        1,
        69,
        Status::BadInput,
        "",
        "snowman: bad input at frame 1: cut\n",
    ),
    (70, 70, Status::Done, "", ""),
    (
        71,
        175,
        Status::BadInput,
        "",
        "snowman: bad input at frame 2: cut\n",
    ),
    (176, 176, Status::Done, "prefer 01~00\n", ""),
    (
        177,
        214,
        Status::BadInput,
        "prefer 01~00\n",
        "snowman: bad input at frame 3: cut\n",
    ),
    (215, 215, Status::Done, ONE_LINES, ""),
];

/// Whether so many bytes of a stream, in pieces of so many, give this status, these lines and this on
/// standard error.
fn gives_cut(
    alloc: Global,
    stream: &[u8],
    n: usize,
    piece: usize,
    cuts: &Cuts,
) -> Result<bool, AllocError> {
    let Some(cut) = stream.get(..n) else {
        return Ok(false);
    };
    let run = Run {
        piece,
        ..asking(DECIDE, cut)
    };
    let (_, _, status, lines, report) = cuts;
    gives(alloc, &run, *status, lines, report)
}

/// Each cut gives the lines of its whole frames, in one piece and in pieces of one byte.
#[test]
fn every_cut(rt: HostRuntime) -> Result<(), Fail> {
    let stream = stream_of(rt.alloc(), ONE)?;
    for cuts in CUTS {
        for n in cuts.0..=cuts.1 {
            for piece in [65_536, 1] {
                let given = gives_cut(rt.alloc(), &stream, n, piece, cuts)?;
                assert!(rt; given, "cut at {n}, in pieces of {piece}");
            }
        }
    }
    Ok(())
}

/// A source that gives its bytes in two pieces.
#[derive(Drop)]
struct InTwo {
    source: PureSource,
    piece: usize,
}

impl Source for InTwo {
    ghost use Rattle.std.specs.Prelude.{None};

    ghost left = { λ _. None };

    ghost faults = { λ _. 0 };

    fn read(&mut self, buf: &mut [u8]) -> Result<usize, Failed> {
        let most = self.piece.min(buf.len());
        self.piece = usize::MAX;
        self.source.read(&mut buf[..most])
    }
}

/// Whether a stream with one block and one poll gives its lines in two pieces, of which the first has so
/// many bytes.
fn gives_parted(alloc: Global, stream: &[u8], piece: usize) -> Result<bool, AllocError> {
    let bytes = Bytes::from_slice(alloc, stream)?;
    let mut source = InTwo {
        source: PureSource::new(bytes, stream.len().max(1)),
        piece,
    };
    let outcome = tried_on(alloc, &asking(DECIDE, &[]), &mut source);
    drop(source);
    let outcome = outcome?;
    let whole = outcome.is(alloc, Status::Done, ONE_LINES, "");
    drop(outcome);
    whole
}

/// The stream in two pieces, parted at each byte, gives its lines.
#[test]
fn every_two_pieces(rt: HostRuntime) -> Result<(), Fail> {
    let stream = stream_of(rt.alloc(), ONE)?;
    for piece in 1..stream.len() {
        let whole = gives_parted(rt.alloc(), &stream, piece)?;
        assert!(rt; whole, "parted at {piece}");
    }
    Ok(())
}
