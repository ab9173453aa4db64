use crate::tests::runs::{DECIDE, ends, writes};
use crate::tests::streams::{B, Frame, ROOT, START};
use snow_cli::Status;
use std::test::Fail;

/// Streams that are bad, and the line on standard error. None of them writes a line.
const BAD: &[(&[Frame], &str)] = &[
    (&[], "snowman: bad input at frame 1: no-start\n"),
    (
        &[Frame::Bare(&[0, 0, 0])],
        "snowman: bad input at frame 1: cut\n",
    ),
    (
        &[Frame::Bare(&[0, 0x20, 0, 1])],
        "snowman: bad input at frame 1: length\n",
    ),
    (
        &[START, START],
        "snowman: bad input at frame 2: second-start\n",
    ),
    (
        &[Frame::Poll(&[B])],
        "snowman: bad input at frame 1: not-start\n",
    ),
    (
        &[Frame::Same(1, 0xff)],
        "snowman: bad input at frame 1: not-start\n",
    ),
    (
        &[Frame::StartOn(ROOT, &[1])],
        "snowman: bad input at frame 1: state\n",
    ),
];

/// Parameters that are refused: K, the two quorums, Beta and ConcurrentRepolls; and why.
const REFUSED: &[([u32; 5], &str)] = &[
    (
        [2, 1, 1, 1, 1],
        "snowman: bad input at frame 1: alpha-low\n",
    ),
    (
        [2, 2, 1, 1, 1],
        "snowman: bad input at frame 1: alpha-order\n",
    ),
    (
        [2, 2, 3, 1, 1],
        "snowman: bad input at frame 1: alpha-high\n",
    ),
    (
        [1, 1, 1, 0, 1],
        "snowman: bad input at frame 1: beta-zero\n",
    ),
    (
        [1, 1, 1, 1, 0],
        "snowman: bad input at frame 1: repolls-zero\n",
    ),
    (
        [1, 1, 1, 1, 2],
        "snowman: bad input at frame 1: repolls-high\n",
    ),
    (
        [1025, 513, 513, 1, 1],
        "snowman: bad input at frame 1: k-large\n",
    ),
    (
        [1, 1, 1, 65_536, 1],
        "snowman: bad input at frame 1: beta-large\n",
    ),
];

#[test]
fn bad_inputs(rt: HostRuntime) -> Result<(), Fail> {
    for (i, (frames, report)) in BAD.iter().enumerate() {
        let given = ends(rt.alloc(), DECIDE, frames, Status::BadInput, "", report)?;
        assert!(rt; given, "input {i}");
    }
    assert_eq!(rt; Status::BadInput.code(), 3);
    Ok(())
}

#[test]
fn bad_parameters(rt: HostRuntime) -> Result<(), Fail> {
    for (i, (parameters, report)) in REFUSED.iter().enumerate() {
        let frames = [Frame::Start(*parameters)];
        let given = ends(rt.alloc(), DECIDE, &frames, Status::BadInput, "", report)?;
        assert!(rt; given, "parameters {i}");
    }
    Ok(())
}

/// Payloads that are no events, and the lines: the second is the largest that there is.
const NO_EVENTS: &[(Frame, &str)] = &[
    (Frame::Same(0, 0), "skip 2 short\n"),
    (Frame::Same(2_097_152, 0xff), "skip 2 tag\n"),
];

#[test]
fn payloads_that_are_no_events(rt: HostRuntime) -> Result<(), Fail> {
    for (payload, line) in NO_EVENTS {
        let written = writes(rt.alloc(), DECIDE, &[START, *payload], line)?;
        assert!(rt; written, "where {line} is awaited");
    }
    Ok(())
}
