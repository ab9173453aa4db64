use crate::tests::runs::{ends, writes};
use crate::tests::streams::{B, Frame, ROOT};
use snow_cli::Status;
use std::test::Fail;

const AUDIT: &[&str] = &["audit"];

const START: Frame = Frame::Run([2, 2, 2, 1, 1], &[(1, 3), (2, 1)]);

/// A run of three events behind its Start, with the lines that it wrote behind each of them.
const RECORDED: &[Frame] = &[
    START,
    Frame::Words(1, 5),
    Frame::Block(B, ROOT, 1, 1),
    Frame::Line("prefer 01~00"),
    Frame::Line("drop-query words"),
    Frame::Pair(5, 7),
    Frame::Line("query 1 01~00 P*2"),
];

/// The same without its last line.
const MISSING: &[Frame] = &[
    START,
    Frame::Words(1, 5),
    Frame::Block(B, ROOT, 1, 1),
    Frame::Line("prefer 01~00"),
    Frame::Line("drop-query words"),
    Frame::Pair(5, 7),
];

/// The same with another block in its first line.
const ANOTHER: &[Frame] = &[
    START,
    Frame::Words(1, 5),
    Frame::Block(B, ROOT, 1, 1),
    Frame::Line("prefer 02~00"),
    Frame::Line("drop-query words"),
    Frame::Pair(5, 7),
    Frame::Line("query 1 01~00 P*2"),
];

/// The same up to its last line, of which the front alone came.
const CUT: &[Frame] = &[
    START,
    Frame::Words(1, 5),
    Frame::Block(B, ROOT, 1, 1),
    Frame::Line("prefer 01~00"),
    Frame::Line("drop-query words"),
    Frame::Pair(5, 7),
    Frame::Bare(&[0, 0, 0, 120, 17, 0, 0, 0, 115, b'q', b'u']),
];

#[test]
fn recorded_lines_are_the_models(rt: HostRuntime) -> Result<(), Fail> {
    assert!(rt; writes(rt.alloc(), AUDIT, RECORDED, "same 3\n")?);
    Ok(())
}

/// A line is missing at the end, and another one stands in a line's place.
#[test]
fn recorded_lines_differ(rt: HostRuntime) -> Result<(), Fail> {
    assert!(rt;
        ends(
            rt.alloc(),
            AUDIT,
            MISSING,
            Status::Differs,
            "differs 3\n",
            ""
        )?
    );
    assert!(rt;
        ends(
            rt.alloc(),
            AUDIT,
            ANOTHER,
            Status::Differs,
            "differs 1\n",
            ""
        )?
    );
    assert_eq!(rt; Status::Differs.code(), 9);
    Ok(())
}

/// A stream that breaks off stops the audit, and so does one that begins with a line.
#[test]
fn audits_stop(rt: HostRuntime) -> Result<(), Fail> {
    let cut = "snowman: bad input at frame 7: cut\n";
    assert!(rt; ends(rt.alloc(), AUDIT, CUT, Status::BadInput, "", cut)?);
    let first = [Frame::Line("prefer 01~00"), START];
    let line = "snowman: bad input at frame 1: not-start\n";
    assert!(rt; ends(rt.alloc(), AUDIT, &first, Status::BadInput, "", line)?);
    Ok(())
}
