use crate::tests::runs::{DECIDE, Run, asking, gives};
use crate::tests::streams::{ONE, ONE_LINES, stream_of};
use snow_cli::Status;
use std::test::Fail;

/// The most bytes of a read of the stream with one block and one poll, the read that fails, and the
/// lines: those of the frames that were whole before.
const FAILING_READS: &[(usize, u64, &str)] = &[
    (1, 1, ""),
    // Behind 176 bytes, behind 177, and at the end.
    (1, 177, "prefer 01~00\n"),
    (1, 178, "prefer 01~00\n"),
    (1, 216, ONE_LINES),
    // Only the last byte hasn't come: the lines were written before it was asked for.
    (214, 2, "prefer 01~00\n"),
    (215, 2, ONE_LINES),
];

#[test]
fn failing_reads(rt: HostRuntime) -> Result<(), Fail> {
    let stream = stream_of(rt.alloc(), ONE)?;
    for (piece, failing_read, lines) in FAILING_READS {
        let run = Run {
            piece: *piece,
            failing_read: *failing_read,
            ..asking(DECIDE, &stream)
        };
        let report = "snowman: source fault\n";
        let given = gives(rt.alloc(), &run, Status::SourceFault, lines, report)?;
        assert!(rt; given, "read {failing_read} of {piece}");
    }
    assert_eq!(rt; Status::SourceFault.code(), 4);
    Ok(())
}

/// The most bytes of a read, the write that fails, and the status, the lines and the line on standard
/// error.
const FAILING_WRITES: &[(usize, u64, Status, &str, &str)] = &[
    (65_536, 1, Status::SinkFault, "", "snowman: sink fault\n"),
    // In pieces of one byte each line is a write of its own ..
    (
        1,
        2,
        Status::SinkFault,
        "prefer 01~00\n",
        "snowman: sink fault\n",
    ),
    // .. and the lines of one piece are one.
    (65_536, 2, Status::Done, ONE_LINES, ""),
];

#[test]
fn failing_writes(rt: HostRuntime) -> Result<(), Fail> {
    let stream = stream_of(rt.alloc(), ONE)?;
    for (piece, failing_write, status, lines, report) in FAILING_WRITES {
        let run = Run {
            piece: *piece,
            failing_write: *failing_write,
            ..asking(DECIDE, &stream)
        };
        let given = gives(rt.alloc(), &run, *status, lines, report)?;
        assert!(rt; given, "write {failing_write} of {piece}");
    }
    assert_eq!(rt; Status::SinkFault.code(), 5);
    Ok(())
}

/// Words, the read and the write that fail, and the status and the lines where standard error fails too.
const FAILING_REPORTS: &[(&[&str], u64, u64, Status, &str)] = &[
    (DECIDE, 0, 0, Status::Done, ONE_LINES),
    (&[], 0, 0, Status::Usage, ""),
    (&["decide", "--chain", "tally"], 0, 0, Status::BadInput, ""),
    (DECIDE, 1, 0, Status::SourceFault, ""),
    (DECIDE, 0, 1, Status::SinkFault, ""),
];

#[test]
fn failing_reports(rt: HostRuntime) -> Result<(), Fail> {
    let stream = stream_of(rt.alloc(), ONE)?;
    for (words, failing_read, failing_write, status, lines) in FAILING_REPORTS {
        let run = Run {
            failing_read: *failing_read,
            failing_write: *failing_write,
            failing_report: 1,
            ..asking(words, &stream)
        };
        let given = gives(rt.alloc(), &run, *status, lines, "")?;
        assert!(rt; given, "{status:?}");
    }
    Ok(())
}
