use crate::tests::runs::{ends, writes};
use crate::tests::streams::{B, C, D, E, Frame, ROOT};
use snow_cli::Status;
use std::test::Fail;

const RUN: &[&str] = &["run"];

/// A node that bootstraps from height 0, with one other node.
const BOOT: Frame = Frame::Boot(0, &[(1, 1)]);

/// The tags of the answers of a node.
const FRONTIER: u8 = 7;

const ACCEPTED: u8 = 8;

/// Backing of 2 of 4 is no majority, and 3 of 4 is.
const MAJORITY: &[Frame] = &[
    Frame::Boot(0, &[(1, 2), (2, 1), (3, 1)]),
    Frame::Stored(B, ROOT, 1, 1),
    Frame::Ask(FRONTIER, 1, 1, &[D]),
    Frame::Timeout(2, 1),
    Frame::Timeout(3, 1),
    Frame::Ask(ACCEPTED, 1, 2, &[D]),
    Frame::Ask(ACCEPTED, 2, 2, &[]),
    Frame::Ask(ACCEPTED, 3, 2, &[]),
    Frame::Ask(FRONTIER, 1, 3, &[D]),
    Frame::Ask(FRONTIER, 2, 3, &[D]),
    Frame::Ask(FRONTIER, 3, 3, &[C]),
    Frame::Ask(ACCEPTED, 1, 4, &[D]),
    Frame::Ask(ACCEPTED, 2, 4, &[D]),
    Frame::Ask(ACCEPTED, 3, 4, &[]),
    Frame::Ancestors(3, 5, &[(D, C, 3, 1)]),
    Frame::Ancestors(1, 6, &[(C, B, 2, 1), (B, ROOT, 1, 1)]),
];

const MAJORITY_LINES: &str = "frontier 1\naccepted 2 03~00\nrestart accepted\nfrontier 3\n\
    accepted 4 03~00 02~00\nancestors 5 R 03~00\nancestors 6 P 02~00\naccept 01~00\naccept 02~00\n\
    accept 03~00\nbootstrapped 03~00 3\n";

/// Nobody names a block, and then the last accepted one is named: nothing is fetched.
const NOTHING: &[Frame] = &[
    BOOT,
    Frame::Timeout(1, 1),
    Frame::Ask(FRONTIER, 1, 2, &[ROOT]),
    Frame::Ask(ACCEPTED, 1, 3, &[ROOT]),
    Frame::Block(B, ROOT, 1, 1),
    Frame::Stored(B, ROOT, 1, 1),
];

const NOTHING_LINES: &str = "frontier 1\nrestart frontier\nfrontier 2\naccepted 3 ff~00\n\
    bootstrapped ff~00 0\nprefer 01~00\ndrop-query words\nskip 6 stage\n";

/// The stored block notes the target as found, but it is kept higher, so its path is still awaited.
/// The word taken meanwhile serves the first query.
const HIGHER: &[Frame] = &[
    Frame::Boot(5, &[(1, 1)]),
    Frame::Words(1, 0),
    Frame::Ask(FRONTIER, 1, 1, &[D]),
    Frame::Ask(ACCEPTED, 1, 2, &[D]),
    Frame::Ancestors(1, 3, &[(D, C, 7, 1)]),
    Frame::Stored(D, B, 3, 1),
    Frame::Ancestors(1, 4, &[(C, ROOT, 6, 1)]),
    Frame::Block(E, D, 8, 1),
];

const HIGHER_LINES: &str = "frontier 1\naccepted 2 03~00\nancestors 3 P 03~00\n\
    ancestors 4 P 02~00\naccept 02~00\naccept 03~00\nbootstrapped 03~00 7\nprefer 04~00\n\
    query 5 04~00 P*1\n";

/// What a node that bootstraps passes over: a block, a poll, validators, a question, and a vote.
const PASSED_OVER: &[Frame] = &[
    BOOT,
    Frame::Block(B, ROOT, 1, 1),
    Frame::Poll(&[B]),
    Frame::Validators(&[(2, 1)]),
    Frame::Ask(12, 1, 1, &[]),
    Frame::Chits(1, 1, B),
];

const PASSED_OVER_LINES: &str =
    "frontier 1\nskip 2 stage\nskip 3 task\nskip 4 stage\nskip 5 stage\n";

#[test]
fn a_node_catches_up(rt: HostRuntime) -> Result<(), Fail> {
    for (frames, lines) in [
        (MAJORITY, MAJORITY_LINES),
        (NOTHING, NOTHING_LINES),
        (HIGHER, HIGHER_LINES),
        (PASSED_OVER, PASSED_OVER_LINES),
    ] {
        assert!(rt; writes(rt.alloc(), RUN, frames, lines)?, "{lines}");
    }
    Ok(())
}

/// Two targets at one height.
const CONFLICT: &[Frame] = &[
    Frame::Boot(0, &[(1, 1), (2, 1)]),
    Frame::Ask(FRONTIER, 1, 1, &[C]),
    Frame::Ask(FRONTIER, 2, 1, &[D]),
    Frame::Ask(ACCEPTED, 1, 2, &[C, D]),
    Frame::Ask(ACCEPTED, 2, 2, &[C, D]),
    Frame::Ancestors(2, 3, &[(C, B, 2, 1)]),
    Frame::Ancestors(1, 4, &[(D, B, 2, 1)]),
];

const CONFLICT_LINES: &str = "frontier 1\naccepted 2 02~00 03~00\nancestors 3 Q 02~00\n\
    ancestors 4 P 03~00\nancestors 5 Q 01~00\n";

/// A block that isn't valid where it is executed: the one below it is accepted.
const REFUSED: &[Frame] = &[
    BOOT,
    Frame::Ask(FRONTIER, 1, 1, &[C]),
    Frame::Ask(ACCEPTED, 1, 2, &[C]),
    Frame::Ancestors(1, 3, &[(C, B, 2, 0), (B, ROOT, 1, 1)]),
];

const REFUSED_LINES: &str = "frontier 1\naccepted 2 02~00\nancestors 3 P 02~00\naccept 01~00\n";

/// A parent that comes at a wrong height: its child, which is kept, is refused.
const MISPLACED: &[Frame] = &[
    BOOT,
    Frame::Ask(FRONTIER, 1, 1, &[D]),
    Frame::Ask(ACCEPTED, 1, 2, &[D]),
    Frame::Ancestors(1, 3, &[(C, B, 2, 1)]),
    Frame::Ancestors(1, 4, &[(D, C, 3, 1), (B, ROOT, 1, 1), (C, B, 2, 1)]),
    Frame::Ancestors(1, 5, &[(C, B, 3, 1)]),
];

const MISPLACED_LINES: &str = "frontier 1\naccepted 2 03~00\nancestors 3 P 03~00\n\
    ancestors 4 P 03~00\nancestors 5 P 02~00\n";

#[test]
fn bootstrapping_stops(rt: HostRuntime) -> Result<(), Fail> {
    for (frames, lines, why) in [
        (
            CONFLICT,
            CONFLICT_LINES,
            "snowman: bootstrapping stopped: conflict 2 02~00 03~00\n",
        ),
        (
            REFUSED,
            REFUSED_LINES,
            "snowman: bootstrapping stopped: refused 02~00\n",
        ),
        (
            MISPLACED,
            MISPLACED_LINES,
            "snowman: bootstrapping stopped: refused 03~00\n",
        ),
    ] {
        let given = ends(rt.alloc(), RUN, frames, Status::BootStopped, lines, why)?;
        assert!(rt; given, "{why}");
    }
    assert_eq!(rt; Status::BootStopped.code(), 8);
    Ok(())
}
