use crate::tests::runs::{ends, writes};
use crate::tests::streams::{A, B, C, D, E, FAR, Frame, Name, ROOT};
use snow_cli::Status;
use std::test::Fail;

/// A stream of a node that runs, and the lines that it writes.
type Example = (&'static [Frame], &'static str);

const RUN: &[&str] = &["run"];

const F: Name = Name(0x05, 0);

/// One node of weight 1; all parameters are 1.
const ONE_NODE: Frame = Frame::Run([1, 1, 1, 1, 1], &[(1, 1)]);

/// The words run out, which uses them up; more words bring a query.
const WORDS_RUN_OUT: &[Frame] = &[
    Frame::Run([2, 2, 2, 1, 1], &[(1, 3), (2, 1)]),
    Frame::Words(1, 5),
    Frame::Block(B, ROOT, 1, 1),
    Frame::Words(2, 5),
];

/// The reply to the last of three polls comes before that to the second: both leave in their order.
const POLLS_LEAVE_FROM_THE_FRONT: &[Frame] = &[
    Frame::Run([1, 1, 1, 2, 2], &[(1, 1)]),
    Frame::Words(4, 0),
    Frame::Block(B, ROOT, 1, 1),
    Frame::Chits(1, 1, B),
    Frame::Chits(1, 3, B),
    Frame::Chits(1, 2, B),
];

/// The first poll closes since no reply can give it the confidence, the second since none can give it
/// the preference.
const POLLS_CLOSE_EARLY: &[Frame] = &[
    Frame::Run([5, 3, 5, 1, 1], &[(1, 1), (2, 1), (3, 1), (4, 1), (5, 1)]),
    Frame::Words(10, 0),
    Frame::Block(B, ROOT, 1, 1),
    Frame::Chits(1, 1, B),
    Frame::Chits(2, 1, B),
    Frame::Chits(3, 1, B),
    Frame::Timeout(4, 1),
    Frame::Timeout(1, 2),
    Frame::Timeout(2, 2),
    Frame::Timeout(3, 2),
];

/// A block comes before its parent, and a vote for a block that never comes.
const LATE_ANCESTOR: &[Frame] = &[
    ONE_NODE,
    Frame::Words(4, 0),
    Frame::Block(C, B, 2, 1),
    Frame::Brought(1, B, ROOT, 1, 1),
    Frame::Chits(1, 2, E),
    Frame::Timeout(1, 4),
    Frame::Chits(1, 3, C),
];

/// A vote for an invalid block goes to its parent.
const INVALID: &[Frame] = &[
    ONE_NODE,
    Frame::Words(4, 0),
    Frame::Block(B, ROOT, 1, 1),
    Frame::Chits(1, 1, F),
    Frame::Brought(2, F, B, 2, 0),
];

/// Blocks above a parent that nobody brings are given up one after the other.
const HOPELESS: &[Frame] = &[
    ONE_NODE,
    Frame::Block(F, E, 2, 1),
    Frame::Block(A, F, 3, 1),
    Frame::Timeout(1, 1),
];

/// New validators are asked by the next query; none are refused.
const VALIDATORS: &[Frame] = &[
    ONE_NODE,
    Frame::Words(3, 0),
    Frame::Block(B, ROOT, 1, 1),
    Frame::Validators(&[(2, 1)]),
    Frame::Validators(&[]),
    Frame::Block(C, B, 2, 1),
    Frame::Chits(1, 1, B),
    Frame::Chits(2, 2, C),
];

/// A peer asks before a block is accepted and after it: for chits, the frontier, which of three blocks
/// are accepted, a block, one that isn't there, and a block with its ancestors.
const PEERS_ASK: &[Frame] = &[
    ONE_NODE,
    Frame::Words(2, 0),
    Frame::Block(B, ROOT, 1, 1),
    Frame::Ask(12, 2, 7, &[]),
    Frame::Chits(1, 1, B),
    Frame::Ask(13, 2, 8, &[]),
    Frame::Ask(14, 2, 9, &[ROOT, C, B]),
    Frame::Ask(16, 2, 10, &[B]),
    Frame::Ask(15, 2, 11, &[F]),
    Frame::Block(C, B, 2, 1),
    Frame::Ask(15, 2, 12, &[C]),
];

/// A block is served until it is rejected.
const SERVED_NO_MORE: &[Frame] = &[
    ONE_NODE,
    Frame::Words(1, 0),
    Frame::Block(B, ROOT, 1, 1),
    Frame::Block(C, ROOT, 1, 1),
    Frame::Ask(16, 2, 3, &[C]),
    Frame::Chits(1, 1, B),
    Frame::Ask(16, 2, 4, &[C]),
    Frame::Ask(14, 2, 5, &[C]),
];

/// Too many draws for the nodes, an old block, one that is no block, and frames for other tasks and
/// stages; an answer that nobody awaits writes nothing.
const PASSED_OVER: &[Frame] = &[
    Frame::Run([2, 2, 2, 1, 1], &[(1, 1)]),
    Frame::Block(B, ROOT, 1, 1),
    Frame::Block(FAR, ROOT, 0, 1),
    Frame::Whole(&[1, 2]),
    Frame::Poll(&[B]),
    Frame::Zeros(10, 4),
    Frame::Chits(1, 7, B),
    Frame::Brought(9, D, ROOT, 1, 1),
];

const EXAMPLES: &[Example] = &[
    (
        WORDS_RUN_OUT,
        "prefer 01~00\ndrop-query words\nquery 1 01~00 P*1 Q*1\n",
    ),
    (
        POLLS_LEAVE_FROM_THE_FRONT,
        "prefer 01~00\nquery 1 01~00 P*1\nquery 2 01~00 P*1\nquery 3 01~00 P*1\naccept 01~00\n",
    ),
    (
        POLLS_CLOSE_EARLY,
        "prefer 01~00\nquery 1 01~00 P*1 Q*1 R*1 S*1 T*1\nquery 2 01~00 P*1 Q*1 R*1 S*1 T*1\n\
         drop-query words\n",
    ),
    (
        LATE_ANCESTOR,
        "get 1 P 01~00\nprefer 01~00\nquery 2 01~00 P*1\nprefer 02~00\nquery 3 02~00 P*1\n\
         get 4 P 04~00\naccept 01~00\naccept 02~00\n",
    ),
    (
        INVALID,
        "prefer 01~00\nquery 1 01~00 P*1\nget 2 P 05~00\ndrop 05~00 invalid\naccept 01~00\n",
    ),
    (
        HOPELESS,
        "get 1 P 04~00\ndrop 05~00 parent\ndrop 00~00 parent\n",
    ),
    (
        VALIDATORS,
        "prefer 01~00\nquery 1 01~00 P*1\nskip 5 nodes\nprefer 02~00\nquery 2 02~00 Q*1\n\
         accept 01~00\naccept 02~00\n",
    ),
    (
        PEERS_ASK,
        "prefer 01~00\nquery 1 01~00 P*1\nto-chits Q 7 01~00 ff~00\naccept 01~00\n\
         to-frontier Q 8 01~00\nto-accepted Q 9 ff~00 01~00\n\
         to-block Q 10 01~00ff~00000000000000000101\nprefer 02~00\nquery 2 02~00 P*1\n\
         to-ancestors Q 12 02~0001~00000000000000000201 01~00ff~00000000000000000101\n",
    ),
    (
        SERVED_NO_MORE,
        "prefer 01~00\nquery 1 01~00 P*1\nto-block Q 3 02~00ff~00000000000000000101\n\
         accept 01~00\nreject 02~00\nto-accepted Q 5\n",
    ),
    (
        PASSED_OVER,
        "prefer 01~00\ndrop-query units\ndrop 80~00 old\nskip 4 block\nskip 5 task\nskip 6 stage\n",
    ),
];

#[test]
fn nodes_run(rt: HostRuntime) -> Result<(), Fail> {
    let alloc = rt.alloc();
    for (frames, lines) in EXAMPLES {
        assert!(rt; writes(alloc, RUN, frames, lines)?);
    }
    Ok(())
}

/// A Start of these nodes stops the run with this line.
const REFUSED: &[(&[(u8, u64)], &str)] = &[
    (&[], "snowman: bad input at frame 1: nodes-empty\n"),
    (
        &[(1, 1), (2, 0), (1, 1)],
        "snowman: bad input at frame 1: node-twice\n",
    ),
    (
        &[(1, 1), (2, 0)],
        "snowman: bad input at frame 1: node-weight\n",
    ),
    (
        &[(1, 9_223_372_036_854_775_807), (2, 1)],
        "snowman: bad input at frame 1: nodes-heavy\n",
    ),
];

#[test]
fn nodes_are_refused(rt: HostRuntime) -> Result<(), Fail> {
    let alloc = rt.alloc();
    for (nodes, line) in REFUSED {
        let frames = [Frame::Run([1; 5], nodes)];
        assert!(rt; ends(alloc, RUN, &frames, Status::BadInput, "", line)?);
    }
    Ok(())
}
