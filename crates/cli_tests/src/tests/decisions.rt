use crate::tests::runs::{DECIDE, writes};
use crate::tests::streams::{A, B, C, D, E, FAR, Frame, Name, ONE, ONE_LINES, ROOT, START};
use std::alloc::{AllocError, Global};
use std::test::Fail;

/// A stream, how many of its frames come, and the lines that they write.
type Example = (&'static [Frame], usize, &'static str);

/// The confidence needs the higher quorum.
const HIGHER_QUORUM: &[Frame] = &[
    Frame::Start([3, 2, 3, 2, 1]),
    Frame::Block(B, ROOT, 1, 1),
    Frame::Poll(&[B, B, B]),
    Frame::Poll(&[B, B]),
    Frame::Poll(&[B, B, B]),
    Frame::Poll(&[B, B, B]),
];

/// Two children, which differ at bit 7, and two polls for the second.
const TWO_CHILDREN: &[Frame] = &[
    Frame::Start([1, 1, 1, 2, 1]),
    Frame::Block(A, ROOT, 1, 1),
    Frame::Block(FAR, ROOT, 1, 1),
    Frame::Poll(&[FAR]),
    Frame::Poll(&[FAR]),
];

/// A vote counts for the ancestors too: they are accepted with their descendant.
const ANCESTORS: &[Frame] = &[
    START,
    Frame::Block(B, ROOT, 1, 1),
    Frame::Block(C, B, 2, 1),
    Frame::Poll(&[C]),
];

/// A branch is rejected with its descendants, in order of issue.
const BRANCH: &[Frame] = &[
    START,
    Frame::Block(B, ROOT, 1, 1),
    Frame::Block(C, ROOT, 1, 1),
    Frame::Block(D, B, 2, 1),
    Frame::Block(E, D, 3, 1),
    Frame::Poll(&[C]),
];

const LAST_BIT: Name = Name(0x00, 0x80);

/// Two identifiers that differ in the last bit alone.
const LAST_BIT_ALONE: &[Frame] = &[
    START,
    Frame::Block(A, ROOT, 1, 1),
    Frame::Block(LAST_BIT, ROOT, 1, 1),
    Frame::Poll(&[LAST_BIT]),
];

/// The first poll decides bit 0 alone; the block and the poll behind it write nothing, and the last
/// poll decides bit 1.
const ONE_BIT: &[Frame] = &[
    Frame::Start([4, 3, 3, 1, 1]),
    Frame::Block(A, ROOT, 1, 1),
    Frame::Block(B, ROOT, 1, 1),
    Frame::Block(D, ROOT, 1, 1),
    Frame::Poll(&[B, B, D, D]),
    Frame::Block(C, ROOT, 1, 1),
    Frame::Poll(&[C, C, C, C]),
    Frame::Poll(&[B, B, B, B]),
];

/// A poll without votes between two, and a second child: the confidence begins anew.
const RESET: &[Frame] = &[
    Frame::Start([1, 1, 1, 2, 1]),
    Frame::Block(A, ROOT, 1, 1),
    Frame::Poll(&[A]),
    Frame::Poll(&[]),
    Frame::Block(FAR, ROOT, 1, 1),
    Frame::Poll(&[A]),
    Frame::Poll(&[A]),
];

/// Two polls for the first child, and then three for the second.
const TURNING: &[Frame] = &[
    Frame::Start([1, 1, 1, 3, 1]),
    Frame::Block(A, ROOT, 1, 1),
    Frame::Block(FAR, ROOT, 1, 1),
    Frame::Poll(&[A]),
    Frame::Poll(&[A]),
    Frame::Poll(&[FAR]),
    Frame::Poll(&[FAR]),
    Frame::Poll(&[FAR]),
];

/// Blocks that are on the board, and polls for what isn't pending.
const NOTHING_NEW: &[Frame] = &[
    START,
    Frame::Block(B, ROOT, 1, 1),
    Frame::Block(B, ROOT, 1, 0),
    Frame::Block(ROOT, B, 9, 0),
    Frame::Poll(&[ROOT]),
    Frame::Poll(&[E]),
];

/// Blocks without a parent, at a wrong height, not valid, and with a flag that can't be read; and a
/// poll with too many votes.
const GIVEN_UP: &[Frame] = &[
    START,
    Frame::Block(B, C, 1, 1),
    Frame::Block(B, ROOT, 2, 1),
    Frame::Block(B, ROOT, 1, 0),
    Frame::Block(B, ROOT, 1, 2),
    Frame::Poll(&[B, B]),
];

const BY_SNOWBALL: &[Example] = &[
    (ONE, 3, ONE_LINES),
    (
        TWO_CHILDREN,
        5,
        "prefer 00~00\nprefer 80~00\naccept 80~00\nreject 00~00\n",
    ),
    (HIGHER_QUORUM, 3, "prefer 01~00\n"),
    (HIGHER_QUORUM, 4, "prefer 01~00\n"),
    (HIGHER_QUORUM, 5, "prefer 01~00\n"),
    (HIGHER_QUORUM, 6, ONE_LINES),
    (
        ANCESTORS,
        4,
        "prefer 01~00\nprefer 02~00\naccept 01~00\naccept 02~00\n",
    ),
    (
        BRANCH,
        6,
        "prefer 01~00\nprefer 03~00\nprefer 04~00\naccept 02~00\nreject 01~00\nreject 03~00\nreject 04~00\nprefer 02~00\n",
    ),
    (
        LAST_BIT_ALONE,
        4,
        "prefer 00~00\naccept 00~80\nreject 00~00\nprefer 00~80\n",
    ),
    (ONE_BIT, 5, "prefer 00~00\nprefer 01~00\n"),
    (ONE_BIT, 6, "prefer 00~00\nprefer 01~00\n"),
    (ONE_BIT, 7, "prefer 00~00\nprefer 01~00\n"),
    (
        ONE_BIT,
        8,
        "prefer 00~00\nprefer 01~00\naccept 01~00\nreject 00~00\nreject 03~00\nreject 02~00\n",
    ),
    (RESET, 6, "prefer 00~00\n"),
    (RESET, 7, "prefer 00~00\naccept 00~00\nreject 80~00\n"),
    (NOTHING_NEW, 6, "prefer 01~00\n"),
    (
        GIVEN_UP,
        6,
        "drop 01~00 parent\ndrop 01~00 invalid\ndrop 01~00 invalid\nskip 5 block\nskip 6 votes\n",
    ),
    // The preference moves once the other child was followed more often.
    (TURNING, 7, "prefer 00~00\n"),
    (
        TURNING,
        8,
        "prefer 00~00\naccept 80~00\nreject 00~00\nprefer 80~00\n",
    ),
];

/// The preference moves with each poll.
const BY_SNOWFLAKE: &[Example] = &[
    (TURNING, 5, "prefer 00~00\n"),
    (TURNING, 6, "prefer 00~00\nprefer 80~00\n"),
    (TURNING, 7, "prefer 00~00\nprefer 80~00\n"),
    (
        TURNING,
        8,
        "prefer 00~00\nprefer 80~00\naccept 80~00\nreject 00~00\n",
    ),
];

/// Whether a run of these words over the first frames of an example writes its lines.
fn writes_first(alloc: Global, words: &[&str], example: &Example) -> Result<bool, AllocError> {
    let (frames, count, lines) = example;
    match frames.get(..*count) {
        Some(frames) => writes(alloc, words, frames, lines),
        None => Ok(false),
    }
}

#[test]
fn snowball_decides(rt: HostRuntime) -> Result<(), Fail> {
    for (i, example) in BY_SNOWBALL.iter().enumerate() {
        assert!(rt; writes_first(rt.alloc(), DECIDE, example)?, "example {i}");
    }
    Ok(())
}

#[test]
fn snowflake_decides(rt: HostRuntime) -> Result<(), Fail> {
    let words = ["decide", "--rule", "snowflake"];
    for (i, example) in BY_SNOWFLAKE.iter().enumerate() {
        assert!(rt; writes_first(rt.alloc(), &words, example)?, "example {i}");
    }
    Ok(())
}

/// All events but Start, Block and Poll are passed over.
#[test]
fn other_events_are_passed_over(rt: HostRuntime) -> Result<(), Fail> {
    let frames = [
        START,
        Frame::Zeros(4, 2),
        Frame::Zeros(5, 56),
        Frame::Zeros(6, 24),
        Frame::Ask(12, 2, 7, &[]),
    ];
    let lines = "skip 2 task\nskip 3 task\nskip 4 task\nskip 5 task\n";
    assert!(rt; writes(rt.alloc(), DECIDE, &frames, lines)?);
    Ok(())
}
