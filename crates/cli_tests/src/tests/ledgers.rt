use crate::tests::runs::{ends, writes};
use crate::tests::streams::{A, Frame};
use snow_cli::Status;
use std::test::Fail;

const WORDS: &[&str] = &["decide", "--chain", "ledger"];

/// 7 from account 0 to account 1, at height 1.
const ONE: &[u8] = &[
    0, 0, 0, 0, 0, 0, 0, 0, 0, 0, 0, 0, 0, 0, 0, 0, 0, 0, 0, 0, 0, 0, 0, 0, 0, 0, 0, 0, 0, 0, 0, 0,
    0, 0, 0, 0, 0, 0, 0, 1, 0, 1, 0, 0, 0, 1, 0, 0, 0, 0, 0, 0, 0, 7, 0, 0, 0, 0, 0, 0, 0, 0,
];

/// 4 more on that one, where 3 are left.
const MORE: &[u8] = &[
    0x14, 0xf8, 0xbe, 0x83, 0x72, 0xba, 0x93, 0x34, 0x51, 0xb3, 0x11, 0x68, 0xef, 0xd8, 0x5b, 0xd1,
    0x19, 0xfc, 0, 0x67, 0xc3, 0xfa, 0x62, 9, 0x24, 0x79, 0x0a, 0x63, 0x23, 0xe7, 0x7f, 0xe9, 0, 0,
    0, 0, 0, 0, 0, 2, 0, 1, 0, 0, 0, 1, 0, 0, 0, 0, 0, 0, 0, 4, 0, 0, 0, 0, 0, 0, 0, 1,
];

/// 7 back on it, and then 10, which what came back covers.
const BACK: &[u8] = &[
    0x14, 0xf8, 0xbe, 0x83, 0x72, 0xba, 0x93, 0x34, 0x51, 0xb3, 0x11, 0x68, 0xef, 0xd8, 0x5b, 0xd1,
    0x19, 0xfc, 0, 0x67, 0xc3, 0xfa, 0x62, 9, 0x24, 0x79, 0x0a, 0x63, 0x23, 0xe7, 0x7f, 0xe9, 0, 0,
    0, 0, 0, 0, 0, 2, 0, 2, 0, 1, 0, 0, 0, 0, 0, 0, 0, 0, 0, 7, 0, 0, 0, 0, 0, 0, 0, 0, 0, 0, 0, 1,
    0, 0, 0, 0, 0, 0, 0, 0x0a, 0, 0, 0, 0, 0, 0, 0, 1,
];

/// 1 on it, with a sequence that was used.
const AGAIN: &[u8] = &[
    0x14, 0xf8, 0xbe, 0x83, 0x72, 0xba, 0x93, 0x34, 0x51, 0xb3, 0x11, 0x68, 0xef, 0xd8, 0x5b, 0xd1,
    0x19, 0xfc, 0, 0x67, 0xc3, 0xfa, 0x62, 9, 0x24, 0x79, 0x0a, 0x63, 0x23, 0xe7, 0x7f, 0xe9, 0, 0,
    0, 0, 0, 0, 0, 2, 0, 1, 0, 0, 0, 1, 0, 0, 0, 0, 0, 0, 0, 1, 0, 0, 0, 0, 0, 0, 0, 0,
];

/// A poll for the block with two transfers.
const POLL: &[u8] = &[
    0, 0, 0, 0x23, 3, 0, 1, 0x19, 0xf2, 0x3a, 0x61, 0x7d, 6, 0x1e, 0xf5, 0xd1, 0x6d, 0x78, 0xbb,
    0x30, 0x0b, 0x5c, 0xf2, 0x75, 0x1d, 0x2a, 6, 0xae, 0xf8, 0x43, 0xa2, 0x76, 0xc7, 0x4c, 0x38, 4,
    0xde, 2, 0xdd,
];

const FRAMES: &[Frame] = &[
    Frame::StartOn(A, &[10, 0, 0, 0]),
    Frame::Whole(ONE),
    Frame::Whole(MORE),
    Frame::Whole(BACK),
    Frame::Whole(AGAIN),
    Frame::Bare(POLL),
];

const LINES: &str = "prefer 14f8be8372ba933451b31168efd85bd119fc0067c3fa620924790a6323e77fe9\n\
    drop 5fee04f321291e7d87cd62b7a525896b655b87e90d88e3286a3a2fa03697bf95 invalid\n\
    prefer 19f23a617d061ef5d16d78bb300b5cf2751d2a06aef843a276c74c3804de02dd\n\
    drop a087887b22ca81910998f4f84e96e24724729fe73ea361da8556fd948a887044 invalid\n\
    accept 14f8be8372ba933451b31168efd85bd119fc0067c3fa620924790a6323e77fe9\n\
    accept 19f23a617d061ef5d16d78bb300b5cf2751d2a06aef843a276c74c3804de02dd\n";

/// A block is invalid where a transfer isn't covered or its sequence was used, and the blocks of one path
/// are accepted in order.
#[test]
fn transfers_are_covered_and_in_turn(rt: HostRuntime) -> Result<(), Fail> {
    assert!(rt; writes(rt.alloc(), WORDS, FRAMES, LINES)?);
    Ok(())
}

/// Balances and sequences come in pairs, and the balances add up to at most 2^64-1.
#[test]
fn a_ledger_has_accounts(rt: HostRuntime) -> Result<(), Fail> {
    let report = "snowman: bad input at frame 1: state\n";
    let states: [&[u64]; 3] = [&[], &[1], &[u64::MAX, 0, 1, 0]];
    for state in states {
        let frames = [Frame::StartOn(A, state)];
        assert!(rt; ends(rt.alloc(), WORDS, &frames, Status::BadInput, "", report)?);
    }
    Ok(())
}
