use crate::tests::runs::{ends, writes};
use crate::tests::streams::{A, Frame};
use snow_cli::Status;
use std::test::Fail;

const WORDS: &[&str] = &["decide", "--chain", "tally"];

/// A block of amount 7 at height 1.
const SEVEN: &[u8] = &[
    0, 0, 0, 0, 0, 0, 0, 0, 0, 0, 0, 0, 0, 0, 0, 0, 0, 0, 0, 0, 0, 0, 0, 0, 0, 0, 0, 0, 0, 0, 0, 0,
    0, 0, 0, 0, 0, 0, 0, 1, 0, 0, 0, 0, 0, 0, 0, 7,
];

/// A block of amount 4 on that one.
const FOUR: &[u8] = &[
    0xda, 0x3d, 0x35, 0x70, 0xdf, 0x6c, 0x29, 0x2d, 0x3a, 0x71, 0x1c, 0x4a, 0x94, 0xc3, 0xff, 0x2b,
    0x6f, 0xae, 0x95, 0x34, 0xac, 0x11, 0x69, 0x07, 0xf9, 0x53, 0x67, 0x1c, 0x56, 0xd4, 0x84, 0x68,
    0, 0, 0, 0, 0, 0, 0, 2, 0, 0, 0, 0, 0, 0, 0, 4,
];

/// A block of amount 3 on it.
const THREE: &[u8] = &[
    0xda, 0x3d, 0x35, 0x70, 0xdf, 0x6c, 0x29, 0x2d, 0x3a, 0x71, 0x1c, 0x4a, 0x94, 0xc3, 0xff, 0x2b,
    0x6f, 0xae, 0x95, 0x34, 0xac, 0x11, 0x69, 0x07, 0xf9, 0x53, 0x67, 0x1c, 0x56, 0xd4, 0x84, 0x68,
    0, 0, 0, 0, 0, 0, 0, 2, 0, 0, 0, 0, 0, 0, 0, 3,
];

/// Streams of the tally chain, and their lines. The sum may not pass the cap, which is 10.
const EXAMPLES: &[(&[Frame], &str)] = &[
    // The height of its parent isn't one below.
    (
        &[Frame::StartOn(A, &[0, 10]), Frame::Whole(&[0; 64])],
        "drop f5a5fd42d16a20302798ef6ed309979b43003d2320d9f0e8ea9831a92759fb4b invalid\n",
    ),
    (
        &[
            Frame::StartOn(A, &[0, 10]),
            Frame::Whole(SEVEN),
            Frame::Whole(FOUR),
            Frame::Whole(THREE),
        ],
        "prefer da3d3570df6c292d3a711c4a94c3ff2b6fae9534ac116907f953671c56d48468\n\
         drop 3e602b2187a3308f76fd72c11ab3edb9e325dde0442b1223718534d34b7f65bb invalid\n\
         prefer 590e120eb886b51e9ecacd8955b5721e5f500ed5f3104eedad7fb1ce54b15b80\n",
    ),
];

#[test]
fn a_tally_has_a_cap(rt: HostRuntime) -> Result<(), Fail> {
    for (i, (frames, lines)) in EXAMPLES.iter().enumerate() {
        assert!(rt; writes(rt.alloc(), WORDS, frames, lines)?, "example {i}");
    }
    let frames = [Frame::StartOn(A, &[11, 10])];
    let report = "snowman: bad input at frame 1: state\n";
    assert!(rt; ends(rt.alloc(), WORDS, &frames, Status::BadInput, "", report)?);
    Ok(())
}
