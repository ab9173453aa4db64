use crate::tests::runs::{asks_nothing, writes};
use crate::tests::streams::{ONE, ONE_LINES, stream_of};
use snow_cli::Status;
use std::test::Fail;

/// Words that ask for nothing that there is.
const NOTHING: &[&[&str]] = &[
    &[],
    &["run", "--chain", "plain", "--chain", "tally"],
    &["drill", "--seed", "1"],
    &["audit", "--seed", "1"],
    &["run", "decide"],
    &["decide", "--rule", "avalanche"],
    &["--help"],
];

/// Nothing is read then: all 215 bytes are left.
#[test]
fn words_that_ask_for_nothing(rt: HostRuntime) -> Result<(), Fail> {
    let stream = stream_of(rt.alloc(), ONE)?;
    for (i, words) in NOTHING.iter().enumerate() {
        assert!(rt; asks_nothing(rt.alloc(), words, &stream, 215)?, "words {i}");
    }
    assert_eq!(rt; Status::Usage.code(), 2);
    Ok(())
}

#[test]
fn words_in_other_orders(rt: HostRuntime) -> Result<(), Fail> {
    for words in [["--", "decide"], ["--chain=plain", "decide"]] {
        assert!(rt; writes(rt.alloc(), &words, ONE, ONE_LINES)?, "{words:?}");
    }
    Ok(())
}
