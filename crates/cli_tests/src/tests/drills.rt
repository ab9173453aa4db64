use crate::tests::runs::{asking, asks_nothing, tried};
use snow_cli::Status;
use std::test::Fail;

/// A drill of one block, as two programs of other authors counted it.
const ONE_BLOCK: &str = "blocks 1\naccepted 1\nrejected 0\npolls 23\n\
    last a3d0c883a682416b492bfca7357f7a497082496283d075c7335e67670e075ac0\n\
    sha256 c2ba68a95445c5a3208e5bda79f29a17490b499c77d35beeda364c951b0b06ce\n";

/// Words of a drill that ask for none.
const REFUSED: &[&[&str]] = &[
    &["drill"],
    &["drill", "--blocks", "1"],
    &["drill", "--seed=1", "--blocks=1", "--chain=plain"],
    &["drill", "--seed=18446744073709551616", "--blocks=1"],
    &["drill", "--seed=000000000000000000001", "--blocks=1"],
    &["drill", "--seed=1", "--blocks=0"],
    &["drill", "--seed=1", "--blocks=10001"],
    &["drill", "--seed=+1", "--blocks=1"],
    &["drill", "--seed=", "--blocks=1"],
    &["drill", "--seed=1", "--seed=1", "--blocks=1"],
];

/// It reads nothing: the byte that is there is left.
#[test]
fn a_drill_of_one_block(rt: HostRuntime) -> Result<(), Fail> {
    let run = asking(&["drill", "--seed=0", "--blocks", "1"], &[7]);
    let outcome = tried(rt.alloc(), &run)?;
    assert!(rt; outcome.is(rt.alloc(), Status::Done, ONE_BLOCK, "")?);
    assert_eq!(rt; outcome.left, Ok(1));
    Ok(())
}

#[test]
fn words_that_ask_for_no_drill(rt: HostRuntime) -> Result<(), Fail> {
    for (i, words) in REFUSED.iter().enumerate() {
        assert!(rt; asks_nothing(rt.alloc(), words, &[7], 1)?, "words {i}");
    }
    Ok(())
}
