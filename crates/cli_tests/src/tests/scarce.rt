use crate::tests::runs::{DECIDE, Outcome, asking, tried};
use crate::tests::streams::{ONE, ONE_LINES, stream_of, text_of};
use snow_cli::Status;
use std::alloc::{AllocError, Global};

/// What comes of the stream with one block and one poll.
fn attempt(alloc: Global) -> Result<Outcome, AllocError> {
    let stream = stream_of(alloc, ONE)?;
    let outcome = tried(alloc, &asking(DECIDE, &stream));
    drop(stream);
    outcome
}

/// Whether it is done with all of its lines, or tells of the want of memory behind a front of them.
fn is_told(alloc: Global, text: &[u8]) -> Result<bool, AllocError> {
    let outcome = attempt(alloc)?;
    let told = match outcome.status {
        Status::Done => outcome.out.as_slice() == text && outcome.err.is_empty(),
        Status::Memory => {
            text.starts_with(&outcome.out) && b"snowman: out of memory\n".starts_with(&outcome.err)
        }
        _ => false,
    };
    drop(outcome);
    Ok(told)
}

/// Whichever allocation of the run fails. Where it is one of the test's own, there is nothing to see.
#[test]
fn memory_may_run_out(rt: HostRuntime) {
    if let Ok(text) = text_of(rt.alloc(), ONE_LINES) {
        assert!(rt; is_told(rt.alloc(), &text).unwrap_or(true));
    }
}
