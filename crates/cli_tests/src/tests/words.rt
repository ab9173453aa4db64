use snow_cli::{ChainName, Command, Job, RuleName, read_words};
use std::alloc::{AllocError, Global};
use std::test::Fail;

/// The words as the program gets them.
fn collect(alloc: Global, words: &[&str]) -> Result<Vec<String>, AllocError> {
    let mut list = Vec::new(alloc);
    for word in words {
        list.push(String::from_str(alloc, word)?)?;
    }
    Ok(list)
}

/// With memory enough there is an answer: a command, or none where a word is no name.
#[test]
fn answers(rt: HostRuntime) -> Result<(), Fail> {
    let alloc = rt.alloc();
    let words = collect(alloc, &["decide", "--chain", "tally", "--rule=snowflake"])?;
    let command = read_words(alloc, &words)?;
    let expected = Command::Stream {
        job: Job::Decide,
        chain: ChainName::Tally,
        rule: RuleName::Snowflake,
    };
    assert!(rt; command == Some(expected));
    let words = collect(alloc, &["decide", "--chain", "book"])?;
    assert!(rt; read_words(alloc, &words)?.is_none());
    Ok(())
}
