//! The program `snowtext`: the top call over standard input, output and error.
#![tactic(auto)]

ghost use Rattle.std.specs.Prelude.{◌≡◌, codes, if◌then◌else◌};
ghost use Rattle.snow_text_cli.specs.Clauses.Answering.{TookLine};

use snow_base::{ReadSource, Sink, WriteSink, write_whole};
use snow_text_cli::top;
use std::alloc::Global;
use std::env;
use std::io::{self, ErrorKind};
use std::process::ExitCode;

/// The exit status where the system gives no words.
const NO_WORDS: u8 = 10;

/// The exit status where memory runs out before the words are there.
const NO_MEMORY: u8 = 6;

fn main(rt: HostRuntime) -> ExitCode {
    let mut err = WriteSink::new(rt.stderr());
    let code = match words(&rt) {
        Ok(words) => {
            let mut source = ReadSource::new(rt.reader());
            let mut out = WriteSink::new(io::writer(&rt));
            top(rt.alloc(), &words, &mut source, &mut out, &mut err).code()
        }
        Err(error) => without_words(error.kind() == ErrorKind::OutOfMemory, &mut err),
    };
    ExitCode::from(code)
}

/// The words behind the program's name.
fn words(rt: &HostRuntime) -> io::Result<Vec<String>> {
    let words: Vec<String> = env::args(rt)?.skip(1).collect(rt.alloc())?;
    Ok(words)
}

/// Tells on standard error why there are no words, and answers the exit status.
fn without_words<E: Sink>(is_memory: bool, err: &mut E) -> u8
    ensures code { result ≡ (if is_memory then 6 else 10) }
    ensures line { TookLine (E.written err.old) (E.written err.new) (E.faults err.old) (E.faults err.new)
        (if is_memory then codes "snowtext: out of memory\n" else codes "snowtext: no words\n") }
{
    if is_memory {
        let _ = write_whole(err, b"snowtext: out of memory\n");
        return NO_MEMORY;
    }
    let _ = write_whole(err, b"snowtext: no words\n");
    NO_WORDS
}
