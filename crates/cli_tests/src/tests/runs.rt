use crate::tests::streams::{Frame, stream_of, text_of};
use snow_base::{Bytes, Failed, MemSink, MemSource, Nums, Sink, Source};
use snow_cli::{Status, top};
use std::alloc::{AllocError, Global};

/// A run of the top call.
#[derive(Clone, Copy)]
pub struct Run<'a> {
    /// The words behind the program's name.
    pub words: &'a [&'a str],
    /// The bytes that come in.
    pub stream: &'a [u8],
    /// The most bytes that a read gives.
    pub piece: usize,
    /// The number of the read that fails, counted from 1; 0 for none.
    pub failing_read: u64,
    /// The number of the write of lines that fails.
    pub failing_write: u64,
    /// The number of the write on standard error that fails.
    pub failing_report: u64,
    /// How many bytes of lines there is room for.
    pub room: usize,
}

/// What a run answered and wrote, and what a read behind it gives.
#[derive(Drop)]
pub struct Outcome {
    pub status: Status,
    pub out: Vec<u8>,
    pub err: Vec<u8>,
    pub left: Result<usize, Failed>,
}

/// The words that ask for a node that decides, on the plain chain and by Snowball.
pub const DECIDE: &[&str] = &["decide"];

/// The run of these words over these bytes, in pieces of 65,536 bytes, where nothing fails.
pub fn asking<'a>(words: &'a [&'a str], stream: &'a [u8]) -> Run<'a> {
    Run {
        words,
        stream,
        piece: 65_536,
        failing_read: 0,
        failing_write: 0,
        failing_report: 0,
        room: 4096,
    }
}

/// What comes of a run.
pub fn tried(alloc: Global, run: &Run<'_>) -> Result<Outcome, AllocError> {
    let mut source = source_of(alloc, run)?;
    let outcome = tried_on(alloc, run, &mut source);
    drop(source);
    outcome
}

/// What comes of a run with the bytes of this source.
pub fn tried_on<S: Source>(
    alloc: Global,
    run: &Run<'_>,
    source: &mut S,
) -> Result<Outcome, AllocError> {
    let words = words_of(alloc, run.words)?;
    let outcome = tried_with(alloc, run, &words, source);
    drop(words);
    outcome
}

/// The same with these words.
fn tried_with<S: Source>(
    alloc: Global,
    run: &Run<'_>,
    words: &Vec<String>,
    source: &mut S,
) -> Result<Outcome, AllocError> {
    let mut out = sink_of(alloc, run.failing_write, run.room)?;
    let outcome = written(alloc, run, words, source, &mut out);
    drop(out);
    outcome
}

/// The same with this sink for the lines.
fn written<S: Source>(
    alloc: Global,
    run: &Run<'_>,
    words: &Vec<String>,
    source: &mut S,
    out: &mut MemSink,
) -> Result<Outcome, AllocError> {
    let mut err = sink_of(alloc, run.failing_report, 256)?;
    let status = status_of(alloc, words, source, out, &mut err);
    let outcome = outcome_of(alloc, status, out.bytes(), err.bytes(), source);
    drop(err);
    outcome
}

/// The status of the top call. It stands apart, over any source and sinks, since what the top call
/// promises is many steps at those of the tests, which don't need it.
fn status_of<S: Source, O: Sink, E: Sink>(
    alloc: Global,
    words: &Vec<String>,
    source: &mut S,
    out: &mut O,
    err: &mut E,
) -> Status {
    top(alloc, words, source, out, err)
}

fn outcome_of<S: Source>(
    alloc: Global,
    status: Status,
    out: &[u8],
    err: &[u8],
    source: &mut S,
) -> Result<Outcome, AllocError> {
    Ok(Outcome {
        status,
        out: out.to_vec(alloc)?,
        err: err.to_vec(alloc)?,
        left: source.read(&mut [0; 256]),
    })
}

impl Outcome {
    /// Whether it is this status, with the text of these lines and of this on standard error.
    pub fn is(
        &self,
        alloc: Global,
        status: Status,
        lines: &str,
        report: &str,
    ) -> Result<bool, AllocError> {
        let text = text_of(alloc, lines)?;
        let is = self.has(alloc, status, &text, report);
        drop(text);
        is
    }

    /// The same with lines that are spelt out.
    fn has(
        &self,
        alloc: Global,
        status: Status,
        text: &[u8],
        report: &str,
    ) -> Result<bool, AllocError> {
        let line = text_of(alloc, report)?;
        let is = self.status == status
            && self.out.as_slice() == text
            && self.err.as_slice() == line.as_slice();
        drop(line);
        Ok(is)
    }
}

/// Whether a run answers this status, with these lines and this on standard error.
pub fn gives(
    alloc: Global,
    run: &Run<'_>,
    status: Status,
    lines: &str,
    report: &str,
) -> Result<bool, AllocError> {
    let outcome = tried(alloc, run)?;
    let is = outcome.is(alloc, status, lines, report);
    drop(outcome);
    is
}

/// Whether a run of these words over these frames answers this status, with these lines and this on
/// standard error.
pub fn ends(
    alloc: Global,
    words: &[&str],
    frames: &[Frame],
    status: Status,
    lines: &str,
    report: &str,
) -> Result<bool, AllocError> {
    let stream = stream_of(alloc, frames)?;
    let given = gives(alloc, &asking(words, &stream), status, lines, report);
    drop(stream);
    given
}

/// Whether a run of these words over these frames is done and writes these lines.
pub fn writes(
    alloc: Global,
    words: &[&str],
    frames: &[Frame],
    lines: &str,
) -> Result<bool, AllocError> {
    ends(alloc, words, frames, Status::Done, lines, "")
}

/// Whether words ask for nothing: with `Usage` and its line, and so many bytes left of the stream.
pub fn asks_nothing(
    alloc: Global,
    words: &[&str],
    stream: &[u8],
    left: usize,
) -> Result<bool, AllocError> {
    let outcome = tried(alloc, &asking(words, stream))?;
    let usage = outcome.is(alloc, Status::Usage, "", "snowman: usage\n");
    let unread = outcome.left == Ok(left);
    drop(outcome);
    Ok(usage? && unread)
}

/// The words as the program gets them.
fn words_of(alloc: Global, words: &[&str]) -> Result<Vec<String>, AllocError> {
    let mut list = Vec::new(alloc);
    for word in words {
        list.push(String::from_str(alloc, word)?)?;
    }
    Ok(list)
}

/// The list of this number alone.
fn only(alloc: Global, number: u64) -> Result<Nums, AllocError> {
    let mut list = Nums::new(alloc);
    list.push(number)?;
    Ok(list)
}

/// The bytes of a run.
fn source_of(alloc: Global, run: &Run<'_>) -> Result<MemSource, AllocError> {
    let stream = Bytes::from_slice(alloc, run.stream)?;
    let failing = only(alloc, run.failing_read)?;
    Ok(MemSource::new(stream, run.piece.max(1), failing))
}

/// A sink with room for so many bytes, whose write of this number fails.
fn sink_of(alloc: Global, failing: u64, room: usize) -> Result<MemSink, AllocError> {
    let mut sink = MemSink::new(alloc, only(alloc, failing)?);
    sink.reserve(room)?;
    Ok(sink)
}
