use crate::base::{id, is};
use snow_base::{MemSink, Nums, Sink};
use snow_digits::Text;
use snow_lines::{DropWhy, Line, SkipKind};
use snow_page::{print, print_all};
use snow_reading::read;
use std::alloc::{AllocError, Global};
use std::test::Fail;

/// A sink with room for so many bytes, which fails at this call.
pub(crate) fn failing_at(alloc: Global, call: u64, room: usize) -> Result<MemSink, AllocError> {
    let mut failing = Nums::new(alloc);
    failing.push(call)?;
    let mut sink = MemSink::new(alloc, failing);
    sink.reserve(room)?;
    Ok(sink)
}

/// What stands behind the start, 60 zeros and the end of a line.
pub(crate) fn behind<'a>(text: &'a [u8], start: &str, end: &str) -> Option<&'a [u8]> {
    text.strip_prefix(start.as_bytes())?
        .strip_prefix(&[b'0'; 60])?
        .strip_prefix(end.as_bytes())
}

/// Four lines with identifiers.
fn four() -> [Line; 4] {
    [
        Line::Accept { id: id(0x0a, 0xff) },
        Line::Reject { id: id(0xb9, 0x01) },
        Line::Prefer { id: id(0, 0) },
        Line::Drop {
            id: id(0x10, 0),
            why: DropWhy::Invalid,
        },
    ]
}

/// Whether lines are printed.
fn prints_all<K: Sink>(sink: &mut K, lines: &[Line]) -> bool {
    print_all(lines, sink).is_ok()
}

/// Whether the four are printed.
fn prints_four<K: Sink>(sink: &mut K) -> bool {
    let lines = four();
    let printed = prints_all(sink, &lines);
    drop(lines);
    printed
}

/// Whether a text is theirs.
fn is_four(text: &[u8]) -> bool {
    let mut rest = text;
    for (start, end) in [
        ("accept 0aff", "\n"),
        ("reject b901", "\n"),
        ("prefer 0000", "\n"),
        ("drop 1000", " invalid\n"),
    ] {
        match behind(rest, start, end) {
            Some(next) => rest = next,
            None => return false,
        }
    }
    rest.is_empty()
}

#[test]
fn each_line_has_its_text(rt: HostRuntime) -> Result<(), Fail> {
    let mut sink = failing_at(rt.alloc(), 0, 1000)?;
    assert!(rt; prints_four(&mut sink));
    assert!(rt; is_four(sink.bytes()));
    drop(sink);
    Ok(())
}

/// Each reason for which a frame is passed over, and its text at frame 18446744073709551615.
const SKIPS: &[(SkipKind, &str)] = &[
    (SkipKind::Tag, "skip 18446744073709551615 tag\n"),
    (SkipKind::Short, "skip 18446744073709551615 short\n"),
    (SkipKind::Extra, "skip 18446744073709551615 extra\n"),
    (SkipKind::Count, "skip 18446744073709551615 count\n"),
    (SkipKind::Task, "skip 18446744073709551615 task\n"),
    (SkipKind::Stage, "skip 18446744073709551615 stage\n"),
    (SkipKind::Votes, "skip 18446744073709551615 votes\n"),
    (SkipKind::Full, "skip 18446744073709551615 full\n"),
    (SkipKind::Block, "skip 18446744073709551615 block\n"),
    (SkipKind::Nodes, "skip 18446744073709551615 nodes\n"),
];

/// Whether a line is printed.
fn prints<K: Sink>(sink: &mut K, line: Line) -> bool {
    let printed = print(&line, sink).is_ok();
    drop(line);
    printed
}

/// Whether a skip is printed.
fn prints_skip<K: Sink>(sink: &mut K, frame: u64, kind: SkipKind) -> bool {
    prints(sink, Line::Skip { frame, kind })
}

/// Whether all skips are printed.
fn prints_skips<K: Sink>(sink: &mut K) -> bool {
    for (kind, _) in SKIPS {
        if !prints_skip(sink, u64::MAX, *kind) {
            return false;
        }
    }
    true
}

/// Whether a text is that of all skips, and of a front of one more.
fn is_skips(text: &[u8]) -> bool {
    let mut rest = text;
    for (_, line) in SKIPS {
        match rest.strip_prefix(line.as_bytes()) {
            Some(next) => rest = next,
            None => return false,
        }
    }
    is(rest, b"skip 1")
}

#[test]
fn a_failing_sink_takes_a_front(rt: HostRuntime) -> Result<(), Fail> {
    // A skip comes in two writes: its name with its number, and its kind with the newline.
    let mut sink = failing_at(rt.alloc(), 22, 1000)?;
    assert!(rt; prints_skips(&mut sink));
    assert!(rt; !prints_skip(&mut sink, 1, SkipKind::Tag));
    assert!(rt; is_skips(sink.bytes()));
    drop(sink);
    Ok(())
}

/// A line of each kind.
const LINES: &[&str] = &[
    "query 7 0aff000000000000000000000000000000000000000000000000000000000000 1f1f1f1f1f1f1f1f1f1f1f1f1f1f1f1f1f1f1f1f*1 0202020202020202020202020202020202020202*4294967295\n",
    "get 0 1f1f1f1f1f1f1f1f1f1f1f1f1f1f1f1f1f1f1f1f 0aff000000000000000000000000000000000000000000000000000000000000\n",
    "frontier 4294967295\n",
    "accepted 10 0aff000000000000000000000000000000000000000000000000000000000000 b9b9b9b9b9b9b9b9b9b9b9b9b9b9b9b9b9b9b9b9b9b9b9b9b9b9b9b9b9b9b9b9\n",
    "ancestors 3 0202020202020202020202020202020202020202 b9b9b9b9b9b9b9b9b9b9b9b9b9b9b9b9b9b9b9b9b9b9b9b9b9b9b9b9b9b9b9b9\n",
    "accept 0aff000000000000000000000000000000000000000000000000000000000000\n",
    "reject b9b9b9b9b9b9b9b9b9b9b9b9b9b9b9b9b9b9b9b9b9b9b9b9b9b9b9b9b9b9b9b9\n",
    "prefer 0aff000000000000000000000000000000000000000000000000000000000000\n",
    "drop 0aff000000000000000000000000000000000000000000000000000000000000 invalid\n",
    "drop-query units\n",
    "skip 18446744073709551615 nodes\n",
    "restart frontier\n",
    "bootstrapped b9b9b9b9b9b9b9b9b9b9b9b9b9b9b9b9b9b9b9b9b9b9b9b9b9b9b9b9b9b9b9b9 0\n",
    "to-chits 1f1f1f1f1f1f1f1f1f1f1f1f1f1f1f1f1f1f1f1f 7 0aff000000000000000000000000000000000000000000000000000000000000 b9b9b9b9b9b9b9b9b9b9b9b9b9b9b9b9b9b9b9b9b9b9b9b9b9b9b9b9b9b9b9b9\n",
    "to-frontier 1f1f1f1f1f1f1f1f1f1f1f1f1f1f1f1f1f1f1f1f 8 0aff000000000000000000000000000000000000000000000000000000000000\n",
    "to-accepted 1f1f1f1f1f1f1f1f1f1f1f1f1f1f1f1f1f1f1f1f 9 0aff000000000000000000000000000000000000000000000000000000000000 b9b9b9b9b9b9b9b9b9b9b9b9b9b9b9b9b9b9b9b9b9b9b9b9b9b9b9b9b9b9b9b9\n",
    "to-accepted 1f1f1f1f1f1f1f1f1f1f1f1f1f1f1f1f1f1f1f1f 10\n",
    "to-ancestors 1f1f1f1f1f1f1f1f1f1f1f1f1f1f1f1f1f1f1f1f 12 . 0a\n",
    "to-block 1f1f1f1f1f1f1f1f1f1f1f1f1f1f1f1f1f1f1f1f 11 00ff\n",
];

/// Whether a text is a line, and is printed again.
fn reprints<K: Sink>(alloc: Global, sink: &mut K, text: &str) -> Result<bool, AllocError> {
    match read(alloc, text.as_bytes())? {
        Some(line) => Ok(prints(sink, line)),
        None => Ok(false),
    }
}

/// Whether a text is that of all lines.
fn is_lines(text: &[u8]) -> bool {
    let mut rest = text;
    for line in LINES {
        match rest.strip_prefix(line.as_bytes()) {
            Some(next) => rest = next,
            None => return false,
        }
    }
    rest.is_empty()
}

#[test]
fn each_kind_is_read_and_printed(rt: HostRuntime) -> Result<(), Fail> {
    let mut sink = failing_at(rt.alloc(), 0, 10_000)?;
    for text in LINES {
        assert!(rt; reprints(rt.alloc(), &mut sink, text) == Ok(true), "{text}");
    }
    assert!(rt; is_lines(sink.bytes()));
    drop(sink);
    Ok(())
}

/// Texts that are nearly those of lines.
const MISSES: &[&str] = &[
    "accept 0AFF000000000000000000000000000000000000000000000000000000000000\n",
    "skip 1  tag\n",
    "skip 01 tag\n",
    "skip 1 tag",
    "skip 1 tag\n\n",
    "skip +1 tag\n",
    "skip 18446744073709551616 tag\n",
    "frontier 4294967296\n",
    "query 7 0aff000000000000000000000000000000000000000000000000000000000000 1f1f1f1f1f1f1f1f1f1f1f1f1f1f1f1f1f1f1f1f*0\n",
    "query 7 0aff000000000000000000000000000000000000000000000000000000000000\n",
    "accepted 10\n",
    "to-ancestors 1f1f1f1f1f1f1f1f1f1f1f1f1f1f1f1f1f1f1f1f 12\n",
    "to-block 1f1f1f1f1f1f1f1f1f1f1f1f1f1f1f1f1f1f1f1f 11 \n",
    "frontier \n",
    "restart later\n",
    "\n",
    "",
];

/// Whether a text is a line.
fn is_line(alloc: Global, text: &str) -> Result<bool, AllocError> {
    let line = read(alloc, text.as_bytes())?;
    let is_line = line.is_some();
    drop(line);
    Ok(is_line)
}

#[test]
fn near_misses_are_no_lines(rt: HostRuntime) -> Result<(), Fail> {
    for text in MISSES {
        assert!(rt; !is_line(rt.alloc(), text)?, "{text}");
    }
    Ok(())
}

#[test]
fn a_short_text_is_built_of_words(rt: HostRuntime) {
    let mut text: Text<64> = Text::new();
    text.push(b"input");
    text.push_number(b' ', u64::MAX);
    text.push(b"\n");
    assert!(rt; is(text.as_slice(), b"input 18446744073709551615\n"));
}
