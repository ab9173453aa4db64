use crate::base::{id, is};
use crate::lines::{behind, failing_at};
use snow_base::{Ids, MemSink, Sink};
use snow_lines::{Line, QueryWhy, RestartWhy};
use snow_page::Page;
use std::alloc::{AllocError, Global};
use std::test::Fail;

/// Lines of three kinds.
fn three() -> [Line; 3] {
    [
        Line::Frontier { number: u32::MAX },
        Line::DropQuery {
            why: QueryWhy::Units,
        },
        Line::Restart {
            why: RestartWhy::Frontier,
        },
    ]
}

/// Their text.
const THREE_TEXT: &[u8] = b"frontier 4294967295\ndrop-query units\nrestart frontier\n";

/// Whether lines are printed on a page.
fn gathers_all<K: Sink>(page: &mut Page, sink: &mut K, lines: &[Line]) -> bool {
    page.print_all(lines, sink).is_ok()
}

/// Whether the three are.
fn gathers_three<K: Sink>(page: &mut Page, sink: &mut K) -> bool {
    let lines = three();
    let printed = gathers_all(page, sink, &lines);
    drop(lines);
    printed
}

/// Whether a page is written.
fn flushes<K: Sink>(page: &mut Page, sink: &mut K) -> bool {
    page.flush(sink).is_ok()
}

/// A page, and a sink with room for so many bytes that fails at this call.
fn page_over(alloc: Global, call: u64, room: usize) -> Result<(Page, MemSink), AllocError> {
    let page = Page::new(alloc)?;
    Ok((page, failing_at(alloc, call, room)?))
}

#[test]
fn lines_on_a_page_come_in_one_write(rt: HostRuntime) -> Result<(), Fail> {
    let (mut page, mut sink) = page_over(rt.alloc(), 2, 1000)?;
    assert!(rt; gathers_three(&mut page, &mut sink));
    assert!(rt; sink.bytes().is_empty());
    assert!(rt; flushes(&mut page, &mut sink));
    assert!(rt; is(sink.bytes(), THREE_TEXT));
    // Nothing waits: the sink, which would fail now, isn't called.
    assert!(rt; flushes(&mut page, &mut sink));
    assert!(rt; gathers_three(&mut page, &mut sink));
    assert!(rt; !flushes(&mut page, &mut sink));
    assert!(rt; is(sink.bytes(), THREE_TEXT));
    drop(page);
    drop(sink);
    Ok(())
}

/// So many lines of 72 bytes are a page, but for 16 bytes.
const PAGE_LINES: u32 = 910;

/// Whether a line is printed on a page.
fn gathers<K: Sink>(page: &mut Page, sink: &mut K, line: Line) -> bool {
    let printed = page.print(&line, sink).is_ok();
    drop(line);
    printed
}

/// Whether a line of 72 bytes is.
fn gathers_one<K: Sink>(page: &mut Page, sink: &mut K) -> bool {
    gathers(page, sink, Line::Prefer { id: id(0x0a, 0xff) })
}

/// Whether so many are printed, where the sink then has so many bytes after each of them.
fn gathers_many(page: &mut Page, sink: &mut MemSink, count: u32, len: usize) -> bool {
    for _ in 0..count {
        if !gathers_one(page, sink) || sink.bytes().len() != len {
            return false;
        }
    }
    true
}

/// Whether a text is that of a thousand of them.
fn is_thousand(text: &[u8]) -> bool {
    let mut rest = text;
    for _ in 0..1000 {
        match behind(rest, "prefer 0aff", "\n") {
            Some(next) => rest = next,
            None => return false,
        }
    }
    rest.is_empty()
}

#[test]
fn a_thousand_lines_come_in_two_writes(rt: HostRuntime) -> Result<(), Fail> {
    let (mut page, mut sink) = page_over(rt.alloc(), 3, 72_000)?;
    assert!(rt; gathers_many(&mut page, &mut sink, PAGE_LINES, 0));
    // A line that names a block alone is one piece: none of it is on the first page.
    assert!(rt; gathers_many(&mut page, &mut sink, 1000 - PAGE_LINES, 65_520));
    assert!(rt; flushes(&mut page, &mut sink));
    assert!(rt; is_thousand(sink.bytes()));
    drop(page);
    drop(sink);
    Ok(())
}

#[test]
fn a_full_page_fails_with_its_sink(rt: HostRuntime) -> Result<(), Fail> {
    let (mut page, mut sink) = page_over(rt.alloc(), 1, 72_000)?;
    assert!(rt; gathers_many(&mut page, &mut sink, PAGE_LINES, 0));
    assert!(rt; !gathers_one(&mut page, &mut sink));
    assert!(rt; sink.bytes().is_empty());
    drop(page);
    drop(sink);
    Ok(())
}

/// Two identifiers, a thousand times.
fn two_thousand(alloc: Global) -> Result<Ids, AllocError> {
    let mut ids = Ids::new(alloc);
    for _ in 0..1000 {
        ids.push(id(0x0a, 0xff))?;
        ids.push(id(0xb9, 0x01))?;
    }
    Ok(ids)
}

/// Whether a line with them is printed on a page.
fn gathers_long<K: Sink>(alloc: Global, page: &mut Page, sink: &mut K) -> Result<bool, AllocError> {
    let ids = two_thousand(alloc)?;
    Ok(gathers(page, sink, Line::Accepted { number: 7, ids }))
}

/// What stands behind both identifiers.
fn behind_both(text: &[u8]) -> Option<&[u8]> {
    behind(behind(text, " 0aff", "")?, " b901", "")
}

/// Whether a text is that of the long line.
fn is_long(text: &[u8]) -> bool {
    let Some(mut rest) = text.strip_prefix(b"accepted 7") else {
        return false;
    };
    for _ in 0..1000 {
        match behind_both(rest) {
            Some(next) => rest = next,
            None => return false,
        }
    }
    is(rest, b"\n")
}

#[test]
fn a_line_longer_than_a_page_goes_through(rt: HostRuntime) -> Result<(), Fail> {
    let (mut page, mut sink) = page_over(rt.alloc(), 3, 131_000)?;
    assert!(rt; gathers_long(rt.alloc(), &mut page, &mut sink) == Ok(true));
    assert!(rt; flushes(&mut page, &mut sink));
    assert!(rt; is_long(sink.bytes()));
    drop(page);
    drop(sink);
    Ok(())
}
