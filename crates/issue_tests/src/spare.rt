use snow_base::Bytes;
use snow_issue::SpareBytes;
use std::alloc::{AllocError, Global};
use std::test::Fail;

// So many bytes.
fn filled(alloc: Global, byte: u8, count: usize) -> Result<Bytes, AllocError> {
    let mut bytes = Bytes::new(alloc);
    for _ in 0..count {
        bytes.push(byte)?;
    }
    Ok(bytes)
}

// Whether so many bytes come out as they went in, after as many others were kept.
fn comes_out(
    alloc: Global,
    spare: &mut SpareBytes,
    kept: usize,
    count: usize,
) -> Result<bool, AllocError> {
    spare.keep(filled(alloc, 1, kept)?);
    let given = filled(alloc, 2, count)?;
    let bytes = spare.list(given.list())?;
    Ok(bytes.list() == given.list())
}

#[test]
fn bytes_are_those_that_come(rt: HostRuntime) -> Result<(), Fail> {
    let mut spare = SpareBytes::none(rt.alloc());
    assert!(rt; comes_out(rt.alloc(), &mut spare, 5, 5)?);
    assert!(rt; comes_out(rt.alloc(), &mut spare, 5, 2)?);
    assert!(rt; comes_out(rt.alloc(), &mut spare, 2, 200)?);
    assert!(rt; comes_out(rt.alloc(), &mut spare, 0, 1)?);
    assert!(rt; comes_out(rt.alloc(), &mut spare, 256, 257)?);
    assert!(rt; comes_out(rt.alloc(), &mut spare, 257, 0)?);
    Ok(())
}
