ghost use Rattle.std.specs.Prelude.{◌≡◌, ◌<◌};

use snow_interval::{Intervals, Kept, KeptList, Span};
use std::alloc::AllocError;
use std::test::Fail;

// Adds a height where it is new, and answers whether a run begins there.
fn put<H: Kept>(kept: &mut H, height: u64) -> Result<Option<bool>, AllocError>
    requires { H.floor kept.old < height }
    ensures { H.floor kept.new ≡ H.floor kept.old }
{
    if kept.contains(height) {
        return Ok(None);
    }
    Ok(Some(kept.add(height)?))
}

// The lowest height of the run of a height, where it is held.
fn run_of<H: Kept>(kept: &H, height: u64) -> Option<u64> {
    if kept.contains(height) {
        Some(kept.lowest(height))
    } else {
        None
    }
}

// The spans after each height of some.
#[test]
fn a_height_joins_its_spans(rt: HostRuntime) -> Result<(), Fail> {
    let mut kept = Intervals::begin(rt.alloc(), 0);
    assert_eq!(rt; put(&mut kept, 3)?, Some(true));
    assert!(rt; kept.spans() == [Span { low: 3, high: 3 }].as_slice());
    assert_eq!(rt; put(&mut kept, 1)?, Some(false));
    assert!(rt; kept.spans() == [Span { low: 1, high: 1 }, Span { low: 3, high: 3 }].as_slice());
    assert_eq!(rt; put(&mut kept, 5)?, Some(true));
    assert_eq!(rt; put(&mut kept, 2)?, Some(false));
    assert!(rt; kept.spans() == [Span { low: 1, high: 3 }, Span { low: 5, high: 5 }].as_slice());
    assert_eq!(rt; put(&mut kept, 4)?, Some(false));
    assert!(rt; kept.spans() == [Span { low: 1, high: 5 }].as_slice());
    assert_eq!(rt; run_of(&kept, 4), Some(1));
    Ok(())
}

// Whether the answers of a set above 0 are those for heights 5, 4 and 1.
fn answers<H: Kept>(mut kept: H) -> Result<bool, AllocError>
    requires { H.floor kept ≡ 0 }
{
    let five = put(&mut kept, 5)? == Some(true);
    let four = put(&mut kept, 4)? == Some(true);
    let one = put(&mut kept, 1)? == Some(false);
    let again = put(&mut kept, 4)?.is_none();
    let run = run_of(&kept, 5) == Some(4) && run_of(&kept, 6).is_none();
    Ok(five && four && one && again && run)
}

#[test]
fn both_sets_answer_alike(rt: HostRuntime) -> Result<(), Fail> {
    assert!(rt; answers(KeptList::begin(rt.alloc(), 0))?);
    assert!(rt; answers(Intervals::begin(rt.alloc(), 0))?);
    Ok(())
}

// Heights up to the greatest number.
#[test]
fn the_greatest_height_is_held(rt: HostRuntime) -> Result<(), Fail> {
    let mut kept = Intervals::begin(rt.alloc(), u64::MAX - 3);
    assert_eq!(rt; put(&mut kept, u64::MAX)?, Some(true));
    assert_eq!(rt; put(&mut kept, u64::MAX - 2)?, Some(false));
    assert_eq!(rt; put(&mut kept, u64::MAX - 1)?, Some(false));
    assert_eq!(rt; run_of(&kept, u64::MAX), Some(u64::MAX - 2));
    Ok(())
}
