use crate::tools::{add_all, first};
use snow_base::Bag;
use snow_flake::{Params, Snowball};
use snow_plain::Conflict;
use std::alloc::{AllocError, Global};
use std::test::Fail;

// Adds children, each by its first byte.
fn grow(counters: &mut Conflict, children: &[u8]) -> Result<(), AllocError> {
    for child in children {
        counters.add(&first(*child))?;
    }
    Ok(())
}

// A poll with these votes.
fn poll(
    alloc: Global,
    counters: &mut Conflict,
    params: &Params,
    votes: &[(u8, u32)],
) -> Result<(), AllocError> {
    let mut bag = Bag::new(alloc);
    let added = add_all(&mut bag, votes);
    counters.poll(params, bag.entries());
    drop(bag);
    added
}

fn leads_to(counters: &Conflict, child: u8) -> bool {
    counters.leads_to::<Snowball>(&first(child))
}

fn decides(counters: &Conflict, child: u8) -> bool {
    counters.decides(&first(child))
}

// Whether two polls decide so. The first decides bit 0 alone, and a child with a 0 there adds no counter.
fn are_decided(
    alloc: Global,
    counters: &mut Conflict,
    params: &Params,
) -> Result<bool, AllocError> {
    grow(counters, &[0, 1, 3])?;
    let at_first = leads_to(counters, 0);
    poll(alloc, counters, params, &[(1, 2), (3, 2)])?;
    grow(counters, &[2])?;
    let between = leads_to(counters, 1) && !decides(counters, 1);
    poll(alloc, counters, params, &[(1, 4)])?;
    let at_last = decides(counters, 1) && !leads_to(counters, 3);
    Ok(at_first && between && at_last)
}

#[test]
fn decides_by_polls(rt: HostRuntime) -> Result<(), Fail> {
    let params = Params::check(4, 3, 3, 1, 1)?;
    let mut counters = Conflict::new(rt.alloc());
    let decided = are_decided(rt.alloc(), &mut counters, &params);
    drop(counters);
    assert!(rt; decided?);
    Ok(())
}
