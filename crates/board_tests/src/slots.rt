//! Blocks whose identifiers are alike where a look-up looks first, so that one gives way to another.
use crate::tools::alike;
use crate::tree::{issue, promote};
use snow_tree::Tree;
use std::alloc::{AllocError, Global};
use std::test::Fail;

fn offer(tree: &mut Tree<u16>, number: u16, parent: u16) -> Result<(), AllocError> {
    issue(tree, alike(number), alike(parent), number)
}

fn accept(tree: &mut Tree<u16>, number: u16) -> bool {
    promote(tree, &alike(number)) == Some(number)
}

fn takes_back(tree: &mut Tree<u16>, number: u16) -> bool {
    tree.take_back() == Some(number)
}

// A tree above the block 0 with these blocks, each beside its parent.
fn grown(alloc: Global, blocks: &[(u16, u16)]) -> Result<Tree<u16>, AllocError> {
    let mut tree = Tree::new(alloc, alike(0), 0);
    for (number, parent) in blocks {
        offer(&mut tree, *number, *parent)?;
    }
    Ok(tree)
}

// Whether the block of a number is found at a place, by each look-up.
fn is_at(tree: &Tree<u16>, number: u16, place: usize) -> bool {
    let header = tree.header_of(&alike(number));
    tree.place_of(&alike(number)) == Some(place)
        && header.map(|header| header.height) == Some(u64::from(number))
}

// Whether just these blocks of the first eight are found, each at its place.
fn are(tree: &Tree<u16>, numbers: &[u16]) -> bool {
    for (place, number) in numbers.iter().enumerate() {
        if !is_at(tree, *number, place) {
            return false;
        }
    }
    numbers.len() == found(tree)
}

// How many of the first eight are found.
fn found(tree: &Tree<u16>) -> usize {
    let mut count = 0usize;
    for number in 0..8 {
        if tree.place_of(&alike(number)).is_some() && tree.header_of(&alike(number)).is_some() {
            count = count.saturating_add(1);
        }
    }
    count
}

// A chain of which all but the latest give way.
const CHAIN: [(u16, u16); 4] = [(1, 0), (2, 1), (3, 2), (4, 3)];

// Whether the latest is taken back, and comes again.
fn comes_again(tree: &mut Tree<u16>) -> bool {
    takes_back(tree, 4)
        && are(tree, &[1, 2, 3])
        && offer(tree, 4, 3).is_ok()
        && are(tree, &[1, 2, 3, 4])
}

// Whether the last two are taken back, and another comes in their stead.
fn another_comes(tree: &mut Tree<u16>) -> bool {
    takes_back(tree, 4) && takes_back(tree, 3) && offer(tree, 5, 2).is_ok() && are(tree, &[1, 2, 5])
}

// Whether the first leave, one after another, those that gave way and the one that didn't.
fn leave(tree: &mut Tree<u16>) -> bool {
    accept(tree, 1)
        && are(tree, &[2, 5])
        && accept(tree, 2)
        && are(tree, &[5])
        && accept(tree, 5)
        && are(tree, &[])
        && offer(tree, 1, 5).is_ok()
        && are(tree, &[1])
}

#[test]
fn give_way(rt: HostRuntime) -> Result<(), Fail> {
    let mut tree = grown(rt.alloc(), &CHAIN)?;
    assert!(rt; are(&tree, &[1, 2, 3, 4]));
    assert!(rt; comes_again(&mut tree) && another_comes(&mut tree) && leave(&mut tree));
    drop(tree);
    Ok(())
}

// Two branches. The blocks of the first stay, and are given other numbers: they gave way, but for the latest.
const FIRST_STAYS: [(u16, u16); 6] = [(1, 0), (2, 0), (3, 1), (4, 2), (5, 3), (6, 1)];

// And so that none of those that stay is told its number.
const SECOND_LATER: [(u16, u16); 5] = [(1, 0), (3, 1), (5, 3), (2, 0), (4, 2)];

// Whether the first branch is accepted, and goes on.
fn goes_on(tree: &mut Tree<u16>, left: &[u16], all: &[u16]) -> bool {
    accept(tree, 1) && are(tree, left) && offer(tree, 7, 5).is_ok() && are(tree, all)
}

#[test]
fn are_renumbered(rt: HostRuntime) -> Result<(), Fail> {
    let mut tree = grown(rt.alloc(), &FIRST_STAYS)?;
    assert!(rt; goes_on(&mut tree, &[3, 5, 6], &[3, 5, 6, 7]));
    drop(tree);
    let mut other = grown(rt.alloc(), &SECOND_LATER)?;
    assert!(rt; goes_on(&mut other, &[3, 5], &[3, 5, 7]));
    drop(other);
    Ok(())
}
