use crate::tools::named;
use snow_base::Id;
use snow_tree::Tree;
use std::alloc::{AllocError, Global};
use std::test::Fail;

// Issues a block, with a number as its height and its load, where that may be.
pub(crate) fn issue(
    tree: &mut Tree<u16>,
    id: Id,
    parent: Id,
    number: u16,
) -> Result<(), AllocError> {
    if tree.last() == id || tree.place_of(&id).is_some() {
        return Ok(());
    }
    if tree.last() != parent && tree.place_of(&parent).is_none() {
        return Ok(());
    }
    let at = tree.place_of(&parent);
    match tree.insert(id, parent, at, u64::from(number), number) {
        Ok(()) => Ok(()),
        Err(_) => Err(AllocError),
    }
}

// Accepts a block, and answers its load, where that may be.
pub(crate) fn promote(tree: &mut Tree<u16>, id: &Id) -> Option<u16> {
    let header = tree.header_of(id)?;
    if header.parent != tree.last() {
        return None;
    }
    let mut load = 0;
    tree.promote(id, &mut load);
    Some(load)
}

// The same by numbers.
fn offer(tree: &mut Tree<u16>, number: u16, parent: u16) -> Result<(), AllocError> {
    issue(tree, named(number), named(parent), number)
}

fn accept(tree: &mut Tree<u16>, number: u16) -> Option<u16> {
    promote(tree, &named(number))
}

// A tree above the block 0 with these blocks, each beside its parent.
fn grown(alloc: Global, blocks: &[(u16, u16)]) -> Result<Tree<u16>, AllocError> {
    let mut tree = Tree::new(alloc, named(0), 0);
    for (number, parent) in blocks {
        offer(&mut tree, *number, *parent)?;
    }
    Ok(tree)
}

// Two children of the last accepted block, 1 and 2, that have descendants each.
const BRANCHES: [(u16, u16); 6] = [(1, 0), (2, 0), (3, 1), (4, 2), (5, 3), (6, 1)];

// Whether these are the blocks of these numbers, in order.
fn are(ids: &[Id], numbers: &[u16]) -> bool {
    for (id, number) in ids.iter().zip(numbers) {
        if *id != named(*number) {
            return false;
        }
    }
    ids.len() == numbers.len()
}

fn has_children(tree: &Tree<u16>, number: u16, children: &[u16]) -> bool {
    are(tree.child_ids(&named(number)), children)
}

// Whether a child of the last accepted block stands below another.
fn is_below(tree: &Tree<u16>, child: u16, number: u16) -> bool {
    tree.ancestor(&named(number)) == Some(named(child))
}

// Whether the block of a number stands at a place.
fn is_at(tree: &Tree<u16>, place: usize, number: u16) -> bool {
    tree.at(place) == Some(named(number)) && tree.place_of(&named(number)) == Some(place)
}

fn parent_place(tree: &Tree<u16>, place: usize) -> Option<usize> {
    tree.parent_place(place)
}

fn load(tree: &Tree<u16>, place: usize) -> Option<u16> {
    tree.load(place).copied()
}

fn set_load(tree: &mut Tree<u16>, place: usize, to: u16) {
    if let Some(load) = tree.load_mut(place) {
        *load = to;
    }
}

fn take_back(tree: &mut Tree<u16>) -> Option<u16> {
    tree.take_back()
}

// Whether the branches are found so.
fn are_found(tree: &Tree<u16>) -> bool {
    tree.len() == 6
        && tree.at(6).is_none()
        && is_at(tree, 3, 4)
        && load(tree, 4) == Some(5)
        && has_children(tree, 0, &[1, 2])
        && has_children(tree, 1, &[3, 6])
        && has_children(tree, 7, &[])
}

// Whether what stands above them is.
fn are_placed(tree: &Tree<u16>) -> bool {
    is_below(tree, 1, 5) && parent_place(tree, 2) == Some(0) && parent_place(tree, 0).is_none()
}

#[test]
fn looks_up(rt: HostRuntime) -> Result<(), Fail> {
    let tree = grown(rt.alloc(), &BRANCHES)?;
    assert!(rt; are_found(&tree) && are_placed(&tree));
    drop(tree);
    Ok(())
}

// Whether block 1 is the last accepted one, of height 1, and these were rejected with it.
fn is_promoted(tree: &Tree<u16>, rejected: &[u16]) -> bool {
    tree.last() == named(1) && tree.last_height() == 1 && are(tree.rejected(), rejected)
}

// Whether the first branch is accepted, and the second rejected.
fn promotes_first(tree: &mut Tree<u16>) -> bool {
    accept(tree, 3).is_none()
        && accept(tree, 1) == Some(1)
        && is_promoted(tree, &[2, 4])
        && tree.len() == 3
        && is_at(tree, 2, 6)
        && parent_place(tree, 1) == Some(0)
}

// Whether nothing is rejected any more once a block more came.
fn goes_on(tree: &mut Tree<u16>) -> bool {
    offer(tree, 7, 6).is_ok() && is_promoted(tree, &[]) && is_below(tree, 6, 7)
}

#[test]
fn promotes(rt: HostRuntime) -> Result<(), Fail> {
    let mut tree = grown(rt.alloc(), &BRANCHES)?;
    assert!(rt; promotes_first(&mut tree) && goes_on(&mut tree));
    drop(tree);
    Ok(())
}

// The same branches, of blocks whose identifiers differ where a look-up looks first.
const APART: [(u16, u16); 6] = [
    (256, 0),
    (512, 0),
    (768, 256),
    (1024, 512),
    (1280, 768),
    (1536, 256),
];

// Whether a block stands at a place, and its parent so.
fn stands(tree: &Tree<u16>, number: u16, at: usize, parent: Option<usize>) -> bool {
    tree.place_of(&named(number)) == Some(at) && tree.parent_place(at) == parent
}

// Whether the branches stand, and a block that isn't there doesn't.
fn all_stand(tree: &Tree<u16>) -> bool {
    stands(tree, 256, 0, None)
        && stands(tree, 768, 2, Some(0))
        && stands(tree, 1280, 4, Some(2))
        && tree.place_of(&named(1792)).is_none()
}

// Whether those that stay do, once the second branch is rejected.
fn some_stand(tree: &mut Tree<u16>) -> bool {
    accept(tree, 256) == Some(256)
        && stands(tree, 768, 0, None)
        && stands(tree, 1280, 1, Some(0))
        && tree.place_of(&named(512)).is_none()
}

#[test]
fn places(rt: HostRuntime) -> Result<(), Fail> {
    let mut tree = grown(rt.alloc(), &APART)?;
    assert!(rt; all_stand(&tree) && some_stand(&mut tree));
    drop(tree);
    Ok(())
}

// Whether the latest block is taken back, and then, between blocks that are accepted, the one before it.
fn takes_two_back(tree: &mut Tree<u16>) -> bool {
    let latest = take_back(tree) == Some(6) && has_children(tree, 1, &[3]);
    set_load(tree, 0, 9);
    latest
        && accept(tree, 1) == Some(9)
        && accept(tree, 3) == Some(3)
        && take_back(tree) == Some(5)
        && take_back(tree).is_none()
}

#[test]
fn takes_back(rt: HostRuntime) -> Result<(), Fail> {
    let mut tree = grown(rt.alloc(), &BRANCHES)?;
    assert!(rt; takes_two_back(&mut tree));
    drop(tree);
    Ok(())
}

// Issues a chain of so many blocks, each with the next number.
fn chain(tree: &mut Tree<u16>, len: u16) -> Result<(), AllocError> {
    for number in 0..len {
        offer(tree, number + 1, number)?;
    }
    Ok(())
}

// How many of them are accepted, one after the other.
fn accepted(tree: &mut Tree<u16>, len: u16) -> u16 {
    let mut count = 0u16;
    for number in 0..len {
        if accept(tree, number + 1).is_some() {
            count = count.saturating_add(1);
        }
    }
    count
}

#[test]
fn a_long_chain(rt: HostRuntime) {
    let mut tree = Tree::new(rt.alloc(), named(0), 0);
    assert!(rt; chain(&mut tree, 4096).is_ok() && accepted(&mut tree, 4096) == 4096);
    drop(tree);
}
