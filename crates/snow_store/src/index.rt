ghost use Rattle.std.specs.Prelude.{◌≡◌, ◌^◌, ◌<◌, List, ◌∷◌, length, OnOk};
ghost use Rattle.snow_store.specs.declared.store.KeptBlock.{KeptBlock};
ghost use Rattle.snow_store.specs.Kept.Indexing.{HasPlaces, HasLinks, links_at, links_of, with_top, adopting, with_child, lower_height, higher_height, stray_height};

use snow_base::{Header, Id};
use snow_map::IdMap;
use std::alloc::AllocError;
use std::collections::BTreeMap;

/// The two lowest heights at which children of a block are kept.
/// Rule: this project's own.
#[derive(Clone, Copy)]
pub struct Children {
    /// The lowest height.
    pub lowest: u64,
    /// The lowest of the others, if there are others.
    pub second: Option<u64>,
}

/// At which heights an identifier's block is kept, and children of it.
/// Rule: this project's own.
#[derive(Clone, Copy)]
pub struct Links {
    /// The highest height at which it is kept, if it is.
    pub top: Option<u64>,
    /// The two lowest heights of its kept children, if there are any.
    pub children: Option<Children>,
}

// Nothing is kept of an identifier.
const NOTHING: Links = Links {
    top: None,
    children: None,
};

// The block that came at this place is found by its height.
pub(crate) fn note_place(
    places: &mut BTreeMap<u64, usize>,
    height: u64,
    place: usize,
) -> Result<(), AllocError>
    ensures noted { OnOk result ((kept : List KeptBlock) (b : KeptBlock) → b.header.height ≡ height → length kept ≡ place → HasPlaces places.old kept → HasPlaces places.new (b ∷ kept)) }
    ensures fits { height < 2 ^ 64 }
{
    places.insert(height, place)?;
    Ok(())
}

// What is kept of an identifier.
pub(crate) fn links_at(by_id: &IdMap<Links>, id: &Id) -> Links
    ensures { result ≡ links_at by_id.now id.now }
{
    match by_id.get(id) {
        Some(links) => *links,
        None => NOTHING,
    }
}

// The block is found by its identifier, of which this is kept before, and by its parent.
pub(crate) fn note_links(
    by_id: &mut IdMap<Links>,
    header: &Header,
    links: Links,
) -> Result<(), AllocError>
    ensures { OnOk result ((kept : List KeptBlock) (b : KeptBlock) → b.header ≡ header.now → links ≡ links_of kept header.now.id → HasLinks by_id.old kept → HasLinks by_id.new (b ∷ kept)) }
{
    by_id.insert(header.id, with_top(header.height, links))?;
    // The parent second, since it may be the block itself. Of most parents nothing is kept yet.
    let first = adopting(header.height, NOTHING);
    if let Some(parent) = by_id.insert(header.parent, first)? {
        by_id.insert(header.parent, adopting(header.height, parent))?;
    }
    Ok(())
}

// The highest height with one height more.
fn with_top(height: u64, links: Links) -> Links
    ensures { result ≡ with_top height links }
{
    Links {
        top: Some(higher(height, links.top)),
        children: links.children,
    }
}

// The two lowest heights of children with one child more.
fn adopting(height: u64, links: Links) -> Links
    ensures { result ≡ adopting height links }
{
    Links {
        top: links.top,
        children: Some(with_child(height, links.children)),
    }
}

// The two lowest heights with one height more.
fn with_child(height: u64, children: Option<Children>) -> Children
    ensures { result ≡ with_child height children }
{
    let Some(children) = children else {
        return Children {
            lowest: height,
            second: None,
        };
    };
    if height < children.lowest {
        return Children {
            lowest: height,
            second: Some(children.lowest),
        };
    }
    Children {
        lowest: children.lowest,
        second: Some(lower(height, children.second)),
    }
}

// The lower of a height and another, if there is one.
fn lower(height: u64, other: Option<u64>) -> u64
    ensures { result ≡ lower_height height other }
{
    match other {
        Some(other) if other < height => other,
        _ => height,
    }
}

// The lowest height at which a child is kept that isn't right above a height.
pub(crate) fn stray_height(height: u64, children: Option<Children>) -> Option<u64>
    ensures { result ≡ stray_height height children }
{
    let children = children?;
    if children.lowest > 0 && children.lowest - 1 == height {
        return children.second;
    }
    Some(children.lowest)
}

// The higher of a height and another, if there is one.
fn higher(height: u64, other: Option<u64>) -> u64
    ensures { result ≡ higher_height height other }
{
    match other {
        Some(other) if height < other => other,
        _ => height,
    }
}
