ghost use Rattle.std.specs.Prelude.{◌≡◌, ℕ, ◌+◌, ◌<◌, ◌≤◌, true, false, ◌==◌, length, take, drop, nat_le, OnOk, OnErr};
ghost use Rattle.std.specs.List.Sorted.{IsPartitionPoint};
ghost use Rattle.snow_interval.specs.Model.Heights as heights;
ghost use Rattle.snow_interval.specs.Kept.Spans.{spanned, AreApart, IsFree, behind, front, HasGrown};

use crate::intervals::Span;
use std::alloc::AllocError;

// How many spans begin at a height or below it.
fn place_of(spans: &[Span], height: u64) -> usize
    requires { AreApart 1 spans.now }
    ensures within { result ≤ length spans.now }
    ensures place { IsPartitionPoint (λ s. nat_le s.low height ≡ true) (λ s. nat_le s.low height ≡ false) spans.now result }
{
    spans.partition_point(|span| span.low <= height)
}

// Whether a height is in one of the spans.
pub(crate) fn contains(spans: &[Span], height: u64) -> bool
    requires { AreApart 1 spans.now }
    ensures held { result ≡ spanned spans.now height }
    ensures above { (from : ℕ) → AreApart from spans.now → result ≡ true → from ≤ height }
{
    let place = place_of(spans, height);
    place > 0 && height <= spans[place - 1].high
}

// The lowest height of the span that a height is in.
pub(crate) fn lowest(spans: &[Span], height: u64) -> u64
    requires apart { AreApart 1 spans.now }
    requires held { spanned spans.now height ≡ true }
    ensures { result ≡ heights.lowest (spanned spans.now) height }
{
    spans[place_of(spans, height) - 1].low
}

// Puts one height more into the spans. After want of memory they are as before.
pub(crate) fn put(spans: &mut Vec<Span>, height: u64) -> Result<(), AllocError>
    requires above { 0 < height }
    requires apart { AreApart 1 spans.old.items }
    requires new { spanned spans.old.items height ≡ false }
    ensures ok { OnOk result (HasGrown spans.old.items spans.new.items height) }
    ensures err { OnErr result (spans.new.items ≡ spans.old.items) }
{
    let before = spans.as_slice();
    let place = place_of(before, height);
    let below = ends_below(before, place, height);
    let above = begins_above(before, place, height);
    match (below, above) {
        (true, true) => join(spans, place, height),
        (true, false) => end_at(spans, place, height),
        (false, true) => begin_at(spans, place, height),
        (false, false) => return put_alone(spans, place, height),
    }
    Ok(())
}

// Whether the span before a place ends right below a height.
fn ends_below(spans: &[Span], place: usize, height: u64) -> bool
    requires above { 0 < height }
    requires within { place ≤ length spans.now }
    ensures { result ≡ (behind 0 (take place spans.now) == height + 1) }
{
    place > 0 && spans[place - 1].high == height - 1
}

// Whether the span at a place begins right above a height.
fn begins_above(spans: &[Span], place: usize, height: u64) -> bool
    requires { IsPartitionPoint (λ s. nat_le s.low height ≡ true) (λ s. nat_le s.low height ≡ false) spans.now place }
    ensures { result ≡ (front (drop place spans.now) == height + 1) }
{
    place < spans.len() && spans[place].low - 1 == height
}

// The spans before and at a place become one, by the height between them.
fn join(spans: &mut Vec<Span>, place: usize, height: u64)
    requires apart { AreApart 1 spans.old.items }
    requires below { behind 0 (take place spans.old.items) ≡ height + 1 }
    requires above { front (drop place spans.old.items) ≡ height + 1 }
    ensures { HasGrown spans.old.items spans.new.items height }
{
    let above = spans.remove(place);
    spans[place - 1].high = above.high;
}

// The span before a place ends at the height above it.
fn end_at(spans: &mut Vec<Span>, place: usize, height: u64)
    requires within { place ≤ length spans.old.items }
    requires apart { AreApart 1 spans.old.items }
    requires below { behind 0 (take place spans.old.items) ≡ height + 1 }
    requires above { IsFree (drop place spans.old.items) height }
    ensures { HasGrown spans.old.items spans.new.items height }
{
    spans[place - 1].high = height;
}

// The span at a place begins at the height below it.
fn begin_at(spans: &mut Vec<Span>, place: usize, height: u64)
    requires apart { AreApart 1 spans.old.items }
    requires below { behind 0 (take place spans.old.items) ≤ height }
    requires above { front (drop place spans.old.items) ≡ height + 1 }
    ensures { HasGrown spans.old.items spans.new.items height }
{
    spans[place].low = height;
}

// A span of one height comes to a place.
fn put_alone(spans: &mut Vec<Span>, place: usize, height: u64) -> Result<(), AllocError>
    requires within { place ≤ length spans.old.items }
    requires below { behind 0 (take place spans.old.items) ≤ height }
    requires above { IsFree (drop place spans.old.items) height }
    ensures ok { OnOk result (HasGrown spans.old.items spans.new.items height) }
    ensures err { OnErr result (spans.new.items ≡ spans.old.items) }
{
    let span = Span {
        low: height,
        high: height,
    };
    spans.insert(place, span)?;
    Ok(())
}
