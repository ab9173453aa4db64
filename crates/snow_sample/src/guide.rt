ghost use Rattle.std.specs.Prelude.{◌≡◌, ℕ, ◌+◌, ◌^◌, ◌<◌, ◌≤◌, true, false, nat_le, length, slice_index_or, IfOk};
ghost use Rattle.std.specs.List.Sorted.{IsPartitionedBy, IsPartitionPoint};
ghost use Rattle.snow_sample.specs.Kept.Guide.{AreStarts, IsGuide};

use crate::weighing;
use std::alloc::{AllocError, Global};

// So many nodes at most are walked for a unit.
const LONGEST_WALK: usize = 8;

// Where the search for a unit's node begins. The units are cut into runs of 2^shift, about as many as
// there are nodes. For each run, and for the end of the last one, it has how many nodes end at its
// first unit or before.
#[derive(Debug, Drop)]
pub(crate) struct Guide {
    pub(crate) starts: Vec<u32>,
    pub(crate) shift: u32,
}

impl Guide {
    // The guide to these ends of nodes, for so many units.
    pub(crate) fn new(alloc: Global, ends: &[u64], units: u64) -> Result<Guide, AllocError>
        requires { units < 2 ^ 63 }
        ensures { IfOk result (λ guide. IsGuide ends.now units guide.starts.items guide.shift) }
    {
        let shift = shift_for(ends.len() as u64, units);
        let starts = starts_of(alloc, ends, (units >> shift) + 2, 1 << shift)?;
        Ok(Guide { starts, shift })
    }

    // How many of the ends, which never fall, are at most a unit. A few nodes are walked, and many
    // halved, since one run may have nearly all of them.
    pub(crate) fn place(&self, ends: &[u64], unit: u64) -> usize
        requires ends { IsPartitionedBy (λ end. nat_le end unit) ends.now }
        requires guide { IsGuide ends.now (unit + 1) self.now.starts.items self.now.shift }
        ensures within { result ≤ length ends.now }
        ensures place { IsPartitionPoint (λ end. nat_le end unit ≡ true) (λ end. nat_le end unit ≡ false) ends.now result }
    {
        let run = (unit >> self.shift) as usize;
        let start = self.starts[run] as usize;
        let next = self.starts[run + 1] as usize;
        if next > start + LONGEST_WALK {
            weighing::place_of(ends, unit)
        } else {
            skip(ends, start, unit)
        }
    }
}

// How many low bits of a unit its run has, so that there are at most two runs for each node.
fn shift_for(nodes: u64, units: u64) -> u32
    ensures { result < 64 }
{
    nodes.leading_zeros().saturating_sub(units.leading_zeros()) % 64
}

// For so many runs, each of so many units, how many nodes end at its first unit or before.
fn starts_of(alloc: Global, ends: &[u64], runs: u64, width: u64) -> Result<Vec<u32>, AllocError>
    ensures { IfOk result (λ starts. AreStarts ends.now width starts.items × (length starts.items ≡ runs)) }
{
    let mut starts = Vec::new(alloc);
    let mut at = 0;
    for run in 0..runs {
        at = skip(ends, at, run.saturating_mul(width));
        starts.push(at.min(u32::MAX as usize) as u32)?;
    }
    Ok(starts)
}

// The first place, from this one on, whose end is past a unit.
pub(crate) fn skip(ends: &[u64], start: usize, unit: u64) -> usize
    requires { start ≤ length ends.now }
    ensures within { result ≤ length ends.now }
    ensures passed { (i d : ℕ) → start ≤ i → i < result → slice_index_or ends.now i d ≤ unit }
    ensures stops { (d : ℕ) → result < length ends.now → unit < slice_index_or ends.now result d }
{
    let mut at = start;
    // (The first step is an addition: whether it is taken can't be guessed.)
    if let Some(end) = ends.get(at) {
        at += usize::from(*end <= unit);
    }
    while at < ends.len() && ends[at] <= unit {
        at += 1;
    }
    at
}
