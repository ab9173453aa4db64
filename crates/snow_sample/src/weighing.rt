ghost use Rattle.std.specs.Prelude.{◌≡◌, ◌≤◌, ◌<◌, ◌^◌, ◌-◌, true, false, Some, None, IfOk, length, nat_le, nat_lt, if◌then◌else◌};
ghost use Rattle.std.specs.List.Sorted.{IsPartitionedBy, IsPartitionPoint};
ghost use Rattle.snow_sample.specs.Model.Roster.{total_weight, first_repeated, first_weightless, ends_from};

use crate::roster::Node;
use snow_base::NodeId;
use snow_base::limits::MOST_WEIGHT;
use std::alloc::{AllocError, Global};
use std::collections::BTreeSet;

// The first node that stands earlier too.
pub(crate) fn find_repeated(alloc: Global, nodes: &[Node]) -> Result<Option<NodeId>, AllocError>
    ensures { IfOk result (λ found. found ≡ first_repeated nodes.now) }
{
    let mut earlier = BTreeSet::new(alloc);
    for node in nodes {
        if !earlier.insert(node.id)? {
            return Ok(Some(node.id));
        }
    }
    Ok(None)
}

// The first node without weight.
pub(crate) fn find_weightless(nodes: &[Node]) -> Option<NodeId>
    ensures { result ≡ first_weightless nodes.now }
{
    nodes
        .iter()
        .find(|node| node.weight == 0)
        .map(|node| node.id)
}

// How many units there are, where a roster may have so many.
pub(crate) fn total_of(nodes: &[Node]) -> Option<u64>
    ensures { let total = total_weight nodes.now in
        result ≡ (if nat_lt (2 ^ 63 - 1) total then None else Some total) }
{
    let mut total = 0;
    for node in nodes {
        if node.weight > MOST_WEIGHT - total {
            return None;
        }
        total += node.weight;
    }
    Some(total)
}

// Where each node's units end.
pub(crate) fn ends_of(alloc: Global, nodes: &[Node]) -> Result<Vec<u64>, AllocError>
    requires { total_weight nodes.now < 2 ^ 63 }
    ensures { IfOk result (λ ends. ends.items ≡ ends_from 0 nodes.now) }
{
    let mut ends = Vec::with_capacity(alloc, nodes.len())?;
    let mut end = 0;
    for node in nodes {
        end += node.weight;
        ends.push(end)?;
    }
    Ok(ends)
}

// How many of these ends, which never fall, are at most a unit.
pub(crate) fn place_of(ends: &[u64], unit: u64) -> usize
    requires { IsPartitionedBy (λ end. nat_le end unit) ends.now }
    ensures within { result ≤ length ends.now }
    ensures place { IsPartitionPoint (λ end. nat_le end unit ≡ true) (λ end. nat_le end unit ≡ false) ends.now result }
{
    ends.partition_point(|end| *end <= unit)
}
