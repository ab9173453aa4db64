ghost use Rattle.std.specs.Prelude.{◌≡◌, ◌^◌, ◌<◌, None, length, slice_index_or};
ghost use Rattle.snow_sample.specs.declared.roster.Node.{Node};
ghost use Rattle.snow_sample.specs.Model.Roster.{total_weight, first_fault, IsRosterOf, owner};

use crate::guide::Guide;
use crate::weighing;
use snow_base::NodeId;
use std::alloc::{AllocError, Global};
use std::marker::Model;
use thiserror::Error;

/// A node of 20 bytes, and its weight: how many units it has, below 2^64. A roster takes no node of
/// weight 0.
/// Rule: AvalancheGo, utils/sampler.
#[derive(Clone, Copy, Debug, PartialEq, Eq)]
pub struct Node {
    /// The node.
    pub id: NodeId,
    /// Its units of weight.
    pub weight: u64,
}

/// Why `Roster::new` refuses nodes. Where more than one holds, it returns the first in this order;
/// `Memory` may come instead of each answer.
/// Rule: this project's own.
#[derive(Clone, Copy, Debug, PartialEq, Eq, Error)]
pub enum RosterFault {
    #[error("there is no node")]
    Empty,
    #[error("a node stands twice")]
    Duplicate { node: NodeId },
    #[error("a node has no weight")]
    ZeroWeight { node: NodeId },
    #[error("the weights come to more than 9,223,372,036,854,775,807")]
    TooHeavy,
    #[error("no memory")]
    Memory,
}

impl From<AllocError> for RosterFault {
    ghost use Rattle.std.specs.Prelude.{◌≡◌};
    ghost use Rattle.snow_sample.specs.declared.roster.RosterFault.TheVariants.{Memory};

    ghost from_gives = { λ _ fault. fault ≡ Memory };

    fn from(_: AllocError) -> Self {
        RosterFault::Memory
    }
}

/// Nodes that are sampled by weight: at least one, no two the same, each with a weight of at least
/// 1, and at most 2^63-1 units in all. Contracts see the list of the nodes.
/// Rule: AvalancheGo, utils/sampler.
#[derive(Debug, Drop)]
pub struct Roster {
    nodes: Vec<Node>,
    ends: Vec<u64>,
    guide: Guide,
    total: u64,
}

impl Model for Roster {
    ghost use Rattle.std.specs.Prelude.{List};
    ghost use Rattle.snow_sample.specs.declared.roster.Node.{Node};
    ghost use Rattle.snow_sample.specs.Kept.Guide.{IsGuide};
    ghost use Rattle.snow_sample.specs.Model.Roster.{IsRoster};

    ghost Value = { List Node };

    ghost view = { λ a. a.nodes.items };

    ghost invariant = { λ a. IsRoster a.nodes.items a.ends.items a.total
        × IsGuide a.ends.items a.total a.guide.starts.items a.guide.shift };
}

impl Roster {
    /// Returns the roster of these nodes, in their order, or the first fault that holds. `Empty`
    /// comes where there is no node. `Duplicate` names the first node that stands earlier too.
    /// `ZeroWeight` names the first node of weight 0. `TooHeavy` comes where the weights add up to
    /// 2^63 or more. On want of memory it returns `Memory`.
    /// Rule: this project's own.
    pub fn new(alloc: Global, nodes: &[Node]) -> Result<Roster, RosterFault>
        ensures { IsRosterOf nodes.now result }
    {
        if nodes.is_empty() {
            return Err(RosterFault::Empty);
        }
        if let Some(node) = weighing::find_repeated(alloc, nodes)? {
            return Err(RosterFault::Duplicate { node });
        }
        if let Some(node) = weighing::find_weightless(nodes) {
            return Err(RosterFault::ZeroWeight { node });
        }
        let Some(total) = weighing::total_of(nodes) else {
            return Err(RosterFault::TooHeavy);
        };
        let ends = weighing::ends_of(alloc, nodes)?;
        let guide = Guide::new(alloc, ends.as_slice(), total)?;
        let nodes = Vec::from_slice(alloc, nodes)?;
        Ok(Roster {
            nodes,
            ends,
            guide,
            total,
        })
    }

    /// Returns how many units of weight there are in all, from 1 to 2^63-1.
    /// Rule: AvalancheGo, utils/sampler.
    pub fn total(&self) -> u64
        ensures total { result ≡ total_weight self.now }
        ensures small { result < 2 ^ 63 }
    {
        self.total
    }

    /// Returns the nodes, in the order in which they were given. None of the faults of
    /// `RosterFault` holds of them.
    /// Rule: AvalancheGo, utils/sampler.
    pub fn nodes(&self) -> &[Node]
        ensures nodes { result.now ≡ self.now }
        ensures good { first_fault result.now ≡ None }
    {
        self.nodes.as_slice()
    }

    // The place of the node that has a unit.
    pub(crate) fn place(&self, unit: u64) -> usize
        requires { unit < total_weight self.now }
        ensures within { result < length self.now }
        ensures owner { (n : Node) → (slice_index_or self.now result n).id ≡ owner self.now unit }
    {
        self.guide.place(self.ends.as_slice(), unit)
    }
}
