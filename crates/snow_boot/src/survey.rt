ghost use Rattle.std.specs.Prelude.{◌≡◌, ◌<◌, ◌==◌, List, [], Some, IfOk, OnOk, length, map, not};
ghost use Rattle.std.specs.Option.{option_map};
ghost use Rattle.snow_sample.specs.Model.Roster.{total_weight};
ghost use Rattle.snow_boot.specs.Model.Booting.{asks, awaited_by};
ghost use Rattle.snow_sample.specs.declared.roster.Node.{Node};
ghost use Rattle.snow_boot.specs.Model.Electing.{awaits, still_awaited, collected, backed, majority};
ghost use Rattle.snow_boot.specs.Kept.Surveying.{HasWeights};
ghost use Rattle.snow_boot.specs.declared.question.Question.TheVariants as question;

use crate::candidates::{Candidates, each_once};
use crate::question::Question;
use snow_base::{Id, Ids, NodeId};
use snow_map::IdSet;
use snow_sample::{Node, Roster};
use std::alloc::{AllocError, Global};
use std::collections::BTreeMap;
use std::marker::Model;

/// What the node asks of all nodes, whose answer it awaits, and which identifiers they named, with
/// the weight that backs each.
#[derive(Drop)]
pub(crate) struct Survey {
    nodes: Vec<Node>,
    total: u64,
    question: Question,
    number: u32,
    awaited: BTreeMap<NodeId, u64>,
    candidates: Candidates,
    alloc: Global,
}

impl Model for Survey {
    ghost use Rattle.snow_boot.specs.Kept.BootCode.{coded_surveyed};
    ghost use Rattle.snow_boot.specs.Kept.Surveying.{Surveyed, surveyed, IsKnown};

    ghost Value = { Surveyed };

    ghost coded = { coded_surveyed };

    ghost view = { λ a. surveyed a.nodes.items a.question a.number a.awaited a.candidates };

    ghost invariant = { λ a. IsKnown a.nodes.items a.question a.number a.awaited a.candidates a.total };
}

impl Survey {
    /// Returns the survey that asks nothing yet. On want of memory it returns `AllocError`.
    pub(crate) fn begin(alloc: Global, roster: &Roster) -> Result<Self, AllocError>
        ensures { IfOk result (λ made. made ≡ record { nodes = roster.now; question = question.Nothing; number = 0; awaited = []; candidates = [] }) }
    {
        let total = roster.total();
        let nodes = Vec::from_slice(alloc, roster.nodes())?;
        Ok(Survey {
            nodes,
            total,
            question: Question::Nothing,
            number: 0,
            awaited: BTreeMap::new(alloc),
            candidates: Candidates::new(alloc),
            alloc,
        })
    }

    /// Returns the nodes, of which there is at least one.
    pub(crate) fn nodes(&self) -> &[Node]
        ensures nodes { result.now ≡ self.now.nodes }
        ensures some { 0 < length result.now }
    {
        self.nodes.as_slice()
    }

    /// Returns what the node asks of all nodes.
    pub(crate) fn question(&self) -> Question
        ensures { result ≡ self.now.question }
    {
        self.question
    }

    /// Returns the allocator.
    pub(crate) fn alloc(&self) -> Global {
        self.alloc
    }

    /// Returns whether any identifier was named.
    pub(crate) fn has_named(&self) -> bool
        ensures { result ≡ not (length self.now.candidates == 0) }
    {
        !self.candidates.is_empty()
    }

    /// Returns whether it awaits no node's answer.
    pub(crate) fn is_heard(&self) -> bool
        ensures { result ≡ (length self.now.awaited == 0) }
    {
        is_none(&self.awaited)
    }

    /// Returns the weight of a node whose answer to this question with this number it awaits, or
    /// `None`.
    pub(crate) fn awaits(&self, question: Question, number: u32, node: &NodeId) -> Option<u64>
        ensures { result ≡ option_map (λ n. n.weight) (awaited_by self.now.question self.now.number self.now.awaited question number node.now) }
    {
        if !asks(self.question, question) || self.number != number {
            return None;
        }
        self.awaited.get(node).copied()
    }

    /// Asks all nodes for their frontier, and forgets what it collected.
    pub(crate) fn await_frontier(&mut self, number: u32) -> Result<(), AllocError>
        ensures { OnOk result (self.new ≡ record { nodes = self.old.nodes; question = question.Frontier; number = number; awaited = self.old.nodes; candidates = [] }) }
    {
        let awaited = weights_of(self.alloc, self.nodes.as_slice())?;
        self.awaited = awaited;
        self.candidates = Candidates::new(self.alloc);
        self.question = Question::Frontier;
        self.number = number;
        Ok(())
    }

    /// Asks all nodes which of the collected identifiers they hold accepted.
    pub(crate) fn await_accepted(&mut self, number: u32) -> Result<(), AllocError>
        requires { self.old.question ≡ question.Frontier }
        ensures { OnOk result (self.new ≡ record { nodes = self.old.nodes; question = question.Accepted; number = number; awaited = self.old.nodes; candidates = self.old.candidates }) }
    {
        let awaited = weights_of(self.alloc, self.nodes.as_slice())?;
        self.awaited = awaited;
        self.question = Question::Accepted;
        self.number = number;
        Ok(())
    }

    /// Asks nothing any more, as the targets are known.
    pub(crate) fn close(&mut self)
        ensures { self.new ≡ record { nodes = self.old.nodes; question = question.Nothing; number = self.old.number; awaited = []; candidates = self.old.candidates } }
    {
        self.question = Question::Nothing;
        self.awaited.clear();
    }

    /// Notes that a node has answered, and names nothing.
    pub(crate) fn hear(&mut self, node: &NodeId)
        ensures { self.new ≡ record { nodes = self.old.nodes; question = self.old.question; number = self.old.number; awaited = still_awaited self.old.awaited node.now; candidates = self.old.candidates } }
    {
        let _ = self.awaited.remove(node);
    }

    /// Notes the frontier that a node has named.
    pub(crate) fn collect(&mut self, node: &NodeId, id: Id) -> Result<(), AllocError>
        ensures { OnOk result (self.new ≡ record { nodes = self.old.nodes; question = self.old.question; number = self.old.number; awaited = still_awaited self.old.awaited node.now; candidates = collected self.old.candidates id }) }
    {
        self.candidates.collect(id)?;
        let _ = self.awaited.remove(node);
        Ok(())
    }

    /// Notes what a node of this weight holds accepted.
    pub(crate) fn back(&mut self, node: &NodeId, weight: u64, ids: &Ids) -> Result<(), AllocError>
        requires awaited { Some weight ≡ option_map (λ n. n.weight) (awaits self.old.awaited node.now) }
        requires asked { self.old.question ≡ question.Accepted }
        ensures { OnOk result (self.new ≡ record { nodes = self.old.nodes; question = self.old.question; number = self.old.number; awaited = still_awaited self.old.awaited node.now; candidates = backed weight ids.now self.old.candidates }) }
    {
        let named = each_once(self.alloc, ids.list())?;
        self.candidates.back(weight, &named);
        let _ = self.awaited.remove(node);
        Ok(())
    }

    /// Returns the identifiers that nodes named, in order.
    pub(crate) fn named(&self) -> Result<Ids, AllocError>
        ensures { IfOk result (λ ids. ids ≡ map (λ c. c.id) self.now.candidates) }
    {
        let ids = Ids::from_slice(self.alloc, self.candidates.ids())?;
        Ok(ids)
    }

    /// Returns the identifiers that more than half of the weight backs, in order.
    pub(crate) fn majority(&self) -> Result<IdSet, AllocError>
        ensures { IfOk result (λ ids. ids ≡ majority (total_weight self.now.nodes) self.now.candidates) }
    {
        self.candidates.elect(self.alloc, self.total)
    }
}

// Whether the nodes are asked this question.
fn asks(question: Question, other: Question) -> bool
    ensures { result ≡ asks question other }
{
    match (question, other) {
        (Question::Frontier, Question::Frontier) | (Question::Accepted, Question::Accepted) => true,
        _ => false,
    }
}

// The weight of each of these nodes. The last comes first, so that of two with one identifier the first
// counts.
fn weights_of(alloc: Global, nodes: &[Node]) -> Result<BTreeMap<NodeId, u64>, AllocError>
    ensures { IfOk result (λ made. HasWeights made nodes.now) }
{
    let mut weights = BTreeMap::new(alloc);
    let mut at = nodes.len();
    while at > 0 {
        at -= 1;
        let node = nodes[at];
        weights.insert(node.id, node.weight)?;
    }
    Ok(weights)
}

// Whether none of the nodes is there whose weights these are.
fn is_none(weights: &BTreeMap<NodeId, u64>) -> bool
    ensures { (nodes : List Node) → HasWeights weights.now nodes → result ≡ (length nodes == 0) }
{
    match weights.first_key_value() {
        Some(_) => false,
        None => true,
    }
}
