ghost use Rattle.std.specs.Prelude.{◌≡◌, ◌+◌, ◌≤◌, IfOk};
ghost use Rattle.snow_flake.specs.Model.Parameters.{AreGood};
ghost use Rattle.snow_sample.specs.Model.Sampling.{draw_count, AreOfDistinctNodes};
ghost use Rattle.snow_poll.specs.Kept.Tallied.{closes_by};
ghost use Rattle.snow_poll.specs.Laws.Completion.{EarlyClosingLaw};

use crate::room::Nodes;
use crate::tally;
use snow_base::{Bag, Id, NodeId};
use snow_flake::Params;
use snow_sample::Draws;
use std::alloc::{AllocError, Global};
use std::marker::Model;

/// A node's reply to a poll: the identifier for which it votes, or none.
/// Rule: AvalancheGo, snow/consensus/snowman/poll.
#[derive(Clone, Copy, Debug)]
pub struct Reply {
    /// The node.
    pub node: NodeId,
    /// What it votes for.
    pub id: Option<Id>,
}

/// A poll under way. Contracts see its number, its draws, and the replies in order of arrival.
///
/// The nodes that were drawn are kept with their counts, and are marked as they reply.
#[derive(Debug, Drop)]
pub(crate) struct Poll {
    number: u32,
    nodes: Box<Nodes>,
    votes: Bag,
    most: u32,
    outstanding: u32,
}

impl Model for Poll {
    ghost use Rattle.std.specs.Prelude.{map, vec_capacity};
    ghost use Rattle.snow_poll.specs.Model.Poll as model;
    ghost use Rattle.snow_poll.specs.Kept.Awaited.{counts_at, draw_of};
    ghost use Rattle.snow_poll.specs.Kept.Tallied.{IsKept};

    ghost Value = { model.Poll };

    ghost view = { λ a. record { number = a.number; draws = map draw_of a.nodes.value.awaited.waits.items; replies = a.nodes.value.replies.items } };

    ghost invariant = { λ a. IsKept (record { number = a.number; draws = map draw_of a.nodes.value.awaited.waits.items; replies = a.nodes.value.replies.items })
        (counts_at a.nodes.value.awaited.waits.items) a.votes a.most a.outstanding (vec_capacity a.nodes.value.replies) };
}

impl Poll {
    ghost use Rattle.snow_poll.specs.Model.Poll.{awaits, replied, votes_of, received, outstanding};
    ghost use Rattle.snow_poll.specs.Model.Closing.{is_closed};
    ghost use Rattle.snow_poll.specs.Model.Table.{new_poll};

    /// Returns a poll over these draws, without replies, in the room of one that left and of its
    /// votes. It makes what it will need beyond that.
    pub(crate) fn begin(
        alloc: Global,
        left: Option<Box<Nodes>>,
        mut votes: Bag,
        number: u32,
        draws: &Draws,
        outstanding: u32,
    ) -> Result<Poll, AllocError>
        requires count { draw_count draws.now ≡ outstanding }
        requires nodes { AreOfDistinctNodes draws.now }
        ensures { IfOk result (λ made. made ≡ new_poll number draws.now) }
    {
        let drawn = draws.list();
        votes.clear();
        votes.reserve(drawn.len())?;
        Ok(Poll {
            number,
            nodes: Nodes::of(alloc, left, drawn)?,
            votes,
            most: 0,
            outstanding,
        })
    }

    /// Returns its number.
    pub(crate) fn number(&self) -> u32
        ensures { result ≡ self.now.number }
    {
        self.number
    }

    /// Returns whether it awaits a reply of this node.
    pub(crate) fn awaits(&self, node: &NodeId) -> bool
        ensures { result ≡ awaits self.now node.now }
    {
        self.nodes.awaited.contains(node)
    }

    /// Counts the reply of a node, if it awaits one, and returns whether it did. Else nothing
    /// changes. It takes no memory.
    pub(crate) fn count(&mut self, node: &NodeId, id: &Option<Id>) -> bool
        ensures awaited { result ≡ awaits self.old node.now }
        ensures poll { self.new ≡ replied self.old node.now id.now }
    {
        let Some(times) = self.nodes.awaited.remove(node) else {
            return false;
        };
        self.outstanding -= times;
        self.most = tally::give(&mut self.votes, self.most, id, times);
        self.nodes.replies.push_reserved(Reply {
            node: *node,
            id: *id,
        });
        true
    }

    /// Returns whether it is closed, by one of the four cases.
    pub(crate) fn is_closed(&self, params: &Params) -> bool
        ensures closed { result ≡ is_closed params.now self.now }
        ensures good { AreGood params.now }
    {
        let reach = self.votes.total() + self.outstanding;
        closes(params, reach, self.outstanding, self.most)
    }

    /// Returns its votes. It leaves what it kept of its nodes for a poll that is begun later.
    pub(crate) fn into_votes(self, left: &mut Option<Box<Nodes>>) -> Bag
        ensures votes { result.list ≡ votes_of self }
        ensures within { received self + outstanding self ≤ draw_count self.draws }
    {
        let Poll { nodes, votes, .. } = self;
        *left = Some(nodes);
        votes
    }
}

// Whether a poll is closed. `reach` is how many votes were received or are outstanding,
// `outstanding` is how many are outstanding, and `most` is the most votes of one identifier.
fn closes(params: &Params, reach: u32, outstanding: u32, most: u32) -> bool
    ensures closed { result ≡ closes_by params.now reach outstanding most }
    ensures good { AreGood params.now }
{
    let preference = params.alpha_preference();
    let confidence = params.alpha_confidence();
    outstanding == 0
        || reach < preference
        || (preference <= most && reach < confidence)
        || confidence <= most
}

/// Early closing is exact: the votes of a poll that is closed in any of the four cases are alike to
/// those of each completion, whatever the nodes without a reply would still have given.
/// Rule: this project's own.
pub fn early_closing_law()
    ensures { EarlyClosingLaw }
{}
