ghost use Rattle.std.specs.Prelude.{◌≡◌, ◌^◌, ◌<◌, ◌≤◌, [], length, map, vec_capacity, OnOk, IfOk};
ghost use Rattle.snow_sample.specs.Model.Sampling.{AreOfDistinctNodes};
ghost use Rattle.snow_poll.specs.Kept.Awaited.{counts_at, draw_of};
ghost use Rattle.snow_poll.specs.Kept.Tallied.{HasTimes};

use crate::awaited::Awaited;
use crate::poll::Reply;
use snow_sample::Draw;
use std::alloc::{AllocError, Global};

// What a poll keeps of its nodes: those that were drawn, and the replies. That of a poll which left is
// begun anew by a later one, in its place and in its room.
#[derive(Debug, Drop)]
pub(crate) struct Nodes {
    pub(crate) replies: Vec<Reply>,
    pub(crate) awaited: Awaited,
}

impl Nodes {
    // Those of these draws, without replies, for each of which there is room. They are begun anew where
    // a poll left some.
    pub(crate) fn of(
        alloc: Global,
        left: Option<Box<Nodes>>,
        draws: &[Draw],
    ) -> Result<Box<Nodes>, AllocError>
        requires nodes { AreOfDistinctNodes draws.now }
        requires few { length draws.now < 2 ^ 32 }
        ensures times { IfOk result (λ nodes. HasTimes (counts_at nodes.value.awaited.waits.items) draws.now) }
        ensures drawn { IfOk result (λ nodes. map draw_of nodes.value.awaited.waits.items ≡ draws.now) }
        ensures replies { IfOk result (λ nodes. nodes.value.replies.items ≡ []) }
        ensures room { IfOk result (λ nodes. length draws.now ≤ vec_capacity nodes.value.replies) }
    {
        let mut nodes = match left {
            Some(nodes) => nodes,
            None => Nodes::new(alloc)?,
        };
        nodes.begin(alloc, draws)?;
        Ok(nodes)
    }

    // None, and room for none.
    fn new(alloc: Global) -> Result<Box<Nodes>, AllocError> {
        let replies = Vec::new(alloc);
        let awaited = Awaited::new(alloc, 0)?;
        Ok(Box::new(alloc, Nodes { replies, awaited })?)
    }

    // Forgets all nodes, and takes those of these draws. Room is made for a power of two of them, so that a
    // later poll of a few nodes more needs no other.
    fn begin(&mut self, alloc: Global, draws: &[Draw]) -> Result<(), AllocError>
        requires nodes { AreOfDistinctNodes draws.now }
        requires few { length draws.now < 2 ^ 32 }
        ensures times { OnOk result (HasTimes (counts_at self.new.awaited.waits.items) draws.now) }
        ensures drawn { OnOk result (map draw_of self.new.awaited.waits.items ≡ draws.now) }
        ensures replies { OnOk result (self.new.replies.items ≡ []) }
        ensures room { OnOk result (length draws.now ≤ vec_capacity self.new.replies) }
    {
        let room = draws.len().next_power_of_two();
        self.replies.clear();
        self.replies.reserve(room)?;
        if !self.awaited.fits(draws.len()) {
            self.awaited.grow(alloc, room)?;
        }
        self.awaited.clear();
        self.awaited.await_all(alloc, draws)
    }
}
