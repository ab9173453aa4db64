ghost use Rattle.std.specs.Prelude.{◌≡◌, ◌==◌, fold, if◌then◌else◌, OnOk};
ghost use Rattle.snow_drill.specs.Model.Drill as model;
ghost use Rattle.snow_drill.specs.Model.Made.{newest};
ghost use Rattle.snow_drill.specs.Kept.Following.{Follows};

use crate::driven::Driven;
use crate::player::Player;
use crate::tally::Asked;
use snow_base::{Header, Id, NodeId};
use snow_wire::{Named, View};
use std::alloc::AllocError;

impl<E: Driven> Player<E> {
    /// Makes an event of so many random words. On want of memory it returns `AllocError`.
    /// Rule: this project's own.
    pub fn words(&mut self, n: u32) -> Result<(), AllocError>
        ensures { OnOk result (Follows self.old self.new (λ d. model.with_words E.step n d)) }
    {
        let words = self.generator.values(self.alloc, n)?;
        self.make(View::Words(&words))
    }

    // A node's vote in the poll of a number.
    fn vote(&mut self, number: u32, node: &NodeId) -> Result<(), AllocError>
        ensures { OnOk result (Follows self.old self.new (λ d. model.with_vote E.step number d node.now)) }
    {
        let picked = self.generator.pick(16);
        let id = voted(self.made.list(), &self.account.tally.tip(), picked);
        self.make(View::Chits(Named {
            node: node.as_bytes(),
            request: number,
            id: id.as_bytes(),
        }))
    }

    // The votes of nodes in the poll of a number, one after another.
    fn vote_all(&mut self, number: u32, nodes: &[NodeId]) -> Result<(), AllocError>
        ensures { OnOk result (Follows self.old self.new (λ d. fold (model.with_vote E.step number) d nodes.now)) }
    {
        for node in nodes {
            self.vote(number, node)?;
        }
        Ok(())
    }

    // The votes of all nodes of a query.
    fn votes(&mut self, query: &Asked) -> Result<(), AllocError>
        ensures { OnOk result (Follows self.old self.new (λ d.
            fold (model.with_vote E.step query.now.number) (model.with_words E.step 20 d) query.now.nodes)) }
    {
        self.words(20)?;
        self.vote_all(query.number, query.nodes.list())
    }

    /// Answers the oldest query that isn't answered. Where there is none it does nothing. On want
    /// of memory it returns `AllocError`.
    /// Rule: this project's own.
    #[tactic(auto, unfolding(crate::specs::Model::Drill::with_answer))]
    pub fn answer(&mut self) -> Result<(), AllocError>
        ensures { OnOk result (Follows self.old self.new (λ d. model.with_answer E.step d)) }
    {
        match self.account.tally.take()? {
            None => Ok(()),
            Some(query) => self.votes(&query),
        }
    }

    /// Answers so many queries, one after another, as `answer` does. On want of memory it returns
    /// `AllocError`.
    /// Rule: this project's own.
    #[tactic(auto, unfolding(crate::specs::Model::Drill::with_answers))]
    pub fn answers(&mut self, times: u64) -> Result<(), AllocError>
        ensures { OnOk result (Follows self.old self.new (λ d. model.with_answers times E.step d)) }
    {
        for _ in 0..times {
            self.answer()?;
        }
        Ok(())
    }
}

// The block that a node votes for.
fn voted(made: &[Header], tip: &Id, picked: u64) -> Id
    ensures { result ≡ (if picked == 0 then newest made.now else tip.now) }
{
    if picked != 0 {
        return *tip;
    }
    match made.last() {
        Some(block) => block.id,
        None => Id::from_bytes([0; 32]),
    }
}
