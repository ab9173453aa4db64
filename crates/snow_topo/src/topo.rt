ghost use Rattle.std.specs.Prelude.{◌≡◌, ◌+◌, ◌<◌, ◌≤◌, ◌&&◌, IfSome, is_some, length};
ghost use Rattle.std.specs.Option.{option_copied};
ghost use Rattle.snow_base.specs.Clauses.Gathered.{one_each};
ghost use Rattle.snow_base.specs.Model.Votes.{total_count};
ghost use Rattle.snow_board.specs.Model.Board.{blocks_of, counters_on};
ghost use Rattle.snow_board.specs.Kept.Ending.{has_pending_child};
ghost use Rattle.snow_board.specs.Kept.Grown.{is_on};
ghost use Rattle.snow_board.specs.Model.Poll.{poll};
ghost use Rattle.snow_topo.specs.Clauses.Ballot.{votes_of};
ghost use Rattle.snow_topo.specs.Laws.Costs.{most_steps};
ghost use Rattle.snow_topo.specs.Kept.Standing.{AreKept};

use crate::ballot::Ballot;
use crate::counting::count_votes;
use crate::issuing::issue;
use crate::leading::{is_preferred, is_top, kept_of, place_on, preference_of};
use crate::load::Load;
use crate::renewing::renew_if_full;
use crate::settling::settle;
use snow_base::{Bag, Header, Id, Steps};
use snow_board::{Board, Decision};
use snow_climb::{Ladder, named};
use snow_flake::{Params, Rule};
use snow_tree::Tree;
use snow_trie::Trie;
use std::alloc::{AllocError, Global};
use std::marker::{Brand, Model};
use std::sync::ledger::{Blank, Ledger};

/// A board whose counters stand in compressed trees, one for each block that has children. A poll
/// visits the trees of the blocks below which there are AlphaPreference votes, and no others; these
/// have failed by the number of the poll. An issue costs the tree of the parent. The board keeps
/// the preference, and walks it anew from child to child only where a poll moved it. `R` says how
/// the counters answer.
/// Rule: AvalancheGo, snow/consensus/snowman.
#[derive(Debug, Drop)]
pub struct Topo<R: Rule> {
    params: Params,
    // How many polls were recorded, as each tree notes of its last one.
    polls: u64,
    // What is kept of the last accepted block, and of those above it.
    root: Load<R>,
    tree: Tree<Load<R>>,
    preference: Id,
    decisions: Vec<Decision>,
    // Room for the votes of a poll, and for those that came to one block, by its children.
    ladder: Ladder,
    children: Bag,
    alloc: Global,
}

impl<R: Rule> Model for Topo<R> {
    ghost use Rattle.std.specs.Prelude.{◌+◌, length, vec_capacity};
    ghost use Rattle.snow_board.specs.Clauses.Shown.{Shown, coded_shown};
    ghost use Rattle.snow_topo.specs.Kept.Standing.{shown_board, IsStanding};

    ghost Value = { Shown };

    ghost coded = { coded_shown };

    ghost view = { λ a. shown_board a.params a.polls a.root a.tree a.decisions.items };

    ghost invariant = { λ a.
        IsStanding R.answer a.params a.polls a.root a.tree a.preference a.ladder
        (vec_capacity a.decisions) (a.children.room + length a.children.list) };
}

// Records a poll whose steps nobody counts.
fn record_alone<R: Rule, L: Ledger>(board: &mut Topo<R>, ballot: Ballot, blank: Blank)
    requires name { blank.name ≡ L.name }
    requires parts { blank.parts ≡ L.parts }
    requires some { 0 < L.parts }
    requires most { total_count (votes_of ballot) ≤ (board.old).board.parameters.k }
    ensures board { (board.new).board ≡ (poll (board.old).board (votes_of ballot.entry)).0 }
    ensures decided { (board.new).decided ≡ (poll (board.old).board (votes_of ballot.entry)).1 }
{
    let mut steps = Steps::<L>::new(blank);
    board.record_ballot(ballot, &mut steps);
}

impl<R: Rule> Topo<R> {
    /// Does what `apply_poll` does with at most K votes, and counts its steps. A step is a node of
    /// a tree that is visited, or the failing of a tree; `most_steps` bounds them. It takes no
    /// memory and can't fail.
    /// Rule: AvalancheGo, snow/consensus/snowman.
    pub fn apply_counted<L: Ledger>(&mut self, votes: &Bag, steps: &mut Steps<L>)
        requires { total_count votes.now.list ≤ (self.old).board.parameters.k }
        ensures board { (self.new).board ≡ (poll (self.old).board votes.now.list).0 }
        ensures decided { (self.new).decided ≡ (poll (self.old).board votes.now.list).1 }
        ensures steps { steps.new ≤ steps.old + most_steps (self.old).board votes.now.list }
    {
        self.record_ballot(Ballot::Counted(votes), steps);
    }

    /// Does what `apply_votes` does with at most K identifiers, and counts its steps, which
    /// `most_steps` bounds. It takes no memory and can't fail.
    /// Rule: AvalancheGo, snow/consensus/snowman.
    pub fn apply_votes_counted<L: Ledger>(&mut self, ids: &[Id], steps: &mut Steps<L>)
        requires { length ids.now ≤ (self.old).board.parameters.k }
        ensures board { (self.new).board ≡ (poll (self.old).board (one_each ids.now)).0 }
        ensures decided { (self.new).decided ≡ (poll (self.old).board (one_each ids.now)).1 }
        ensures steps { steps.new ≤ steps.old + most_steps (self.old).board (one_each ids.now) }
    {
        self.record_ballot(Ballot::Each(ids), steps);
    }

    // Records a poll: every counter makes the bit step with its own votes, then the board accepts and
    // rejects blocks, and the preference follows.
    fn record_ballot<L: Ledger>(&mut self, ballot: Ballot, steps: &mut Steps<L>)
        requires { total_count (votes_of ballot) ≤ (self.old).board.parameters.k }
        ensures board { (self.new).board ≡ (poll (self.old).board (votes_of ballot.entry)).0 }
        ensures decided { (self.new).decided ≡ (poll (self.old).board (votes_of ballot.entry)).1 }
        ensures steps { steps.new ≤ steps.old + most_steps (self.old).board (votes_of ballot.entry) }
    {
        let before = renew_if_full(self.polls, &mut self.root, &mut self.tree);
        let Topo {
            params,
            root,
            tree,
            decisions,
            ladder,
            children,
            ..
        } = self;
        let _k = params.k();
        let _last = tree.last();
        let moved = count_votes(params, root, tree, before, ladder, children, ballot, steps);
        decisions.clear();
        settle(params, before + 1, root, tree, decisions);
        self.polls = before + 1;
        self.preference = if moved {
            preference_of(&self.params, self.polls, &self.root, &self.tree)
        } else {
            self.preference
        };
    }

    /// Returns the tree of a block's children, or `None` exactly where the block isn't on the board
    /// or has no child there. Its counters are those of the board, or the board's are what failing
    /// makes of them.
    /// Rule: AvalancheGo, snow/consensus/snowman.
    pub fn trie_of(&self, parent: &Id) -> Option<&Trie<R>>
        ensures some { is_some result ≡ (is_on (self.now).board.last (blocks_of (self.now).board.pending) parent.now && has_pending_child (self.now).board.pending parent.now) }
        ensures counters { IfSome (option_copied result) (λ t. AreKept (self.now).board.parameters (counters_on (self.now).board parent.now) t.counters) }
    {
        kept_of(&self.root, &self.tree, parent)?.trie()
    }
}

impl<R: Rule> Board for Topo<R> {
    ghost board = { λ a. a.board };

    ghost decided = { λ a. a.decided };

    ghost answer = { R.answer };

    ghost agrees = { R.agrees };

    fn begin(alloc: Global, params: Params, last: Id, height: u64) -> Result<Self, AllocError> {
        let votes = params.k();
        let ladder = Ladder::new(alloc, votes)?;
        let mut children = Bag::new(alloc);
        children.reserve(votes as usize)?;
        Ok(Topo {
            params,
            polls: 0,
            root: Load::new(),
            tree: Tree::new(alloc, last, height),
            preference: last,
            decisions: Vec::new(alloc),
            ladder,
            children,
            alloc,
        })
    }

    fn issue(&mut self, id: Id, parent: Id, height: u64) -> Result<(), AllocError> {
        named(&id);
        let _last = self.tree.last();
        let pending = self.tree.len() + 1;
        self.decisions.reserve(pending)?;
        self.ladder.make_room(pending)?;
        let child = Header { id, parent, height };
        let at = place_on(&self.tree, &parent);
        let on_top = is_top(
            &self.params,
            self.polls,
            &self.root,
            &self.tree,
            &self.preference,
            &parent,
            at,
        );
        issue(
            self.alloc,
            &self.params,
            &mut self.root,
            &mut self.tree,
            at,
            &child,
        )?;
        // Only a child of the preference can move it: at once where it is the first one.
        self.preference = if on_top {
            id
        } else if parent == self.preference {
            preference_of(&self.params, self.polls, &self.root, &self.tree)
        } else {
            self.preference
        };
        self.decisions.clear();
        Ok(())
    }

    fn apply_poll(&mut self, votes: &Bag) {
        record_alone::<R, Brand>(self, Ballot::Counted(votes), Blank::new(1));
    }

    fn apply_votes(&mut self, ids: &[Id]) -> Result<(), AllocError> {
        record_alone::<R, Brand>(self, Ballot::Each(ids), Blank::new(1));
        Ok(())
    }

    fn decisions(&self) -> &[Decision] {
        self.decisions.as_slice()
    }

    fn preference(&self) -> Id {
        self.preference
    }

    fn is_preferred(&self, id: &Id) -> bool {
        is_preferred(
            &self.params,
            self.polls,
            &self.root,
            &self.tree,
            &self.preference,
            id,
        )
    }

    fn is_pending(&self, id: &Id) -> bool {
        // The preference, which most votes are for, is pending or the last accepted block.
        if self.preference == *id {
            return self.tree.last() != *id;
        }
        self.tree.header_of(id).is_some()
    }

    fn parent_of(&self, id: &Id) -> Option<Id> {
        match self.tree.header_of(id) {
            Some(block) => Some(block.parent),
            None => None,
        }
    }

    fn height_of(&self, id: &Id) -> Option<u64> {
        if self.tree.last() == *id {
            return Some(self.tree.last_height());
        }
        match self.tree.header_of(id) {
            Some(block) => Some(block.height),
            None => None,
        }
    }

    fn last(&self) -> Id {
        self.tree.last()
    }

    fn last_height(&self) -> u64 {
        self.tree.last_height()
    }

    fn pending_len(&self) -> usize {
        self.tree.len()
    }
}
