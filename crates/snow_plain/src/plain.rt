use crate::leading::after_issue;
use crate::state::State;
use snow_base::{Bag, Header, Id};
use snow_board::{Board, Cursor, Decision, Leading};
use snow_flake::{Params, Rule};
use std::alloc::{AllocError, Global};
use std::marker::{Model, PhantomData};

/// A board with one counter for each bit list, all of which make the bit step at each poll. `R`
/// says how they answer. A poll goes once over the pending blocks, with the votes and the counters
/// of each: one instance where a block has one child and no votes for others came, else all. Each
/// acceptance goes over the pending blocks once more, and over the decisions for each. A block is
/// found by its identifier without a walk. An issue makes up to 256 counters, and walks the answers
/// only for the first block on the preference after a poll.
/// Rule: AvalancheGo, snow/consensus/snowman.
#[derive(Drop)]
pub struct PlainBoard<R: Rule> {
    state: State,
    // The preference of this state, which an issue seldom has to find anew.
    leading: Leading,
    decisions: Vec<Decision>,
    // Room for the votes of a poll, and for those that came to one block, by its children.
    cursors: Vec<Cursor>,
    children: Bag,
    alloc: Global,
    rule: PhantomData<R>,
}

impl<R: Rule> Model for PlainBoard<R> {
    ghost use Rattle.std.specs.Prelude.{◌+◌, length, vec_capacity};
    ghost use Rattle.snow_board.specs.Kept.Ending.{IsLeading};
    ghost use Rattle.snow_board.specs.Clauses.Shown.{Shown, HasRoom, coded_shown};

    ghost Value = { Shown };

    ghost coded = { coded_shown };

    ghost view = { λ a. record { board = a.state; decided = a.decisions.items } };

    ghost invariant = { λ a.
        HasRoom a.state (vec_capacity a.decisions) (vec_capacity a.cursors) (a.children.room + length a.children.list)
        × IsLeading R.answer a.state a.leading };
}

impl<R: Rule> Board for PlainBoard<R> {
    ghost board = { λ a. a.board };

    ghost decided = { λ a. a.decided };

    ghost answer = { R.answer };

    ghost agrees = { R.agrees };

    fn begin(alloc: Global, params: Params, last: Id, height: u64) -> Result<Self, AllocError> {
        let votes = params.k() as usize;
        let cursors = Vec::with_capacity(alloc, votes)?;
        let mut children = Bag::new(alloc);
        children.reserve(votes)?;
        Ok(PlainBoard {
            state: State::begin(alloc, params, last, height),
            leading: Leading {
                block: last,
                is_top: true,
            },
            decisions: Vec::new(alloc),
            cursors,
            children,
            alloc,
            rule: PhantomData,
        })
    }

    fn issue(&mut self, id: Id, parent: Id, height: u64) -> Result<(), AllocError> {
        self.decisions.reserve(self.state.pending_len() + 1)?;
        let child = Header { id, parent, height };
        self.state.issue(self.alloc, child)?;
        self.leading = after_issue::<R>(self.leading, &self.state, &child);
        self.decisions.clear();
        Ok(())
    }

    fn apply_poll(&mut self, votes: &Bag) {
        self.state
            .count(votes.entries(), &mut self.cursors, &mut self.children);
        self.decisions.clear();
        self.state.settle(&mut self.decisions);
        self.leading = Leading {
            block: self.state.preference::<R>(),
            is_top: false,
        };
    }

    fn apply_votes(&mut self, ids: &[Id]) -> Result<(), AllocError> {
        let _k = self.state.k();
        let votes = Bag::of(self.alloc, ids)?;
        self.apply_poll(&votes);
        Ok(())
    }

    fn decisions(&self) -> &[Decision] {
        self.decisions.as_slice()
    }

    fn preference(&self) -> Id {
        self.leading.block
    }

    fn is_preferred(&self, id: &Id) -> bool {
        self.state.is_preferred::<R>(id)
    }

    fn is_pending(&self, id: &Id) -> bool {
        self.state.is_pending(id)
    }

    fn parent_of(&self, id: &Id) -> Option<Id> {
        self.state.parent_of(id)
    }

    fn height_of(&self, id: &Id) -> Option<u64> {
        self.state.height_of(id)
    }

    fn last(&self) -> Id {
        self.state.last()
    }

    fn last_height(&self) -> u64 {
        self.state.height()
    }

    fn pending_len(&self) -> usize {
        self.state.pending_len()
    }
}
