//! What the node knows of its queue: how far it can trust the marks there.

ghost use Rattle.std.specs.Prelude.{◌≡◌};
ghost use Rattle.snow_node.specs.Kept.QueueState as model;

use snow_base::Id;
use snow_issue::Work;

/// How far the node can trust the queue's marks of its waiting blocks, so that it needn't look at
/// all of them anew.
/// Rule: this project's own.
#[derive(Clone, Copy)]
pub enum QueueState {
    /// A mark may be wrong.
    Stale,
    /// Each mark is true of the board.
    Accurate,
    /// Each mark is true, and none says that a block is ready.
    NoneReady,
    /// Each mark is true, none says that a block is ready, and nothing is to be done.
    Settled,
    /// Each mark is true, and the children of this block have none, so that it may be issued.
    Issuing(Id),
}

impl QueueState {
    /// Returns what holds once the queue gave this step out.
    /// Rule: this project's own.
    pub fn taken(work: &Option<Work>) -> QueueState
        ensures { result ≡ model.when_taken work.now }
    {
        match work {
            None => QueueState::Settled,
            Some(Work::Vote(_)) => QueueState::NoneReady,
            Some(Work::Hopeless(_)) => QueueState::Accurate,
            Some(Work::Ready(block)) => QueueState::Issuing(block.header.id),
        }
    }

    /// Returns what holds once some blocks or replies are to be looked at.
    /// Rule: this project's own.
    pub fn woken(&self) -> QueueState
        ensures { result ≡ model.when_woken self.now }
    {
        match self {
            QueueState::Stale => QueueState::Stale,
            QueueState::NoneReady | QueueState::Settled => QueueState::NoneReady,
            QueueState::Accurate => QueueState::Accurate,
            QueueState::Issuing(_) => QueueState::Accurate,
        }
    }

    /// Returns what holds once some were looked at. `idle` tells whether nothing is to be done.
    /// Rule: this project's own.
    pub fn looked(&self, idle: bool) -> QueueState
        ensures { result ≡ model.when_looked self.now idle }
    {
        match self {
            QueueState::Stale => QueueState::Stale,
            _ if idle => QueueState::Settled,
            state => state.woken(),
        }
    }

    /// Returns what holds once nothing is remembered of the children of this block, which may then
    /// be issued.
    /// Rule: this project's own.
    pub fn next(&self, id: &Id) -> QueueState
        ensures { result ≡ model.when_next self.now id.now }
    {
        match self {
            QueueState::Stale => QueueState::Stale,
            _ => QueueState::Issuing(*id),
        }
    }

    /// Returns what holds once this block was issued.
    /// Rule: this project's own.
    pub fn issued(&self, id: &Id) -> QueueState
        ensures { result ≡ model.when_issued self.now id.now }
    {
        let QueueState::Issuing(ready) = self else {
            return QueueState::Stale;
        };
        if ready == id {
            QueueState::Accurate
        } else {
            QueueState::Stale
        }
    }

    /// Returns what holds once a poll was recorded.
    /// Rule: this project's own.
    pub fn polled(&self) -> QueueState
        ensures { result ≡ model.when_polled self.now }
    {
        match self {
            QueueState::NoneReady => QueueState::NoneReady,
            QueueState::Settled => QueueState::Settled,
            _ => QueueState::Stale,
        }
    }
}
