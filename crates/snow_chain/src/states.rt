ghost use Rattle.std.specs.Prelude.{◌≡◌, ◌↔◌, IsTrue, IfOk, OnOk, OnErr};
ghost use Rattle.std.specs.Option.{option_copied};

use snow_base::{Id, Nums};
use snow_map::IdMap;
use std::alloc::{AllocError, Global};
use std::marker::Model;

/// The last accepted block, and states by identifier, on which any chain can be built. A state is a
/// list of numbers below 2^64, and the chain says what they mean.
/// Rule: this project's own.
#[derive(Drop)]
pub struct States {
    alloc: Global,
    last: Id,
    states: IdMap<Nums>,
}

impl Model for States {
    ghost use Rattle.std.specs.FinMap.{from_entries};
    ghost use Rattle.snow_chain.specs.Model.Chain.{Held};
    ghost use Rattle.snow_chain.specs.Kept.Coded.{coded_held};

    ghost Value = { Held };

    ghost coded = { coded_held };

    ghost view = { λ a. record { last = a.last; states = from_entries a.states } };
}

impl States {
    ghost use Rattle.snow_chain.specs.Model.Chain.{begun, state_of, with_state, accepted, rejected, MayVerify, MayAccept, MayReject};

    /// Returns the state of the last accepted block alone. On want of memory it returns
    /// `AllocError`.
    /// Rule: this project's own.
    pub fn begin(alloc: Global, last: Id, state: Nums) -> Result<Self, AllocError>
        ensures { IfOk result (λ made. made ≡ begun last state) }
    {
        let mut states = IdMap::new(alloc);
        states.insert(last, state)?;
        Ok(States {
            alloc,
            last,
            states,
        })
    }

    /// Returns the allocator from which a chain takes memory for a state.
    /// Rule: this project's own.
    pub fn alloc(&self) -> Global {
        self.alloc
    }

    /// Returns the last accepted block.
    /// Rule: this project's own.
    pub fn last(&self) -> Id
        ensures { result ≡ self.now.last }
    {
        self.last
    }

    /// Returns the state that is held for a block, or `None` exactly where none is.
    /// Rule: this project's own.
    pub fn state_of(&self, id: &Id) -> Option<&[u64]>
        ensures { option_copied result ≡ state_of self.now id.now }
    {
        match self.states.get(id) {
            Some(state) => Some(state.list()),
            None => None,
        }
    }

    /// Returns whether a chain that holds these states may verify a block: its parent's state is
    /// held, and its own isn't.
    /// Rule: this project's own.
    pub fn may_verify(&self, parent: &Id, id: &Id) -> bool
        ensures { IsTrue result ↔ MayVerify self.now parent.now id.now }
    {
        self.state_of(parent).is_some() && self.state_of(id).is_none()
    }

    /// Returns whether a chain that holds these states may accept a block: its state is held, it
    /// isn't the last accepted one, and that one's state is held.
    /// Rule: this project's own.
    pub fn may_accept(&self, id: &Id) -> bool
        ensures { IsTrue result ↔ MayAccept self.now id.now }
    {
        self.may_reject(id) && self.state_of(&self.last).is_some()
    }

    /// Returns whether a chain that holds these states may reject a block: its state is held, and
    /// it isn't the last accepted one.
    /// Rule: this project's own.
    pub fn may_reject(&self, id: &Id) -> bool
        ensures { IsTrue result ↔ MayReject self.now id.now }
    {
        self.state_of(id).is_some() && self.last != *id
    }

    /// Holds a state for a block, in place of the one that was held, if there was one. On want of
    /// memory it returns `AllocError`, and all stays as it was.
    /// Rule: this project's own.
    pub fn hold(&mut self, id: Id, state: Nums) -> Result<(), AllocError>
        ensures ok { OnOk result (self.new ≡ with_state self.old id state) }
        ensures err { OnErr result (self.new ≡ self.old) }
    {
        self.states.insert(id, state)?;
        Ok(())
    }

    /// Makes a block the last accepted one, and lets the state of the one before it go. It takes no
    /// memory.
    /// Rule: this project's own.
    pub fn accept(&mut self, id: &Id)
        ensures { self.new ≡ accepted self.old id.now }
    {
        let _ = self.states.remove(&self.last);
        self.last = *id;
    }

    /// Lets the state of a block go. It takes no memory.
    /// Rule: this project's own.
    pub fn reject(&mut self, id: &Id)
        ensures { self.new ≡ rejected self.old id.now }
    {
        let _ = self.states.remove(id);
    }
}
