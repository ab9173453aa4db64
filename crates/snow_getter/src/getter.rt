ghost use Rattle.std.specs.Prelude.{◌≡◌, false, IfOk, OnOk, OnErr};
ghost use Rattle.std.specs.Option.{option_map};
ghost use Rattle.snow_getter.specs.Kept.Order.{as_served};
ghost use Rattle.snow_getter.specs.Model.Serving.{serving_from, is_pending, is_accepted, last_accepted, held, pending_block, accepted_block, after_issued, after_accepted, after_rejected};

use crate::pending::Pending;
use crate::served::{Held, Served};
use snow_base::limits::MOST_SERVED;
use snow_base::{Bytes, Id};
use snow_recent::Recent;
use std::alloc::{AllocError, Global};
use std::marker::Model;

/// What a node serves to its peers. Contracts see the first identifier, whose block isn't served,
/// the pending blocks in order of issue, and the last 4,096 accepted ones, the latest last.
///
/// It holds a block's bytes once, and finds them by its identifier.
/// Rule: AvalancheGo, snow/engine/snowman/getter.
#[derive(Drop)]
pub struct Getter {
    pub(crate) alloc: Global,
    first: Id,
    pending: Pending,
    accepted: Recent<Served, MOST_SERVED>,
}

impl Model for Getter {
    ghost use Rattle.snow_getter.specs.Model.Serving.{Serving};

    ghost Value = { Serving };

    ghost view = { λ a. record { first = a.first; pending = a.pending; accepted = a.accepted } };
}

impl Getter {
    /// Returns what a node serves that begins to run above its last accepted block, `first`: no
    /// block yet. It makes room for all 4,096 accepted blocks. On want of memory it returns
    /// `AllocError`.
    /// Rule: AvalancheGo, snow/engine/snowman/getter.
    pub fn begin(alloc: Global, first: Id) -> Result<Getter, AllocError>
        ensures { IfOk result (λ made. made ≡ serving_from first) }
    {
        let accepted = Recent::new(alloc)?;
        Ok(Getter {
            alloc,
            first,
            pending: Pending::new(alloc),
            accepted,
        })
    }

    /// Serves a block that was issued and isn't pending here. On want of memory it returns
    /// `AllocError`, and all stays as it was.
    /// Rule: AvalancheGo, snow/engine/snowman/getter.
    pub fn issued(&mut self, id: Id, parent: Id, bytes: Bytes) -> Result<(), AllocError>
        requires { is_pending self.old id ≡ false }
        ensures ok { OnOk result (self.new ≡ after_issued self.old (record { id = id; parent = parent; bytes = bytes })) }
        ensures err { OnErr result (self.new ≡ self.old) }
    {
        self.pending.push(id, parent, bytes)
    }

    /// Makes a pending block one of the accepted ones, of which the oldest goes where 4,096 are
    /// there. A block that isn't pending changes nothing. It returns the bytes of a block that
    /// goes, for their room, and takes no memory.
    /// Rule: AvalancheGo, snow/engine/snowman/getter.
    pub fn accepted(&mut self, id: &Id) -> Option<Bytes>
        ensures { self.new ≡ after_accepted self.old id.now }
    {
        // (written out, so that what is taken is moved once)
        let Some(issued) = self.pending.take(id) else {
            return None;
        };
        let forgotten = self.accepted.exchange(Served {
            id: *id,
            parent: issued.parent,
            bytes: issued.bytes,
        });
        match forgotten {
            Some(forgotten) => Some(forgotten.bytes),
            None => None,
        }
    }

    /// Serves a pending block no more, since it was rejected. A block that isn't pending changes
    /// nothing. It returns the bytes of the block, for their room, and takes no memory.
    /// Rule: AvalancheGo, snow/engine/snowman/getter.
    pub fn rejected(&mut self, id: &Id) -> Option<Bytes>
        ensures { self.new ≡ after_rejected self.old id.now }
    {
        match self.pending.take(id) {
            Some(rejected) => Some(rejected.bytes),
            None => None,
        }
    }

    /// Returns whether a block is pending.
    /// Rule: AvalancheGo, snow/engine/snowman/getter.
    pub fn is_pending(&self, id: &Id) -> bool
        ensures { result ≡ is_pending self.now id.now }
    {
        self.pending.block(id).is_some()
    }

    // The identifier that was accepted last.
    pub(crate) fn last(&self) -> Id
        ensures { result ≡ last_accepted self.now }
    {
        match self.accepted.newest() {
            Some(block) => block.id,
            None => self.first,
        }
    }

    // The block that is served for an identifier.
    pub(crate) fn held(&self, id: &Id) -> Option<Held<'_>>
        ensures { option_map as_served result ≡ held self.now id.now }
    {
        match self.pending_block(id) {
            Some(block) => Some(block),
            None => self.accepted_block(id),
        }
    }

    // The pending block of an identifier.
    fn pending_block(&self, id: &Id) -> Option<Held<'_>>
        ensures { option_map as_served result ≡ pending_block self.now id.now }
    {
        match self.pending.block(id) {
            Some(issued) => Some(Held {
                id: *id,
                parent: issued.parent,
                bytes: issued.bytes.list(),
            }),
            None => None,
        }
    }

    // The latest accepted block of an identifier.
    fn accepted_block(&self, id: &Id) -> Option<Held<'_>>
        ensures { option_map as_served result ≡ accepted_block self.now id.now }
    {
        match self.accepted.latest(id) {
            Some(block) => Some(Held {
                id: block.id,
                parent: block.parent,
                bytes: block.bytes.list(),
            }),
            None => None,
        }
    }

    // Whether an identifier is held accepted.
    pub(crate) fn is_accepted(&self, id: &Id) -> bool
        ensures { result ≡ is_accepted self.now id.now }
    {
        self.first == *id || self.accepted.holds(id)
    }
}
