//! The events of peers, made of their views.
ghost use Rattle.std.specs.Prelude.{◌≡◌, IfOk};
ghost use Rattle.snow_wire.specs.declared.event.Event.TheVariants as event;

use crate::event::Event;
use crate::lists::ids_of;
use crate::shapes::{Brought, Listing, Named, Parcel, Sender};
use snow_base::{Bytes, Id, NodeId};
use std::alloc::{AllocError, Global};

impl<'a> Sender<'a> {
    pub(crate) fn timeout(&self) -> Event
        ensures { result ≡ event.Timeout self.now.node.now self.now.request }
    {
        Event::Timeout {
            node: NodeId::from_bytes(*self.node),
            request: self.request,
        }
    }

    pub(crate) fn ask_query(&self) -> Event
        ensures { result ≡ event.AskQuery self.now.node.now self.now.request }
    {
        Event::AskQuery {
            node: NodeId::from_bytes(*self.node),
            request: self.request,
        }
    }

    pub(crate) fn ask_frontier(&self) -> Event
        ensures { result ≡ event.AskFrontier self.now.node.now self.now.request }
    {
        Event::AskFrontier {
            node: NodeId::from_bytes(*self.node),
            request: self.request,
        }
    }
}

impl<'a> Named<'a> {
    pub(crate) fn chits(&self) -> Event
        ensures { result ≡ event.Chits self.now.node.now self.now.request self.now.id.now }
    {
        Event::Chits {
            node: NodeId::from_bytes(*self.node),
            request: self.request,
            id: Id::from_bytes(*self.id),
        }
    }

    pub(crate) fn frontier(&self) -> Event
        ensures { result ≡ event.Frontier self.now.node.now self.now.request self.now.id.now }
    {
        Event::Frontier {
            node: NodeId::from_bytes(*self.node),
            request: self.request,
            id: Id::from_bytes(*self.id),
        }
    }

    pub(crate) fn ask_ancestors(&self) -> Event
        ensures { result ≡ event.AskAncestors self.now.node.now self.now.request self.now.id.now }
    {
        Event::AskAncestors {
            node: NodeId::from_bytes(*self.node),
            request: self.request,
            id: Id::from_bytes(*self.id),
        }
    }

    pub(crate) fn ask_block(&self) -> Event
        ensures { result ≡ event.AskBlock self.now.node.now self.now.request self.now.id.now }
    {
        Event::AskBlock {
            node: NodeId::from_bytes(*self.node),
            request: self.request,
            id: Id::from_bytes(*self.id),
        }
    }
}

impl<'a> Listing<'a> {
    pub(crate) fn accepted(&self, alloc: Global) -> Result<Event, AllocError>
        ensures { IfOk result (λ e. e ≡ event.Accepted self.now.node.now self.now.request self.now.ids.now) }
    {
        Ok(Event::Accepted {
            node: NodeId::from_bytes(*self.node),
            request: self.request,
            ids: ids_of(alloc, self.ids)?,
        })
    }

    pub(crate) fn ask_accepted(&self, alloc: Global) -> Result<Event, AllocError>
        ensures { IfOk result (λ e. e ≡ event.AskAccepted self.now.node.now self.now.request self.now.ids.now) }
    {
        Ok(Event::AskAccepted {
            node: NodeId::from_bytes(*self.node),
            request: self.request,
            ids: ids_of(alloc, self.ids)?,
        })
    }
}

impl<'a> Brought<'a> {
    pub(crate) fn block(&self, alloc: Global) -> Result<Event, AllocError>
        ensures { IfOk result (λ e. e ≡ event.Block self.now.node.now self.now.request self.now.bytes.now) }
    {
        Ok(Event::Block {
            node: NodeId::from_bytes(*self.node),
            request: self.request,
            bytes: Bytes::from_slice(alloc, self.bytes)?,
        })
    }
}

impl<'a> Parcel<'a> {
    pub(crate) fn ancestors(&self, alloc: Global) -> Result<Event, AllocError>
        ensures { IfOk result (λ e. e ≡ event.Ancestors self.now.node.now self.now.request self.now.blocks) }
    {
        Ok(Event::Ancestors {
            node: NodeId::from_bytes(*self.node),
            request: self.request,
            blocks: self.blocks.to_blocks(alloc)?,
        })
    }
}
