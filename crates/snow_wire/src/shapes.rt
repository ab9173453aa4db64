//! The shapes of the events that peers send, and how each is read behind its tag.
ghost use Rattle.std.specs.Prelude.{ℕ, List};
ghost use Rattle.snow_wire.specs.Model.Reading.{ReadsAs, block_at, counted_at, id_at, message_at, sender_at};
ghost use Rattle.snow_wire.specs.declared.event.Event.{Event};

use crate::packed::Packed;
use crate::reader::Reader;
use crate::skip::Fault;
use snow_base::limits::{BLOCK_BYTES, MOST_ANCESTORS, MOST_LISTED};

/// A peer, and the number of the request that its message belongs to.
/// Rule: this project's own.
#[derive(Clone, Copy, Debug, PartialEq, Eq)]
pub struct Sender<'a> {
    /// The peer that sent it.
    pub node: &'a [u8; 20],
    /// The number of the request that it belongs to.
    pub request: u32,
}

/// A peer's message that names one block.
/// Rule: this project's own.
#[derive(Clone, Copy, Debug, PartialEq, Eq)]
pub struct Named<'a> {
    /// The peer that sent it.
    pub node: &'a [u8; 20],
    /// The number of the request that it belongs to.
    pub request: u32,
    /// The block's identifier.
    pub id: &'a [u8; 32],
}

/// A peer's message that names blocks.
/// Rule: this project's own.
#[derive(Clone, Copy, Debug, PartialEq, Eq)]
pub struct Listing<'a> {
    /// The peer that sent it.
    pub node: &'a [u8; 20],
    /// The number of the request that it belongs to.
    pub request: u32,
    /// The identifiers of at most 4,096 blocks.
    pub ids: &'a [[u8; 32]],
}

/// A peer's message that brings one block.
/// Rule: this project's own.
#[derive(Clone, Copy, Debug, PartialEq, Eq)]
pub struct Brought<'a> {
    /// The peer that sent it.
    pub node: &'a [u8; 20],
    /// The number of the request that it belongs to.
    pub request: u32,
    /// The block's bytes, at most 65,536.
    pub bytes: &'a [u8],
}

/// A peer's message that brings blocks.
/// Rule: this project's own.
#[derive(Drop)]
pub struct Parcel<'a> {
    /// The peer that sent it.
    pub node: &'a [u8; 20],
    /// The number of the request that it belongs to.
    pub request: u32,
    /// At most 2,048 blocks.
    pub blocks: Packed<'a>,
}

impl<'a> Sender<'a> {
    #[tactic(auto, unfolding(crate::specs::Model::Reading::sender_at))]
    pub(crate) fn read(reader: &mut Reader<'a>) -> Result<Self, Fault>
        ensures { (made : List ℕ → ℕ → Event) → ReadsAs (λ s. made s.node.now s.request) result reader.new (sender_at made reader.old) }
    {
        let node = reader.node()?;
        let request = reader.u32()?;
        Ok(Sender { node, request })
    }
}

impl<'a> Named<'a> {
    #[tactic(auto, unfolding(crate::specs::Model::Reading::message_at))]
    pub(crate) fn read(reader: &mut Reader<'a>) -> Result<Self, Fault>
        ensures { (made : List ℕ → ℕ → List ℕ → Event) → ReadsAs (λ n. made n.node.now n.request n.id.now) result reader.new (message_at id_at made reader.old) }
    {
        let node = reader.node()?;
        let request = reader.u32()?;
        let id = reader.id()?;
        Ok(Named { node, request, id })
    }
}

impl<'a> Listing<'a> {
    #[tactic(auto, unfolding(crate::specs::Model::Reading::message_at))]
    pub(crate) fn read(reader: &mut Reader<'a>) -> Result<Self, Fault>
        ensures { (made : List ℕ → ℕ → List (List ℕ) → Event) → ReadsAs (λ l. made l.node.now l.request l.ids.now) result reader.new (message_at (counted_at id_at MOST_LISTED) made reader.old) }
    {
        let node = reader.node()?;
        let request = reader.u32()?;
        let ids = reader.list::<32>(MOST_LISTED)?;
        Ok(Listing { node, request, ids })
    }
}

impl<'a> Brought<'a> {
    #[tactic(auto, unfolding(crate::specs::Model::Reading::message_at))]
    pub(crate) fn read(reader: &mut Reader<'a>) -> Result<Self, Fault>
        ensures { (made : List ℕ → ℕ → List ℕ → Event) → ReadsAs (λ b. made b.node.now b.request b.bytes.now) result reader.new (message_at block_at made reader.old) }
    {
        let node = reader.node()?;
        let request = reader.u32()?;
        let bytes = reader.slice(BLOCK_BYTES)?;
        Ok(Brought {
            node,
            request,
            bytes,
        })
    }
}

impl<'a> Parcel<'a> {
    #[tactic(auto, unfolding(crate::specs::Model::Reading::message_at))]
    pub(crate) fn read(reader: &mut Reader<'a>) -> Result<Self, Fault>
        ensures { (made : List ℕ → ℕ → List (List ℕ) → Event) → ReadsAs (λ p. made p.node.now p.request p.blocks) result reader.new (message_at (counted_at block_at MOST_ANCESTORS) made reader.old) }
    {
        let node = reader.node()?;
        let request = reader.u32()?;
        let blocks = Packed::read(reader, MOST_ANCESTORS)?;
        Ok(Parcel {
            node,
            request,
            blocks,
        })
    }
}
