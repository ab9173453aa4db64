ghost use Rattle.std.specs.Prelude.{◌≡◌, IfOk};
ghost use Rattle.snow_wire.specs.Model.Reading.{event_of};
ghost use Rattle.snow_wire.specs.Clauses.Viewed.{as_event, seen};

use crate::event::Event;
use crate::lists::{ids_of, nodes_of, words_of};
use crate::opening::Opening;
use crate::reader::Reader;
use crate::shapes::{Brought, Listing, Named, Parcel, Sender};
use crate::skip::Fault;
use snow_base::Bytes;
use snow_base::limits::{BLOCK_BYTES, LINE_BYTES, MOST_LISTED, MOST_VOTES};
use std::alloc::{AllocError, Global};

/// An event whose bytes still stand in the payload of its frame. The variants are those of `Event`,
/// with the same limits. An identifier has 32 bytes, a word 8, and a node 20, with 8 of weight
/// behind them; numbers are unsigned, the highest byte first.
/// Rule: this project's own.
#[derive(Drop)]
pub enum View<'a> {
    /// The run begins.
    Start(Opening<'a>),
    /// A block came.
    Block(Brought<'a>),
    /// A whole poll: the block that each vote is for.
    Poll(&'a [[u8; 32]]),
    /// Random numbers for later samples.
    Words(&'a [[u8; 8]]),
    /// A peer's vote.
    Chits(Named<'a>),
    /// A peer won't reply.
    Timeout(Sender<'a>),
    /// A peer's last accepted block.
    Frontier(Named<'a>),
    /// Those of the named blocks that a peer holds accepted.
    Accepted(Listing<'a>),
    /// A block and its ancestors.
    Ancestors(Parcel<'a>),
    /// A block that was stored earlier, as its bytes.
    Stored(&'a [u8]),
    /// A new set of nodes to ask.
    Validators(&'a [[u8; 28]]),
    /// A peer asks for this node's vote.
    AskQuery(Sender<'a>),
    /// A peer asks for the last accepted block.
    AskFrontier(Sender<'a>),
    /// A peer asks which of these blocks are accepted.
    AskAccepted(Listing<'a>),
    /// A peer asks for a block and its ancestors.
    AskAncestors(Named<'a>),
    /// A peer asks for a block.
    AskBlock(Named<'a>),
    /// A line that a run wrote, without the byte that ends it.
    Line(&'a [u8]),
}

impl<'a> View<'a> {
    /// Returns the event that all bytes of a payload spell, where they stand. A payload that spells
    /// none is refused with the first thing that goes wrong, read from the front; a field's range
    /// is checked as soon as the field is read. It takes no memory.
    /// Rule: this project's own.
    #[tactic(auto, unfolding(crate::specs::Model::Reading::event_of, crate::specs::Model::Reading::fields_at, crate::specs::Model::Reading::single_at))]
    #[inline(always)]
    pub fn read(payload: &'a [u8]) -> Result<Self, Fault>
        ensures { seen result ≡ event_of payload.now }
    {
        let mut reader = Reader::new(payload);
        let view = match reader.u8()? {
            1 => View::Start(Opening::read(&mut reader)?),
            2 => View::Block(Brought::read(&mut reader)?),
            3 => View::Poll(reader.list::<32>(MOST_VOTES)?),
            4 => View::Words(reader.words(MOST_LISTED)?),
            5 => View::Chits(Named::read(&mut reader)?),
            6 => View::Timeout(Sender::read(&mut reader)?),
            7 => View::Frontier(Named::read(&mut reader)?),
            8 => View::Accepted(Listing::read(&mut reader)?),
            9 => View::Ancestors(Parcel::read(&mut reader)?),
            10 => View::Stored(reader.slice(BLOCK_BYTES)?),
            11 => View::Validators(reader.nodes(MOST_LISTED)?),
            12 => View::AskQuery(Sender::read(&mut reader)?),
            13 => View::AskFrontier(Sender::read(&mut reader)?),
            14 => View::AskAccepted(Listing::read(&mut reader)?),
            15 => View::AskAncestors(Named::read(&mut reader)?),
            16 => View::AskBlock(Named::read(&mut reader)?),
            17 => View::Line(reader.slice(LINE_BYTES)?),
            _ => return Err(Fault::Tag),
        };
        reader.end()?;
        Ok(view)
    }

    /// Returns the same event with bytes of its own. On want of memory it returns `AllocError`.
    /// Rule: this project's own.
    pub fn to_event(&self, alloc: Global) -> Result<Event, AllocError>
        ensures { IfOk result (λ event. event ≡ as_event self.now) }
    {
        match self {
            View::Start(opening) => Ok(Event::Start(opening.to_start(alloc)?)),
            View::Block(brought) => brought.block(alloc),
            View::Poll(ids) => Ok(Event::Poll {
                ids: ids_of(alloc, ids)?,
            }),
            View::Words(words) => Ok(Event::Words {
                words: words_of(alloc, words)?,
            }),
            View::Chits(named) => Ok(named.chits()),
            View::Timeout(sender) => Ok(sender.timeout()),
            View::Frontier(named) => Ok(named.frontier()),
            View::Accepted(listing) => listing.accepted(alloc),
            View::Ancestors(parcel) => parcel.ancestors(alloc),
            View::Stored(bytes) => Ok(Event::Stored {
                bytes: Bytes::from_slice(alloc, bytes)?,
            }),
            View::Validators(nodes) => Ok(Event::Validators {
                nodes: nodes_of(alloc, nodes)?,
            }),
            View::AskQuery(sender) => Ok(sender.ask_query()),
            View::AskFrontier(sender) => Ok(sender.ask_frontier()),
            View::AskAccepted(listing) => listing.ask_accepted(alloc),
            View::AskAncestors(named) => Ok(named.ask_ancestors()),
            View::AskBlock(named) => Ok(named.ask_block()),
            View::Line(text) => Ok(Event::Line {
                text: Bytes::from_slice(alloc, text)?,
            }),
        }
    }
}
