ghost use Rattle.std.specs.Prelude.{◌≡◌, IfOk};
ghost use Rattle.snow_wire.specs.Model.Reading.{ReadsAs, start_at};
ghost use Rattle.snow_wire.specs.Clauses.Spelled.{as_start};
ghost use Rattle.snow_wire.specs.declared.event.Event.TheVariants as event;

use crate::event::Start;
use crate::lists::{nodes_of, words_of};
use crate::reader::Reader;
use crate::skip::Fault;
use snow_base::Id;
use snow_base::limits::MOST_LISTED;
use std::alloc::{AllocError, Global};
use std::marker::Model;

/// How a run begins: a `Start` whose fields still stand in the payload of its frame. Contracts see
/// the Start.
/// Rule: this project's own.
#[derive(Drop)]
pub struct Opening<'a> {
    bytes: &'a [u8],
}

impl<'a> Model for Opening<'a> {
    ghost use Rattle.std.specs.Prelude.{IsOk};
    ghost use Rattle.snow_wire.specs.declared.event.Start.{Start};
    ghost use Rattle.snow_wire.specs.Model.Reading.{start_at};
    ghost use Rattle.snow_wire.specs.Clauses.Spelled.{start_in};

    ghost Value = { Start };

    ghost view = { λ o. start_in (start_at o.bytes.now) };

    ghost invariant = { λ o. IsOk (start_at o.bytes.now) };
}

impl<'a> Opening<'a> {
    pub(crate) fn read(reader: &mut Reader<'a>) -> Result<Self, Fault>
        ensures { ReadsAs (λ o. event.Start o) result reader.new (start_at reader.old) }
    {
        let bytes = reader.rest();
        StartFields::read(reader)?;
        Ok(Opening { bytes })
    }

    /// Returns the fields, where they stand.
    /// Rule: this project's own.
    pub fn fields(&self) -> StartFields<'a>
        ensures { as_start result ≡ self.now }
    {
        let Ok(fields) = StartFields::read(&mut Reader::new(self.bytes)) else {
            unreachable!()
        };
        fields
    }

    /// Returns the same with lists of its own. On want of memory it returns `AllocError`.
    /// Rule: this project's own.
    pub fn to_start(&self, alloc: Global) -> Result<Start, AllocError>
        ensures { IfOk result (λ start. start ≡ self.now) }
    {
        self.fields().to_start(alloc)
    }
}

/// The fields of a `Start`, whose lists still stand in the payload of its frame.
/// Rule: this project's own.
#[derive(Clone, Copy, Debug, PartialEq, Eq)]
pub struct StartFields<'a> {
    /// How many units are sampled for a poll.
    pub k: u32,
    /// The votes that move a preference.
    pub alpha_preference: u32,
    /// The votes that raise a confidence.
    pub alpha_confidence: u32,
    /// The confidence that decides.
    pub beta: u32,
    /// How many polls run at a time.
    pub repolls: u32,
    /// Whether the node bootstraps first.
    pub boot: bool,
    /// The last accepted block.
    pub last: &'a [u8; 32],
    /// Its height.
    pub height: u64,
    /// The chain's state there: at most 4,096 numbers, each the highest byte first.
    pub state: &'a [[u8; 8]],
    /// The nodes that are asked, at most 4,096: 20 bytes, and the weight in 8, the highest first.
    pub nodes: &'a [[u8; 28]],
}

impl<'a> StartFields<'a> {
    #[tactic(auto, unfolding(crate::specs::Model::Reading::start_at))]
    fn read(reader: &mut Reader<'a>) -> Result<Self, Fault>
        ensures { ReadsAs (λ o. event.Start (as_start o)) result reader.new (start_at reader.old) }
    {
        let k = reader.u32()?;
        let alpha_preference = reader.u32()?;
        let alpha_confidence = reader.u32()?;
        let beta = reader.u32()?;
        let repolls = reader.u32()?;
        let boot = reader.flag()?;
        let last = reader.id()?;
        let height = reader.u64()?;
        let state = reader.words(MOST_LISTED)?;
        let nodes = reader.nodes(MOST_LISTED)?;
        Ok(StartFields {
            k,
            alpha_preference,
            alpha_confidence,
            beta,
            repolls,
            boot,
            last,
            height,
            state,
            nodes,
        })
    }

    fn to_start(&self, alloc: Global) -> Result<Start, AllocError>
        ensures { IfOk result (λ start. start ≡ as_start self.now) }
    {
        Ok(Start {
            k: self.k,
            alpha_preference: self.alpha_preference,
            alpha_confidence: self.alpha_confidence,
            beta: self.beta,
            repolls: self.repolls,
            boot: self.boot,
            last: Id::from_bytes(*self.last),
            height: self.height,
            state: words_of(alloc, self.state)?,
            nodes: nodes_of(alloc, self.nodes)?,
        })
    }
}
