//! The answers to the questions of peers.
ghost use Rattle.std.specs.Prelude.{◌≡◌, [], ◌∷◌, ◌++◌, map, IfOk, OnOk, OnErr};
ghost use Rattle.std.specs.Option.{option_map_or};
ghost use Rattle.snow_lines.specs.declared.line.Line.TheVariants as line;
ghost use Rattle.snow_wire.specs.Clauses.Viewed.{as_event};
ghost use Rattle.snow_wire.specs.declared.event.Event.TheVariants as event;
ghost use Rattle.snow_getter.specs.Model.Serving.{held};
ghost use Rattle.snow_getter.specs.Model.Chain.{chain};
ghost use Rattle.snow_getter.specs.Model.Answer.{answer, accepted_among, chain_told};
ghost use Rattle.snow_getter.specs.Laws.ChainLaw.{ChainIsLongest};

use crate::getter::Getter;
use snow_base::limits::{ANSWER_BLOCKS, ANSWER_BYTES};
use snow_base::{Blocks, Bytes, Id, Ids, NodeId};
use snow_lines::{BoxedId, Line, Lines};
use snow_map::IdSet;
use snow_wire::{Listing, Named, Sender, View};
use std::alloc::AllocError;

impl Getter {
    /// Appends the lines that answer a question, where `preference` is preferred. `AskQuery` is
    /// told the preference and the identifier accepted last, `AskFrontier` the latter.
    /// `AskAccepted` is told those of its identifiers that are the first one or accepted, in order,
    /// each once. `AskAncestors` gets the block and its ancestors as far as they are served, at
    /// most 64 blocks of at most 524,288 bytes in total. `AskBlock` gets the block. It appends no
    /// line where the block isn't served, and none for any other event. On want of memory it
    /// returns `AllocError`, and the lines stay as they were.
    /// Rule: AvalancheGo, snow/engine/snowman/getter.
    pub fn answer(
        &self,
        preference: Id,
        question: &View<'_>,
        log: &mut Lines,
    ) -> Result<(), AllocError>
        ensures ok { OnOk result (log.new ≡ log.old ++ answer self.now preference (as_event question.now)) }
        ensures err { OnErr result (log.new ≡ log.old) }
    {
        match question {
            View::AskQuery(asked) => self.tell_heads(preference, asked, log),
            View::AskFrontier(asked) => log.push(Line::ToFrontier {
                node: NodeId::from_bytes(*asked.node),
                number: asked.request,
                id: self.last(),
            }),
            View::AskAccepted(asked) => self.tell_accepted(asked, log),
            View::AskAncestors(asked) => self.tell_chain(asked, log),
            View::AskBlock(asked) => self.tell_block(asked, log),
            _ => Ok(()),
        }
    }

    // A node is told the preference and the identifier accepted last.
    fn tell_heads(
        &self,
        preference: Id,
        asked: &Sender<'_>,
        log: &mut Lines,
    ) -> Result<(), AllocError>
        ensures ok { OnOk result (log.new ≡ log.old ++ answer self.now preference (event.AskQuery asked.now.node.now asked.now.request)) }
        ensures err { OnErr result (log.new ≡ log.old) }
    {
        let preference = BoxedId::new(self.alloc, preference)?;
        let last = BoxedId::new(self.alloc, self.last())?;
        log.push(Line::ToChits {
            node: NodeId::from_bytes(*asked.node),
            number: asked.request,
            preference,
            last,
        })
    }

    // A node is told which of the identifiers that it names are held accepted.
    fn tell_accepted(&self, asked: &Listing<'_>, log: &mut Lines) -> Result<(), AllocError>
        ensures ok { OnOk result (log.new ≡ log.old ++ line.ToAccepted asked.now.node.now asked.now.request (accepted_among self.now asked.now.ids.now) ∷ []) }
        ensures err { OnErr result (log.new ≡ log.old) }
    {
        let ids = self.accepted_among(asked.ids)?;
        log.push(Line::ToAccepted {
            node: NodeId::from_bytes(*asked.node),
            number: asked.request,
            ids,
        })
    }

    // A node is given a block and its ancestors, where the block is served.
    fn tell_chain(&self, asked: &Named<'_>, log: &mut Lines) -> Result<(), AllocError>
        ensures ok { OnOk result (log.new ≡ log.old ++ chain_told asked.now.node.now asked.now.request (chain self.now asked.now.id.now)) }
        ensures err { OnErr result (log.new ≡ log.old) }
    {
        let blocks = self.chain(&Id::from_bytes(*asked.id))?;
        if blocks.list().is_empty() {
            return Ok(());
        }
        log.push(Line::ToAncestors {
            node: NodeId::from_bytes(*asked.node),
            number: asked.request,
            blocks,
        })
    }

    // A node is given a block, where it is served.
    fn tell_block(&self, asked: &Named<'_>, log: &mut Lines) -> Result<(), AllocError>
        ensures ok { OnOk result (log.new ≡ log.old ++ option_map_or (λ b. line.ToBlock asked.now.node.now asked.now.request b.bytes ∷ []) (held self.now asked.now.id.now) []) }
        ensures err { OnErr result (log.new ≡ log.old) }
    {
        let id = Id::from_bytes(*asked.id);
        let Some(block) = self.held(&id) else {
            return Ok(());
        };
        let bytes = Bytes::from_slice(self.alloc, block.bytes)?;
        log.push(Line::ToBlock {
            node: NodeId::from_bytes(*asked.node),
            number: asked.request,
            bytes,
        })
    }

    // Those of the identifiers that are held accepted, in order, each once.
    fn accepted_among(&self, ids: &[[u8; 32]]) -> Result<Ids, AllocError>
        ensures { IfOk result (λ told. told ≡ accepted_among self.now ids.now) }
    {
        let mut told = IdSet::new(self.alloc);
        for bytes in ids {
            let id = Id::from_bytes(*bytes);
            if self.is_accepted(&id) {
                told.insert(id)?;
            }
        }
        Ids::from_slice(self.alloc, told.as_slice())
    }

    // The bytes of a block and of its ancestors, as far as they are served.
    fn chain(&self, id: &Id) -> Result<Blocks, AllocError>
        ensures { IfOk result (λ blocks. blocks ≡ map (λ b. b.bytes) (chain self.now id.now)) }
    {
        let mut blocks = Blocks::new(self.alloc);
        let mut room = ANSWER_BYTES;
        let mut next = *id;
        for _count in 0..ANSWER_BLOCKS {
            let Some(block) = self.held(&next) else {
                return Ok(blocks);
            };
            let bytes = block.bytes;
            if bytes.len() > room {
                return Ok(blocks);
            }
            blocks.push(Bytes::from_slice(self.alloc, bytes)?)?;
            room -= bytes.len();
            next = block.parent;
        }
        Ok(blocks)
    }
}

/// A chain is a walk by parents among the blocks that are held, of at most 64 blocks and 524,288
/// bytes, and no longer walk keeps to these limits.
/// Rule: this project's own.
pub fn longest_chain_law()
    ensures { ChainIsLongest }
{}
