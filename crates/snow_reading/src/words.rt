ghost use Rattle.std.specs.Prelude.{◌≡◌, ◌==◌, [], drop, is_none, IfOk};
ghost use Rattle.std.specs.List.{slice_split};
ghost use Rattle.std.specs.Option.{option_map};
ghost use Rattle.snow_reading.specs.Model.Reading.{IsCut, Reads, block_of, bytes_of, draw_of, field, first, items, told_at};

use crate::field::{self, Field};
use snow_base::{Blocks, Id, Ids, NodeId};
use snow_lines::Draws;
use std::alloc::{AllocError, Global};
use std::marker::Model;

/// The words of some bytes, each of which is taken once. Contracts see those that are left.
/// Rule: this project's own.
#[derive(Drop)]
pub struct Words<'a> {
    rest: Option<&'a [u8]>,
}

impl<'a> Model for Words<'a> {
    ghost use Rattle.std.specs.Prelude.{ℕ, List, [], ◌==◌};
    ghost use Rattle.std.specs.List.{slice_split};
    ghost use Rattle.std.specs.Option.{option_map_or};

    ghost Value = { List (List ℕ) };

    ghost view = { λ a. option_map_or (λ rest. slice_split (λ b. b == 32) rest.now) a.rest [] };
}

impl<'a> Words<'a> {
    /// Returns the words of these bytes, cut at each space. Between two spaces stands an empty
    /// word.
    /// Rule: this project's own.
    pub fn new(bytes: &'a [u8]) -> Self
        ensures { result ≡ slice_split (λ b. b == 32) bytes.now }
    {
        Words { rest: Some(bytes) }
    }

    /// Takes the next word and returns it, or `None` exactly where none is left.
    /// Rule: this project's own.
    pub fn next(&mut self) -> Option<&'a [u8]>
        ensures word { option_map (λ w. w.now) result ≡ first self.old }
        ensures rest { self.new ≡ drop 1 self.old }
    {
        let rest = self.rest?;
        match space(rest) {
            None => {
                self.rest = None;
                Some(rest)
            }
            Some(at) => {
                self.rest = Some(&rest[at + 1..]);
                Some(&rest[..at])
            }
        }
    }

    /// Returns whether no word is left. Where one is left it takes it.
    /// Rule: this project's own.
    pub fn is_at_end(&mut self) -> bool
        ensures { result ≡ is_none (first self.old) }
    {
        self.next().is_none()
    }

    /// Takes the next word and returns what it stands for. It returns `None` where no word is left
    /// or it stands for no such thing.
    /// Rule: this project's own.
    #[tactic(auto, unfolding(crate::specs::Model::Reading::field))]
    pub fn take<T: Field>(&mut self) -> Option<T>
        ensures { Reads result self.new (field T.read self.old) }
    {
        T::of(self.next()?)
    }

    /// Takes two words and returns the node and the number for which they stand, or `None` where
    /// they stand for none.
    /// Rule: this project's own.
    #[tactic(auto, unfolding(crate::specs::Model::Reading::told_at))]
    pub fn told(&mut self) -> Option<(NodeId, u32)>
        ensures { Reads result self.new (told_at self.old) }
    {
        let node = self.take()?;
        let number = self.take()?;
        Some((node, number))
    }

    /// Returns the identifiers for which all words left stand, or `None` where one of them stands
    /// for none. On want of memory it returns `AllocError`.
    /// Rule: this project's own.
    #[tactic(auto, using(crate::proofs::Cutting::listing))]
    pub fn ids(&mut self, alloc: Global) -> Result<Option<Ids>, AllocError>
        ensures { IfOk result (λ r. r ≡ items (bytes_of 32) self.old) }
    {
        let mut ids = Ids::new(alloc);
        while let Some(word) = self.next() {
            match Id::of(word) {
                None => return Ok(None),
                Some(id) => ids.push(id)?,
            }
        }
        Ok(Some(ids))
    }

    /// Returns the draws for which all words left stand, or `None` where one of them stands for
    /// none. On want of memory it returns `AllocError`.
    /// Rule: this project's own.
    #[tactic(auto, using(crate::proofs::Cutting::listing))]
    pub fn draws(&mut self, alloc: Global) -> Result<Option<Draws>, AllocError>
        ensures { IfOk result (λ r. r ≡ items draw_of self.old) }
    {
        let mut draws = Draws::new(alloc);
        while let Some(word) = self.next() {
            match field::draw(word) {
                None => return Ok(None),
                Some(draw) => draws.push(draw)?,
            }
        }
        Ok(Some(draws))
    }

    /// Returns the blocks for which all words left stand, or `None` where one of them stands for
    /// none. On want of memory it returns `AllocError`.
    /// Rule: this project's own.
    #[tactic(auto, using(crate::proofs::Cutting::listing))]
    pub fn blocks(&mut self, alloc: Global) -> Result<Option<Blocks>, AllocError>
        ensures { IfOk result (λ r. r ≡ items block_of self.old) }
    {
        let mut blocks = Blocks::new(alloc);
        while let Some(word) = self.next() {
            match field::block(alloc, word)? {
                None => return Ok(None),
                Some(block) => blocks.push(block)?,
            }
        }
        Ok(Some(blocks))
    }
}

// The place of the first space.
#[tactic(auto, using(crate::proofs::Cutting::cut_end, crate::proofs::Cutting::cut_at, crate::proofs::Cutting::no_space_next))]
fn space(bytes: &[u8]) -> Option<usize>
    ensures { IsCut bytes.now result }
{
    for at in 0..bytes.len() {
        if bytes[at] == b' ' {
            return Some(at);
        }
    }
    None
}
