ghost use Rattle.std.specs.Prelude.{◌≡◌, IfOk};
ghost use Rattle.std.specs.Iterator.{YieldsFirstRef};
ghost use Rattle.snow_wire.specs.Model.Reading.{ReadsAs, block_at, counted_at, items_at, items_in};

use crate::reader::Reader;
use crate::skip::Fault;
use snow_base::limits::BLOCK_BYTES;
use snow_base::{Blocks, Bytes};
use std::alloc::{AllocError, Global};
use std::marker::Model;

/// Blocks whose bytes still stand in the payload of their frame, each behind its length. Contracts
/// see the list of those that are left; each step takes the first one off.
/// Rule: this project's own.
#[derive(Drop)]
pub struct Packed<'a> {
    count: u16,
    bytes: &'a [u8],
}

impl<'a> Model for Packed<'a> {
    ghost use Rattle.std.specs.Prelude.{ℕ, List, IsOk};
    ghost use Rattle.snow_wire.specs.Model.Reading.{block_at, items_at, items_in};

    ghost Value = { List (List ℕ) };

    ghost view = { λ p. items_in (items_at block_at p.count p.bytes.now) };

    ghost invariant = { λ p. IsOk (items_at block_at p.count p.bytes.now) };
}

impl<'a> Packed<'a> {
    /// Returns a count that is at most the limit, and so many blocks.
    #[tactic(auto, unfolding(crate::specs::Model::Reading::counted_at))]
    pub(crate) fn read(reader: &mut Reader<'a>, limit: u16) -> Result<Self, Fault>
        ensures { ReadsAs (λ blocks. blocks) result reader.new (counted_at block_at limit reader.old) }
    {
        let count = reader.count(limit)?;
        let bytes = reader.rest();
        for _ in 0..count {
            reader.slice(BLOCK_BYTES)?;
        }
        Ok(Packed { count, bytes })
    }

    /// Returns the same blocks, to be gone through apart from these.
    /// Rule: this project's own.
    pub fn again(&self) -> Packed<'a>
        ensures { result ≡ self.now }
    {
        Packed {
            count: self.count,
            bytes: self.bytes,
        }
    }

    /// Returns a list of the blocks. On want of memory it returns `AllocError`.
    /// Rule: this project's own.
    pub fn to_blocks(&self, alloc: Global) -> Result<Blocks, AllocError>
        ensures { IfOk result (λ made. made ≡ self.now) }
    {
        let mut blocks = Blocks::with_capacity(alloc, usize::from(self.count))?;
        for block in self.again() {
            blocks.push(Bytes::from_slice(alloc, block)?)?;
        }
        Ok(blocks)
    }

    // Takes the first block off.
    fn first(&mut self) -> Option<&'a [u8]>
        ensures { YieldsFirstRef (λ blocks. blocks) self.old result self.new }
    {
        if self.count == 0 {
            return None;
        }
        let mut reader = Reader::new(self.bytes);
        let Ok(block) = reader.slice(BLOCK_BYTES) else {
            return None;
        };
        self.count -= 1;
        self.bytes = reader.rest();
        Some(block)
    }
}

impl<'a> Iterator for Packed<'a> {
    ghost use Rattle.std.specs.Iterator.{YieldsFirstRef, item_count};

    type Item = &'a [u8];

    ghost next_gives = { YieldsFirstRef (λ blocks. blocks) };

    ghost remaining = { item_count (λ blocks. blocks) };

    fn next(&mut self) -> Option<&'a [u8]> {
        self.first()
    }
}
