ghost use Rattle.std.specs.Prelude.{◌≡◌, ◌<◌, ◌≤◌, length, map, IfOk};
ghost use Rattle.byteorder.specs.Endian.{big_number};
ghost use Rattle.snow_wire.specs.Model.Reading.{IsEnd, Reads, ReadsAs, bytes_at, number_at, limited_at, flag_at, counted_at, sized_at, weighed_at};
ghost use Rattle.snow_wire.specs.Clauses.Spelled.{weighed_in};

use crate::skip::Fault;
use byteorder::{BigEndian, ByteOrder};
use std::marker::Model;

/// Reads fields from the front of bytes. Contracts see the bytes that are left.
#[derive(Drop)]
pub(crate) struct Reader<'a> {
    rest: &'a [u8],
}

impl<'a> Model for Reader<'a> {
    ghost use Rattle.std.specs.Prelude.{ℕ, List};

    ghost Value = { List ℕ };

    ghost view = { λ r. r.rest.now };
}

impl<'a> Reader<'a> {
    pub(crate) fn new(bytes: &'a [u8]) -> Self
        ensures { result ≡ bytes.now }
    {
        Reader { rest: bytes }
    }

    /// Returns the bytes that are left.
    pub(crate) fn rest(&self) -> &'a [u8]
        ensures { result.now ≡ self.now }
    {
        self.rest
    }

    /// Refuses the payload where bytes are left.
    pub(crate) fn end(&self) -> Result<(), Fault>
        ensures { IsEnd result self.now }
    {
        if self.rest.len() > 0 {
            return Err(Fault::Extra);
        }
        Ok(())
    }

    /// Takes so many bytes and returns them.
    #[tactic(auto, unfolding(crate::specs::Model::Reading::bytes_at))]
    fn take(&mut self, n: usize) -> Result<&'a [u8], Fault>
        ensures read { ReadsAs (λ front. front.now) result self.new (bytes_at n self.old) }
        ensures size { IfOk result (λ front. length front.now ≡ n) }
    {
        if self.rest.len() < n {
            return Err(Fault::Short);
        }
        let (front, rest) = self.rest.split_at(n);
        self.rest = rest;
        Ok(front)
    }

    #[tactic(auto, unfolding(crate::specs::Model::Reading::number_at))]
    pub(crate) fn u8(&mut self) -> Result<u8, Fault>
        ensures { Reads result self.new (number_at 1 self.old) }
    {
        if self.rest.is_empty() {
            return Err(Fault::Short);
        }
        let number = self.rest[0];
        self.rest = &self.rest[1..];
        Ok(number)
    }

    #[tactic(auto, unfolding(crate::specs::Model::Reading::number_at))]
    fn u16(&mut self) -> Result<u16, Fault>
        ensures { Reads result self.new (number_at 2 self.old) }
    {
        if self.rest.len() < 2 {
            return Err(Fault::Short);
        }
        let number = BigEndian::read_u16(self.rest);
        self.rest = &self.rest[2..];
        Ok(number)
    }

    #[tactic(auto, unfolding(crate::specs::Model::Reading::number_at))]
    pub(crate) fn u32(&mut self) -> Result<u32, Fault>
        ensures { Reads result self.new (number_at 4 self.old) }
    {
        if self.rest.len() < 4 {
            return Err(Fault::Short);
        }
        let number = BigEndian::read_u32(self.rest);
        self.rest = &self.rest[4..];
        Ok(number)
    }

    #[tactic(auto, unfolding(crate::specs::Model::Reading::number_at))]
    pub(crate) fn u64(&mut self) -> Result<u64, Fault>
        ensures { Reads result self.new (number_at 8 self.old) }
    {
        if self.rest.len() < 8 {
            return Err(Fault::Short);
        }
        let number = BigEndian::read_u64(self.rest);
        self.rest = &self.rest[8..];
        Ok(number)
    }

    /// Returns a count that is at most the limit.
    #[tactic(auto, unfolding(crate::specs::Model::Reading::limited_at))]
    pub(crate) fn count(&mut self, limit: u16) -> Result<u16, Fault>
        ensures { Reads result self.new (limited_at 2 limit self.old) }
    {
        let count = self.u16()?;
        if count > limit {
            return Err(Fault::Count);
        }
        Ok(count)
    }

    /// Returns a byte that is 0 or 1.
    #[tactic(auto, unfolding(crate::specs::Model::Reading::flag_at, crate::specs::Model::Reading::limited_at))]
    pub(crate) fn flag(&mut self) -> Result<bool, Fault>
        ensures { Reads result self.new (flag_at self.old) }
    {
        match self.u8()? {
            0 => Ok(false),
            1 => Ok(true),
            _ => Err(Fault::Count),
        }
    }

    /// Returns the bytes of an identifier, where they stand.
    #[tactic(auto, unfolding(crate::specs::Model::Reading::bytes_at))]
    pub(crate) fn id(&mut self) -> Result<&'a [u8; 32], Fault>
        ensures { ReadsAs (λ id. id.now) result self.new (bytes_at 32 self.old) }
    {
        match self.rest.split_first_chunk::<32>() {
            Some((id, rest)) => {
                self.rest = rest;
                Ok(id)
            }
            None => Err(Fault::Short),
        }
    }

    /// Returns a count that is at most the limit, and so many items of one width, where they stand.
    #[tactic(auto, unfolding(crate::specs::Model::Reading::counted_at))]
    pub(crate) fn list<const N: usize>(&mut self, limit: u16) -> Result<&'a [[u8; N]], Fault>
        requires some { 0 < N }
        requires few { N ≤ 32 }
        ensures { ReadsAs (λ list. list.now) result self.new (counted_at (bytes_at N) limit self.old) }
    {
        let count = self.count(limit)?;
        let bytes = self.take(N * usize::from(count))?;
        let (list, _) = bytes.as_chunks::<N>();
        Ok(list)
    }

    /// Returns a count that is at most the limit, and so many numbers of eight bytes, where they
    /// stand.
    pub(crate) fn words(&mut self, limit: u16) -> Result<&'a [[u8; 8]], Fault>
        ensures { ReadsAs (λ words. map (big_number 8) words.now) result self.new (counted_at (number_at 8) limit self.old) }
    {
        self.list::<8>(limit)
    }

    /// Returns a count that is at most the limit, and so many nodes with their weights, where they
    /// stand.
    pub(crate) fn nodes(&mut self, limit: u16) -> Result<&'a [[u8; 28]], Fault>
        ensures { ReadsAs (λ nodes. map weighed_in nodes.now) result self.new (counted_at weighed_at limit self.old) }
    {
        self.list::<28>(limit)
    }

    /// Returns the bytes of a node, where they stand.
    #[tactic(auto, unfolding(crate::specs::Model::Reading::bytes_at))]
    pub(crate) fn node(&mut self) -> Result<&'a [u8; 20], Fault>
        ensures { ReadsAs (λ node. node.now) result self.new (bytes_at 20 self.old) }
    {
        match self.rest.split_first_chunk::<20>() {
            Some((node, rest)) => {
                self.rest = rest;
                Ok(node)
            }
            None => Err(Fault::Short),
        }
    }

    /// Returns a length that is at most the limit, and so many bytes, where they stand.
    #[tactic(auto, unfolding(crate::specs::Model::Reading::sized_at, crate::specs::Model::Reading::limited_at))]
    pub(crate) fn slice(&mut self, limit: u32) -> Result<&'a [u8], Fault>
        ensures { ReadsAs (λ bytes. bytes.now) result self.new (sized_at limit self.old) }
    {
        let len = self.u32()?;
        if len > limit {
            return Err(Fault::Count);
        }
        self.take(len as usize)
    }
}
