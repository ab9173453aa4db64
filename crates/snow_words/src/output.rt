ghost use Rattle.std.specs.Prelude.{◌≡◌, ◌+◌, ◌*◌, ◌^◌, ◌<◌, ◌≤◌, [], ◌∷◌, ◌++◌, length, take, drop, replicate, OnOk, OnErr, flat_map};
ghost use Rattle.std.specs.List.{list_all};
ghost use Rattle.hex.specs.Hex.{encode_lower};
ghost use Rattle.snow_wire.specs.Model.Spelling.{number};
ghost use Rattle.snow_text_model.specs.Model.Bytes.{digits_word, is_small};
ghost use Rattle.snow_words.specs.Clauses.Making.{Tells, onto};
ghost use Rattle.snow_words.specs.Clauses.Numbers.{size_of};

use crate::number::Width;
use crate::stop::Why;
use byteorder::{BigEndian, ByteOrder};
use snow_text_model::Reason;
use std::alloc::{AllocError, Global};
use std::marker::Model;

/// Bytes that words say, one behind the other. Contracts see the list of them.
/// Rule: this project's own.
#[derive(Drop)]
pub struct Output {
    bytes: Vec<u8>,
}

impl Model for Output {
    ghost use Rattle.std.specs.Prelude.{ℕ, List};

    ghost Value = { List ℕ };

    ghost view = { λ a. a.bytes.items };
}

impl Output {
    /// Returns no bytes. It takes no memory.
    /// Rule: this project's own.
    pub fn new(alloc: Global) -> Self
        ensures { result ≡ [] }
    {
        Output {
            bytes: Vec::new(alloc),
        }
    }

    /// Returns the bytes.
    /// Rule: this project's own.
    pub fn list(&self) -> &[u8]
        ensures { result.now ≡ self.now }
    {
        self.bytes.as_slice()
    }

    /// Returns how many bytes stand there.
    /// Rule: this project's own.
    pub fn len(&self) -> usize
        ensures len { result ≡ length self.now }
        ensures few { result < 2 ^ 63 }
    {
        self.bytes.len()
    }

    /// Takes all bytes out. It takes no memory.
    /// Rule: this project's own.
    pub fn clear(&mut self)
        ensures { self.new ≡ [] }
    {
        self.bytes.clear();
    }

    /// Takes the bytes out that stand behind so many. It takes no memory.
    /// Rule: this project's own.
    pub fn cut(&mut self, len: usize)
        ensures { self.new ≡ take len self.old }
    {
        self.bytes.truncate(len);
    }

    /// Appends bytes. On want of memory it returns `AllocError`, and the bytes stay as they were.
    /// Rule: this project's own.
    pub fn append(&mut self, bytes: &[u8]) -> Result<(), AllocError>
        ensures ok { OnOk result (self.new ≡ self.old ++ bytes.now) }
        ensures err { OnErr result (self.new ≡ self.old) }
    {
        self.bytes.extend_from_slice(bytes)?;
        Ok(())
    }

    /// Appends a byte. On want of memory it returns `AllocError`, and the bytes stay as they were.
    /// Rule: this project's own.
    pub fn push(&mut self, byte: u8) -> Result<(), AllocError>
        ensures ok { OnOk result (self.new ≡ self.old ++ byte ∷ []) }
        ensures err { OnErr result (self.new ≡ self.old) }
    {
        self.bytes.push(byte)?;
        Ok(())
    }

    /// Appends a byte again and again. On want of memory it returns `AllocError`.
    /// Rule: this project's own.
    pub fn repeat(&mut self, byte: u8, times: usize) -> Result<(), AllocError>
        requires { times ≤ 2 ^ 62 }
        ensures { OnOk result (self.new ≡ self.old ++ replicate times byte) }
    {
        let len = self.bytes.len() + times;
        self.bytes.resize(len, byte)?;
        Ok(())
    }

    /// Appends the small hexadecimal digits of bytes. On want of memory it returns `AllocError`.
    /// Rule: this project's own.
    pub fn encode(&mut self, bytes: &[u8]) -> Result<(), AllocError>
        ensures { OnOk result (self.new ≡ self.old ++ encode_lower bytes.now) }
    {
        // (so many have no digits in memory)
        if bytes.len() > 1_152_921_504_606_846_976 {
            return Err(AllocError);
        }
        let len = self.bytes.len();
        self.bytes.resize(len + 2 * bytes.len(), 0)?;
        let encoded = hex::encode_to_slice(bytes, &mut self.bytes[len..]);
        prove!(encoded.is_ok());
        let _ = encoded;
        Ok(())
    }

    /// Appends a number in so many bytes, the highest first. On want of memory it returns
    /// `AllocError`, and the bytes stay as they were.
    /// Rule: this project's own.
    #[tactic(auto, using(crate::proofs::Saying::number_is))]
    pub fn number(&mut self, width: Width, n: u64) -> Result<(), AllocError>
        requires { n < 2 ^ (8 * size_of width) }
        ensures err { OnErr result (self.new ≡ self.old) }
        ensures ok { OnOk result (self.new ≡ self.old ++ number (size_of width) n) }
    {
        let mut bytes = [0; 8];
        match width {
            Width::One => self.push(n as u8),
            Width::Two => {
                BigEndian::write_u16(&mut bytes, n as u16);
                self.append(&bytes[..2])
            }
            Width::Four => {
                BigEndian::write_u32(&mut bytes, n as u32);
                self.append(&bytes[..4])
            }
            Width::Eight => {
                BigEndian::write_u64(&mut bytes, n);
                self.append(&bytes)
            }
        }
    }

    /// Appends a number of eight bytes again and again. On want of memory it returns `AllocError`.
    /// Rule: this project's own.
    #[tactic(auto, using(crate::proofs::Listed::again_next))]
    pub fn numbers(&mut self, n: u64, times: usize) -> Result<(), AllocError>
        ensures { OnOk result (self.new ≡ self.old ++ flat_map (λ x. x) (replicate times (number 8 n))) }
    {
        for again in 0..times {
            self.number(Width::Eight, n)?;
        }
        Ok(())
    }

    /// Writes a number of two bytes over those behind so many.
    /// Rule: this project's own.
    pub fn write_short(&mut self, at: usize, n: u16)
        requires { at + 2 ≤ length self.old }
        ensures { self.new ≡ take at self.old ++ number 2 n ++ drop (at + 2) self.old }
    {
        write_two(self.bytes.as_mut_slice(), at, n);
    }

    /// Writes a number of four bytes over those behind so many.
    /// Rule: this project's own.
    pub fn write_long(&mut self, at: usize, n: u32)
        requires { at + 4 ≤ length self.old }
        ensures { self.new ≡ take at self.old ++ number 4 n ++ drop (at + 4) self.old }
    {
        write_four(self.bytes.as_mut_slice(), at, n);
    }

    /// Appends the bytes that pairs of small hexadecimal digits say. It returns `Digits` exactly
    /// where the word says none.
    /// Rule: this project's own.
    #[tactic(auto, unfolding(snow_text_model::specs::Model::Bytes::digits_word))]
    pub fn digits(&mut self, word: &[u8]) -> Result<(), Why>
        ensures { Tells result self.new (onto self.old (digits_word word.now)) }
    {
        if word.is_empty() || !are_small(word) {
            return Err(Why::Not(Reason::Digits));
        }
        let len = self.bytes.len();
        self.bytes.resize(len + word.len() / 2, 0)?;
        match hex::decode_to_slice(word, &mut self.bytes[len..]) {
            Ok(()) => Ok(()),
            Err(_) => Err(Why::Not(Reason::Digits)),
        }
    }
}

// Writes a number of two bytes over those at a place.
#[tactic(auto, using(crate::proofs::Saying::number_is, crate::proofs::Saying::written_at))]
fn write_two(bytes: &mut [u8], at: usize, n: u16)
    requires { at + 2 ≤ length bytes.old }
    ensures { bytes.new ≡ take at bytes.old ++ number 2 n ++ drop (at + 2) bytes.old }
{
    BigEndian::write_u16(&mut bytes[at..], n);
}

// Writes a number of four bytes over those at a place.
#[tactic(auto, using(crate::proofs::Saying::number_is, crate::proofs::Saying::written_at))]
fn write_four(bytes: &mut [u8], at: usize, n: u32)
    requires { at + 4 ≤ length bytes.old }
    ensures { bytes.new ≡ take at bytes.old ++ number 4 n ++ drop (at + 4) bytes.old }
{
    BigEndian::write_u32(&mut bytes[at..], n);
}

// Whether no capital letter of a hexadecimal number stands there.
fn are_small(word: &[u8]) -> bool
    ensures { result ≡ list_all is_small word.now }
{
    word.iter().all(|c| *c < 65 || 70 < *c)
}
