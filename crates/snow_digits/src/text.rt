ghost use Rattle.std.specs.Prelude.{◌≡◌, ◌+◌, ◌≤◌, [], ◌∷◌, ◌++◌, length, decimal};
ghost use Rattle.hex.specs.Hex.{encode_lower};

use crate::digits::{id_digits, marked};
use snow_base::Id;
use std::marker::Model;

/// A short text of at most `ROOM` bytes, built in place. It takes no memory. Contracts see its
/// bytes.
/// Rule: this project's own.
#[derive(Drop)]
pub struct Text<const ROOM: usize> {
    bytes: [u8; ROOM],
    len: usize,
}

impl<const ROOM: usize> Model for Text<ROOM> {
    ghost use Rattle.std.specs.Prelude.{ℕ, List, take, ◌≤◌};

    ghost Value = { List ℕ };

    ghost view = { λ a. take a.len a.bytes };

    ghost invariant = { λ a. a.len ≤ ROOM };
}

impl<const ROOM: usize> Text<ROOM> {
    /// Returns the empty text.
    /// Rule: this project's own.
    pub fn new() -> Self
        ensures { result ≡ [] }
    {
        Text {
            bytes: [0; ROOM],
            len: 0,
        }
    }

    /// Returns its bytes, at most `ROOM`.
    /// Rule: this project's own.
    pub fn as_slice(&self) -> &[u8]
        ensures text { result.now ≡ self.now }
        ensures length { length self.now ≤ ROOM }
    {
        &self.bytes[..self.len]
    }

    /// Appends a piece, for which there is room.
    /// Rule: this project's own.
    pub fn push(&mut self, piece: &[u8])
        requires { length self.old + length piece.now ≤ ROOM }
        ensures text { self.new ≡ self.old ++ piece.now }
        ensures length { length self.new ≡ length self.old + length piece.now }
    {
        let end = self.len + piece.len();
        let bytes = &mut self.bytes[..];
        bytes[self.len..end].copy_from_slice(piece);
        self.len = end;
    }

    /// Appends a mark and a number below 2^64 in decimal behind it. There is room for 21 bytes.
    /// Rule: this project's own.
    pub fn push_number(&mut self, mark: u8, number: u64)
        requires { length self.old + 21 ≤ ROOM }
        ensures text { self.new ≡ self.old ++ mark ∷ decimal number }
        ensures length { length self.new ≤ length self.old + 21 }
    {
        let mut buffer = [0; 21];
        self.push(marked(mark, number, &mut buffer));
    }

    /// Appends a mark and the 64 digits of an identifier behind it. There is room for 65 bytes.
    /// Rule: this project's own.
    pub fn push_id(&mut self, mark: u8, id: &Id)
        requires { length self.old + 65 ≤ ROOM }
        ensures text { self.new ≡ self.old ++ mark ∷ encode_lower id.now }
        ensures length { length self.new ≡ length self.old + 65 }
    {
        self.push(&[mark]);
        self.push(&id_digits(id));
    }
}
