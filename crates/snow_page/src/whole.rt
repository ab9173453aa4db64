//! Lines that come often, as large pieces: each is copied at once.

ghost use Rattle.std.specs.Prelude.{◌≡◌, [], ◌∷◌, ◌++◌, length};
ghost use Rattle.hex.specs.Hex.{encode_lower};
ghost use Rattle.snow_lines.specs.Model.Text.{spaced};

use snow_base::{Id, NodeId};
use snow_digits::{write_id, write_node};

/// Returns a whole line of a word of six bytes, a space and an identifier, with its newline: 72
/// bytes.
/// Rule: this project's own.
#[inline(always)]
pub fn word_and_id(word: &[u8; 6], id: &Id) -> [u8; 72]
    ensures { result ≡ word.now ++ (spaced (encode_lower id.now) ++ 10 ∷ []) }
{
    let mut line = [b' '; 72];
    let (front, back) = line.split_at_mut(6);
    front.copy_from_slice(word);
    write_id_end(id, back);
    line
}

/// Returns the end of a line that asks a node for a block: a node and an identifier, each behind a
/// space, and a newline: 107 bytes.
/// Rule: this project's own.
#[inline(always)]
pub fn node_and_id(node: &NodeId, id: &Id) -> [u8; 107]
    ensures { result ≡ spaced (encode_lower node.now) ++ (spaced (encode_lower id.now) ++ 10 ∷ []) }
{
    let mut words = [b' '; 107];
    let (front, back) = words.split_at_mut(41);
    write_node_word(node, front);
    write_id_end(id, back);
    words
}

/// Writes the word of a node over a slice of just its length.
#[inline(always)]
fn write_node_word(node: &NodeId, word: &mut [u8])
    requires { length word.old ≡ 41 }
    ensures { word.new ≡ spaced (encode_lower node.now) }
{
    let (space, digits) = word.split_at_mut(1);
    space[0] = b' ';
    write_node(node, digits);
}

/// Writes the word of an identifier and a newline over a slice of just their length.
#[inline(always)]
fn write_id_end(id: &Id, word: &mut [u8])
    requires { length word.old ≡ 66 }
    ensures { word.new ≡ spaced (encode_lower id.now) ++ 10 ∷ [] }
{
    let (front, end) = word.split_at_mut(65);
    write_id_word(id, front);
    end[0] = b'\n';
}

/// Writes the word of an identifier over a slice of just its length.
#[inline(always)]
fn write_id_word(id: &Id, word: &mut [u8])
    requires { length word.old ≡ 65 }
    ensures { word.new ≡ spaced (encode_lower id.now) }
{
    let (space, digits) = word.split_at_mut(1);
    space[0] = b' ';
    write_id(id, digits);
}
