//! The words of blocks.

ghost use Rattle.std.specs.Prelude.{◌≡◌, ◌≤◌, ◌/◌, [], ◌∷◌, length};
ghost use Rattle.snow_text_model.specs.declared.block_form.BlockForm.TheVariants as form;
ghost use Rattle.snow_text_model.specs.Model.Blocks.{behind_words, block_line, transfer_text, transfer_texts, words_in};
ghost use Rattle.snow_text_model.specs.Model.Shown.{line};
ghost use Rattle.snow_show.specs.Clauses.Putting.{Puts};
ghost use Rattle.snow_show.specs.Kept.Listing.{is_ledger, led, plain_fields, tally_fields};

use crate::bytes::{put_bytes, put_fixed_word};
use crate::put::{put, put_marked_number};
use byteorder::{BigEndian, ByteOrder};
use snow_text_model::BlockForm;
use std::alloc::AllocError;

/// Puts the bytes behind the fields of a block behind a text, with a space before them, if there
/// are any.
fn put_behind(text: &mut Vec<u8>, bytes: &[u8]) -> Result<(), AllocError>
    ensures { Puts result text.old.items text.new.items (led (32 ∷ []) (32 ∷ []) (behind_words bytes.now)) }
{
    if bytes.len() == 0 {
        return Ok(());
    }
    put(text, b" ")?;
    put_bytes(text, bytes)
}

/// Puts the fields of a plain block behind its identifiers.
fn put_plain_fields(text: &mut Vec<u8>, bytes: &[u8]) -> Result<(), AllocError>
    requires { 9 ≤ length bytes.now }
    ensures { Puts result text.old.items text.new.items (plain_fields bytes.now) }
{
    let (_, behind) = bytes.split_at(9);
    put_marked_number(text, b" ", BigEndian::read_u64(bytes))?;
    put_marked_number(text, b" ", u64::from(bytes[8]))?;
    put_behind(text, behind)
}

/// Puts the words of a plain block behind a text.
fn put_plain(text: &mut Vec<u8>, bytes: &[u8]) -> Result<(), AllocError>
    requires { 73 ≤ length bytes.now }
    ensures { Puts result text.old.items text.new.items (line (words_in form.Plain bytes.now)) }
{
    let (id, behind) = bytes.split_at(32);
    let (parent, fields) = behind.split_at(32);
    put(text, b"plain")?;
    put_fixed_word(text, id)?;
    put_fixed_word(text, parent)?;
    put_plain_fields(text, fields)
}

/// Puts the fields of a tally block behind its parent.
fn put_tally_fields(text: &mut Vec<u8>, bytes: &[u8]) -> Result<(), AllocError>
    requires { 16 ≤ length bytes.now }
    ensures { Puts result text.old.items text.new.items (tally_fields bytes.now) }
{
    let (_, behind) = bytes.split_at(16);
    put_marked_number(text, b" ", BigEndian::read_u64(bytes))?;
    put_marked_number(text, b" ", BigEndian::read_u64(&bytes[8..]))?;
    put_behind(text, behind)
}

/// Puts the words of a tally block behind a text.
fn put_tally(text: &mut Vec<u8>, bytes: &[u8]) -> Result<(), AllocError>
    requires { 48 ≤ length bytes.now }
    ensures { Puts result text.old.items text.new.items (line (words_in form.Tally bytes.now)) }
{
    let (parent, fields) = bytes.split_at(32);
    put(text, b"tally")?;
    put_fixed_word(text, parent)?;
    put_tally_fields(text, fields)
}

/// Puts a space and a transfer, in 20 bytes, behind a text.
fn put_transfer(text: &mut Vec<u8>, bytes: &[u8]) -> Result<(), AllocError>
    requires { length bytes.now ≡ 20 }
    ensures { Puts result text.old.items text.new.items (32 ∷ transfer_text bytes.now) }
{
    put_marked_number(text, b" ", u64::from(BigEndian::read_u16(bytes)))?;
    put_marked_number(text, b">", u64::from(BigEndian::read_u16(&bytes[2..])))?;
    put_marked_number(text, b":", BigEndian::read_u64(&bytes[4..]))?;
    put_marked_number(text, b"@", BigEndian::read_u64(&bytes[12..]))
}

/// Puts transfers behind a text, each with a space before it.
#[tactic(auto, using(crate::proofs::Putting::going_begins, crate::proofs::Putting::going_stops))]
fn put_transfers(text: &mut Vec<u8>, bytes: &[u8]) -> Result<(), AllocError>
    ensures { Puts result text.old.items text.new.items (led (32 ∷ []) (32 ∷ []) (transfer_texts (length bytes.now / 20) bytes.now)) }
{
    let mut rest = bytes;
    while rest.len() >= 20 {
        let (transfer, more) = rest.split_at(20);
        put_transfer(text, transfer)?;
        rest = more;
    }
    Ok(())
}

/// Puts the words of a ledger's block behind a text.
fn put_ledger(text: &mut Vec<u8>, bytes: &[u8]) -> Result<(), AllocError>
    requires { 42 ≤ length bytes.now }
    ensures { Puts result text.old.items text.new.items (line (words_in form.Ledger bytes.now)) }
{
    let (parent, fields) = bytes.split_at(32);
    let (_, transfers) = bytes.split_at(42);
    put(text, b"ledger")?;
    put_fixed_word(text, parent)?;
    put_marked_number(text, b" ", BigEndian::read_u64(fields))?;
    put_transfers(text, transfers)
}

/// Puts a plain block behind a text, in words where it has their length.
fn put_if_plain(text: &mut Vec<u8>, bytes: &[u8]) -> Result<(), AllocError>
    ensures { Puts result text.old.items text.new.items (block_line form.Plain bytes.now) }
{
    if bytes.len() < 73 {
        return put_bytes(text, bytes);
    }
    put_plain(text, bytes)
}

/// Puts a tally block behind a text, in words where it has their length.
fn put_if_tally(text: &mut Vec<u8>, bytes: &[u8]) -> Result<(), AllocError>
    ensures { Puts result text.old.items text.new.items (block_line form.Tally bytes.now) }
{
    if bytes.len() < 48 {
        return put_bytes(text, bytes);
    }
    put_tally(text, bytes)
}

/// Returns whether a ledger block has just the transfers that it counts.
fn is_ledger(bytes: &[u8]) -> bool
    ensures { result ≡ is_ledger bytes.now }
{
    if bytes.len() < 42 {
        return false;
    }
    bytes.len() == 42 + 20 * usize::from(BigEndian::read_u16(&bytes[40..]))
}

/// Puts a ledger's block behind a text, in words where it has just the transfers that it counts.
fn put_if_ledger(text: &mut Vec<u8>, bytes: &[u8]) -> Result<(), AllocError>
    ensures { Puts result text.old.items text.new.items (block_line form.Ledger bytes.now) }
{
    if is_ledger(bytes) {
        return put_ledger(text, bytes);
    }
    put_bytes(text, bytes)
}

/// Puts a block behind a text, in its words with a space between two of them.
/// On want of memory it returns `AllocError`, and the text begins with what it was.
/// Rule: this project's own.
pub fn put_block(text: &mut Vec<u8>, form: BlockForm, bytes: &[u8]) -> Result<(), AllocError>
    ensures { Puts result text.old.items text.new.items (block_line form bytes.now) }
{
    match form {
        BlockForm::Bytes => put_bytes(text, bytes),
        BlockForm::Plain => put_if_plain(text, bytes),
        BlockForm::Tally => put_if_tally(text, bytes),
        BlockForm::Ledger => put_if_ledger(text, bytes),
    }
}
