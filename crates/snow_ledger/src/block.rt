ghost use Rattle.std.specs.Prelude.{◌≡◌, ◌+◌, ◌<◌, ◌≤◌, true, length};
ghost use Rattle.snow_ledger.specs.Model.Blocks.{short_at, count_of, is_whole, header_of, transfer_at, transfer_in};

use crate::state::Transfer;
use byteorder::{BigEndian, ByteOrder};
use sha2::{Digest, Sha256};
use snow_base::{Header, Id};
use snow_chain::{id_at, number_at};

/// Returns the transfer at a place of a block, counted from 0. It returns `None` exactly where the
/// bytes are no block, or the block has no transfer there. It takes no memory.
/// Rule: this project's own.
#[tactic(auto, unfolding(crate::specs::Model::Blocks::header_of))]
pub fn transfer(bytes: &[u8], place: usize) -> Option<Transfer>
    ensures { result ≡ transfer_in bytes.now place }
{
    if !is_whole(bytes) {
        return None;
    }
    if place >= usize::from(count_of(bytes)) {
        return None;
    }
    Some(transfer_at(bytes, place))
}

// What the bytes of a block say of it.
#[tactic(auto, unfolding(crate::specs::Model::Blocks::header_of))]
pub(crate) fn header_of(bytes: &[u8]) -> Option<Header>
    ensures { result ≡ header_of bytes.now }
{
    if !is_whole(bytes) {
        return None;
    }
    Some(Header {
        id: Id::from_bytes(Sha256::digest(bytes)),
        parent: id_at(bytes, 0),
        height: number_at(bytes, 32),
    })
}

// Whether there are as many bytes as the count of transfers wants.
pub(crate) fn is_whole(bytes: &[u8]) -> bool
    ensures { result ≡ is_whole bytes.now }
{
    bytes.len() >= 42 && bytes.len() == 42 + 20 * usize::from(count_of(bytes))
}

// How many transfers a block says it has.
pub(crate) fn count_of(bytes: &[u8]) -> u16
    requires { 42 ≤ length bytes.now }
    ensures { result ≡ count_of bytes.now }
{
    short_at(bytes, 40)
}

// The transfer at a place of a block that has so many.
pub(crate) fn transfer_at(bytes: &[u8], place: usize) -> Transfer
    requires whole { is_whole bytes.now ≡ true }
    requires place { place < count_of bytes.now }
    ensures { result ≡ transfer_at bytes.now place }
{
    let at = 42 + 20 * place;
    Transfer {
        from: short_at(bytes, at),
        to: short_at(bytes, at + 2),
        amount: number_at(bytes, at + 4),
        sequence: number_at(bytes, at + 12),
    }
}

// The number in the 2 bytes from `at` on, the higher first.
fn short_at(bytes: &[u8], at: usize) -> u16
    requires { at + 2 ≤ length bytes.now }
    ensures { result ≡ short_at bytes.now at }
{
    BigEndian::read_u16(&bytes[at..])
}
