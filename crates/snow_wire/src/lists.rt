//! Lists of one's own, made of those in a view.
ghost use Rattle.std.specs.Prelude.{◌≡◌, map, IfOk};
ghost use Rattle.byteorder.specs.Endian.{big_number};
ghost use Rattle.snow_wire.specs.Clauses.Spelled.{weighed_in};

use byteorder::{BigEndian, ByteOrder};
use snow_base::{Ids, NodeId, Nodes, Nums};
use std::alloc::{AllocError, Global};

/// Returns a list of these identifiers. On want of memory it returns `AllocError`. (`Ids::replace`
/// puts them into a list that is there.)
/// Rule: this project's own.
pub fn ids_of(alloc: Global, ids: &[[u8; 32]]) -> Result<Ids, AllocError>
    ensures { IfOk result (λ made. made ≡ ids.now) }
{
    let mut made = Ids::new(alloc);
    made.replace(ids)?;
    Ok(made)
}

/// Returns a list of these numbers, each the highest byte first. On want of memory it returns
/// `AllocError`.
/// Rule: this project's own.
#[tactic(auto, using(crate::proofs::Together::one_made))]
pub fn words_of(alloc: Global, words: &[[u8; 8]]) -> Result<Nums, AllocError>
    ensures { IfOk result (λ made. made ≡ map (big_number 8) words.now) }
{
    let mut made = Nums::with_capacity(alloc, words.len())?;
    for word in words {
        made.push(BigEndian::read_u64(word))?;
    }
    Ok(made)
}

/// Returns a list of these nodes, each with its weight: 20 bytes, and the weight in 8, the highest
/// first. On want of memory it returns `AllocError`.
/// Rule: this project's own.
#[tactic(auto, using(crate::proofs::Together::one_made))]
pub fn nodes_of(alloc: Global, nodes: &[[u8; 28]]) -> Result<Nodes, AllocError>
    ensures { IfOk result (λ made. made ≡ map weighed_in nodes.now) }
{
    let mut made = Nodes::with_capacity(alloc, nodes.len())?;
    for node in nodes {
        made.push(weighed_of(node))?;
    }
    Ok(made)
}

fn weighed_of(bytes: &[u8; 28]) -> (NodeId, u64)
    ensures { result ≡ weighed_in bytes.now }
{
    let mut node = [0; 20];
    node.copy_from_slice(&bytes[..20]);
    (NodeId::from_bytes(node), BigEndian::read_u64(&bytes[20..]))
}
