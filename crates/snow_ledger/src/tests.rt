use crate::{LedgerChain, Transfer, transfer};
use snow_base::Id;
use snow_chain::{Chain, ChainFault};
use std::process::Abort;
use std::test::Fail;

/// A transfer, its numbers below 256.
#[derive(Clone, Copy)]
struct Move {
    from: u8,
    to: u8,
    amount: u8,
    sequence: u8,
}

const fn step(from: u8, to: u8, amount: u8, sequence: u8) -> Move {
    Move {
        from,
        to,
        amount,
        sequence,
    }
}

/// A block of one transfer.
fn block(parent: Id, height: u8, only: Move) -> [u8; 62] {
    let mut block = [0; 62];
    block[..32].copy_from_slice(parent.as_bytes());
    block[39] = height;
    block[41] = 1;
    block[43] = only.from;
    block[45] = only.to;
    block[53] = only.amount;
    block[61] = only.sequence;
    block
}

/// A block of two transfers.
fn block_of_two(parent: Id, height: u8, first: Move, second: Move) -> [u8; 82] {
    let mut longer = [0; 82];
    longer[..62].copy_from_slice(&block(parent, height, first));
    longer[41] = 2;
    longer[63] = second.from;
    longer[65] = second.to;
    longer[73] = second.amount;
    longer[81] = second.sequence;
    longer
}

/// Verifies a block on its parent, and gives its identifier where it is valid.
fn verified(rt: &impl Abort, chain: &mut LedgerChain, bytes: &[u8]) -> Result<Option<Id>, Fail> {
    let header = chain.parse(bytes).ok_or("a block")?;
    assert!(rt; chain.states().may_verify(&header.parent, &header.id));
    let valid = chain.verify(&header.parent, &header.id, bytes)?;
    Ok(if valid { Some(header.id) } else { None })
}

#[test]
fn transfers_move_amounts(rt: HostRuntime) -> Result<(), Fail> {
    let root = Id::from_bytes([0; 32]);
    let mut chain = LedgerChain::begin(rt.alloc(), root, &[10, 0, 0, 0])
        .ok()
        .ok_or("a chain")?;
    let first = verified(&rt, &mut chain, &block(root, 1, step(0, 1, 7, 0)))?.ok_or("valid")?;
    // More than is left.
    let more = verified(&rt, &mut chain, &block(first, 2, step(0, 1, 4, 1)))?;
    assert!(rt; more.is_none());
    // Sent back, and on with what came back.
    let back = block_of_two(first, 2, step(1, 0, 7, 0), step(0, 1, 10, 1));
    let second = verified(&rt, &mut chain, &back)?.ok_or("valid")?;
    // A sequence that was used.
    let again = verified(&rt, &mut chain, &block(first, 2, step(0, 1, 1, 0)))?;
    assert!(rt; again.is_none());
    assert!(rt; chain.states().may_accept(&first));
    chain.accept(&first);
    assert_eq!(rt; (chain.balance(0), chain.balance(1)), (Some(3), Some(7)));
    assert!(rt; chain.states().may_accept(&second));
    chain.accept(&second);
    assert_eq!(rt; (chain.balance(0), chain.balance(1)), (Some(0), Some(10)));
    assert_eq!(rt; (chain.sequence(0), chain.sequence(1)), (Some(2), Some(1)));
    assert_eq!(rt;
        (chain.accounts(), chain.balance(2), chain.sequence(2)),
        (2, None, None)
    );
    Ok(())
}

#[test]
fn states_are_pairs_that_fit(rt: HostRuntime) -> Result<(), Fail> {
    let root = Id::from_bytes([0; 32]);
    let odd = LedgerChain::begin(rt.alloc(), root, &[1]).err();
    assert_eq!(rt; odd, Some(ChainFault::State));
    let past = LedgerChain::begin(rt.alloc(), root, &[u64::MAX, 0, 1, 0]).err();
    assert_eq!(rt; past, Some(ChainFault::State));
    let full = LedgerChain::begin(rt.alloc(), root, &[u64::MAX, 0, 0, 0]);
    assert!(rt; full.is_ok());
    Ok(())
}

#[test]
fn transfers_are_read(rt: HostRuntime) -> Result<(), Fail> {
    let bytes = block_of_two(
        Id::from_bytes([0; 32]),
        2,
        step(1, 0, 7, 0),
        step(0, 1, 10, 1),
    );
    let second = Transfer {
        from: 0,
        to: 1,
        amount: 10,
        sequence: 1,
    };
    assert_eq!(rt; transfer(&bytes, 1), Some(second));
    assert_eq!(rt; transfer(&bytes, 2), None);
    if let Some((_, front)) = bytes.split_last() {
        assert_eq!(rt; transfer(front, 0), None);
    }
    Ok(())
}
