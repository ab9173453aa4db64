use snow_base::Id;
use snow_chain::{Chain, ChainFault, Header, PlainChain, TallyChain};
use std::alloc::{AllocError, Global};

/// The SHA-256 digest of 64 zero bytes.
const DIGEST: [u8; 32] = [
    0xf5, 0xa5, 0xfd, 0x42, 0xd1, 0x6a, 0x20, 0x30, 0x27, 0x98, 0xef, 0x6e, 0xd3, 0x09, 0x97, 0x9b,
    0x43, 0x00, 0x3d, 0x23, 0x20, 0xd9, 0xf0, 0xe8, 0xea, 0x98, 0x31, 0xa9, 0x27, 0x59, 0xfb, 0x4b,
];

/// An identifier by its first byte.
fn id_of(first: u8) -> Id {
    let mut id = [0; 32];
    id[0] = first;
    Id::from_bytes(id)
}

/// A block of the plain chain, by the first bytes of its identifiers.
fn plain_block(id: u8, parent: u8, flag: u8) -> [u8; 73] {
    let mut block = [0; 73];
    block[0] = id;
    block[32] = parent;
    block[71] = 1;
    block[72] = flag;
    block
}

/// A block of the tally chain on the block with the identifier of 1.
fn tally_block(height: u8, amount: u8) -> [u8; 48] {
    let mut block = [0; 48];
    block[0] = 1;
    block[39] = height;
    block[47] = amount;
    block
}

/// Whether the plain chain parses blocks with either flag, and nothing else. A chain is let go by a call,
/// here and below: that is many steps, which stand in one place then.
fn parses_plain(alloc: Global) -> Result<bool, ChainFault> {
    let chain = PlainChain::begin(alloc, id_of(1), &[])?;
    let header = Some(Header {
        id: id_of(2),
        parent: id_of(1),
        height: 1,
    });
    let parses = chain.parse(&plain_block(2, 1, 0)) == header
        && chain.parse(&plain_block(2, 1, 1)) == header
        && chain.parse(&plain_block(2, 1, 2)).is_none()
        && chain.parse(&[0; 72]).is_none();
    drop(chain);
    Ok(parses)
}

/// Why a chain doesn't begin with this state, if it doesn't.
fn fault_of<C: Chain>(alloc: Global, state: &[u64]) -> Option<ChainFault> {
    C::begin(alloc, id_of(1), state).err()
}

#[test]
fn plain_blocks_are_parsed(rt: HostRuntime) {
    assert_eq!(rt; parses_plain(rt.alloc()), Ok(true));
    let fault = fault_of::<PlainChain>(rt.alloc(), &[0]);
    assert_eq!(rt; fault, Some(ChainFault::State));
}

/// Whether the block with the identifier of 2 and this flag is valid on the one with the identifier of 1;
/// none where it may not be verified.
fn verified(chain: &mut PlainChain, flag: u8) -> Result<Option<bool>, AllocError> {
    let (root, id) = (id_of(1), id_of(2));
    if !chain.states().may_verify(&root, &id) {
        return Ok(None);
    }
    let valid = chain.verify(&root, &id, &plain_block(2, 1, flag))?;
    Ok(Some(valid))
}

/// Whether the first of two blocks isn't valid, and the second is, and then rejected.
fn rejects_plain(chain: &mut PlainChain) -> Result<bool, AllocError> {
    let id = id_of(2);
    let first = verified(chain, 0)?;
    let held = chain.states().state_of(&id).is_some();
    let second = verified(chain, 1)?;
    if first != Some(false) || held || second != Some(true) || !chain.states().may_reject(&id) {
        return Ok(false);
    }
    chain.reject(&id);
    Ok(chain.states().state_of(&id).is_none())
}

/// Whether a valid block is accepted, and its state alone is held then.
fn accepts_plain(chain: &mut PlainChain) -> Result<bool, AllocError> {
    let id = id_of(2);
    if verified(chain, 1)? != Some(true) || !chain.states().may_accept(&id) {
        return Ok(false);
    }
    chain.accept(&id);
    Ok(
        chain.states().last() == id
            && chain.states().state_of(&id) == Some(&[][..])
            && chain.states().state_of(&id_of(1)).is_none(),
    )
}

/// Whether a new plain chain rejects a block, or accepts one.
fn plain_does(alloc: Global, accepts: bool) -> Result<bool, ChainFault> {
    let mut chain = PlainChain::begin(alloc, id_of(1), &[])?;
    let does = if accepts {
        accepts_plain(&mut chain)
    } else {
        rejects_plain(&mut chain)
    };
    drop(chain);
    Ok(does?)
}

#[test]
fn plain_blocks_are_rejected(rt: HostRuntime) {
    assert_eq!(rt; plain_does(rt.alloc(), false), Ok(true));
}

#[test]
fn plain_blocks_are_accepted(rt: HostRuntime) {
    assert_eq!(rt; plain_does(rt.alloc(), true), Ok(true));
}

/// Whether the tally chain parses blocks by their digest, parent and height, and nothing short.
fn parses_tally(alloc: Global) -> Result<bool, ChainFault> {
    let chain = TallyChain::begin(alloc, id_of(1), &[10, 10])?;
    let zeros = Some(Header {
        id: Id::from_bytes(DIGEST),
        parent: id_of(0),
        height: 0,
    });
    let parses = chain.parse(&[0; 64]) == zeros && chain.parse(&[0; 47]).is_none();
    let header = chain.parse(&tally_block(3, 7));
    drop(chain);
    Ok(match header {
        Some(header) => parses && header.parent == id_of(1) && header.height == 3,
        None => false,
    })
}

#[test]
fn tally_blocks_are_parsed(rt: HostRuntime) {
    assert_eq!(rt; parses_tally(rt.alloc()), Ok(true));
    for state in [&[11, 10][..], &[10][..], &[0, 10, 0][..]] {
        let fault = fault_of::<TallyChain>(rt.alloc(), state);
        assert_eq!(rt; fault, Some(ChainFault::State));
    }
}

/// The block of this amount on the one with the identifier of 1, and whether it is valid there; none
/// where it may not be verified.
fn tallied(chain: &mut TallyChain, amount: u8) -> Result<Option<(Id, bool)>, AllocError> {
    let block = tally_block(1, amount);
    let Some(header) = chain.parse(&block) else {
        return Ok(None);
    };
    let root = id_of(1);
    if !chain.states().may_verify(&root, &header.id) {
        return Ok(None);
    }
    let valid = chain.verify(&root, &header.id, &block)?;
    Ok(Some((header.id, valid)))
}

/// Whether this block is held with this sum of 10, and then rejected.
fn goes(chain: &mut TallyChain, id: Id, sum: u64) -> bool {
    if chain.states().state_of(&id) != Some(&[sum, 10][..]) || !chain.states().may_reject(&id) {
        return false;
    }
    chain.reject(&id);
    chain.states().state_of(&id).is_none()
}

/// Whether a block that lifts the sum above the cap isn't valid, and one that doesn't is, and then rejected.
fn rejects_tally(chain: &mut TallyChain) -> Result<bool, AllocError> {
    let Some((high, false)) = tallied(chain, 8)? else {
        return Ok(false);
    };
    let held = chain.states().state_of(&high).is_some();
    match tallied(chain, 6)? {
        Some((id, true)) => Ok(!held && goes(chain, id, 9)),
        _ => Ok(false),
    }
}

/// Whether a block that lifts the sum to the cap is accepted, and its state alone is held then.
fn accepts_tally(chain: &mut TallyChain) -> Result<bool, AllocError> {
    let Some((id, true)) = tallied(chain, 7)? else {
        return Ok(false);
    };
    if !chain.states().may_accept(&id) {
        return Ok(false);
    }
    chain.accept(&id);
    Ok(
        chain.states().last() == id
            && chain.states().state_of(&id) == Some(&[10, 10][..])
            && chain.states().state_of(&id_of(1)).is_none(),
    )
}

/// Whether a tally chain with the sum 3 of 10 rejects a block, or accepts one.
fn tally_does(alloc: Global, accepts: bool) -> Result<bool, ChainFault> {
    let mut chain = TallyChain::begin(alloc, id_of(1), &[3, 10])?;
    let does = if accepts {
        accepts_tally(&mut chain)
    } else {
        rejects_tally(&mut chain)
    };
    drop(chain);
    Ok(does?)
}

#[test]
fn tally_blocks_are_rejected(rt: HostRuntime) {
    assert_eq!(rt; tally_does(rt.alloc(), false), Ok(true));
}

#[test]
fn tally_blocks_are_accepted(rt: HostRuntime) {
    assert_eq!(rt; tally_does(rt.alloc(), true), Ok(true));
}
