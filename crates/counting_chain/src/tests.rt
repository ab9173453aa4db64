use crate::CountingChain;
use snow_base::Id;
use snow_chain::{Chain, ChainFault, Header};
use std::test::Fail;

/// An identifier by its first byte.
fn id_of(first: u8) -> Id {
    let mut id = [0; 32];
    id[0] = first;
    Id::from_bytes(id)
}

/// A block with the identifier of 2 on that of 1, at height 3.
fn block(number: u8) -> [u8; 80] {
    let mut block = [0; 80];
    block[0] = 2;
    block[32] = 1;
    block[71] = 3;
    block[79] = number;
    block
}

#[test]
fn blocks_count_on(rt: HostRuntime) -> Result<(), Fail> {
    let (root, id) = (id_of(1), id_of(2));
    let mut chain = CountingChain::begin(rt.alloc(), root, &[7])
        .ok()
        .ok_or("a chain")?;
    assert!(rt; chain.states().may_verify(&root, &id));
    assert!(rt; !chain.verify(&root, &id, &block(9))?);
    assert!(rt; chain.states().may_verify(&root, &id));
    assert!(rt; chain.verify(&root, &id, &block(8))?);
    assert!(rt; chain.states().may_accept(&id));
    chain.accept(&id);
    assert_eq!(rt; chain.states().last(), id);
    assert_eq!(rt; chain.states().state_of(&id), Some(&[8][..]));
    Ok(())
}

#[test]
fn blocks_are_of_80_bytes(rt: HostRuntime) -> Result<(), Fail> {
    let chain = CountingChain::begin(rt.alloc(), id_of(1), &[7])
        .ok()
        .ok_or("a chain")?;
    let header = Header {
        id: id_of(2),
        parent: id_of(1),
        height: 3,
    };
    assert_eq!(rt; chain.parse(&block(8)), Some(header));
    assert_eq!(rt; chain.parse(&[0; 79]), None);
    let refused = CountingChain::begin(rt.alloc(), id_of(1), &[7, 8]).err();
    assert_eq!(rt; refused, Some(ChainFault::State));
    Ok(())
}
