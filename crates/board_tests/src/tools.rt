use snow_base::{Bag, Id};
use std::alloc::AllocError;

// The identifier that begins with the bytes of a number.
pub(crate) fn named(number: u16) -> Id {
    let mut bytes = [0; 32];
    let [a, b] = number.to_be_bytes();
    bytes[0] = a;
    bytes[1] = b;
    Id::from_bytes(bytes)
}

// The identifier that has the bytes of a number in its middle. Where a look-up looks first they are all alike.
pub(crate) fn alike(number: u16) -> Id {
    let mut bytes = [0; 32];
    let [a, b] = number.to_be_bytes();
    bytes[15] = a;
    bytes[16] = b;
    Id::from_bytes(bytes)
}

// The identifier with this first byte and 31 zero bytes.
pub(crate) fn first(byte: u8) -> Id {
    named(u16::from_be_bytes([byte, 0]))
}

// Adds votes for the identifier with this first byte, where there may be so many.
fn add(votes: &mut Bag, byte: u8, count: u32) -> Result<(), AllocError> {
    if count == 0 || count > 1024 || votes.total() > 1024 {
        return Ok(());
    }
    votes.add(first(byte), count)
}

// Adds votes for identifiers, each by its first byte.
pub(crate) fn add_all(votes: &mut Bag, added: &[(u8, u32)]) -> Result<(), AllocError> {
    for (byte, count) in added {
        add(votes, *byte, *count)?;
    }
    Ok(())
}
