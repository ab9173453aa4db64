//! The blocks of a reply, wherever they stand.

use snow_base::Bytes;
use snow_wire::Packed;

/// The blocks of a reply. Each step takes the first one off.
/// Rule: this project's own.
#[derive(Drop)]
pub enum ReplyBlocks<'a> {
    /// They stand in a list of their own.
    Listed(&'a [Bytes]),
    /// They still stand in the payload of their frame.
    Packed(Packed<'a>),
}

impl<'a> Iterator for ReplyBlocks<'a> {
    ghost use Rattle.std.specs.Iterator.{YieldsFirstRef, item_count};
    ghost use Rattle.snow_boot.specs.Kept.Reply.{left};

    type Item = &'a [u8];

    ghost next_gives = { YieldsFirstRef left };

    ghost remaining = { item_count left };

    fn next(&mut self) -> Option<&'a [u8]> {
        match self {
            ReplyBlocks::Listed(blocks) => {
                let (first, rest) = blocks.split_first()?;
                *blocks = rest;
                Some(first.list())
            }
            ReplyBlocks::Packed(blocks) => blocks.next(),
        }
    }
}
