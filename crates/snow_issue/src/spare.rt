ghost use Rattle.std.specs.Prelude.{◌≡◌, IfOk};

use snow_base::Bytes;
use std::alloc::{AllocError, Global};

// How many lists are kept.
const MOST_LISTS: usize = 4_096;

// How many bytes those that are kept have, at most.
const MOST_BYTES: usize = 256;

/// The room of bytes of blocks that went, for blocks that come: at most 4,096 lists, each of which
/// had at most 256 bytes. Contracts don't see it.
/// Rule: this project's own.
#[derive(Drop)]
pub struct SpareBytes {
    lists: Vec<Bytes>,
    alloc: Global,
}

impl SpareBytes {
    /// Returns no room. It takes no memory.
    /// Rule: this project's own.
    pub fn none(alloc: Global) -> Self {
        SpareBytes {
            lists: Vec::new(alloc),
            alloc,
        }
    }

    /// Returns the list of these bytes. It takes memory where they don't fit into the room that it
    /// uses. On want of memory it returns `AllocError`.
    /// Rule: this project's own.
    pub fn list(&mut self, bytes: &[u8]) -> Result<Bytes, AllocError>
        ensures { IfOk result (λ list. list ≡ bytes.now) }
    {
        if bytes.len() > MOST_BYTES {
            return Bytes::from_slice(self.alloc, bytes);
        }
        match self.lists.pop() {
            Some(list) => fill(list, bytes),
            None => Bytes::from_slice(self.alloc, bytes),
        }
    }

    /// Keeps the room of bytes that nobody wants any more, where they are at most 256 and fewer
    /// than 4,096 lists are kept. On want of memory to keep it, it lets the room go.
    /// Rule: this project's own.
    pub fn keep(&mut self, bytes: Bytes) {
        if bytes.list().len() <= MOST_BYTES && self.lists.len() < MOST_LISTS {
            let _ = self.lists.push(bytes);
        }
    }
}

// Puts bytes in place of what a list has.
fn fill(list: Bytes, bytes: &[u8]) -> Result<Bytes, AllocError>
    ensures { IfOk result (λ filled. filled ≡ bytes.now) }
{
    let mut list = list;
    list.clear();
    list.append(bytes)?;
    Ok(list)
}
