ghost use Rattle.std.specs.Prelude.{◌≡◌, [], ◌∷◌, ◌++◌, false, find, is_some, OnOk, OnErr};
ghost use Rattle.std.specs.Option.{option_copied, option_map};
ghost use Rattle.snow_getter.specs.Kept.Order.{block_at};
ghost use Rattle.snow_getter.specs.Model.Serving.{is_block, without};

use snow_base::{Bytes, Id};
use snow_map::IdMap;
use std::alloc::{AllocError, Global};
use std::marker::Model;

/// A pending block beside its identifier, and the number of its issue.
#[derive(Drop)]
pub(crate) struct Issued {
    pub(crate) parent: Id,
    pub(crate) bytes: Bytes,
    number: u64,
}

/// The pending blocks, by identifier. Contracts see the list of them in order of issue, which the
/// numbers keep.
#[derive(Drop)]
pub(crate) struct Pending {
    blocks: IdMap<Issued>,
    next: u64,
}

impl Model for Pending {
    ghost use Rattle.std.specs.Prelude.{List};
    ghost use Rattle.snow_getter.specs.declared.served.Served.{Served};
    ghost use Rattle.snow_getter.specs.Kept.Order.{issued_before, AreIssued};

    ghost Value = { List Served };

    ghost view = { λ a. issued_before a.next a.blocks };

    ghost invariant = { λ a. AreIssued a.next a.blocks };
}

impl Pending {
    /// Returns no block. It takes no memory.
    pub(crate) fn new(alloc: Global) -> Self
        ensures { result ≡ [] }
    {
        Pending {
            blocks: IdMap::new(alloc),
            next: 0,
        }
    }

    /// Returns the block of an identifier.
    pub(crate) fn block(&self, id: &Id) -> Option<&Issued>
        ensures { option_map (block_at id.now) (option_copied result) ≡ find (is_block id.now) self.now }
    {
        self.blocks.get(id)
    }

    /// Appends a block that isn't there. On want of memory all stays as it was.
    pub(crate) fn push(&mut self, id: Id, parent: Id, bytes: Bytes) -> Result<(), AllocError>
        requires { is_some (find (is_block id) self.old) ≡ false }
        ensures ok { OnOk result (self.new ≡ self.old ++ record { id = id; parent = parent; bytes = bytes } ∷ []) }
        ensures err { OnErr result (self.new ≡ self.old) }
    {
        // Numbers never come again, and there are more than a node lives to use.
        if self.next == u64::MAX {
            return Err(AllocError);
        }
        let number = self.next;
        self.blocks.insert(
            id,
            Issued {
                parent,
                bytes,
                number,
            },
        )?;
        self.next += 1;
        Ok(())
    }

    /// Takes the block of an identifier out and returns it. It takes no memory.
    #[inline(always)]
    pub(crate) fn take(&mut self, id: &Id) -> Option<Issued>
        ensures taken { option_map (block_at id.now) result ≡ find (is_block id.now) self.old }
        ensures left { self.new ≡ without id.now self.old }
    {
        self.blocks.remove(id)
    }
}
