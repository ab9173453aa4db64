ghost use Rattle.std.specs.Prelude.{◌≡◌, ◌∷◌, ◌++◌, [], OnOk};
ghost use Rattle.std.specs.Option.{option_copied};
ghost use Rattle.snow_drill.specs.Model.Made.{block_of};

use snow_base::{Header, Id};
use std::alloc::{AllocError, Global};
use std::collections::HashMap;
use std::marker::Model;

/// The blocks that a drill made, in order. It finds one by its identifier without a walk over them.
/// Rule: this project's own.
#[derive(Drop)]
pub struct Made {
    blocks: Vec<Header>,
    // The place of the first block of each identifier.
    firsts: HashMap<Id, usize>,
}

impl Model for Made {
    ghost use Rattle.std.specs.Prelude.{List, bytes_eq};
    ghost use Rattle.snow_base.specs.declared.block.Header.{Header};
    ghost use Rattle.std.specs.HashMap.{get};
    ghost use Rattle.snow_drill.specs.Kept.Firsts.{HasFirsts};

    ghost Value = { List Header };

    ghost view = { λ a. a.blocks.items };

    ghost invariant = { λ a. HasFirsts a.blocks.items (get bytes_eq a.firsts) };
}

impl Made {
    /// Returns no block. It takes no memory.
    /// Rule: this project's own.
    pub fn new(alloc: Global) -> Self
        ensures { result ≡ [] }
    {
        Made {
            blocks: Vec::new(alloc),
            firsts: HashMap::new(alloc),
        }
    }

    /// Appends a block. On want of memory it returns `AllocError`, and all stays as it was.
    /// Rule: this project's own.
    pub fn push(&mut self, block: Header) -> Result<(), AllocError>
        ensures { OnOk result (self.new ≡ self.old ++ block ∷ []) }
    {
        self.blocks.reserve(1)?;
        self.firsts.entry(block.id)?.or_insert(self.blocks.len());
        self.blocks.push_reserved(block);
        Ok(())
    }

    /// Returns the blocks, in the order in which the drill made them.
    /// Rule: this project's own.
    pub fn list(&self) -> &[Header]
        ensures { result.now ≡ self.now }
    {
        self.blocks.as_slice()
    }

    /// Returns the first block of an identifier, or `None` exactly where the drill made none.
    /// Rule: this project's own.
    pub fn block_of(&self, id: &Id) -> Option<&Header>
        ensures { option_copied result ≡ block_of self.now id.now }
    {
        let place = self.firsts.get(id)?;
        self.blocks.get(*place)
    }
}
