ghost use Rattle.std.specs.Prelude.{◌≡◌, ◌+◌, ◌==◌, slice_index, if◌then◌else◌, IfOk, OnOk};
ghost use Rattle.snow_drill.specs.Model.Drill as model;
ghost use Rattle.snow_drill.specs.Model.Made.{height_in, below, bytes_of};
ghost use Rattle.snow_drill.specs.Kept.Following.{Follows};

use crate::driven::Driven;
use crate::made::Made;
use crate::player::Player;
use sha2::{Digest, Sha256};
use snow_base::{Bytes, Header, Id};
use snow_wire::{Brought, View};
use std::alloc::{AllocError, Global};

impl<E: Driven> Player<E> {
    // A new block of this number on a parent, with this amount.
    fn child(&mut self, number: u64, parent: Id, amount: u64) -> Result<(), AllocError>
        ensures { OnOk result (Follows self.old self.new (λ d.
            let height = height_in d.made parent + 1 in
            model.with_bytes E.step d parent height (bytes_of parent height amount number))) }
    {
        let Some(height) = height_in(&self.made, &parent).checked_add(1) else {
            return Err(AllocError);
        };
        let bytes = bytes_of(self.alloc, &parent, [height, amount, number])?;
        self.made.push(Header {
            id: Id::from_bytes(Sha256::digest(bytes.list())),
            parent,
            height,
        })?;
        self.make(View::Block(Brought {
            node: &[1; 20],
            request: 0,
            bytes: bytes.list(),
        }))
    }

    /// Makes a new block of this number, whose parent is the tip, or one time in four the tip's
    /// parent. On want of memory it returns `AllocError`.
    /// Rule: this project's own.
    pub fn block(&mut self, number: u64) -> Result<(), AllocError>
        ensures { OnOk result (Follows self.old self.new (λ d. model.with_block E.step d number)) }
    {
        let picked = self.generator.pick(4);
        let parent = chosen(&self.made, &self.account.tally.tip(), picked);
        let amount = self.generator.pick(1000);
        self.child(number, parent, amount)
    }
}

// The height of a block; that of the last accepted one of the Start is 0.
fn height_in(made: &Made, id: &Id) -> u64
    ensures { result ≡ height_in made.now id.now }
{
    match made.block_of(id) {
        Some(block) => block.height,
        None => 0,
    }
}

// The parent of a new block.
fn chosen(made: &Made, tip: &Id, picked: u64) -> Id
    ensures { result ≡ (if picked == 0 then below made.now tip.now else tip.now) }
{
    if picked != 0 {
        return *tip;
    }
    match made.block_of(tip) {
        Some(block) => block.parent,
        None => *tip,
    }
}

// The bytes of a block: its parent, and then height, amount and number.
fn bytes_of(alloc: Global, parent: &Id, numbers: [u64; 3]) -> Result<Bytes, AllocError>
    ensures { IfOk result (λ bytes. bytes ≡ bytes_of parent.now (slice_index numbers 0) (slice_index numbers 1) (slice_index numbers 2)) }
{
    let [height, amount, number] = numbers;
    let mut bytes = Bytes::with_capacity(alloc, 56)?;
    bytes.append(parent.as_bytes())?;
    bytes.append(&height.to_be_bytes())?;
    bytes.append(&amount.to_be_bytes())?;
    bytes.append(&number.to_be_bytes())?;
    Ok(bytes)
}
