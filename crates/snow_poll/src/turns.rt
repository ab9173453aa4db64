ghost use Rattle.std.specs.Prelude.{◌≡◌, ℕ, ◌^◌, ◌<◌, ◌≤◌, List, length, Some, None, OnOk, OnErr, ◌==◌, ◌&&◌, false, nat_lt, if◌then◌else◌};
ghost use Rattle.std.specs.BTreeMap.{get};
ghost use Rattle.std.specs.Ordering.{nat_cmp};
ghost use Rattle.snow_base.specs.declared.limits.TheConstants.{MOST_POLLS};
ghost use Rattle.snow_poll.specs.Model.Poll.{Poll};
ghost use Rattle.snow_poll.specs.Kept.Tallied.{place, turn, is_front, ArePlaced};

use std::alloc::{AllocError, Global};
use std::collections::BTreeMap;

// Where each number's poll stands, so that a reply needs no walk. A poll's turn is how many began
// before it. Its place is its turn less the polls that left. Both are counted modulo 2^64. A poll
// that begins at the front isn't entered: where one runs at a time, no turn is kept.
#[derive(Debug, Drop)]
pub(crate) struct Turns {
    pub(crate) turns: BTreeMap<u32, u64>,
    pub(crate) gone: u64,
}

impl Turns {
    // No poll was begun.
    pub(crate) fn new(alloc: Global) -> Turns
        ensures turns { (number : ℕ) → get nat_cmp result.turns number ≡ None }
        ensures gone { result.gone ≡ 0 }
    {
        Turns {
            turns: BTreeMap::new(alloc),
            gone: 0,
        }
    }

    // The place of the poll of a number, where there is one. It isn't the front one.
    pub(crate) fn place(&self, number: u32) -> Option<usize>
        ensures { (polls : List Poll) → length polls ≤ MOST_POLLS → ArePlaced self.now.turns self.now.gone polls → is_front polls number ≡ false → result ≡ place polls number }
    {
        let kept = self.turns.get(&number)?;
        Some(place_of(*kept, self.gone))
    }

    // Enters a number, whose poll stands at this place, unless that is the front.
    pub(crate) fn enter(&mut self, number: u32, at: usize) -> Result<(), AllocError>
        ensures entered { OnOk result ((m : ℕ) → get nat_cmp self.new.turns m ≡ (if nat_lt 0 at && (number == m) then Some (turn self.old.gone at) else get nat_cmp self.old.turns m)) }
        ensures err { OnErr result ((m : ℕ) → get nat_cmp self.new.turns m ≡ get nat_cmp self.old.turns m) }
        ensures gone { self.new.gone ≡ self.old.gone }
    {
        if at == 0 {
            return Ok(());
        }
        let turn = self.gone.wrapping_add(at as u64);
        self.turns.insert(number, turn)?;
        Ok(())
    }

    // The front poll, of this number, leaves: all others stand one place further to the front.
    pub(crate) fn leave(&mut self, number: u32)
        ensures turns { (m : ℕ) → get nat_cmp self.new.turns m ≡ (if number == m then None else get nat_cmp self.old.turns m) }
        ensures gone { self.new.gone ≡ turn self.old.gone 1 }
    {
        if !self.turns.is_empty() {
            self.forget(number);
        }
        self.gone = self.gone.wrapping_add(1);
    }

    // Keeps the turn of a number no longer. Where one poll runs at a time there is none.
    fn forget(&mut self, number: u32)
        ensures turns { (m : ℕ) → get nat_cmp self.new.turns m ≡ (if number == m then None else get nat_cmp self.old.turns m) }
        ensures gone { self.new.gone ≡ self.old.gone }
    {
        let _ = self.turns.remove(&number);
    }
}

// The place of a turn that is kept, where so many polls have left.
#[tactic(auto, using(crate::proofs::Placed::place_back))]
fn place_of(kept: u64, gone: u64) -> usize
    ensures { (at : ℕ) → at < 2 ^ 64 → kept ≡ turn gone at → result ≡ at }
{
    kept.wrapping_sub(gone) as usize
}
