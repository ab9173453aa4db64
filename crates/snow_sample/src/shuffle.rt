ghost use Rattle.std.specs.Prelude.{◌≡◌, ℕ, ◌==◌, ◌+◌, ◌^◌, ◌<◌, ◌≤◌, length, slice_index, vec_capacity, if◌then◌else◌, IfOk, OnOk};
ghost use Rattle.snow_sample.specs.Kept.Drawn.{AreMoves, moved_to, far_at, unit_at};
ghost use Rattle.snow_sample.specs.Model.Sampling.{swapped};

use crate::fresh;
use std::alloc::{AllocError, Global};
use std::collections::BTreeMap;

// So many moves of a class at most are walked.
const LONGEST_WALK: u32 = 16;

// Where there are at most so many units for each draw, all stand in a list.
const FEW: u64 = 8;

// So many classes, at least, for each draw.
const CLASSES: usize = 4;

// A unit that was moved to a position. Positions with the same low bits are one class; `before` is
// the number, from 1, of the last move before this one in its class, and 0 where there is none.
// `rank` moves of its class stand before it.
#[derive(Clone, Copy, Debug)]
pub(crate) struct Move {
    pub(crate) place: u64,
    pub(crate) unit: u64,
    pub(crate) before: u32,
    pub(crate) rank: u32,
}

// What stands at each position. The first positions, one for each draw at least, have their units in
// a list, since each draw looks at its own; where there are few units in all, it has all of them. Of the positions
// behind the list only those to which a unit was moved are kept: in the order of their moves, with the
// number of the last move of each class of positions, so that a look-up walks one class alone. Where
// nothing was moved to such a position it has its own unit.
//
// Words can be chosen so that all positions are of one class. So once a class has as many moves as
// are walked, every later move of the sample goes to an ordered map.
#[derive(Debug, Drop)]
pub(crate) struct Shuffle {
    pub(crate) near: Vec<u64>,
    pub(crate) moved: Vec<Move>,
    pub(crate) lasts: Vec<u32>,
    pub(crate) mask: u64,
    pub(crate) later: BTreeMap<u64, u64>,
}

impl Shuffle {
    // None was begun. It takes no memory.
    pub(crate) fn new(alloc: Global) -> Shuffle {
        Shuffle {
            near: Vec::new(alloc),
            moved: Vec::new(alloc),
            lasts: Vec::new(alloc),
            mask: 0,
            later: BTreeMap::new(alloc),
        }
    }

    // Each of so many units stands at its own position. There is room for so many draws.
    pub(crate) fn begin(&mut self, draws: usize, units: u64) -> Result<(), AllocError>
        requires few { draws ≤ 65536 }
        requires enough { draws ≤ units }
        ensures chained { OnOk result (AreMoves self.new.mask self.new.moved.items self.new.lasts.items) }
        ensures units { OnOk result ((p : ℕ) → unit_at self.new.near.items self.new.moved.items self.new.later p ≡ p) }
        ensures none { OnOk result (length self.new.moved.items ≡ 0) }
        ensures room { OnOk result (draws ≤ vec_capacity self.new.moved) }
        ensures near { OnOk result (draws ≤ length self.new.near.items) }
    {
        let (near, far) = if units <= FEW * draws as u64 {
            (units as usize, 0)
        } else {
            (draws, draws)
        };
        write_own(&mut self.near, near)?;
        self.moved.clear();
        self.later.clear();
        self.moved.reserve(draws)?;
        let classes = (CLASSES * far).next_power_of_two();
        self.mask = classes as u64 - 1;
        fresh::write_zeros(&mut self.lasts, classes)?;
        Ok(())
    }

    // Exchanges position `at` with the one `r` behind it, and gives the unit that then stands there.
    // What stands at `at` isn't kept, since later draws look only behind it.
    pub(crate) fn exchange(&mut self, at: u64, r: u64) -> Result<u64, AllocError>
        requires chained { AreMoves self.old.mask self.old.moved.items self.old.lasts.items }
        requires within { at + r < 2 ^ 64 }
        requires near { at < length self.old.near.items }
        requires few { length self.old.moved.items + 1 < 2 ^ 32 }
        requires room { length self.old.moved.items < vec_capacity self.old.moved }
        ensures unit { IfOk result (λ unit. unit ≡ unit_at self.old.near.items self.old.moved.items self.old.later (at + r)) }
        ensures chained { OnOk result (AreMoves self.new.mask self.new.moved.items self.new.lasts.items) }
        ensures behind { OnOk result ((p : ℕ) → at < p → unit_at self.new.near.items self.new.moved.items self.new.later p ≡ swapped (unit_at self.old.near.items self.old.moved.items self.old.later) (at + r) at p) }
        ensures near { length self.new.near.items ≡ length self.old.near.items }
        ensures moves { length self.new.moved.items ≤ length self.old.moved.items + 1 }
        ensures kept { vec_capacity self.new.moved ≡ vec_capacity self.old.moved }
    {
        let own = self.near[at as usize];
        let place = at + r;
        if place >= self.near.len() as u64 {
            return self.exchange_far(place, own);
        }
        let unit = self.near[place as usize];
        self.near[place as usize] = own;
        Ok(unit)
    }

    // Moves a unit to a position behind the list, and gives the one that stood there.
    fn exchange_far(&mut self, place: u64, own: u64) -> Result<u64, AllocError>
        requires chained { AreMoves self.old.mask self.old.moved.items self.old.lasts.items }
        requires few { length self.old.moved.items + 1 < 2 ^ 32 }
        requires room { length self.old.moved.items < vec_capacity self.old.moved }
        ensures unit { IfOk result (λ unit. unit ≡ far_at self.old.moved.items self.old.later place) }
        ensures chained { OnOk result (AreMoves self.new.mask self.new.moved.items self.new.lasts.items) }
        ensures units { OnOk result ((p : ℕ) → far_at self.new.moved.items self.new.later p ≡ (if p == place then own else far_at self.old.moved.items self.old.later p)) }
        ensures near { self.new.near.items ≡ self.old.near.items }
        ensures moves { length self.new.moved.items ≤ length self.old.moved.items + 1 }
        ensures kept { vec_capacity self.new.moved ≡ vec_capacity self.old.moved }
    {
        let unit = self.far(place);
        self.keep(place, own)?;
        Ok(unit)
    }

    // The unit at a position behind the list.
    fn far(&self, place: u64) -> u64
        requires { AreMoves self.now.mask self.now.moved.items self.now.lasts.items }
        ensures { result ≡ far_at self.now.moved.items self.now.later place }
    {
        if self.later.is_empty() {
            return self.walk(place);
        }
        match self.later.get(&place) {
            Some(unit) => *unit,
            None => self.walk(place),
        }
    }

    // The unit at a position by the moves that are in classes.
    fn walk(&self, place: u64) -> u64
        requires { AreMoves self.now.mask self.now.moved.items self.now.lasts.items }
        ensures { result ≡ moved_to place place self.now.moved.items }
    {
        let mut number = self.lasts[(place & self.mask) as usize];
        while number > 0 {
            let last = self.moved[number as usize - 1];
            if last.place == place {
                return last.unit;
            }
            number = last.before;
        }
        place
    }

    // Moves a unit to a position behind the list.
    fn keep(&mut self, place: u64, unit: u64) -> Result<(), AllocError>
        requires chained { AreMoves self.old.mask self.old.moved.items self.old.lasts.items }
        requires few { length self.old.moved.items + 1 < 2 ^ 32 }
        requires room { length self.old.moved.items < vec_capacity self.old.moved }
        ensures chained { OnOk result (AreMoves self.new.mask self.new.moved.items self.new.lasts.items) }
        ensures units { OnOk result ((p : ℕ) → far_at self.new.moved.items self.new.later p ≡ (if p == place then unit else far_at self.old.moved.items self.old.later p)) }
        ensures near { self.new.near.items ≡ self.old.near.items }
        ensures moves { length self.new.moved.items ≤ length self.old.moved.items + 1 }
        ensures kept { vec_capacity self.new.moved ≡ vec_capacity self.old.moved }
    {
        let class = (place & self.mask) as usize;
        let before = self.lasts[class];
        let rank = self.rank_after(before);
        if rank >= LONGEST_WALK || !self.later.is_empty() {
            self.later.insert(place, unit)?;
            return Ok(());
        }
        self.moved.push_reserved(Move {
            place,
            unit,
            before,
            rank,
        });
        self.lasts[class] = self.moved.len() as u32;
        Ok(())
    }

    // How many moves stand in a class up to the one of a number.
    fn rank_after(&self, number: u32) -> u32 {
        if number == 0 {
            return 0;
        }
        match self.moved.get(number as usize - 1) {
            Some(last) => last.rank.saturating_add(1),
            None => 0,
        }
    }
}

// Writes 0, 1, 2, .. over what stands in the room, so many.
fn write_own(room: &mut Vec<u64>, count: usize) -> Result<(), AllocError>
    ensures length { OnOk result (length room.new.items ≡ count) }
    ensures own { OnOk result ((p : ℕ) → p < count → slice_index room.new.items p ≡ p) }
{
    room.resize(count, 0)?;
    number(room.as_mut_slice());
    Ok(())
}

// Writes 0, 1, 2, .. over all units. (A list of its own would be read anew for each of them.)
fn number(units: &mut [u64])
    ensures length { length units.new ≡ length units.old }
    ensures own { (p : ℕ) → p < length units.new → slice_index units.new p ≡ p }
{
    for p in 0..units.len() {
        units[p] = p as u64;
    }
}
