//! Remainders without a division. A sample divides by as many units as are left at each draw, and so
//! does the next one: the inverse of each such number is worked out once.
ghost use Rattle.std.specs.Prelude.{◌≡◌, ◌%◌, ◌<◌, IfSome};

use std::alloc::{AllocError, Global};

// For each draw from so many units, 2^64 over the units that are left there. No remainder depends on
// these numbers, but how fast it is found does.
#[derive(Debug, Drop)]
pub(crate) struct Inverses {
    units: u64,
    list: Vec<u64>,
}

impl Inverses {
    // None. It takes no memory.
    pub(crate) fn new(alloc: Global) -> Inverses {
        Inverses {
            units: 0,
            list: Vec::new(alloc),
        }
    }

    // Makes ready for so many draws, at most all, from so many units.
    pub(crate) fn begin(&mut self, draws: u64, units: u64) -> Result<(), AllocError> {
        if self.units != units {
            self.units = units;
            self.list.clear();
        }
        for j in self.list.len() as u64..draws {
            self.list.push(u64::MAX / units.saturating_sub(j).max(1))?;
        }
        Ok(())
    }

    // The inverse for a draw, and 0 where it wasn't made ready.
    pub(crate) fn at(&self, draw: u64) -> u64 {
        self.list.get(draw as usize).copied().unwrap_or(0)
    }
}

// The remainder of a value by a divisor, of which this may be the inverse.
pub(crate) fn remainder(value: u64, divisor: u64, inverse: u64) -> u64
    requires { 0 < divisor }
    ensures { result ≡ value % divisor }
{
    match guessed(value, divisor, inverse) {
        Some(rest) => rest,
        None => value % divisor,
    }
}

// The remainder where the inverse tells the quotient, or one less.
fn guessed(value: u64, divisor: u64, inverse: u64) -> Option<u64>
    requires { 0 < divisor }
    ensures { IfSome result (λ rest. rest ≡ value % divisor) }
{
    let (_, quotient) = value.carrying_mul(inverse, 0);
    let (product, over) = quotient.carrying_mul(divisor, 0);
    if over > 0 {
        return None;
    }
    let rest = value.checked_sub(product)?;
    let rest = if rest < divisor { rest } else { rest - divisor };
    if rest < divisor { Some(rest) } else { None }
}
