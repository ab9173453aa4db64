ghost use Rattle.std.specs.Prelude.{◌≡◌, ◌<◌, ◌^◌, ◌++◌, List, ℕ, length, All, OnOk, ⊤};
ghost use Rattle.snow_wire.specs.Model.Spelling.{IsBlock, counted, number, sized, weighed};

use byteorder::{BigEndian, ByteOrder};
use snow_base::{Bytes, Id, Items, NodeId};
use std::alloc::AllocError;

/// What stands in a counted list.
pub(crate) trait Field: Drop {
    /// Its bytes.
    ghost spelled: { Self → List ℕ };

    /// What has such bytes.
    ghost fits: { Self → Type 0 };

    fn write(&self, out: &mut Bytes) -> Result<(), AllocError>
        requires { fits self.now }
        ensures { OnOk result (out.new ≡ out.old ++ spelled self.now) };
}

impl Field for Id {
    ghost spelled = { λ id. id };

    ghost fits = { λ id. ⊤ };

    fn write(&self, out: &mut Bytes) -> Result<(), AllocError> {
        out.append(self.as_bytes())
    }
}

impl Field for u64 {
    ghost spelled = { number 8 };

    ghost fits = { λ n. ⊤ };

    fn write(&self, out: &mut Bytes) -> Result<(), AllocError> {
        write_u64(out, *self)
    }
}

impl Field for (NodeId, u64) {
    ghost spelled = { weighed };

    ghost fits = { λ n. ⊤ };

    fn write(&self, out: &mut Bytes) -> Result<(), AllocError> {
        out.append(self.0.as_bytes())?;
        write_u64(out, self.1)
    }
}

impl Field for Bytes {
    ghost spelled = { sized };

    ghost fits = { IsBlock };

    fn write(&self, out: &mut Bytes) -> Result<(), AllocError> {
        write_sized(out, self)
    }
}

#[tactic(auto, unfolding(crate::specs::Model::Spelling::number))]
fn write_u16(out: &mut Bytes, n: u16) -> Result<(), AllocError>
    ensures { OnOk result (out.new ≡ out.old ++ number 2 n) }
{
    let mut bytes = [0; 2];
    BigEndian::write_u16(&mut bytes, n);
    out.append(&bytes)
}

#[tactic(auto, unfolding(crate::specs::Model::Spelling::number))]
pub(crate) fn write_u32(out: &mut Bytes, n: u32) -> Result<(), AllocError>
    ensures { OnOk result (out.new ≡ out.old ++ number 4 n) }
{
    let mut bytes = [0; 4];
    BigEndian::write_u32(&mut bytes, n);
    out.append(&bytes)
}

#[tactic(auto, unfolding(crate::specs::Model::Spelling::number))]
pub(crate) fn write_u64(out: &mut Bytes, n: u64) -> Result<(), AllocError>
    ensures { OnOk result (out.new ≡ out.old ++ number 8 n) }
{
    let mut bytes = [0; 8];
    BigEndian::write_u64(&mut bytes, n);
    out.append(&bytes)
}

/// Appends four bytes of length, and so many bytes.
pub(crate) fn write_sized(out: &mut Bytes, bytes: &Bytes) -> Result<(), AllocError>
    requires { length bytes.now < 2 ^ 32 }
    ensures { OnOk result (out.new ≡ out.old ++ sized bytes.now) }
{
    write_u32(out, bytes.list().len() as u32)?;
    out.append(bytes.list())
}

/// Appends two bytes of count, and so many items.
pub(crate) fn write_counted<T: Field>(out: &mut Bytes, items: &Items<T>) -> Result<(), AllocError>
    requires count { length items.now < 2 ^ 16 }
    requires fits { All (λ x. T.fits x) items.now }
    ensures { OnOk result (out.new ≡ out.old ++ counted T.spelled items.now) }
{
    write_u16(out, items.list().len() as u16)?;
    for item in items.list() {
        item.write(out)?;
    }
    Ok(())
}
