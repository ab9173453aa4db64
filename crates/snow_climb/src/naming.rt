ghost use Rattle.std.specs.Prelude.{ℕ, ◌^◌, ◌<◌, All, slice_index};
ghost use Rattle.snow_base.specs.Clauses.Gathered.{IsNamed};

use snow_base::Id;

// Bytes are small, as their type says.
fn small(bytes: &[u8])
    ensures { (i : ℕ) → slice_index bytes.now i < 2 ^ 8 }
{
    let _len = bytes.len();
}

/// Tells contracts that an identifier is a list of 32 bytes. It does nothing.
/// Rule: this project's own.
pub fn named(id: &Id)
    ensures { IsNamed id.now }
{
    small(id.as_bytes());
}

/// Tells contracts so of all of these.
pub(crate) fn all_named(ids: &[Id])
    ensures { All IsNamed ids.now }
{
    for id in ids {
        named(id);
    }
}
