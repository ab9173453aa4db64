ghost use Rattle.std.specs.Prelude.{◌≡◌, ◌+◌, ◌≤◌, length};
ghost use Rattle.snow_chain.specs.Model.Fields.{id_at, number_at};

use byteorder::{BigEndian, ByteOrder};
use snow_base::Id;

/// Returns the identifier in the 32 bytes from `at` on, which are there.
/// Rule: this project's own.
pub fn id_at(bytes: &[u8], at: usize) -> Id
    requires { at + 32 ≤ length bytes.now }
    ensures { result ≡ id_at bytes.now at }
{
    let mut id = [0; 32];
    id.copy_from_slice(&bytes[at..at + 32]);
    Id::from_bytes(id)
}

/// Returns the number below 2^64 in the 8 bytes from `at` on, which are there, the highest byte
/// first.
/// Rule: this project's own.
pub fn number_at(bytes: &[u8], at: usize) -> u64
    requires { at + 8 ≤ length bytes.now }
    ensures { result ≡ number_at bytes.now at }
{
    BigEndian::read_u64(&bytes[at..])
}
