ghost use Rattle.std.specs.Prelude.{◌++◌, decimal};
ghost use Rattle.snow_show.specs.Clauses.Putting.{Puts};

use std::alloc::AllocError;

/// Puts these bytes behind a text.
/// On want of memory it returns `AllocError`, and the text begins with what it was.
/// Rule: this project's own.
pub fn put(text: &mut Vec<u8>, bytes: &[u8]) -> Result<(), AllocError>
    ensures { Puts result text.old.items text.new.items bytes.now }
{
    text.extend_from_slice(bytes)
}

/// Puts a decimal number behind a text.
/// On want of memory it returns `AllocError`, and the text begins with what it was.
/// Rule: this project's own.
pub fn put_decimal(text: &mut Vec<u8>, number: u64) -> Result<(), AllocError>
    ensures { Puts result text.old.items text.new.items (decimal number) }
{
    let mut buffer = itoa::Buffer::new();
    put(text, buffer.format(number).as_bytes())
}

/// Puts a mark and a decimal number behind a text.
/// On want of memory it returns `AllocError`, and the text begins with what it was.
/// Rule: this project's own.
pub fn put_marked_number(text: &mut Vec<u8>, mark: &[u8], number: u64) -> Result<(), AllocError>
    ensures { Puts result text.old.items text.new.items (mark.now ++ decimal number) }
{
    put(text, mark)?;
    put_decimal(text, number)
}
