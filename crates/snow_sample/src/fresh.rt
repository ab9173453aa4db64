ghost use Rattle.std.specs.Prelude.{◌≡◌, replicate, IfOk, OnOk};

use std::alloc::AllocError;

// So many zeros are written at a time.
const SOME: usize = 256;

/// Returns so many zeros, written over whatever stands in this room. It takes memory only where the
/// room is too small. On want of memory it returns `AllocError`, and the room is gone.
/// Rule: this project's own.
pub fn zeros(mut room: Vec<u32>, count: usize) -> Result<Vec<u32>, AllocError>
    ensures { IfOk result (λ made. made.items ≡ replicate count 0) }
{
    write_zeros(&mut room, count)?;
    Ok(room)
}

// Writes so many zeros over what stands in the room.
pub(crate) fn write_zeros(room: &mut Vec<u32>, count: usize) -> Result<(), AllocError>
    ensures { OnOk result (room.new.items ≡ replicate count 0) }
{
    room.clear();
    room.reserve(count)?;
    let mut made = 0;
    while made < count {
        let more = SOME.min(count - made);
        made += more;
        room.resize(made, 0)?;
    }
    Ok(())
}
