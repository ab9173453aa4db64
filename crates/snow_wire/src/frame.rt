ghost use Rattle.std.specs.Prelude.{◌≡◌, ◌+◌, length, IfSome, Some, None, if◌then◌else◌};
ghost use Rattle.std.specs.Option.{option_map};
ghost use Rattle.snow_wire.specs.Model.Frame.{first_of, is_too_long, length_word};

use byteorder::{BigEndian, ByteOrder};
use snow_base::limits::FRAME_BYTES;

/// A frame of a stream: its place, counted from 1, and its payload of at most 2,097,152 bytes.
/// Rule: this project's own.
#[derive(Clone, Copy, Debug, PartialEq, Eq)]
pub struct Frame<'a> {
    /// The frame's place in the stream, counted from 1.
    pub number: u64,
    /// The bytes behind the length word, at most 2,097,152.
    pub payload: &'a [u8],
}

/// Tells of a length word that no frame has, since it says more than 2,097,152.
/// Rule: this project's own.
#[derive(Clone, Copy, Debug, PartialEq, Eq)]
pub struct TooLong {
    /// The place in the stream that the frame would have.
    pub number: u64,
    /// What the length word says.
    pub length: u32,
}

/// Returns the payload of the first frame, and the bytes behind the frame; with the four bytes of
/// the length these are all bytes. It returns `None` exactly where the bytes begin with no whole
/// frame, or with a length above 2,097,152.
/// Rule: this project's own.
#[tactic(auto, unfolding(crate::specs::Model::Frame::first_of))]
pub fn first_frame(bytes: &[u8]) -> Option<(&[u8], &[u8])>
    ensures first { option_map (λ first. (first.0.now, first.1.now)) result ≡ first_of bytes.now }
    ensures size { IfSome result (λ first. 4 + length first.0.now + length first.1.now ≡ length bytes.now) }
{
    if bytes.len() < 4 {
        return None;
    }
    let length = BigEndian::read_u32(bytes);
    let behind = &bytes[4..];
    if length > FRAME_BYTES || behind.len() < length as usize {
        return None;
    }
    Some(behind.split_at(length as usize))
}

/// Returns the length word in front, where it is above 2,097,152.
pub(crate) fn too_long(bytes: &[u8]) -> Option<u32>
    ensures { result ≡ (if is_too_long bytes.now then Some (length_word bytes.now) else None) }
{
    if bytes.len() < 4 {
        return None;
    }
    let length = BigEndian::read_u32(bytes);
    if length <= FRAME_BYTES {
        return None;
    }
    Some(length)
}
