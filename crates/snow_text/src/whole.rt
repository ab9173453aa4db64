ghost use Rattle.std.specs.Prelude.{◌≡◌, ◌<◌, ◌≤◌, length, take, Ok, IfOk, IfSome, OnOk};
ghost use Rattle.std.specs.Io.KnownBytes.{Consumes, IsAtEnd};
ghost use Rattle.snow_base.specs.Clauses.Outside.{HasCause};
ghost use Rattle.snow_text.specs.Clauses.Texts.{begun};
ghost use Rattle.snow_text.specs.Clauses.Whole.{HasFault, IsQuiet, IsStop, Makes, Reads, SourceFails};

use crate::maker::MakeStop;
use crate::text::Text;
use snow_base::limits::{INPUT_BYTES, PIECE_BYTES};
use snow_base::{Failed, Sink, Source, write_whole};
use snow_text_model::Refusal;
use std::alloc::{AllocError, Global};

/// How the making of a stream from its text ended.
/// Rule: this project's own.
#[derive(Clone, Copy, Debug, PartialEq, Eq)]
pub enum MakeEnd {
    /// The whole stream was written.
    Done,
    /// The text isn't taken from this place on.
    Refused(Refusal),
    /// The source failed.
    SourceFault,
    /// The sink failed.
    SinkFault,
    /// Memory ran out.
    Memory,
    /// The text has 2^40 bytes or more.
    InputLimit,
}

impl From<MakeStop> for MakeEnd {
    ghost use Rattle.std.specs.Prelude.{◌≡◌};
    ghost use Rattle.snow_text.specs.Clauses.Whole.{end_at};

    ghost from_gives = { λ stop given. given ≡ end_at stop };

    fn from(stop: MakeStop) -> MakeEnd {
        match stop {
            MakeStop::Memory => MakeEnd::Memory,
            MakeStop::Refused(refusal) => MakeEnd::Refused(refusal),
        }
    }
}

/// Makes the stream that a text means: it reads the text to its end, and then writes all bytes of
/// the stream. It returns `Done` only where the text means a stream, and `Refused` only where it
/// means none, with the first place that isn't taken. `InputLimit` comes only where the text has
/// 2^40 bytes or more. `SourceFault` and `SinkFault` come only where that object's count of faults
/// rose or stands at 2^64-1, and `Memory` on want of memory. Only at `Done` and at `SinkFault` a
/// byte was written: all of them, or a front.
/// Rule: this project's own.
pub fn make<S: Source, O: Sink>(alloc: Global, source: &mut S, sink: &mut O) -> MakeEnd
    // What is written is the stream that the text means, and what is refused the text.
    ensures made { IfSome (S.left source.old) (λ text. Makes result text (O.written sink.old) (O.written sink.new)) }
    // Else the sink stays as it was.
    ensures quiet { IsQuiet result (O.written sink.old) (O.written sink.new) }
    ensures read { result ≡ MakeEnd.Done → IsAtEnd (S.left source.new) }
    ensures fault { HasFault result (S.faults source.old) (S.faults source.new) (O.faults sink.old) (O.faults sink.new) }
    ensures source_later { S.faults source.old ≤ S.faults source.new }
    ensures sink_later { O.faults sink.old ≤ O.faults sink.new }
{
    let mut text = Text::new(alloc);
    match gather(alloc, &mut text, source) {
        Err(end) => end,
        Ok(()) => match write_whole(sink, text.stream()) {
            Ok(()) => MakeEnd::Done,
            Err(_) => MakeEnd::SinkFault,
        },
    }
}

// Reads a text to its end and makes the bytes of its stream.
fn gather<S: Source>(alloc: Global, text: &mut Text, source: &mut S) -> Result<(), MakeEnd>
    requires { text.old ≡ begun }
    ensures told { IfSome (S.left source.old) (λ bytes. Reads result bytes text.new.lines.stream) }
    ensures stop { IsStop result }
    ensures read { OnOk result (IsAtEnd (S.left source.new)) }
    ensures fault { SourceFails result (S.faults source.old) (S.faults source.new) }
    ensures later { S.faults source.old ≤ S.faults source.new }
{
    match piece_room(alloc) {
        Ok(mut room) => read_all(text, source, room.as_mut_slice()),
        Err(_) => Err(MakeEnd::Memory),
    }
}

// Room for a piece.
fn piece_room(alloc: Global) -> Result<Vec<u8>, AllocError>
    ensures { IfOk result (λ room. 0 < length room.items) }
{
    let mut room = Vec::new(alloc);
    room.resize(PIECE_BYTES, 0)?;
    Ok(room)
}

// Reads a text piece by piece, up to its end or to 2^40 bytes.
fn read_all<S: Source>(text: &mut Text, source: &mut S, buffer: &mut [u8]) -> Result<(), MakeEnd>
    requires begun { text.old ≡ begun }
    requires room { 0 < length buffer.old }
    ensures told { IfSome (S.left source.old) (λ bytes. Reads result bytes text.new.lines.stream) }
    ensures stop { IsStop result }
    ensures read { OnOk result (IsAtEnd (S.left source.new)) }
    ensures fault { SourceFails result (S.faults source.old) (S.faults source.new) }
    ensures later { S.faults source.old ≤ S.faults source.new }
{
    let mut room = INPUT_BYTES;
    while room > 0 {
        let taken = match read_piece(source, buffer, room) {
            Ok(taken) => taken,
            Err(_) => return Err(MakeEnd::SourceFault),
        };
        if taken == 0 {
            text.end()?;
            return Ok(());
        }
        text.piece(&buffer[..taken])?;
        room -= taken as u64;
    }
    Err(MakeEnd::InputLimit)
}

// Reads at most so many bytes into the front of a buffer, and returns how many: none at the end
// alone.
#[tactic(auto, using(crate::proofs::Taken::read_front))]
fn read_piece<S: Source>(source: &mut S, buffer: &mut [u8], most: u64) -> Result<usize, Failed>
    requires some { 0 < most }
    requires room { 0 < length buffer.old }
    ensures took { IfOk result (λ n. Consumes (S.left source.old) (S.left source.new) (take n buffer.new)) }
    ensures fits { IfOk result (λ n. n ≤ length buffer.new) }
    ensures few { IfOk result (λ n. n ≤ most) }
    ensures none { result ≡ Ok 0 → IsAtEnd (S.left source.new) }
    ensures long { length buffer.new ≡ length buffer.old }
    ensures cause { HasCause (S.faults source.old) (S.faults source.new) result }
{
    let most = if most < buffer.len() as u64 {
        most as usize
    } else {
        buffer.len()
    };
    source.read(&mut buffer[..most])
}
