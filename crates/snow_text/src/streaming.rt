//! A stream that is shown as its pieces come.

ghost use Rattle.std.specs.Prelude.{◌≡◌, ◌+◌, ◌*◌, ◌^◌, ◌<◌, ◌≤◌, true, IfSome, Ok, OnErr, OnOk, length};
ghost use Rattle.std.specs.Io.KnownBytes.{Appends, IsAtEnd};
ghost use Rattle.snow_base.specs.Clauses.Outside.{AppendsFront};
ghost use Rattle.snow_wire.specs.Clauses.Stream.{fresh};
ghost use Rattle.snow_text_model.specs.Model.Shown.{shown, shown_frame, shown_rest};
ghost use Rattle.snow_text.specs.Clauses.Streaming.{Broke, Filled, HasFault, ShowsAll, ShowsOne, SinkFails, WritesText};

use snow_base::limits::INPUT_BYTES;
use snow_base::{Sink, Source, write_whole};
use snow_show::{show_frame, show_rest};
use snow_text_model::BlockForm;
use snow_wire::{Decoder, ReadFault};
use std::alloc::Global;

/// How showing a stream ends.
/// Rule: this project's own.
#[derive(Clone, Copy, Debug, PartialEq, Eq)]
pub enum ShowEnd {
    /// The source ended, and the whole text was written.
    Done,
    /// The stream has 2^40 bytes.
    InputLimit,
    /// The source failed.
    SourceFault,
    /// The sink failed.
    SinkFault,
    /// There was no memory.
    Memory,
}

/// Shows a stream as text: a line for each whole frame as it comes, and at the end one for what
/// stands behind the last. It returns `Done` where the source ended; the whole text was written
/// then. It returns `InputLimit` at 2^40 bytes, `SourceFault` and `SinkFault` only where that
/// object's count of faults rose or stands at 2^64-1, and `Memory` on want of memory: a front of
/// the text was written then, and at a source fault and at the limit exactly the lines of the whole
/// frames that came.
/// Rule: this project's own.
pub fn show<S: Source, O: Sink>(
    alloc: Global,
    form: BlockForm,
    source: &mut S,
    sink: &mut O,
) -> ShowEnd
    ensures output { IfSome (S.left source.old) (λ bytes. WritesText result (O.written sink.old) (O.written sink.new) (shown form bytes)) }
    ensures broken { result ≡ ShowEnd.SourceFault → Broke form (S.left source.old) (S.left source.new) (O.written sink.old) (O.written sink.new) }
    ensures limit { result ≡ ShowEnd.InputLimit → Filled form (S.left source.old) (S.left source.new) (O.written sink.old) (O.written sink.new) }
    ensures read { result ≡ ShowEnd.Done → IsAtEnd (S.left source.new) }
    ensures fault { HasFault result (S.faults source.old) (S.faults source.new) (O.faults sink.old) (O.faults sink.new) }
    ensures source_later { S.faults source.old ≤ S.faults source.new }
    ensures sink_later { O.faults sink.old ≤ O.faults sink.new }
{
    let mut shower = Shower {
        decoder: Decoder::new(alloc),
        form,
        text: Vec::new(alloc),
    };
    shower.run(source, sink)
}

/// A stream that is shown: the bytes that wait for a whole frame, and the line that is written next.
#[derive(Drop)]
struct Shower {
    decoder: Decoder,
    form: BlockForm,
    text: Vec<u8>,
}

impl Shower {
    /// Takes pieces until the source ends, something ends it before, or 2^40 bytes were taken.
    #[tactic(auto, using(crate::proofs::Streamed::ending))]
    fn run<S: Source, O: Sink>(&mut self, source: &mut S, sink: &mut O) -> ShowEnd
        requires { self.old.decoder ≡ fresh }
        ensures output { IfSome (S.left source.old) (λ bytes. WritesText result (O.written sink.old) (O.written sink.new) (shown self.old.form bytes)) }
        ensures broken { result ≡ ShowEnd.SourceFault → Broke self.old.form (S.left source.old) (S.left source.new) (O.written sink.old) (O.written sink.new) }
        ensures limit { result ≡ ShowEnd.InputLimit → Filled self.old.form (S.left source.old) (S.left source.new) (O.written sink.old) (O.written sink.new) }
        ensures read { result ≡ ShowEnd.Done → IsAtEnd (S.left source.new) }
        ensures fault { HasFault result (S.faults source.old) (S.faults source.new) (O.faults sink.old) (O.faults sink.new) }
        ensures source_later { S.faults source.old ≤ S.faults source.new }
        ensures sink_later { O.faults sink.old ≤ O.faults sink.new }
    {
        let mut room = INPUT_BYTES;
        while room > 0 {
            let taken = match self.decoder.read_from(source, room) {
                Ok(taken) => taken,
                Err(ReadFault::Source) => return ShowEnd::SourceFault,
                Err(ReadFault::Memory) => return ShowEnd::Memory,
            };
            if taken == 0 {
                return match self.finish(sink) {
                    Ok(()) => ShowEnd::Done,
                    Err(end) => end,
                };
            }
            if let Err(end) = self.show_frames(sink) {
                return end;
            }
            room -= taken as u64;
        }
        ShowEnd::InputLimit
    }

    /// Shows all whole frames that the decoder holds.
    fn show_frames<O: Sink>(&mut self, sink: &mut O) -> Result<(), ShowEnd>
        requires { 4 * self.old.decoder.given + length self.old.decoder.rest ≤ 2 ^ 40 }
        ensures shows { ShowsAll self.old.form result self.old.decoder.rest self.new.decoder.rest (O.written sink.old) (O.written sink.new) }
        ensures small { 4 * self.new.decoder.given + length self.new.decoder.rest ≤ 4 * self.old.decoder.given + length self.old.decoder.rest }
        ensures form { self.new.form ≡ self.old.form }
        ensures fault { SinkFails result (O.faults sink.old) (O.faults sink.new) }
        ensures later { O.faults sink.old ≤ O.faults sink.new }
    {
        while self.show_next(sink)? {}
        Ok(())
    }

    /// Shows the first frame that the decoder holds. It returns `false` where the decoder holds no
    /// whole one.
    #[tactic(auto, using(crate::proofs::Streamed::stepping))]
    fn show_next<O: Sink>(&mut self, sink: &mut O) -> Result<bool, ShowEnd>
        requires { 4 * self.old.decoder.given + length self.old.decoder.rest ≤ 2 ^ 40 }
        ensures shows { ShowsOne self.old.form result self.old.decoder.rest self.new.decoder.rest (O.written sink.old) (O.written sink.new) }
        ensures fewer { result ≡ Ok true → length self.new.decoder.rest < length self.old.decoder.rest }
        ensures small { 4 * self.new.decoder.given + length self.new.decoder.rest ≤ 4 * self.old.decoder.given + length self.old.decoder.rest }
        ensures form { self.new.form ≡ self.old.form }
        ensures fault { SinkFails result (O.faults sink.old) (O.faults sink.new) }
        ensures later { O.faults sink.old ≤ O.faults sink.new }
    {
        match self.decoder.next() {
            Ok(Some(frame)) => match write_frame(self.form, frame.payload, &mut self.text, sink) {
                Ok(()) => Ok(true),
                Err(end) => Err(end),
            },
            Ok(None) => Ok(false),
            Err(_) => Ok(false),
        }
    }

    /// Shows what stands behind the last frame.
    fn finish<O: Sink>(&mut self, sink: &mut O) -> Result<(), ShowEnd>
        ensures ok { OnOk result (Appends (O.written sink.old) (O.written sink.new) (shown_rest self.old.decoder.rest)) }
        ensures err { OnErr result (AppendsFront (O.written sink.old) (O.written sink.new) (shown_rest self.old.decoder.rest)) }
        ensures fault { SinkFails result (O.faults sink.old) (O.faults sink.new) }
        ensures later { O.faults sink.old ≤ O.faults sink.new }
    {
        self.text.clear();
        if show_rest(self.decoder.rest(), &mut self.text).is_err() {
            return Err(ShowEnd::Memory);
        }
        match write_whole(sink, self.text.as_slice()) {
            Ok(()) => Ok(()),
            Err(_) => Err(ShowEnd::SinkFault),
        }
    }
}

/// Writes the line of a frame, which is put together in `text`.
fn write_frame<O: Sink>(
    form: BlockForm,
    payload: &[u8],
    text: &mut Vec<u8>,
    sink: &mut O,
) -> Result<(), ShowEnd>
    ensures ok { OnOk result (Appends (O.written sink.old) (O.written sink.new) (shown_frame form payload.now)) }
    ensures err { OnErr result (AppendsFront (O.written sink.old) (O.written sink.new) (shown_frame form payload.now)) }
    ensures fault { SinkFails result (O.faults sink.old) (O.faults sink.new) }
    ensures later { O.faults sink.old ≤ O.faults sink.new }
{
    text.clear();
    if show_frame(form, payload, text).is_err() {
        return Err(ShowEnd::Memory);
    }
    match write_whole(sink, text.as_slice()) {
        Ok(()) => Ok(()),
        Err(_) => Err(ShowEnd::SinkFault),
    }
}
