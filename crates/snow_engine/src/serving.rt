ghost use Rattle.std.specs.Prelude.{◌≡◌, ◌≤◌, [], None, IfSome};
ghost use Rattle.std.specs.Io.KnownBytes.{IsAtEnd};
ghost use Rattle.snow_lines.specs.Model.Text.{texts};
ghost use Rattle.snow_wire.specs.Clauses.Stream.{fresh};
ghost use Rattle.snow_engine.specs.Model.Run.{lines_of, seen, end_of};
ghost use Rattle.snow_engine.specs.Clauses.Serving.{IsEnd, Wrote, HasFault, Broke};

use crate::end::End;
use crate::engine::Task;
use crate::session::Session;
use snow_base::limits::INPUT_BYTES;
use snow_base::{Sink, Source};
use snow_board::Board;
use snow_chain::Chain;
use snow_wire::ReadFault;
use std::alloc::Global;

/// Runs a task over a source. It works each whole frame as it comes, and writes its lines before it
/// reads on. It returns `Done` where the source ended behind whole frames. `BadInput`,
/// `BootStopped`, `RequestLimit` and `InputLimit` come at the model's first stop, with all lines
/// before it written; `InputLimit` where 2^40 bytes hold none. `SourceFault` and `SinkFault` come
/// only where that object's count of faults rose or stands at 2^64-1, and `Memory` on want of
/// memory; a front of the lines was written then.
/// Rule: this project's own.
pub fn serve<C: Chain, B: Board, S: Source, O: Sink>(
    alloc: Global,
    task: Task,
    source: &mut S,
    out: &mut O,
) -> End
    // The end is the model's, but for the three exceptions.
    ensures end { IfSome (S.left source.old) (λ bytes. IsEnd result (end_of C.rules B.answer task bytes)) }
    // The bytes written are the model's.
    ensures output { IfSome (S.left source.old) (λ bytes.
        Wrote result (O.written out.old) (O.written out.new) (texts (lines_of C.rules B.answer task (seen bytes)))) }
    // Where the source failed, exactly the lines of the whole frames that came were written.
    ensures broken { result ≡ End.SourceFault
        → Broke C.rules B.answer task (S.left source.old) (S.left source.new) (O.written out.old) (O.written out.new) }
    ensures read { result ≡ End.Done → IsAtEnd (S.left source.new) }
    ensures fault { HasFault result (S.faults source.old) (S.faults source.new) (O.faults out.old) (O.faults out.new) }
    ensures source_later { S.faults source.old ≤ S.faults source.new }
    ensures out_later { O.faults out.old ≤ O.faults out.new }
{
    match Session::<C, B>::begin(alloc, task) {
        Ok(mut session) => {
            let end = session.run(source, out);
            // (by a call: what lets go of a whole node is many steps, which stand in one place then)
            drop(session);
            end
        }
        Err(_) => End::Memory,
    }
}

impl<C: Chain, B: Board> Session<C, B> {
    /// Takes pieces until the source ends, something ends the run, or 2^40 bytes were taken.
    fn run<S: Source, O: Sink>(&mut self, source: &mut S, out: &mut O) -> End
        requires decoder { self.old.decoder ≡ fresh }
        requires engine { self.old.runner.engine ≡ None }
        requires page { self.old.page ≡ [] }
        ensures end { IfSome (S.left source.old) (λ bytes. IsEnd result (end_of C.rules B.answer self.old.runner.task bytes)) }
        ensures output { IfSome (S.left source.old) (λ bytes.
            Wrote result (O.written out.old) (O.written out.new) (texts (lines_of C.rules B.answer self.old.runner.task (seen bytes)))) }
        ensures broken { result ≡ End.SourceFault
            → Broke C.rules B.answer self.old.runner.task (S.left source.old) (S.left source.new) (O.written out.old) (O.written out.new) }
        ensures read { result ≡ End.Done → IsAtEnd (S.left source.new) }
        ensures fault { HasFault result (S.faults source.old) (S.faults source.new) (O.faults out.old) (O.faults out.new) }
        ensures source_later { S.faults source.old ≤ S.faults source.new }
        ensures out_later { O.faults out.old ≤ O.faults out.new }
    {
        let mut room = INPUT_BYTES;
        while room > 0 {
            let taken = match self.decoder.read_from(source, room) {
                Ok(taken) => taken,
                Err(ReadFault::Source) => return End::SourceFault,
                Err(ReadFault::Memory) => return End::Memory,
            };
            if taken == 0 {
                return self.end_of_input();
            }
            if let Err(end) = self.work_all(out) {
                return end;
            }
            room -= taken as u64;
        }
        End::InputLimit
    }
}
