ghost use Rattle.std.specs.Prelude.{◌≡◌, ◌+◌, ◌*◌, ◌^◌, ◌-◌, ◌≤◌, ◌<◌, [], length, None, Ok, false, ◌==◌, if◌then◌else◌, is_some, IfOk, OnOk, OnErr, ◌++◌};
ghost use Rattle.snow_base.specs.Clauses.Outside.{AppendsFront, HasCause};
ghost use Rattle.snow_page.specs.Kept.Gathered.{Gathers};
ghost use Rattle.snow_lines.specs.Model.Text.{texts};
ghost use Rattle.snow_wire.specs.Model.Frame.{first_of, is_too_long};
ghost use Rattle.snow_wire.specs.Clauses.Stream.{fresh};
ghost use Rattle.snow_engine.specs.Model.Run.{end_behind};
ghost use Rattle.snow_engine.specs.Clauses.Serving.{stand_of, told, has_sink_failed, Goes, GathersLines, WritesLines, SinkFails, one_worked, all_worked};

use crate::boxed::BoxedEnd;
use crate::end::{BadKind, End};
use crate::engine::Task;
use crate::runner::Runner;
use snow_base::{Failed, Sink};
use snow_board::Board;
use snow_chain::Chain;
use snow_lines::{Line, Lines, SkipKind};
use snow_page::Page;
use snow_wire::Decoder;
use std::alloc::{AllocError, Global};

/// A run over a stream: the bytes that wait for a whole frame, the engine, and the text that waits
/// to be written.
/// Rule: this project's own.
#[derive(Drop)]
pub struct Session<C: Chain, B: Board> {
    pub decoder: Decoder,
    pub runner: Runner<C, B>,
    pub page: Page,
}

impl<C: Chain, B: Board> Session<C, B> {
    /// Returns the session to which nothing came yet. On want of memory it returns `AllocError`.
    /// Rule: this project's own.
    pub fn begin(alloc: Global, task: Task) -> Result<Self, AllocError>
        ensures decoder { IfOk result (λ session. session.decoder ≡ fresh) }
        ensures engine { IfOk result (λ session. session.runner.engine ≡ None) }
        ensures task { IfOk result (λ session. session.runner.task ≡ task) }
        ensures page { IfOk result (λ session. session.page ≡ []) }
    {
        let page = Page::new(alloc)?;
        Ok(Session {
            decoder: Decoder::new(alloc),
            runner: Runner::new(alloc, task),
            page,
        })
    }

    /// Returns how a run ends where the source has no further byte: `BadInput` with `Cut` inside a
    /// frame, `NoStart` where nothing came, else `Done`.
    /// Rule: this project's own.
    pub fn end_of_input(&self) -> End
        requires { self.now.decoder.given < 2 ^ 64 - 1 }
        ensures { result ≡ (if length self.now.decoder.rest == 0 then end_behind (stand_of self.now.runner.engine)
            else End.BadInput (self.now.decoder.given + 1) BadKind.Cut) }
    {
        if self.decoder.rest_len() > 0 {
            return End::BadInput {
                frame: self.decoder.given() + 1,
                kind: BadKind::Cut,
            };
        }
        match &self.runner.engine {
            None => End::BadInput {
                frame: 1,
                kind: BadKind::NoStart,
            },
            Some(_) => End::Done,
        }
    }

    /// Works the first frame that the decoder holds, and gathers its lines. It returns `false`
    /// where the decoder holds no whole frame.
    fn work_next<O: Sink>(&mut self, out: &mut O) -> Result<bool, BoxedEnd>
        requires { self.old.decoder.given < 2 ^ 64 - 1 }
        ensures goes { Goes result self.new.runner.engine self.new.decoder
            (one_worked C.rules B.answer self.old.runner.task (stand_of self.old.runner.engine) self.old.decoder) }
        ensures lines { GathersLines result (O.written out.old) self.old.page (O.written out.new) self.new.page
            (one_worked C.rules B.answer self.old.runner.task (stand_of self.old.runner.engine) self.old.decoder).lines }
        ensures one { IfOk result (λ found. found ≡ is_some (first_of self.old.decoder.rest)) }
        ensures fine { result ≡ Ok false → is_too_long self.old.decoder.rest ≡ false }
        ensures fault { SinkFails result (O.faults out.old) (O.faults out.new) }
        ensures later { O.faults out.old ≤ O.faults out.new }
        ensures task { self.new.runner.task ≡ self.old.runner.task }
    {
        match self.decoder.next() {
            Err(long) => Err(BoxedEnd::new(
                self.runner.alloc,
                End::BadInput {
                    frame: long.number,
                    kind: BadKind::Length,
                },
            )),
            Ok(None) => Ok(false),
            Ok(Some(frame)) => {
                let number = frame.number;
                let worked = self.runner.work(number, frame.payload);
                match gather(&mut self.page, number, &worked, self.runner.log.list(), out) {
                    Ok(()) => worked.map(|_| true),
                    Err(_) => Err(BoxedEnd::sink_fault()),
                }
            }
        }
    }

    /// Works all whole frames that the decoder holds, and gathers their lines.
    fn work_frames<O: Sink>(&mut self, out: &mut O) -> Result<(), End>
        requires { 4 * self.old.decoder.given + length self.old.decoder.rest ≤ 2 ^ 40 }
        ensures goes { Goes result self.new.runner.engine self.new.decoder
            (all_worked C.rules B.answer self.old.runner.task (stand_of self.old.runner.engine) self.old.decoder) }
        ensures lines { GathersLines result (O.written out.old) self.old.page (O.written out.new) self.new.page
            (all_worked C.rules B.answer self.old.runner.task (stand_of self.old.runner.engine) self.old.decoder).lines }
        ensures fine { OnOk result (is_too_long self.new.decoder.rest ≡ false) }
        ensures fault { SinkFails result (O.faults out.old) (O.faults out.new) }
        ensures later { O.faults out.old ≤ O.faults out.new }
        ensures task { self.new.runner.task ≡ self.old.runner.task }
    {
        while self.work_next(out)? {}
        Ok(())
    }

    /// Works all whole frames that the decoder holds, and writes their lines. Nothing waits to be
    /// written before, nor behind. Where a frame ends the run it returns how. At most 2^40 bytes
    /// came.
    /// Rule: this project's own.
    pub fn work_all<O: Sink>(&mut self, out: &mut O) -> Result<(), End>
        requires small { 4 * self.old.decoder.given + length self.old.decoder.rest ≤ 2 ^ 40 }
        requires empty { self.old.page ≡ [] }
        ensures goes { Goes result self.new.runner.engine self.new.decoder
            (all_worked C.rules B.answer self.old.runner.task (stand_of self.old.runner.engine) self.old.decoder) }
        ensures lines { WritesLines result (O.written out.old) (O.written out.new)
            (all_worked C.rules B.answer self.old.runner.task (stand_of self.old.runner.engine) self.old.decoder).lines }
        ensures fine { OnOk result (is_too_long self.new.decoder.rest ≡ false) }
        ensures empty { OnOk result (self.new.page ≡ []) }
        ensures fault { SinkFails result (O.faults out.old) (O.faults out.new) }
        ensures later { O.faults out.old ≤ O.faults out.new }
        ensures task { self.new.runner.task ≡ self.old.runner.task }
    {
        let worked = self.work_frames(out);
        if has_sink_failed(&worked) {
            return worked;
        }
        match self.page.flush(out) {
            Ok(()) => worked,
            Err(_) => Err(End::SinkFault),
        }
    }
}

/// Returns whether the run is over, as the sink failed.
fn has_sink_failed(worked: &Result<(), End>) -> bool
    ensures { result ≡ has_sink_failed worked.now }
{
    match worked {
        Err(End::SinkFault) => true,
        _ => false,
    }
}

/// Gathers the lines of a frame that was worked.
#[tactic(auto, using(crate::proofs::Worked::one_text))]
fn gather<O: Sink>(
    page: &mut Page,
    frame: u64,
    worked: &Result<Option<SkipKind>, BoxedEnd>,
    log: &[Line],
    out: &mut O,
) -> Result<(), Failed>
    ensures ok { OnOk result (Gathers (O.written out.old) page.old (O.written out.new) page.new (texts (told frame worked.now log.now))) }
    ensures err { OnErr result (AppendsFront (O.written out.old) (O.written out.new) (page.old ++ texts (told frame worked.now log.now))) }
    ensures cause { HasCause (O.faults out.old) (O.faults out.new) result }
{
    match worked {
        Ok(Some(kind)) => page.print(&Line::Skip { frame, kind: *kind }, out),
        _ => page.print_all(log, out),
    }
}
