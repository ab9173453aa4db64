ghost use Rattle.std.specs.Prelude.{◌≡◌, ◌+◌, ◌-◌, ◌^◌, ◌<◌, ◌≤◌, ◌∷◌, ◌++◌, [], None, Some, Ok, Err, OnOk, OnErr, true, false, length, if◌then◌else◌};
ghost use Rattle.snow_lines.specs.declared.line.Line.TheVariants as line;
ghost use Rattle.snow_engine.specs.Model.Run.{after_frame};
ghost use Rattle.snow_engine.specs.declared.engine.Task.TheVariants as task;
ghost use Rattle.snow_engine.specs.declared.end.End.TheVariants as end;
ghost use Rattle.snow_audit.specs.declared.auditing.AuditEnd.TheVariants as audit;
ghost use Rattle.snow_audit.specs.Model.Auditing.{at_frame, breaks_off, ends_as};
ghost use Rattle.snow_audit.specs.Kept.Following.{IsKept, Moves, at_end, between, event_comes, first_then, frame_comes, is_fresh, line_comes, owed_of, stands, stepped, stop_of};

use crate::auditing::AuditEnd;
use crate::sheet::Sheet;
use snow_board::Board;
use snow_chain::Chain;
use snow_engine::{BoxedEnd, End, Runner, Task};
use snow_lines::{Line, SkipKind};
use snow_wire::View;
use std::alloc::Global;

/// The run as the model makes it from the frames that came, with the lines of its last event, and
/// how many of those are recorded.
/// Rule: this project's own.
#[derive(Drop)]
pub struct Follower<C: Chain, B: Board> {
    pub runner: Runner<C, B>,
    /// How the run stopped at its last event.
    pub stop: Option<End>,
    /// How many events came.
    pub events: u64,
    /// How many recorded lines came.
    pub lines: u64,
    /// How many of them behind the last event.
    pub at: usize,
    pub sheet: Sheet,
}

impl<C: Chain, B: Board> Follower<C, B> {
    /// Returns the follower to which nothing came yet.
    /// Rule: this project's own.
    pub fn new(alloc: Global) -> Self
        ensures stop { result.stop ≡ None }
        ensures engine { result.runner.engine ≡ None }
        ensures task { result.runner.task ≡ task.Run }
        ensures events { result.events ≡ 0 }
        ensures lines { result.lines ≡ 0 }
        ensures log { result.runner.log ≡ [] }
    {
        Follower {
            runner: Runner::new(alloc, Task::Run),
            stop: None,
            events: 0,
            lines: 0,
            at: 0,
            sheet: Sheet::new(alloc),
        }
    }

    /// Takes a frame: it holds a recorded line against the model's, and an event is the run's next.
    /// Where the frame gives the answer of the audit, it returns that as its error; on want of
    /// memory, that is `Stopped(Memory)`.
    /// Rule: this project's own.
    pub fn take(&mut self, frame: u64, payload: &[u8]) -> Result<(), AuditEnd>
        requires task { self.old.runner.task ≡ task.Run }
        requires stop { IsKept self.old.stop }
        requires count { self.old.events + self.old.lines < frame }
        ensures moves { Moves result (between self.new.stop self.new.runner.engine self.new.events self.new.lines self.new.at self.new.runner.log)
            (frame_comes (after_frame C.rules B.answer task.Run) (between self.old.stop self.old.runner.engine self.old.events self.old.lines self.old.at self.old.runner.log)
            frame payload.now) }
        ensures task { self.new.runner.task ≡ task.Run }
        ensures stop { IsKept self.new.stop }
        ensures count { OnOk result (self.new.events + self.new.lines ≤ frame) }
    {
        if self.is_fresh() {
            return self.take_first(frame, payload);
        }
        match View::read(payload) {
            Ok(View::Line(text)) => self.take_line(text),
            _ => self.take_event(frame, payload),
        }
    }

    /// Returns whether no frame came yet.
    fn is_fresh(&self) -> bool
        ensures { result ≡ is_fresh (stands self.now.stop self.now.runner.engine) }
    {
        self.stop.is_none() && self.runner.engine.is_none()
    }

    /// Takes the first frame. Where the run stops there, it looks at no line behind it.
    fn take_first(&mut self, frame: u64, payload: &[u8]) -> Result<(), AuditEnd>
        requires task { self.old.runner.task ≡ task.Run }
        requires stop { self.old.stop ≡ None }
        requires count { self.old.events + self.old.lines < frame }
        ensures moves { Moves result (between self.new.stop self.new.runner.engine self.new.events self.new.lines self.new.at self.new.runner.log)
            (let next = stepped (after_frame C.rules B.answer task.Run) (between self.old.stop self.old.runner.engine self.old.events self.old.lines self.old.at self.old.runner.log)
            frame payload.now in first_then next.stand next) }
        ensures task { self.new.runner.task ≡ task.Run }
        ensures stop { IsKept self.new.stop }
        ensures count { OnOk result (self.new.events + self.new.lines ≤ frame) }
    {
        self.step(frame, payload)?;
        match self.stop {
            Some(end) => Err(AuditEnd::Stopped(end)),
            None => Ok(()),
        }
    }

    /// Takes a recorded line, and compares it.
    fn take_line(&mut self, text: &[u8]) -> Result<(), AuditEnd>
        requires count { self.old.events + self.old.lines < 2 ^ 64 - 1 }
        ensures moves { Moves result (between self.new.stop self.new.runner.engine self.new.events self.new.lines self.new.at self.new.runner.log)
            (line_comes (between self.old.stop self.old.runner.engine self.old.events self.old.lines self.old.at self.old.runner.log)
            (owed_of self.old.at self.old.runner.log) (text.now ++ 10 ∷ [])) }
        ensures task { self.new.runner.task ≡ self.old.runner.task }
        ensures stop { self.new.stop ≡ self.old.stop }
        ensures count { OnOk result (self.new.events + self.new.lines ≡ self.old.events + self.old.lines + 1) }
    {
        let Some(line) = self.runner.log.list().get(self.at) else {
            return Err(self.differs());
        };
        match self.sheet.shows(line, text) {
            Ok(true) => {
                self.lines += 1;
                self.at += 1;
                Ok(())
            }
            Ok(false) => Err(self.differs()),
            Err(_) => Err(AuditEnd::Stopped(End::Memory)),
        }
    }

    /// Returns the answer that the next line isn't the model's.
    fn differs(&self) -> AuditEnd
        requires { self.now.lines < 2 ^ 64 - 1 }
        ensures { result ≡ audit.Differs (self.now.lines + 1) }
    {
        AuditEnd::Differs {
            line: self.lines + 1,
        }
    }

    /// Takes an event, before which all lines have to be recorded. Behind a stop of the run it
    /// takes none.
    fn take_event(&mut self, frame: u64, payload: &[u8]) -> Result<(), AuditEnd>
        requires task { self.old.runner.task ≡ task.Run }
        requires stop { IsKept self.old.stop }
        requires begun { is_fresh (stands self.old.stop self.old.runner.engine) ≡ false }
        requires count { self.old.events + self.old.lines < frame }
        ensures moves { Moves result (between self.new.stop self.new.runner.engine self.new.events self.new.lines self.new.at self.new.runner.log)
            (event_comes (between self.old.stop self.old.runner.engine self.old.events self.old.lines self.old.at self.old.runner.log)
            (owed_of self.old.at self.old.runner.log)
            (stepped (after_frame C.rules B.answer task.Run) (between self.old.stop self.old.runner.engine self.old.events self.old.lines self.old.at self.old.runner.log)
            frame payload.now)) }
        ensures task { self.new.runner.task ≡ task.Run }
        ensures stop { IsKept self.new.stop }
        ensures count { OnOk result (self.new.events + self.new.lines ≤ frame) }
    {
        if self.is_owing() {
            return Err(self.differs());
        }
        match self.stop {
            Some(end) => Err(AuditEnd::Stopped(end)),
            None => self.step(frame, payload),
        }
    }

    /// Returns whether a line of the last event isn't recorded yet.
    fn is_owing(&self) -> bool
        ensures some { result ≡ true → self.now.at < length self.now.runner.log }
        ensures none { result ≡ false → owed_of self.now.at self.now.runner.log ≡ [] }
    {
        self.at < self.runner.log.list().len()
    }

    /// Gives the run its next event. That the run passes over a frame is a line too.
    fn step(&mut self, frame: u64, payload: &[u8]) -> Result<(), AuditEnd>
        requires task { self.old.runner.task ≡ task.Run }
        requires stop { self.old.stop ≡ None }
        requires count { self.old.events < frame }
        ensures moves { Moves result (between self.new.stop self.new.runner.engine self.new.events self.new.lines self.new.at self.new.runner.log)
            (Ok (stepped (after_frame C.rules B.answer task.Run) (between self.old.stop self.old.runner.engine self.old.events self.old.lines self.old.at self.old.runner.log)
            frame payload.now)) }
        ensures memory { OnErr result (result ≡ Err (audit.Stopped end.Memory)) }
        ensures task { self.new.runner.task ≡ task.Run }
        ensures stop { IsKept self.new.stop }
        ensures events { self.new.events ≡ self.old.events + 1 }
        ensures lines { self.new.lines ≡ self.old.lines }
    {
        self.events += 1;
        self.at = 0;
        match self.runner.work(self.events, payload) {
            Ok(None) => Ok(()),
            Ok(Some(kind)) => self.pass_over(kind),
            Err(how) => self.stops(frame, how),
        }
    }

    /// Puts the line of an event that is passed over in place of the others.
    fn pass_over(&mut self, kind: SkipKind) -> Result<(), AuditEnd>
        ensures log { OnOk result (self.new.runner.log ≡ line.Skip self.old.events kind ∷ []) }
        ensures memory { OnErr result (result ≡ Err (audit.Stopped end.Memory)) }
        ensures engine { self.new.runner.engine ≡ self.old.runner.engine }
        ensures task { self.new.runner.task ≡ self.old.runner.task }
        ensures stop { self.new.stop ≡ self.old.stop }
        ensures events { self.new.events ≡ self.old.events }
        ensures lines { self.new.lines ≡ self.old.lines }
        ensures at { self.new.at ≡ self.old.at }
    {
        self.runner.log.clear();
        match self.runner.log.push(Line::Skip {
            frame: self.events,
            kind,
        }) {
            Ok(()) => Ok(()),
            Err(_) => Err(AuditEnd::Stopped(End::Memory)),
        }
    }

    /// Notes that the run stopped in a frame. The stop names the frame among all, where the run
    /// counts events alone.
    fn stops(&mut self, frame: u64, how: BoxedEnd) -> Result<(), AuditEnd>
        ensures stop { OnOk result (self.new.stop ≡ Some (at_frame how frame)) }
        ensures memory { OnErr result ((result ≡ Err (audit.Stopped end.Memory)) × (how ≡ end.Memory)) }
        ensures other { OnOk result (how ≡ end.Memory → ⊥) }
        ensures kept { OnErr result (self.new.stop ≡ self.old.stop) }
        ensures log { self.new.runner.log ≡ self.old.runner.log }
        ensures task { self.new.runner.task ≡ self.old.runner.task }
        ensures events { self.new.events ≡ self.old.events }
        ensures lines { self.new.lines ≡ self.old.lines }
        ensures at { self.new.at ≡ self.old.at }
    {
        let end = match End::from(how) {
            End::Memory => return Err(AuditEnd::Stopped(End::Memory)),
            End::BadInput { kind, .. } => End::BadInput { frame, kind },
            end => end,
        };
        self.stop = Some(end);
        Ok(())
    }

    /// Returns the answer of the audit where no frame comes any more and the stream ends so. Fewer
    /// than 2^64-1 lines came.
    /// Rule: this project's own.
    pub fn at_end(&self, stream: End) -> AuditEnd
        requires { self.now.lines < 2 ^ 64 - 1 }
        ensures { result ≡ at_end (between self.now.stop self.now.runner.engine self.now.events self.now.lines self.now.at self.now.runner.log)
            (owed_of self.now.at self.now.runner.log) stream }
    {
        if self.is_owing() {
            return self.at_end_owing(stream);
        }
        self.at_last_line(stream)
    }

    /// Returns the answer at the end where a line of the last event isn't recorded: a difference,
    /// unless the stream breaks off.
    fn at_end_owing(&self, stream: End) -> AuditEnd
        requires { self.now.lines < 2 ^ 64 - 1 }
        ensures { result ≡ (if breaks_off stream then ends_as self.now.lines (stop_of (stands self.now.stop self.now.runner.engine)) stream
            else audit.Differs (self.now.lines + 1)) }
    {
        match stream {
            End::Done => self.differs(),
            _ => self.at_last_line(stream),
        }
    }

    /// Returns the answer at the end where all lines are recorded, or no more are wanted.
    #[tactic(auto, using(crate::proofs::Owing::stop_where))]
    fn at_last_line(&self, stream: End) -> AuditEnd
        ensures { result ≡ ends_as self.now.lines (stop_of (stands self.now.stop self.now.runner.engine)) stream }
    {
        match self.stop {
            Some(end) => AuditEnd::Stopped(end),
            None => self.at_stream_end(stream),
        }
    }

    /// Returns the answer at the end where the run goes on.
    fn at_stream_end(&self, stream: End) -> AuditEnd
        ensures { result ≡ ends_as self.now.lines None stream }
    {
        match stream {
            End::Done => AuditEnd::Same { lines: self.lines },
            _ => AuditEnd::Stopped(stream),
        }
    }
}
