ghost use Rattle.std.specs.Prelude.{◌≡◌, ◌+◌, ◌-◌, ◌*◌, ◌^◌, ◌≤◌, ◌<◌, [], None, Ok, false, true, length, IfSome, OnOk};
ghost use Rattle.std.specs.Io.KnownBytes.{IsAtEnd};
ghost use Rattle.snow_wire.specs.Model.Frame.{first_of, is_too_long};
ghost use Rattle.snow_wire.specs.Clauses.Stream.{fresh};
ghost use Rattle.snow_engine.specs.Model.Run.{after_frame};
ghost use Rattle.snow_engine.specs.declared.engine.Task.TheVariants as task;
ghost use Rattle.snow_audit.specs.Model.Auditing.{audit_of, stream_end};
ghost use Rattle.snow_audit.specs.Clauses.Answering.{HasFault, IsAnswer, IsRead, IsTold};
ghost use Rattle.snow_audit.specs.Kept.Following.{IsKept, Took, at_end, between, owed_of};

use crate::auditing::AuditEnd;
use crate::following::Follower;
use snow_base::Source;
use snow_base::limits::INPUT_BYTES;
use snow_board::Board;
use snow_chain::Chain;
use snow_engine::{BadKind, End};
use snow_wire::{Decoder, ReadFault};
use std::alloc::Global;

/// An audit over a stream: the bytes that wait for a whole frame, and the follower of the run.
/// Rule: this project's own.
#[derive(Drop)]
pub struct Auditor<C: Chain, B: Board> {
    pub decoder: Decoder,
    pub follower: Follower<C, B>,
}

impl<C: Chain, B: Board> Auditor<C, B> {
    /// Returns the audit to which nothing came yet.
    /// Rule: this project's own.
    pub fn new(alloc: Global) -> Self
        ensures decoder { result.decoder ≡ fresh }
        ensures stop { result.follower.stop ≡ None }
        ensures engine { result.follower.runner.engine ≡ None }
        ensures task { result.follower.runner.task ≡ task.Run }
        ensures events { result.follower.events ≡ 0 }
        ensures lines { result.follower.lines ≡ 0 }
        ensures log { result.follower.runner.log ≡ [] }
    {
        Auditor {
            decoder: Decoder::new(alloc),
            follower: Follower::new(alloc),
        }
    }

    /// Takes pieces until the source ends, the audit has its answer, or 2^40 bytes came, and
    /// returns what `audit` does. Nothing came before.
    /// Rule: this project's own.
    pub fn run<S: Source>(&mut self, source: &mut S) -> AuditEnd
        requires decoder { self.old.decoder ≡ fresh }
        requires stop { self.old.follower.stop ≡ None }
        requires engine { self.old.follower.runner.engine ≡ None }
        requires task { self.old.follower.runner.task ≡ task.Run }
        requires events { self.old.follower.events ≡ 0 }
        requires lines { self.old.follower.lines ≡ 0 }
        requires log { self.old.follower.runner.log ≡ [] }
        ensures answer { IfSome (S.left source.old) (λ bytes. IsAnswer result (audit_of C.rules B.answer bytes)) }
        ensures told { IsTold result }
        ensures read { IsRead result (IsAtEnd (S.left source.new)) }
        ensures fault { HasFault result (S.faults source.old) (S.faults source.new) }
        ensures source_later { S.faults source.old ≤ S.faults source.new }
    {
        let mut room = INPUT_BYTES;
        while room > 0 {
            let taken = match self.decoder.read_from(source, room) {
                Ok(taken) => taken,
                Err(ReadFault::Source) => return AuditEnd::Stopped(End::SourceFault),
                Err(ReadFault::Memory) => return AuditEnd::Stopped(End::Memory),
            };
            if taken == 0 {
                return self.at_end_of_input();
            }
            if let Err(answer) = self.take_frames() {
                return answer;
            }
            room -= taken as u64;
        }
        self.follower.at_end(End::InputLimit)
    }

    /// Takes all whole frames that the decoder holds.
    fn take_frames(&mut self) -> Result<(), AuditEnd>
        requires small { 4 * self.old.decoder.given + length self.old.decoder.rest ≤ 2 ^ 40 }
        requires task { self.old.follower.runner.task ≡ task.Run }
        requires stop { IsKept self.old.follower.stop }
        requires count { self.old.follower.events + self.old.follower.lines ≤ self.old.decoder.given }
        ensures took { Took result (after_frame C.rules B.answer task.Run) self.old.decoder
            (between self.old.follower.stop self.old.follower.runner.engine self.old.follower.events self.old.follower.lines self.old.follower.at self.old.follower.runner.log)
            self.new.decoder
            (between self.new.follower.stop self.new.follower.runner.engine self.new.follower.events self.new.follower.lines self.new.follower.at self.new.follower.runner.log) }
        ensures whole { OnOk result (first_of self.new.decoder.rest ≡ None) }
        ensures calm { OnOk result (is_too_long self.new.decoder.rest ≡ false) }
        ensures small { OnOk result (4 * self.new.decoder.given + length self.new.decoder.rest ≤ 4 * self.old.decoder.given + length self.old.decoder.rest) }
        ensures task { self.new.follower.runner.task ≡ task.Run }
        ensures stop { IsKept self.new.follower.stop }
        ensures count { OnOk result (self.new.follower.events + self.new.follower.lines ≤ self.new.decoder.given) }
    {
        while self.take_next()? {}
        Ok(())
    }

    /// Takes the first frame that the decoder holds. It returns `false` where the decoder holds no
    /// whole one.
    fn take_next(&mut self) -> Result<bool, AuditEnd>
        requires small { 4 * self.old.decoder.given + length self.old.decoder.rest ≤ 2 ^ 40 }
        requires task { self.old.follower.runner.task ≡ task.Run }
        requires stop { IsKept self.old.follower.stop }
        requires count { self.old.follower.events + self.old.follower.lines ≤ self.old.decoder.given }
        ensures took { Took result (after_frame C.rules B.answer task.Run) self.old.decoder
            (between self.old.follower.stop self.old.follower.runner.engine self.old.follower.events self.old.follower.lines self.old.follower.at self.old.follower.runner.log)
            self.new.decoder
            (between self.new.follower.stop self.new.follower.runner.engine self.new.follower.events self.new.follower.lines self.new.follower.at self.new.follower.runner.log) }
        ensures whole { result ≡ Ok false → first_of self.new.decoder.rest ≡ None }
        ensures calm { result ≡ Ok false → is_too_long self.new.decoder.rest ≡ false }
        ensures fewer { result ≡ Ok true → length self.new.decoder.rest < length self.old.decoder.rest }
        ensures small { OnOk result (4 * self.new.decoder.given + length self.new.decoder.rest ≤ 4 * self.old.decoder.given + length self.old.decoder.rest) }
        ensures task { self.new.follower.runner.task ≡ task.Run }
        ensures stop { IsKept self.new.follower.stop }
        ensures count { OnOk result (self.new.follower.events + self.new.follower.lines ≤ self.new.decoder.given) }
    {
        match self.decoder.next() {
            Ok(Some(frame)) => {
                self.follower.take(frame.number, frame.payload)?;
                Ok(true)
            }
            Ok(None) => Ok(false),
            Err(long) => Err(
                self.follower.at_end(End::BadInput {
                    frame: long.number,
                    kind: BadKind::Length,
                }),
            ),
        }
    }

    /// Returns the answer where the source has no further byte.
    fn at_end_of_input(&self) -> AuditEnd
        requires given { self.now.decoder.given < 2 ^ 64 - 1 }
        requires lines { self.now.follower.lines < 2 ^ 64 - 1 }
        requires calm { is_too_long self.now.decoder.rest ≡ false }
        ensures { result ≡ at_end (between self.now.follower.stop self.now.follower.runner.engine self.now.follower.events self.now.follower.lines self.now.follower.at self.now.follower.runner.log)
            (owed_of self.now.follower.at self.now.follower.runner.log) (stream_end self.now.decoder.given self.now.decoder.rest false) }
    {
        self.follower.at_end(self.end_of_input())
    }

    /// Returns how a stream ends that has no further byte.
    fn end_of_input(&self) -> End
        requires given { self.now.decoder.given < 2 ^ 64 - 1 }
        requires calm { is_too_long self.now.decoder.rest ≡ false }
        ensures { result ≡ stream_end self.now.decoder.given self.now.decoder.rest false }
    {
        let given = self.decoder.given();
        if self.decoder.rest_len() > 0 {
            return End::BadInput {
                frame: given + 1,
                kind: BadKind::Cut,
            };
        }
        if given == 0 {
            return End::BadInput {
                frame: 1,
                kind: BadKind::NoStart,
            };
        }
        End::Done
    }
}
