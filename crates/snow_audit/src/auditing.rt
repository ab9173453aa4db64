ghost use Rattle.std.specs.Prelude.{◌≤◌, IfSome};
ghost use Rattle.std.specs.Io.KnownBytes.{IsAtEnd};
ghost use Rattle.snow_audit.specs.Model.Auditing.{audit_of};
ghost use Rattle.snow_audit.specs.Clauses.Answering.{HasFault, IsAnswer, IsRead, IsTold};

use crate::auditor::Auditor;
use snow_base::Source;
use snow_board::Board;
use snow_chain::Chain;
use snow_engine::End;
use std::alloc::Global;

/// What an audit finds. Lines are counted from 1 over the whole run.
/// Rule: this project's own.
#[derive(Clone, Copy, Debug, PartialEq, Eq)]
pub enum AuditEnd {
    /// So many lines are recorded, and they are the model's.
    Same { lines: u64 },
    /// The recorded lines aren't the model's from this one on, counted from 1.
    Differs { line: u64 },
    /// The run or its stream stopped, and no line before differs. This is neither `Done` nor
    /// `SinkFault`.
    Stopped(End),
}

/// Audits a recorded run: the source gives the run's events, and behind each the lines that the run
/// wrote for it, as Line events. It holds them against those of the model as they come, so it keeps
/// the lines of one event alone, and the first that differs ends the reading.
///
/// It returns `Same` where the source ends behind whole frames and no line differs. It returns
/// `Differs` at the first event whose recorded lines aren't the model's, where no stop comes
/// before. A stream breaks off where it is cut, reaches 2^40 bytes, or has a length that no frame
/// has: the last event's lines may then be a front of the model's. Else it returns `Stopped`, with
/// the run's stop or the stream's. Its frame is numbered among all frames. Where the run stops at
/// its first frame, it looks at no line. `SourceFault` and `Memory` may come in place of each
/// answer.
/// Rule: this project's own.
pub fn audit<C: Chain, B: Board, S: Source>(alloc: Global, source: &mut S) -> AuditEnd
    // The answer is the model's, but for a source fault and want of memory.
    ensures answer { IfSome (S.left source.old) (λ bytes. IsAnswer result (audit_of C.rules B.answer bytes)) }
    // A stop is never told as done, nor as a fault of a sink.
    ensures told { IsTold result }
    // Where nothing differs and nothing stopped, the source was read to its end.
    ensures read { IsRead result (IsAtEnd (S.left source.new)) }
    ensures fault { HasFault result (S.faults source.old) (S.faults source.new) }
    ensures source_later { S.faults source.old ≤ S.faults source.new }
{
    let mut auditor = Auditor::<C, B>::new(alloc);
    let answer = auditor.run(source);
    // (by a call: what lets go of a whole node is many steps, which stand in one place then)
    drop(auditor);
    answer
}
