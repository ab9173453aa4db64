ghost use Rattle.std.specs.Prelude.{◌≡◌, None, Some, map, IfSome, string_bytes};
ghost use Rattle.std.specs.Io.KnownBytes.{IsAtEnd};
ghost use Rattle.snow_text_cli.specs.Model.Words.{asked};
ghost use Rattle.snow_text_cli.specs.Model.Answer as model;
ghost use Rattle.snow_text_cli.specs.Clauses.Answering as answering;

use crate::finish::Finish;
use crate::request::{Request, read_request};
use crate::status::Status;
use crate::telling::tell;
use snow_base::{Sink, Source};
use snow_text::{make, show};
use std::alloc::Global;

/// The top call: all that the program does. The words, without the program's name, ask for the text
/// of a stream, or for the stream that a text means. `source` gives the one, and `out` takes the
/// other.
///
/// It returns `Usage` exactly where the words ask for neither, and reads and writes nothing then.
/// It returns `BadInput` where the text isn't taken; nothing is written then, and the line on `err`
/// names the first place. It returns `Limit` where 2^40 bytes were read and the end of the input
/// isn't seen. `SourceFault` and `SinkFault` come only where that object's count of faults rose or
/// stands at 2^64-1, and `Memory` on want of memory; a front of the bytes was written then. The line
/// on `err` tells how it ended, unless that is `Done`.
/// Rule: this project's own.
#[tactic(auto, using(crate::proofs::Ended::answered, crate::proofs::Ended::told_again))]
pub fn top<S: Source, O: Sink, E: Sink>(
    alloc: Global,
    words: &Vec<String>,
    source: &mut S,
    out: &mut O,
    err: &mut E,
) -> Status
    // Words that ask for nothing are answered before anything is read.
    ensures usage { asked (map string_bytes words.now.items) ≡ None → answering.IsUsage result source.old source.new out.old out.new }
    // No others are.
    ensures only { result ≡ Status.Usage → asked (map string_bytes words.now.items) ≡ None }
    // The status is the model's, but for the three exceptions.
    ensures status { IfSome (S.left source.old) (λ input. answering.IsAnswer result (model.finish_for (asked (map string_bytes words.now.items)) input)) }
    // The bytes written are the model's: the text of the stream, or the stream of the text.
    ensures output { IfSome (S.left source.old) (λ input. answering.Wrote result (O.written out.old) (O.written out.new)
        (model.output_for (asked (map string_bytes words.now.items)) input)) }
    // Where the source failed, exactly the lines of the whole frames that came were written, or no byte of a stream.
    ensures broken { result ≡ Status.SourceFault → answering.BrokeFor (asked (map string_bytes words.now.items))
        (S.left source.old) (S.left source.new) (O.written out.old) (O.written out.new) }
    // At the limit 2^40 bytes came.
    ensures limit { result ≡ Status.Limit → answering.FilledFor (asked (map string_bytes words.now.items))
        (S.left source.old) (S.left source.new) (O.written out.old) (O.written out.new) }
    // At `Done` the input was read to its end.
    ensures read { result ≡ Status.Done → IsAtEnd (S.left source.new) }
    ensures fault { answering.HasFault result (S.faults source.old) (S.faults source.new) (O.faults out.old) (O.faults out.new) }
    // What standard error took is the model's, or the line of the exception.
    ensures error_line { IfSome (S.left source.old) (λ input. answering.TookLine (E.written err.old) (E.written err.new) (E.faults err.old) (E.faults err.new)
        (model.error_line (answering.told_by result (model.finish_for (asked (map string_bytes words.now.items)) input)))) }
    // It is one of the status, whatever the source tells.
    ensures one_line { answering.TookOne result (E.written err.old) (E.written err.new) (E.faults err.old) (E.faults err.new) }
{
    let ended = match read_request(words) {
        Some(request) => perform(alloc, request, source, out),
        None => Finish::Usage,
    };
    tell(&ended, err);
    ended.status()
}

/// Does what was asked for.
#[tactic(auto, using(crate::proofs::Ended::show_ended, crate::proofs::Ended::show_wrote, crate::proofs::Ended::show_failed, crate::proofs::Ended::show_done, crate::proofs::Ended::show_broken, crate::proofs::Ended::show_filled, crate::proofs::Ended::show_asked, crate::proofs::Ended::make_ended, crate::proofs::Ended::make_wrote, crate::proofs::Ended::make_failed, crate::proofs::Ended::make_done, crate::proofs::Ended::make_broken, crate::proofs::Ended::make_filled, crate::proofs::Ended::make_asked))]
fn perform<S: Source, O: Sink>(
    alloc: Global,
    request: Request,
    source: &mut S,
    out: &mut O,
) -> Finish
    ensures end { IfSome (S.left source.old) (λ input. answering.IsEnd result (model.finish_for (Some request) input)) }
    ensures output { IfSome (S.left source.old) (λ input.
        answering.Wrote (model.status_of result) (O.written out.old) (O.written out.new) (model.output_for (Some request) input)) }
    ensures broken { model.status_of result ≡ Status.SourceFault
        → answering.BrokeFor (Some request) (S.left source.old) (S.left source.new) (O.written out.old) (O.written out.new) }
    ensures limit { model.status_of result ≡ Status.Limit
        → answering.FilledFor (Some request) (S.left source.old) (S.left source.new) (O.written out.old) (O.written out.new) }
    ensures read { model.status_of result ≡ Status.Done → IsAtEnd (S.left source.new) }
    ensures fault { answering.HasFault (model.status_of result) (S.faults source.old) (S.faults source.new) (O.faults out.old) (O.faults out.new) }
    ensures asked { model.status_of result ≡ Status.Usage → ⊥ }
{
    match request {
        Request::Show(form) => Finish::of_show(show(alloc, form, source, out)),
        Request::Make => Finish::of_make(make(alloc, source, out)),
    }
}
