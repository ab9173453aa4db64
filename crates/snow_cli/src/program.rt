ghost use Rattle.std.specs.Prelude.{◌≡◌, ◌≤◌, ℕ, None, Some, map, length, IfSome, OnOk, OnErr, string_bytes};
ghost use Rattle.std.specs.Io.KnownBytes.{Appends, IsAtEnd};
ghost use Rattle.snow_base.specs.Clauses.Outside.{AppendsFront, HasCause};
ghost use Rattle.snow_lines.specs.Model.Text.{texts};
ghost use Rattle.snow_engine.specs.Model.Run.{lines_of, seen, end_of};
ghost use Rattle.snow_engine.specs.Clauses.Serving as serving;
ghost use Rattle.snow_audit.specs.Clauses.Answering as auditing;
ghost use Rattle.snow_audit.specs.Model.Auditing.{audit_of};
ghost use Rattle.snow_command.specs.Model.Words.{command_of};
ghost use Rattle.snow_cli.specs.Clauses.Answer as model;

use crate::report::report;
use crate::status::{Finish, Status};
use snow_audit::{AuditEnd, audit};
use snow_base::{Failed, Sink, Source, write_whole};
use snow_chain::{Chain, PlainChain, TallyChain};
use snow_command::{ChainName, Command, Job, RuleName, read_words};
use snow_digits::Text;
use snow_drill::drill;
use snow_engine::{End, Task, serve};
use snow_flake::{Snowball, Snowflake};
use snow_ledger::LedgerChain;
use snow_plain::PlainBoard;
use snow_topo::Topo;
use std::alloc::Global;

/// The top call: all that the program does. The words, without the program's name, ask for a
/// command. Its lines for the stream of `source` go to `out`; an audit writes the one line of what
/// it finds, and a drill reads nothing and writes its summary. What it decides is what
/// AvalancheGo's package `snow` decides with one-bit counters of the Snow family paper.
///
/// It returns `Usage` exactly where the words ask for no command, and reads nothing then. It
/// returns `BadInput` at the first frame that stops the run, with all lines before it written, and
/// `Limit` where 2^40 bytes hold no stop or all request numbers are used up. `Differs` comes where
/// an audit finds a recorded line that isn't the model's before any stop. `SourceFault` and
/// `SinkFault` come only where that object's count of faults rose or stands at 2^64-1, and `Memory`
/// on want of memory; they end a run behind a front of its lines. The line on `err` tells how it
/// ended, unless that is `Done` or `Differs`.
/// Rule: this project's own.
#[tactic(auto, using(crate::proofs::Finished::answered, crate::proofs::Finished::no_usage))]
pub fn top<S: Source, O: Sink, E: Sink>(
    alloc: Global,
    words: &Vec<String>,
    source: &mut S,
    out: &mut O,
    err: &mut E,
) -> Status
    // Words that ask for nothing are answered before anything is read.
    ensures usage { command_of (map string_bytes words.now.items) ≡ None → model.IsUsage result source.old source.new out.old out.new }
    // No others are.
    ensures only { result ≡ Status.Usage → command_of (map string_bytes words.now.items) ≡ None }
    // The status is the model's, but for the three exceptions.
    ensures status { IfSome (S.left source.old) (λ bytes. model.IsAnswer result (model.finish_for (command_of (map string_bytes words.now.items)) bytes)) }
    // The bytes written are the model's.
    ensures output { IfSome (S.left source.old) (λ bytes. model.Wrote result (O.written out.old) (O.written out.new)
        (model.text_for (command_of (map string_bytes words.now.items)) bytes)) }
    // Where the source failed, exactly the lines of the whole frames that came were written.
    ensures broken { result ≡ Status.SourceFault → model.BrokeFor (command_of (map string_bytes words.now.items))
        (S.left source.old) (S.left source.new) (O.written out.old) (O.written out.new) }
    // At `Done` a stream was read to its end, and a drill has read nothing.
    ensures read { result ≡ Status.Done → model.ReadFor S.left (command_of (map string_bytes words.now.items)) source.old source.new }
    // A drill reads nothing, and its answer holds for every source, also one that tells nothing.
    ensures drill { model.DrilledFor (command_of (map string_bytes words.now.items)) result source.old source.new (O.written out.old) (O.written out.new) }
    ensures fault { model.HasFault result (S.faults source.old) (S.faults source.new) (O.faults out.old) (O.faults out.new) }
    // The line on standard error is the model's, or that of the exception.
    ensures error_line { IfSome (S.left source.old) (λ bytes. model.TookLine (E.written err.old) (E.written err.new) (E.faults err.old) (E.faults err.new)
        (model.error_line (model.told_by result (model.finish_for (command_of (map string_bytes words.now.items)) bytes)))) }
    // It is one of the status, whatever the source tells.
    ensures one_line { model.TookOne result (E.written err.old) (E.written err.new) (E.faults err.old) (E.faults err.new) }
{
    let ended = match read_words(alloc, words) {
        Ok(Some(command)) => Some(perform(alloc, command, source, out)),
        Ok(None) => None,
        Err(_) => Some(Finish::Ended(End::Memory)),
    };
    report(&ended, err);
    Status::of(ended)
}

/// Runs a command.
#[tactic(auto, using(crate::proofs::Finished::ended_finish, crate::proofs::Finished::ended_wrote, crate::proofs::Finished::ended_fault, crate::proofs::Finished::source_fault_is, crate::proofs::Finished::done_is))]
fn perform<S: Source, O: Sink>(
    alloc: Global,
    command: Command,
    source: &mut S,
    out: &mut O,
) -> Finish
    ensures end { IfSome (S.left source.old) (λ bytes.
        Some result ≡ model.told_by (model.status_of (Some result)) (model.finish_for (Some command) bytes)) }
    ensures output { IfSome (S.left source.old) (λ bytes.
        model.Wrote (model.status_of (Some result)) (O.written out.old) (O.written out.new) (model.text_for (Some command) bytes)) }
    ensures broken { model.status_of (Some result) ≡ Status.SourceFault
        → model.BrokeFor (Some command) (S.left source.old) (S.left source.new) (O.written out.old) (O.written out.new) }
    ensures read { model.status_of (Some result) ≡ Status.Done → model.ReadFor S.left (Some command) source.old source.new }
    ensures drill { model.DrilledFor (Some command) (model.status_of (Some result)) source.old source.new (O.written out.old) (O.written out.new) }
    ensures fault { model.HasFault (model.status_of (Some result)) (S.faults source.old) (S.faults source.new) (O.faults out.old) (O.faults out.new) }
{
    match command {
        Command::Stream { job, chain, rule } => match chain {
            ChainName::Plain => work::<PlainChain, S, O>(alloc, job, rule, source, out),
            ChainName::Tally => work::<TallyChain, S, O>(alloc, job, rule, source, out),
            ChainName::Ledger => work::<LedgerChain, S, O>(alloc, job, rule, source, out),
        },
        Command::Drill { rule, seed, blocks } => Finish::Ended(play(
            alloc, rule, seed, blocks, out,
        )),
    }
}

/// Returns what is done with a stream over this chain.
#[tactic(auto, using(crate::proofs::Finished::ended_finish, crate::proofs::Finished::ended_wrote, crate::proofs::Finished::ended_fault, crate::proofs::Finished::source_fault_is, crate::proofs::Finished::done_is))]
fn work<C: Chain, S: Source, O: Sink>(
    alloc: Global,
    job: Job,
    rule: RuleName,
    source: &mut S,
    out: &mut O,
) -> Finish
    ensures end { IfSome (S.left source.old) (λ bytes. model.IsFinish result (model.job_finish job C.rules (model.answer_of rule) bytes)) }
    ensures output { IfSome (S.left source.old) (λ bytes.
        model.Wrote (model.status_of (Some result)) (O.written out.old) (O.written out.new) (model.job_text job C.rules (model.answer_of rule) bytes)) }
    ensures broken { model.status_of (Some result) ≡ Status.SourceFault
        → model.BrokeAt job C.rules (model.answer_of rule) (S.left source.old) (S.left source.new) (O.written out.old) (O.written out.new) }
    ensures read { model.status_of (Some result) ≡ Status.Done → IsAtEnd (S.left source.new) }
    ensures fault { model.HasFault (model.status_of (Some result)) (S.faults source.old) (S.faults source.new) (O.faults out.old) (O.faults out.new) }
{
    match job {
        Job::Decide => Finish::Ended(run::<C, S, O>(alloc, Task::Decide, rule, source, out)),
        Job::Run => Finish::Ended(run::<C, S, O>(alloc, Task::Run, rule, source, out)),
        Job::Audit => check::<C, S, O>(alloc, rule, source, out),
    }
}

/// Audits a run over this chain, and writes the one line.
fn check<C: Chain, S: Source, O: Sink>(
    alloc: Global,
    rule: RuleName,
    source: &mut S,
    out: &mut O,
) -> Finish
    ensures end { IfSome (S.left source.old) (λ bytes. model.IsFinish result (model.audit_finish (audit_of C.rules (model.answer_of rule) bytes))) }
    ensures output { IfSome (S.left source.old) (λ bytes.
        model.Wrote (model.status_of (Some result)) (O.written out.old) (O.written out.new) (model.audit_text (audit_of C.rules (model.answer_of rule) bytes))) }
    ensures broken { model.status_of (Some result) ≡ Status.SourceFault → O.written out.new ≡ O.written out.old }
    ensures read { model.status_of (Some result) ≡ Status.Done → IsAtEnd (S.left source.new) }
    ensures fault { model.HasFault (model.status_of (Some result)) (S.faults source.old) (S.faults source.new) (O.faults out.old) (O.faults out.new) }
{
    let found = audited::<C, S>(alloc, rule, source);
    tell(found, out)
}

/// Audits a run over this chain. It takes the plain board, which shares no tree with `run`.
fn audited<C: Chain, S: Source>(alloc: Global, rule: RuleName, source: &mut S) -> AuditEnd
    ensures answer { IfSome (S.left source.old) (λ bytes. auditing.IsAnswer result (audit_of C.rules (model.answer_of rule) bytes)) }
    ensures told { auditing.IsTold result }
    ensures read { auditing.IsRead result (IsAtEnd (S.left source.new)) }
    ensures fault { auditing.HasFault result (S.faults source.old) (S.faults source.new) }
{
    match rule {
        RuleName::Snowball => audit::<C, PlainBoard<Snowball>, S>(alloc, source),
        RuleName::Snowflake => audit::<C, PlainBoard<Snowflake>, S>(alloc, source),
    }
}

/// Writes the line of what an audit found. There is none where the audit stopped.
fn tell<O: Sink>(found: AuditEnd, out: &mut O) -> Finish
    ensures { model.Told result found (O.written out.old) (O.written out.new) (O.faults out.old) (O.faults out.new) }
{
    match found {
        AuditEnd::Same { lines } => {
            unless_failed(put_number(b"same", lines, out), Finish::Ended(End::Done))
        }
        AuditEnd::Differs { line } => unless_failed(
            put_number(b"differs", line, out),
            Finish::Differs,
        ),
        AuditEnd::Stopped(end) => Finish::Ended(end),
    }
}

/// Returns how a command ended that tried to write its line.
fn unless_failed(written: Result<(), Failed>, finish: Finish) -> Finish
    ensures { result ≡ model.unless_failed written finish }
{
    match written {
        Ok(()) => finish,
        Err(_) => Finish::Ended(End::SinkFault),
    }
}

/// Writes a line of a word and a number.
fn put_number<O: Sink>(word: &[u8], number: u64, out: &mut O) -> Result<(), Failed>
    requires { length word.now ≤ 8 }
    ensures ok { OnOk result (Appends (O.written out.old) (O.written out.new) (model.number_line word.now number)) }
    ensures err { OnErr result (AppendsFront (O.written out.old) (O.written out.new) (model.number_line word.now number)) }
    ensures cause { HasCause (O.faults out.old) (O.faults out.new) result }
{
    let mut line: Text<32> = Text::new();
    line.push(word);
    line.push_number(b' ', number);
    line.push(b"\n");
    write_whole(out, line.as_slice())
}

/// Makes a drill by this rule.
#[tactic(auto, using(crate::proofs::Drilled::drill_ends, crate::proofs::Drilled::drill_writes, crate::proofs::Drilled::drill_fails))]
fn play<O: Sink>(alloc: Global, rule: RuleName, seed: u64, blocks: u32, out: &mut O) -> End
    ensures end { serving.IsEnd result End.Done }
    ensures output { serving.Wrote result (O.written out.old) (O.written out.new) (model.drill_text rule seed blocks) }
    ensures fault { (before after : ℕ) → serving.HasFault result before after (O.faults out.old) (O.faults out.new) }
    ensures unbroken { result ≡ End.SourceFault → ⊥ }
{
    match rule {
        RuleName::Snowball => drill::<Topo<Snowball>, O>(alloc, seed, blocks, out),
        RuleName::Snowflake => drill::<Topo<Snowflake>, O>(alloc, seed, blocks, out),
    }
}

/// Runs a task over this chain.
fn run<C: Chain, S: Source, O: Sink>(
    alloc: Global,
    task: Task,
    rule: RuleName,
    source: &mut S,
    out: &mut O,
) -> End
    ensures end { IfSome (S.left source.old) (λ bytes. serving.IsEnd result (end_of C.rules (model.answer_of rule) task bytes)) }
    ensures output { IfSome (S.left source.old) (λ bytes.
        serving.Wrote result (O.written out.old) (O.written out.new) (texts (lines_of C.rules (model.answer_of rule) task (seen bytes)))) }
    ensures broken { result ≡ End.SourceFault
        → serving.Broke C.rules (model.answer_of rule) task (S.left source.old) (S.left source.new) (O.written out.old) (O.written out.new) }
    ensures read { result ≡ End.Done → IsAtEnd (S.left source.new) }
    ensures fault { serving.HasFault result (S.faults source.old) (S.faults source.new) (O.faults out.old) (O.faults out.new) }
{
    match rule {
        RuleName::Snowball => serve::<C, Topo<Snowball>, S, O>(alloc, task, source, out),
        RuleName::Snowflake => serve::<C, Topo<Snowflake>, S, O>(alloc, task, source, out),
    }
}
