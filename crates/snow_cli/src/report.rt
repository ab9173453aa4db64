ghost use Rattle.std.specs.Prelude.{◌≡◌, ◌+◌, ◌≤◌, [], ◌++◌, length};
ghost use Rattle.snow_cli.specs.Clauses.Answer.{TookLine, bad_line, boot_line, end_line, error_line, fault_word, kind_word, roster_word, stop_text};

use crate::status::Finish;
use snow_base::{Sink, write_whole};
use snow_digits::Text;
use snow_engine::{BadKind, BootStop, End, RosterFault};
use snow_flake::ParamFault;

/// Tells on standard error how a command ended, or that there was none. A fault there changes
/// nothing.
/// Rule: this project's own.
pub fn report<E: Sink>(ended: &Option<Finish>, err: &mut E)
    ensures { TookLine (E.written err.old) (E.written err.new) (E.faults err.old) (E.faults err.new) (error_line ended.now) }
{
    let mut line: Text<192> = Text::new();
    put_line(ended, &mut line);
    let _ = write_whole(err, line.as_slice());
}

/// Puts the line for how a command ended, or that there was none. It is empty where all is done,
/// and where an audit differs.
fn put_line(ended: &Option<Finish>, line: &mut Text<192>)
    requires { line.old ≡ [] }
    ensures { line.new ≡ error_line ended.now }
{
    match ended {
        None => line.push(b"snowman: usage\n"),
        Some(Finish::Differs) => {}
        Some(Finish::Ended(end)) => put_end(end, line),
    }
}

/// Puts the line for how a run ended. It is empty where all is done.
fn put_end(end: &End, line: &mut Text<192>)
    requires { line.old ≡ [] }
    ensures { line.new ≡ end_line end.now }
{
    match end {
        End::Done => {}
        End::BadInput { frame, kind } => put_bad_line(*frame, kind, line),
        End::SourceFault => line.push(b"snowman: source fault\n"),
        End::SinkFault => line.push(b"snowman: sink fault\n"),
        End::Memory => line.push(b"snowman: out of memory\n"),
        End::InputLimit => line.push(b"snowman: input limit\n"),
        End::RequestLimit => line.push(b"snowman: request limit\n"),
        End::BootStopped(why) => put_boot_line(why, line),
    }
}

/// Puts the line for a bad input.
fn put_bad_line(frame: u64, kind: &BadKind, line: &mut Text<192>)
    requires { line.old ≡ [] }
    ensures { line.new ≡ bad_line frame kind.now }
{
    line.push(b"snowman: bad input at frame");
    line.push_number(b' ', frame);
    line.push(b": ");
    line.push(kind_word(kind));
    line.push(b"\n");
}

/// Puts the line for a stop of bootstrapping. The longest has 192 bytes.
fn put_boot_line(why: &BootStop, line: &mut Text<192>)
    requires { line.old ≡ [] }
    ensures { line.new ≡ boot_line why.now }
{
    line.push(b"snowman: bootstrapping stopped: ");
    put_stop(why, line);
    line.push(b"\n");
}

/// Puts why bootstrapping stopped. Want of memory and of numbers have lines of their own.
fn put_stop(why: &BootStop, line: &mut Text<192>)
    requires { length line.old ≤ 32 }
    ensures text { line.new ≡ line.old ++ stop_text why.now }
    ensures length { length line.new ≤ length line.old + 159 }
{
    match why {
        BootStop::Conflict {
            height,
            first,
            second,
        } => {
            line.push(b"conflict");
            line.push_number(b' ', *height);
            line.push_id(b' ', first);
            line.push_id(b' ', second);
        }
        BootStop::Fork { id, parent } => {
            line.push(b"fork");
            line.push_id(b' ', id);
            line.push_id(b' ', parent);
        }
        BootStop::Refused { id } => {
            line.push(b"refused");
            line.push_id(b' ', id);
        }
        BootStop::Full => line.push(b"full 32768"),
        BootStop::Requests | BootStop::Memory => {}
    }
}

/// Returns the word for what is wrong with an input.
fn kind_word(kind: &BadKind) -> &'static [u8]
    ensures word { result.now ≡ kind_word kind.now }
    ensures length { length result.now ≤ 12 }
{
    match kind {
        BadKind::Length => b"length",
        BadKind::Cut => b"cut",
        BadKind::NoStart => b"no-start",
        BadKind::NotStart => b"not-start",
        BadKind::Params(fault) => fault_word(*fault),
        BadKind::Roster(fault) => roster_word(fault),
        BadKind::State => b"state",
        BadKind::SecondStart => b"second-start",
    }
}

/// Returns the word for refused nodes. Want of memory has a line of its own.
fn roster_word(fault: &RosterFault) -> &'static [u8]
    ensures word { result.now ≡ roster_word fault.now }
    ensures length { length result.now ≤ 12 }
{
    match fault {
        RosterFault::Empty => b"nodes-empty",
        RosterFault::Duplicate { .. } => b"node-twice",
        RosterFault::ZeroWeight { .. } => b"node-weight",
        RosterFault::TooHeavy => b"nodes-heavy",
        RosterFault::Memory => b"",
    }
}

/// Returns the word for refused parameters.
fn fault_word(fault: ParamFault) -> &'static [u8]
    ensures word { result.now ≡ fault_word fault }
    ensures length { length result.now ≤ 12 }
{
    match fault {
        ParamFault::AlphaLow => b"alpha-low",
        ParamFault::AlphaOrder => b"alpha-order",
        ParamFault::AlphaHigh => b"alpha-high",
        ParamFault::BetaZero => b"beta-zero",
        ParamFault::RepollsZero => b"repolls-zero",
        ParamFault::RepollsHigh => b"repolls-high",
        ParamFault::KLarge => b"k-large",
        ParamFault::BetaLarge => b"beta-large",
    }
}
