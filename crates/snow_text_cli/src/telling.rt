ghost use Rattle.std.specs.Prelude.{◌≡◌, ◌≤◌, [], length};
ghost use Rattle.snow_text_cli.specs.Model.Answer.{error_line, reason_text, refusal_line};
ghost use Rattle.snow_text_cli.specs.Clauses.Answering.{TookLine};

use crate::finish::Finish;
use snow_base::{Sink, write_whole};
use snow_digits::Text;
use snow_text::{Reason, Refusal};

/// Tells on standard error how the program ended; nothing where all is done. A fault there changes
/// nothing.
/// Rule: this project's own.
pub fn tell<E: Sink>(ended: &Finish, err: &mut E)
    ensures { TookLine (E.written err.old) (E.written err.new) (E.faults err.old) (E.faults err.new) (error_line ended.now) }
{
    let mut line: Text<192> = Text::new();
    put_line(ended, &mut line);
    let _ = write_whole(err, line.as_slice());
}

/// Puts what standard error says of an end: a line, or the usage in three. It is empty where all is
/// done.
fn put_line(ended: &Finish, line: &mut Text<192>)
    requires { line.old ≡ [] }
    ensures { line.new ≡ error_line ended.now }
{
    match ended {
        Finish::Done => {}
        Finish::Usage => put_usage(line),
        Finish::Refused(refusal) => put_refusal(refusal, line),
        Finish::SourceFault => line.push(b"snowtext: source fault\n"),
        Finish::SinkFault => line.push(b"snowtext: sink fault\n"),
        Finish::Memory => line.push(b"snowtext: out of memory\n"),
        Finish::Limit => line.push(b"snowtext: input limit\n"),
    }
}

/// Puts the usage.
fn put_usage(line: &mut Text<192>)
    requires { line.old ≡ [] }
    ensures { line.new ≡ error_line Finish.Usage }
{
    line.push(b"usage: snowtext show [--chain NAME] < STREAM > TEXT\n");
    line.push(b"       snowtext make [--chain NAME] < TEXT > STREAM\n");
    line.push(b"       where NAME is plain, tally or ledger\n");
}

/// Puts the line for a text that isn't taken.
fn put_refusal(refusal: &Refusal, line: &mut Text<192>)
    requires { line.old ≡ [] }
    ensures { line.new ≡ refusal_line refusal.now }
{
    line.push(b"snowtext: line");
    line.push_number(b' ', refusal.line);
    line.push(b" column");
    line.push_number(b' ', refusal.column);
    line.push(b": ");
    line.push(reason_text(refusal.reason));
    line.push(b"\n");
}

/// Returns what is wrong, in a few words.
fn reason_text(reason: Reason) -> &'static [u8]
    ensures text { result.now ≡ reason_text reason }
    ensures length { length result.now ≤ 64 }
{
    match reason {
        Reason::Missing => b"a word is missing",
        Reason::Extra => b"the line should end here",
        Reason::Name => b"no line begins with this word",
        Reason::Field => b"another field is wanted",
        Reason::Number => b"a decimal number is wanted that fits",
        Reason::Digits => b"pairs of hexadecimal digits are wanted",
        Reason::Size => b"these are too few or too many bytes",
        Reason::Node => b"NODE:WEIGHT is wanted",
        Reason::Transfer => b"FROM>TO:AMOUNT@SEQUENCE is wanted",
        Reason::Many => b"a list has at most 65535 items",
        Reason::Long => b"a frame has at most 2097152 bytes",
        Reason::Unknown => b"no block has this name",
        Reason::Naming => b"a name of small letters, digits and - is wanted",
        Reason::Twice => b"another block has this name",
        Reason::Chain => b"a block in the words of its chain is wanted",
        Reason::Behind => b"nothing may stand behind the rest",
    }
}
