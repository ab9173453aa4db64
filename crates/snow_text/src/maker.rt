ghost use Rattle.std.specs.Prelude.{◌≡◌, ◌≤◌, ◌++◌, [], length, OnOk, OnErr};
ghost use Rattle.snow_wire.specs.Model.Frame.{frame};
ghost use Rattle.snow_text_model.specs.Model.Made.{say_line};
ghost use Rattle.snow_say.specs.Clauses.Meaning.{Fits};
ghost use Rattle.snow_text.specs.Clauses.Maker.{LineMade, LineTaken, said_in};

use crate::refusing::refusal;
use snow_say::{Meaning, say_words};
use snow_text_model::Refusal;
use snow_words::{Names, Output, Stop, Width, Words};
use std::alloc::{AllocError, Global};
use std::marker::Model;

/// Why a line isn't taken.
/// Rule: this project's own.
#[derive(Clone, Copy, Debug)]
pub enum MakeStop {
    /// Memory ran out.
    Memory,
    /// The line is refused.
    Refused(Refusal),
}

impl From<AllocError> for MakeStop {
    ghost use Rattle.std.specs.Prelude.{◌≡◌};
    ghost use Rattle.snow_text.specs.declared.maker.MakeStop.TheVariants.{Memory};

    ghost from_gives = { λ _ stop. stop ≡ Memory };

    fn from(_error: AllocError) -> MakeStop {
        MakeStop::Memory
    }
}

/// Makes the bytes of a stream from the lines of its text. Contracts see the blocks that have a
/// name, and the bytes so far.
/// Rule: this project's own.
#[derive(Drop)]
pub struct Maker {
    names: Names,
    payload: Output,
    stream: Output,
}

impl Model for Maker {
    ghost use Rattle.snow_text.specs.Clauses.Maker.{Making};

    ghost Value = { Making };

    ghost view = { λ a. record { names = a.names; stream = a.stream } };
}

impl Maker {
    /// Returns what made no bytes yet. It takes no memory.
    /// Rule: this project's own.
    pub fn new(alloc: Global) -> Self
        ensures names { result.names ≡ [] }
        ensures stream { result.stream ≡ [] }
    {
        Maker {
            names: Names::new(alloc),
            payload: Output::new(alloc),
            stream: Output::new(alloc),
        }
    }

    /// Returns the bytes so far.
    /// Rule: this project's own.
    pub fn stream(&self) -> &[u8]
        ensures { result.now ≡ self.now.stream }
    {
        self.stream.list()
    }

    /// Takes a line with this number and appends the bytes that it says. It returns whether these
    /// stand behind the last whole frame, `Refused` exactly where the model refuses the line, and
    /// `Memory` on want of memory; the names and the bytes stay as they were then.
    /// Rule: this project's own.
    #[tactic(auto, using(crate::proofs::Lining::lining))]
    pub fn line(&mut self, number: u64, line: &[u8]) -> Result<bool, MakeStop>
        ensures { LineMade result self.old.names self.old.stream self.new.names self.new.stream (say_line self.old.names number line.now) }
    {
        self.payload.clear();
        let mut words = Words::of_line(line);
        match say_words(&self.names, &mut words, &mut self.payload) {
            Ok(meaning) => take(
                meaning,
                self.payload.list(),
                &mut self.names,
                &mut self.stream,
            ),
            Err(Stop::Memory) => Err(MakeStop::Memory),
            Err(Stop::At(reason, left)) => {
                Err(MakeStop::Refused(refusal(number, line, reason, left)))
            }
        }
    }
}

// Takes what a line says, with the bytes of a frame or of a rest.
fn take(
    meaning: Meaning,
    bytes: &[u8],
    names: &mut Names,
    stream: &mut Output,
) -> Result<bool, MakeStop>
    requires { Fits meaning bytes.now }
    ensures { LineTaken result names.old stream.old names.new stream.new (said_in meaning bytes.now) }
{
    match meaning {
        Meaning::Nothing => Ok(false),
        Meaning::Name(block) => match names.push(block) {
            Ok(()) => Ok(false),
            Err(_) => Err(MakeStop::Memory),
        },
        Meaning::Frame => match append_frame(bytes, stream) {
            Ok(()) => Ok(false),
            Err(_) => Err(MakeStop::Memory),
        },
        Meaning::Rest => match stream.append(bytes) {
            Ok(()) => Ok(true),
            Err(_) => Err(MakeStop::Memory),
        },
    }
}

// Appends a frame.
fn append_frame(payload: &[u8], stream: &mut Output) -> Result<(), AllocError>
    requires { length payload.now ≤ 2097152 }
    ensures ok { OnOk result (stream.new ≡ stream.old ++ frame payload.now) }
    ensures err { OnErr result (stream.new ≡ stream.old) }
{
    let start = stream.len();
    stream.number(Width::Four, payload.len() as u64)?;
    match stream.append(payload) {
        Ok(()) => Ok(()),
        Err(error) => {
            stream.cut(start);
            Err(error)
        }
    }
}
