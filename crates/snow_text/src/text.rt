ghost use Rattle.std.specs.Prelude.{◌≡◌, ◌+◌, ◌-◌, ◌^◌, ◌<◌, ◌≤◌, [], length, OnOk};
ghost use Rattle.snow_text.specs.Clauses.Texts.{EndSteps, PieceSteps, TextEnds, begun};

use crate::lines::Lines;
use crate::maker::MakeStop;
use snow_words::{Output, halved};
use std::alloc::Global;
use std::marker::Model;

/// Makes the bytes of a stream from its text, whose pieces are cut anywhere. Contracts see where
/// its lines stand, and the front of the next line, as far as it came.
/// Rule: this project's own.
#[derive(Drop)]
pub struct Text {
    lines: Lines,
    left: Output,
}

impl Model for Text {
    ghost use Rattle.snow_text.specs.Clauses.Texts.{Standing};

    ghost Value = { Standing };

    ghost view = { λ a. record { lines = a.lines; left = a.left } };
}

impl Text {
    /// Returns what took no byte yet. It takes no memory.
    /// Rule: this project's own.
    pub fn new(alloc: Global) -> Self
        ensures { result ≡ begun }
    {
        Text {
            lines: Lines::new(alloc),
            left: Output::new(alloc),
        }
    }

    /// Returns the bytes so far.
    /// Rule: this project's own.
    pub fn stream(&self) -> &[u8]
        ensures { result.now ≡ self.now.lines.stream }
    {
        self.lines.stream()
    }

    /// Takes the next piece of the text. It returns `Refused` exactly where the model refuses a
    /// line that ends in it, and `Memory` on want of memory.
    /// Rule: this project's own.
    #[tactic(auto, using(crate::proofs::Spliced::piecing))]
    pub fn piece(&mut self, piece: &[u8]) -> Result<(), MakeStop>
        requires { self.old.lines.number + length piece.now < 2 ^ 64 - 1 }
        ensures steps { PieceSteps result self.old self.new piece.now }
        ensures number { OnOk result (self.new.lines.number ≤ self.old.lines.number + length piece.now) }
    {
        let mut rest = piece;
        while let Some((line, behind)) = halved(b'\n', rest) {
            self.end_line(line)?;
            rest = behind;
        }
        self.left.append(rest)?;
        Ok(())
    }

    /// Takes the last line, which no newline ends, where the text has ended.
    /// Rule: this project's own.
    #[tactic(auto, using(crate::proofs::Spliced::ending))]
    pub fn end(&mut self) -> Result<(), MakeStop>
        requires { self.old.lines.number < 2 ^ 64 - 1 }
        ensures { TextEnds result self.old self.new.lines.stream }
    {
        self.lines.line(self.left.list())
    }

    // Takes the end of a line, without its newline. A line that came whole is taken where it stands.
    #[tactic(auto, using(crate::proofs::Spliced::line_ends))]
    fn end_line(&mut self, end: &[u8]) -> Result<(), MakeStop>
        requires { self.old.lines.number < 2 ^ 64 - 1 }
        ensures steps { EndSteps result self.old self.new end.now }
        ensures left { OnOk result (self.new.left ≡ []) }
        ensures number { OnOk result (self.new.lines.number ≡ self.old.lines.number + 1) }
    {
        if self.left.len() == 0 {
            return self.lines.line(end);
        }
        self.left.append(end)?;
        self.lines.line(self.left.list())?;
        self.left.clear();
        Ok(())
    }
}
