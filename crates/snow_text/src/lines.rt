ghost use Rattle.std.specs.Prelude.{◌≡◌, ◌+◌, ◌-◌, ◌^◌, ◌<◌, OnOk};
ghost use Rattle.snow_text.specs.Clauses.Texts.{LineSteps, LineTakes, begun_lines, passed};

use crate::maker::{MakeStop, Maker};
use crate::refusing::refusal;
use snow_text_model::{Reason, Refusal};
use snow_words::Words;
use std::alloc::Global;
use std::marker::Model;

/// Makes the bytes of a stream from all lines of its text, one by one. Contracts see the blocks
/// that have a name, the bytes so far, the number of the next line, and whether a rest came.
/// Rule: this project's own.
#[derive(Drop)]
pub struct Lines {
    maker: Maker,
    number: u64,
    behind: bool,
}

impl Model for Lines {
    ghost use Rattle.snow_text.specs.Clauses.Texts.{Lining};

    ghost Value = { Lining };

    ghost view = { λ a. record { names = a.maker.names; stream = a.maker.stream; number = a.number; behind = a.behind } };
}

impl Lines {
    /// Returns what took no line yet. It takes no memory.
    /// Rule: this project's own.
    pub fn new(alloc: Global) -> Self
        ensures { result ≡ begun_lines }
    {
        Lines {
            maker: Maker::new(alloc),
            number: 1,
            behind: false,
        }
    }

    /// Returns the bytes so far.
    /// Rule: this project's own.
    pub fn stream(&self) -> &[u8]
        ensures { result.now ≡ self.now.stream }
    {
        self.maker.stream()
    }

    /// Takes the next line and appends the bytes that it says. It returns `Refused` exactly where
    /// the model refuses the line: behind a rest each that says something. It returns `Memory` on
    /// want of memory.
    /// Rule: this project's own.
    pub fn line(&mut self, line: &[u8]) -> Result<(), MakeStop>
        requires { self.old.number < 2 ^ 64 - 1 }
        ensures steps { LineSteps result self.old self.new line.now }
        ensures number { OnOk result (self.new.number ≡ self.old.number + 1) }
    {
        self.behind = step(&mut self.maker, self.behind, self.number, line)?;
        self.number += 1;
        Ok(())
    }
}

// Takes a line with this number, in front of which a rest came or none, and returns whether one
// came now.
#[tactic(auto, using(crate::proofs::Gathered::stepping))]
fn step(maker: &mut Maker, behind: bool, number: u64, line: &[u8]) -> Result<bool, MakeStop>
    ensures { LineTakes result behind number maker.old.names maker.old.stream maker.new.names maker.new.stream line.now }
{
    if behind {
        match pass(number, line) {
            Ok(()) => Ok(true),
            Err(refusal) => Err(MakeStop::Refused(refusal)),
        }
    } else {
        maker.line(number, line)
    }
}

// Takes a line with this number behind a rest, where only one that says nothing may come.
#[tactic(auto, using(crate::proofs::Gathered::pass_none, crate::proofs::Gathered::pass_some))]
fn pass(number: u64, line: &[u8]) -> Result<(), Refusal>
    ensures { result ≡ passed number line.now }
{
    let words = Words::of_line(line).count();
    if words == 0 {
        Ok(())
    } else {
        Err(refusal(number, line, Reason::Behind, words))
    }
}
