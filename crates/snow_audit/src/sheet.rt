ghost use Rattle.std.specs.Prelude.{◌≡◌, ◌<◌, ◌≤◌, [], ◌∷◌, ◌++◌, length, bytes_eq, IfOk};
ghost use Rattle.std.specs.Io.KnownBytes.{WriteAppends};
ghost use Rattle.snow_base.specs.Clauses.Outside.{HasCause};
ghost use Rattle.snow_lines.specs.Model.Text.{text};

use snow_base::{Bytes, Failed, Sink};
use snow_lines::Line;
use snow_page::print;
use std::alloc::{AllocError, Global};
use std::marker::Model;

/// A sheet on which a line is printed, in memory that it uses again. It fails where there is none
/// for the line.
/// Rule: this project's own.
#[derive(Drop)]
pub struct Sheet {
    bytes: Bytes,
    faults: u64,
}

impl Model for Sheet {
    ghost use Rattle.snow_audit.specs.Clauses.Sheet as model;

    ghost Value = { model.Sheet };

    ghost view = { λ a. record { bytes = a.bytes; faults = a.faults } };
}

impl Sheet {
    /// Returns an empty sheet. It takes no memory.
    /// Rule: this project's own.
    pub fn new(alloc: Global) -> Self {
        Sheet {
            bytes: Bytes::new(alloc),
            faults: 0,
        }
    }

    /// Returns whether these bytes are the text of a line without its newline. On want of memory it
    /// returns `AllocError`.
    /// Rule: this project's own.
    pub fn shows(&mut self, line: &Line, recorded: &[u8]) -> Result<bool, AllocError>
        ensures { IfOk result (λ same. same ≡ bytes_eq (recorded.now ++ 10 ∷ []) (text line.now)) }
    {
        self.bytes.clear();
        if print(line, self).is_err() {
            return Err(AllocError);
        }
        Ok(is_printed(self.bytes.list(), recorded))
    }
}

/// Returns whether these bytes are the recorded ones with a newline behind them.
fn is_printed(bytes: &[u8], recorded: &[u8]) -> bool
    ensures { result ≡ bytes_eq (recorded.now ++ 10 ∷ []) bytes.now }
{
    match bytes.split_last() {
        Some(parts) => is_ended(*parts.0, parts.1, recorded),
        None => false,
    }
}

/// Returns whether this front of bytes is the recorded ones, and the last byte a newline.
#[tactic(auto, using(crate::proofs::Printed::newline, crate::proofs::Printed::other))]
fn is_ended(last: u8, front: &[u8], recorded: &[u8]) -> bool
    ensures { result ≡ bytes_eq (recorded.now ++ 10 ∷ []) (front.now ++ last ∷ []) }
{
    if last == b'\n' {
        return recorded == front;
    }
    false
}

impl Sink for Sheet {
    ghost use Rattle.std.specs.Prelude.{Some};

    ghost written = { λ sheet. Some sheet.bytes };

    ghost faults = { λ sheet. sheet.faults };

    fn write(&mut self, bytes: &[u8]) -> Result<usize, Failed>
        ensures bound { IfOk result (λ n. n ≤ length bytes.now) }
        ensures some { IfOk result (λ n. 0 < length bytes.now → 0 < n) }
        ensures bytes { WriteAppends (Some self.old.bytes) (Some self.new.bytes) result bytes.now }
        ensures cause { HasCause self.old.faults self.new.faults result }
    {
        if self.bytes.append(bytes).is_err() {
            self.faults = self.faults.saturating_add(1);
            return Err(Failed);
        }
        Ok(bytes.len())
    }
}
