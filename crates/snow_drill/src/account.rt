ghost use Rattle.std.specs.Prelude.{◌≡◌, ℕ, [], ◌++◌, List, fold, IfOk, OnOk};
ghost use Rattle.sha2.specs.Hashers.{Holds256};
ghost use Rattle.snow_lines.specs.Model.Text.{texts};
ghost use Rattle.snow_lines.specs.declared.line.Line as told;
ghost use Rattle.snow_drill.specs.Kept.Told.{untold, noted};
ghost use Rattle.snow_drill.specs.Kept.Following.{Digests, DigestsBut};

use crate::scratch::Scratch;
use crate::tally::Tally;
use sha2::{Digest, Sha256};
use snow_base::Bytes;
use snow_lines::Line;
use snow_page::Page;
use std::alloc::{AllocError, Global};

/// What a drill keeps of its lines, and their digest as they come.
/// Rule: this project's own.
#[derive(Drop)]
pub struct Account {
    pub tally: Tally,
    pub hasher: Sha256,
    /// The end of the text, which waits to be digested. So the lines of many events are digested at
    /// once.
    pub page: Page,
    /// Where a full page goes, to be digested at once.
    pub scratch: Scratch,
}

impl Account {
    /// Returns the account before the first line. On want of memory it returns `AllocError`.
    /// Rule: this project's own.
    pub fn new(alloc: Global) -> Result<Self, AllocError>
        ensures told { IfOk result (λ account. account.tally ≡ untold) }
        ensures digest { IfOk result (λ account. Digests account []) }
    {
        let page = Page::new(alloc)?;
        Ok(Account {
            tally: Tally::new(alloc),
            hasher: Sha256::new(),
            page,
            scratch: Scratch {
                bytes: Bytes::new(alloc),
                faults: 0,
            },
        })
    }

    /// Counts and digests lines that were written. On want of memory it returns `AllocError`.
    /// Rule: this project's own.
    pub fn keep(&mut self, lines: &[Line]) -> Result<(), AllocError>
        ensures told { OnOk result (self.new.tally ≡ fold noted self.old.tally lines.now) }
        ensures digest { OnOk result ((past : List told.Line) → Digests self.old past → Digests self.new (past ++ lines.now)) }
    {
        if self.page.print_all(lines, &mut self.scratch).is_err() {
            return Err(AllocError);
        }
        take_in(&mut self.hasher, &mut self.scratch);
        note_each(&mut self.tally, lines)
    }

    /// Digests what waits, as no more lines come. The tally stays. On want of memory it returns
    /// `AllocError`.
    /// Rule: this project's own.
    pub fn finish(&mut self) -> Result<(), AllocError>
        ensures told { self.new.tally ≡ self.old.tally }
        ensures digest { OnOk result ((lines : List told.Line) → Digests self.old lines → Holds256 self.new.hasher (texts lines)) }
    {
        if self.page.flush(&mut self.scratch).is_err() {
            return Err(AllocError);
        }
        take_in(&mut self.hasher, &mut self.scratch);
        Ok(())
    }
}

// Notes lines, one after another.
fn note_each(tally: &mut Tally, lines: &[Line]) -> Result<(), AllocError>
    ensures { OnOk result (tally.new ≡ fold noted tally.old lines.now) }
{
    for line in lines {
        tally.note(line)?;
    }
    Ok(())
}

// Digests a page that was full, if one was.
fn take_in(hasher: &mut Sha256, scratch: &mut Scratch)
    ensures digest { (past : List ℕ) → Holds256 hasher.old past → Holds256 hasher.new (past ++ scratch.old.bytes) }
    ensures empty { scratch.new.bytes ≡ [] }
{
    if scratch.bytes.list().is_empty() {
        return;
    }
    hasher.update(scratch.bytes.list());
    scratch.bytes.clear();
}
