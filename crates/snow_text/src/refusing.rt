ghost use Rattle.std.specs.Prelude.{◌≡◌, ◌-◌, ◌==◌, ◌&&◌, if◌then◌else◌};
ghost use Rattle.snow_text_model.specs.Model.Words.{column_of, is_word, parts};
ghost use Rattle.snow_text_model.specs.Model.Made.{refusal};
ghost use Rattle.snow_text.specs.Clauses.Columns.{halt_at};

use snow_text_model::{Reason, Refusal};
use snow_words::{Parts, Words, said};

/// Returns the refusal of a line with this number, where so many words are left.
/// Rule: this project's own.
pub fn refusal(number: u64, line: &[u8], reason: Reason, left: usize) -> Refusal
    ensures { result ≡ refusal number line.now (halt_at reason left) }
{
    let words = Words::of_line(line).count();
    Refusal {
        line: number,
        column: column(words.saturating_sub(left), said(line)),
        reason,
    }
}

// The column of the word behind so many others.
#[tactic(auto, using(crate::proofs::Columned::columns))]
fn column(behind: usize, text: &[u8]) -> u64
    ensures { result ≡ column_of behind 1 (parts 32 text.now) }
{
    let mut behind = behind;
    let mut column = 1;
    let mut parts = Parts::new(b' ', text);
    while let Some(part) = parts.next() {
        if is_here(behind, part) {
            return column;
        }
        behind = fewer(behind, part);
        column += part.len() as u64 + 1;
    }
    column
}

// Whether a part is the word behind so many others.
fn is_here(behind: usize, part: &[u8]) -> bool
    ensures { result ≡ (is_word part.now && behind == 0) }
{
    !part.is_empty() && behind == 0
}

// How many words stand between this part and the word behind so many.
fn fewer(behind: usize, part: &[u8]) -> usize
    ensures { result ≡ (if is_word part.now then behind - 1 else behind) }
{
    if part.is_empty() {
        behind
    } else {
        behind.saturating_sub(1)
    }
}
