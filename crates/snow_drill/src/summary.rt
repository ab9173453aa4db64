ghost use Rattle.std.specs.Prelude.{◌≡◌, ◌++◌, ◌≤◌, List, length, IfOk, OnOk};
ghost use Rattle.sha2.specs.Hashers.{Holds256};
ghost use Rattle.sha2.specs.Sha256.{sha256};
ghost use Rattle.snow_lines.specs.Model.Text.{texts};
ghost use Rattle.snow_lines.specs.declared.line.Line as told;
ghost use Rattle.snow_drill.specs.Kept.Following.{Digests};
ghost use Rattle.snow_drill.specs.Model.Summary.{number_line, digits_line, summary_of};

use crate::account::Account;
use crate::tally::Tally;
use sha2::Digest;
use snow_base::Bytes;
use snow_digits::Text;
use std::alloc::{AllocError, Global};

/// Returns the six lines of a drill of so many blocks. On want of memory it returns `AllocError`.
/// Rule: this project's own.
pub fn summary(alloc: Global, blocks: u32, mut account: Account) -> Result<Bytes, AllocError>
    ensures { (lines : List told.Line) → Digests account lines
        → IfOk result (λ text. text ≡ summary_of blocks account.tally (sha256 (texts lines))) }
{
    match account.finish() {
        Ok(()) => finished(alloc, blocks, account),
        Err(fault) => {
            drop(account);
            Err(fault)
        }
    }
}

// The six lines, where all was digested.
fn finished(alloc: Global, blocks: u32, account: Account) -> Result<Bytes, AllocError>
    ensures { (lines : List told.Line) → Holds256 account.hasher (texts lines)
        → IfOk result (λ text. text ≡ summary_of blocks account.tally (sha256 (texts lines))) }
{
    let Account { tally, hasher, .. } = account;
    let text = six_lines(alloc, blocks, &tally, &hasher.finalize());
    // (by a call, and once: what lets go of a tally is many steps)
    drop(tally);
    text
}

// The six lines, of which the last has this digest.
fn six_lines(
    alloc: Global,
    blocks: u32,
    tally: &Tally,
    digest: &[u8; 32],
) -> Result<Bytes, AllocError>
    ensures { IfOk result (λ text. text ≡ summary_of blocks tally.now digest.now) }
{
    let mut text = Bytes::new(alloc);
    put_number(&mut text, b"blocks", u64::from(blocks))?;
    put_number(&mut text, b"accepted", tally.accepted())?;
    put_number(&mut text, b"rejected", tally.rejected())?;
    put_number(&mut text, b"polls", tally.answered())?;
    put_digits(&mut text, b"last", tally.last().as_bytes())?;
    put_digits(&mut text, b"sha256", digest)?;
    Ok(text)
}

// Appends a line of a word and a number.
fn put_number(text: &mut Bytes, name: &[u8], number: u64) -> Result<(), AllocError>
    requires { length name.now ≤ 8 }
    ensures { OnOk result (text.new ≡ text.old ++ number_line name.now number) }
{
    let mut line: Text<64> = Text::new();
    line.push(name);
    line.push_number(b' ', number);
    line.push(b"\n");
    text.append(line.as_slice())
}

// Appends a line of a word and the digits of 32 bytes.
fn put_digits(text: &mut Bytes, name: &[u8], bytes: &[u8; 32]) -> Result<(), AllocError>
    ensures { OnOk result (text.new ≡ text.old ++ digits_line name.now bytes.now) }
{
    let mut digits = [0; 64];
    let encoded = hex::encode_to_slice(bytes, &mut digits);
    prove!(encoded.is_ok());
    text.append(name)?;
    text.append(b" ")?;
    text.append(&digits)?;
    text.append(b"\n")
}
