ghost use Rattle.std.specs.Prelude.{◌≡◌, ◌++◌, [], OnOk};
ghost use Rattle.std.specs.List.{join_with_byte};
ghost use Rattle.snow_text_model.specs.Model.Words.{parts};
ghost use Rattle.snow_text_model.specs.Model.Events.{blocks_in, blocks_of, listed_block, sized_block};
ghost use Rattle.snow_words.specs.Clauses.Making.{Reads, onto, tallied};
ghost use Rattle.snow_say.specs.Clauses.Payload.{at_text, trailed, walked};

use crate::chain::block_of;
use snow_text_model::Reason;
use snow_words::{Names, Output, Stop, Words, close, count_more, halved};
use std::alloc::AllocError;

/// Takes all words that are left and appends the bytes of a block that they say, behind their
/// length. It returns the model's stop exactly where they say none, and want of memory too where a
/// block has 4 GiB.
/// Rule: this project's own.
#[tactic(auto, using(crate::proofs::Sized::sizing))]
pub fn sized_block(names: &Names, words: &mut Words, out: &mut Output) -> Result<(), Stop>
    ensures read { Reads result out.new (onto out.old (sized_block names.now words.old)) }
    ensures rest { OnOk result (words.new ≡ []) }
{
    let start = out.len();
    out.append(&[0, 0, 0, 0])?;
    block_of(names, words, out)?;
    let len = out.len() - start - 4;
    match u32::try_from(len) {
        Ok(len) => {
            out.write_long(start, len);
            Ok(())
        }
        Err(_) => Err(Stop::Memory),
    }
}

/// Takes all words that are left and appends the list of blocks that they say, with commas between
/// them. It returns the model's stop exactly where they say none.
/// Rule: this project's own.
#[tactic(auto, using(crate::proofs::Sized::no_blocks, crate::proofs::Sized::some_blocks, crate::proofs::Sized::no_count))]
pub fn blocks_of(names: &Names, words: &mut Words, out: &mut Output) -> Result<(), Stop>
    ensures read { Reads result out.new (onto out.old (blocks_of names.now words.old)) }
    ensures rest { OnOk result (words.new ≡ []) }
{
    if words.is_empty() {
        out.append(&[0, 0])?;
        return Ok(());
    }
    let mut text = Output::new(names.alloc());
    join(words, &mut text)?;
    blocks_in(names, text.list(), out)
}

// Appends the list of the blocks in a text, with commas between them.
#[tactic(auto, using(snow_words::proofs::Appended::closing))]
fn blocks_in(names: &Names, text: &[u8], out: &mut Output) -> Result<(), Stop>
    ensures { Reads result out.new (onto out.old (blocks_in names.now (parts 44 text.now))) }
{
    let start = out.len();
    out.append(&[0, 0])?;
    let mut count = 0;
    blocks_more(names, text, out, &mut count)?;
    match close(start, count, out) {
        Ok(()) => Ok(()),
        Err(reason) => Err(Stop::At(reason, 0)),
    }
}

// Appends the blocks in a text, and counts them.
#[tactic(auto, using(crate::proofs::Sized::walking))]
fn blocks_more(names: &Names, text: &[u8], out: &mut Output, count: &mut usize) -> Result<(), Stop>
    ensures { Reads result (out.new, count.new) (tallied out.old count.old (walked names.now text.now text.now)) }
{
    let mut rest = text;
    while let Some((front, behind)) = halved(b',', rest) {
        block_more(names, front, rest, out, count)?;
        rest = behind;
    }
    block_more(names, rest, rest, out, count)
}

// Appends the block of a part, which is the first of a text.
#[tactic(auto, using(crate::proofs::Sized::counting))]
fn block_more(
    names: &Names,
    part: &[u8],
    rest: &[u8],
    out: &mut Output,
    count: &mut usize,
) -> Result<(), Stop>
    ensures { Reads result (out.new, count.new) (tallied out.old count.old (at_text rest.now (listed_block names.now part.now))) }
{
    match sized_block(names, &mut Words::of_text(part), out) {
        Ok(()) => match count_more(count, 1) {
            Ok(()) => Ok(()),
            Err(_) => Err(Stop::Memory),
        },
        Err(Stop::Memory) => Err(Stop::Memory),
        Err(Stop::At(reason, _)) => Err(Stop::At(reason, Words::of_text(rest).count())),
    }
}

// Appends all words that are left, with a space between two of them.
#[tactic(auto, using(crate::proofs::Sized::trailing))]
fn join(words: &mut Words, text: &mut Output) -> Result<(), AllocError>
    ensures text { OnOk result (text.new ≡ text.old ++ join_with_byte 32 words.old) }
    ensures rest { OnOk result (words.new ≡ []) }
{
    if let Some(word) = words.next() {
        text.append(word)?;
    }
    trail(words, text)
}

// Appends all words that are left, each behind a space.
#[tactic(auto, using(crate::proofs::Sized::trailing))]
fn trail(words: &mut Words, text: &mut Output) -> Result<(), AllocError>
    ensures text { OnOk result (text.new ≡ text.old ++ trailed words.old) }
    ensures rest { OnOk result (words.new ≡ []) }
{
    while let Some(word) = words.next() {
        text.push(b' ')?;
        text.append(word)?;
    }
    Ok(())
}
