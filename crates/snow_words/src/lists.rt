ghost use Rattle.std.specs.Prelude.{◌≡◌, ◌+◌, ◌<◌, ◌≤◌, [], ◌++◌, length, take, drop, OnOk, OnErr, Err};
ghost use Rattle.snow_wire.specs.Model.Spelling.{number};
ghost use Rattle.snow_text_model.specs.declared.refusal.Reason.TheVariants.{Many};
ghost use Rattle.snow_text_model.specs.Model.Words.{all_of, each, parts};
ghost use Rattle.snow_words.specs.Clauses.Making.{Reads, Tells, onto, tallied};
ghost use Rattle.snow_words.specs.Clauses.Listing.{items_of, list_read, list_told};

use crate::items::{Item, item_more};
use crate::names::Names;
use crate::output::Output;
use crate::parts::Parts;
use crate::stop::{Stop, Why};
use crate::words::Words;
use snow_text_model::Reason;

/// Appends a list whose items stand in a word with commas between them: its count, and the items.
/// It returns the model's reason exactly where the word says no list.
/// Rule: this project's own.
#[tactic(auto, using(crate::proofs::Appended::closing))]
pub fn list_word(item: Item, names: &Names, word: &[u8], out: &mut Output) -> Result<(), Why>
    ensures { Tells result out.new (onto out.old (list_told (each (items_of names.now item) (parts 44 word.now)))) }
{
    let start = out.len();
    out.append(&[0, 0])?;
    let mut count = 0;
    items_of_word(item, names, word, out, &mut count)?;
    close(start, count, out)?;
    Ok(())
}

/// Appends a list whose items all words say that are left: its count, and the items. It returns the
/// model's stop exactly where they say no list.
/// Rule: this project's own.
#[tactic(auto, using(crate::proofs::Appended::closing))]
pub fn list_of_words(
    item: Item,
    names: &Names,
    words: &mut Words,
    out: &mut Output,
) -> Result<(), Stop>
    ensures read { Reads result out.new (onto out.old (list_read (all_of (items_of names.now item) words.old))) }
    ensures rest { OnOk result (words.new ≡ []) }
{
    let start = out.len();
    out.append(&[0, 0])?;
    let mut count = 0;
    items_of_words(item, names, words, out, &mut count)?;
    match close(start, count, out) {
        Ok(()) => Ok(()),
        Err(reason) => Err(Stop::At(reason, 0)),
    }
}

// Appends the items that the parts of a word say, and counts them.
#[tactic(auto, using(crate::proofs::Appended::parting, crate::proofs::Appended::item_failed))]
fn items_of_word(
    item: Item,
    names: &Names,
    word: &[u8],
    out: &mut Output,
    count: &mut usize,
) -> Result<(), Why>
    ensures { Tells result (out.new, count.new) (tallied out.old count.old (each (items_of names.now item) (parts 44 word.now))) }
{
    let mut parts = Parts::new(b',', word);
    while let Some(part) = parts.next() {
        item_more(item, names, part, out, count)?;
    }
    Ok(())
}

// Appends the items that words say, and counts them.
#[tactic(auto, using(crate::proofs::Appended::wording))]
fn items_of_words(
    item: Item,
    names: &Names,
    words: &mut Words,
    out: &mut Output,
    count: &mut usize,
) -> Result<(), Stop>
    ensures read { Reads result (out.new, count.new) (tallied out.old count.old (all_of (items_of names.now item) words.old)) }
    ensures rest { OnOk result (words.new ≡ []) }
{
    while let Some(word) = words.next() {
        words.at(item_more(item, names, word, out, count))?;
    }
    Ok(())
}

/// Writes the count of a list in front of its items. It returns `Many` exactly where they are more
/// than 65,535.
/// Rule: this project's own.
pub fn close(start: usize, count: usize, out: &mut Output) -> Result<(), Reason>
    requires { start + 2 ≤ length out.old }
    ensures ok { OnOk result (out.new ≡ take start out.old ++ number 2 count ++ drop (start + 2) out.old) }
    ensures few { OnOk result (count < 65536) }
    ensures many { OnErr result ((result ≡ Err Many) × (65536 ≤ count)) }
{
    match u16::try_from(count) {
        Ok(short) => {
            out.write_short(start, short);
            Ok(())
        }
        Err(_) => Err(Reason::Many),
    }
}
