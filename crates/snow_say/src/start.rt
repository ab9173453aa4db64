ghost use Rattle.std.specs.Prelude.{◌≡◌, List, [], ◌∷◌, ◌++◌, ℕ, Err, OnOk, OnErr, Result, codes};
ghost use Rattle.snow_text_model.specs.declared.refusal.Reason.{Reason};
ghost use Rattle.snow_words.specs.declared.stop.Stop.TheVariants.{Memory};
ghost use Rattle.snow_text_model.specs.Model.Words.{Word, one, parts};
ghost use Rattle.snow_text_model.specs.Model.Bytes.{item_word, number_word};
ghost use Rattle.snow_text_model.specs.Model.Events.{if_some, is_named, start_field, value_word};
ghost use Rattle.snow_words.specs.Clauses.Making.{Reads, Tells, ahead, onto};
ghost use Rattle.snow_words.specs.Clauses.Listing.{items_of, list_of};
ghost use Rattle.snow_words.specs.Clauses.Numbers.{size_of};
ghost use Rattle.snow_say.specs.Clauses.Payload.{lists_field, starts_field, valued};

use snow_text_model::Reason;
use snow_words::{
    Item, Names, Output, Stop, Why, Width, Words, halves, is, item_word, list_word, number_word,
    place,
};

/// Takes words and appends the fields of a Start that they say. It returns the model's stop exactly
/// where they say none.
/// Rule: this project's own.
#[tactic(auto, using(crate::proofs::Chained::fielding), unfolding(snow_text_model::specs::Model::Events::start_field, snow_words::specs::Clauses::Listing::items_of))]
pub fn start(names: &Names, words: &mut Words, out: &mut Output) -> Result<(), Stop>
    ensures { Reads result (out.new, words.new) (ahead out.old (start_field names.now words.old)) }
{
    number(b"k", Width::Four, words, out)?;
    number(b"alpha-preference", Width::Four, words, out)?;
    number(b"alpha-confidence", Width::Four, words, out)?;
    number(b"beta", Width::Four, words, out)?;
    start_more(names, words, out)
}

// The fields of a Start behind the first four.
#[tactic(auto, using(crate::proofs::Chained::fielding))]
fn start_more(names: &Names, words: &mut Words, out: &mut Output) -> Result<(), Stop>
    ensures { Reads result (out.new, words.new) (ahead out.old (starts_field names.now words.old)) }
{
    number(b"repolls", Width::Four, words, out)?;
    number(b"boot", Width::One, words, out)?;
    last(names, words, out)?;
    number(b"height", Width::Eight, words, out)?;
    lists(names, words, out)
}

// The lists of a Start.
#[tactic(auto, using(crate::proofs::Chained::fielding))]
fn lists(names: &Names, words: &mut Words, out: &mut Output) -> Result<(), Stop>
    ensures { Reads result (out.new, words.new) (ahead out.old (lists_field names.now words.old)) }
{
    list(b"state", Item::Number, names, words, out)?;
    list(b"nodes", Item::Node, names, words, out)
}

// A number with a name.
#[tactic(auto, using(snow_words::proofs::Appended::one_told, snow_words::proofs::Appended::one_none))]
fn number(name: &[u8], width: Width, words: &mut Words, out: &mut Output) -> Result<(), Stop>
    ensures { Reads result (out.new, words.new) (ahead out.old (one (value_word name.now (number_word (size_of width))) words.old)) }
{
    let word = words.take()?;
    words.at(number_value(name, width, word, out))
}

// The number of a field with a name.
fn number_value(name: &[u8], width: Width, word: &[u8], out: &mut Output) -> Result<(), Why>
    ensures { Tells result out.new (onto out.old (value_word name.now (number_word (size_of width)) word.now)) }
{
    match value(name, word) {
        Ok(value) => number_word(width, value, out),
        Err(reason) => Err(Why::Not(reason)),
    }
}

// The identifier of the last accepted block.
#[tactic(auto, using(snow_words::proofs::Appended::one_told, snow_words::proofs::Appended::one_none))]
fn last(names: &Names, words: &mut Words, out: &mut Output) -> Result<(), Stop>
    ensures { Reads result (out.new, words.new) (ahead out.old (one (value_word (codes "last") (item_word names.now 32)) words.old)) }
{
    let word = words.take()?;
    words.at(last_value(names, word, out))
}

fn last_value(names: &Names, word: &[u8], out: &mut Output) -> Result<(), Why>
    ensures { Tells result out.new (onto out.old (value_word (codes "last") (item_word names.now 32) word.now)) }
{
    match value(b"last", word) {
        Ok(value) => item_word(names, 32, value, out),
        Err(reason) => Err(Why::Not(reason)),
    }
}

// A list with a name, or the empty list where the next word has another.
#[tactic(auto, using(crate::proofs::Started::listing))]
fn list(
    name: &[u8],
    item: Item,
    names: &Names,
    words: &mut Words,
    out: &mut Output,
) -> Result<(), Stop>
    ensures { Reads result (out.new, words.new) (ahead out.old (if_some name.now (items_of names.now item) words.old)) }
{
    match words.peek() {
        None => no_list(out),
        Some(word) => {
            if is_named(name, word) {
                list_named(name, item, names, words, out)
            } else {
                no_list(out)
            }
        }
    }
}

// The empty list.
fn no_list(out: &mut Output) -> Result<(), Stop>
    ensures ok { OnOk result (out.new ≡ out.old ++ 0 ∷ 0 ∷ []) }
    ensures err { OnErr result (result ≡ Err Memory) }
{
    out.append(&[0, 0])?;
    Ok(())
}

// A list with a name.
#[tactic(auto, using(snow_words::proofs::Appended::one_told, snow_words::proofs::Appended::one_none))]
fn list_named(
    name: &[u8],
    item: Item,
    names: &Names,
    words: &mut Words,
    out: &mut Output,
) -> Result<(), Stop>
    ensures { Reads result (out.new, words.new) (ahead out.old (one (value_word name.now (list_of names.now item)) words.old)) }
{
    let word = words.take()?;
    words.at(list_value(name, item, names, word, out))
}

fn list_value(
    name: &[u8],
    item: Item,
    names: &Names,
    word: &[u8],
    out: &mut Output,
) -> Result<(), Why>
    ensures { Tells result out.new (onto out.old (value_word name.now (list_of names.now item) word.now)) }
{
    match value(name, word) {
        Ok(value) => list_word(item, names, value, out),
        Err(reason) => Err(Why::Not(reason)),
    }
}

// Whether a word is a field with this name.
#[tactic(auto, using(crate::proofs::Started::named_one, crate::proofs::Started::named_more))]
fn is_named(name: &[u8], word: &[u8]) -> bool
    ensures { result ≡ is_named name.now (parts 61 word.now) }
{
    match place(b'=', word) {
        None => is(word, name),
        Some(at) => is(&word[..at], name),
    }
}

// The value of a field with this name.
#[tactic(auto, using(crate::proofs::Started::valuing))]
fn value<'a>(name: &[u8], word: &'a [u8]) -> Result<&'a [u8], Reason>
    ensures { (of : Word → Result (List ℕ) Reason) → value_word name.now of word.now ≡ valued (λ v. v.now) of result }
{
    match halves(b'=', word) {
        None => Err(Reason::Field),
        Some((key, value)) => {
            if is(key, name) {
                Ok(value)
            } else {
                Err(Reason::Field)
            }
        }
    }
}
