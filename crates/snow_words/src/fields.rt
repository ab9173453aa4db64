ghost use Rattle.std.specs.Prelude.{◌≤◌, ◌^◌};
ghost use Rattle.snow_text_model.specs.Model.Words.{one};
ghost use Rattle.snow_text_model.specs.Model.Bytes.{item_word, number_word};
ghost use Rattle.snow_text_model.specs.Model.Events.{list_field};
ghost use Rattle.snow_words.specs.Clauses.Making.{Reads, ahead};
ghost use Rattle.snow_words.specs.Clauses.Listing.{items_of};
ghost use Rattle.snow_words.specs.Clauses.Numbers.{size_of};

use crate::bytes::number_word;
use crate::items::Item;
use crate::lists::list_of_words;
use crate::names::{Names, item_word};
use crate::number::Width;
use crate::output::Output;
use crate::stop::Stop;
use crate::words::Words;

/// Takes a word and appends the number that it says. It returns `Missing` where no word is left,
/// and else what `number_word` does.
/// Rule: this project's own.
#[tactic(auto, using(crate::proofs::Appended::one_told, crate::proofs::Appended::one_none))]
pub fn number(width: Width, words: &mut Words, out: &mut Output) -> Result<(), Stop>
    ensures { Reads result (out.new, words.new) (ahead out.old (one (number_word (size_of width)) words.old)) }
{
    let word = words.take()?;
    words.at(number_word(width, word, out))
}

/// Takes a word and appends the so many bytes that it says. It returns `Missing` where no word is
/// left, and else what `item_word` does.
/// Rule: this project's own.
#[tactic(auto, using(crate::proofs::Appended::one_told, crate::proofs::Appended::one_none))]
pub fn item(size: usize, names: &Names, words: &mut Words, out: &mut Output) -> Result<(), Stop>
    requires { size ≤ 2 ^ 16 }
    ensures { Reads result (out.new, words.new) (ahead out.old (one (item_word names.now size) words.old)) }
{
    let word = words.take()?;
    words.at(item_word(names, size, word, out))
}

/// Takes all words that are left and appends the list that they say. It returns what
/// `list_of_words` does.
/// Rule: this project's own.
#[tactic(auto, using(crate::proofs::Appended::list_so, crate::proofs::Appended::list_so_not))]
pub fn list(item: Item, names: &Names, words: &mut Words, out: &mut Output) -> Result<(), Stop>
    ensures { Reads result (out.new, words.new) (ahead out.old (list_field (items_of names.now item) words.old)) }
{
    list_of_words(item, names, words, out)
}
