ghost use Rattle.std.specs.Prelude.{◌≡◌, [], OnOk};
ghost use Rattle.std.specs.Option.{option_map};
ghost use Rattle.snow_say.specs.declared.chain.Chain.TheVariants as shape;
ghost use Rattle.snow_text_model.specs.Model.Words.{all, all_of, ended};
ghost use Rattle.snow_text_model.specs.Model.Names.{Names as Blocks};
ghost use Rattle.snow_text_model.specs.Model.Bytes.{bytes_of, part_word};
ghost use Rattle.snow_text_model.specs.Model.Events.{behind, block_of, chain_of, first_word};
ghost use Rattle.snow_words.specs.Clauses.Making.{Reads, ahead, onto};
ghost use Rattle.snow_say.specs.Clauses.Blocks.{chain_in, fields_in, is_dot};

use snow_text_model::Reason;
use snow_words::{Item, Names, Output, Stop, Width, Words, fields, is, list_of_words, part_word};

/// The chains whose blocks have words.
/// Rule: this project's own.
#[derive(Clone, Copy, Debug, PartialEq, Eq)]
pub enum Chain {
    /// Blocks that state whether they are valid.
    Plain,
    /// A sum up to a cap.
    Tally,
    /// Transfers between accounts.
    Ledger,
}

impl Chain {
    /// Returns the chain with this name, or `None` where none has it.
    /// Rule: this project's own.
    pub fn of(word: &[u8]) -> Option<Self>
        ensures { (names : Blocks) → chain_of names word.now ≡ option_map (chain_in names) result }
    {
        if is(b"plain", word) {
            Some(Chain::Plain)
        } else if is(b"tally", word) {
            Some(Chain::Tally)
        } else if is(b"ledger", word) {
            Some(Chain::Ledger)
        } else {
            None
        }
    }

    /// Returns the chain that the next word names, which stays there, or `None` where it names
    /// none.
    /// Rule: this project's own.
    pub fn at(words: &Words) -> Option<Self>
        ensures { (names : Blocks) → chain_of names (first_word words.now) ≡ option_map (chain_in names) result }
    {
        match words.peek() {
            Some(word) => Chain::of(word),
            None => None,
        }
    }

    /// Takes words and appends the fields of a block that they say. It returns the model's stop
    /// exactly where they say none.
    /// Rule: this project's own.
    pub fn fields(self, names: &Names, words: &mut Words, out: &mut Output) -> Result<(), Stop>
        ensures { Reads result (out.new, words.new) (ahead out.old (fields_in self names.now words.old)) }
    {
        match self {
            Chain::Plain => plain(names, words, out),
            Chain::Tally => tally(names, words, out),
            Chain::Ledger => ledger(names, words, out),
        }
    }
}

#[tactic(auto, using(crate::proofs::Chained::fielding), unfolding(crate::specs::Clauses::Blocks::fields_in))]
fn plain(names: &Names, words: &mut Words, out: &mut Output) -> Result<(), Stop>
    ensures { Reads result (out.new, words.new) (ahead out.old (fields_in shape.Plain names.now words.old)) }
{
    fields::item(32, names, words, out)?;
    fields::item(32, names, words, out)?;
    fields::number(Width::Eight, words, out)?;
    fields::number(Width::One, words, out)?;
    behind(names, words, out)
}

#[tactic(auto, using(crate::proofs::Chained::fielding), unfolding(crate::specs::Clauses::Blocks::fields_in))]
fn tally(names: &Names, words: &mut Words, out: &mut Output) -> Result<(), Stop>
    ensures { Reads result (out.new, words.new) (ahead out.old (fields_in shape.Tally names.now words.old)) }
{
    fields::item(32, names, words, out)?;
    fields::number(Width::Eight, words, out)?;
    fields::number(Width::Eight, words, out)?;
    behind(names, words, out)
}

#[tactic(auto, using(crate::proofs::Chained::fielding), unfolding(crate::specs::Clauses::Blocks::fields_in, snow_words::specs::Clauses::Listing::items_of))]
fn ledger(names: &Names, words: &mut Words, out: &mut Output) -> Result<(), Stop>
    ensures { Reads result (out.new, words.new) (ahead out.old (fields_in shape.Ledger names.now words.old)) }
{
    fields::item(32, names, words, out)?;
    fields::number(Width::Eight, words, out)?;
    fields::list(Item::Transfer, names, words, out)
}

// The bytes behind the fields of a block, which all words left say, if there are.
#[tactic(auto, using(crate::proofs::Chained::behinding))]
fn behind(names: &Names, words: &mut Words, out: &mut Output) -> Result<(), Stop>
    ensures { Reads result (out.new, words.new) (ahead out.old (all (behind names.now) words.old)) }
{
    if words.is_empty() {
        return Ok(());
    }
    bytes_of(names, words, out)
}

/// Takes all words that are left and appends the bytes that they say: any number of them, where `.`
/// alone says none. It returns the model's stop exactly where they say none.
/// Rule: this project's own.
#[tactic(auto, using(crate::proofs::Chained::bytes_none, crate::proofs::Chained::bytes_nothing, crate::proofs::Chained::bytes_all))]
pub fn bytes_of(names: &Names, words: &mut Words, out: &mut Output) -> Result<(), Stop>
    ensures read { Reads result out.new (onto out.old (bytes_of names.now words.old)) }
    ensures rest { OnOk result (words.new ≡ []) }
{
    if words.is_empty() {
        return Err(Stop::At(Reason::Missing, 0));
    }
    if is_dot(words) {
        let _ = words.next();
        return Ok(());
    }
    parts(names, words, out)
}

// Whether the words say no bytes.
fn is_dot(words: &Words) -> bool
    ensures { result ≡ is_dot words.now }
{
    let mut rest = words.again();
    match rest.next() {
        None => false,
        Some(word) => is(word, b".") && rest.is_empty(),
    }
}

// Appends the bytes that each word says.
#[tactic(auto, using(crate::proofs::Chained::saying))]
fn parts(names: &Names, words: &mut Words, out: &mut Output) -> Result<(), Stop>
    ensures read { Reads result out.new (onto out.old (all_of (part_word names.now) words.old)) }
    ensures rest { OnOk result (words.new ≡ []) }
{
    while let Some(word) = words.next() {
        words.at(part_word(names, word, out))?;
    }
    Ok(())
}

/// Takes all words that are left and appends the bytes of a block that they say. It returns the
/// model's stop exactly where they say none.
/// Rule: this project's own.
#[tactic(auto, using(crate::proofs::Chained::block_bytes, crate::proofs::Chained::block_chain, crate::proofs::Chained::ending))]
pub fn block_of(names: &Names, words: &mut Words, out: &mut Output) -> Result<(), Stop>
    ensures read { Reads result out.new (onto out.old (block_of names.now words.old)) }
    ensures rest { OnOk result (words.new ≡ []) }
{
    match Chain::at(words) {
        None => bytes_of(names, words, out),
        Some(chain) => {
            let _ = words.next();
            ended(chain, names, words, out)
        }
    }
}

/// Takes all words that are left and appends the fields of a block that they say.
/// Rule: this project's own.
#[tactic(auto, using(crate::proofs::Chained::ending))]
pub fn ended(chain: Chain, names: &Names, words: &mut Words, out: &mut Output) -> Result<(), Stop>
    ensures read { Reads result out.new (onto out.old (ended (fields_in chain names.now) words.old)) }
    ensures rest { OnOk result (words.new ≡ []) }
{
    chain.fields(names, words, out)?;
    words.end()
}
