ghost use Rattle.std.specs.Prelude.{◌≡◌, ◌==◌, ◌||◌, ◌&&◌, nat_le, [], drop, take, IfOk};
ghost use Rattle.std.specs.List.{list_all};
ghost use Rattle.snow_text_model.specs.Model.Names.{is_letter, is_name};
ghost use Rattle.snow_text_model.specs.Model.Bytes.{bytes_of};
ghost use Rattle.snow_text_model.specs.Model.Events.{chain_of, first_word, payload_of};
ghost use Rattle.snow_text_model.specs.Model.Made.{named_as, naming, say_words};
ghost use Rattle.snow_say.specs.Clauses.Blocks.{chain_in};
ghost use Rattle.snow_say.specs.Clauses.Meaning.{FitsIn, Gives, Says, block_named, framed_as, named_block, rest_as};

use crate::chain::{self, Chain, bytes_of};
use crate::payload::payload_of;
use sha2::{Digest, Sha256};
use snow_base::Bytes;
use snow_base::limits::FRAME_BYTES;
use snow_text_model::Reason;
use snow_words::{Block, Names, Output, Stop, Words, is};
use std::alloc::AllocError;

/// The greatest length of a payload.
const MAX_PAYLOAD: usize = FRAME_BYTES as usize;

/// What a line says.
/// Rule: this project's own.
#[derive(Drop)]
pub enum Meaning {
    /// Nothing.
    Nothing,
    /// A block's name.
    Name(Block),
    /// A frame, whose payload stands apart.
    Frame,
    /// What stands behind the last whole frame, which stands apart.
    Rest,
}

/// Takes words and returns what they say. The bytes of a frame's payload or of a rest are appended
/// to `out`, which is empty before. It returns the model's stop exactly where they say nothing that
/// is taken.
/// Rule: this project's own.
#[tactic(auto, using(crate::proofs::Spoken::saying))]
pub fn say_words(names: &Names, words: &mut Words, out: &mut Output) -> Result<Meaning, Stop>
    requires { out.old ≡ [] }
    ensures says { Says result out.new (say_words names.now words.old) }
    ensures fits { FitsIn result out.new }
{
    match words.peek() {
        None => Ok(Meaning::Nothing),
        Some(word) => {
            if is(b"rest", word) {
                rest(names, words, out)
            } else if is(b"name", word) {
                name(names, words, out)
            } else {
                frame(names, words, out)
            }
        }
    }
}

// What stands behind the last whole frame.
#[tactic(auto, using(crate::proofs::Spoken::rest_told, crate::proofs::Spoken::rest_not))]
fn rest(names: &Names, words: &mut Words, out: &mut Output) -> Result<Meaning, Stop>
    requires { out.old ≡ [] }
    ensures says { Says result out.new (rest_as (bytes_of names.now (drop 1 words.old))) }
    ensures fits { FitsIn result out.new }
{
    let _ = words.next();
    bytes_of(names, words, out)?;
    Ok(Meaning::Rest)
}

// A block's name.
fn name(names: &Names, words: &mut Words, out: &mut Output) -> Result<Meaning, Stop>
    requires { out.old ≡ [] }
    ensures says { Says result out.new (naming names.now (drop 1 words.old)) }
    ensures fits { FitsIn result out.new }
{
    let _ = words.next();
    match naming(names, words, out) {
        Ok(block) => Ok(Meaning::Name(block)),
        Err(stop) => Err(stop),
    }
}

// A frame, where its payload isn't too long.
#[tactic(auto, using(crate::proofs::Spoken::framing))]
fn frame(names: &Names, words: &mut Words, out: &mut Output) -> Result<Meaning, Stop>
    requires { out.old ≡ [] }
    ensures says { Says result out.new (framed_as words.old (payload_of names.now words.old)) }
    ensures fits { FitsIn result out.new }
{
    let count = words.count();
    payload_of(names, words, out)?;
    if out.len() > MAX_PAYLOAD {
        return Err(Stop::At(Reason::Long, count));
    }
    Ok(Meaning::Frame)
}

// A block gets a name that no other has.
#[tactic(auto, using(crate::proofs::Spoken::names))]
fn naming(names: &Names, words: &mut Words, out: &mut Output) -> Result<Block, Stop>
    requires { out.old ≡ [] }
    ensures { Gives result (naming names.now words.old) }
{
    let name = words.take()?;
    if !is_name(name) {
        return Err(Stop::At(Reason::Naming, words.count() + 1));
    }
    if names.find(name).is_some() {
        return Err(Stop::At(Reason::Twice, words.count() + 1));
    }
    named_as(name, names, words, out)
}

// A block in the words of a chain, by a name.
#[tactic(auto, using(crate::proofs::Spoken::named_none, crate::proofs::Spoken::named_some))]
fn named_as(name: &[u8], names: &Names, words: &mut Words, out: &mut Output) -> Result<Block, Stop>
    requires { out.old ≡ [] }
    ensures { Gives result (named_as name.now (chain_of names.now (first_word words.old)) words.old) }
{
    match Chain::at(words) {
        None => Err(Stop::At(Reason::Chain, words.count())),
        Some(chain) => {
            let _ = words.next();
            named_in(chain, name, names, words, out)
        }
    }
}

// A block in the words of this chain, by a name.
#[tactic(auto, using(crate::proofs::Spoken::block_told, crate::proofs::Spoken::block_not))]
fn named_in(
    chain: Chain,
    name: &[u8],
    names: &Names,
    words: &mut Words,
    out: &mut Output,
) -> Result<Block, Stop>
    requires { out.old ≡ [] }
    ensures { Gives result (named_block chain names.now name.now words.old) }
{
    chain::ended(chain, names, words, out)?;
    Ok(block(chain, name, names, out.list())?)
}

// The block with these bytes.
fn block(chain: Chain, name: &[u8], names: &Names, bytes: &[u8]) -> Result<Block, AllocError>
    ensures { IfOk result (λ block. block ≡ block_named (chain_in names.now chain) name.now bytes.now) }
{
    let name = Bytes::from_slice(names.alloc(), name)?;
    let identifier = identifier(chain, names, bytes)?;
    let bytes = Bytes::from_slice(names.alloc(), bytes)?;
    Ok(Block {
        name,
        bytes,
        identifier,
    })
}

// The identifier of a block with these bytes.
#[tactic(auto, using(crate::proofs::Spoken::short_front))]
fn identifier(chain: Chain, names: &Names, bytes: &[u8]) -> Result<Bytes, AllocError>
    ensures { IfOk result (λ id. id ≡ (chain_in names.now chain).identifier bytes.now) }
{
    match chain {
        Chain::Plain => Bytes::from_slice(names.alloc(), front(bytes)),
        Chain::Tally | Chain::Ledger => { Bytes::from_slice(names.alloc(), &Sha256::digest(bytes)) }
    }
}

// The first 32 bytes, or all of them.
#[tactic(auto, using(crate::proofs::Spoken::short_front))]
fn front(bytes: &[u8]) -> &[u8]
    ensures { result.now ≡ take 32 bytes.now }
{
    if bytes.len() < 32 {
        bytes
    } else {
        &bytes[..32]
    }
}

// Whether a word is a name: a small letter, and then small letters, digits and `-`.
fn is_name(word: &[u8]) -> bool
    ensures { result ≡ is_name word.now }
{
    match word {
        [first, more @ ..] => 97 <= *first && *first <= 122 && are_marks(more),
        [] => false,
    }
}

// Whether only small letters, digits and `-` stand there.
fn are_marks(word: &[u8]) -> bool
    ensures { result ≡ list_all (λ d. is_letter d || (nat_le 48 d && nat_le d 57) || d == 45) word.now }
{
    word.iter().all(|d| (97 <= *d && *d <= 122) || (48 <= *d && *d <= 57) || *d == 45)
}
