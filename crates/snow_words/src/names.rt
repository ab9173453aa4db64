ghost use Rattle.std.specs.Prelude.{◌≡◌, ◌≤◌, ◌^◌, true, [], ◌∷◌, OnOk, OnErr, find, reverse};
ghost use Rattle.std.specs.Option.{option_map};
ghost use Rattle.std.specs.Str.{bytes_eq};
ghost use Rattle.snow_text_model.specs.Model.Names.{called, is_call};
ghost use Rattle.snow_text_model.specs.Model.Bytes.{item_word, part_word};
ghost use Rattle.snow_words.specs.Clauses.Making.{Tells, onto, sized_as};

use crate::bytes::{bytes_word, fixed_word};
use crate::output::Output;
use crate::stop::Why;
use snow_base::{Bytes, Items};
use snow_text_model::Reason;
use std::alloc::{AllocError, Global};
use std::marker::Model;

/// A block that a text gives a name.
/// Rule: this project's own.
#[derive(Drop)]
pub struct Block {
    pub name: Bytes,
    pub bytes: Bytes,
    pub identifier: Bytes,
}

impl Model for Block {
    ghost use Rattle.snow_text_model.specs.Model.Names.{Named};

    ghost Value = { Named };

    ghost view = { λ a. record { name = a.name; bytes = a.bytes; identifier = a.identifier } };
}

/// The blocks that have a name. Contracts see them as the model does, the last one first.
/// Rule: this project's own.
#[derive(Drop)]
pub struct Names {
    alloc: Global,
    blocks: Items<Block>,
}

impl Model for Names {
    ghost use Rattle.std.specs.Prelude.{List, reverse};
    ghost use Rattle.snow_text_model.specs.Model.Names.{Named};

    ghost Value = { List Named };

    ghost view = { λ a. reverse a.blocks };
}

impl Names {
    /// Returns no names. It takes no memory.
    /// Rule: this project's own.
    pub fn new(alloc: Global) -> Self
        ensures { result ≡ [] }
    {
        Names {
            alloc,
            blocks: Items::new(alloc),
        }
    }

    /// Returns where memory comes from.
    /// Rule: this project's own.
    pub fn alloc(&self) -> Global {
        self.alloc
    }

    /// Gives a block a name. On want of memory it returns `AllocError`, and the names stay as they
    /// were.
    /// Rule: this project's own.
    #[tactic(auto, using(crate::proofs::Named::reverse_push))]
    pub fn push(&mut self, block: Block) -> Result<(), AllocError>
        ensures ok { OnOk result (self.new ≡ block ∷ self.old) }
        ensures err { OnErr result (self.new ≡ self.old) }
    {
        self.blocks.push(block)
    }

    /// Returns the block with this name, or `None` exactly where there is none.
    /// Rule: this project's own.
    pub fn find(&self, name: &[u8]) -> Option<&Block>
        ensures { option_map (λ b. b.now) result ≡ find (λ n. bytes_eq n.name name.now) self.now }
    {
        find_last(self.blocks.list(), name)
    }
}

// The last block with this name.
#[tactic(auto, using(crate::proofs::Named::find_here, crate::proofs::Named::find_below, crate::proofs::Named::find_all))]
fn find_last<'a>(blocks: &'a [Block], name: &[u8]) -> Option<&'a Block>
    ensures { option_map (λ b. b.now) result ≡ find (λ n. bytes_eq n.name name.now) (reverse blocks.now) }
{
    let mut at = blocks.len();
    while at > 0 {
        at -= 1;
        let block = &blocks[at];
        if block.name.list() == name {
            return Some(block);
        }
    }
    None
}

// Whether a word calls a block by its name.
fn is_call(word: &[u8]) -> bool
    ensures { result ≡ is_call word.now }
{
    match word {
        [first, ..] => *first == b'$',
        [] => false,
    }
}

// The bytes of the block that a word calls.
#[tactic(auto, unfolding(snow_text_model::specs::Model::Names::called))]
fn called_bytes(names: &Names, word: &[u8], out: &mut Output) -> Result<(), Why>
    requires { is_call word.now ≡ true }
    ensures { Tells result out.new (onto out.old (called (λ n. n.bytes) names.now word.now)) }
{
    match names.find(&word[1..]) {
        None => Err(Why::Not(Reason::Unknown)),
        Some(block) => Ok(out.append(block.bytes.list())?),
    }
}

// The identifier of the block that a word calls.
#[tactic(auto, unfolding(snow_text_model::specs::Model::Names::called))]
fn called_identifier(names: &Names, word: &[u8], out: &mut Output) -> Result<(), Why>
    requires { is_call word.now ≡ true }
    ensures { Tells result out.new (onto out.old (called (λ n. n.identifier) names.now word.now)) }
{
    match names.find(&word[1..]) {
        None => Err(Why::Not(Reason::Unknown)),
        Some(block) => Ok(out.append(block.identifier.list())?),
    }
}

/// Appends bytes, or those of a block that has a name. It returns `Unknown` where none has it, and
/// else what `bytes_word` does.
/// Rule: this project's own.
#[tactic(auto, unfolding(snow_text_model::specs::Model::Bytes::part_word))]
pub fn part_word(names: &Names, word: &[u8], out: &mut Output) -> Result<(), Why>
    ensures { Tells result out.new (onto out.old (part_word names.now word.now)) }
{
    if is_call(word) {
        called_bytes(names, word, out)
    } else {
        bytes_word(word, out)
    }
}

/// Appends so many bytes, or the identifier of a block that has a name. It returns `Unknown` where
/// none has it, `Size` where the bytes aren't so many, and else what `fixed_word` does.
/// Rule: this project's own.
#[tactic(auto, unfolding(snow_text_model::specs::Model::Bytes::item_word))]
pub fn item_word(names: &Names, size: usize, word: &[u8], out: &mut Output) -> Result<(), Why>
    requires { size ≤ 2 ^ 16 }
    ensures { Tells result out.new (onto out.old (item_word names.now size word.now)) }
{
    if is_call(word) {
        called_item(names, size, word, out)
    } else {
        fixed_word(size, word, out)
    }
}

// The identifier of the block that a word calls, where it has so many bytes.
#[tactic(auto, using(crate::proofs::Saying::sizing))]
fn called_item(names: &Names, size: usize, word: &[u8], out: &mut Output) -> Result<(), Why>
    requires { is_call word.now ≡ true }
    ensures { Tells result out.new (onto out.old (sized_as size (called (λ n. n.identifier) names.now word.now))) }
{
    let start = out.len();
    called_identifier(names, word, out)?;
    if out.len() - start != size {
        return Err(Why::Not(Reason::Size));
    }
    Ok(())
}
