ghost use Rattle.std.specs.Prelude.{◌≡◌, ◌<◌, ◌≤◌, [], ◌∷◌, ◌++◌, bytes_eq, drop, length, map, option_and_then, option_map, string_bytes, IfOk, IfSome, MatchOption, OnOk};
ghost use Rattle.snow_command.specs.Kept.Request.{Advances, Comes, Puts, behind_dash, blank, form_seen, texts, with_items};
ghost use Rattle.snow_command.specs.Kept.Parsing.{is_word, is_word_or_none, option_word, ordered};
ghost use Rattle.snow_command.specs.Model.Words.{Plain, first_items, form_of, has_dash, items, named_items, option_form};

use std::alloc::{AllocError, Global};
use std::marker::Model;

/// What a word looks like, where no `--` came before.
#[derive(Clone, Copy)]
enum Look<'a> {
    /// It is plain.
    Alone,
    /// It is `--`.
    Ends,
    /// `--name=value`.
    Sets(&'a str, &'a str),
    /// `--name`.
    Names(&'a str),
    /// It begins with one `-` alone.
    Dashed,
}

/// The words of the command line: the one plain word, and the one value of each option.
#[derive(Drop)]
struct Asked<'a> {
    task: Option<&'a str>,
    chain: Option<&'a str>,
    rule: Option<&'a str>,
    seed: Option<&'a str>,
    blocks: Option<&'a str>,
}

impl<'a> Model for Asked<'a> {
    ghost use Rattle.std.specs.Prelude.{option_map};
    ghost use Rattle.snow_command.specs.Kept.Request.{Request};

    ghost Value = { Request };

    ghost view = { λ a. record {
      task = option_map (λ s. s.now) a.task;
      chain = option_map (λ s. s.now) a.chain;
      rule = option_map (λ s. s.now) a.rule;
      seed = option_map (λ s. s.now) a.seed;
      blocks = option_map (λ s. s.now) a.blocks;
    } };
}

impl<'a> Asked<'a> {
    ghost use Rattle.std.specs.Prelude.{◌≡◌, ◌∷◌, codes, option_map, IfOk};
    ghost use Rattle.snow_command.specs.Kept.Parsing.{has_words, option_words, ordered, takes_chain};
    ghost use Rattle.snow_command.specs.Kept.Request.{Comes, blank, texts, with_item, with_value};
    ghost use Rattle.snow_command.specs.Model.Words.{Plain};

    /// Returns the words before the first.
    fn new() -> Self
        ensures { result ≡ blank }
    {
        Asked {
            task: None,
            chain: None,
            rule: None,
            seed: None,
            blocks: None,
        }
    }

    /// Takes a plain word, and returns whether it is the first.
    fn set_task(&mut self, word: &'a str) -> bool
        ensures { Comes result self.new (with_item self.old (Plain word.entry.now)) }
    {
        put_first(&mut self.task, word)
    }

    /// Takes the value of an option, and returns whether the option is known and this is its first
    /// value.
    fn set_value(&mut self, name: &str, value: &'a str) -> bool
        ensures { Comes result self.new (with_value self.old name.now value.entry.now) }
    {
        if is(name, "chain") {
            return put_first(&mut self.chain, value);
        }
        if is(name, "rule") {
            return put_first(&mut self.rule, value);
        }
        if is(name, "seed") {
            return put_first(&mut self.seed, value);
        }
        if is(name, "blocks") {
            return put_first(&mut self.blocks, value);
        }
        false
    }

    /// Returns whether the values that stand are neither empty nor begin with `-`.
    fn has_words(&self) -> bool
        ensures { result ≡ has_words self.now }
    {
        is_word_or_none(self.chain)
            && is_word_or_none(self.rule)
            && is_word_or_none(self.seed)
            && is_word_or_none(self.blocks)
    }

    /// Returns whether the task takes the chain, where one stands.
    fn takes_chain(&self, task: &str) -> bool
        ensures { result ≡ takes_chain task.now self.now.chain }
    {
        !(task == "drill" && self.chain.is_some())
    }

    /// Returns the words in order, where there is a task that takes its options and all are words.
    #[tactic(auto, unfolding(crate::specs::Kept::Parsing::ordered))]
    fn in_order(&self, alloc: Global) -> Result<Option<Vec<String>>, AllocError>
        ensures { IfOk result (λ list. option_map (λ l. texts l.items) list ≡ ordered self.now) }
    {
        let Some(task) = self.task else {
            return Ok(None);
        };
        if !is_word(task) {
            return Ok(None);
        }
        if !self.takes_chain(task) {
            return Ok(None);
        }
        if !self.has_words() {
            return Ok(None);
        }
        Ok(Some(self.list(alloc, task)?))
    }

    /// Returns the program's name, this task, and the options that stand.
    fn list(&self, alloc: Global, task: &str) -> Result<Vec<String>, AllocError>
        ensures { IfOk result (λ list. texts list.items ≡ codes "snowman" ∷ task.now
            ∷ option_words self.now.chain self.now.rule self.now.seed self.now.blocks) }
    {
        let mut list = Vec::new(alloc);
        list.push(String::from_str(alloc, "snowman")?)?;
        list.push(String::from_str(alloc, task)?)?;
        put_option(alloc, &mut list, "chain", self.chain)?;
        put_option(alloc, &mut list, "rule", self.rule)?;
        put_option(alloc, &mut list, "seed", self.seed)?;
        put_option(alloc, &mut list, "blocks", self.blocks)?;
        Ok(list)
    }
}

/// Returns whether a name is this one.
fn is(name: &str, other: &str) -> bool
    ensures { result ≡ bytes_eq name.now other.now }
{
    name == other
}

/// Puts the first of some words into its place, and returns whether it is the first.
fn put_first<'a>(place: &mut Option<&'a str>, word: &'a str) -> bool
    ensures { Puts result place.old place.new word.entry }
{
    if place.is_some() {
        return false;
    }
    *place = Some(word);
    true
}

/// Returns what follows a first `-`.
fn behind_dash(word: &str) -> Option<&str>
    ensures { option_map (λ s. s.now) result ≡ behind_dash word.now }
{
    word.strip_prefix('-')
}

/// Returns what a word looks like by itself.
fn look_at(word: &str) -> Look<'_>
    ensures { form_seen result ≡ form_of word.now }
{
    let Some(rest) = behind_dash(word) else {
        return Look::Alone;
    };
    let Some(option) = behind_dash(rest) else {
        return Look::Dashed;
    };
    look_behind(option)
}

/// Returns what stands behind `--`.
fn look_behind(option: &str) -> Look<'_>
    ensures { form_seen result ≡ option_form option.now }
{
    if option.is_empty() {
        return Look::Ends;
    }
    match option.split_once('=') {
        Some((name, value)) => Look::Sets(name, value),
        None => Look::Names(option),
    }
}

/// Returns whether a word begins with `-`.
fn has_dash(word: &str) -> bool
    ensures { result ≡ has_dash word.now }
{
    behind_dash(word).is_some()
}

/// Returns the first word, and those behind it.
fn split_first<'a>(words: &'a [String]) -> Option<(&'a str, &'a [String])>
    ensures words { MatchOption result (texts words.now ≡ []) (λ p. texts words.now ≡ p.0.now ∷ texts p.1.now) }
    ensures shorter { IfSome result (λ p. length p.1.now < length words.now) }
{
    match words {
        [word, rest @ ..] => Some((word.as_str(), rest)),
        _ => None,
    }
}

/// Takes plain words to their end.
#[tactic(auto, unfolding(crate::specs::Kept::Request::with_items), using(crate::proofs::Walks::all_came))]
fn take_plain<'a>(asked: &mut Asked<'a>, words: &'a [String]) -> Option<&'a [String]>
    ensures items { Advances asked.old (map Plain (texts words.now)) asked.new result }
    ensures shorter { IfSome result (λ rest. length rest.now ≤ length words.now) }
{
    let mut rest = words;
    while let Some((word, after)) = split_first(rest) {
        if !asked.set_task(word) {
            return None;
        }
        rest = after;
    }
    Some(rest)
}

/// Takes an option whose value is the first of the words behind its name, and returns the words
/// behind.
#[tactic(auto, unfolding(crate::specs::Kept::Request::with_items))]
fn take_value<'a>(asked: &mut Asked<'a>, name: &str, words: &'a [String]) -> Option<&'a [String]>
    ensures items { Advances asked.old (named_items name.now (texts words.now) (items (drop 1 (texts words.now)))) asked.new result }
    ensures shorter { IfSome result (λ rest. length rest.now ≤ length words.now) }
{
    let Some((value, rest)) = split_first(words) else {
        return None;
    };
    if has_dash(value) {
        return None;
    }
    if !asked.set_value(name, value) {
        return None;
    }
    Some(rest)
}

/// Takes a word, with those behind it that belong to it, and returns the words behind.
#[tactic(auto, unfolding(crate::specs::Kept::Request::with_items))]
fn take<'a>(asked: &mut Asked<'a>, word: &'a str, words: &'a [String]) -> Option<&'a [String]>
    ensures items { Advances asked.old (first_items (form_of word.now) word.now (texts words.now)
        (items (texts words.now)) (items (drop 1 (texts words.now)))) asked.new result }
    ensures shorter { IfSome result (λ rest. length rest.now ≤ length words.now) }
{
    match look_at(word) {
        Look::Alone if asked.set_task(word) => Some(words),
        Look::Ends => take_plain(asked, words),
        Look::Sets(name, value) if asked.set_value(name, value) => Some(words),
        Look::Names(name) => take_value(asked, name, words),
        _ => None,
    }
}

/// Returns what words ask for, where each is an item that may stand.
#[tactic(auto, unfolding(crate::specs::Kept::Request::with_items), using(crate::proofs::Walks::items_first, crate::proofs::Walks::all_came))]
fn ask<'a>(words: &'a [String]) -> Option<Asked<'a>>
    ensures { result ≡ with_items blank (items (texts words.now)) }
{
    let mut asked = Asked::new();
    let mut rest = words;
    while let Some((word, after)) = split_first(rest) {
        let Some(behind) = take(&mut asked, word, after) else {
            return None;
        };
        rest = behind;
    }
    Some(asked)
}

/// Returns the words in order: the program's name, the one plain word, and `--name=value` for each
/// option that stands, in the order chain, rule, seed, blocks. It returns `None` where a word has
/// no place, an option stands twice, the plain word or a value is empty or begins with `-`, or a
/// drill is given a chain. On want of memory it returns `AllocError`.
/// Rule: this project's own.
pub fn order(alloc: Global, words: &[String]) -> Result<Option<Vec<String>>, AllocError>
    ensures { IfOk result (λ list. option_map (λ l. texts l.items) list
        ≡ option_and_then ordered (with_items blank (items (texts words.now)))) }
{
    let Some(asked) = ask(words) else {
        return Ok(None);
    };
    asked.in_order(alloc)
}

/// Returns whether a word is neither empty nor begins with `-`.
fn is_word(word: &str) -> bool
    ensures { result ≡ is_word word.now }
{
    !word.is_empty() && !has_dash(word)
}

fn is_word_or_none(word: Option<&str>) -> bool
    ensures { result ≡ is_word_or_none (option_map (λ s. s.now) word.entry) }
{
    match word {
        Some(word) => is_word(word),
        None => true,
    }
}

/// Appends the word of an option, where the option stands.
fn put_option(
    alloc: Global,
    list: &mut Vec<String>,
    name: &str,
    value: Option<&str>,
) -> Result<(), AllocError>
    ensures { OnOk result (texts list.new.items ≡ texts list.old.items ++ option_word name.now (option_map (λ s. s.now) value.entry)) }
{
    let Some(value) = value else {
        return Ok(());
    };
    list.push(option_word(alloc, name, value)?)?;
    Ok(())
}

/// Returns `--name=value`.
fn option_word(alloc: Global, name: &str, value: &str) -> Result<String, AllocError>
    ensures { IfOk result (λ word. string_bytes word ≡ 45 ∷ 45 ∷ name.now ++ 61 ∷ value.now) }
{
    let mut word = String::from_str(alloc, "--")?;
    word.push_str(name)?;
    word.push_str("=")?;
    word.push_str(value)?;
    Ok(word)
}
