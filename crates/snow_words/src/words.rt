ghost use Rattle.std.specs.Prelude.{◌≡◌, ◌+◌, ◌≤◌, ◌^◌, ◌<◌, [], length, drop, MatchBool};
ghost use Rattle.std.specs.List.{filter};
ghost use Rattle.std.specs.Option.{option_map};
ghost use Rattle.std.specs.Str.{bytes_eq};
ghost use Rattle.snow_text_model.specs.Model.Words.{is_word, said, spaced, words_of};
ghost use Rattle.snow_words.specs.Clauses.Cutting.{first, IsEnd, Takes, stopped, stopping};

use crate::parts::{Parts, place};
use crate::stop::{Stop, Why};
use snow_text_model::Reason;
use std::marker::Model;

/// The words of a line, each of which is taken once. Contracts see those that are left.
/// Rule: this project's own.
#[derive(Drop)]
pub struct Words<'a> {
    parts: Parts<'a>,
}

impl<'a> Model for Words<'a> {
    ghost use Rattle.std.specs.Prelude.{ℕ, List, length, ◌≤◌, ◌^◌};
    ghost use Rattle.std.specs.List.{filter};
    ghost use Rattle.snow_text_model.specs.Model.Words.{is_word};

    ghost Value = { List (List ℕ) };

    ghost view = { λ a. filter is_word a.parts };

    ghost invariant = { λ a. length a.parts ≤ 2 ^ 63 };
}

impl<'a> Words<'a> {
    /// Returns the words of a line.
    /// Rule: this project's own.
    #[tactic(auto, unfolding(snow_text_model::specs::Model::Words::words_of))]
    pub fn of_line(line: &'a [u8]) -> Self
        ensures { result ≡ words_of line.now }
    {
        Words::of_text(said(line))
    }

    /// Returns the words between the spaces of a text.
    /// Rule: this project's own.
    #[tactic(auto, using(crate::proofs::Cutting::few_parts), unfolding(snow_text_model::specs::Model::Words::spaced))]
    pub fn of_text(text: &'a [u8]) -> Self
        ensures { result ≡ spaced text.now }
    {
        Words {
            parts: Parts::new(b' ', text),
        }
    }

    /// Takes the next word and returns it, or `None` exactly where none is left.
    /// Rule: this project's own.
    #[tactic(auto, using(crate::proofs::Cutting::fewer_behind))]
    pub fn next(&mut self) -> Option<&'a [u8]>
        ensures word { option_map (λ w. w.now) result ≡ first self.old }
        ensures rest { self.new ≡ drop 1 self.old }
    {
        next_word(&mut self.parts)
    }

    /// Takes the next word and returns it. It returns `Missing` exactly where none is left.
    /// Rule: this project's own.
    pub fn take(&mut self) -> Result<&'a [u8], Stop>
        ensures { Takes (λ w. w.now) result self.old self.new }
    {
        match self.next() {
            Some(word) => Ok(word),
            None => Err(Stop::At(Reason::Missing, 0)),
        }
    }

    /// Returns the same words again, those that are left.
    /// Rule: this project's own.
    pub fn again(&self) -> Words<'a>
        ensures { result ≡ self.now }
    {
        Words {
            parts: self.parts.again(),
        }
    }

    /// Returns the next word, which stays there, or `None` exactly where none is left.
    /// Rule: this project's own.
    pub fn peek(&self) -> Option<&'a [u8]>
        ensures { option_map (λ w. w.now) result ≡ first self.now }
    {
        self.again().next()
    }

    /// Returns whether no word is left.
    /// Rule: this project's own.
    #[tactic(auto, using(crate::proofs::Cutting::none_of, crate::proofs::Cutting::some_of))]
    pub fn is_empty(&self) -> bool
        ensures { MatchBool result (self.now ≡ []) (0 < length self.now) }
    {
        self.peek().is_none()
    }

    /// Returns how many words are left: at most 2^63.
    /// Rule: this project's own.
    #[tactic(auto, using(crate::proofs::Cutting::few_words))]
    pub fn count(&self) -> usize
        ensures count { result ≡ length self.now }
        ensures few { result ≤ 2 ^ 63 }
    {
        count_words(&self.parts)
    }

    /// Returns the stop at the word that was taken last.
    /// Rule: this project's own.
    pub fn stop(&self, why: Why) -> Stop
        ensures { result ≡ stopped why (length self.now + 1) }
    {
        match why {
            Why::Memory => Stop::Memory,
            Why::Not(reason) => Stop::At(reason, self.count() + 1),
        }
    }

    /// Returns what a word that was taken last told, with how many words are left there.
    /// Rule: this project's own.
    pub fn at(&self, told: Result<(), Why>) -> Result<(), Stop>
        ensures { result ≡ stopping told (length self.now + 1) }
    {
        match told {
            Ok(()) => Ok(()),
            Err(why) => Err(self.stop(why)),
        }
    }

    /// Refuses the line where a word is left.
    /// Rule: this project's own.
    pub fn end(&self) -> Result<(), Stop>
        ensures { IsEnd result self.now }
    {
        let left = self.count();
        if left == 0 {
            Ok(())
        } else {
            Err(Stop::At(Reason::Extra, left))
        }
    }
}

/// Returns the front of a line up to the first `#`.
/// Rule: this project's own.
#[tactic(auto, using(crate::proofs::Cutting::said_cut, crate::proofs::Cutting::said_whole))]
pub fn said(line: &[u8]) -> &[u8]
    ensures { result.now ≡ said line.now }
{
    match place(b'#', line) {
        Some(at) => &line[..at],
        None => line,
    }
}

/// Returns whether a word is this name.
/// Rule: this project's own.
pub fn is(name: &[u8], word: &[u8]) -> bool
    ensures { result ≡ bytes_eq name.now word.now }
{
    name == word
}

// Takes parts up to the next that isn't empty, and returns that.
#[tactic(auto, using(crate::proofs::Cutting::wording))]
fn next_word<'a>(parts: &mut Parts<'a>) -> Option<&'a [u8]>
    ensures word { option_map (λ w. w.now) result ≡ first (filter is_word parts.old) }
    ensures rest { filter is_word parts.new ≡ drop 1 (filter is_word parts.old) }
    ensures few { length parts.new ≤ length parts.old }
{
    while let Some(part) = parts.next() {
        if !part.is_empty() {
            return Some(part);
        }
    }
    None
}

// How many of the parts that are left aren't empty.
#[tactic(auto, using(crate::proofs::Cutting::wording))]
fn count_words(parts: &Parts) -> usize
    requires { length (filter is_word parts.now) ≤ 2 ^ 63 }
    ensures { result ≡ length (filter is_word parts.now) }
{
    let mut rest = parts.again();
    let mut count = 0;
    while next_word(&mut rest).is_some() {
        count += 1;
    }
    count
}
