ghost use Rattle.std.specs.Prelude.{◌≡◌, ℕ, List, [], drop};
ghost use Rattle.std.specs.Option.{option_map};
ghost use Rattle.snow_text_model.specs.Model.Words.{parts};
ghost use Rattle.snow_words.specs.Clauses.Cutting.{IsCut, IsHalved, first};

use std::marker::Model;

/// The parts of a text between marks, each of which is taken once. Contracts see those that are
/// left.
/// Rule: this project's own.
#[derive(Drop)]
pub struct Parts<'a> {
    mark: u8,
    rest: Option<&'a [u8]>,
}

impl<'a> Model for Parts<'a> {
    ghost use Rattle.std.specs.Prelude.{ℕ, List, []};
    ghost use Rattle.std.specs.Option.{option_map_or};
    ghost use Rattle.snow_text_model.specs.Model.Words.{parts};

    ghost Value = { List (List ℕ) };

    ghost view = { λ a. option_map_or (λ rest. parts a.mark rest.now) a.rest [] };
}

impl<'a> Parts<'a> {
    /// Returns the parts of this text between bytes `mark`.
    /// Rule: this project's own.
    pub fn new(mark: u8, text: &'a [u8]) -> Self
        ensures { result ≡ parts mark text.now }
    {
        Parts {
            mark,
            rest: Some(text),
        }
    }

    /// Returns the same parts again, those that are left.
    /// Rule: this project's own.
    pub fn again(&self) -> Parts<'a>
        ensures { result ≡ self.now }
    {
        Parts {
            mark: self.mark,
            rest: self.rest,
        }
    }

    /// Takes the next part and returns it, or `None` exactly where none is left.
    /// Rule: this project's own.
    pub fn next(&mut self) -> Option<&'a [u8]>
        ensures part { option_map (λ p. p.now) result ≡ first self.old }
        ensures rest { self.new ≡ drop 1 self.old }
    {
        let rest = self.rest?;
        match place(self.mark, rest) {
            None => {
                self.rest = None;
                Some(rest)
            }
            Some(at) => {
                self.rest = Some(&rest[at + 1..]);
                Some(&rest[..at])
            }
        }
    }
}

/// Returns the place of the first byte `mark`, or `None` where there is no such byte.
/// Rule: this project's own.
#[tactic(auto, using(crate::proofs::Cutting::no_mark_next))]
pub fn place(mark: u8, text: &[u8]) -> Option<usize>
    ensures { IsCut mark text.now result }
{
    for at in 0..text.len() {
        if text[at] == mark {
            return Some(at);
        }
    }
    None
}

/// Returns the first part of a text and what stands behind the first byte `mark`, or `None` where
/// there is no such byte.
/// Rule: this project's own.
pub fn halved(mark: u8, text: &[u8]) -> Option<(&[u8], &[u8])>
    ensures { IsHalved mark text.now (option_map (λ h. (h.0.now, h.1.now)) result) }
{
    match place(mark, text) {
        None => None,
        Some(at) => Some((&text[..at], &text[at + 1..])),
    }
}
