ghost use Rattle.std.specs.Prelude.{◌≡◌, List, find, map};
ghost use Rattle.std.specs.Option.{option_map};
ghost use Rattle.std.specs.Str.{bytes_eq};
ghost use Rattle.snow_text_model.specs.Model.Lines.{kinds_in, kinds_of, later_kinds, next_kind};
ghost use Rattle.snow_say.specs.Clauses.Lined.{Entry, answering_kinds, asking_kinds, kind_in, kinds_or, telling_kinds};

use snow_words::is;

/// What a word of a line tells.
/// Rule: this project's own.
#[derive(Clone, Copy, Debug, PartialEq, Eq)]
pub enum Kind {
    /// An identifier.
    Id,
    /// A node.
    Node,
    /// A block.
    Block,
    /// A node, and how often it was drawn.
    Draw,
    /// Something else.
    Other,
}

impl Kind {
    /// Returns what the words tell behind this one. The last kind is that of all further words.
    /// Rule: this project's own.
    #[tactic(auto, using(crate::proofs::Lined::kinds_are))]
    pub fn of_words(name: &[u8]) -> &'static [Kind]
        ensures { map kind_in result.now ≡ kinds_of name.now }
    {
        if let Some(kinds) = asking(name) {
            return kinds;
        }
        if let Some(kinds) = telling(name) {
            return kinds;
        }
        match answering(name) {
            Some(kinds) => kinds,
            None => &[],
        }
    }

    /// Returns the kind of the next word.
    /// Rule: this project's own.
    pub fn next(kinds: &[Kind]) -> Kind
        ensures { kind_in result ≡ next_kind (map kind_in kinds.now) }
    {
        match kinds {
            [kind, ..] => *kind,
            [] => Kind::Other,
        }
    }

    /// Returns the kinds of the words behind the next.
    /// Rule: this project's own.
    #[tactic(auto, using(crate::proofs::Lined::later_more, crate::proofs::Lined::later_same))]
    pub fn later(kinds: &[Kind]) -> &[Kind]
        ensures { map kind_in result.now ≡ later_kinds (map kind_in kinds.now) }
    {
        if kinds.len() > 1 { &kinds[1..] } else { kinds }
    }
}

// The kinds of the lines that ask.
fn asking(word: &[u8]) -> Option<&'static [Kind]>
    ensures { (more : List Entry) → kinds_in (find (λ k. bytes_eq k.0 word.now) (asking_kinds more)) ≡ kinds_or (option_map (λ k. k.now) result) (kinds_in (find (λ k. bytes_eq k.0 word.now) more)) }
{
    if is(b"query", word) {
        Some(&[Kind::Other, Kind::Id, Kind::Draw])
    } else if is(b"get", word) {
        Some(&[Kind::Other, Kind::Node, Kind::Id])
    } else if is(b"accepted", word) {
        Some(&[Kind::Other, Kind::Id])
    } else if is(b"ancestors", word) {
        Some(&[Kind::Other, Kind::Node, Kind::Id])
    } else {
        None
    }
}

// The kinds of the lines that tell what was done.
fn telling(word: &[u8]) -> Option<&'static [Kind]>
    ensures { (more : List Entry) → kinds_in (find (λ k. bytes_eq k.0 word.now) (telling_kinds more)) ≡ kinds_or (option_map (λ k. k.now) result) (kinds_in (find (λ k. bytes_eq k.0 word.now) more)) }
{
    if is(b"accept", word) || is(b"reject", word) || is(b"prefer", word) {
        Some(&[Kind::Id])
    } else if is(b"drop", word) || is(b"bootstrapped", word) {
        Some(&[Kind::Id, Kind::Other])
    } else {
        None
    }
}

// The kinds of the lines that answer peers, and of those of bootstrapping.
fn answering(word: &[u8]) -> Option<&'static [Kind]>
    ensures { (more : List Entry) → kinds_in (find (λ k. bytes_eq k.0 word.now) (answering_kinds more)) ≡ kinds_or (option_map (λ k. k.now) result) (kinds_in (find (λ k. bytes_eq k.0 word.now) more)) }
{
    if is(b"to-chits", word) {
        Some(&[Kind::Node, Kind::Other, Kind::Id, Kind::Id])
    } else if is(b"to-frontier", word) || is(b"to-accepted", word) {
        Some(&[Kind::Node, Kind::Other, Kind::Id])
    } else if is(b"to-ancestors", word) || is(b"to-block", word) {
        Some(&[Kind::Node, Kind::Other, Kind::Block])
    } else if is(b"fork", word) || is(b"refused", word) {
        Some(&[Kind::Id])
    } else if is(b"conflict", word) {
        Some(&[Kind::Other, Kind::Id])
    } else {
        None
    }
}
