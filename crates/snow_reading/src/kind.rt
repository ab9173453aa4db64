ghost use Rattle.std.specs.Prelude.{◌≡◌, ◌++◌};
ghost use Rattle.std.specs.Str.{bytes_eq};
ghost use Rattle.snow_reading.specs.Model.Names.{answering, asking, kind_in, telling};

use crate::field::Field;
use snow_lines::Kind;

// The kind of the lines that begin with the word.
impl Field for Kind {
    ghost use Rattle.snow_reading.specs.Model.Names.{line_kind_of};

    ghost read = { line_kind_of };

    fn of(word: &[u8]) -> Option<Self> {
        match asking(word) {
            Some(kind) => Some(kind),
            None => not_asking(word),
        }
    }
}

// The kind among those that don't ask.
fn not_asking(word: &[u8]) -> Option<Kind>
    ensures { result ≡ kind_in (telling ++ answering) word.now }
{
    match telling(word) {
        Some(kind) => Some(kind),
        None => answering(word),
    }
}

// The kind among those that ask nodes.
fn asking(word: &[u8]) -> Option<Kind>
    ensures { result ≡ kind_in asking word.now }
{
    if is(word, b"query") {
        Some(Kind::Query)
    } else if is(word, b"get") {
        Some(Kind::Get)
    } else if is(word, b"frontier") {
        Some(Kind::Frontier)
    } else if is(word, b"accepted") {
        Some(Kind::Accepted)
    } else if is(word, b"ancestors") {
        Some(Kind::Ancestors)
    } else {
        None
    }
}

// The kind among those that tell what was done.
fn telling(word: &[u8]) -> Option<Kind>
    ensures { result ≡ kind_in telling word.now }
{
    if is(word, b"accept") {
        Some(Kind::Accept)
    } else if is(word, b"reject") {
        Some(Kind::Reject)
    } else if is(word, b"prefer") {
        Some(Kind::Prefer)
    } else if is(word, b"drop") {
        Some(Kind::Drop)
    } else if is(word, b"drop-query") {
        Some(Kind::DropQuery)
    } else if is(word, b"skip") {
        Some(Kind::Skip)
    } else if is(word, b"restart") {
        Some(Kind::Restart)
    } else if is(word, b"bootstrapped") {
        Some(Kind::Bootstrapped)
    } else {
        None
    }
}

// The kind among those that answer peers.
fn answering(word: &[u8]) -> Option<Kind>
    ensures { result ≡ kind_in answering word.now }
{
    if is(word, b"to-chits") {
        Some(Kind::ToChits)
    } else if is(word, b"to-frontier") {
        Some(Kind::ToFrontier)
    } else if is(word, b"to-accepted") {
        Some(Kind::ToAccepted)
    } else if is(word, b"to-ancestors") {
        Some(Kind::ToAncestors)
    } else if is(word, b"to-block") {
        Some(Kind::ToBlock)
    } else {
        None
    }
}

/// Returns whether a word is this name.
pub(crate) fn is(word: &[u8], name: &[u8]) -> bool
    ensures { result ≡ bytes_eq word.now name.now }
{
    word == name
}
