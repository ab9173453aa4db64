ghost use Rattle.std.specs.Prelude.{◌≡◌, ℕ, None, List, Result, find};
ghost use Rattle.std.specs.Str.{bytes_eq};
ghost use Rattle.snow_text_model.specs.Model.Words.{Halt, Word};
ghost use Rattle.snow_text_model.specs.Model.Names.{Names as Blocks};
ghost use Rattle.snow_text_model.specs.Model.Events.{first_word, forms, say};
ghost use Rattle.snow_say.specs.Clauses.Forms.{Entry, first_forms, form_or, second_forms, third_forms};

use snow_words::{Words, is};

/// What the fields of an event are, behind a node and the number of a request where it has them.
/// Rule: this project's own.
#[derive(Clone, Copy, Debug, PartialEq, Eq)]
pub enum Content {
    /// None.
    Nothing,
    /// An identifier.
    Id,
    /// A list of identifiers.
    Ids,
    /// A list of numbers.
    Numbers,
    /// A block.
    Block,
    /// A list of blocks.
    Blocks,
    /// A list of nodes.
    Nodes,
    /// Those of a Start.
    Start,
}

/// What a line says, by its first word.
/// Rule: this project's own.
#[derive(Clone, Copy, Debug, PartialEq, Eq)]
pub enum Form {
    /// A tag, and fields.
    Plain(u8, Content),
    /// A tag, a node, the number of a request, and fields.
    Sent(u8, Content),
    /// A line that a program wrote.
    Line,
    /// A payload as it is.
    Frame,
}

impl Form {
    /// Returns the form of the lines that begin with this word, or `None` where none does.
    /// Rule: this project's own.
    pub fn of(word: &[u8]) -> Option<Self>
        ensures { (names : Blocks) (words : List Word)
            → say (find (λ form. bytes_eq form.0 word.now) (forms names)) words ≡ form_or names result words (say None words) }
    {
        or(first(word), or(second(word), third(word)))
    }

    /// Returns the form of the line with these words, or `None` where it has none.
    /// Rule: this project's own.
    pub fn at(words: &Words) -> Option<Self>
        ensures { (names : Blocks) (more : List Word)
            → say (find (λ form. bytes_eq form.0 (first_word words.now)) (forms names)) more ≡ form_or names result more (say None more) }
    {
        match words.peek() {
            Some(word) => Form::of(word),
            None => None,
        }
    }
}

// A form that was found, or else another.
fn or(form: Option<Form>, other: Option<Form>) -> Option<Form>
    ensures { (names : Blocks) (words : List Word) (none : Result (List ℕ) Halt)
        → form_or names result words none ≡ form_or names form words (form_or names other words none) }
{
    match form {
        Some(form) => Some(form),
        None => other,
    }
}

// The form among the first.
#[tactic(auto, unfolding(snow_words::specs::Clauses::Listing::items_of, crate::specs::Clauses::Forms::field_of, crate::specs::Clauses::Forms::ids_field, crate::specs::Clauses::Forms::block_field, crate::specs::Clauses::Forms::blocks_field))]
fn first(word: &[u8]) -> Option<Form>
    ensures { (names : Blocks) (words : List Word) (more : List Entry)
        → say (find (λ form. bytes_eq form.0 word.now) (first_forms names more)) words ≡ form_or names result words (say (find (λ form. bytes_eq form.0 word.now) more) words) }
{
    if is(b"start", word) {
        Some(Form::Plain(1, Content::Start))
    } else if is(b"block", word) {
        Some(Form::Sent(2, Content::Block))
    } else if is(b"poll", word) {
        Some(Form::Plain(3, Content::Ids))
    } else if is(b"words", word) {
        Some(Form::Plain(4, Content::Numbers))
    } else if is(b"chits", word) {
        Some(Form::Sent(5, Content::Id))
    } else if is(b"timeout", word) {
        Some(Form::Sent(6, Content::Nothing))
    } else {
        None
    }
}

// The form among the second.
#[tactic(auto, unfolding(snow_words::specs::Clauses::Listing::items_of, crate::specs::Clauses::Forms::field_of, crate::specs::Clauses::Forms::ids_field, crate::specs::Clauses::Forms::block_field, crate::specs::Clauses::Forms::blocks_field))]
fn second(word: &[u8]) -> Option<Form>
    ensures { (names : Blocks) (words : List Word) (more : List Entry)
        → say (find (λ form. bytes_eq form.0 word.now) (second_forms names more)) words ≡ form_or names result words (say (find (λ form. bytes_eq form.0 word.now) more) words) }
{
    if is(b"frontier", word) {
        Some(Form::Sent(7, Content::Id))
    } else if is(b"accepted", word) {
        Some(Form::Sent(8, Content::Ids))
    } else if is(b"ancestors", word) {
        Some(Form::Sent(9, Content::Blocks))
    } else if is(b"stored", word) {
        Some(Form::Plain(10, Content::Block))
    } else if is(b"validators", word) {
        Some(Form::Plain(11, Content::Nodes))
    } else if is(b"ask-query", word) {
        Some(Form::Sent(12, Content::Nothing))
    } else {
        None
    }
}

// The form among the third.
#[tactic(auto, unfolding(snow_words::specs::Clauses::Listing::items_of, crate::specs::Clauses::Forms::field_of, crate::specs::Clauses::Forms::ids_field, crate::specs::Clauses::Forms::block_field, crate::specs::Clauses::Forms::blocks_field))]
fn third(word: &[u8]) -> Option<Form>
    ensures { (names : Blocks) (words : List Word) (more : List Entry)
        → say (find (λ form. bytes_eq form.0 word.now) (third_forms names more)) words ≡ form_or names result words (say (find (λ form. bytes_eq form.0 word.now) more) words) }
{
    if is(b"ask-frontier", word) {
        Some(Form::Sent(13, Content::Nothing))
    } else if is(b"ask-accepted", word) {
        Some(Form::Sent(14, Content::Ids))
    } else if is(b"ask-ancestors", word) {
        Some(Form::Sent(15, Content::Id))
    } else if is(b"ask-block", word) {
        Some(Form::Sent(16, Content::Id))
    } else if is(b">", word) {
        Some(Form::Line)
    } else if is(b"frame", word) {
        Some(Form::Frame)
    } else {
        None
    }
}
