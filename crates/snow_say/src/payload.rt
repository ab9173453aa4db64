ghost use Rattle.snow_text_model.specs.Model.Words.{one};
ghost use Rattle.snow_text_model.specs.Model.Events.{nodes_field, payload_of, sent, tagged};
ghost use Rattle.snow_words.specs.declared.items.Item.TheVariants as item;
ghost use Rattle.snow_words.specs.Clauses.Making.{Reads, ahead, onto};
ghost use Rattle.snow_say.specs.Clauses.Forms.{block_field, blocks_field, field_of, form_in, ids_field};
ghost use Rattle.snow_words.specs.Clauses.Listing.{list_of};

use crate::block::{blocks_of, sized_block};
use crate::chain::bytes_of;
use crate::form::{Content, Form};
use crate::line::line;
use crate::start::start;
use snow_text_model::Reason;
use snow_words::{Item, Names, Output, Stop, Width, Words, fields, list_word};

/// Takes words and appends the payload of a frame that they say. It returns the model's stop
/// exactly where they say none.
/// Rule: this project's own.
#[tactic(auto, using(crate::proofs::Paid::said_as, crate::proofs::Paid::said_by))]
pub fn payload_of(names: &Names, words: &mut Words, out: &mut Output) -> Result<(), Stop>
    ensures { Reads result out.new (onto out.old (payload_of names.now words.old)) }
{
    match Form::at(words) {
        None => Err(Stop::At(Reason::Name, words.count())),
        Some(form) => {
            let _ = words.next();
            form_in(form, names, words, out)
        }
    }
}

// The payload that words say in a form.
fn form_in(form: Form, names: &Names, words: &mut Words, out: &mut Output) -> Result<(), Stop>
    ensures { Reads result out.new (onto out.old (form_in names.now form words.old)) }
{
    match form {
        Form::Plain(tag, content) => plain(tag, content, names, words, out),
        Form::Sent(tag, content) => sent(tag, content, names, words, out),
        Form::Line => line(names, words, out),
        Form::Frame => bytes_of(names, words, out),
    }
}

// A tag, and fields.
#[tactic(auto, using(crate::proofs::Chained::ending, crate::proofs::Paid::tagging))]
fn plain(
    tag: u8,
    content: Content,
    names: &Names,
    words: &mut Words,
    out: &mut Output,
) -> Result<(), Stop>
    ensures { Reads result out.new (onto out.old (tagged tag (field_of names.now content) words.old)) }
{
    out.push(tag)?;
    field(content, names, words, out)?;
    words.end()
}

// A tag, a node, the number of a request, and fields.
#[tactic(auto, using(crate::proofs::Chained::ending, crate::proofs::Paid::tagging))]
fn sent(
    tag: u8,
    content: Content,
    names: &Names,
    words: &mut Words,
    out: &mut Output,
) -> Result<(), Stop>
    ensures { Reads result out.new (onto out.old (tagged tag (sent names.now (field_of names.now content)) words.old)) }
{
    out.push(tag)?;
    sent_field(content, names, words, out)?;
    words.end()
}

// A node, the number of a request, and fields.
#[tactic(auto, using(crate::proofs::Chained::fielding))]
fn sent_field(
    content: Content,
    names: &Names,
    words: &mut Words,
    out: &mut Output,
) -> Result<(), Stop>
    ensures { Reads result (out.new, words.new) (ahead out.old (sent names.now (field_of names.now content) words.old)) }
{
    fields::item(20, names, words, out)?;
    fields::number(Width::Four, words, out)?;
    field(content, names, words, out)
}

// Fields.
#[tactic(auto, unfolding(crate::specs::Clauses::Forms::field_of))]
fn field(content: Content, names: &Names, words: &mut Words, out: &mut Output) -> Result<(), Stop>
    ensures { Reads result (out.new, words.new) (ahead out.old (field_of names.now content words.old)) }
{
    match content {
        Content::Nothing => Ok(()),
        Content::Id => fields::item(32, names, words, out),
        Content::Ids => ids(names, words, out),
        Content::Numbers => fields::list(Item::Number, names, words, out),
        Content::Block => block(names, words, out),
        Content::Blocks => blocks(names, words, out),
        Content::Nodes => nodes(names, words, out),
        Content::Start => start(names, words, out),
    }
}

// A list of identifiers.
#[tactic(auto, unfolding(crate::specs::Clauses::Forms::ids_field))]
fn ids(names: &Names, words: &mut Words, out: &mut Output) -> Result<(), Stop>
    ensures { Reads result (out.new, words.new) (ahead out.old (ids_field names.now words.old)) }
{
    fields::list(Item::Id, names, words, out)
}

// A block behind its length.
#[tactic(auto, using(crate::proofs::Chained::wholes), unfolding(crate::specs::Clauses::Forms::block_field))]
fn block(names: &Names, words: &mut Words, out: &mut Output) -> Result<(), Stop>
    ensures { Reads result (out.new, words.new) (ahead out.old (block_field names.now words.old)) }
{
    sized_block(names, words, out)
}

// A list of blocks.
#[tactic(auto, using(crate::proofs::Chained::wholes), unfolding(crate::specs::Clauses::Forms::blocks_field))]
fn blocks(names: &Names, words: &mut Words, out: &mut Output) -> Result<(), Stop>
    ensures { Reads result (out.new, words.new) (ahead out.old (blocks_field names.now words.old)) }
{
    blocks_of(names, words, out)
}

// Nodes with commas between them, or none.
#[tactic(auto, using(crate::proofs::Paid::no_nodes, crate::proofs::Paid::some_nodes))]
fn nodes(names: &Names, words: &mut Words, out: &mut Output) -> Result<(), Stop>
    ensures { Reads result (out.new, words.new) (ahead out.old (nodes_field names.now words.old)) }
{
    if words.is_empty() {
        out.append(&[0, 0])?;
        return Ok(());
    }
    node_list(names, words, out)
}

// Nodes with commas between them, in a word.
#[tactic(auto, using(crate::proofs::Paid::nodes_told, crate::proofs::Paid::nodes_none))]
fn node_list(names: &Names, words: &mut Words, out: &mut Output) -> Result<(), Stop>
    ensures { Reads result (out.new, words.new) (ahead out.old (one (list_of names.now item.Node) words.old)) }
{
    let word = words.take()?;
    words.at(list_word(Item::Node, names, word, out))
}
