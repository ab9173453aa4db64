//! The lines of events.

ghost use Rattle.std.specs.Prelude.{◌≡◌, false, [], ◌∷◌, ◌++◌, codes, map};
ghost use Rattle.byteorder.specs.Endian.{big_number};
ghost use Rattle.snow_wire.specs.Model.Spelling.{flag};
ghost use Rattle.snow_wire.specs.Clauses.Spelled.{as_start, weighed_in};
ghost use Rattle.snow_wire.specs.Clauses.Viewed.{as_event};
ghost use Rattle.snow_text_model.specs.Model.Blocks.{block_line, block_words};
ghost use Rattle.snow_text_model.specs.Model.Bytes.{fixed_text};
ghost use Rattle.snow_text_model.specs.Model.Shown.{event_words, is_line, line, sent_words, some_word, start_words, times_texts, weighed_text};
ghost use Rattle.snow_show.specs.Clauses.Putting.{Puts};
ghost use Rattle.snow_show.specs.Kept.Listing.{first_numbers, last_fields, led, more_fields, sender_text};

use crate::blocks::put_block;
use crate::bytes::{put_fixed, put_fixed_word};
use crate::lists::{put_ids, put_nodes, put_numbers};
use crate::put::{put, put_marked_number};
use snow_text_model::BlockForm;
use snow_wire::{Brought, Listing, Named, Packed, Parcel, Sender, StartFields, View};
use std::alloc::AllocError;

/// Puts a name, a node and the number of a request behind a text.
fn put_sender(
    text: &mut Vec<u8>,
    name: &[u8],
    node: &[u8; 20],
    request: u32,
) -> Result<(), AllocError>
    ensures { Puts result text.old.items text.new.items (sender_text name.now node.now request) }
{
    put(text, name)?;
    put_fixed_word(text, node)?;
    put_marked_number(text, b" ", u64::from(request))
}

/// Puts a message with no further field behind a text.
fn put_sent(text: &mut Vec<u8>, name: &[u8], sender: &Sender) -> Result<(), AllocError>
    ensures { Puts result text.old.items text.new.items (line (sent_words name.now sender.now.node.now sender.now.request [])) }
{
    put_sender(text, name, sender.node, sender.request)
}

/// Puts a message that names a block behind a text.
fn put_named(text: &mut Vec<u8>, name: &[u8], named: &Named) -> Result<(), AllocError>
    ensures { Puts result text.old.items text.new.items (line (sent_words name.now named.now.node.now named.now.request (fixed_text named.now.id.now ∷ []))) }
{
    let id = named.id;
    put_sender(text, name, named.node, named.request)?;
    put_fixed_word(text, id)
}

/// Puts a message that names blocks behind a text.
fn put_listing(text: &mut Vec<u8>, name: &[u8], listing: &Listing) -> Result<(), AllocError>
    ensures { Puts result text.old.items text.new.items (line (sent_words name.now listing.now.node.now listing.now.request (map fixed_text listing.now.ids.now))) }
{
    put_sender(text, name, listing.node, listing.request)?;
    put_ids(text, listing.ids)
}

/// Puts a space and a block behind a text.
fn put_block_word(text: &mut Vec<u8>, form: BlockForm, bytes: &[u8]) -> Result<(), AllocError>
    ensures { Puts result text.old.items text.new.items (led (32 ∷ []) (32 ∷ []) (block_words form bytes.now)) }
{
    put(text, b" ")?;
    put_block(text, form, bytes)
}

/// Puts a message that brings a block behind a text.
fn put_brought(text: &mut Vec<u8>, form: BlockForm, brought: &Brought) -> Result<(), AllocError>
    ensures { Puts result text.old.items text.new.items (line (sent_words (codes "block") brought.now.node.now brought.now.request (block_words form brought.now.bytes.now))) }
{
    put_sender(text, b"block", brought.node, brought.request)?;
    put_block_word(text, form, brought.bytes)
}

/// Puts a mark and a block behind a text.
fn put_marked_block(
    text: &mut Vec<u8>,
    mark: &[u8],
    form: BlockForm,
    bytes: &[u8],
) -> Result<(), AllocError>
    ensures { Puts result text.old.items text.new.items (mark.now ++ block_line form bytes.now) }
{
    put(text, mark)?;
    put_block(text, form, bytes)
}

/// Puts blocks behind a text, with a space before the first, and a comma before each other.
#[tactic(auto, using(crate::proofs::Putting::going_begins, crate::proofs::Putting::going_stops))]
fn put_blocks(text: &mut Vec<u8>, form: BlockForm, blocks: &Packed) -> Result<(), AllocError>
    ensures { Puts result text.old.items text.new.items (led (32 ∷ []) (44 ∷ []) (map (block_line form) blocks.now)) }
{
    let mut mark: &[u8] = b" ";
    for block in blocks.again() {
        put_marked_block(text, mark, form, block)?;
        mark = b",";
    }
    Ok(())
}

/// Puts a message that brings blocks behind a text.
fn put_parcel(text: &mut Vec<u8>, form: BlockForm, parcel: &Parcel) -> Result<(), AllocError>
    ensures { Puts result text.old.items text.new.items
        (line (sent_words (codes "ancestors") parcel.now.node.now parcel.now.request (some_word (map (block_line form) parcel.now.blocks)))) }
{
    put_sender(text, b"ancestors", parcel.node, parcel.request)?;
    put_blocks(text, form, &parcel.blocks)
}

/// Puts the first four numbers of a Start behind a text.
fn put_first_numbers(text: &mut Vec<u8>, fields: &StartFields) -> Result<(), AllocError>
    ensures { Puts result text.old.items text.new.items (first_numbers (as_start fields.now)) }
{
    put_marked_number(text, b"start k=", u64::from(fields.k))?;
    put_marked_number(
        text,
        b" alpha-preference=",
        u64::from(fields.alpha_preference),
    )?;
    put_marked_number(
        text,
        b" alpha-confidence=",
        u64::from(fields.alpha_confidence),
    )?;
    put_marked_number(text, b" beta=", u64::from(fields.beta))
}

/// Returns 1 where a node bootstraps first, and else 0.
fn flag_of(boot: bool) -> u64
    ensures { result ≡ flag boot }
{
    if boot { 1 } else { 0 }
}

/// Puts the last block of a Start behind a text.
fn put_last(text: &mut Vec<u8>, last: &[u8; 32]) -> Result<(), AllocError>
    ensures { Puts result text.old.items text.new.items (codes " last=" ++ fixed_text last.now) }
{
    put(text, b" last=")?;
    put_fixed(text, last)
}

/// Puts the fields of a Start behind its first four numbers, up to the last block.
fn put_more_fields(text: &mut Vec<u8>, fields: &StartFields) -> Result<(), AllocError>
    ensures { Puts result text.old.items text.new.items (more_fields (as_start fields.now)) }
{
    let last = fields.last;
    put_marked_number(text, b" repolls=", u64::from(fields.repolls))?;
    put_marked_number(text, b" boot=", flag_of(fields.boot))?;
    put_last(text, last)
}

/// Puts the height of a Start, its state and its nodes behind a text.
fn put_last_fields(text: &mut Vec<u8>, fields: &StartFields) -> Result<(), AllocError>
    ensures { Puts result text.old.items text.new.items (last_fields (as_start fields.now)) }
{
    put_marked_number(text, b" height=", fields.height)?;
    put_numbers(text, b" state=", b",", fields.state)?;
    put_nodes(text, b" nodes=", fields.nodes)
}

/// Puts a Start behind a text.
fn put_start(text: &mut Vec<u8>, fields: &StartFields) -> Result<(), AllocError>
    ensures { Puts result text.old.items text.new.items (line (start_words (as_start fields.now))) }
{
    put_first_numbers(text, fields)?;
    put_more_fields(text, fields)?;
    put_last_fields(text, fields)
}

/// Puts a poll behind a text.
fn put_poll(text: &mut Vec<u8>, ids: &[[u8; 32]]) -> Result<(), AllocError>
    ensures { Puts result text.old.items text.new.items (line (codes "poll" ∷ map fixed_text ids.now)) }
{
    put(text, b"poll")?;
    put_ids(text, ids)
}

/// Puts random numbers behind a text.
fn put_words(text: &mut Vec<u8>, words: &[[u8; 8]]) -> Result<(), AllocError>
    ensures { Puts result text.old.items text.new.items (line (codes "words" ∷ times_texts (map (big_number 8) words.now))) }
{
    put(text, b"words")?;
    put_numbers(text, b" ", b" ", words)
}

/// Puts a block that was stored behind a text.
fn put_stored(text: &mut Vec<u8>, form: BlockForm, bytes: &[u8]) -> Result<(), AllocError>
    ensures { Puts result text.old.items text.new.items (line (codes "stored" ∷ block_words form bytes.now)) }
{
    put(text, b"stored")?;
    put_block_word(text, form, bytes)
}

/// Puts a set of nodes behind a text.
fn put_validators(text: &mut Vec<u8>, nodes: &[[u8; 28]]) -> Result<(), AllocError>
    ensures { Puts result text.old.items text.new.items (line (codes "validators" ∷ some_word (map weighed_text (map weighed_in nodes.now)))) }
{
    put(text, b"validators")?;
    put_nodes(text, b" ", nodes)
}

/// Puts an event that is no line of a program behind a text.
/// On want of memory it returns `AllocError`, and the text begins with what it was.
/// Rule: this project's own.
#[tactic(auto, unfolding(snow_text_model::specs::Model::Shown::event_words))]
pub fn put_event(text: &mut Vec<u8>, form: BlockForm, view: &View) -> Result<(), AllocError>
    requires { is_line (as_event view.now) ≡ false }
    ensures { Puts result text.old.items text.new.items (line (event_words form (as_event view.now))) }
{
    match view {
        View::Start(opening) => put_start(text, &opening.fields()),
        View::Block(brought) => put_brought(text, form, brought),
        View::Poll(ids) => put_poll(text, ids),
        View::Words(words) => put_words(text, words),
        View::Chits(named) => put_named(text, b"chits", named),
        View::Timeout(sender) => put_sent(text, b"timeout", sender),
        View::Frontier(named) => put_named(text, b"frontier", named),
        View::Accepted(listing) => put_listing(text, b"accepted", listing),
        View::Ancestors(parcel) => put_parcel(text, form, parcel),
        View::Stored(bytes) => put_stored(text, form, bytes),
        View::Validators(nodes) => put_validators(text, nodes),
        View::AskQuery(sender) => put_sent(text, b"ask-query", sender),
        View::AskFrontier(sender) => put_sent(text, b"ask-frontier", sender),
        View::AskAccepted(listing) => put_listing(text, b"ask-accepted", listing),
        View::AskAncestors(named) => put_named(text, b"ask-ancestors", named),
        View::AskBlock(named) => put_named(text, b"ask-block", named),
        View::Line(_) => Ok(()),
    }
}
