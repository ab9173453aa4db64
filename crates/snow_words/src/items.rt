ghost use Rattle.std.specs.Prelude.{◌≡◌, ◌+◌, ◌^◌, ◌∷◌, Err, OnOk, OnErr};
ghost use Rattle.std.specs.Option.{option_map};
ghost use Rattle.snow_text_model.specs.declared.refusal.Reason.{Reason};
ghost use Rattle.snow_words.specs.declared.stop.Why.TheVariants.{Memory};
ghost use Rattle.snow_text_model.specs.Model.Words.{parts};
ghost use Rattle.snow_text_model.specs.Model.Bytes.{number_below};
ghost use Rattle.snow_text_model.specs.Model.Events.{pair, times_of, times_word};
ghost use Rattle.snow_words.specs.Clauses.Making.{Tells, onto, tallied};
ghost use Rattle.snow_words.specs.Clauses.Listing.{halves, items_of, numbers_told, transfer_bytes, transfer_last, transfer_numbers, transfer_to, weighed_bytes};

use crate::bytes::{MOST_TIMES, number_word};
use crate::names::{Names, item_word};
use crate::number::{Width, number_up_to};
use crate::output::Output;
use crate::parts::place;
use crate::stop::Why;
use snow_text_model::Reason;

/// What stands in a list.
/// Rule: this project's own.
#[derive(Clone, Copy, Debug, PartialEq, Eq)]
pub enum Item {
    /// A number of eight bytes, or one again and again.
    Number,
    /// An identifier.
    Id,
    /// A node and its weight.
    Node,
    /// A transfer.
    Transfer,
}

/// Appends the items that a word says, and counts them. It returns the model's reason exactly where
/// the word says none.
/// Rule: this project's own.
#[tactic(auto, using(crate::proofs::Listed::tallying), unfolding(crate::specs::Clauses::Listing::items_of))]
pub fn item_more(
    item: Item,
    names: &Names,
    word: &[u8],
    out: &mut Output,
    count: &mut usize,
) -> Result<(), Why>
    ensures { Tells result (out.new, count.new) (tallied out.old count.old (items_of names.now item word.now)) }
{
    match item {
        Item::Number => return times_word(word, out, count),
        Item::Id => item_word(names, 32, word, out)?,
        Item::Node => weighed_word(names, word, out)?,
        Item::Transfer => transfer_word(word, out)?,
    }
    count_more(count, 1)
}

/// Counts so many items more.
/// Rule: this project's own.
pub fn count_more(count: &mut usize, times: usize) -> Result<(), Why>
    ensures ok { OnOk result (count.new ≡ count.old + times) }
    ensures err { OnErr result (result ≡ Err Memory) }
{
    match count.checked_add(times) {
        Some(more) => {
            *count = more;
            Ok(())
        }
        None => Err(Why::Memory),
    }
}

// Numbers of eight bytes: one, or one again and again.
#[tactic(auto, using(crate::proofs::Listed::times_one, crate::proofs::Listed::tallying))]
fn times_word(word: &[u8], out: &mut Output, count: &mut usize) -> Result<(), Why>
    ensures { Tells result (out.new, count.new) (tallied out.old count.old (times_word word.now)) }
{
    match place(b'*', word) {
        None => {
            number_word(Width::Eight, word, out)?;
            count_more(count, 1)
        }
        Some(at) => times_again(&word[..at], &word[at + 1..], out, count),
    }
}

// A number with a star, where one more isn't taken.
#[tactic(auto, using(crate::proofs::Listed::times_two, crate::proofs::Listed::times_many))]
fn times_again(number: &[u8], times: &[u8], out: &mut Output, count: &mut usize) -> Result<(), Why>
    ensures { Tells result (out.new, count.new) (tallied out.old count.old (times_of (number.now ∷ parts 42 times.now))) }
{
    match place(b'*', times) {
        None => numbers(number, times, out, count),
        Some(_) => Err(Why::Not(Reason::Number)),
    }
}

// A number again and again.
#[tactic(auto, using(crate::proofs::Listed::numbers_more, crate::proofs::Listed::numbers_none, crate::proofs::Listed::numbers_uncounted))]
fn numbers(number: &[u8], times: &[u8], out: &mut Output, count: &mut usize) -> Result<(), Why>
    ensures { Tells result (out.new, count.new) (tallied out.old count.old
        (numbers_told (number_below (2 ^ 64) number.now) (number_below 4194305 times.now))) }
{
    let number = number_up_to(u64::MAX, number)?;
    let times = number_up_to(MOST_TIMES, times)?;
    out.numbers(number, times as usize)?;
    count_more(count, times as usize)
}

/// Returns the two parts of a word between bytes `mark`, or `None` exactly where there aren't two.
/// Rule: this project's own.
#[tactic(auto, using(crate::proofs::Listed::halves_one, crate::proofs::Listed::halves_more))]
pub fn halves(mark: u8, word: &[u8]) -> Option<(&[u8], &[u8])>
    ensures { (why : Reason) → pair why (parts mark word.now) ≡ halves why (option_map (λ p. (p.0.now, p.1.now)) result) }
{
    match place(mark, word) {
        None => None,
        Some(at) => last_half(mark, &word[..at], &word[at + 1..]),
    }
}

// A part and the one behind it, where that is the last.
#[tactic(auto, using(crate::proofs::Listed::halves_two, crate::proofs::Listed::halves_many))]
fn last_half<'a>(mark: u8, front: &'a [u8], behind: &'a [u8]) -> Option<(&'a [u8], &'a [u8])>
    ensures { (why : Reason) → pair why (front.now ∷ parts mark behind.now) ≡ halves why (option_map (λ p. (p.0.now, p.1.now)) result) }
{
    match place(mark, behind) {
        None => Some((front, behind)),
        Some(_) => None,
    }
}

// A node and its weight.
#[tactic(auto, using(crate::proofs::Listed::joining), unfolding(crate::specs::Clauses::Listing::weighed_bytes))]
fn weighed_word(names: &Names, word: &[u8], out: &mut Output) -> Result<(), Why>
    ensures { Tells result out.new (onto out.old (weighed_bytes names.now word.now)) }
{
    match halves(b':', word) {
        None => Err(Why::Not(Reason::Node)),
        Some((node, weight)) => {
            item_word(names, 20, node, out)?;
            number_word(Width::Eight, weight, out)
        }
    }
}

// A transfer: FROM>TO:AMOUNT@SEQUENCE.
#[tactic(auto, unfolding(crate::specs::Clauses::Listing::transfer_bytes))]
fn transfer_word(word: &[u8], out: &mut Output) -> Result<(), Why>
    ensures { Tells result out.new (onto out.old (transfer_bytes word.now)) }
{
    match halves(b'>', word) {
        None => Err(Why::Not(Reason::Transfer)),
        Some((from, behind)) => transfer_to(from, behind, out),
    }
}

// A transfer whose first word is known.
fn transfer_to(from: &[u8], word: &[u8], out: &mut Output) -> Result<(), Why>
    ensures { Tells result out.new (onto out.old (transfer_to from.now word.now)) }
{
    match halves(b':', word) {
        None => Err(Why::Not(Reason::Transfer)),
        Some((to, behind)) => transfer_last(from, to, behind, out),
    }
}

// A transfer whose first two words are known.
fn transfer_last(from: &[u8], to: &[u8], word: &[u8], out: &mut Output) -> Result<(), Why>
    ensures { Tells result out.new (onto out.old (transfer_last from.now to.now word.now)) }
{
    match halves(b'@', word) {
        None => Err(Why::Not(Reason::Transfer)),
        Some((amount, sequence)) => transfer_numbers(from, to, amount, sequence, out),
    }
}

// The numbers of a transfer.
#[tactic(auto, using(crate::proofs::Listed::joining))]
fn transfer_numbers(
    from: &[u8],
    to: &[u8],
    amount: &[u8],
    sequence: &[u8],
    out: &mut Output,
) -> Result<(), Why>
    ensures { Tells result out.new (onto out.old (transfer_numbers from.now to.now amount.now sequence.now)) }
{
    number_word(Width::Two, from, out)?;
    number_word(Width::Two, to, out)?;
    number_word(Width::Eight, amount, out)?;
    number_word(Width::Eight, sequence, out)
}
