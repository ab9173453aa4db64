ghost use Rattle.std.specs.Prelude.{◌≡◌, ◌<◌, true, false, All, length, find, is_some, if◌then◌else◌};
ghost use Rattle.std.specs.List.{position_or_len};
ghost use Rattle.snow_board.specs.Model.Board as model;
ghost use Rattle.snow_lineup.specs.declared.marks.Mark.TheVariants.{New};
ghost use Rattle.snow_issue.specs.Model.Settling.{is_hopeless_by, is_free_by};
ghost use Rattle.snow_issue.specs.Model.Offering.{is_on};
ghost use Rattle.snow_issue.specs.Kept.Known.{items_of, sight, Tells, NoneNew, NoneRipe};
ghost use Rattle.snow_lineup.specs.Kept.Marks.{has};
ghost use Rattle.snow_gets.specs.Model.Gets.{without};
ghost use Rattle.snow_issue.specs.Kept.Keeping.{StaysQuiet};

use crate::offering::is_on;
use crate::waiting::WaitingList;
use snow_base::{Header, Id};
use snow_board::Board;
use snow_gets::Gets;
use snow_held::{Held, Replies};
use snow_lineup::Mark;

// What a look at a waiting block tells; nothing where it is hopeless.
fn look<B: Board>(waiting: &WaitingList, gets: &Gets, board: &B, block: &Header) -> Option<Mark>
    ensures { result ≡ sight (items_of waiting.now) gets.now (B.board board.now) block.now }
{
    if is_on(board, &block.parent) {
        return Some(Mark::Ripe);
    }
    if gets.asks_for(&block.parent) || waiting.waits_below(block) {
        return Some(Mark::Quiet);
    }
    None
}

/// Where the earliest hopeless block stands, or how many blocks wait. Each block of which nothing was
/// remembered is looked at, up to there.
pub(crate) fn first_hopeless<B: Board>(waiting: &mut WaitingList, gets: &Gets, board: &B) -> usize
    requires { All (Tells (items_of waiting.old) gets.now (B.board board.now)) waiting.old }
    ensures first { result ≡ position_or_len (is_hopeless_by (items_of waiting.old) gets.now (B.board board.now)) (items_of waiting.old) }
    ensures same { items_of waiting.new ≡ items_of waiting.old }
    ensures tells { All (Tells (items_of waiting.new) gets.now (B.board board.now)) waiting.new }
    ensures seen { length waiting.new ≡ result → length waiting.new ≡ position_or_len (has New) waiting.new }
{
    loop {
        let at = waiting.first(Mark::New);
        if at >= waiting.len() {
            return at;
        }
        match look(waiting, gets, board, waiting.header(at)) {
            Some(mark) => waiting.set(at, mark),
            None => return at,
        }
    }
}

// Marks the block at a place as quiet, where it is a child of `parent` and isn't hopeless. `parent`
// isn't on the board.
fn mark_quiet_at(waiting: &mut WaitingList, gets: &Gets, at: usize, parent: &Id)
    requires { at < length waiting.old }
    ensures same { items_of waiting.new ≡ items_of waiting.old }
    ensures tells { (b : model.Board) → is_on b parent.now ≡ false → All (Tells (items_of waiting.old) gets.now b) waiting.old → All (Tells (items_of waiting.new) gets.now b) waiting.new }
    ensures ripe { NoneRipe waiting.old → NoneRipe waiting.new }
{
    let block = waiting.header(at);
    if block.parent == *parent && (gets.asks_for(&block.parent) || waiting.waits_below(block)) {
        waiting.set(at, Mark::Quiet);
    }
}

/// Marks the block that came last as quiet, and the one before it where that is its child. It
/// returns whether each block is marked then, and none is ripe.
pub(crate) fn mark_last_quiet(waiting: &mut WaitingList, gets: &Gets, block: &Header) -> bool
    ensures same { items_of waiting.new ≡ items_of waiting.old }
    ensures tells { (b : model.Board) → is_on b block.now.id ≡ false → is_on b block.now.parent ≡ false → All (Tells (items_of waiting.old) gets.now b) waiting.old → All (Tells (items_of waiting.new) gets.now b) waiting.new }
    ensures ripe { NoneRipe waiting.old → NoneRipe waiting.new }
    ensures seen { result ≡ true → NoneNew waiting.new }
    ensures calm { result ≡ true → NoneRipe waiting.new }
{
    let len = waiting.len();
    if len < 2 {
        return false;
    }
    mark_quiet_at(waiting, gets, len - 1, &block.parent);
    mark_quiet_at(waiting, gets, len - 2, &block.id);
    let _ = waiting.first(Mark::New);
    waiting.all_quiet()
}

/// Whether the block of a reply neither waits nor is asked for.
pub(crate) fn is_free(waiting: &WaitingList, gets: &Gets, reply: &Held) -> bool
    ensures { result ≡ is_free_by (items_of waiting.now) gets.now reply.now }
{
    !(waiting.waits(&reply.id) || gets.asks_for(&reply.id))
}

/// Takes the earliest free reply out and returns it, if there is one. It is then the first one that
/// is to be looked at: each before it of which nothing was remembered is looked at. It takes no
/// memory.
pub(crate) fn take_free(replies: &mut Replies, waiting: &WaitingList, gets: &Gets) -> Option<Held>
    requires { All (StaysQuiet (items_of waiting.now) gets.now) replies.old }
    ensures found { result ≡ find (is_free_by (items_of waiting.now) gets.now) (items_of replies.old) }
    ensures left { items_of replies.new ≡ (if is_some result then without (is_free_by (items_of waiting.now) gets.now) (items_of replies.old) else items_of replies.old) }
    ensures quiet { All (StaysQuiet (items_of waiting.now) gets.now) replies.new }
{
    while let Some(reply) = replies.first() {
        if is_free(waiting, gets, &reply) {
            return replies.take_first();
        }
        replies.mark_first_quiet();
    }
    None
}
