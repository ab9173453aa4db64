ghost use Rattle.std.specs.Prelude.{◌≡◌, ◌<◌, ◌≤◌, true, None, IfSome, find, is_some, map, length, HoldsAt, if◌then◌else◌};
ghost use Rattle.std.specs.List.{position_or_len, remove};
ghost use Rattle.snow_lineup.specs.declared.marks.Mark.TheVariants.{New};
ghost use Rattle.snow_issue.specs.Model.Settling.{is_hopeless, is_ready, is_free, gone_with};
ghost use Rattle.snow_board.specs.Model.Board as model;
ghost use Rattle.snow_gets.specs.Model.Gets.{without};
ghost use Rattle.snow_issue.specs.Model.Lists.{is_asked, AreWithinLimits};
ghost use Rattle.snow_issue.specs.Kept.Known.{items_of, lists_of, Knows, NoneRipe, TakesStep};
ghost use Rattle.snow_lineup.specs.Kept.Marks.{has};
ghost use Rattle.snow_lineup.specs.Kept.Index.{woken};

use crate::gone::Gone;
use crate::looking;
use crate::offering::is_on;
use crate::queue::Queue;
use crate::work::{Waiting, Work};
use snow_board::Board;
use snow_held::Held;
use snow_lineup::Mark;

impl Queue {
    /// How many blocks wait.
    pub(crate) fn blocks(&self) -> usize
        ensures { result ≡ length self.now.seats }
    {
        self.waiting.len()
    }

    /// Where the earliest hopeless block stands, or how many blocks wait: then each was looked at.
    pub(crate) fn first_hopeless<B: Board>(&mut self, board: &B) -> usize
        requires { Knows self.old (B.board board.now) }
        ensures first { result ≡ position_or_len (is_hopeless (lists_of self.new) (B.board board.now)) (lists_of self.new).waiting }
        ensures lists { lists_of self.new ≡ lists_of self.old }
        ensures knows { Knows self.new (B.board board.now) }
        ensures seen { length self.new.seats ≡ result → length self.new.seats ≡ position_or_len (has New) self.new.seats }
        ensures limits { AreWithinLimits (lists_of self.new) }
    {
        looking::first_hopeless(&mut self.waiting, &self.gets, board)
    }

    /// Where the earliest ready block stands, or how many blocks wait. Each was looked at before.
    pub(crate) fn first_ready<B: Board>(&mut self, board: &B) -> usize
        requires knows { Knows self.old (B.board board.now) }
        requires seen { length self.old.seats ≡ position_or_len (has New) self.old.seats }
        ensures first { result ≡ position_or_len (is_ready (B.board board.now)) (lists_of self.new).waiting }
        ensures same { self.new ≡ self.old }
        ensures none { length self.new.seats ≤ result → NoneRipe self.new.seats }
        ensures limits { AreWithinLimits (lists_of self.new) }
    {
        self.waiting.first(Mark::Ripe)
    }

    /// Returns where the only block marked `New` stands, if it is ready: mostly the child of the
    /// block that was issued last. Then none is hopeless, and it is the earliest ready one.
    pub(crate) fn only_new_ready<B: Board>(&self, board: &B) -> Option<usize>
        requires { Knows self.now (B.board board.now) }
        ensures there { IfSome result (λ at. at < length self.now.seats) }
        ensures none { IfSome result (λ at. find (is_hopeless (lists_of self.now) (B.board board.now)) (lists_of self.now).waiting ≡ None) }
        ensures first { IfSome result (λ at. at ≡ position_or_len (is_ready (B.board board.now)) (lists_of self.now).waiting) }
    {
        let at = self.waiting.only_new()?;
        if is_on(board, &self.waiting.header(at).parent) {
            return Some(at);
        }
        None
    }

    /// Takes the earliest hopeless block out, which stands at this place.
    pub(crate) fn take_hopeless<B: Board>(&mut self, at: usize, board: &B) -> Option<Work>
        requires there { at < length self.old.seats }
        requires first { at ≡ position_or_len (is_hopeless (lists_of self.old) (B.board board.now)) (lists_of self.old).waiting }
        requires knows { Knows self.old (B.board board.now) }
        ensures { TakesStep self.old self.new (B.board board.now) result }
    {
        let block = self.give_up(at);
        self.follow(&block);
        Some(Work::Hopeless(block))
    }

    // Takes the block at a place out, which nobody can issue. Where it is still asked for, its children
    // and the replies that name it wait on, and none is to be looked at.
    fn give_up(&mut self, at: usize) -> Waiting
        requires { at < length self.old.seats }
        ensures taken { HoldsAt (λ s. result ≡ s.0) self.old.seats at }
        ensures items { items_of self.new.seats ≡ remove (items_of self.old.seats) at }
        ensures asked { is_asked (lists_of self.old) result.header.id ≡ true → self.new.seats ≡ remove self.old.seats at }
        ensures knows { (b : model.Board) → Knows self.old b → Knows self.new b }
        ensures gets { self.new.gets ≡ self.old.gets }
        ensures held { self.new.held ≡ self.old.held }
        ensures gone { self.new.gone ≡ self.old.gone }
        ensures limits { AreWithinLimits (lists_of self.new) }
    {
        let id = self.waiting.header(at).id;
        if self.gets.asks_for(&id) {
            return self.waiting.take(at);
        }
        self.take_block(at)
    }

    /// Takes the earliest ready block out, which stands at this place, where none is hopeless.
    pub(crate) fn take_ready<B: Board>(&mut self, at: usize, board: &B) -> Option<Work>
        requires there { at < length self.old.seats }
        requires none { find (is_hopeless (lists_of self.old) (B.board board.now)) (lists_of self.old).waiting ≡ None }
        requires first { at ≡ position_or_len (is_ready (B.board board.now)) (lists_of self.old).waiting }
        requires knows { Knows self.old (B.board board.now) }
        ensures { TakesStep self.old self.new (B.board board.now) result }
    {
        Some(Work::Ready(self.take_block(at)))
    }

    // Takes the block at a place out. Its children and the replies that name it are to be looked at.
    fn take_block(&mut self, at: usize) -> Waiting
        requires { at < length self.old.seats }
        ensures taken { HoldsAt (λ s. result ≡ s.0) self.old.seats at }
        ensures left { self.new.seats ≡ map (woken (λ w. w.header.parent) result.header.id) (remove self.old.seats at) }
        ensures gets { self.new.gets ≡ self.old.gets }
        ensures held { self.new.held ≡ self.old.held }
        ensures gone { self.new.gone ≡ self.old.gone }
        ensures limits { AreWithinLimits (lists_of self.new) }
    {
        // (when it is gone, its child is mostly the last)
        let block = self.waiting.take(at);
        self.waiting.wake(&block.header.id);
        self.replies.wake(&block.header.id);
        block
    }

    // Enters a hopeless block in the gone list, where its parent was found invalid.
    fn follow(&mut self, block: &Waiting)
        ensures seats { self.new.seats ≡ self.old.seats }
        ensures gets { self.new.gets ≡ self.old.gets }
        ensures held { self.new.held ≡ self.old.held }
        ensures gone { self.new.gone ≡ gone_with self.old.gone block.now.header }
        ensures limits { AreWithinLimits (lists_of self.new) }
    {
        let header = &block.header;
        if self.gone.stands_for(&header.parent).is_some() {
            self.gone.enter(Gone {
                id: header.id,
                parent: Some(header.parent),
            });
        }
    }

    /// Takes the earliest free reply out, if there is one.
    pub(crate) fn take_vote(&mut self) -> Option<Held>
        ensures found { result ≡ find (is_free (lists_of self.old)) self.old.held }
        ensures held { self.new.held ≡ (if is_some result then without (is_free (lists_of self.old)) self.old.held else self.old.held) }
        ensures seats { self.new.seats ≡ self.old.seats }
        ensures gets { self.new.gets ≡ self.old.gets }
        ensures gone { self.new.gone ≡ self.old.gone }
        ensures limits { AreWithinLimits (lists_of self.new) }
    {
        looking::take_free(&mut self.replies, &self.waiting, &self.gets)
    }
}
