ghost use Rattle.std.specs.Prelude.{◌≡◌, ℕ, ◌+◌, ◌^◌, ◌<◌, ◌≤◌, ◌++◌, Bool, List, length, IsPermutation, if◌then◌else◌};
ghost use Rattle.std.specs.Option.{option_to_list};
ghost use Rattle.snow_base.specs.Clauses.Gathered.{one_each};
ghost use Rattle.snow_base.specs.Model.Votes.{total_count};
ghost use Rattle.snow_base.specs.declared.block.Vote.{Vote};
ghost use Rattle.snow_flake.specs.Model.Parameters.{Parameters};
ghost use Rattle.snow_climb.specs.Kept.Climbing.{begun};
ghost use Rattle.snow_climb.specs.Kept.Ladder.{KeepsRoom, IsReady};
ghost use Rattle.snow_climb.specs.Kept.Starting.{share, votes_by, ids_by, HaveStarted, HaveAllStarted, HaveBegun, IsLoaded, TakesMore};

use crate::climber::pass;
use crate::ladder::Ladder;
use crate::naming::all_named;
use snow_base::{Id, Vote};
use snow_tree::Tree;

// Starts the votes that a seat gathered, if there are any, past their own block; those for a block that isn't
// pending count nowhere.
fn start_waiting<T: Drop>(tree: &Tree<T>, ladder: &mut Ladder, vote: &Vote)
    requires room { (ladder.old).put + vote.now.count ≤ (ladder.old).most }
    requires low { length (tree.now).pending < (ladder.old).low }
    ensures started { (others counted : (List ℕ → Bool) → ℕ) → HaveStarted (tree.now).pending (λ test. share test vote.now + others test) counted (ladder.old).climbers
        → HaveStarted (tree.now).pending others counted (ladder.new).climbers }
    ensures put { (ladder.new).put ≤ (ladder.old).put + vote.now.count }
    ensures low { (ladder.new).low ≡ (ladder.old).low }
    ensures room { KeepsRoom ladder.old ladder.new }
{
    if vote.count == 0 {
        return;
    }
    if let Some(at) = tree.place_of(&vote.id) {
        pass(tree, at, vote.count, ladder);
    }
}

// All votes that waited begin.
fn start_all_waiting<T: Drop>(tree: &Tree<T>, ladder: &mut Ladder, votes: &[Vote])
    requires room { (ladder.old).put + total_count votes.now ≤ (ladder.old).most }
    requires low { length (tree.now).pending < (ladder.old).low }
    ensures started { (counted : (List ℕ → Bool) → ℕ) → HaveStarted (tree.now).pending (λ test. votes_by test votes.now) counted (ladder.old).climbers
        → HaveStarted (tree.now).pending (λ test. 0) counted (ladder.new).climbers }
    ensures put { (ladder.new).put ≤ (ladder.old).put + total_count votes.now }
    ensures low { (ladder.new).low ≡ (ladder.old).low }
    ensures room { KeepsRoom ladder.old ladder.new }
{
    for vote in votes {
        start_waiting(tree, ladder, vote);
    }
}

/// Puts the votes of a poll on an empty ladder, each past its own block, where this is pending. The
/// ladder is ready for the pending blocks and for so many votes, so it takes no memory.
/// Rule: AvalancheGo, snow/consensus/snowman.
pub fn start_votes<T: Drop>(tree: &Tree<T>, ladder: &mut Ladder, votes: &[Vote])
    requires ready { IsReady (length (tree.now).pending) ladder.old }
    requires few { total_count votes.now ≤ (ladder.old).votes }
    ensures begun { (p : Parameters) → total_count votes.now ≤ p.k → HaveBegun p votes.now (tree.now).pending ladder.new }
    ensures loaded { IsLoaded (tree.now).pending ladder.new }
    ensures few { length (ladder.new).climbers ≤ total_count votes.now }
    ensures room { KeepsRoom ladder.old ladder.new }
{
    let _last = tree.last();
    ladder.begin();
    start_all_waiting(tree, ladder, votes);
}

// One vote more for a block. It waits with those that wait for the same one; those for another begin, and
// it waits alone.
fn count_one<T: Drop>(tree: &Tree<T>, ladder: &mut Ladder, waiting: &mut Vote, id: &Id)
    requires room { (ladder.old).put + waiting.old.count ≤ (ladder.old).most }
    requires few { waiting.old.count + 1 < 2 ^ 32 }
    requires low { length (tree.now).pending < (ladder.old).low }
    ensures started { (others counted : (List ℕ → Bool) → ℕ) → HaveStarted (tree.now).pending (λ test. share test waiting.old + others test) counted (ladder.old).climbers
        → HaveStarted (tree.now).pending (λ test. share test waiting.new + others test) (λ test. (if test id.now then 1 else 0) + counted test) (ladder.new).climbers }
    ensures put { (ladder.new).put + waiting.new.count ≤ (ladder.old).put + waiting.old.count + 1 }
    ensures more { waiting.new.count ≤ waiting.old.count + 1 }
    ensures low { (ladder.new).low ≡ (ladder.old).low }
    ensures room { KeepsRoom ladder.old ladder.new }
{
    if waiting.id == *id {
        waiting.count += 1;
    } else {
        start_waiting(tree, ladder, waiting);
        *waiting = Vote { id: *id, count: 1 };
    }
}

// At so many seats votes wait.
const SEATS: usize = 16;

// At which of so many seats, a power of two, votes for a block wait. Votes for different blocks mostly wait
// at different seats.
fn seat_of(id: &Id, seats: usize) -> usize
    requires { 0 < seats }
    ensures { result < seats }
{
    usize::from(id.as_bytes()[0]) & (seats - 1)
}

// One vote more for each of these identifiers.
fn count_each<T: Drop>(tree: &Tree<T>, ladder: &mut Ladder, waiting: &mut [Vote], ids: &[Id])
    requires seats { 0 < length waiting.old }
    requires room { (ladder.old).put + total_count waiting.old + length ids.now ≤ (ladder.old).most }
    requires few { total_count waiting.old + length ids.now < 2 ^ 32 }
    requires low { length (tree.now).pending < (ladder.old).low }
    ensures started { (counted : (List ℕ → Bool) → ℕ) → HaveStarted (tree.now).pending (λ test. votes_by test waiting.old) counted (ladder.old).climbers
        → HaveStarted (tree.now).pending (λ test. votes_by test waiting.new) (λ test. ids_by test ids.now + counted test) (ladder.new).climbers }
    ensures put { (ladder.new).put + total_count waiting.new ≤ (ladder.old).put + total_count waiting.old + length ids.now }
    ensures low { (ladder.new).low ≡ (ladder.old).low }
    ensures room { KeepsRoom ladder.old ladder.new }
{
    let seats = waiting.len();
    for id in ids {
        let seat = &mut waiting[seat_of(id, seats)];
        count_one(tree, ladder, seat, id);
    }
}

// Seats all votes, where nobody waits before or afterwards.
fn seat_each<T: Drop>(tree: &Tree<T>, ladder: &mut Ladder, waiting: &mut [Vote], ids: &[Id])
    requires seats { 0 < length waiting.old }
    requires empty { (test : List ℕ → Bool) → votes_by test waiting.old ≡ 0 }
    requires nobody { total_count waiting.old ≡ 0 }
    requires more { TakesMore (length (tree.now).pending) (length ids.now) ladder.old }
    ensures { HaveAllStarted (tree.now).pending ids.now ladder.old ladder.new }
{
    count_each(tree, ladder, waiting, ids);
    start_all_waiting(tree, ladder, waiting);
}

// Starts votes so that most of those for one block go on as one.
fn start_by_seats<T: Drop>(tree: &Tree<T>, ladder: &mut Ladder, ids: &[Id])
    requires { TakesMore (length (tree.now).pending) (length ids.now) ladder.old }
    ensures { HaveAllStarted (tree.now).pending ids.now ladder.old ladder.new }
{
    let nobody = Vote {
        id: Id::from_bytes([0; 32]),
        count: 0,
    };
    seat_each(tree, ladder, &mut [nobody; SEATS], ids);
}

/// Puts one vote for each of these identifiers on an empty ladder, past its own block, where this is
/// pending. The ladder is ready for the pending blocks and for so many votes, so it takes no memory.
/// Rule: AvalancheGo, snow/consensus/snowman.
pub fn start_each<T: Drop>(tree: &Tree<T>, ladder: &mut Ladder, ids: &[Id])
    requires ready { IsReady (length (tree.now).pending) ladder.old }
    requires few { length ids.now ≤ (ladder.old).votes }
    requires small { length ids.now < 2 ^ 32 }
    ensures begun { (p : Parameters) → length ids.now ≤ p.k → HaveBegun p (one_each ids.now) (tree.now).pending ladder.new }
    ensures loaded { IsLoaded (tree.now).pending ladder.new }
    ensures few { length (ladder.new).climbers ≤ length ids.now }
    ensures room { KeepsRoom ladder.old ladder.new }
{
    let _last = tree.last();
    all_named(ids);
    ladder.begin();
    start_by_seats(tree, ladder, ids);
}
