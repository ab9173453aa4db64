ghost use Rattle.std.specs.Prelude.{◌≡◌, ◌+◌, ◌^◌, ◌<◌, ◌≤◌};
ghost use Rattle.snow_base.specs.Model.Votes.{total_count, most_count, IsInBitOrder, IsPlaceOf};
ghost use Rattle.snow_poll.specs.Model.Poll.{given};
ghost use Rattle.snow_poll.specs.Kept.Tallied.{count_of};

use snow_base::{Bag, Id, Vote};

// So few identifiers have their counts looked at sooner than one of them is found.
const FEW: usize = 8;

// Gives votes, for which there is room, to what a reply names, and answers the most that one
// identifier has then. Before, one has `most`.
#[tactic(auto, using(crate::proofs::Counting::most_added))]
pub(crate) fn give(votes: &mut Bag, most: u32, id: &Option<Id>, times: u32) -> u32
    requires some { 1 ≤ times }
    requires total { total_count votes.old.list + times < 2 ^ 32 }
    requires room { 1 ≤ votes.old.room }
    requires most { most ≡ most_count votes.old.list }
    ensures list { votes.new.list ≡ given votes.old.list id.now times }
    ensures most { result ≡ most_count votes.new.list }
    ensures places { votes.old.room ≤ votes.new.room + 1 }
{
    let Some(id) = id else {
        return most;
    };
    let added: Result<_, _> = votes.add(*id, times);
    let _ = added.unwrap();
    if votes.entries().len() <= FEW {
        return votes.most();
    }
    most.max(count_of(votes.entries(), id))
}

// How many votes an identifier has.
fn count_of(votes: &[Vote], id: &Id) -> u32
    requires { IsInBitOrder votes.now }
    ensures { result ≡ count_of votes.now id.now }
{
    match vote_place(votes, id) {
        Ok(at) => votes[at].count,
        Err(_) => 0,
    }
}

// Where the votes for an identifier stand, or else where new ones belong.
fn vote_place(votes: &[Vote], id: &Id) -> Result<usize, usize>
    requires { IsInBitOrder votes.now }
    ensures { IsPlaceOf votes.now id.now result }
{
    votes.binary_search_by(|vote| vote.id.bit_cmp(id))
}
