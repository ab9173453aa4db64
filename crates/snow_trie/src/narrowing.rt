ghost use Rattle.std.specs.Prelude.{◌≡◌, ◌+◌, ◌<◌, ◌≤◌, Bool, List, ◌∷◌, ◌++◌, All, Contains};
ghost use Rattle.snow_base.specs.Kept.Split.{AgreeBelow, HaveBit};
ghost use Rattle.snow_base.specs.Model.Votes.{IsInBitOrder, total_count};
ghost use Rattle.snow_board.specs.Kept.Walk.{votes_from};
ghost use Rattle.snow_trie.specs.Kept.Stamped.{between};
ghost use Rattle.snow_trie.specs.Kept.Polled.{IsNarrowed};

use snow_base::{Id, Vote, split};
use snow_flake::Params;

/// Returns the votes for identifiers that begin with the first `to` bits of a leader, `to` being at
/// most 256. Once it sees that fewer than AlphaPreference are left, it may return those for some of
/// these bits. The votes are at most K, in bit order.
/// Rule: AvalancheGo, snow/consensus/snowball.
pub fn narrowed<'a>(votes: &'a [Vote], leader: &Id, to: u16, params: &Params) -> &'a [Vote]
    requires order { IsInBitOrder votes.now }
    requires within { to ≤ 256 }
    requires most { total_count votes.now ≤ params.now.k }
    ensures narrowed { params.now.alpha_preference ≤ total_count result.now → IsNarrowed leader.now to votes.now result.now }
    ensures few { (front : List Bool) → votes_from 0 votes.now (between leader.now 0 to ++ front) ≤ total_count result.now }
    ensures most { total_count result.now ≤ params.now.k }
{
    let mut rest = votes;
    for bit in 0..to {
        let count = total(params, rest);
        if count < params.alpha_preference() {
            return rest;
        }
        rest = with_bit(rest, bit, leader.bit(bit));
    }
    rest
}

/// Returns how many votes there are in all, at most K.
/// Rule: AvalancheGo, snow/consensus/snowball.
pub fn total(params: &Params, votes: &[Vote]) -> u32
    requires { total_count votes.now ≤ params.now.k }
    ensures count { result ≡ total_count votes.now }
    ensures few { result ≤ params.now.k }
{
    let _k = params.k();
    votes.iter().map(|vote| vote.count).sum()
}

// The votes for identifiers with this bit. All agree on the bits before it.
fn with_bit<'a>(votes: &'a [Vote], bit: u16, is_one: bool) -> &'a [Vote]
    requires bit { bit < 256 }
    requires order { IsInBitOrder votes.now }
    requires agree { AgreeBelow bit votes.now }
    ensures order { IsInBitOrder result.now }
    ensures agree { AgreeBelow (bit + 1) result.now }
    ensures have { HaveBit bit is_one result.now }
    ensures counts { (front : List Bool) → votes_from (bit + 1) result.now front ≡ votes_from bit votes.now (is_one ∷ front) }
    ensures among { All (Contains votes.now) result.now }
{
    let at = split(votes, bit);
    if is_one { &votes[at..] } else { &votes[..at] }
}
