ghost use Rattle.std.specs.Prelude.{◌≡◌, ◌^◌, ◌<◌, ◌≤◌, [], ◌∷◌, length, bytes_eq, IfSome};
ghost use Rattle.snow_base.specs.Clauses.Gathered.{one_each};
ghost use Rattle.snow_climb.specs.Kept.Majority.{StandsForPoll, StandFor};
ghost use Rattle.snow_climb.specs.Kept.Starting.{ids_by};

use crate::naming::all_named;
use snow_base::{Id, Vote};
use snow_flake::Params;

// So many votes are looked at first.
const FIRST: usize = 16;

// Some bits of an identifier, by its ends. They are enough for a guess.
fn some_bits(id: &Id) -> u32 {
    let bytes = id.as_bytes();
    u32::from_le_bytes([bytes[0], bytes[1], bytes[30], bytes[31]])
}

// A vote for what most of the first votes are for, if it is ahead: each vote for another takes one off.
// Whoever asks counts all.
fn likely_main(ids: &[Id]) -> Option<usize>
    requires { 0 < length ids.now }
    ensures { IfSome result (λ at. at < length ids.now) }
{
    let few = ids.len().min(FIRST);
    let mut main = 0;
    let mut bits = some_bits(&ids[0]);
    let mut lead: u32 = 0;
    for at in 0..few {
        let others = some_bits(&ids[at]);
        if others == bits {
            lead = lead.wrapping_add(1);
        } else if lead > 0 {
            lead -= 1;
        } else {
            main = at;
            bits = others;
            lead = 1;
        }
    }
    if lead > 1 { Some(main) } else { None }
}

// How many of these votes are for an identifier.
fn count_for(ids: &[Id], main: &Id) -> u32
    requires { length ids.now < 2 ^ 32 }
    ensures { result ≡ ids_by (λ id. bytes_eq id main.now) ids.now }
{
    let mut count = 0;
    for id in ids {
        if *id == *main {
            count += 1;
        }
    }
    count
}

// A vote for one identifier with AlphaConfidence votes, where the guess finds one.
fn find_main(params: &Params, ids: &[Id]) -> Option<Vote>
    requires { length ids.now ≤ params.now.k }
    ensures { IfSome result (λ one. StandsForPoll params.now ids.now one) }
{
    let _k = params.k();
    if ids.is_empty() {
        return None;
    }
    let at = likely_main(ids)?;
    let main = ids[at];
    let count = count_for(ids, &main);
    if count < params.alpha_confidence() {
        return None;
    }
    Some(Vote { id: main, count })
}

/// Returns one vote that stands for all of a poll, or `None`. Where AlphaConfidence votes are for
/// one identifier, all others are fewer than AlphaPreference, and no counter sees them. It guesses
/// the identifier from the first votes, so it may return `None` where there is one.
/// Rule: this project's own.
pub fn main_vote(params: &Params, ids: &[Id]) -> Option<Vote>
    requires { length ids.now ≤ params.now.k }
    ensures most { IfSome result (λ one. one.count ≤ params.now.k) }
    ensures alike { IfSome result (λ one. StandFor params.now (one ∷ []) (one_each ids.now)) }
{
    all_named(ids);
    find_main(params, ids)
}
