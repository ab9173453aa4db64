ghost use Rattle.std.specs.Prelude.{◌≡◌, ◌<◌, ◌≤◌, [], Ok, Err, IfErr, OnOk, OnErr};
ghost use Rattle.snow_sample.specs.Model.Roster.{total_weight};
ghost use Rattle.snow_sample.specs.Model.Sampling.{sample_of, IsFault, draw_count, AreOfDistinctNodes};
ghost use Rattle.snow_sample.specs.Laws.Law.{DrawsAsTheList, DrawsDistinctUnits};

use crate::draws::Draws;
use crate::line::Line;
use crate::roster::Roster;
use crate::words::Words;
use std::alloc::AllocError;
use thiserror::Error;

/// Why `Roster::sample` draws no sample: `TooFewUnits` where there are fewer units than draws,
/// `WordsOut` where the words don't suffice, `Memory` on want of memory.
/// Rule: AvalancheGo, utils/sampler.
#[derive(Clone, Copy, Debug, PartialEq, Eq, Error)]
pub enum SampleFault {
    #[error("there are only {total} units of weight")]
    TooFewUnits { total: u64 },
    #[error("the random words ran out")]
    WordsOut,
    #[error("no memory")]
    Memory,
}

impl From<AllocError> for SampleFault {
    ghost use Rattle.std.specs.Prelude.{◌≡◌};
    ghost use Rattle.snow_sample.specs.declared.sampling.SampleFault.TheVariants.{Memory};

    ghost from_gives = { λ _ fault. fault ≡ Memory };

    fn from(_: AllocError) -> Self {
        SampleFault::Memory
    }
}

impl Roster {
    /// Draws `k` units of weight without replacement, by the words at the front of `words`, and
    /// leaves in `out` how often it drew each node, in order of first draw; the counts add up to
    /// `k`. It returns `TooFewUnits` exactly where there are fewer than `k` units, and leaves the
    /// words as they were. It returns `WordsOut` where the words don't suffice, and leaves none. On
    /// want of memory it returns `Memory`, and some of the first words may be gone. At each fault
    /// `out` is empty.
    /// Rule: the Snow family paper and AvalancheGo, utils/sampler.
    pub fn sample(&self, k: u32, words: &mut Words, out: &mut Draws) -> Result<(), SampleFault>
        ensures sample { OnOk result (sample_of self.now k words.old ≡ Ok (out.new, words.new)) }
        ensures few { total_weight self.now < k → result ≡ Err (SampleFault.TooFewUnits (total_weight self.now)) }
        ensures fault { IfErr result (λ fault. IsFault (sample_of self.now k words.old) words.old fault words.new) }
        ensures empty { OnErr result (out.new ≡ []) }
        ensures counts { OnOk result (draw_count out.new ≡ k) }
        ensures nodes { OnOk result (AreOfDistinctNodes out.new) }
    {
        out.clear();
        if self.total() < u64::from(k) {
            return Err(SampleFault::TooFewUnits {
                total: self.total(),
            });
        }
        let drawn = words.draw(self, k, out);
        if drawn.is_err() {
            out.clear();
        }
        drawn
    }
}

// Draws one unit, and counts the draw of its node. It is the first, so that nothing was moved, and
// the last, so that nothing need be.
pub(crate) fn draw_one(
    roster: &Roster,
    words: &mut Line,
    inverse: u64,
    out: &mut Draws,
) -> Result<(), SampleFault>
    requires enough { 1 ≤ total_weight roster.now }
    requires empty { out.old ≡ [] }
    ensures sample { OnOk result (sample_of roster.now 1 words.old ≡ Ok (out.new, words.new)) }
    ensures fault { IfErr result (λ fault. IsFault (sample_of roster.now 1 words.old) words.old fault words.new) }
    ensures counts { OnOk result (draw_count out.new ≡ 1) }
    ensures nodes { OnOk result (AreOfDistinctNodes out.new) }
{
    let Some(unit) = words.choose(roster.total() - 1, inverse) else {
        return Err(SampleFault::WordsOut);
    };
    let at = roster.place(unit);
    out.push_first(&roster.nodes()[at].id)?;
    Ok(())
}

/// A sample draws the units that come from exchanging the elements of the whole list 0, 1, 2, .. of
/// all units, though it keeps only the positions that were moved.
/// Rule: this project's own.
#[tactic(auto, using(crate::proofs::Listing::as_listed))]
pub fn whole_list_law()
    ensures { DrawsAsTheList }
{}

/// A sample draws without replacement: no unit is drawn twice.
/// Rule: this project's own.
#[tactic(auto, using(crate::proofs::Distinct::taken_distinct))]
pub fn distinct_units_law()
    ensures { DrawsDistinctUnits }
{}
