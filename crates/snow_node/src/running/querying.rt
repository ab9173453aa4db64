ghost use Rattle.std.specs.Prelude.{◌≡◌, [], true, Err};
ghost use Rattle.snow_sample.specs.Model.Sampling.{sample_of};
ghost use Rattle.snow_node.specs.Model.Querying as model;
ghost use Rattle.snow_node.specs.Clauses.Stepping.{Answers, Tells, Turns};

use crate::running::Running;
use crate::stop::Halt;
use snow_base::limits::MOST_POLLS;
use snow_board::Board;
use snow_chain::Chain;
use snow_flake::Params;
use snow_lines::{Line, Lines, QueryWhy};
use snow_sample::{Draws, Roster, SampleFault, Words};

impl<C: Chain, B: Board> Running<C, B> {
    /// Draws nodes and asks them for the preference, and returns whether it did.
    #[tactic(auto, using(crate::proofs::Logs::logs_nothing))]
    pub(super) fn query(&mut self, log: &mut Lines) -> Result<bool, Halt>
        ensures answer { Answers result self.new (model.queried B.answer self.old).1 }
        ensures lines { Tells result log.old log.new (model.queried B.answer self.old).0 }
    {
        if self.polls.len() >= MOST_POLLS {
            return self.drop_query(QueryWhy::Full, log);
        }
        // Where no word is left, no room is made ready for a sample.
        if lacks_words(&self.params, &self.roster, &self.words) {
            return self.drop_query(QueryWhy::Words, log);
        }
        let mut draws = Draws::new(self.alloc);
        match self
            .roster
            .sample(self.params.k(), &mut self.words, &mut draws)
        {
            Ok(()) => {}
            Err(SampleFault::TooFewUnits { .. }) => return self.drop_query(QueryWhy::Units, log),
            Err(SampleFault::WordsOut) => return self.drop_query(QueryWhy::Words, log),
            Err(SampleFault::Memory) => return Err(Halt::Memory),
        }
        let Some(number) = self.numbers.draw() else {
            return Err(Halt::Requests);
        };
        // There is room for a poll, so that memory alone can run out.
        if let Err(_) = self.polls.begin(number, &draws) {
            return Err(Halt::Memory);
        }
        let id = self.board.preference();
        log.push(Line::Query { number, id, draws })?;
        Ok(true)
    }

    /// Writes that it doesn't send the query.
    fn drop_query(&mut self, why: QueryWhy, log: &mut Lines) -> Result<bool, Halt>
        ensures answer { Answers result self.new (model.not_sent self.old why).1 }
        ensures lines { Tells result log.old log.new (model.not_sent self.old why).0 }
    {
        log.push(Line::DropQuery { why })?;
        Ok(false)
    }

    /// Makes queries while a block is pending and fewer polls run than may, until it sends one not.
    pub(super) fn repoll(&mut self, log: &mut Lines) -> Result<(), Halt>
        ensures answer { Turns result self.new (model.repolled B.answer self.old).1 }
        ensures lines { Tells result log.old log.new (model.repolled B.answer self.old).0 }
    {
        while self.board.pending_len() > 0 && self.polls.len() < self.params.repolls() as usize {
            if !self.query(log)? {
                return Ok(());
            }
        }
        Ok(())
    }
}

/// Returns whether there are units enough for a sample, and no word is left to draw one by.
#[tactic(auto, using(crate::proofs::Wordless::out_of_words))]
fn lacks_words(params: &Params, roster: &Roster, words: &Words) -> bool
    ensures sample { result ≡ true → sample_of roster.now params.now.k words.now ≡ Err SampleFault.WordsOut }
    ensures none { result ≡ true → words.now ≡ [] }
{
    words.len() == 0 && u64::from(params.k()) <= roster.total()
}
