ghost use Rattle.std.specs.Prelude.{◌≡◌, ◌≢◌, ◌==◌, List, [], ◌∷◌, true, length, IfOk};
ghost use Rattle.snow_chain.specs.Model.Chain.{Held};
ghost use Rattle.snow_gets.specs.declared.gets.Get.{Get};
ghost use Rattle.snow_boot.specs.Kept.Fetching.{Hunt};
ghost use Rattle.snow_base.specs.Model.Numbers.{next_number};
ghost use Rattle.snow_boot.specs.Model.Booting.{behind, ask_frontier, ask_accepted, with_collected, with_targets, or_all};
ghost use Rattle.snow_chain.specs.Kept.Alone.{IsAlone, last_state};
ghost use Rattle.snow_boot.specs.Clauses.Calling.{AreDrawn};
ghost use Rattle.snow_boot.specs.Kept.Coursing.{boot_of, MayAsk, MayHear, Comes};
ghost use Rattle.snow_boot.specs.Model.Electing.{majority};
ghost use Rattle.snow_boot.specs.declared.question.Question.TheVariants as question;
ghost use Rattle.snow_boot.specs.declared.boot.Stage.TheVariants as stage;
ghost use Rattle.snow_lines.specs.declared.line.Line.TheVariants as line;
ghost use Rattle.snow_sample.specs.Model.Roster.{total_weight};

use crate::boot::{Parts, Stage};
use crate::question::Question;
use crate::survey::Survey;
use snow_base::Numbers;
use snow_chain::Chain;
use snow_gets::Gets;
use snow_interval::Kept;
use snow_lines::{Line, Lines, RestartWhy};
use snow_map::IdSet;
use snow_store::BootStop;

// All nodes are asked for their frontier.
pub(crate) fn ask_frontier(
    survey: &mut Survey,
    numbers: &mut Numbers,
    log: &mut Lines,
) -> Result<Stage, BootStop>
    ensures going { IfOk result (λ came. came ≡ stage.Going) }
    ensures came { (hunt : Hunt) (requests : List Get) (held : Held) → hunt.whole ≡ true → held.last ≡ hunt.fetch.store.last → AreDrawn requests numbers.old
        → Comes result log.old log.new survey.new hunt requests numbers.old numbers.new held held (ask_frontier (boot_of survey.old hunt.fetch requests) (next_number numbers.old)) }
{
    let Some(number) = numbers.draw() else {
        return Err(BootStop::Requests);
    };
    survey.await_frontier(number)?;
    log.push(Line::Frontier { number })?;
    Ok(Stage::Going)
}

// Whether there is no identifier.
fn has_none(ids: &IdSet) -> bool
    ensures { result ≡ (length ids.now == 0) }
{
    ids.as_slice().is_empty()
}

impl<H: Kept> Parts<H> {
    /// Asks all nodes for their frontier again.
    fn restart<C: Chain>(
        &mut self,
        why: RestartWhy,
        chain: &C,
        numbers: &mut Numbers,
        log: &mut Lines,
    ) -> Result<Stage, BootStop>
        requires { MayAsk self.old.fetching self.old.requests (C.held chain.now) numbers.old }
        ensures { Comes result log.old log.new self.new.survey self.new.fetching self.new.requests numbers.old numbers.new (C.held chain.now) (C.held chain.now)
            (behind (line.Restart why ∷ []) (ask_frontier (boot_of self.old.survey self.old.fetching.fetch self.old.requests) (next_number numbers.old))) }
    {
        log.push(Line::Restart { why })?;
        ask_frontier(&mut self.survey, numbers, log)
    }

    /// Asks all nodes which of the collected identifiers they hold accepted.
    fn ask_accepted<C: Chain>(
        &mut self,
        chain: &C,
        numbers: &mut Numbers,
        log: &mut Lines,
    ) -> Result<Stage, BootStop>
        requires asked { self.old.survey.question ≡ question.Frontier }
        requires may { MayAsk self.old.fetching self.old.requests (C.held chain.now) numbers.old }
        ensures { Comes result log.old log.new self.new.survey self.new.fetching self.new.requests numbers.old numbers.new (C.held chain.now) (C.held chain.now)
            (ask_accepted (boot_of self.old.survey self.old.fetching.fetch self.old.requests) (next_number numbers.old)) }
    {
        let Some(number) = numbers.draw() else {
            return Err(BootStop::Requests);
        };
        let ids = self.survey.named()?;
        self.survey.await_accepted(number)?;
        log.push(Line::Accepted { number, ids })?;
        Ok(Stage::Going)
    }

    /// Goes on once all nodes have named their frontiers.
    fn collected<C: Chain>(
        &mut self,
        chain: &C,
        numbers: &mut Numbers,
        log: &mut Lines,
    ) -> Result<Stage, BootStop>
        requires asked { self.old.survey.question ≡ question.Frontier }
        requires may { MayAsk self.old.fetching self.old.requests (C.held chain.now) numbers.old }
        ensures { Comes result log.old log.new self.new.survey self.new.fetching self.new.requests numbers.old numbers.new (C.held chain.now) (C.held chain.now)
            (with_collected (boot_of self.old.survey self.old.fetching.fetch self.old.requests) numbers.old self.old.survey.candidates) }
    {
        if self.survey.has_named() {
            return self.ask_accepted(chain, numbers, log);
        }
        self.restart(RestartWhy::Frontier, chain, numbers, log)
    }

    /// Goes on once all nodes have named what they hold accepted.
    fn elected<C: Chain>(
        &mut self,
        chain: &mut C,
        numbers: &mut Numbers,
        log: &mut Lines,
    ) -> Result<Stage, BootStop>
        requires alone { IsAlone (C.held chain.old) }
        requires may { MayAsk self.old.fetching self.old.requests (C.held chain.old) numbers.old }
        ensures { Comes result log.old log.new self.new.survey self.new.fetching self.new.requests numbers.old numbers.new (C.held chain.old) (C.held chain.new)
            (with_targets C.rules (last_state (C.held chain.old)) (boot_of self.old.survey self.old.fetching.fetch self.old.requests) numbers.old (majority (total_weight self.old.survey.nodes) self.old.survey.candidates)) }
    {
        let targets = self.survey.majority()?;
        if has_none(&targets) {
            return self.restart(RestartWhy::Accepted, chain, numbers, log);
        }
        self.survey.close();
        self.fetching.aim(self.survey.alloc(), targets)?;
        self.requests = Gets::new(self.survey.alloc());
        self.follow(chain, numbers, log)
    }

    /// Asks the next question once all nodes have answered, or begins to fetch blocks.
    pub(crate) fn conclude<C: Chain>(
        &mut self,
        chain: &mut C,
        numbers: &mut Numbers,
        log: &mut Lines,
    ) -> Result<Stage, BootStop>
        requires asked { self.old.survey.question ≢ question.Nothing }
        requires hear { MayHear self.old.survey self.old.fetching self.old.requests (C.held chain.old) numbers.old }
        ensures { Comes result log.old log.new self.new.survey self.new.fetching self.new.requests numbers.old numbers.new (C.held chain.old) (C.held chain.new)
            (or_all C.rules (last_state (C.held chain.old)) (boot_of self.old.survey self.old.fetching.fetch self.old.requests) numbers.old self.old.survey.awaited) }
    {
        if !self.survey.is_heard() {
            return Ok(Stage::Going);
        }
        match self.survey.question() {
            Question::Frontier => self.collected(chain, numbers, log),
            Question::Accepted => self.elected(chain, numbers, log),
            Question::Nothing => Ok(Stage::Going),
        }
    }
}
