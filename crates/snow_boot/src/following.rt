ghost use Rattle.std.specs.Prelude.{◌≡◌};
ghost use Rattle.snow_boot.specs.Model.Asking.{AreAskedBut};
ghost use Rattle.snow_boot.specs.Model.Booting.{followed};
ghost use Rattle.snow_chain.specs.Kept.Alone.{IsAlone, last_state};
ghost use Rattle.snow_boot.specs.Kept.Coursing.{boot_of, MayAsk, Comes};
ghost use Rattle.snow_boot.specs.declared.question.Question.TheVariants as question;

use crate::asking::{ask_all, ask_one};
use crate::boot::{Parts, Stage};
use crate::executing;
use crate::question::Question;
use snow_base::Numbers;
use snow_chain::Chain;
use snow_interval::Kept;
use snow_lines::Lines;
use snow_store::{BootStop, Due};

impl<H: Kept> Parts<H> {
    /// Asks for what the targets miss, once they are known. Where none misses anything it executes
    /// the path of the highest kept one.
    pub(crate) fn follow<C: Chain>(
        &mut self,
        chain: &mut C,
        numbers: &mut Numbers,
        log: &mut Lines,
    ) -> Result<Stage, BootStop>
        requires alone { IsAlone (C.held chain.old) }
        requires may { MayAsk self.old.fetching self.old.requests (C.held chain.old) numbers.old }
        requires due { self.old.survey.question ≡ question.Nothing → AreAskedBut self.old.fetching.due self.old.fetching.fetch self.old.requests }
        ensures { Comes result log.old log.new self.new.survey self.new.fetching self.new.requests numbers.old numbers.new (C.held chain.old) (C.held chain.new)
            (followed C.rules (last_state (C.held chain.old)) (boot_of self.old.survey self.old.fetching.fetch self.old.requests) numbers.old) }
    {
        match self.survey.question() {
            Question::Nothing => {}
            Question::Frontier => return Ok(Stage::Going),
            Question::Accepted => return Ok(Stage::Going),
        }
        if self.fetching.is_whole() {
            return executing::finish(&self.fetching, chain, log);
        }
        let nodes = self.survey.nodes();
        let requests = &mut self.requests;
        match self.fetching.due() {
            Due::Nothing => {}
            Due::One(id) => ask_one(nodes, requests, numbers, self.fetching.needed(id), log)?,
            Due::All => ask_all(nodes, &self.fetching, requests, numbers, log)?,
        }
        Ok(Stage::Going)
    }
}
