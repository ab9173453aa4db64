ghost use Rattle.std.specs.Prelude.{◌≡◌, true, [], Some, None, IfOk, OnOk, if◌then◌else◌};
ghost use Rattle.snow_boot.specs.Clauses.Accepting.{higher_one, top_height};
ghost use Rattle.snow_store.specs.Model.Keeping.{taken, Answers};
ghost use Rattle.snow_boot.specs.Kept.Fetching.{Fetches};
ghost use Rattle.snow_boot.specs.Kept.Reply.{left};
ghost use Rattle.snow_store.specs.Model.Needing.{is_missed, Covers};
ghost use Rattle.snow_store.specs.Model.Paths.{missed, is_whole};
ghost use Rattle.snow_store.specs.declared.needs.Due.TheVariants as due;
ghost use Rattle.snow_store.specs.Clauses.Coming.{after_verdict};
ghost use Rattle.snow_boot.specs.Model.Replying.{replied};

use crate::reply::ReplyBlocks;
use snow_base::{Header, Id};
use snow_chain::Chain;
use snow_interval::Kept;
use snow_map::IdSet;
use snow_store::{BootStop, Due, Store, Verdict, needs};
use std::alloc::{AllocError, Global};
use std::collections::BTreeMap;
use std::marker::Model;

/// What a node fetches: the kept blocks, the targets, those of them that were found at or below the
/// last accepted height, and what the targets miss. Contracts see the blocks and targets, which
/// missed identifiers no request may name yet, and whether the value is whole, which it isn't after
/// want of memory.
#[derive(Drop)]
pub(crate) struct Fetching<H: Kept> {
    pub(crate) store: Store<H>,
    pub(crate) targets: IdSet,
    pub(crate) found: IdSet,
    pub(crate) needs: BTreeMap<Id, u64>,
    pub(crate) due: Due,
    pub(crate) whole: bool,
}

impl<H: Kept> Model for Fetching<H> {
    ghost use Rattle.std.specs.Prelude.{◌≡◌, true};
    ghost use Rattle.snow_boot.specs.Kept.BootCode.{coded_hunt};
    ghost use Rattle.snow_boot.specs.Kept.Fetching.{Hunt};
    ghost use Rattle.snow_store.specs.Kept.Renewing.{fetch_by, AreKnown};

    ghost Value = { Hunt };

    ghost coded = { coded_hunt };

    ghost view = { λ a. record { whole = a.whole; due = a.due; fetch = fetch_by a.store.store a.targets a.found } };

    ghost invariant = { λ a. a.whole ≡ true → AreKnown a.store a.needs a.targets a.found };
}

impl<H: Kept> Fetching<H> {
    /// Returns no kept block and no target. It takes no memory.
    pub(crate) fn begin(alloc: Global, last: Id, height: u64) -> Self
        ensures { result ≡ record { whole = true; due = due.Nothing; fetch = record { store = record { last = last; height = height; kept = [] }; targets = []; found = [] } } }
    {
        Fetching {
            store: Store::begin(alloc, last, height),
            targets: IdSet::new(alloc),
            found: IdSet::new(alloc),
            needs: BTreeMap::new(alloc),
            due: Due::Nothing,
            whole: true,
        }
    }

    /// Returns the targets.
    pub(crate) fn targets(&self) -> &[Id]
        ensures { result.now ≡ self.now.fetch.targets }
    {
        self.targets.as_slice()
    }

    /// Sets the targets, none of which is found yet. All that they miss is due.
    pub(crate) fn aim(&mut self, alloc: Global, targets: IdSet) -> Result<(), AllocError>
        requires { self.old.whole ≡ true }
        ensures { OnOk result (self.new ≡ record { whole = true; due = due.All; fetch = record { store = self.old.fetch.store; targets = targets; found = [] } }) }
    {
        self.whole = false;
        self.targets = targets;
        self.found = IdSet::new(alloc);
        needs::gather(&self.store, &self.targets, &self.found, &mut self.needs)?;
        self.due = Due::All;
        self.whole = true;
        Ok(())
    }

    /// Notes that other identifiers may be missed without a request. It takes no memory.
    pub(crate) fn expect(&mut self, due: Due)
        ensures whole { self.new.whole ≡ self.old.whole }
        ensures due { self.new.due ≡ due }
        ensures fetch { self.new.fetch ≡ self.old.fetch }
    {
        self.due = due;
    }

    /// Returns which of the missed identifiers no request may name yet.
    pub(crate) fn due(&self) -> Due
        ensures { result ≡ self.now.due }
    {
        self.due
    }

    /// Returns an identifier where one of the targets misses it.
    pub(crate) fn needed(&self, id: Id) -> Option<Id>
        requires { self.now.whole ≡ true }
        ensures { result ≡ (if is_missed self.now.fetch self.now.fetch.targets id then Some id else None) }
    {
        if self.needs.contains_key(&id) {
            return Some(id);
        }
        None
    }

    /// Returns the store of the last accepted block and the kept blocks.
    pub(crate) fn store(&self) -> &Store<H>
        requires { self.now.whole ≡ true }
        ensures { result.now ≡ record { whole = true; store = self.now.fetch.store } }
    {
        &self.store
    }

    /// Returns whether no target misses anything.
    pub(crate) fn is_whole(&self) -> bool
        requires { self.now.whole ≡ true }
        ensures { result ≡ is_whole self.now.fetch }
    {
        needs::is_met(&self.needs)
    }

    /// Returns the highest height at which a target is kept.
    pub(crate) fn highest(&self) -> Option<u64>
        requires { self.now.whole ≡ true }
        ensures { result ≡ top_height self.now.fetch.store.kept self.now.fetch.targets }
    {
        let mut top = None;
        for target in self.targets() {
            top = higher_one(top, self.store().top(target));
        }
        top
    }

    /// Returns what a target misses.
    pub(crate) fn missed(&self, target: &Id) -> Option<Id>
        requires { self.now.whole ≡ true }
        ensures { result ≡ missed self.now.fetch target.now }
    {
        self.store.missed(target, needs::has(&self.found, target))
    }

    /// Takes a block: it keeps it, notes it as found, or stops the run.
    fn came(&mut self, header: &Header, bytes: &[u8]) -> Result<Verdict, BootStop>
        requires { self.old.whole ≡ true }
        ensures answer { Answers result (taken self.old.fetch.store header.now) }
        ensures fetch { IfOk result (λ verdict. (self.new.whole ≡ true) × (self.new.fetch ≡ after_verdict self.old.fetch record { header = header.now; bytes = bytes.now } verdict)) }
        ensures due { OnOk result (Covers self.old.due (is_missed self.old.fetch self.old.fetch.targets) self.new.due (is_missed self.new.fetch self.new.fetch.targets)) }
    {
        let before = self.missed(&header.id);
        self.store.links();
        self.whole = false;
        let verdict = self.store.take(header, bytes)?;
        let due = needs::renew(
            &self.store,
            &self.targets,
            &mut self.found,
            &mut self.needs,
            self.due,
            header,
            verdict,
            before,
        )?;
        self.due = due;
        self.whole = true;
        Ok(verdict)
    }

    /// Takes a block as `came` does, where requests name each missed identifier.
    pub(crate) fn take(&mut self, header: &Header, bytes: &[u8]) -> Result<Verdict, BootStop>
        requires { self.old.whole ≡ true }
        ensures answer { Answers result (taken self.old.fetch.store header.now) }
        ensures fetch { IfOk result (λ verdict. (self.new.whole ≡ true) × (self.new.fetch ≡ after_verdict self.old.fetch record { header = header.now; bytes = bytes.now } verdict)) }
        ensures due { OnOk result (Covers due.Nothing (is_missed self.old.fetch self.old.fetch.targets) self.new.due (is_missed self.new.fetch self.new.fetch.targets)) }
    {
        self.expect(Due::Nothing);
        self.came(header, bytes)
    }

    /// Takes the blocks of a reply to a request that is closed. The first has to be the one that
    /// the request named, and each later one the parent of the one before.
    pub(crate) fn reply<C: Chain>(
        &mut self,
        chain: &C,
        id: Id,
        blocks: ReplyBlocks<'_>,
    ) -> Result<(), BootStop>
        requires { self.old.whole ≡ true }
        ensures fetch { Fetches result self.new (replied C.rules.header_of self.old.fetch id (left blocks.entry)) }
        ensures due { OnOk result (Covers (due.One id) (is_missed self.old.fetch self.old.fetch.targets) self.new.due (is_missed self.new.fetch self.new.fetch.targets)) }
    {
        self.expect(Due::One(id));
        let mut wanted = id;
        for bytes in blocks {
            let Some(header) = chain.parse(bytes) else {
                return Ok(());
            };
            if header.id != wanted {
                return Ok(());
            }
            match self.came(&header, bytes) {
                Ok(Verdict::Low) => return Ok(()),
                Ok(Verdict::Known) => wanted = header.parent,
                Ok(Verdict::Keeps) => wanted = header.parent,
                Err(stop) => return Err(stop),
            }
        }
        Ok(())
    }
}

// The higher of two heights, where there are two.
fn higher_one(height: Option<u64>, other: Option<u64>) -> Option<u64>
    ensures { result ≡ higher_one height other }
{
    match (height, other) {
        (Some(height), Some(other)) if height < other => Some(other),
        (Some(height), _) => Some(height),
        (None, other) => other,
    }
}
