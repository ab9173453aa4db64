ghost use Rattle.std.specs.Prelude.{◌≡◌, ◌+◌, ◌-◌, true};
ghost use Rattle.snow_boot.specs.Clauses.Accepting.{ExecutesOne, ExecutesAt, Executes, EndsAt, Concludes};
ghost use Rattle.snow_boot.specs.Model.Booting.{finished};
ghost use Rattle.snow_chain.specs.Kept.Alone.{IsAlone, last_state};
ghost use Rattle.snow_boot.specs.Model.Executing.{executed};
ghost use Rattle.snow_store.specs.Model.Keeping.{held};
ghost use Rattle.snow_store.specs.Laws.Linking.{upward};
ghost use Rattle.snow_store.specs.Model.Paths.{is_whole, highest_target};

use crate::boot::Stage;
use crate::fetching::Fetching;
use snow_base::Id;
use snow_chain::Chain;
use snow_interval::Kept;
use snow_lines::{Line, Lines};
use snow_store::{BootStop, KeptBlock, Store};

// Where no target misses a block, the path of the highest kept target is executed.
pub(crate) fn finish<C: Chain, H: Kept>(
    fetching: &Fetching<H>,
    chain: &mut C,
    log: &mut Lines,
) -> Result<Stage, BootStop>
    requires kept { fetching.now.whole ≡ true }
    requires whole { is_whole fetching.now.fetch ≡ true }
    requires alone { IsAlone (C.held chain.old) }
    requires last { (C.held chain.old).last ≡ fetching.now.fetch.store.last }
    ensures { Concludes result log.old log.new (C.held chain.new) (finished C.rules (last_state (C.held chain.old)) fetching.now.fetch.store (highest_target fetching.now.fetch.store.kept fetching.now.fetch.targets)) }
{
    let store = fetching.store();
    store.links();
    let Some(top) = fetching.highest() else {
        return end_at(store.last(), store.height(), log);
    };
    match execute(store, top, chain, log) {
        Ok(last) => end_at(last, top, log),
        Err(stop) => Err(stop),
    }
}

// Bootstrapping is done.
fn end_at(last: Id, height: u64, log: &mut Lines) -> Result<Stage, BootStop>
    ensures { EndsAt result log.old log.new last height }
{
    log.push(Line::Bootstrapped { id: last, height })?;
    Ok(Stage::Done { last, height })
}

// The kept blocks from right above the last accepted one up to a height are executed, in order. The
// answer is the block that was accepted last.
pub(crate) fn execute<C: Chain, H: Kept>(
    store: &Store<H>,
    top: u64,
    chain: &mut C,
    log: &mut Lines,
) -> Result<Id, BootStop>
    requires whole { store.now.whole ≡ true }
    requires alone { IsAlone (C.held chain.old) }
    requires last { (C.held chain.old).last ≡ store.now.store.last }
    ensures { Executes result log.old log.new (C.held chain.new) (executed C.rules store.now.store.last (last_state (C.held chain.old)) (upward store.now.store.kept (store.now.store.height + 1) (top - store.now.store.height))) }
{
    let mut below = store.last();
    for height in store.height()..top {
        match execute_at(store, height + 1, below, chain, log) {
            Ok(next) => below = next,
            Err(stop) => return Err(stop),
        }
    }
    Ok(below)
}

// The block at a height, if there is one, is executed. The answer is the block that was accepted last.
fn execute_at<C: Chain, H: Kept>(
    store: &Store<H>,
    height: u64,
    below: Id,
    chain: &mut C,
    log: &mut Lines,
) -> Result<Id, BootStop>
    requires whole { store.now.whole ≡ true }
    requires alone { IsAlone (C.held chain.old) }
    requires last { (C.held chain.old).last ≡ below }
    ensures { ExecutesAt C.rules result log.old log.new (C.held chain.old) (C.held chain.new) (held store.now.store.kept height) }
{
    let Some(block) = store.at(height) else {
        return Ok(below);
    };
    match execute_one(&below, block, chain, log) {
        Ok(()) => Ok(block.header.id),
        Err(stop) => Err(stop),
    }
}

// A block is executed on the last accepted one. A block that is its own parent is never valid.
fn execute_one<C: Chain>(
    below: &Id,
    block: &KeptBlock,
    chain: &mut C,
    log: &mut Lines,
) -> Result<(), BootStop>
    requires alone { IsAlone (C.held chain.old) }
    requires last { (C.held chain.old).last ≡ below.now }
    ensures { ExecutesOne C.rules result log.old log.new (C.held chain.old) (C.held chain.new) block.now }
{
    let id = block.header.id;
    if id == *below {
        return Err(BootStop::Refused { id });
    }
    if !chain.verify(below, &id, block.bytes.list())? {
        return Err(BootStop::Refused { id });
    }
    chain.accept(&id);
    log.push(Line::Accept { id })?;
    Ok(())
}
