//! The identifiers that the targets miss, each with how many targets miss it. A target that misses
//! a block misses, once that block is kept, what the block's run misses. So the store looks at no
//! other target.
ghost use Rattle.std.specs.Prelude.{◌≡◌, ◌<◌, ℕ, Bool, List, true, false, ◌||◌, bytes_eq, IfOk, OnOk};
ghost use Rattle.std.specs.List.{IsDistinct};
ghost use Rattle.snow_store.specs.Model.Keeping as keeping;
ghost use Rattle.snow_store.specs.Model.Keeping.{after_taking};
ghost use Rattle.snow_store.specs.Laws.Linking.{held_heights};
ghost use Rattle.snow_store.specs.Model.Needing.{need_at, names, has_need, HasNeeds, Counts, with_more, with_less, with_none, passed_on, is_due, Covers};
ghost use Rattle.snow_store.specs.Model.Paths.{Fetch, has_id, missed, is_whole};
ghost use Rattle.snow_store.specs.Kept.Renewing.{fetch_by, MayRenew, IsRenewed};
ghost use Rattle.snow_store.specs.Clauses.Coming.{noted, after_verdict};
ghost use Rattle.snow_store.specs.declared.stop.Verdict.TheVariants.{Keeps};

use crate::stop::Verdict;
use crate::store::Store;
use snow_base::{Header, Id};
use snow_interval::Kept;
use snow_map::IdSet;
use std::alloc::AllocError;
use std::collections::BTreeMap;

/// Which of the missed identifiers no open request may name yet.
/// Rule: this project's own.
#[derive(Clone, Copy)]
pub enum Due {
    /// None.
    Nothing,
    /// This one.
    One(Id),
    /// Any.
    All,
}

/// Returns whether an identifier is among these.
/// Rule: AvalancheGo, snow/engine/snowman/bootstrap.
pub fn has(ids: &IdSet, id: &Id) -> bool
    ensures { result ≡ has_id ids.now id.now }
{
    ids.contains(id)
}

// No identifier stands twice among some.
fn distinct(ids: &IdSet)
    ensures { IsDistinct bytes_eq ids.now }
{
    let _ids = ids.as_slice();
}

// Whether what is missed is this identifier.
fn names(missed: &Option<Id>, id: &Id) -> bool
    ensures { result ≡ names missed.now id.now }
{
    match missed {
        Some(missed) => *missed == *id,
        None => false,
    }
}

/// Returns whether the targets miss nothing.
/// Rule: AvalancheGo, snow/engine/snowman/bootstrap.
pub fn is_met(needs: &BTreeMap<Id, u64>) -> bool
    ensures { (f : Fetch) → HasNeeds needs.now f → result ≡ is_whole f }
{
    match needs.first_key_value() {
        Some(_) => false,
        None => true,
    }
}

/// Gathers anew what the targets miss, with how many of them miss it. The store is whole. On want
/// of memory it returns `AllocError`.
/// Rule: AvalancheGo, snow/engine/snowman/bootstrap.
pub fn gather<H: Kept>(
    store: &Store<H>,
    targets: &IdSet,
    found: &IdSet,
    needs: &mut BTreeMap<Id, u64>,
) -> Result<(), AllocError>
    requires { store.now.whole ≡ true }
    ensures { OnOk result (HasNeeds needs.new (fetch_by store.now.store targets.now found.now)) }
{
    needs.clear();
    for target in targets.as_slice() {
        let missed = store.missed(target, has(found, target));
        join(needs, &missed, 1, Due::All)?;
    }
    Ok(())
}

// So many targets more miss this, which is due where none missed it.
fn join(
    needs: &mut BTreeMap<Id, u64>,
    missed: &Option<Id>,
    targets: u64,
    due: Due,
) -> Result<Due, AllocError>
    ensures counts { OnOk result ((count : List ℕ → ℕ) → 0 < targets → Counts needs.old count → Counts needs.new (with_more missed.now targets count)) }
    ensures due { IfOk result (λ after. Covers due (has_need needs.old) after (has_need needs.new)) }
{
    let Some(id) = missed else {
        return Ok(due);
    };
    let before = needs.get(id).copied();
    // There are far fewer targets than numbers.
    let Some(sum) = before.unwrap_or(0).checked_add(targets) else {
        return Err(AllocError);
    };
    needs.insert(*id, sum)?;
    match before {
        Some(_) => Ok(due),
        None => Ok(due_with(&*needs, *id, due)),
    }
}

// One target less misses this.
fn leave(needs: &mut BTreeMap<Id, u64>, missed: &Option<Id>) -> Result<(), AllocError>
    ensures counts { OnOk result ((count : List ℕ → ℕ) → Counts needs.old count → Counts needs.new (with_less missed.now count)) }
    ensures fewer { OnOk result ((q : List ℕ) → has_need needs.new q ≡ true → has_need needs.old q ≡ true) }
{
    let Some(id) = missed else {
        return Ok(());
    };
    let before = needs.get(id).copied().unwrap_or(0);
    if before > 1 {
        needs.insert(*id, before - 1)?;
    } else {
        let _ = needs.remove(id);
    }
    Ok(())
}

/// Renews what the targets miss, once the store has taken a block with this verdict. `before` is
/// what the block's identifier missed before, as a target. It returns what is due then, and notes a
/// target as found where the block is low. The store is whole. On want of memory it returns
/// `AllocError`.
/// Rule: AvalancheGo, snow/engine/snowman/bootstrap.
pub fn renew<H: Kept>(
    store: &Store<H>,
    targets: &IdSet,
    found: &mut IdSet,
    needs: &mut BTreeMap<Id, u64>,
    due: Due,
    header: &Header,
    verdict: Verdict,
    before: Option<Id>,
) -> Result<Due, AllocError>
    requires whole { store.now.whole ≡ true }
    requires held { verdict ≡ Keeps → held_heights store.now.store.kept header.now.height ≡ true }
    ensures { IfOk result (λ after. (s : keeping.Store) (bytes : List ℕ) → store.now.store ≡ after_taking s record { header = header.now; bytes = bytes } verdict
        → MayRenew (fetch_by s targets.now found.old) header.now verdict before needs.old
        → (found.new ≡ (after_verdict (fetch_by s targets.now found.old) record { header = header.now; bytes = bytes } verdict).found)
        × IsRenewed (fetch_by s targets.now found.old) (after_verdict (fetch_by s targets.now found.old) record { header = header.now; bytes = bytes } verdict) due after needs.new) }
{
    match verdict {
        Verdict::Keeps => {
            // Whoever missed the block misses what its run misses.
            let passed = match needs.remove(&header.id) {
                Some(missing) => join(needs, &store.wanted_at(header.height), missing, due)?,
                None => due,
            };
            // Nearly every block missed itself, as it wasn't kept.
            if names(&before, &header.id) {
                return Ok(passed);
            }
            if !has(targets, &header.id) {
                return Ok(passed);
            }
            let now = store.missed(&header.id, has(&*found, &header.id));
            if now == before {
                return Ok(passed);
            }
            distinct(targets);
            leave(needs, &before)?;
            join(needs, &now, 1, passed)
        }
        Verdict::Low => {
            let low = renew_low(targets, found, needs, due, &header.id)?;
            Ok(low)
        }
        Verdict::Known => Ok(due),
    }
}

// What is due with an identifier more, which wasn't missed before.
fn due_with(needs: &BTreeMap<Id, u64>, id: Id, due: Due) -> Due
    ensures id { is_due result id ≡ true }
    ensures others { (q : List ℕ) → has_need needs.now q ≡ true → is_due result q ≡ false → is_due due q ≡ false }
{
    match due {
        Due::Nothing => Due::One(id),
        Due::One(other) => due_both(needs, id, other),
        Due::All => Due::All,
    }
}

// What is due where one was due before, if it is still missed.
fn due_both(needs: &BTreeMap<Id, u64>, id: Id, other: Id) -> Due
    ensures id { is_due result id ≡ true }
    ensures others { (q : List ℕ) → has_need needs.now q ≡ true → is_due result q ≡ false → bytes_eq other q ≡ false }
{
    if needs.contains_key(&other) {
        return Due::All;
    }
    Due::One(id)
}

// Renews what is missed where a block is too low: nobody misses it, and a target that came so is found.
fn renew_low(
    targets: &IdSet,
    found: &mut IdSet,
    needs: &mut BTreeMap<Id, u64>,
    due: Due,
    id: &Id,
) -> Result<Due, AllocError>
    ensures due { IfOk result (λ after. after ≡ due) }
    ensures found { OnOk result (found.new ≡ noted targets.now found.old id.now) }
    ensures counts { OnOk result ((count : List ℕ → ℕ) → Counts needs.old count → Counts needs.new (with_none id.now count)) }
{
    if has(targets, id) {
        found.insert(*id)?;
    }
    let _ = needs.remove(id);
    Ok(due)
}
