ghost use Rattle.std.specs.Prelude.{◌≡◌, ℕ, ◌<◌, ◌&&◌, ◌∷◌, ◌++◌, [], List, map, true, false, Some, None, is_none, IfOk, OnOk, OnErr, if◌then◌else◌};
ghost use Rattle.std.specs.BTreeMap.{get, is_at};
ghost use Rattle.std.specs.Bool.{OnTrue};
ghost use Rattle.std.specs.Cmp.Lexicographic.{slice_cmp};
ghost use Rattle.std.specs.Ordering.{nat_cmp};
ghost use Rattle.std.specs.List.Sorted.{IsStrictlySortedBy};
ghost use Rattle.std.specs.Map.{keys_of, remove_entry};
ghost use Rattle.snow_held.specs.declared.backlog.Kept.{Kept};
ghost use Rattle.snow_held.specs.declared.keys.NodeKey.{NodeKey};
ghost use Rattle.snow_held.specs.Kept.Keys.{key_of, key_cmp};
ghost use Rattle.snow_held.specs.Kept.Arrivals.{at_arrival, kept_at, woken_among, filed, names, StaysNamed, LeavesEach};

use crate::backlog::{Backlog, Kept};
use crate::held::Held;
use crate::keys::NodeKey;
use crate::named::Named;
use snow_base::{Id, NodeId};
use std::alloc::{AllocError, Global};
use std::collections::BTreeMap;

/// The number of a node's reply to a poll, or that of one that left.
pub(crate) fn number_of(
    polls: &BTreeMap<u32, BTreeMap<NodeKey, u64>>,
    number: u32,
    node: &NodeId,
) -> Option<u64>
    ensures { result ≡ filed polls.now number (key_of node.now) }
{
    match polls.get(&number) {
        Some(nodes) => nodes.get(&NodeKey::of(node)).copied(),
        None => None,
    }
}

/// Notes the number of a reply by its poll and node, and returns `true`. Where a reply of them is
/// kept, it returns `false`. Then, and on want of memory, all stays as it was.
pub(crate) fn file(
    polls: &mut BTreeMap<u32, BTreeMap<NodeKey, u64>>,
    backlog: &Backlog,
    alloc: Global,
    reply: &Held,
    arrival: u64,
) -> Result<bool, AllocError>
    ensures is_new { IfOk result (λ is_new. is_new ≡ is_none (kept_at backlog.now (filed polls.old reply.now.number (key_of reply.now.node)))) }
    ensures ok { IfOk result (λ is_new. (n : ℕ) (other : NodeKey) → filed polls.new n other ≡ (if is_at (nat_cmp reply.now.number) n && (is_new && is_at (key_cmp (key_of reply.now.node)) other) then Some arrival else filed polls.old n other)) }
    ensures err { OnErr result ((n : ℕ) (other : NodeKey) → filed polls.new n other ≡ filed polls.old n other) }
{
    let key = NodeKey::of(&reply.node);
    if let Some(nodes) = polls.get_mut(&reply.number) {
        return enter(nodes, backlog, key, arrival);
    }
    let mut nodes = BTreeMap::new(alloc);
    nodes.insert(key, arrival)?;
    polls.insert(reply.number, nodes)?;
    Ok(true)
}

// The same for the nodes of the poll. It looks for a new node once.
fn enter(
    nodes: &mut BTreeMap<NodeKey, u64>,
    backlog: &Backlog,
    key: NodeKey,
    arrival: u64,
) -> Result<bool, AllocError>
    ensures is_new { IfOk result (λ is_new. is_new ≡ is_none (kept_at backlog.now (get key_cmp nodes.old key))) }
    ensures ok { IfOk result (λ is_new. (other : NodeKey) → get key_cmp nodes.new other ≡ (if is_new && is_at (key_cmp key) other then Some arrival else get key_cmp nodes.old other)) }
    ensures err { OnErr result ((other : NodeKey) → get key_cmp nodes.new other ≡ get key_cmp nodes.old other) }
{
    let before = nodes.insert(key, arrival)?;
    let Some(number) = before else {
        return Ok(true);
    };
    if !backlog.has(number) {
        return Ok(true);
    }
    if let Some(back) = nodes.get_mut(&key) {
        *back = number;
    }
    Ok(false)
}

/// Appends a reply to the others, and keeps its number under its block. On want of memory all
/// stays as it was.
pub(crate) fn keep_reply(
    backlog: &mut Backlog,
    blocks: &mut BTreeMap<Id, Named>,
    alloc: Global,
    arrival: u64,
    kept: &Kept,
) -> Result<(), AllocError>
    requires { (a : ℕ) (k : Kept) → at_arrival backlog.old a ≡ Some k → a < arrival }
    ensures ok { OnOk result (backlog.new ≡ backlog.old ++ (arrival, kept.now) ∷ []) }
    ensures err { OnErr result (backlog.new ≡ backlog.old) }
    ensures there { OnOk result ((a : ℕ) → at_arrival backlog.new a ≡ (if is_at (nat_cmp arrival) a then Some kept.now else at_arrival backlog.old a)) }
    ensures sorted { OnOk result (IsStrictlySortedBy nat_cmp (keys_of backlog.new)) }
    ensures named { OnOk result (names blocks.new kept.now.reply.id arrival ≡ true) }
    ensures others { StaysNamed backlog.old (names blocks.old) (names blocks.new) }
{
    name(blocks, alloc, kept.reply.id, arrival)?;
    if let Err(error) = backlog.push(arrival, *kept) {
        unname(blocks, backlog, &kept.reply.id, arrival);
        return Err(error);
    }
    Ok(())
}

// Keeps a number under a block. On want of memory all stays as it was.
fn name(
    blocks: &mut BTreeMap<Id, Named>,
    alloc: Global,
    id: Id,
    arrival: u64,
) -> Result<(), AllocError>
    ensures ok { OnOk result ((q : List ℕ) (a : ℕ) → names blocks.new q a ≡ (if is_at (slice_cmp nat_cmp id) q && is_at (nat_cmp arrival) a then true else names blocks.old q a)) }
    ensures err { OnErr result ((q : List ℕ) (a : ℕ) → names blocks.new q a ≡ names blocks.old q a) }
{
    if let Some(named) = blocks.get_mut(&id) {
        named.push(arrival)?;
        return Ok(());
    }
    let mut named = Named::new(alloc);
    named.push(arrival)?;
    blocks.insert(id, named)?;
    Ok(())
}

/// A number that no reply has needn't stand under a block any more. It takes no memory.
pub(crate) fn unname(blocks: &mut BTreeMap<Id, Named>, backlog: &Backlog, id: &Id, arrival: u64)
    requires { at_arrival backlog.now arrival ≡ None }
    ensures { StaysNamed backlog.now (names blocks.old) (names blocks.new) }
{
    if unname_number(blocks, backlog, id, arrival) {
        let _ = blocks.remove(id);
    }
}

// The same, but that a block stays where it has no number any more. Whether it is so.
fn unname_number(blocks: &mut BTreeMap<Id, Named>, backlog: &Backlog, id: &Id, arrival: u64) -> bool
    requires { at_arrival backlog.now arrival ≡ None }
    ensures left { StaysNamed backlog.now (names blocks.old) (names blocks.new) }
    ensures none { OnTrue result ((a : ℕ) → names blocks.new id.now a ≡ false) }
{
    let Some(named) = blocks.get_mut(id) else {
        return false;
    };
    named.leave(backlog, arrival)
}

// The reply with a number goes, if there is one.
fn drop_one(backlog: &mut Backlog, blocks: &mut BTreeMap<Id, Named>, arrival: u64)
    ensures rest { backlog.new ≡ remove_entry (is_at (nat_cmp arrival)) backlog.old }
    ensures sorted { IsStrictlySortedBy nat_cmp (keys_of backlog.new) }
    ensures left { (a : ℕ) → at_arrival backlog.new a ≡ (if is_at (nat_cmp arrival) a then None else at_arrival backlog.old a) }
    ensures others { StaysNamed backlog.new (names blocks.old) (names blocks.new) }
{
    if let Some(reply) = backlog.take(arrival) {
        unname(blocks, backlog, &reply.id, arrival);
    }
}

/// The replies of a poll go, whose numbers are given by node.
pub(crate) fn drop_each(
    backlog: &mut Backlog,
    blocks: &mut BTreeMap<Id, Named>,
    nodes: &BTreeMap<NodeKey, u64>,
)
    ensures { LeavesEach backlog.old (names blocks.old) nodes.now backlog.new (names blocks.new) }
{
    for (_, arrival) in nodes.iter() {
        drop_one(backlog, blocks, *arrival);
    }
}

/// The replies with these numbers that name this block aren't quiet any more.
pub(crate) fn wake_each(backlog: &mut Backlog, numbers: &[u64], id: &Id)
    ensures { backlog.new ≡ map (woken_among numbers.now id.now) backlog.old }
{
    for arrival in numbers {
        backlog.wake(*arrival, id);
    }
}
