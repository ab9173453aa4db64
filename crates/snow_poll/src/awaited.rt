ghost use Rattle.std.specs.Prelude.{◌≡◌, ℕ, ◌+◌, ◌^◌, ◌<◌, ◌≤◌, List, [], ◌∷◌, ◌++◌, length, map, None, Some, bytes_eq, if◌then◌else◌, true, vec_capacity, IfOk, OnOk};
ghost use Rattle.std.specs.Option.{ForSome, is_some};
ghost use Rattle.snow_sample.specs.Model.Sampling.{AreOfDistinctNodes};
ghost use Rattle.snow_poll.specs.Kept.Awaited.{counts_at, draw_of, spread_of, class_of, number_in, AreWaits, IsNumberOf, AreNumbers};
ghost use Rattle.snow_poll.specs.Kept.Tallied.{HasTimes};

use snow_base::NodeId;
use snow_sample::{Draw, zeros};
use std::alloc::{AllocError, Global};
use std::collections::BTreeMap;
use std::mem;

// So many classes at most are told apart by a node's spread bytes.
const MOST_CLASSES: usize = 65_536;

// So many classes there are for each node, so that few nodes share one.
const CLASSES_EACH: usize = 4;

// So many nodes of a class at most are walked.
const LONGEST_WALK: u8 = 16;

// A node that was drawn: how often, and whether it has replied. Nodes of one class wait one behind
// another; `before` is the number, from 1, of the one before it, and 0 where there is none. `rank` of
// them stand before it, or more where that is 255.
#[derive(Clone, Copy, Debug)]
pub(crate) struct Wait {
    pub(crate) node: NodeId,
    pub(crate) count: u32,
    pub(crate) before: u32,
    pub(crate) class: u16,
    pub(crate) rank: u8,
    pub(crate) replied: bool,
}

// The nodes that were drawn, each with how often, and whether it is awaited. For each class of nodes
// it has the number of the last one, so that a look-up walks one class alone.
//
// Identifiers can be chosen so that all nodes are of one class. Where a class has more nodes than are
// walked, an ordered map has the number of each node instead.
#[derive(Debug, Drop)]
pub(crate) struct Awaited {
    pub(crate) waits: Vec<Wait>,
    pub(crate) lasts: Vec<u32>,
    mask: u64,
    numbers: Option<BTreeMap<NodeId, u32>>,
    ghost chained: { AreWaits mask waits.items lasts.items },
    ghost numbered: { ForSome numbers (AreNumbers waits.items) },
}

impl Awaited {
    // No node, and room for so many.
    pub(crate) fn new(alloc: Global, nodes: usize) -> Result<Awaited, AllocError>
        ensures { IfOk result (λ made. nodes ≤ vec_capacity made.waits) }
    {
        let classes = classes_of(nodes).next_power_of_two().min(MOST_CLASSES);
        let mut waits = Vec::new(alloc);
        waits.reserve(nodes)?;
        Ok(Awaited {
            waits,
            lasts: zeros(Vec::new(alloc), classes)?,
            mask: classes as u64 - 1,
            numbers: None,
        })
    }

    // Whether so many nodes have room, and classes enough.
    pub(crate) fn fits(&self, nodes: usize) -> bool
        ensures { result ≡ true → nodes ≤ vec_capacity self.now.waits }
    {
        nodes <= self.waits.capacity() && classes_of(nodes) <= self.lasts.len()
    }

    // Makes room for so many nodes. Those that were awaited are let go.
    pub(crate) fn grow(&mut self, alloc: Global, nodes: usize) -> Result<(), AllocError>
        ensures { OnOk result (nodes ≤ vec_capacity self.new.waits) }
    {
        *self = Awaited::new(alloc, nodes)?;
        Ok(())
    }

    // Awaits no node. The room stays.
    pub(crate) fn clear(&mut self)
        ensures counts { (node : List ℕ) → counts_at self.new.waits.items node ≡ None }
        ensures none { self.new.waits.items ≡ [] }
        ensures room { vec_capacity self.new.waits ≡ vec_capacity self.old.waits }
    {
        leave_all(&mut self.waits, &mut self.lasts);
        self.numbers = None;
    }

    // Awaits the nodes of these draws, for which there is room, each as often as it was drawn, and no
    // other. The lists are taken out meanwhile, so that where they stand isn't read anew for each node.
    pub(crate) fn await_all(&mut self, alloc: Global, draws: &[Draw]) -> Result<(), AllocError>
        requires counts { (node : List ℕ) → counts_at self.old.waits.items node ≡ None }
        requires none { self.old.waits.items ≡ [] }
        requires nodes { AreOfDistinctNodes draws.now }
        requires few { length draws.now < 2 ^ 32 }
        requires room { length draws.now ≤ vec_capacity self.old.waits }
        ensures times { OnOk result (HasTimes (counts_at self.new.waits.items) draws.now) }
        ensures drawn { OnOk result (map draw_of self.new.waits.items ≡ draws.now) }
    {
        let mut waits = mem::replace(&mut self.waits, Vec::new(alloc));
        let mut lasts = mem::replace(&mut self.lasts, Vec::new(alloc));
        let longest = enter_draws(&mut waits, &mut lasts, self.mask, draws);
        self.waits = waits;
        self.lasts = lasts;
        self.numbers = None;
        if longest >= LONGEST_WALK {
            self.numbers = Some(number_all(alloc, self.waits.as_slice())?);
        }
        Ok(())
    }

    // Whether a node is awaited.
    pub(crate) fn contains(&self, node: &NodeId) -> bool
        ensures { result ≡ is_some (counts_at self.now.waits.items node.now) }
    {
        let number = self.find(node);
        number > 0 && !self.waits[number - 1].replied
    }

    // Awaits a node no more; how often it was drawn, where it was awaited.
    pub(crate) fn remove(&mut self, node: &NodeId) -> Option<u32>
        ensures value { result ≡ counts_at self.old.waits.items node.now }
        ensures updates { (other : List ℕ) → counts_at self.new.waits.items other ≡ (if bytes_eq node.now other then None else counts_at self.old.waits.items other) }
        ensures same { result ≡ None → self.new.waits.items ≡ self.old.waits.items }
        ensures drawn { map draw_of self.new.waits.items ≡ map draw_of self.old.waits.items }
    {
        let number = self.find(node);
        if number == 0 {
            return None;
        }
        let wait = self.waits[number - 1];
        if wait.replied {
            return None;
        }
        self.waits[number - 1].replied = true;
        Some(wait.count)
    }

    // The number of a node, and 0 where it isn't there.
    fn find(&self, node: &NodeId) -> usize
        ensures { IsNumberOf self.now.waits.items node.now result }
    {
        match &self.numbers {
            Some(numbers) => number_of(numbers, node),
            None => self.walk(node),
        }
    }

    // The number of a node, by a walk of its class.
    fn walk(&self, node: &NodeId) -> usize
        ensures { IsNumberOf self.now.waits.items node.now result }
    {
        let mut number = self.lasts[class(node, self.mask)];
        while number > 0 {
            let wait = &self.waits[number as usize - 1];
            if wait.node == *node {
                return number as usize;
            }
            number = wait.before;
        }
        0
    }
}

// So many classes at least tell these nodes apart.
fn classes_of(nodes: usize) -> usize
    ensures { result ≤ MOST_CLASSES }
{
    nodes.saturating_mul(CLASSES_EACH).min(MOST_CLASSES)
}

// The number of a node by the map that has each, and 0 where it isn't there.
fn number_of(numbers: &BTreeMap<NodeId, u32>, node: &NodeId) -> usize
    ensures { result ≡ number_in numbers.now node.now }
{
    match numbers.get(node) {
        Some(number) => *number as usize,
        None => 0,
    }
}

// The number of each node.
fn number_all(alloc: Global, waits: &[Wait]) -> Result<BTreeMap<NodeId, u32>, AllocError>
    requires { length waits.now < 2 ^ 32 }
    ensures { IfOk result (AreNumbers waits.now) }
{
    let mut numbers = BTreeMap::new(alloc);
    let mut number = 0;
    for wait in waits {
        number += 1;
        numbers.insert(wait.node, number)?;
    }
    Ok(numbers)
}

// Takes every node out, the last one first, so that its class has the one before it again. So a poll pays
// for its nodes, and not for its classes.
fn leave_all(waits: &mut Vec<Wait>, lasts: &mut Vec<u32>)
    requires chained { (mask : ℕ) × AreWaits mask waits.old.items lasts.old.items }
    ensures chained { (mask : ℕ) → AreWaits mask waits.old.items lasts.old.items → AreWaits mask waits.new.items lasts.new.items }
    ensures none { waits.new.items ≡ [] }
    ensures room { vec_capacity waits.new ≡ vec_capacity waits.old }
{
    while let Some(wait) = waits.pop() {
        lasts[wait.class as usize] = wait.before;
    }
}

// Awaits the nodes of these draws, where none is awaited: the greatest rank of them.
fn enter_draws(waits: &mut Vec<Wait>, lasts: &mut Vec<u32>, mask: u64, draws: &[Draw]) -> u8
    requires chained { AreWaits mask waits.old.items lasts.old.items }
    requires counts { (node : List ℕ) → counts_at waits.old.items node ≡ None }
    requires none { waits.old.items ≡ [] }
    requires nodes { AreOfDistinctNodes draws.now }
    requires few { length draws.now < 2 ^ 32 }
    requires room { length draws.now ≤ vec_capacity waits.old }
    ensures chained { AreWaits mask waits.new.items lasts.new.items }
    ensures times { HasTimes (counts_at waits.new.items) draws.now }
    ensures drawn { map draw_of waits.new.items ≡ draws.now }
{
    let mut longest = 0;
    for draw in draws {
        longest = enter_draw(waits, lasts, mask, draw).max(longest);
    }
    longest
}

// Awaits the node of a draw, for which there is room, as often as it was drawn: its rank.
fn enter_draw(waits: &mut Vec<Wait>, lasts: &mut Vec<u32>, mask: u64, draw: &Draw) -> u8
    requires chained { AreWaits mask waits.old.items lasts.old.items }
    requires few { length waits.old.items + 1 < 2 ^ 32 }
    requires room { length waits.old.items < vec_capacity waits.old }
    ensures chained { AreWaits mask waits.new.items lasts.new.items }
    ensures counts { (other : List ℕ) → counts_at waits.new.items other ≡ (if bytes_eq draw.now.node other then Some draw.now.count else counts_at waits.old.items other) }
    ensures drawn { map draw_of waits.new.items ≡ map draw_of waits.old.items ++ draw.now ∷ [] }
    ensures room { vec_capacity waits.new ≡ vec_capacity waits.old }
{
    let class = class(&draw.node, mask);
    let before = lasts[class];
    let rank = rank_after(waits.as_slice(), before);
    waits.push_reserved(Wait {
        node: draw.node,
        count: draw.count,
        before,
        class: class as u16,
        rank,
        replied: false,
    });
    lasts[class] = waits.len() as u32;
    rank
}

// The rank of a node that comes after the one of a number in its class.
fn rank_after(waits: &[Wait], number: u32) -> u8 {
    if number == 0 {
        return 0;
    }
    match waits.get(number as usize - 1) {
        Some(last) => last.rank.saturating_add(1),
        None => 0,
    }
}

// The class of a node: by its spread bytes' highest bits, of which the lowest alone would miss a number
// in the last bytes of an end.
fn class(node: &NodeId, mask: u64) -> usize
    ensures { result ≡ class_of mask node.now }
{
    let spread = spread(node);
    ((spread >> 48 ^ spread >> 54) & mask) as usize
}

// The sum of a node's first eight bytes and its last eight, which may count nodes, spread by a product.
fn spread(node: &NodeId) -> u64
    ensures { result ≡ spread_of node.now }
{
    node.word(0)
        .wrapping_add(node.word(12))
        .wrapping_mul(0x9e37_79b9_7f4a_7c15)
}
