ghost use Rattle.std.specs.Prelude.{◌≡◌, ◌+◌, ◌^◌, ◌<◌, ◌≤◌, false, drop, IfOk, OnOk, OnErr, if◌then◌else◌};
ghost use Rattle.std.specs.Bool.{beq};
ghost use Rattle.std.specs.Cmp.Lexicographic.{pointwise};
ghost use Rattle.std.specs.Option.{option_map_or};
ghost use Rattle.snow_base.specs.Model.Identifier.{bits};
ghost use Rattle.snow_base.specs.Kept.Split.{AgreeBelow};
ghost use Rattle.snow_base.specs.Model.Votes.{IsInBitOrder, total_count};
ghost use Rattle.snow_flake.specs.Model.Counter.{admits, fresh, stepped};
ghost use Rattle.snow_flake.specs.Kept.Instance.{counter_of};
ghost use Rattle.snow_plain.specs.Kept.Alone.{filled, is_blank};
ghost use Rattle.snow_board.specs.Model.Conflict.{Blank, At, with_child, all_polled, chosen, decided_path};
ghost use Rattle.snow_board.specs.Kept.Walk.{depth, is_decided_as, votes_from};
ghost use Rattle.snow_plain.specs.Kept.Trees.{counters_of};

use snow_base::{Id, Vote, split};
use snow_flake::{Binary, Params, Rule, Snowflake, Unary};
use std::alloc::{AllocError, Global};

/// A tree of instances: one for the next bit, and what is below each of its sides.
/// Rule: AvalancheGo, snow/consensus/snowball.
#[derive(Drop)]
pub enum Tree {
    Leaf,
    Fork(Binary, Box<Tree>, Box<Tree>),
}

impl Tree {
    /// Returns whether no counter stands.
    /// Rule: this project's own.
    pub fn is_leaf(&self) -> bool
        ensures { result ≡ is_blank (counters_of self.now) }
    {
        matches!(self, Tree::Leaf)
    }
}

/// Adds a child's fresh counters from a bit on. On want of memory it returns `AllocError`, and the
/// tree stays as it was.
/// Rule: AvalancheGo, snow/consensus/snowball.
pub fn add(tree: &mut Tree, alloc: Global, child: &Id, bit: u16) -> Result<(), AllocError>
    requires { depth (counters_of tree.old) + bit ≤ 256 }
    ensures ok { OnOk result (counters_of tree.new ≡ with_child (drop bit (bits child.now)) (counters_of tree.old)) }
    ensures err { OnErr result (counters_of tree.new ≡ counters_of tree.old) }
{
    match tree {
        Tree::Leaf => {
            *tree = chain(alloc, child, bit)?;
            Ok(())
        }
        Tree::Fork(counter, zeros, ones) => {
            let side = child.bit(bit);
            if !admits(counter, side) {
                return Ok(());
            }
            if side {
                add(ones, alloc, child, bit + 1)
            } else {
                add(zeros, alloc, child, bit + 1)
            }
        }
    }
}

// The fresh counters of a child from a bit on.
fn chain(alloc: Global, child: &Id, bit: u16) -> Result<Tree, AllocError>
    requires { bit ≤ 256 }
    ensures { IfOk result (λ tree. counters_of tree ≡ with_child (drop bit (bits child.now)) Blank) }
{
    let mut tree = Tree::Leaf;
    for at in (bit..256).rev() {
        tree = link(alloc, child.bit(at), tree)?;
    }
    Ok(tree)
}

// A fresh counter with a bit, over the tree on the side of that bit.
fn link(alloc: Global, side: bool, below: Tree) -> Result<Tree, AllocError>
    ensures { IfOk result (λ tree. counters_of tree ≡ (if side
        then At (fresh side) Blank (counters_of below)
        else At (fresh side) (counters_of below) Blank)) }
{
    let counter = Unary::new().extend(side);
    let below = Box::new(alloc, below)?;
    let other = Box::new(alloc, Tree::Leaf)?;
    Ok(if side {
        Tree::Fork(counter, other, below)
    } else {
        Tree::Fork(counter, below, other)
    })
}

/// Puts an instance in place of each counter, at the bit that the counter has as its flake.
/// Rule: this project's own.
#[tactic(auto, unfolding(crate::specs::Kept::Alone::filled))]
pub fn fill(tree: &mut Tree, single: &Unary)
    ensures { counters_of tree.new ≡ filled single.now (counters_of tree.old) }
{
    let Tree::Fork(counter, zeros, ones) = tree else {
        return;
    };
    *counter = single.extend(counter.preference::<Snowflake>());
    fill(zeros, single);
    fill(ones, single);
}

/// Lets each counter from a bit on make the bit step with its votes. All votes agree below that
/// bit; they are fewer than 2^32.
/// Rule: AvalancheGo, snow/consensus/snowball.
#[cycle(poll)]
pub fn poll(tree: &mut Tree, params: &Params, votes: &[Vote], bit: u16)
    requires deep { depth (counters_of tree.old) + bit ≤ 256 }
    requires order { IsInBitOrder votes.now }
    requires agree { AgreeBelow bit votes.now }
    requires total { total_count votes.now < 2 ^ 32 }
    ensures { counters_of tree.new ≡ all_polled params.now (votes_from bit votes.now) (counters_of tree.old) }
{
    if let Tree::Fork(counter, zeros, ones) = tree {
        let (for_zero, for_one) = votes.split_at(split(votes, bit));
        step(counter, params, total(for_zero), total(for_one));
        poll_side(zeros, params, for_zero, bit + 1, admits(counter, false));
        poll_side(ones, params, for_one, bit + 1, admits(counter, true));
    }
}

// Polls one side of a counter, and drops a side that the counter rules out.
#[cycle(poll)]
fn poll_side(side: &mut Tree, params: &Params, votes: &[Vote], bit: u16, is_open: bool)
    requires deep { depth (counters_of side.old) + bit ≤ 256 }
    requires order { IsInBitOrder votes.now }
    requires agree { AgreeBelow bit votes.now }
    requires total { total_count votes.now < 2 ^ 32 }
    ensures { counters_of side.new ≡ (if is_open
        then all_polled params.now (votes_from bit votes.now) (counters_of side.old)
        else Blank) }
{
    if is_open {
        poll(side, params, votes, bit);
    } else {
        *side = Tree::Leaf;
    }
}

// The bit step with votes for both bits: those for 0 are followed where they reach AlphaPreference.
fn step(counter: &mut Binary, params: &Params, for_zero: u32, for_one: u32)
    ensures { counter_of counter.new ≡ stepped params.now (counter_of counter.old) for_zero for_one }
{
    if params.alpha_preference() <= for_zero {
        counter.apply(params, for_zero, false);
    } else {
        counter.apply(params, for_one, true);
    }
}

// How many votes there are in all.
fn total(votes: &[Vote]) -> u32
    requires { total_count votes.now < 2 ^ 32 }
    ensures { result ≡ total_count votes.now }
{
    votes.iter().map(|vote| vote.count).sum()
}

// Whether identifiers with this bit are still possible.
fn admits(counter: &Binary, side: bool) -> bool
    ensures { result ≡ admits (counter_of counter.now) side }
{
    !counter.is_final() || counter.preference::<Snowflake>() == side
}

// Whether the counter is decided with this bit.
fn is_decided_as(counter: &Binary, side: bool) -> bool
    ensures { result ≡ is_decided_as (counter_of counter.now) side }
{
    counter.is_final() && counter.preference::<Snowflake>() == side
}

/// Returns whether the answers lead to the bits of this identifier from a bit on.
/// Rule: AvalancheGo, snow/consensus/snowball.
pub fn leads_to<R: Rule>(tree: &Tree, id: &Id, bit: u16) -> bool
    requires { depth (counters_of tree.now) + bit ≤ 256 }
    ensures { result ≡ pointwise beq (chosen R.answer (counters_of tree.now)) (drop bit (bits id.now)) }
{
    match tree {
        Tree::Leaf => bit == 256,
        Tree::Fork(counter, zeros, ones) => {
            let side = counter.preference::<R>();
            side == id.bit(bit) && leads_to::<R>(if side { ones } else { zeros }, id, bit + 1)
        }
    }
}

/// Returns whether decided counters alone lead to the bits of this identifier from a bit on.
/// Rule: AvalancheGo, snow/consensus/snowball.
pub fn decides(tree: &Tree, id: &Id, bit: u16) -> bool
    requires { depth (counters_of tree.now) + bit ≤ 256 }
    ensures { result ≡ option_map_or (λ path. pointwise beq path (drop bit (bits id.now))) (decided_path (counters_of tree.now)) false }
{
    match tree {
        Tree::Leaf => bit == 256,
        Tree::Fork(counter, zeros, ones) => {
            let side = id.bit(bit);
            is_decided_as(counter, side) && decides(if side { ones } else { zeros }, id, bit + 1)
        }
    }
}
