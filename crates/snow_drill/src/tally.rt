ghost use Rattle.std.specs.Prelude.{◌≡◌, ◌+◌, map, OnOk, IfOk};
ghost use Rattle.snow_drill.specs.Kept.Told.{untold, noted};
ghost use Rattle.snow_drill.specs.Kept.Following.{Takes};

use snow_base::{Id, Items, NodeId};
use snow_lines::{Draws, Line};
use std::alloc::{AllocError, Global};
use std::collections::VecDeque;
use std::marker::Model;

/// A query that isn't answered, with the nodes that it asks, in order.
/// Rule: this project's own.
#[derive(Drop)]
pub struct Asked {
    pub number: u32,
    pub nodes: Items<NodeId>,
}

/// What a drill keeps of the lines so far. Its counts are below 2^64.
/// Rule: this project's own.
#[derive(Drop)]
pub struct Tally {
    tip: Id,
    last: Id,
    accepted: u64,
    rejected: u64,
    asked: VecDeque<Asked>,
    answered: u64,
    alloc: Global,
}

impl Model for Tally {
    ghost use Rattle.snow_drill.specs.Kept.Told.{Told};

    ghost Value = { Told };

    ghost view = { λ a. record {
      tip = a.tip;
      last = a.last;
      accepted = a.accepted;
      rejected = a.rejected;
      asked = a.asked.items;
      answered = a.answered;
    } };
}

impl Tally {
    /// Returns the tally before the first line. It takes no memory.
    /// Rule: this project's own.
    pub fn new(alloc: Global) -> Self
        ensures { result ≡ untold }
    {
        let nobody = Id::from_bytes([0; 32]);
        Tally {
            tip: nobody,
            last: nobody,
            accepted: 0,
            rejected: 0,
            asked: VecDeque::new(alloc),
            answered: 0,
            alloc,
        }
    }

    /// Returns the block of the last `prefer` line.
    /// Rule: this project's own.
    pub fn tip(&self) -> Id
        ensures { result ≡ self.now.tip }
    {
        self.tip
    }

    /// Returns the block of the last `accept` line.
    /// Rule: this project's own.
    pub fn last(&self) -> Id
        ensures { result ≡ self.now.last }
    {
        self.last
    }

    /// Returns how many blocks were accepted.
    /// Rule: this project's own.
    pub fn accepted(&self) -> u64
        ensures { result ≡ self.now.accepted }
    {
        self.accepted
    }

    /// Returns how many blocks were rejected.
    /// Rule: this project's own.
    pub fn rejected(&self) -> u64
        ensures { result ≡ self.now.rejected }
    {
        self.rejected
    }

    /// Returns how many queries were answered.
    /// Rule: this project's own.
    pub fn answered(&self) -> u64
        ensures { result ≡ self.now.answered }
    {
        self.answered
    }

    /// Counts a line that was written. On want of memory, and where a count would pass 2^64-1, it
    /// returns `AllocError`.
    /// Rule: this project's own.
    pub fn note(&mut self, line: &Line) -> Result<(), AllocError>
        ensures { OnOk result (self.new ≡ noted self.old line.now) }
    {
        match line {
            Line::Prefer { id } => {
                self.tip = *id;
                Ok(())
            }
            Line::Accept { id } => {
                self.last = *id;
                count(&mut self.accepted)
            }
            Line::Reject { .. } => count(&mut self.rejected),
            Line::Query { number, draws, .. } => {
                self.asked.push_back(Asked {
                    number: *number,
                    nodes: nodes_of(self.alloc, draws)?,
                })?;
                Ok(())
            }
            _ => Ok(()),
        }
    }

    /// Takes the oldest query that isn't answered, counts it as answered, and returns it, or `None`
    /// where there is none. Where the count would pass 2^64-1 it returns `AllocError`.
    /// Rule: this project's own.
    pub fn take(&mut self) -> Result<Option<Asked>, AllocError>
        ensures { IfOk result (λ query. Takes query self.old self.new) }
    {
        let Some(query) = self.asked.pop_front() else {
            return Ok(None);
        };
        count(&mut self.answered)?;
        Ok(Some(query))
    }
}

// Counts one more.
fn count(number: &mut u64) -> Result<(), AllocError>
    ensures { OnOk result (number.new ≡ number.old + 1) }
{
    let Some(more) = number.checked_add(1) else {
        return Err(AllocError);
    };
    *number = more;
    Ok(())
}

// The nodes of these draws.
fn nodes_of(alloc: Global, draws: &Draws) -> Result<Items<NodeId>, AllocError>
    ensures { IfOk result (λ nodes. nodes ≡ map (λ draw. draw.node) draws.now) }
{
    let mut nodes = Items::with_capacity(alloc, draws.list().len())?;
    for draw in draws.list() {
        nodes.push(draw.node)?;
    }
    Ok(nodes)
}
