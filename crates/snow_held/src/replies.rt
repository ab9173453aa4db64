ghost use Rattle.std.specs.Prelude.{◌≡◌, ◌==◌, ◌∷◌, ◌++◌, [], map, not, filter, length, IfOk, OnErr, if◌then◌else◌};
ghost use Rattle.snow_lineup.specs.Kept.Index.{woken};
ghost use Rattle.snow_held.specs.Model.Replies.{replies_of, holds_in, mark_by, first_new, quieted, without_new};

use crate::arrivals;
use crate::backlog::{Backlog, Kept};
use crate::held::Held;
use crate::keys::NodeKey;
use crate::named::Named;
use snow_base::{Id, NodeId};
use std::alloc::{AllocError, Global};
use std::collections::BTreeMap;
use std::marker::Model;

/// The held replies in order of arrival, each with what is remembered of it, and their numbers of
/// arrival by block and by poll and node. The number of a reply that left stands by poll and node
/// until the poll leaves. Whatever is done with a reply, no other one is moved or looked at.
/// Contracts see each reply with its mark: it is quiet, or nothing is remembered of it.
/// Rule: this project's own.
#[derive(Drop)]
pub struct Replies {
    alloc: Global,
    backlog: Backlog,
    blocks: BTreeMap<Id, Named>,
    polls: BTreeMap<u32, BTreeMap<NodeKey, u64>>,
    next: u64,
}

impl Model for Replies {
    ghost use Rattle.std.specs.Prelude.{List, map};
    ghost use Rattle.snow_held.specs.declared.held.Held.{Held};
    ghost use Rattle.snow_lineup.specs.declared.marks.Mark.{Mark};
    ghost use Rattle.snow_held.specs.Kept.Arrivals.{IsFiled, seat_of, filed, names};

    ghost Value = { List (Held × Mark) };

    ghost view = { λ a. map seat_of a.backlog };

    ghost invariant = { λ a. IsFiled a.backlog (filed a.polls) (names a.blocks) a.next };
}

impl Replies {
    /// Returns no reply. It takes no memory.
    /// Rule: this project's own.
    pub fn new(alloc: Global) -> Self
        ensures { result ≡ [] }
    {
        Replies {
            alloc,
            backlog: Backlog::new(alloc),
            blocks: BTreeMap::new(alloc),
            polls: BTreeMap::new(alloc),
            next: 0,
        }
    }

    /// Returns how many replies are held.
    /// Rule: this project's own.
    pub fn len(&self) -> usize
        ensures { result ≡ length self.now }
    {
        self.backlog.len()
    }

    /// Returns whether a reply of this node to the poll of this number is held.
    /// Rule: this project's own.
    pub fn holds(&self, number: u32, node: &NodeId) -> bool
        ensures { result ≡ holds_in (replies_of self.now) number node.now }
    {
        if self.backlog.len() == 0 {
            return false;
        }
        self.has_node(number, node)
    }

    // Whether a node's reply to a poll is held, by the index.
    fn has_node(&self, number: u32, node: &NodeId) -> bool
        ensures { result ≡ holds_in (replies_of self.now) number node.now }
    {
        match arrivals::number_of(&self.polls, number, node) {
            Some(arrival) => self.backlog.has(arrival),
            None => false,
        }
    }

    /// Appends a reply, and returns `true`. It is marked quiet, or nothing is remembered of it. It
    /// returns `false` exactly where a reply of its node to its poll is held, and all stays as it
    /// was then. On want of memory it returns `AllocError`, and all stays as it was too.
    /// Rule: this project's own.
    pub fn push(&mut self, reply: Held, quiet: bool) -> Result<bool, AllocError>
        ensures is_new { IfOk result (λ is_new. is_new ≡ not (holds_in (replies_of self.old) reply.number reply.node)) }
        ensures ok { IfOk result (λ is_new. self.new ≡ (if is_new then self.old ++ (reply, mark_by quiet) ∷ [] else self.old)) }
        ensures err { OnErr result (self.new ≡ self.old) }
    {
        // Numbers never come again, and there are more than a node lives to use.
        if self.next == u64::MAX {
            return Err(AllocError);
        }
        let arrival = self.next;
        let (polls, backlog) = (&mut self.polls, &mut self.backlog);
        let is_new = arrivals::file(polls, backlog, self.alloc, &reply, arrival)?;
        if !is_new {
            return Ok(false);
        }
        // The number stays noted also where there is no memory for the reply.
        self.next += 1;
        let kept = Kept { reply, quiet };
        arrivals::keep_reply(backlog, &mut self.blocks, self.alloc, arrival, &kept)?;
        Ok(true)
    }

    /// Returns the earliest reply of which nothing is remembered, and `None` exactly where there is
    /// none. No reply changes.
    /// Rule: this project's own.
    pub fn first(&mut self) -> Option<Held>
        ensures same { self.new ≡ self.old }
        ensures first { result ≡ first_new self.old }
    {
        let first = self.backlog.first();
        let Some((_, reply)) = first else {
            return None;
        };
        Some(reply)
    }

    /// Marks the earliest reply of which nothing is remembered quiet. Where there is none, all stays
    /// as it was. It takes no memory.
    /// Rule: this project's own.
    pub fn mark_first_quiet(&mut self)
        ensures { self.new ≡ quieted self.old }
    {
        self.backlog.mark_first_quiet();
    }

    /// Takes the earliest reply of which nothing is remembered out, and returns it. It returns
    /// `None` exactly where there is none, and all stays as it was then. It takes no memory.
    /// Rule: this project's own.
    pub fn take_first(&mut self) -> Option<Held>
        ensures taken { result ≡ first_new self.old }
        ensures rest { self.new ≡ without_new self.old }
    {
        let first = self.backlog.take_first();
        let Some((arrival, reply)) = first else {
            return None;
        };
        arrivals::unname(&mut self.blocks, &self.backlog, &reply.id, arrival);
        Some(reply)
    }

    /// Forgets what is remembered of the replies that name a block. It takes no memory.
    /// Rule: this project's own.
    pub fn wake(&mut self, id: &Id)
        ensures { self.new ≡ map (woken (λ h. h.id) id.now) self.old }
    {
        let Some(named) = self.blocks.get(id) else {
            return;
        };
        arrivals::wake_each(&mut self.backlog, named.numbers(), id);
    }

    /// Takes the replies to a poll out, and all that is known of them. No other reply changes. It
    /// takes no memory.
    /// Rule: this project's own.
    pub fn forget(&mut self, number: u32)
        ensures { self.new ≡ filter (λ s. not (s.0.number == number)) self.old }
    {
        let Some(nodes) = self.polls.remove(&number) else {
            return;
        };
        arrivals::drop_each(&mut self.backlog, &mut self.blocks, &nodes);
    }
}
