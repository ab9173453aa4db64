ghost use Rattle.std.specs.Prelude.{◌≡◌, ◌++◌, false, [], None, length, find, OnOk, OnErr};
ghost use Rattle.std.specs.Option.{option_map, option_to_list};
ghost use Rattle.snow_gets.specs.Kept.Index.{StandsAlone};
ghost use Rattle.snow_gets.specs.Model.Gets.{asked_in, has_number, is_get, with_get, without};

use crate::get_map::GetMap;
use snow_base::{Id, NodeId};
use std::alloc::{AllocError, Global};
use std::marker::Model;

/// A block for which a node was asked under a number from 1 to 2^32-1, and that hasn't come yet.
/// Rule: AvalancheGo, snow/engine/snowman.
#[derive(Clone, Copy, Debug, PartialEq, Eq)]
pub struct Get {
    pub number: u32,
    pub node: NodeId,
    pub id: Id,
}

/// The open gets in order of their numbers.
///
/// A get that is open alone stands apart, so that it takes no memory and no index. Where more are
/// open, all are in a map.
/// Rule: AvalancheGo, snow/engine/snowman.
#[derive(Drop)]
pub struct Gets {
    alone: Option<Get>,
    others: GetMap,
}

impl Model for Gets {
    ghost use Rattle.std.specs.Prelude.{List, ◌++◌};
    ghost use Rattle.std.specs.Option.{option_to_list};
    ghost use Rattle.snow_gets.specs.declared.gets.Get.{Get};
    ghost use Rattle.snow_gets.specs.Kept.Index.{StandsAlone};

    ghost Value = { List Get };

    ghost view = { λ a. option_to_list a.alone ++ a.others };

    ghost invariant = { λ a. StandsAlone a.alone a.others };
}

impl Gets {
    /// Returns no open get. It takes no memory.
    /// Rule: AvalancheGo, snow/engine/snowman.
    pub fn new(alloc: Global) -> Self
        ensures { result ≡ [] }
    {
        Gets {
            alone: None,
            others: GetMap::new(alloc),
        }
    }

    /// Returns how many gets are open.
    /// Rule: AvalancheGo, snow/engine/snowman.
    pub fn len(&self) -> usize
        ensures { result ≡ length self.now }
    {
        if self.alone.is_some() {
            return 1;
        }
        self.others.len()
    }

    /// Returns whether an open get asks for this block.
    /// Rule: AvalancheGo, snow/engine/snowman.
    pub fn asks_for(&self, id: &Id) -> bool
        ensures { result ≡ asked_in self.now id.now }
    {
        match &self.alone {
            Some(get) => get.id == *id,
            None => self.others.asks_for(id),
        }
    }

    /// Returns whether a get with this number is open.
    /// Rule: AvalancheGo, snow/engine/snowman.
    pub fn has_number(&self, number: u32) -> bool
        ensures { result ≡ has_number self.now number }
    {
        match &self.alone {
            Some(get) => get.number == number,
            None => self.others.has_number(number),
        }
    }

    /// Opens a get, whose number and block no open get has. On want of memory it returns
    /// `AllocError`, and all stays as it was.
    /// Rule: AvalancheGo, snow/engine/snowman.
    pub fn open(&mut self, get: Get) -> Result<(), AllocError>
        requires number { has_number self.old get.number ≡ false }
        requires id { asked_in self.old get.id ≡ false }
        ensures ok { OnOk result (self.new ≡ with_get self.old get) }
        ensures err { OnErr result (self.new ≡ self.old) }
    {
        if self.len() == 0 {
            self.alone = Some(get);
            return Ok(());
        }
        join(&mut self.alone, &mut self.others)?;
        self.others.open(get)
    }

    /// Closes the get of a number and a node, and returns the block for which it asked. It returns
    /// `None` exactly where there is no such get, and all stays as it was then.
    /// Rule: AvalancheGo, snow/engine/snowman.
    pub fn close(&mut self, number: u32, node: &NodeId) -> Option<Id>
        ensures answer { result ≡ option_map (λ g. g.id) (find (is_get number node.now) self.old) }
        ensures left { self.new ≡ without (is_get number node.now) self.old }
    {
        let Some(get) = &self.alone else {
            return self.others.close(number, node);
        };
        if get.number != number || get.node != *node {
            return None;
        }
        let id = get.id;
        self.alone = None;
        Some(id)
    }
}

// A get that stood alone goes to the others. After want of memory all is as before.
fn join(alone: &mut Option<Get>, others: &mut GetMap) -> Result<(), AllocError>
    requires { StandsAlone alone.old others.old }
    ensures none { OnOk result (alone.new ≡ None) }
    ensures ok { OnOk result (others.new ≡ option_to_list alone.old ++ others.old) }
    ensures err_alone { OnErr result (alone.new ≡ alone.old) }
    ensures err { OnErr result (others.new ≡ others.old) }
{
    let Some(get) = *alone else {
        return Ok(());
    };
    others.open(get)?;
    *alone = None;
    Ok(())
}
