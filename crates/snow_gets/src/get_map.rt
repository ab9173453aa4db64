ghost use Rattle.std.specs.Prelude.{◌≡◌, false, [], length, find, OnOk, OnErr};
ghost use Rattle.std.specs.Option.{option_map};
ghost use Rattle.snow_gets.specs.Model.Gets.{asked_in, has_number, is_get, with_get, without};

use crate::gets::Get;
use snow_base::{Id, NodeId};
use snow_map::IdMap;
use std::alloc::{AllocError, Global};
use std::collections::BTreeMap;
use std::marker::Model;

/// The block for which a node was asked, and the node.
#[derive(Clone, Copy)]
pub(crate) struct Asked {
    pub(crate) node: NodeId,
    pub(crate) id: Id,
}

/// Open gets in order of their numbers, with an index by identifier.
#[derive(Drop)]
pub(crate) struct GetMap {
    open: BTreeMap<u32, Asked>,
    ids: IdMap<()>,
}

impl Model for GetMap {
    ghost use Rattle.std.specs.Prelude.{List, map};
    ghost use Rattle.snow_gets.specs.declared.gets.Get.{Get};
    ghost use Rattle.snow_gets.specs.Kept.Index.{get_of, has, HasAsked};

    ghost Value = { List Get };

    ghost view = { λ a. map get_of a.open.entries };

    ghost invariant = { λ a. HasAsked (has a.ids) (map get_of a.open.entries) };
}

impl GetMap {
    /// Returns no open get. It takes no memory.
    pub(crate) fn new(alloc: Global) -> Self
        ensures { result ≡ [] }
    {
        GetMap {
            open: BTreeMap::new(alloc),
            ids: IdMap::new(alloc),
        }
    }

    /// Returns how many gets are open.
    pub(crate) fn len(&self) -> usize
        ensures { result ≡ length self.now }
    {
        self.open.len()
    }

    /// Returns whether a block is asked for.
    pub(crate) fn asks_for(&self, id: &Id) -> bool
        ensures { result ≡ asked_in self.now id.now }
    {
        if self.open.len() == 0 {
            return false;
        }
        self.has_id(id)
    }

    // Whether a block is asked for, by the index.
    fn has_id(&self, id: &Id) -> bool
        ensures { result ≡ asked_in self.now id.now }
    {
        self.ids.contains_key(id)
    }

    /// Returns whether a get with this number is open.
    pub(crate) fn has_number(&self, number: u32) -> bool
        ensures { result ≡ has_number self.now number }
    {
        self.open.contains_key(&number)
    }

    /// Opens a get. On want of memory all stays as it was.
    pub(crate) fn open(&mut self, get: Get) -> Result<(), AllocError>
        requires number { has_number self.old get.number ≡ false }
        requires id { asked_in self.old get.id ≡ false }
        ensures ok { OnOk result (self.new ≡ with_get self.old get) }
        ensures err { OnErr result (self.new ≡ self.old) }
    {
        let Get { number, node, id } = get;
        self.ids.insert(id, ())?;
        if let Err(failed) = self.open.insert(number, Asked { node, id }) {
            let _ = self.ids.remove(&id);
            return Err(failed.into());
        }
        Ok(())
    }

    /// Closes the get of a number and node, and returns the block for which it asked, or `None`.
    pub(crate) fn close(&mut self, number: u32, node: &NodeId) -> Option<Id>
        ensures answer { result ≡ option_map (λ g. g.id) (find (is_get number node.now) self.old) }
        ensures left { self.new ≡ without (is_get number node.now) self.old }
    {
        // Its numbers rise, so no other get has this one.
        let _rising = self.open.len();
        let Some(found) = self.open.get(&number) else {
            return None;
        };
        if found.node != *node {
            return None;
        }
        let id = found.id;
        let _ = self.open.remove(&number);
        let _ = self.ids.remove(&id);
        Some(id)
    }
}
