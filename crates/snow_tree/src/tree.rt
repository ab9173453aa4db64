ghost use Rattle.std.specs.Prelude.{◌≡◌, ◌-◌, true, false, Some, length, slice_get, is_some, OnOk, OnErr, IfErr, IfSome};
ghost use Rattle.std.specs.Option.{option_map, option_copied};
ghost use Rattle.snow_board.specs.Kept.Grown.{has_block, is_on};
ghost use Rattle.snow_tree.specs.Kept.Held.{blocks_in, begun, inserted, taken_back, place_in, entry_in, children_of, ancestor_in, promoted};

use crate::children::Children;
use crate::leaving::take_accepted;
use crate::linking::{make_room_and_link, unlink};
use crate::looking::{ancestor, block_at, place_of};
use crate::node::Node;
use crate::row::Row;
use snow_base::{Header, Id};
use std::alloc::Global;
use std::marker::Model;

/// Want of memory in `Tree::insert`. It hands back the load that was to be inserted, and the tree
/// stays as it was.
/// Rule: AvalancheGo, snow/consensus/snowman.
#[derive(Debug, Drop)]
pub struct TreeFull<T> {
    pub load: T,
}

/// The last accepted block and the pending ones above it in order of issue, each with a load. It
/// finds a block, its parent and its children by identifier without a walk. Contracts see the last
/// accepted block with its height, the pending blocks with their loads, and those that the last
/// acceptance rejected.
/// Rule: AvalancheGo, snow/consensus/snowman.
#[derive(Debug, Drop)]
pub struct Tree<T> {
    last: Id,
    height: u64,
    children: Children,
    nodes: Row<T>,
    rejected: Vec<Id>,
    alloc: Global,
}

impl<T> Model for Tree<T> {
    ghost use Rattle.std.specs.Prelude.{map, vec_capacity};
    ghost use Rattle.snow_tree.specs.Kept.Held.{Held};
    ghost use Rattle.snow_tree.specs.Kept.Nodes.{entry_of, IsKept};

    ghost Value = { Held T };

    ghost view = { λ a. record {
      last = a.last;
      height = a.height;
      pending = map entry_of a.nodes.entries;
      rejected = a.rejected.items;
    } };

    ghost invariant = { λ a. IsKept a.last a.children a.nodes.entries (vec_capacity a.rejected) };
}

impl<T: Drop> Tree<T> {
    ghost use Rattle.std.specs.Prelude.{reverse};
    ghost use Rattle.std.specs.Borrow.{sem};
    ghost use Rattle.std.specs.Option.{option_copied_mut};
    ghost use Rattle.snow_base.specs.declared.block.Header.{Header};
    ghost use Rattle.snow_board.specs.Kept.Grown.{IsGrown};
    ghost use Rattle.snow_tree.specs.Clauses.Lending.{lends_load};

    /// Returns the tree where nothing is pending above this block, whose height is below 2^64. It
    /// takes no memory.
    /// Rule: AvalancheGo, snow/consensus/snowman.
    pub fn new(alloc: Global, last: Id, height: u64) -> Self
        ensures { result ≡ begun last height }
    {
        Tree {
            last,
            height,
            children: Children::new(),
            nodes: Row::new(alloc),
            rejected: Vec::new(alloc),
            alloc,
        }
    }

    /// Puts a block behind the pending ones, with a load. Its identifier isn't in the tree, and its
    /// parent is pending or the last accepted block. `at` is the parent's place, or `None` where
    /// that is the last accepted block. On want of memory it returns `TreeFull` with the load, and
    /// the tree stays as it was.
    /// Rule: AvalancheGo, snow/consensus/snowman.
    pub fn insert(
        &mut self,
        id: Id,
        parent: Id,
        at: Option<usize>,
        height: u64,
        load: T,
    ) -> Result<(), TreeFull<T>>
        requires unknown { is_on (self.old).last (blocks_in (self.old).pending) id ≡ false }
        requires follows { is_on (self.old).last (blocks_in (self.old).pending) parent ≡ true }
        requires place { at ≡ place_in (self.old).pending parent }
        ensures ok { let block : Header = record { id = id; parent = parent; height = height } in
            OnOk result (self.new ≡ inserted self.old block load) }
        ensures err { OnErr result (self.new ≡ self.old) }
        ensures load { IfErr result (λ full. full.load ≡ load) }
    {
        let block = Header { id, parent, height };
        let room = make_room_and_link(
            self.alloc,
            &mut self.children,
            &mut self.nodes,
            &mut self.rejected,
            &self.last,
            &block,
            at,
        );
        if room.is_err() {
            return Err(TreeFull { load });
        }
        let node = Node {
            number: self.nodes.next(),
            up: self.nodes.number_at(at),
            parent,
            height,
            children: Children::new(),
            load,
        };
        self.nodes.push(id, node, at);
        self.rejected.clear();
        Ok(())
    }

    /// Takes the block back that was issued last, and returns its load, or `None` exactly where
    /// none is pending. It takes no memory.
    /// Rule: AvalancheGo, snow/consensus/snowman.
    pub fn take_back(&mut self) -> Option<T>
        ensures load { result ≡ option_map (λ e. e.load) (slice_get (self.old).pending (length (self.old).pending - 1)) }
        ensures tree { self.new ≡ taken_back self.old }
    {
        let (_, node) = self.nodes.pop()?;
        unlink(
            &mut self.children,
            &mut self.nodes,
            &self.last,
            &node.parent,
        );
        Some(node.load)
    }

    /// Returns the last accepted block. Each pending one came after its parent.
    /// Rule: AvalancheGo, snow/consensus/snowman.
    pub fn last(&self) -> Id
        ensures last { result ≡ (self.now).last }
        ensures grown { IsGrown (self.now).last (reverse (blocks_in (self.now).pending)) }
    {
        self.last
    }

    /// Returns the height of the last accepted block, below 2^64.
    /// Rule: AvalancheGo, snow/consensus/snowman.
    pub fn last_height(&self) -> u64
        ensures { result ≡ (self.now).height }
    {
        self.height
    }

    /// Returns how many blocks are pending.
    /// Rule: AvalancheGo, snow/consensus/snowman.
    pub fn len(&self) -> usize
        ensures { result ≡ length (self.now).pending }
    {
        self.nodes.len()
    }

    /// Returns the block at a place in order of issue, or `None` exactly where `place` is `len` or
    /// more.
    /// Rule: AvalancheGo, snow/consensus/snowman.
    pub fn at(&self, place: usize) -> Option<Id>
        ensures { result ≡ option_map (λ e. e.block.id) (slice_get (self.now).pending place) }
    {
        match self.nodes.get_index(place) {
            Some((id, _)) => Some(*id),
            None => None,
        }
    }

    /// Returns what the block at a place says of itself, or `None` exactly where `place` is `len`
    /// or more.
    /// Rule: AvalancheGo, snow/consensus/snowman.
    pub fn block(&self, place: usize) -> Option<Header>
        ensures { result ≡ option_map (λ e. e.block) (slice_get (self.now).pending place) }
    {
        block_at(&self.nodes, place)
    }

    /// Returns what a pending block says of itself, or `None` exactly where it isn't pending.
    /// Rule: AvalancheGo, snow/consensus/snowman.
    pub fn header_of(&self, id: &Id) -> Option<Header>
        ensures { result ≡ option_map (λ e. e.block) (entry_in (self.now).pending id.now) }
    {
        match self.nodes.get(id) {
            Some(node) => Some(Header {
                id: *id,
                parent: node.parent,
                height: node.height,
            }),
            None => None,
        }
    }

    /// Returns where a block stands in order of issue, from 0, or `None` exactly where it isn't
    /// pending.
    /// Rule: AvalancheGo, snow/consensus/snowman.
    pub fn place_of(&self, id: &Id) -> Option<usize>
        ensures place { result ≡ place_in (self.now).pending id.now }
        ensures pending { is_some result ≡ has_block (blocks_in (self.now).pending) id.now }
    {
        place_of(&self.nodes, id)
    }

    /// Returns where the parent of the block at a place stands, or `None` where that isn't pending.
    /// Each block notes its parent's number, so it compares no identifiers. Past the last place the
    /// contract says nothing.
    /// Rule: AvalancheGo, snow/consensus/snowman.
    pub fn parent_place(&self, place: usize) -> Option<usize>
        ensures { IfSome (slice_get (self.now).pending place) (λ e. result ≡ place_in (self.now).pending e.block.parent) }
    {
        self.nodes.parent_of(place)
    }

    /// Returns the children of the last accepted block in order of issue.
    /// Rule: AvalancheGo, snow/consensus/snowman.
    pub fn first_ids(&self) -> &[Id]
        ensures { result.now ≡ children_of (blocks_in (self.now).pending) (self.now).last }
    {
        self.children.list()
    }

    /// Returns the pending children of a block in order of issue. They are empty where the block
    /// isn't on the board or has none.
    /// Rule: AvalancheGo, snow/consensus/snowman.
    pub fn child_ids(&self, id: &Id) -> &[Id]
        ensures { result.now ≡ children_of (blocks_in (self.now).pending) id.now }
    {
        if self.last == *id {
            return self.children.list();
        }
        match self.nodes.get(id) {
            Some(node) => node.children.list(),
            None => &[],
        }
    }

    /// Returns the load at a place, or `None` exactly where `place` is `len` or more.
    /// Rule: AvalancheGo, snow/consensus/snowman.
    pub fn load(&self, place: usize) -> Option<&T>
        ensures { option_copied result ≡ option_map (λ e. e.load) (slice_get (self.now).pending place) }
    {
        match self.nodes.get_index(place) {
            Some((_, node)) => Some(&node.load),
            None => None,
        }
    }

    /// Returns the load at a place, to write, or `None` exactly where `place` is `len` or more. All
    /// else stays.
    /// Rule: AvalancheGo, snow/consensus/snowman.
    pub fn load_mut(&mut self, place: usize) -> Option<&mut T>
        ensures* writes_back { sem 𝓛 (lends_load T.row self.entry place result) }
        ensures value { option_copied_mut result ≡ option_map (λ e. e.load) (slice_get (self.old).pending place) }
    {
        match self.nodes.load_mut(place) {
            Some(load) => Some(&mut *load),
            None => None,
        }
    }

    /// Returns the child of the last accepted block that a pending block is, or from which it
    /// descends, or `None` exactly where the block isn't pending. It walks up the block's line.
    /// Rule: AvalancheGo, snow/consensus/snowman.
    pub fn ancestor(&self, id: &Id) -> Option<Id>
        ensures ancestor { result ≡ ancestor_in self.now id.now }
        ensures pending { is_some result ≡ has_block (blocks_in (self.now).pending) id.now }
    {
        ancestor(&self.nodes, &self.last, id)
    }

    /// Makes a child of the last accepted block the last accepted one, and puts its load in place
    /// of `load`. All blocks that don't descend from it go, with their loads; `rejected` names
    /// them. It takes no memory. Where the child is the only one it touches no other block,
    /// whatever is pending. Where others leave, it passes once over the pending blocks, and looks
    /// up no identifier of one that stays.
    /// Rule: AvalancheGo, snow/consensus/snowman.
    pub fn promote(&mut self, child: &Id, load: &mut T)
        requires child { option_map (λ e. e.block.parent) (entry_in (self.old).pending child.now) ≡ Some (self.old).last }
        ensures load { IfSome (entry_in (self.old).pending child.now) (λ e. load.new ≡ e.load) }
        ensures tree { IfSome (entry_in (self.old).pending child.now) (λ e. self.new ≡ promoted self.old e.block) }
    {
        self.rejected.clear();
        self.height = take_accepted(
            &mut self.nodes,
            &self.last,
            child,
            &mut self.rejected,
            &mut self.children,
            load,
        );
        self.last = *child;
    }

    /// Returns the blocks that the last call of `promote` rejected, in order of issue. They are
    /// empty after an issue.
    /// Rule: AvalancheGo, snow/consensus/snowman.
    pub fn rejected(&self) -> &[Id]
        ensures { result.now ≡ (self.now).rejected }
    {
        self.rejected.as_slice()
    }
}
