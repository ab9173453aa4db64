ghost use Rattle.std.specs.Prelude.{◌≡◌, [], ◌∷◌, ◌++◌, None, IfOk, IfSome, OnOk, OnErr, length};

use crate::identifier::Id;
use crate::node::NodeId;
use std::alloc::{AllocError, Global};
use std::marker::Model;

/// A list that grows at its end. Contracts see the list of its items.
/// Rule: this project's own.
#[derive(Debug, Drop)]
pub struct Items<T> {
    items: Vec<T>,
}

impl<T> Model for Items<T> {
    ghost use Rattle.std.specs.Prelude.{List};

    ghost Value = { List T };

    ghost view = { λ a. a.items.items };
}

impl<T: Drop> Items<T> {
    /// Returns the empty list. It takes no memory.
    /// Rule: this project's own.
    pub fn new(alloc: Global) -> Self
        ensures { result ≡ [] }
    {
        Items {
            items: Vec::new(alloc),
        }
    }

    /// Returns the empty list, with room for so many items. On want of memory it returns
    /// `AllocError`.
    /// Rule: this project's own.
    pub fn with_capacity(alloc: Global, items: usize) -> Result<Self, AllocError>
        ensures { IfOk result (λ made. made ≡ []) }
    {
        let items = Vec::with_capacity(alloc, items)?;
        Ok(Items { items })
    }

    /// Returns the list of these items, in the memory in which they stand. It takes none.
    /// Rule: this project's own.
    pub fn from_vec(items: Vec<T>) -> Self
        ensures { result ≡ items.items }
    {
        Items { items }
    }

    /// Appends an item. On want of memory it returns `AllocError`, and the list stays as it was.
    /// Rule: this project's own.
    #[inline(always)]
    pub fn push(&mut self, item: T) -> Result<(), AllocError>
        ensures ok { OnOk result (self.new ≡ self.old ++ item ∷ []) }
        ensures err { OnErr result (self.new ≡ self.old) }
    {
        // Room is made first, so that the item is moved once.
        self.items.reserve(1)?;
        self.items.push_reserved(item);
        Ok(())
    }

    /// Returns the items, in the order in which they came.
    /// Rule: this project's own.
    pub fn list(&self) -> &[T]
        ensures { result.now ≡ self.now }
    {
        self.items.as_slice()
    }

    /// Takes the last item out and returns it. It returns `None` exactly where the list is empty,
    /// which it then stays.
    /// Rule: this project's own.
    pub fn pop(&mut self) -> Option<T>
        ensures some { IfSome result (λ item. self.old ≡ self.new ++ item ∷ []) }
        ensures none { result ≡ None → self.old ≡ [] }
        ensures empty { result ≡ None → self.new ≡ [] }
    {
        self.items.pop()
    }

    /// Takes all items out. It takes no memory.
    /// Rule: this project's own.
    pub fn clear(&mut self)
        ensures { self.new ≡ [] }
    {
        self.items.clear();
    }
}

impl<T: Copy + Drop> Items<T> {
    /// Returns a list with copies of these items. On want of memory it returns `AllocError`.
    /// Rule: this project's own.
    pub fn from_slice(alloc: Global, items: &[T]) -> Result<Self, AllocError>
        ensures { IfOk result (λ list. list ≡ items.now) }
    {
        let mut list = Items::with_capacity(alloc, items.len())?;
        list.append(items)?;
        Ok(list)
    }

    /// Appends copies of these items, in their order. On want of memory it returns `AllocError`,
    /// and the list stays as it was.
    /// Rule: this project's own.
    pub fn append(&mut self, items: &[T]) -> Result<(), AllocError>
        ensures ok { OnOk result (self.new ≡ self.old ++ items.now) }
        ensures err { OnErr result (self.new ≡ self.old) }
    {
        self.items.extend_from_slice(items)?;
        Ok(())
    }
}

impl Items<Id> {
    /// Puts the identifiers of these bytes in place of what the list held. On want of memory it
    /// returns `AllocError`, and the list stays as it was.
    /// Rule: this project's own.
    pub fn replace(&mut self, chunks: &[[u8; 32]]) -> Result<(), AllocError>
        ensures ok { OnOk result (self.new ≡ chunks.now) }
        ensures err { OnErr result (self.new ≡ self.old) }
    {
        self.items.resize(chunks.len(), Id::from_bytes([0; 32]))?;
        write_over(self.items.as_mut_slice(), chunks);
        Ok(())
    }
}

// Writes identifiers over others.
fn write_over(ids: &mut [Id], chunks: &[[u8; 32]])
    requires { length ids.old ≡ length chunks.now }
    ensures { ids.new ≡ chunks.now }
{
    for at in 0..ids.len() {
        ids[at] = Id::from_bytes(chunks[at]);
    }
}

/// Bytes, as those of a block, which has at most 65,536 of them in an event.
/// Rule: this project's own.
pub type Bytes = Items<u8>;

/// A list of identifiers of blocks, 32 bytes each.
/// Rule: this project's own.
pub type Ids = Items<Id>;

/// A list of numbers below 2^64.
/// Rule: this project's own.
pub type Nums = Items<u64>;

/// A list of nodes, each with its weight, which is below 2^64.
/// Rule: this project's own.
pub type Nodes = Items<(NodeId, u64)>;

/// A list of blocks, each as its bytes.
/// Rule: this project's own.
pub type Blocks = Items<Bytes>;
