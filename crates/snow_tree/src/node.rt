use crate::children::Children;
use snow_base::Id;
use std::collections::VecDeque;

/// A pending block, with its children and its load. Its identifier is the key under which it
/// stands.
#[derive(Debug, Drop)]
pub(crate) struct Node<T> {
    // Its number, which is higher than those of all that were issued before, and that of its parent. They
    // never change. Where the parent wasn't pending any more it is 0, which no block has.
    pub(crate) number: usize,
    pub(crate) up: usize,
    pub(crate) parent: Id,
    pub(crate) height: u64,
    pub(crate) children: Children,
    pub(crate) load: T,
}

/// Nodes in order of issue, each with its identifier.
pub(crate) type Entries<T> = VecDeque<(Id, Node<T>)>;
