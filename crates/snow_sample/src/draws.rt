ghost use Rattle.std.specs.Prelude.{◌≡◌, ◌+◌, ◌^◌, ◌<◌, ◌≤◌, [], ◌∷◌, ◌++◌, length, All, OnOk, OnErr};

use snow_base::NodeId;
use std::alloc::{AllocError, Global};
use std::marker::Model;

/// A node of 20 bytes, and how often a sample drew it.
/// Rule: AvalancheGo, utils/sampler.
#[derive(Clone, Copy, Debug, PartialEq, Eq)]
pub struct Draw {
    /// The node.
    pub node: NodeId,
    /// How often it was drawn, at least once.
    pub count: u32,
}

/// The draws of a sample, in order of first draw. Contracts see the list of them. Each has a count
/// of at least 1.
/// Rule: AvalancheGo, utils/sampler.
#[derive(Debug, Drop)]
pub struct Draws {
    draws: Vec<Draw>,
}

impl Model for Draws {
    ghost use Rattle.std.specs.Prelude.{List, All, ◌≤◌};
    ghost use Rattle.snow_sample.specs.declared.draws.Draw.{Draw};

    ghost Value = { List Draw };

    ghost view = { λ a. a.draws.items };

    ghost invariant = { λ a. All (λ d. 1 ≤ d.count) a.draws.items };
}

impl Draws {
    ghost use Rattle.snow_sample.specs.Kept.Drawn.{is_at, one_more};
    ghost use Rattle.snow_sample.specs.Model.Sampling.{draw_count};

    /// Returns the empty list of draws. It takes no memory.
    /// Rule: AvalancheGo, utils/sampler.
    pub fn new(alloc: Global) -> Draws
        ensures { result ≡ [] }
    {
        Draws {
            draws: Vec::new(alloc),
        }
    }

    /// Appends a draw, whose count is at least 1. On want of memory it returns `AllocError`, and
    /// the draws stay as they were.
    /// Rule: AvalancheGo, utils/sampler.
    pub fn push(&mut self, draw: Draw) -> Result<(), AllocError>
        requires { 1 ≤ draw.count }
        ensures ok { OnOk result (self.new ≡ self.old ++ draw ∷ []) }
        ensures err { OnErr result (self.new ≡ self.old) }
    {
        self.draws.push(draw)?;
        Ok(())
    }

    // Appends the first draw of a node. Its bytes are read only once there is room, so that they go
    // straight to their place. After want of memory the draws are as before.
    pub(crate) fn push_first(&mut self, node: &NodeId) -> Result<(), AllocError>
        ensures ok { OnOk result (self.new ≡ self.old ++ record { node = node.now; count = 1 } ∷ []) }
        ensures err { OnErr result (self.new ≡ self.old) }
    {
        self.draws.reserve(1)?;
        self.draws.push_reserved(Draw {
            node: *node,
            count: 1,
        });
        Ok(())
    }

    /// Returns the draws in order of first draw, each with a count of at least 1.
    /// Rule: AvalancheGo, utils/sampler.
    pub fn list(&self) -> &[Draw]
        ensures list { result.now ≡ self.now }
        ensures counts { All (λ d. 1 ≤ d.count) result.now }
    {
        self.draws.as_slice()
    }

    // Makes room for so many draws more.
    pub(crate) fn reserve(&mut self, more: usize) -> Result<(), AllocError>
        ensures same { self.new ≡ self.old }
    {
        self.draws.reserve(more)
    }

    // Whether a draw of this node stands at a place.
    pub(crate) fn is_at(&self, place: usize, node: &NodeId) -> bool
        ensures { result ≡ is_at self.now place node.now }
    {
        match self.draws.get(place) {
            Some(draw) => draw.node == *node,
            None => false,
        }
    }

    // Counts one draw more at a place.
    pub(crate) fn add_one(&mut self, place: usize)
        requires place { place < length self.old }
        requires few { draw_count self.old + 1 < 2 ^ 32 }
        ensures { self.new ≡ one_more self.old place }
    {
        self.draws[place].count += 1;
    }

    /// Takes all draws out. It takes no memory.
    /// Rule: AvalancheGo, utils/sampler.
    pub fn clear(&mut self)
        ensures { self.new ≡ [] }
    {
        self.draws.clear();
    }
}
