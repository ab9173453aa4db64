ghost use Rattle.std.specs.Prelude.{◌≡◌, is_some, IfOk, OnOk, OnErr};

use crate::fault::ChainFault;
use snow_base::{Header, Id};
use std::alloc::{AllocError, Global};

/// A kind of blocks, and the states of those that a node holds: of the last accepted block and of
/// blocks above it. A block's bytes say its identifier, its parent and its height. Its bytes and
/// its parent's state say whether it is valid. A node verifies blocks on their parents and accepts
/// them in order.
/// Rule: AvalancheGo, snow/consensus/snowman and this project's own.
pub trait Chain: Sized + Drop {
    ghost use Rattle.snow_chain.specs.Model.Chain as model;

    /// What bytes say of a block, the state that a valid block has, and the states with which a run
    /// may begin.
    ghost rules: { model.Rules };

    /// The last accepted block, and the states that are held.
    ghost held: { Self → model.Held };

    /// Returns a chain that holds the state of the last accepted block alone. It returns `State`
    /// exactly where the rules don't take the state, unless memory ran out. On want of memory it
    /// returns `Memory`.
    /// Rule: this project's own.
    fn begin(alloc: Global, last: Id, state: &[u64]) -> Result<Self, ChainFault>
        ensures held { IfOk result (λ made. held made ≡ model.begun last state.now) }
        ensures state { model.Begins result (rules.takes state.now) };

    /// Returns what the bytes say of a block, or `None` exactly where the rules read no block in
    /// them. A height is below 2^64.
    /// Rule: AvalancheGo, snow/consensus/snowman.
    fn parse(&self, bytes: &[u8]) -> Option<Header>
        ensures { result ≡ rules.header_of bytes.now };

    /// Returns whether a block with these bytes is valid on its parent. The chain holds the
    /// parent's state, and none for `id`. A valid block's state is then held for `id`, and all else
    /// stays; an invalid block changes nothing. On want of memory it returns `AllocError`, and all
    /// stays as it was.
    /// Rule: AvalancheGo, snow/consensus/snowman.
    fn verify(&mut self, parent: &Id, id: &Id, bytes: &[u8]) -> Result<bool, AllocError>
        requires { model.MayVerify (held self.old) parent.now id.now }
        ensures valid { IfOk result (λ valid. valid ≡ is_some (model.next_on rules (held self.old) parent.now bytes.now)) }
        ensures ok { OnOk result (held self.new
            ≡ model.verified (held self.old) id.now (model.next_on rules (held self.old) parent.now bytes.now)) }
        ensures err { OnErr result (held self.new ≡ held self.old) };

    /// Makes a block the last accepted one. Its state is held, it isn't the last accepted block,
    /// and that one's state is held too. The state of the block before it goes, and all other
    /// states stay. It takes no memory.
    /// Rule: AvalancheGo, snow/consensus/snowman.
    fn accept(&mut self, id: &Id)
        requires { model.MayAccept (held self.old) id.now }
        ensures { held self.new ≡ model.accepted (held self.old) id.now };

    /// Lets a block's state go. The state is held, and the block isn't the last accepted one. All
    /// else stays. It takes no memory.
    /// Rule: AvalancheGo, snow/consensus/snowman.
    fn reject(&mut self, id: &Id)
        requires { model.MayReject (held self.old) id.now }
        ensures { held self.new ≡ model.rejected (held self.old) id.now };

    /// Bytes that say nothing of a block are valid on no state.
    ghost needs_header: { model.NeedsHeader rules };
}
