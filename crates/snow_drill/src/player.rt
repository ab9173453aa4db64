ghost use Rattle.std.specs.Prelude.{◌≡◌};

use crate::account::Account;
use crate::driven::Driven;
use crate::generator::Generator;
use crate::made::Made;
use snow_lines::Lines;
use std::alloc::Global;

/// A drill under way: its node, the number of the last frame, the blocks that it made, and what it
/// keeps of its lines.
/// Rule: this project's own.
pub struct Player<E> {
    pub node: E,
    pub frame: u64,
    pub generator: Generator,
    pub made: Made,
    pub account: Account,
    /// The lines of an event that was made before. Only their room counts.
    pub log: Lines,
    pub alloc: Global,
}

impl<E: Driven> Player<E> {
    /// Drops all but the account of the lines, which it returns.
    /// Rule: this project's own.
    pub fn into_account(self) -> Account
        ensures { result ≡ self.account }
    {
        let Player {
            node,
            frame: _,
            generator: _,
            made,
            account,
            log,
            alloc: _,
        } = self;
        node.discard();
        drop(made);
        drop(log);
        account
    }
}
