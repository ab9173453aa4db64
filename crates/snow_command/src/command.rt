/// The kind of blocks, as a word of the command line names it.
/// Rule: this project's own.
#[derive(Clone, Copy, Debug, PartialEq, Eq)]
pub enum ChainName {
    /// `plain`: blocks that state their identifier and whether they are valid.
    Plain,
    /// `tally`: blocks known by their SHA-256, each with an amount that may not lift a sum above a
    /// cap.
    Tally,
    /// `ledger`: blocks known by their SHA-256, each with transfers between accounts that their
    /// senders' balances have to cover.
    Ledger,
}

/// How a counter that isn't final answers, as a word of the command line names it.
/// Rule: the Snow family paper.
#[derive(Clone, Copy, Debug, PartialEq, Eq)]
pub enum RuleName {
    /// `snowball`: its preference, which moves once the other bit was followed more often.
    Snowball,
    /// `snowflake`: its flake, the bit that was followed last.
    Snowflake,
}

/// What the program does with a stream.
/// Rule: this project's own.
#[derive(Clone, Copy, Debug, PartialEq, Eq)]
pub enum Job {
    /// `decide`: a node decides by whole polls that the stream has.
    Decide,
    /// `run`: a node asks other nodes.
    Run,
    /// `audit`: the lines that a `run` wrote are held against those of the model.
    Audit,
}

/// What the words of the command line ask for.
/// Rule: this project's own.
#[derive(Clone, Copy, Debug, PartialEq, Eq)]
pub enum Command {
    /// A stream is read, by this rule over blocks of this chain.
    Stream {
        /// What is done with it.
        job: Job,
        /// The chain that the blocks are of.
        chain: ChainName,
        /// The rule of the polls.
        rule: RuleName,
    },
    /// A node that runs on events of the program's own making, over blocks of the tally chain.
    Drill {
        /// The rule of the polls.
        rule: RuleName,
        /// What the events follow from.
        seed: u64,
        /// How many blocks are made, from 1 to 10,000.
        blocks: u32,
    },
}
