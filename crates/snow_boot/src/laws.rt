//! Laws of bootstrapping, each a function that does nothing and ensures the law.
ghost use Rattle.snow_boot.specs.Laws.OutcomeLaw.{AskedLaw, AskedOnceLaw, ExecutionLaw, QuietLaw, EndLaw};
ghost use Rattle.snow_boot.specs.Laws.FinishLaw.{FinishLaw};
ghost use Rattle.snow_boot.specs.Laws.Reached.{ReachedLinkedLaw};
ghost use Rattle.snow_boot.specs.Laws.ReplyLaw.{ReplyLaw};
ghost use Rattle.snow_boot.specs.Laws.StoppedLaw.{StoppedLaw, RefusedLaw};

/// Once the node asked for what targets miss, open requests name each identifier that one of them
/// misses.
/// Rule: this project's own.
pub fn asked_law()
    ensures { AskedLaw }
{}

/// Where open requests name all that targets miss, asking again writes nothing and draws no number.
/// Rule: this project's own.
pub fn asked_once_law()
    ensures { AskedOnceLaw }
{}

/// A node executes blocks in order and accepts each once, up to the first that is refused; exactly
/// those below it were accepted then.
/// Rule: this project's own.
pub fn execution_law()
    ensures { ExecutionLaw }
{}

/// No event accepts a block and leaves bootstrapping going on: no path is executed in parts.
/// Rule: this project's own.
pub fn quiet_law()
    ensures { QuietLaw }
{}

/// Bootstrapping is done only where no target misses a block. Exactly the blocks of the path of the
/// highest kept target were accepted then, upwards. Where one of them is refused, exactly those
/// below it were.
/// Rule: this project's own.
pub fn end_law()
    ensures { EndLaw }
{}

/// The kept blocks of each node that can be reached fit one another: that is the premise of the laws
/// about their paths.
/// Rule: this project's own.
pub fn reached_linked_law()
    ensures { ReachedLinkedLaw }
{}

/// An event that stops bootstrapping accepts no block, but where a block is refused: so at a fork, at
/// a conflict, where as many blocks are kept as may be, and where no number is left. The definition
/// knows no want of memory.
/// Rule: this project's own.
#[tactic(auto, using(crate::proofs::Stopping::stops_early))]
pub fn stopped_law()
    ensures { StoppedLaw }
{}

/// Where a block that comes is refused there is no line. Else a block of the path of the highest kept
/// target is refused, no target misses a block, and just the blocks below it were accepted.
/// Rule: this project's own.
#[tactic(auto, using(crate::proofs::Refusing::refuses))]
pub fn refused_law()
    ensures { RefusedLaw }
{}

/// Where a node that can be reached is done, no target misses a block. From right above the last
/// accepted block to the height of the highest kept target just the block at each height was
/// accepted, once and upwards, and every other kept target is one of these.
/// Rule: this project's own.
pub fn finish_law()
    ensures { FinishLaw }
{}

/// Where a target misses a block, a reply to a request for it that begins with that block never
/// comes in vain: the block is kept at a height that was free, or the target is found, or
/// bootstrapping stops or is done.
/// Rule: this project's own.
pub fn reply_law()
    ensures { ReplyLaw }
{}
