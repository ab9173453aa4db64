//! Laws of the kept blocks, each a function that does nothing and ensures the law.
ghost use Rattle.snow_store.specs.Laws.Linking.{LinkedLaw, RunLaw, PathLaw};
ghost use Rattle.snow_store.specs.Laws.ProgressLaw.{ProgressLaw};

/// Taking keeps the blocks linked: above the last accepted block, no two at one height, the block
/// right above it its child, and of two at neighbouring heights the higher the lower one's.
/// Rule: this project's own.
pub fn linked_law()
    ensures { LinkedLaw }
{}

/// A kept block's path by parents ends at the lowest height of the unbroken run of held heights up
/// to its own. So what a target misses can be told from heights alone.
/// Rule: this project's own.
#[tactic(auto, using(crate::proofs::Walking::path_bottom))]
pub fn run_law()
    ensures { RunLaw }
{}

/// Where no target misses a block, the path of the highest kept target has a block at each height
/// from right above the last accepted one, and the highest block of every other kept target lies on
/// it.
/// Rule: this project's own.
pub fn path_law()
    ensures { PathLaw }
{}

/// A block that a target misses never comes in vain: it stops the run, or the target's path goes on
/// with it, or the target was found.
/// Rule: this project's own.
pub fn progress_law()
    ensures { ProgressLaw }
{}
