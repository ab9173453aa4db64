//! Laws of polls and boards together, and of a node that runs: each a function that does nothing and
//! ensures the law.
ghost use Rattle.snow_node.specs.Laws.CompletionLaw.{CompletionLaw};
ghost use Rattle.snow_node.specs.Laws.LoopsLaw.{SettlingEnds, ClosingEnds, RepollsEnd};
ghost use Rattle.snow_node.specs.Laws.RestLaw.{RestLaw};

/// A poll that closes early leaves the very board that each of its completions would leave.
/// Rule: this project's own.
pub fn completion_law()
    ensures { CompletionLaw }
{}

/// Settling, closing and repolls go on until nothing is left to do: the count from which each is
/// made never ends it, and with any greater one the same lines and the same node come out.
/// Rule: this project's own.
#[tactic(auto, using(crate::proofs::Counts::settling_ends, crate::proofs::Counts::closing_ends, crate::proofs::Counts::repolls_end))]
pub fn loops_law()
    ensures settling { SettlingEnds }
    ensures closing { ClosingEnds }
    ensures repolls { RepollsEnd }
{}

/// Between two events a node that runs is at rest: no waiting block is hopeless or ready, no held
/// reply is free to vote, and no closed poll stands in front.
/// Rule: this project's own.
#[tactic(auto, using(crate::proofs::AtRest::at_rest))]
pub fn rest_law()
    ensures { RestLaw }
{}
