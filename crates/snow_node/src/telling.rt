ghost use Rattle.std.specs.Prelude.{◌≡◌};
ghost use Rattle.snow_node.specs.Clauses.Matching.{MayFollow, MayTell};
ghost use Rattle.snow_node.specs.Model.Telling.{with_decision, with_decisions};

use snow_board::Decision;
use snow_chain::Chain;

/// Tells the chain each decision, in order: it accepts or rejects the block. It takes no memory.
/// Rule: AvalancheGo, snow/consensus/snowman.
pub fn notify_chain<C: Chain>(chain: &mut C, decisions: &[Decision])
    requires { MayFollow (C.held chain.old) decisions.now }
    ensures { C.held chain.new ≡ with_decisions (C.held chain.old) decisions.now }
{
    for decision in decisions {
        notify_of_one(chain, decision);
    }
}

/// Tells the chain one decision.
fn notify_of_one<C: Chain>(chain: &mut C, decision: &Decision)
    requires { MayTell (C.held chain.old) decision.now.id decision.now.accepted }
    ensures { C.held chain.new ≡ with_decision (C.held chain.old) decision.now }
{
    if decision.accepted {
        chain.accept(&decision.id);
    } else {
        chain.reject(&decision.id);
    }
}
