ghost use Rattle.std.specs.Prelude.{◌≡◌};
ghost use Rattle.snow_board.specs.Kept.Ending.{leading_after};

use crate::state::State;
use snow_base::Header;
use snow_board::Leading;
use snow_flake::Rule;

/// Returns the preference after a child was issued, with the state then. It walks the answers only
/// where the child stands on the preference and that wasn't known to be the top.
/// Rule: AvalancheGo, snow/consensus/snowman.
pub fn after_issue<R: Rule>(leading: Leading, state: &State, child: &Header) -> Leading
    ensures { result ≡ leading_after R.answer leading state.now child.now }
{
    if child.parent != leading.block {
        return leading;
    }
    if leading.is_top {
        return Leading {
            block: child.id,
            is_top: true,
        };
    }
    let block = state.preference::<R>();
    Leading {
        block,
        is_top: block == child.id,
    }
}
