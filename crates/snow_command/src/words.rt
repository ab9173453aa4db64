ghost use Rattle.std.specs.Prelude.{◌≡◌, map, string_bytes, IfOk};
ghost use Rattle.snow_command.specs.Model.Words.{command_of};

use crate::command::Command;
use crate::ordering::order;
use crate::parsing::command_of_ordered;
use std::alloc::{AllocError, Global};

/// Returns the command for which the words of the command line ask, without the program's name:
/// `decide`, `run` or `audit` with `--chain plain`, `--chain tally` or `--chain ledger` and `--rule
/// snowball` or `--rule snowflake`, where the first of each is the default; or `drill` with a seed,
/// a number of blocks and a rule. It returns `None` exactly where the words ask for none, as where
/// a word has no place, an option stands twice, or a value is none of the option's. On want of
/// memory it returns `AllocError`.
/// Rule: this project's own.
#[tactic(auto, using(crate::proofs::Whole::none_in_order, crate::proofs::Whole::asks))]
pub fn read_words(alloc: Global, words: &Vec<String>) -> Result<Option<Command>, AllocError>
    ensures { IfOk result (λ command. command ≡ command_of (map string_bytes words.now.items)) }
{
    let Some(list) = order(alloc, words.as_slice())? else {
        return Ok(None);
    };
    command_of_ordered(alloc, list.as_slice())
}
