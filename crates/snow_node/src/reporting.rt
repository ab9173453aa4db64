ghost use Rattle.std.specs.Prelude.{◌≡◌, [], ◌∷◌, ◌++◌, map, Err, OnOk, OnErr};
ghost use Rattle.snow_board.specs.Model.Preference.{preferred};
ghost use Rattle.snow_node.specs.Model.Telling as model;
ghost use Rattle.snow_node.specs.Clauses.Stepping.{Tells, LogsFront};

use crate::stop::Halt;
use snow_base::Id;
use snow_board::{Board, Decision};
use snow_lines::{DropWhy, Line, Lines};
use std::alloc::AllocError;

/// Appends a line to the log. On want of memory it returns `Halt::Memory`, and the log stays as it
/// was.
/// Rule: this project's own.
#[tactic(auto, using(crate::proofs::Logs::logs_nothing))]
pub fn write(line: Line, log: &mut Lines) -> Result<(), Halt>
    ensures memory { OnErr result (result ≡ Err Halt.Memory) }
    ensures lines { Tells result log.old log.new (line ∷ []) }
{
    log.push(line)?;
    Ok(())
}

/// Appends the line that gives a block up. On want of memory it returns `Halt::Memory`, and the log
/// stays as it was.
/// Rule: this project's own.
pub fn drop_block(id: Id, why: DropWhy, log: &mut Lines) -> Result<(), Halt>
    ensures memory { OnErr result (result ≡ Err Halt.Memory) }
    ensures lines { Tells result log.old log.new (Line.Drop id why ∷ []) }
{
    write(Line::Drop { id, why }, log)
}

/// Appends the lines of the last poll's decisions, and that of the preference where it isn't
/// `before`. On want of memory it returns `AllocError`, and the log has a front of these lines
/// more.
/// Rule: this project's own.
#[tactic(auto, using(crate::proofs::Logs::logging))]
pub fn tell<B: Board>(board: &B, before: &Id, log: &mut Lines) -> Result<(), AllocError>
    ensures ok { OnOk result (log.new ≡ log.old ++ (map model.decision_line (B.decided board.now)
        ++ model.preference_line before.now (preferred B.answer (B.board board.now)))) }
    ensures err { OnErr result (LogsFront log.old log.new (map model.decision_line (B.decided board.now)
        ++ model.preference_line before.now (preferred B.answer (B.board board.now)))) }
{
    tell_decisions(board.decisions(), log)?;
    let id = board.preference();
    if *before == id {
        return Ok(());
    }
    log.push(Line::Prefer { id })
}

/// Appends a line for each decision.
#[tactic(auto, using(crate::proofs::Logs::logging))]
fn tell_decisions(decisions: &[Decision], log: &mut Lines) -> Result<(), AllocError>
    ensures ok { OnOk result (log.new ≡ log.old ++ map model.decision_line decisions.now) }
    ensures err { OnErr result (LogsFront log.old log.new (map model.decision_line decisions.now)) }
{
    for decision in decisions {
        log.push(line_of(decision))?;
    }
    Ok(())
}

/// Returns the line of a decision.
fn line_of(decision: &Decision) -> Line
    ensures { result ≡ model.decision_line decision.now }
{
    if decision.accepted {
        Line::Accept { id: decision.id }
    } else {
        Line::Reject { id: decision.id }
    }
}
