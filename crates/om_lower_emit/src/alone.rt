//! Barriers, directives that stand alone, `atomic`, and jumps out of a loop's body.

ghost use Rattle.std.specs.Prelude.{◌≡◌, OnOk, is_some, true};
ghost use Rattle.om_lower_emit.specs.Words.{Appends, AppendsAnywhere, AppendsStatement, AssignmentHasCode, EmitsJump};
ghost use Rattle.om_lower_emit.specs.Words.{UpdateHasCode, alone_row, assignment_row, barrier, update_row};
ghost use Rattle.om_lower_emit.specs.Words.{worksharing_end};
ghost use Rattle.om_scope_tree.specs.ResolvedView as view;

use crate::draft::{Draft, Jump};
use crate::expression::value;
use crate::operator::{side_of, update_of};
use crate::spot::Here;
use crate::unused::effect;
use om_code::instruction::Barrier;
use om_code::{Instr, Serial, Sharing, Task, Team};
use om_scope_tree::{ResolvedStatement, ResolvedUpdate, StandAlone};
use om_seq::AllocResult;

/// Writes a directive that stands alone.
pub fn stand_alone(draft: &mut Draft, line: u32, directive: &StandAlone) -> AllocResult<()>
    ensures { AppendsAnywhere result (λ at. alone_row at line directive.now) draft.old draft.new }
{
    match directive {
        StandAlone::Barrier => {
            barrier(draft, line, Barrier::Explicit)?;
            Ok(())
        }
        StandAlone::Taskwait => {
            draft.put(line, Instr::Task(Task::WaitBegin))?;
            draft.put(line, Instr::Task(Task::WaitEnd))?;
            Ok(())
        }
        StandAlone::Taskyield => {
            draft.put(line, Instr::Task(Task::Yield))?;
            Ok(())
        }
        StandAlone::Flush(_) => {
            draft.put(line, Instr::Serial(Serial::Nop))?;
            Ok(())
        }
    }
}

/// Writes an `atomic` that updates (OpenMP API 5.2, section 15.8.4).
pub fn update(draft: &mut Draft, here: &Here<'_>, update: &ResolvedUpdate) -> AllocResult<()>
    requires { UpdateHasCode (view.update update.now) }
    ensures { Appends result here.now update_row (view.update update.now) draft.old
        draft.new }
{
    let operator = update_of(update.operator);
    let side = side_of(update.side);
    let place = here.tables.place(update.variable);
    match &update.index {
        None => {
            value(draft, here, &update.operand)?;
            draft.put(
                here.at.line,
                Instr::Serial(Serial::Atomic {
                    operator,
                    side,
                    place,
                }),
            )?;
            Ok(())
        }
        Some(index) => {
            value(draft, here, index)?;
            value(draft, here, &update.operand)?;
            draft.put(
                here.at.line,
                Instr::Serial(Serial::AtomicElement {
                    operator,
                    side,
                    place,
                }),
            )?;
            Ok(())
        }
    }
}

/// Writes the assignment of an `atomic` that reads or writes, on the directive's line.
pub fn assignment(
    draft: &mut Draft,
    here: &Here<'_>,
    statement: &ResolvedStatement,
) -> AllocResult<()>
    requires { AssignmentHasCode (view.statement statement.now) }
    ensures { AppendsStatement result here.now assignment_row statement.now draft.old draft.new }
{
    let ResolvedStatement::Expression {
        value: expression,
        ..
    } = statement
    else {
        unreachable!()
    };
    effect(draft, here, expression)
}

/// Writes a `break` or a `continue`: a jump to a label that is there (C17 6.8.6.2, 6.8.6.3).
pub fn jump(draft: &mut Draft, line: u32, label: Option<usize>) -> AllocResult<()>
    requires { is_some label ≡ true }
    ensures { OnOk result (EmitsJump line label draft.old draft.new) }
{
    let Some(label) = label else {
        unreachable!();
    };
    draft.put_jump(line, Jump::Always, label)?;
    Ok(())
}

/// Writes a barrier (OpenMP API 5.2, section 15.3): it is reached, and all go on from it.
pub fn barrier(draft: &mut Draft, line: u32, kind: Barrier) -> AllocResult<()>
    ensures { AppendsAnywhere result (λ at. barrier at line kind) draft.old draft.new }
{
    draft.put(line, Instr::Team(Team::Arrive(kind)))?;
    draft.put(line, Instr::Team(Team::Depart(kind)))?;
    Ok(())
}

/// Writes the end of a worksharing construct: all threads wait for each other, unless it is `nowait`
/// (OpenMP API 5.2, sections 15.3.2 and 15.6).
pub fn worksharing_end(draft: &mut Draft, line: u32, nowait: bool) -> AllocResult<()>
    ensures { AppendsAnywhere result (λ at. worksharing_end at line nowait) draft.old draft.new }
{
    draft.put(line, Instr::Sharing(Sharing::EndWorksharing))?;
    if !nowait {
        barrier(draft, line, Barrier::Worksharing)?;
    }
    Ok(())
}
