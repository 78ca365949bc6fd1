//! Undos: the counts of unfinished tasks around one, and a long history, of which a worker's steps are
//! undone one by one beneath those of another worker.

use crate::machine_of_two::MachineOfTwo;
use om_code::frame::Cell;
use om_foot::{Name, Obj};
use om_seq::AllocResult;
use om_undo::UndoReply;
use std::alloc::Global;

/// Each of two threads makes a task.
pub(crate) const TASKS: &str = "int main(void){
#pragma omp parallel
{
#pragma omp task
;
}
}
";

/// Whether the undo of the step that made a task takes its counts back, and leaves those of the other task, which
/// was made later.
pub(crate) fn counts_follow_an_undo(alloc: Global) -> AllocResult<bool> {
    let Some(mut machine) = MachineOfTwo::of(alloc, TASKS) else {
        return Ok(false);
    };
    let made = machine.makes(alloc, 0, 2)?
        && machine.makes(alloc, 1, 1)?
        && machine.makes(alloc, 0, 1)?
        && machine.makes(alloc, 1, 1)?;
    let before = are_counts(alloc, &machine, 2, 1)?;
    let undone = machine.undo(0) == UndoReply::Undone { serial: 4, line: 4 };
    Ok(made && before && undone && are_counts(alloc, &machine, 1, 0)?)
}

// Whether the team has so many pending tasks, its first member so many children, and its second one.
fn are_counts(
    alloc: Global,
    machine: &MachineOfTwo,
    pending: i128,
    of_first: i128,
) -> AllocResult<bool> {
    Ok(
        is_pending(alloc, machine, pending)?
            && has_children(alloc, machine, &[0, 1, 0], of_first)?
            && has_children(alloc, machine, &[0, 1, 1], 1)?,
    )
}

// Whether the team has so many tasks that are pending in its first phase.
fn is_pending(alloc: Global, machine: &MachineOfTwo, wanted: i128) -> AllocResult<bool> {
    let Some(team) = Name::of(&[0, 1]) else {
        return Ok(false);
    };
    is_count(alloc, machine, &Obj::Pending { team, phase: 0 }, wanted)
}

// Whether the task of this name has so many children.
fn has_children(
    alloc: Global,
    machine: &MachineOfTwo,
    name: &[u64],
    wanted: i128,
) -> AllocResult<bool> {
    let Some(task) = Name::of(name) else {
        return Ok(false);
    };
    is_count(alloc, machine, &Obj::Kids(task), wanted)
}

// Whether an object holds this count.
fn is_count(
    alloc: Global,
    machine: &MachineOfTwo,
    object: &Obj,
    wanted: i128,
) -> AllocResult<bool> {
    let held = machine.look(alloc, object)?;
    Ok(held.count() == Some(wanted))
}

// Two threads that count, each in a variable of its own, and never end.
const SOURCE: &str = "int a, b;
int main(void){
#pragma omp parallel
while (1) if (omp_get_thread_num() == 0) a = a + 1; else b = b + 1;
}
";

// How many steps each worker makes after the fork.
const STEPS: u32 = 50_000;

/// Whether 100,000 steps are made and one worker's half of them is undone: each undo names its step, and that of the
/// fork is refused by the other worker's first step.
pub(crate) fn long_history_is_undone(alloc: Global) -> AllocResult<bool> {
    let Some(mut machine) = MachineOfTwo::of(alloc, SOURCE) else {
        return Ok(false);
    };
    let made = machine.makes(alloc, 0, 1)?
        && machine.makes(alloc, 0, STEPS)?
        && machine.makes(alloc, 1, STEPS)?;
    let counted = holds(alloc, &machine, 0, 4166)? && holds(alloc, &machine, 1, 4545)?;
    let undone = made && counted && are_undone(&mut machine) && fork_is_held(&mut machine);
    Ok(undone && holds(alloc, &machine, 0, 0)? && holds(alloc, &machine, 1, 4545)?)
}

// Whether each step of worker 0 after the fork is undone, from #50001 back to #2.
fn are_undone(machine: &mut MachineOfTwo) -> bool {
    for step in 0..STEPS {
        let wanted = u64::from(STEPS - step) + 1;
        let UndoReply::Undone { serial, line: _ } = machine.undo(0) else {
            return false;
        };
        if serial != wanted {
            return false;
        }
    }
    true
}

// Whether the undo of the fork is refused by the first step of worker 1, which the fork set going.
fn fork_is_held(machine: &mut MachineOfTwo) -> bool {
    machine.undo(0)
        == UndoReply::Conflict {
            serial: 50_002,
            worker: 1,
            object: Obj::Control(1),
        }
}

// Whether a global variable holds this value.
fn holds(alloc: Global, machine: &MachineOfTwo, variable: u32, value: i32) -> AllocResult<bool> {
    let held = machine.look(alloc, &Obj::Global { variable, index: 0 })?;
    Ok(held.cell() == Cell::Int(value))
}
