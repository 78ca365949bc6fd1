//! Where a worker may start a task (OpenMP 5.2, 12.9).

ghost use Rattle.std.specs.Prelude.{◌≡◌, map, option_map};
ghost use Rattle.om_foot.specs.Names.{is_below};
ghost use Rattle.om_memory.specs.Plain.{plain_context, plain_held, plain_stack};
ghost use Rattle.om_task.specs.Contexts.{instruction_on, admits_stack, held_at};
ghost use Rattle.om_task.specs.Rules.{leaving, departs, admits_on, admits_all};

use om_code::{Function, Instr, Program, Task, Team};
use om_events::TaskStatus;
use om_foot::{Name, is_descendant};
use om_memory::{Context, Stack, Tape};

/// The instruction at which a context stands.
pub(crate) fn instruction(program: &Program, context: &Context) -> Option<Instr>
    ensures { result ≡ instruction_on program.now (plain_context context.now) }
{
    program.instruction(context.frame.body, context.frame.next)
}

/// The status of the task that is left for another one at an instruction; `None` where that is no
/// scheduling point.
pub(crate) fn leaving(instruction: Option<Instr>) -> Option<TaskStatus>
    ensures { result ≡ leaving instruction }
{
    match instruction? {
        Instr::Team(Team::Depart(_) | Team::Leave)
        | Instr::Task(Task::WaitEnd | Task::GroupEnd)
        | Instr::Function(Function::Finish { .. }) => Some(TaskStatus::Switch),
        Instr::Task(Task::Yield) => Some(TaskStatus::Yield),
        _ => None,
    }
}

// Whether an instruction departs from a barrier.
fn departs(instruction: Option<Instr>) -> bool
    ensures { result ≡ departs instruction }
{
    let Some(instruction) = instruction else {
        return false;
    };
    matches!(instruction, Instr::Team(Team::Depart(_) | Team::Leave))
}

// Whether the task of a name descends from another one.
fn is_below(name: &Name, other: &Name) -> bool
    ensures { result ≡ is_below name.now other.now }
{
    is_descendant(name, other)
}

// Whether a task may be started where a context is left for it.
fn admits_on(program: &Program, name: &Name, context: &Context) -> bool
    ensures { result ≡ admits_on program.now name.now (plain_context context.now) }
{
    if departs(instruction(program, context)) {
        return true;
    }
    is_below(name, context.task.get())
}

// The context at this depth, the next one below the top at 0; `None` exactly where there is none.
fn context_at(contexts: &Tape<Box<Context>>, depth: usize) -> Option<&Context>
    ensures { option_map (λ c. plain_context c.now) result ≡ held_at contexts.now.items depth }
{
    let context = contexts.get(depth)?;
    Some(context)
}

// Whether a task may be started where these contexts are left for it.
fn admits_below(program: &Program, name: &Name, contexts: &Tape<Box<Context>>) -> bool
    ensures { result ≡ admits_all program.now name.now (map plain_held contexts.now.items) }
{
    for depth in 0..contexts.len() {
        let Some(context) = context_at(contexts, depth) else {
            unreachable!();
        };
        if !admits_on(program, name, context) {
            return false;
        }
    }
    true
}

/// Whether the task scheduling constraints admit a task on a stack.
pub(crate) fn admits(program: &Program, name: &Name, stack: &Stack) -> bool
    ensures { result ≡ admits_stack program.now name.now (plain_stack stack.now) }
{
    if admits_on(program, name, &stack.top) {
        admits_below(program, name, &stack.below)
    } else {
        false
    }
}
