//! How the instruction of a step accesses variables.

ghost use Rattle.std.specs.Prelude.{◌≡◌};
ghost use Rattle.std.specs.Option.{option_copied};
ghost use Rattle.om_memory.specs.Memories.{plain_or_idle, state_of};
ghost use Rattle.lab_explore_closed.specs.Races.{ends_lives, instruction_in};
ghost use Rattle.lab_replay.specs.Manners.{manner_at, manner_of};

use lab_explore_closed::{Atomicity, atomicity_in};
use lab_races::Manner;
use om_code::{Function, Instr, Program, Serial, Task, Team};
use om_memory::{Context, Control, Memory};
use om_state::Label;
use om_task::Choice;

/// How the instruction of a label's step accesses variables where a store stands.
pub(crate) fn manner_at(program: &Program, store: &Memory, label: &Label) -> Manner
    ensures { result ≡ manner_at program.now (state_of store.now) label.now }
{
    match &label.choice {
        Choice::Next => {
            let control = store.control(label.worker);
            let atomicity = atomicity_in(program, control);
            manner_of(atomicity, ends_lives(instruction_in(program, control)))
        }
        Choice::Start(_) => Manner::Plain,
    }
}

// The manner of an instruction, by how it is atomic and whether it ends lives of variables.
fn manner_of(atomicity: Atomicity, ends: bool) -> Manner
    ensures { result ≡ manner_of atomicity ends }
{
    match atomicity {
        Atomicity::Atomic => Manner::Atomic,
        Atomicity::Reduction => Manner::Reduction,
        Atomicity::Plain => { if ends { Manner::Ending } else { Manner::Plain } }
    }
}

// The instruction that a control carries out next.
fn instruction_in(program: &Program, control: Option<&Control>) -> Option<Instr>
    ensures { result ≡ instruction_in program.now (plain_or_idle (option_copied control.entry)) }
{
    let Some(Control::Running(stack)) = control else {
        return None;
    };
    let context: &Context = &stack.top;
    program.instruction(context.frame.body, context.frame.next)
}

// Whether an instruction ends the lives of variables.
fn ends_lives(instruction: Option<Instr>) -> bool
    ensures { result ≡ ends_lives instruction }
{
    matches!(
        instruction,
        Some(
            Instr::Serial(Serial::Clear(_))
                | Instr::Function(Function::Return | Function::ReturnNothing)
                | Instr::Team(Team::Leave)
                | Instr::Task(Task::TaskEnd)
        )
    )
}
