//! The steps that can be made at a state.

ghost use Rattle.std.specs.Prelude.{◌≡◌, ◌++◌, ◌<◌, IfOk, OnOk};
ghost use Rattle.std.specs.Option.{option_copied};
ghost use Rattle.om_memory.specs.Memories.{plain_or_idle};
ghost use Rattle.om_undo.specs.Machines.{state_in};
ghost use Rattle.lab_explore_closed.specs.Endings.{control_at};
ghost use Rattle.lab_explore_closed.specs.Races.{instruction_in, instruction_of};
ghost use Rattle.lab_explore_closed.specs.Runs.{AreOf};
ghost use Rattle.lab_explore_moves.specs.Possible.{ArePossible, possible_by, possible_among};

use crate::atomicity::atomicity_of;
use crate::letters::letters;
use lab_explore_closed::Atomicity;
use om_code::{Instr, Program};
use om_foot::{Access, Mode, Names, Obj};
use om_memory::{Context, Control};
use om_seq::{AllocResult, Seq};
use om_state::{Choice, Footprint, Label};
use om_undo::Machine;
use std::alloc::Global;

/// A step that can be made at a machine.
#[derive(Drop)]
pub struct PossibleStep {
    pub label: Label,
    /// The line in the source of its worker's next instruction, from 1.
    pub line: u32,
    /// Its instruction; `None` where it begins a task.
    pub instruction: Option<Instr>,
    /// How its access of a variable is atomic.
    pub atomicity: Atomicity,
    /// What it touches, its worker's control first.
    pub accesses: Seq<Access>,
}

/// The steps that workers can make at a machine. Its only error is out of memory.
pub fn possible_steps(alloc: Global, machine: &Machine) -> AllocResult<Vec<PossibleStep>>
    ensures { IfOk result (λ v. ArePossible machine.now v.items) }
{
    let letters = letters(alloc, machine)?;
    possible_among(alloc, machine, letters.as_slice())
}

// Those of these steps that can be made.
fn possible_among(
    alloc: Global,
    machine: &Machine,
    letters: &[Label],
) -> AllocResult<Vec<PossibleStep>>
    requires { AreOf machine.now.workers letters.now }
    ensures { IfOk result (λ v. v.items ≡ possible_among machine.now letters.now) }
{
    let mut all = Vec::new(alloc);
    for letter in letters {
        push_possible(alloc, machine, letter, &mut all)?;
    }
    Ok(all)
}

// Appends a step, if it can be made.
fn push_possible(
    alloc: Global,
    machine: &Machine,
    letter: &Label,
    all: &mut Vec<PossibleStep>,
) -> AllocResult<()>
    requires { letter.now.worker < machine.now.workers }
    ensures { OnOk result (all.new.items ≡ all.old.items ++ possible_by machine.now letter.now) }
{
    let step = machine.plan(alloc, letter.worker, &letter.choice)?;
    let Some(footprint) = step.footprint() else {
        return Ok(());
    };
    let accesses = accesses_of(alloc, footprint)?;
    all.push(PossibleStep {
        label: *letter,
        line: machine.line(letter.worker),
        instruction: instruction_of(machine, letter),
        atomicity: atomicity_of(machine, letter),
        accesses,
    })?;
    Ok(())
}

// The accesses of a footprint, one by one.
fn accesses_of(alloc: Global, footprint: &Footprint) -> AllocResult<Seq<Access>>
    ensures { IfOk result (λ all. all ≡ footprint.now) }
{
    let (worker, others) = footprint.parts();
    let mut all = Names::new(alloc);
    all.push(&Access {
        object: Obj::Control(worker),
        mode: Mode::Write,
    })?;
    all.push_all(others)?;
    all.into_seq()
}

// The instruction that a step carries out; `None` where it begins a task.
fn instruction_of(machine: &Machine, letter: &Label) -> Option<Instr>
    ensures { result ≡ instruction_of machine.now.program
        (control_at (state_in machine.now) letter.now.worker) letter.now.choice }
{
    match &letter.choice {
        Choice::Next => instruction_in(machine.program(), machine.control(letter.worker)),
        Choice::Start(_) => None,
    }
}

// The instruction that a control carries out next.
fn instruction_in(program: &Program, control: Option<&Control>) -> Option<Instr>
    ensures { result ≡ instruction_in program.now (plain_or_idle (option_copied control.entry)) }
{
    let Some(Control::Running(stack)) = control else {
        return None;
    };
    let context: &Context = &stack.top;
    program.instruction(context.frame.body, context.frame.next)
}
