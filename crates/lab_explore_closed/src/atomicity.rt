//! How instructions are atomic.

ghost use Rattle.std.specs.Prelude.{◌≡◌};
ghost use Rattle.std.specs.Option.{option_copied};
ghost use Rattle.om_memory.specs.Memories.{plain_or_idle};
ghost use Rattle.lab_explore_closed.specs.Races.{atomicity, atomicity_in, is_atomic_place, is_reduction, is_update};

use crate::found::Atomicity;
use om_code::{Instr, Program, Serial, Sharing};
use om_memory::{Context, Control};

/// How the instruction that a control carries out next is atomic.
pub fn atomicity_in(program: &Program, control: Option<&Control>) -> Atomicity
    ensures { result ≡ atomicity_in program.now (plain_or_idle (option_copied control.entry)) }
{
    let Some(Control::Running(stack)) = control else {
        return Atomicity::Plain;
    };
    let context: &Context = &stack.top;
    let instruction = program.instruction(context.frame.body, context.frame.next);
    let at_place = is_atomic_place(program, context.frame.body, context.frame.next);
    atomicity(instruction, at_place)
}

// How an instruction is atomic, at the place of an atomic read or write or at another one.
fn atomicity(instruction: Option<Instr>, at_place: bool) -> Atomicity
    ensures { result ≡ atomicity instruction at_place }
{
    if is_reduction(instruction) {
        Atomicity::Reduction
    } else if is_update(instruction) || at_place {
        Atomicity::Atomic
    } else {
        Atomicity::Plain
    }
}

// Whether a place of a body is the access of an atomic read or write.
fn is_atomic_place(program: &Program, body: u32, at: u32) -> bool
    ensures { result ≡ is_atomic_place program.now body at }
{
    let Some(body) = program.bodies().get(body as usize) else {
        return false;
    };
    body.atomic.as_slice().contains(&at)
}

// Whether an instruction is an update of `atomic`.
fn is_update(instruction: Option<Instr>) -> bool
    ensures { result ≡ is_update instruction }
{
    matches!(
        instruction,
        Some(Instr::Serial(Serial::Atomic { .. } | Serial::AtomicElement { .. }))
    )
}

// Whether an instruction is a reduction's update of the original variable.
fn is_reduction(instruction: Option<Instr>) -> bool
    ensures { result ≡ is_reduction instruction }
{
    matches!(instruction, Some(Instr::Sharing(Sharing::Reduce { .. })))
}
