//! Faults that are met, and what is left where no step can be made.

ghost use Rattle.std.specs.Prelude.{◌≡◌, ◌++◌, ◌<◌, [], IfOk, OnOk};
ghost use Rattle.std.specs.Option.{option_copied};
ghost use Rattle.om_foot.specs.declared.object.Obj.TheVariants as object;
ghost use Rattle.om_memory.specs.Memories.{plain_or_idle};
ghost use Rattle.om_state.specs.Values.{bytes_in};
ghost use Rattle.om_undo.specs.Machines.{state_in};
ghost use Rattle.lab_explore_closed.specs.Endings.{control_at, fault_in, met_in, mets_at, wait_in, waits_at, ending_of, ending_at};
ghost use Rattle.lab_explore_moves.specs.Endings.{value_in, is_running, blocked_by};

use lab_explore_closed::{Ending, Met, Wait};
use om_code::frame::Fault;
use om_foot::Obj;
use om_memory::Control;
use om_seq::{AllocResult, Seq};
use om_state::{Blocked, Choice};
use om_undo::{Machine, StepReply};
use std::alloc::Global;

/// The ending of a machine's state. Its only error is out of memory.
pub fn ending(alloc: Global, machine: &Machine) -> AllocResult<Ending>
    ensures { IfOk result (λ end. end
        ≡ ending_at machine.now.program machine.now.workers (state_in machine.now)) }
{
    let faults = mets(alloc, machine)?;
    let output = printed(alloc, machine)?;
    if !faults.is_empty() {
        return Ok(Ending::Faults(Seq::of(faults), output));
    }
    let waits = waits(alloc, machine)?;
    match value_in(machine.control(0)) {
        Some(value) if waits.is_empty() => Ok(Ending::Ends(value, output)),
        _ => Ok(Ending::Sticks(output, Seq::of(waits))),
    }
}

/// The faults that workers have met, by worker. Its only error is out of memory.
pub fn mets(alloc: Global, machine: &Machine) -> AllocResult<Vec<Met>>
    ensures { IfOk result (λ v. v.items
        ≡ mets_at machine.now.program (state_in machine.now) machine.now.workers) }
{
    let mut all = Vec::new(alloc);
    for worker in 0..machine.workers() {
        push_met(machine, worker, &mut all)?;
    }
    Ok(all)
}

// Appends the fault that a worker has met, if it did.
fn push_met(machine: &Machine, worker: u8, all: &mut Vec<Met>) -> AllocResult<()>
    requires { worker < machine.now.workers }
    ensures { OnOk result (all.new.items
        ≡ all.old.items ++ met_in machine.now.program worker (control_at (state_in machine.now) worker)) }
{
    let Some(fault) = fault_in(machine.control(worker)) else {
        return Ok(());
    };
    all.push(Met {
        fault,
        worker,
        line: machine.line(worker),
    })?;
    Ok(())
}

// Who waits, by worker.
fn waits(alloc: Global, machine: &Machine) -> AllocResult<Vec<Wait>>
    ensures { IfOk result (λ v. v.items ≡ waits_at machine.now.program machine.now.workers
        (state_in machine.now) machine.now.workers) }
{
    let mut all = Vec::new(alloc);
    for worker in 0..machine.workers() {
        push_wait(alloc, machine, worker, &mut all)?;
    }
    Ok(all)
}

// Appends what a worker waits for, if it runs.
fn push_wait(alloc: Global, machine: &Machine, worker: u8, all: &mut Vec<Wait>) -> AllocResult<()>
    requires { worker < machine.now.workers }
    ensures { OnOk result (all.new.items ≡ all.old.items ++ wait_in machine.now.program
        machine.now.workers (state_in machine.now) worker (control_at (state_in machine.now) worker)) }
{
    if !is_running(machine.control(worker)) {
        return Ok(());
    }
    let reply = machine.peek(alloc, worker, Choice::Next)?;
    all.push(Wait {
        worker,
        line: machine.line(worker),
        blocked: blocked_by(&reply),
    })?;
    Ok(())
}

// What was printed.
fn printed(alloc: Global, machine: &Machine) -> AllocResult<Seq<u8>>
    ensures { IfOk result (λ bytes. bytes ≡ bytes_in (state_in machine.now object.Output)) }
{
    let value = machine.look(alloc, &Obj::Output)?;
    Ok(Seq::of(Vec::from_slice(alloc, value.bytes())?))
}

// Why a step was blocked, if it was.
fn blocked_by(reply: &StepReply) -> Option<Blocked>
    ensures { result ≡ blocked_by reply.now }
{
    match reply {
        StepReply::Blocked(why) => Some(*why),
        StepReply::Done { .. } => None,
        StepReply::Ended => None,
    }
}

// The fault that a worker met, if it did.
fn fault_in(control: Option<&Control>) -> Option<Fault>
    ensures { result ≡ fault_in (plain_or_idle (option_copied control.entry)) }
{
    let Some(Control::Faulted(fault, _)) = control else {
        return None;
    };
    Some(*fault)
}

// The value with which the program has ended, if it did.
fn value_in(control: Option<&Control>) -> Option<i32>
    ensures { result ≡ value_in (plain_or_idle (option_copied control.entry)) }
{
    let Some(Control::Ended(value)) = control else {
        return None;
    };
    Some(*value)
}

// Whether a worker runs.
fn is_running(control: Option<&Control>) -> bool
    ensures { result ≡ is_running (plain_or_idle (option_copied control.entry)) }
{
    match control {
        Some(Control::Running(_)) => true,
        Some(Control::Idle) | Some(Control::Ended(_)) | Some(Control::Faulted(_, _)) | None => {
            false
        }
    }
}
