//! A memory that holds what a machine holds at some objects.

ghost use Rattle.std.specs.Prelude.{◌^◌, IfOk, OnOk};
ghost use Rattle.om_memory.specs.Memories.{state_of};
ghost use Rattle.om_team.specs.Counters.{StateWithin, ValueWithin};
ghost use Rattle.om_undo.specs.Machines.{state_in};

use om_foot::{Access, Obj};
use om_memory::{Memory, worker_of};
use om_seq::AllocResult;
use om_state::{Control, Val};
use om_undo::Machine;
use std::alloc::Global;

// Puts the first control of a worker, which is the one that a value is.
fn put_control(alloc: Global, memory: &mut Memory, worker: u8, value: &Val) -> AllocResult<()>
    requires value { ValueWithin (2 ^ 63) value.now }
    requires state { StateWithin (2 ^ 63) (state_of memory.old) }
    ensures { OnOk result (StateWithin (2 ^ 63) (state_of memory.new)) }
{
    match value.control() {
        Some(control) => memory.begin(alloc, worker, control),
        None => memory.begin(alloc, worker, &Control::Idle),
    }
}

// Puts a value at an object, where the counters of both are at most 2^63.
fn put(alloc: Global, memory: &mut Memory, object: &Obj, value: Val) -> AllocResult<()>
    requires value { ValueWithin (2 ^ 63) value }
    requires state { StateWithin (2 ^ 63) (state_of memory.old) }
    ensures { OnOk result (StateWithin (2 ^ 63) (state_of memory.new)) }
{
    match worker_of(object) {
        Some(worker) => put_control(alloc, memory, worker, &value),
        None => memory.create(alloc, object, value),
    }
}

/// A memory that holds at the objects of accesses what a machine holds there, and elsewhere the
/// defaults. The only error is out of memory.
pub(crate) fn held_at(alloc: Global, machine: &Machine, accesses: &[Access]) -> AllocResult<Memory>
    requires { StateWithin (2 ^ 63) (state_in machine.now) }
    ensures { IfOk result (λ memory. StateWithin (2 ^ 63) (state_of memory)) }
{
    let mut memory = Memory::new(alloc);
    for access in accesses {
        let value = machine.look(alloc, &access.object)?;
        put(alloc, &mut memory, &access.object, value)?;
    }
    Ok(memory)
}
