//! The locks that a worker holds.

ghost use Rattle.std.specs.Prelude.{◌≡◌, ◌++◌, IfOk, OnOk, cond, [], ◌∷◌};
ghost use Rattle.om_foot.specs.declared.object.Obj.TheVariants as object;
ghost use Rattle.om_state.specs.Values.{holder_in};
ghost use Rattle.om_undo.specs.Machines.{state_in};
ghost use Rattle.lab_explore_closed.specs.Races.{is_holder, lock_count, locks_below};

use om_code::Program;
use om_foot::Obj;
use om_seq::{AllocResult, Seq};
use om_undo::Machine;
use std::alloc::Global;

/// The locks of critical regions that a worker holds, by their numbers in the program, ascending. Its only error is
/// out of memory.
pub fn held(alloc: Global, machine: &Machine, worker: u8) -> AllocResult<Seq<u32>>
    ensures { IfOk result (λ locks. locks
        ≡ locks_below (state_in machine.now) worker (lock_count machine.now.program)) }
{
    let mut all = Vec::new(alloc);
    for lock in 0..lock_count(machine.program()) {
        push_held(alloc, machine, worker, lock, &mut all)?;
    }
    Ok(Seq::of(all))
}

// How many locks a program has. Each has a number of 32 bits.
fn lock_count(program: &Program) -> u32
    ensures { result ≡ lock_count program.now }
{
    let count = program.raw().locks.len();
    if count < u32::MAX as usize {
        count as u32
    } else {
        u32::MAX
    }
}

// Appends a lock, if a worker holds it.
fn push_held(
    alloc: Global,
    machine: &Machine,
    worker: u8,
    lock: u32,
    all: &mut Vec<u32>,
) -> AllocResult<()>
    ensures { OnOk result (all.new.items ≡ all.old.items
        ++ cond (is_holder (holder_in (state_in machine.now (object.Lock lock))) worker)
        (lock ∷ []) []) }
{
    let value = machine.look(alloc, &Obj::Lock(lock))?;
    let is_held = value.holder() == Some(worker);
    drop(value);
    if is_held {
        all.push(lock)?;
    }
    Ok(())
}
