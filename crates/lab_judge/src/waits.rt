//! Which workers wait where no worker has a move, in which line, and for what.

ghost use Rattle.std.specs.Prelude.{◌<◌};

use om_code::{Instr, Program, Region};
use om_memory::Control;
use om_seq::AllocResult;
use om_state::{Blocked, Choice};
use om_undo::{Machine, StepReply};
use std::alloc::Global;

/// What a worker waits for.
#[derive(Drop)]
pub enum Awaited {
    /// B1: the other threads at a barrier, or tasks made before it.
    Barrier,
    /// B2: the lock of a critical region, which a worker holds. The unnamed region has no bytes.
    Lock { name: Vec<u8>, holder: u8 },
    /// B3: children of its task.
    Children,
    /// B4: this worker, which its team needs.
    Worker(u8),
    /// B8: tasks of its taskgroup.
    Group,
}

/// A worker that waits.
#[derive(Drop)]
pub struct Wait {
    pub worker: u8,
    /// The line of the instruction that is blocked, from 1.
    pub line: u32,
    pub what: Awaited,
}

/// The workers that wait where a machine stands, in their order. An idle one waits for nothing, and so does
/// one that has ended or met a fault. The only error is out of memory.
pub(crate) fn waits_at(alloc: Global, machine: &Machine) -> AllocResult<Vec<Wait>> {
    let mut waits = Vec::new(alloc);
    for worker in 0..machine.workers() {
        if let Some(what) = awaited_by(alloc, machine, worker)? {
            let line = machine.line(worker);
            waits.push(Wait { worker, line, what })?;
        }
    }
    Ok(waits)
}

// What a worker waits for, if it waits.
fn awaited_by(alloc: Global, machine: &Machine, worker: u8) -> AllocResult<Option<Awaited>>
    requires { worker < machine.now.workers }
{
    match machine.peek(alloc, worker, Choice::Next)? {
        StepReply::Blocked(why) => awaited_for(alloc, machine, worker, why),
        StepReply::Done { .. } | StepReply::Ended => Ok(None),
    }
}

// What a worker waits for whose next step is blocked so.
fn awaited_for(
    alloc: Global,
    machine: &Machine,
    worker: u8,
    why: Blocked,
) -> AllocResult<Option<Awaited>> {
    Ok(match why {
        Blocked::Barrier => Some(Awaited::Barrier),
        Blocked::Critical(holder) => {
            let name = region_of(alloc, machine, worker)?;
            Some(Awaited::Lock { name, holder })
        }
        Blocked::Children => Some(Awaited::Children),
        Blocked::Busy(other) => Some(Awaited::Worker(other)),
        Blocked::Group => Some(Awaited::Group),
        Blocked::Idle | Blocked::Task | Blocked::Place => None,
    })
}

// The name of the critical region that a worker asks for; no bytes, where it is the unnamed one.
fn region_of(alloc: Global, machine: &Machine, worker: u8) -> AllocResult<Vec<u8>> {
    let mut name = Vec::new(alloc);
    if let Some(lock) = lock_asked(machine.program(), machine.control(worker)) {
        if let Some(region) = machine.program().raw().locks.as_slice().get(lock as usize) {
            name.extend_from_slice(region.as_slice())?;
        }
    }
    Ok(name)
}

// The number of the lock that the next instruction of a worker is about.
fn lock_asked(program: &Program, control: Option<&Control>) -> Option<u32> {
    let Some(Control::Running(stack)) = control else {
        return None;
    };
    let frame = &stack.top.frame;
    match program.instruction(frame.body, frame.next)? {
        Instr::Region(Region::AskCritical(lock) | Region::EnterCritical(lock)) => Some(lock),
        _ => None,
    }
}
