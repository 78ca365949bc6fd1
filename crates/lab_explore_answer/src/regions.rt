//! The names of critical regions.

use om_code::{Instr, Program, Region};
use om_memory::Control;
use om_seq::AllocResult;
use om_undo::Machine;

/// Appends a critical region: `critical (b)`, or `critical` where it has no name. Its only error is out of memory.
pub(crate) fn push_region(text: &mut Vec<u8>, program: &Program, lock: u32) -> AllocResult<()> {
    text.extend_from_slice(b"critical")?;
    let Some(name) = program.raw().locks.as_slice().get(lock as usize) else {
        return Ok(());
    };
    if name.is_empty() {
        return Ok(());
    }
    text.extend_from_slice(b" (")?;
    text.extend_from_slice(name.as_slice())?;
    text.extend_from_slice(b")")
}

/// The lock of the critical region that a worker stands before, if it stands before one.
pub(crate) fn lock_before(machine: &Machine, worker: u8) -> Option<u32> {
    let Some(Control::Running(stack)) = machine.control(worker) else {
        return None;
    };
    let frame = &stack.top.frame;
    match machine.program().instruction(frame.body, frame.next)? {
        Instr::Region(Region::AskCritical(lock) | Region::EnterCritical(lock)) => Some(lock),
        _ => None,
    }
}
