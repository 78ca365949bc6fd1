//! What is where a machine stands.

ghost use Rattle.std.specs.Prelude.{◌≡◌, true, map, IfOk};
ghost use Rattle.om_undo_history.specs.Runs.{label_of};
ghost use Rattle.lab_explore_closed.specs.Runs.{AreOf};
ghost use Rattle.lab_explore_notes.specs.Notes.{AreSound};

use lab_explore_moves::possible_steps;
use lab_explore_notes::Notes;
use om_seq::AllocResult;
use om_undo::{Entry, Machine};
use std::alloc::Global;

/// What is where a machine stands: the faults that were met, the ending where no step can be made, and each race. Its
/// only error is out of memory.
pub(crate) fn noted(alloc: Global, machine: &Machine) -> AllocResult<Notes>
    ensures { IfOk result (λ notes. AreSound machine.now.program machine.now.workers notes) }
{
    let mut notes = Notes::new(alloc);
    let entries = machine.history(alloc)?;
    if !are_own(machine.workers(), &entries) {
        return Ok(notes);
    }
    let steps = possible_steps(alloc, machine)?;
    notes.note(alloc, machine, &steps)?;
    Ok(notes)
}

// Whether entries are steps of so many workers.
fn are_own(workers: u8, entries: &[Entry]) -> bool
    ensures { result ≡ true → AreOf workers (map label_of entries.now) }
{
    for entry in entries {
        if entry.worker >= workers {
            return false;
        }
    }
    true
}
