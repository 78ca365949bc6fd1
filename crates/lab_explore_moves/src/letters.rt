//! The steps that are tried at a state.

ghost use Rattle.std.specs.Prelude.{◌≡◌, ◌++◌, IfOk, OnOk};
ghost use Rattle.lab_explore_moves.specs.Letters.{letters_of, letters_below, AreLetters};

use lab_explore_closed::laws::possible_starts_are_ready;
use om_foot::Name;
use om_seq::AllocResult;
use om_state::{Choice, Label};
use om_undo::Machine;
use std::alloc::Global;

/// Steps that may be made at a machine, all of its workers: no other step can be made. Its only error is out of
/// memory.
pub(crate) fn letters(alloc: Global, machine: &Machine) -> AllocResult<Vec<Label>>
    ensures { IfOk result (λ v. AreLetters machine.now v.items) }
{
    possible_starts_are_ready();
    let names = machine.ready(alloc)?;
    letters_by(alloc, machine.workers(), names.as_slice())
}

// The next instruction of each worker, and the start of each of these tasks by each worker.
fn letters_by(alloc: Global, workers: u8, names: &[Name]) -> AllocResult<Vec<Label>>
    ensures { IfOk result (λ v. v.items ≡ letters_below names.now workers) }
{
    let mut labels = Vec::new(alloc);
    for worker in 0..workers {
        push_letters_of(worker, names, &mut labels)?;
    }
    Ok(labels)
}

// Appends the next instruction of a worker, and the start of each of these tasks by it.
fn push_letters_of(worker: u8, names: &[Name], labels: &mut Vec<Label>) -> AllocResult<()>
    ensures { OnOk result (labels.new.items ≡ labels.old.items ++ letters_of worker names.now) }
{
    labels.push(Label {
        worker,
        choice: Choice::Next,
    })?;
    for name in names {
        labels.push(Label {
            worker,
            choice: Choice::Start(*name),
        })?;
    }
    Ok(())
}
