//! The races of a machine's history.

ghost use Rattle.std.specs.Prelude.{◌≡◌, All, IfOk};
ghost use Rattle.std.specs.List.{AllZip};
ghost use Rattle.lab_replay.specs.Said.{AreSaid};
ghost use Rattle.lab_replay.specs.Traces.{traced, transitions_of};
ghost use Rattle.lab_races_history.specs.Histories.{AreRacesOf, IsMadeOf, IsOwn};

use lab_graph::Traced;
use lab_races::{Made, Race, races};
use om_seq::AllocResult;
use om_undo::Machine;
use std::alloc::Global;

/// The races of a machine's history, whose steps were traced. Of those that read the same one is told. The only error is
/// out of memory.
pub fn races_of(alloc: Global, machine: &Machine, steps: &[Traced<'_>]) -> AllocResult<Vec<Race>>
    requires touches { traced steps.now ≡ transitions_of machine.now }
    requires said { AreSaid machine.now machine.now.history.entries steps.now }
    ensures { IfOk result (λ races. AreRacesOf machine.now races.items) }
{
    let _entries = machine.history(alloc)?;
    let history = made_by(alloc, steps)?;
    races(alloc, &history)
}

// The steps of a history, as they are judged. The only error is out of memory.
fn made_by<'a>(alloc: Global, steps: &'a [Traced<'_>]) -> AllocResult<Vec<Made<'a>>>
    requires { All IsOwn steps.now }
    ensures { IfOk result (λ history. AllZip IsMadeOf steps.now history.items) }
{
    let mut history = Vec::new(alloc);
    for step in steps {
        history.push(made_of(step))?;
    }
    Ok(history)
}

// A step of a history, as it is judged.
fn made_of<'a>(step: &'a Traced<'_>) -> Made<'a>
    requires { IsOwn step.now }
    ensures { IsMadeOf step.now result }
{
    let (first, cells, last) = step.footprint.parts();
    Made {
        serial: step.entry.serial,
        worker: step.entry.worker,
        line: step.entry.line,
        manner: step.manner,
        first,
        cells,
        last,
    }
}
