//! How steps are atomic.

ghost use Rattle.std.specs.Prelude.{◌≡◌};
ghost use Rattle.om_undo.specs.Machines.{state_in};
ghost use Rattle.lab_explore_closed.specs.Endings.{control_at};
ghost use Rattle.lab_explore_closed.specs.Races.{atomicity_of};

use lab_explore_closed::{Atomicity, atomicity_in};
use om_state::{Choice, Label};
use om_undo::Machine;

/// How a step is atomic: not, where it begins a task.
pub(crate) fn atomicity_of(machine: &Machine, letter: &Label) -> Atomicity
    ensures { result ≡ atomicity_of machine.now.program
        (control_at (state_in machine.now) letter.now.worker) letter.now.choice }
{
    match &letter.choice {
        Choice::Next => atomicity_in(machine.program(), machine.control(letter.worker)),
        Choice::Start(_) => Atomicity::Plain,
    }
}
