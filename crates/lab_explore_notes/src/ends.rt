//! Ends, each ending once.

ghost use Rattle.std.specs.Prelude.{◌≡◌, map, OnOk, Contains};
ghost use Rattle.om_undo.specs.Machines.{rules_for, state_in};
ghost use Rattle.lab_explore_closed.specs.Endings.{ending_at};
ghost use Rattle.lab_explore_closed.specs.Explored.{ending_of_found};
ghost use Rattle.lab_explore_closed.specs.Runs.{IsEnd};
ghost use Rattle.lab_explore_notes.specs.Same.{same_ending, is_among};
ghost use Rattle.lab_explore_notes.specs.Notes.{AreEnds, IsOnWay, Keeps};

use crate::same::is_same_ending;
use crate::way::path;
use lab_explore_closed::{Ending, FoundEnd};
use lab_explore_moves::ending;
use om_seq::{AllocResult, Seq};
use om_undo::Machine;
use std::alloc::Global;

/// Notes the ending of a machine's state, at which no step can be made, where it was not noted before. When out of
/// memory, nothing changes.
pub(crate) fn note_end(
    alloc: Global,
    machine: &Machine,
    ends: &mut Seq<FoundEnd>,
) -> AllocResult<()>
    requires way { IsOnWay machine.now }
    requires end { IsEnd (rules_for machine.now) machine.now.workers (state_in machine.now) }
    requires right { AreEnds machine.now.program machine.now.workers ends.old }
    ensures right { AreEnds machine.now.program machine.now.workers ends.new }
    ensures keeps { Keeps ending_of_found ends.old ends.new }
    ensures noted { OnOk result (Contains (map ending_of_found ends.new)
        (ending_at machine.now.program machine.now.workers (state_in machine.now))) }
{
    let ending = ending(alloc, machine)?;
    note_ending(alloc, machine, ending, ends)
}

// Notes an ending.
fn note_ending(
    alloc: Global,
    machine: &Machine,
    ending: Ending,
    ends: &mut Seq<FoundEnd>,
) -> AllocResult<()>
    requires way { IsOnWay machine.now }
    requires end { IsEnd (rules_for machine.now) machine.now.workers (state_in machine.now) }
    requires ending { ending
        ≡ ending_at machine.now.program machine.now.workers (state_in machine.now) }
    requires right { AreEnds machine.now.program machine.now.workers ends.old }
    ensures right { AreEnds machine.now.program machine.now.workers ends.new }
    ensures keeps { Keeps ending_of_found ends.old ends.new }
    ensures noted { OnOk result (Contains (map ending_of_found ends.new) ending) }
{
    if is_listed(ends.as_slice(), &ending) {
        return Ok(());
    }
    let path = path(alloc, machine)?;
    ends.push(FoundEnd { path, ending })?;
    Ok(())
}

// Whether an ending is among these.
fn is_listed(ends: &[FoundEnd], ending: &Ending) -> bool
    ensures { result ≡ is_among same_ending (map ending_of_found ends.now) ending.now }
{
    for found in ends {
        if is_same_ending(&found.ending, ending) {
            return true;
        }
    }
    false
}
