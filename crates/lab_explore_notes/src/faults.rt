//! Faults that are met, each once.

ghost use Rattle.std.specs.Prelude.{◌≡◌, ◌<◌, ℕ, map, OnOk, Contains};
ghost use Rattle.om_undo.specs.Machines.{state_in};
ghost use Rattle.lab_explore_closed.specs.declared.found.Met.{Met};
ghost use Rattle.lab_explore_closed.specs.Endings.{IsMet};
ghost use Rattle.lab_explore_closed.specs.Explored.{met_of_found};
ghost use Rattle.lab_explore_notes.specs.Same.{same_met, is_among};
ghost use Rattle.lab_explore_notes.specs.Notes.{AreFaults, AreMetsNoted, IsOnWay, Keeps};

use crate::same::is_same_met;
use crate::way::path;
use lab_explore_closed::{FoundFault, Met};
use lab_explore_moves::mets;
use om_seq::{AllocResult, Seq};
use om_undo::Machine;
use std::alloc::Global;

/// Notes the faults that workers have met at a machine, where they were not noted before. When out of memory, some of
/// them may be missing.
pub(crate) fn note_faults(
    alloc: Global,
    machine: &Machine,
    faults: &mut Seq<FoundFault>,
) -> AllocResult<()>
    requires way { IsOnWay machine.now }
    requires right { AreFaults machine.now.program machine.now.workers faults.old }
    ensures right { AreFaults machine.now.program machine.now.workers faults.new }
    ensures keeps { Keeps met_of_found faults.old faults.new }
    ensures noted { OnOk result (AreMetsNoted machine.now faults.new) }
{
    let mets = mets(alloc, machine)?;
    note_mets(alloc, machine, mets.as_slice(), faults)?;
    Ok(())
}

// Notes these faults.
fn note_mets(
    alloc: Global,
    machine: &Machine,
    mets: &[Met],
    faults: &mut Seq<FoundFault>,
) -> AllocResult<()>
    requires way { IsOnWay machine.now }
    requires met { (m : Met) → Contains mets.now m
        → (m.worker < machine.now.workers) × IsMet machine.now.program (state_in machine.now) m }
    requires right { AreFaults machine.now.program machine.now.workers faults.old }
    ensures right { AreFaults machine.now.program machine.now.workers faults.new }
    ensures keeps { Keeps met_of_found faults.old faults.new }
    ensures noted { OnOk result ((m : Met) → Contains mets.now m
        → Contains (map met_of_found faults.new) m) }
{
    for met in mets {
        note_met(alloc, machine, met, faults)?;
    }
    Ok(())
}

// Notes a fault.
fn note_met(
    alloc: Global,
    machine: &Machine,
    met: &Met,
    faults: &mut Seq<FoundFault>,
) -> AllocResult<()>
    requires way { IsOnWay machine.now }
    requires met { (met.now.worker < machine.now.workers)
        × IsMet machine.now.program (state_in machine.now) met.now }
    requires right { AreFaults machine.now.program machine.now.workers faults.old }
    ensures right { AreFaults machine.now.program machine.now.workers faults.new }
    ensures keeps { Keeps met_of_found faults.old faults.new }
    ensures noted { OnOk result (Contains (map met_of_found faults.new) met.now) }
{
    if is_listed(faults.as_slice(), met) {
        return Ok(());
    }
    let path = path(alloc, machine)?;
    faults.push(FoundFault { path, met: *met })?;
    Ok(())
}

// Whether a fault is among these.
fn is_listed(faults: &[FoundFault], met: &Met) -> bool
    ensures { result ≡ is_among same_met (map met_of_found faults.now) met.now }
{
    for found in faults {
        if is_same_met(&found.met, met) {
            return true;
        }
    }
    false
}
