//! What was found so far.

ghost use Rattle.std.specs.Prelude.{◌≡◌, ◌↔◌, ℕ, [], List, OnOk};
ghost use Rattle.om_code.specs.declared.raw.Raw.{Raw};
ghost use Rattle.om_undo.specs.Machines.{state_in};
ghost use Rattle.lab_explore_moves.specs.Possible.{ArePossible};
ghost use Rattle.lab_explore_notes.specs.Notes.{AreSound, IsNoted, KeepsAll, IsOnWay};

use crate::ends::note_end;
use crate::faults::note_faults;
use crate::races::note_races;
use lab_explore_closed::{FoundEnd, FoundFault, FoundRace};
use lab_explore_moves::PossibleStep;
use om_seq::{AllocResult, Seq};
use om_undo::Machine;
use std::alloc::Global;

/// What was found so far, each thing once.
#[derive(Drop)]
pub struct Notes {
    /// Each ending, by when it was met first.
    pub ends: Seq<FoundEnd>,
    /// Each fault, by when it was met first.
    pub faults: Seq<FoundFault>,
    /// Each pair of accesses that race, by when it was met first.
    pub races: Seq<FoundRace>,
}

impl Notes {
    /// Nothing. It takes no memory.
    pub fn new(alloc: Global) -> Notes
        ensures { (program : Raw) (workers : ℕ) → AreSound program workers result }
    {
        Notes {
            ends: Seq::new(alloc),
            faults: Seq::new(alloc),
            races: Seq::new(alloc),
        }
    }

    /// Notes what is at a machine's state, if it was not noted before: the faults that were met there, each race of
    /// two of the steps that can be made, which these are, and the ending where none can be. When out of memory, some
    /// of it may be missing.
    pub fn note(
        &mut self,
        alloc: Global,
        machine: &Machine,
        steps: &[PossibleStep],
    ) -> AllocResult<()>
        requires way { IsOnWay machine.now }
        requires possible { ArePossible machine.now steps.now }
        requires sound { AreSound machine.now.program machine.now.workers self.old }
        ensures sound { AreSound machine.now.program machine.now.workers self.new }
        ensures keeps { KeepsAll self.old self.new }
        ensures noted { OnOk result (IsNoted machine.now.program machine.now.workers self.new
            (state_in machine.now)) }
    {
        note_faults(alloc, machine, &mut self.faults)?;
        note_races(alloc, machine, steps, &mut self.races)?;
        if steps.is_empty() {
            note_end(alloc, machine, &mut self.ends)?;
        }
        Ok(())
    }
}
