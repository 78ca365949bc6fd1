//! What a short way has to lead to.

use lab_explore_closed::{Ending, FoundRace, Place, Racer};
use lab_explore_moves::{PossibleStep, ending, held, possible_steps};
use lab_explore_notes::{is_same_ending, kind_of};
use lab_play::{Finish, Sought};
use om_foot::Obj;
use om_seq::AllocResult;
use om_undo::Machine;
use std::alloc::Global;

/// An end with this ending is sought.
#[derive(Drop)]
pub(crate) struct SoughtEnd<'a> {
    pub(crate) ending: &'a Ending,
}

impl<'a> Sought for SoughtEnd<'a> {
    fn finish(&self) -> Finish {
        match self.ending {
            Ending::Faults(_, _) => Finish::PastFaults,
            Ending::Ends(_, _) | Ending::Sticks(_, _) => Finish::UpToFault,
        }
    }

    fn is_at(&self, alloc: Global, machine: &Machine) -> AllocResult<bool> {
        let now = ending(alloc, machine)?;
        if !is_same_ending(&now, self.ending) {
            return Ok(false);
        }
        let steps = possible_steps(alloc, machine)?;
        Ok(steps.is_empty())
    }
}

/// A state is sought at which the workers of this race stand before their accesses, in the same critical regions.
#[derive(Drop)]
pub(crate) struct SoughtRace<'a> {
    pub(crate) race: &'a FoundRace,
}

impl<'a> Sought for SoughtRace<'a> {
    fn finish(&self) -> Finish {
        Finish::Nowhere
    }

    fn is_at(&self, alloc: Global, machine: &Machine) -> AllocResult<bool> {
        let steps = possible_steps(alloc, machine)?;
        let race = self.race;
        let object = &race.pair.object;
        if !stands(&steps, race.first.worker, &race.pair.first, object)
            || !stands(&steps, race.second.worker, &race.pair.second, object)
        {
            return Ok(false);
        }
        Ok(holds(alloc, machine, &race.first)? && holds(alloc, machine, &race.second)?)
    }
}

// Whether a worker stands before an access of an object.
fn stands(steps: &[PossibleStep], worker: u8, place: &Place, object: &Obj) -> bool {
    for step in steps {
        if step.label.worker == worker && step.line == place.line {
            return accesses(step, place, object);
        }
    }
    false
}

// Whether a step accesses an object so.
fn accesses(step: &PossibleStep, place: &Place, object: &Obj) -> bool {
    for access in step.accesses.as_slice() {
        if access.object == *object && kind_of(step.instruction, access.mode) == place.kind {
            return true;
        }
    }
    false
}

// Whether a worker is in the critical regions of a racer.
fn holds(alloc: Global, machine: &Machine, racer: &Racer) -> AllocResult<bool> {
    if racer.worker >= machine.workers() {
        return Ok(false);
    }
    let locks = held(alloc, machine, racer.worker)?;
    Ok(locks.as_slice() == racer.locks.as_slice())
}
