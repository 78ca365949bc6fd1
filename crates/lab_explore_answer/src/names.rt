//! The name of a local variable that two accesses meet at.

use lab_explore_closed::FoundRace;
use lab_explore_ways::Retracer;
use lab_replay::trace;
use om_foot::Obj;
use om_seq::AllocResult;
use om_state::Choice;
use std::alloc::Global;

/// The local variable, with its index, that one of both accesses of a race names; no bytes where neither names one, or
/// they are of a global. Its only error is out of memory.
pub(crate) fn local_of(
    alloc: Global,
    retracer: &mut Retracer,
    race: &FoundRace,
) -> AllocResult<Vec<u8>> {
    if let Obj::Global { .. } = &race.pair.object {
        return Ok(Vec::new(alloc));
    }
    let first = named_by(alloc, retracer, race, race.first.worker)?;
    if !first.is_empty() {
        return Ok(first);
    }
    named_by(alloc, retracer, race, race.second.worker)
}

// The local variable that the next step of a worker of a race names.
fn named_by(
    alloc: Global,
    retracer: &mut Retracer,
    race: &FoundRace,
    worker: u8,
) -> AllocResult<Vec<u8>> {
    retracer.follow(alloc, race.path.as_slice())?;
    retracer.make(alloc, worker, Choice::Next)?;
    let steps = trace(alloc, retracer.machine())?;
    match steps.last() {
        Some(step) if step.entry.worker == worker => {
            Vec::from_slice(alloc, step.variable.as_slice())
        }
        _ => Ok(Vec::new(alloc)),
    }
}
