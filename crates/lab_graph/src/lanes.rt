//! The touches of the steps of each worker, so that the last step before one that conflicts with it is
//! found without a look at the others.

ghost use Rattle.std.specs.Prelude.{◌≡◌, ◌==◌, ◌+◌, ◌-◌, max, length, IfOk, OnOk};
ghost use Rattle.std.specs.Option.{option_copied};
ghost use Rattle.lab_graph.specs.Ranks.{AreByWorker, AreTouches, FindsLast, Notes};
ghost use Rattle.lab_graph.specs.Pictures.{lanes};

use crate::traced::Traced;
use om_seq::AllocResult;
use om_undo_touches::TouchLists;
use std::alloc::Global;

/// Whether a step is a worker's.
pub(crate) fn is_of(step: &Traced<'_>, worker: usize) -> bool
    ensures { result ≡ (step.now.entry.worker == worker) }
{
    usize::from(step.entry.worker) == worker
}

// Adds the touches of a step of a worker, by its rank; those of another one are left out. When out of
// memory, no more is said of the touches.
fn note(
    touches: &mut TouchLists,
    alloc: Global,
    worker: usize,
    step: &Traced<'_>,
    rank: u64,
) -> AllocResult<()>
    ensures { OnOk result (Notes worker step.now rank touches.old touches.new) }
{
    if is_of(step, worker) {
        return touches.add_each(alloc, step.footprint, rank);
    }
    Ok(())
}

// The touches of the steps of a worker, by their ranks: the last one of all steps has rank 1, the one
// before it 2. So what follows a rank is what stands before its step.
fn touches_of(alloc: Global, steps: &[Traced<'_>], worker: usize) -> AllocResult<TouchLists>
    ensures { IfOk result (AreTouches worker steps.now) }
{
    let mut touches = TouchLists::new(alloc);
    for at in (0..steps.len()).rev() {
        let rank = (steps.len() - at) as u64;
        note(&mut touches, alloc, worker, &steps[at], rank)?;
    }
    Ok(touches)
}

// So many lanes, or as many as a worker needs.
fn with_lane(lanes: usize, worker: u8) -> usize
    ensures { result ≡ max lanes (worker + 1) }
{
    lanes.max(usize::from(worker) + 1)
}

// How many lanes there are: the worker of each step is below this number.
fn lanes(steps: &[Traced<'_>]) -> usize
    ensures { result ≡ lanes steps.now }
{
    let mut lanes = 0;
    for step in steps {
        lanes = with_lane(lanes, step.entry.worker);
    }
    lanes
}

/// The touches of the steps of each worker, by worker. The only error is out of memory.
pub(crate) fn touches_by_worker(alloc: Global, steps: &[Traced<'_>]) -> AllocResult<Vec<TouchLists>>
    ensures { IfOk result (λ all. AreByWorker steps.now all.items) }
{
    let mut all = Vec::new(alloc);
    for worker in 0..lanes(steps) {
        let touches = touches_of(alloc, steps, worker)?;
        all.push(touches)?;
    }
    Ok(all)
}

// The index of the step that has been found among the steps before the one of a rank.
fn index_of(before: &[Traced<'_>], found: u64, rank: u64) -> usize
    ensures { result ≡ length before.now - (found - rank) }
{
    before
        .len()
        .saturating_sub(found.saturating_sub(rank) as usize)
}

/// The last of the steps before one with a rank that is of a worker and conflicts with it, by the touches
/// of that worker's steps. It takes no memory.
pub(crate) fn last_meeting<'a, 'm>(
    touches: &TouchLists,
    before: &'a [Traced<'m>],
    later: &Traced<'_>,
    rank: u64,
) -> Option<&'a Traced<'m>>
    ensures { FindsLast before.now later.now rank touches.now (option_copied result) }
{
    match touches.first_conflict(later.footprint, rank) {
        Some(found) => before.get(index_of(before, found, rank)),
        None => None,
    }
}
