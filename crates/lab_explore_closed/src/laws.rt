//! What is true of the runs of every program, for who explores them.

ghost use Rattle.lab_explore_closed.specs.Runs.{ClosedSetsHoldAll};
ghost use Rattle.lab_explore_closed.specs.Starts.{PossibleStartsAreReady};

/// A set of states that holds the start, and that no step of one of the workers leaves, holds each state that a
/// run of these workers leads to. It is so under any rules.
pub fn closed_sets_hold_all()
    ensures { ClosedSetsHoldAll }
{}

/// Where a worker can begin a task, that task is ready. So who tries the ready tasks alone misses no step.
pub fn possible_starts_are_ready()
    ensures { PossibleStartsAreReady }
{}
