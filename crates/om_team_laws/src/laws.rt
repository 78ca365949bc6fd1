//! Laws of the runs of all programs.

ghost use Rattle.om_team_laws.specs.Laws.{StartExcludes, StepsExclude, RunsExclude, CriticalsExclude};
ghost use Rattle.om_team_laws.specs.Laws.{RunsShareOut, GivenOnce, BegunOnce, AllAreGivenOut, SinglesRunOnce, SinglesAreRun};
ghost use Rattle.om_team_laws.specs.Laws.{ChildrenAreCounted, ChildrenHaveEnded};
ghost use Rattle.om_team_laws.specs.Laws.{StaticIsOwn, StaticOnce, TaskwaitsWait, GroupsWait};
ghost use Rattle.om_team_laws.specs.Laws.{RunsAreOrderly, TasksGoOn, TasksBeginOnce, TasksEndOnce, BarriersWait, ReductionsCombine};

use om_task::laws::born_below;
use om_team::laws::partition;

/// In the state in which a program starts no worker is inside of a critical region.
pub fn start_excludes()
    ensures { StartExcludes }
{}

/// Each step keeps two things: whoever is inside of a critical region holds its lock, and is inside of one region of
/// that lock alone.
pub fn steps_exclude()
    ensures { StepsExclude }
{}

/// So it is in each state that steps lead to from the start.
pub fn runs_exclude()
    ensures { RunsExclude }
{
    start_excludes();
    steps_exclude();
}

/// So at most one worker is inside of the critical regions of a lock, also where it met a fault there, or runs another
/// task (OpenMP API 5.2, section 15.2).
pub fn criticals_exclude()
    ensures { CriticalsExclude }
{
    runs_exclude();
}

/// In each state of a run an iteration of a loop with a dynamic schedule, or a section, is in one chunk of one worker
/// at most, and is given out.
pub fn runs_share_out()
    ensures { RunsShareOut }
{}

/// No two steps of a run give the same section, or the same iteration of such a loop, to a worker (OpenMP API 5.2,
/// sections 11.3 and 11.5.3).
pub fn given_once()
    ensures { GivenOnce }
{}

/// No two steps of a run begin the same iteration of such a loop.
pub fn begun_once()
    ensures { BegunOnce }
{
    runs_share_out();
}

/// A member that asks for a further chunk of such a loop, or for a section, gets what was not given out, or all of the
/// region is given out.
pub fn all_are_given_out()
    ensures { AllAreGivenOut }
{}

/// Each iteration that a member begins of a loop with a static schedule lies in a chunk that the schedule gives it.
pub fn static_is_own()
    ensures { StaticIsOwn }
{}

/// No two steps of a run begin the same iteration of such a loop: neither two steps of one member, nor steps of two
/// whose loops have one schedule and as many iterations, in teams of one size (OpenMP API 5.2, section 11.5.3).
pub fn static_once()
    ensures { StaticOnce }
{
    runs_are_orderly();
    partition();
}

/// No two steps of a run open the same `single` region to run it (OpenMP API 5.2, section 11.1).
pub fn singles_run_once()
    ensures { SinglesRunOnce }
{}

/// A member passes a `single` region by only where a step before it runs it, or took a part of a loop or of sections
/// that has the region's number.
pub fn singles_are_run()
    ensures { SinglesAreRun }
{}

/// In each state of a run the names that tasks and teams get next are new, a task has one context at most, and an
/// explicit task that has one runs on its worker.
pub fn runs_are_orderly()
    ensures { RunsAreOrderly }
{}

/// In each step of a run each explicit task stays as it is, is made, is begun by the worker of the step, or is ended by
/// it, which is the worker that began it (OpenMP API 5.2, sections 12.1 and 12.9).
pub fn tasks_go_on()
    ensures { TasksGoOn }
{
    runs_are_orderly();
}

/// No two steps of a run begin the same task.
pub fn tasks_begin_once()
    ensures { TasksBeginOnce }
{
    runs_are_orderly();
}

/// No two steps of a run end the same task.
pub fn tasks_end_once()
    ensures { TasksEndOnce }
{
    runs_are_orderly();
}

/// A member goes on from a barrier, or leaves its region, only where each member of its team has reached more barriers
/// than this one has passed, and where the count of unfinished tasks of its phase is 0 (OpenMP API 5.2, section 15.3).
pub fn barriers_wait()
    ensures { BarriersWait }
{}

/// In each state of a run of a valid program the count of a task's children is how many of them are unfinished: made, and
/// not ended (OpenMP API 5.2, sections 12.5 and 15.5).
pub fn children_are_counted()
    ensures { ChildrenAreCounted }
{
    born_below();
}

/// So a task goes on from a `taskwait` only where none of its children is unfinished.
pub fn children_have_ended()
    ensures { ChildrenHaveEnded }
{
    children_are_counted();
    taskwaits_wait();
}

/// A task goes on from a `taskwait` only where the count of its unfinished children is 0 (OpenMP API 5.2, section 15.5).
pub fn taskwaits_wait()
    ensures { TaskwaitsWait }
{}

/// A task closes a task group only where the count of the unfinished tasks of this group is 0 (OpenMP API 5.2, section
/// 15.4).
pub fn groups_wait()
    ensures { GroupsWait }
{}

/// A step of a reduction after which its worker runs on combines the copy with the original, and changes no other
/// variable (OpenMP API 5.2, section 5.5.8).
pub fn reductions_combine()
    ensures { ReductionsCombine }
{}
