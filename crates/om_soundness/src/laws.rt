//! Laws of the runs of valid programs, and of a worker that steps alone.

ghost use Rattle.om_soundness.specs.Laws.{StartStands, StepsStand, RunsStand, WorkersHaveNeeds, StartHasInts};
ghost use Rattle.om_soundness.specs.Laws.{StepsKeepInts, RunsHaveInts, LacksHaveReasons};
ghost use Rattle.om_soundness.specs.AloneLaws.{FramesFollow, FunctionsRun, ProgramsRun, ProgramsStart};

use om_lower_rules::laws::serial_meaning;

/// In the state in which a valid program starts each worker stands: at a place of its body, with as
/// many operands as each way to that place has, and with a home for each slot.
pub fn start_stands()
    ensures { StartStands }
{}

/// Each step of a valid program leads from a state that stands to one that stands.
pub fn steps_stand()
    ensures { StepsStand }
{}

/// So each state that steps lead to from the start stands.
pub fn runs_stand()
    ensures { RunsStand }
{
    start_stands();
    steps_stand();
}

/// In each such state each worker that runs has an instruction at its place, the operands that it
/// takes, and every slot, global, body, text, lock and list of PICK that it names.
pub fn workers_have_needs()
    ensures { WorkersHaveNeeds }
{
    runs_stand();
}

/// In the state in which a program of ints starts each variable that holds a value holds an int.
pub fn start_has_ints()
    ensures { StartHasInts }
{}

/// Each step of a program of ints leads from a state that has ints to one that has ints: its operands
/// and variables are ints, and so is the value of each iteration of a loop that is open.
pub fn steps_keep_ints()
    ensures { StepsKeepInts }
{}

/// So each state that steps lead to from the start has ints.
pub fn runs_have_ints()
    ensures { RunsHaveInts }
{
    start_has_ints();
    steps_keep_ints();
}

/// So the step of a worker of a valid program ends only where its instruction lacks what validity says
/// nothing of, as an open region of its kind, or an int among its operands.
pub fn lacks_have_reasons()
    ensures { LacksHaveReasons }
{
    workers_have_needs();
}

/// A state that shows a frame of the frame machine goes, by the rules of the machine, where that frame goes.
///
/// So a step of the machine is the step of the frame machine, for every instruction that has a row there.
pub fn frames_follow()
    ensures { FramesFollow }
{}

/// A worker that begins a function alone does what the function means, if it has neither calls nor directives.
///
/// `main` ends the program with its value. Another function gives its value to the frame that waits for it, and
/// its cells are dead.
pub fn functions_run()
    ensures { FunctionsRun }
{
    serial_meaning();
}

/// Worker 0 runs `main` alone in the state in which a program starts, in a frame that owns its cells.
///
/// Globals have their initial values, nothing is printed, and no task is unfinished.
pub fn programs_start()
    ensures { ProgramsStart }
{}

/// A program whose `main` has neither calls nor directives does by the steps of worker 0 what `main` means.
///
/// It ends where the meaning ends, with its value, its globals and its output, and faults where that faults. Where
/// loops have only n turns and are out of them, it does neither within n steps. It ends and faults nowhere else,
/// is never blocked, and never lacks what an instruction needs.
pub fn programs_run()
    ensures { ProgramsRun }
{
    serial_meaning();
}
