//! Laws of what OpenMP promises of critical and worksharing regions, reductions, tasks and barriers.
//!
//! It has laws alone: no program runs them, and no crate of a program depends on this one. Each is true of the runs of
//! every program, valid or not. Those of children ask for a valid one.
//!
//! - `specs/Criticals` says who is inside of the critical regions of a lock. `specs/Works` says what of a worksharing
//!   region is given out and who has it, `specs/Tasks` how tasks go on, and `specs/Contexts` which contexts a worker has.
//!   `specs/Statics` says which iterations of a loop with a static schedule a member may still begin.
//! - `proofs/Cases` has what a step may do to controls, tasks, locks, and what is given out of worksharing regions.
//!   `proofs/TeamRows`, `ShareRows` and `Walk` show that the row of each choice is one of these cases. A law about
//!   these objects is shown case by case: `proofs/Exclusion`, `Hands`, `Singles`, `Taken` and `TaskCases` each have one.
//! - `proofs/Coming` says of each context behind a step where it comes from, case by case too. So what is true of each
//!   context alone needs no further case: `proofs/Statics` is about loops with a static schedule. `proofs/Owned`,
//!   `Chunks` and `Advancing` say what a context keeps as its regions open, close and go on.
//! - `specs/Waits` says what a member finds that goes on from a barrier, and a task from `taskwait` or `taskgroup`.
//!   `proofs/Waiting` and `Awaiting` read it off their rows.
//!   `proofs/Asking` reads off the row of GRAB what a member gets that asks for a chunk. `specs/Reductions` and
//!   `proofs/Combining` are about RED in the same way.
//! - `specs/Children` says which children of a task are unfinished. `proofs/Naming` shows that no row but those of SPAWN
//!   and TEND names a count of children that it changes, `proofs/Sets` what the two do to a list of the children, and
//!   `proofs/Children` that the count is its length.
//! - A new row has a lemma in `TeamRows` or `ShareRows`, and a new instruction a line in `Walk` and in `Naming`.
#![tactic(auto)]

pub mod laws;
