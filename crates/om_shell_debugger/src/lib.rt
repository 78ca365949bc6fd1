//! Commands and answers: carries out each command on a book: steps, undos, rolls, runs, breaks, watches, prints.
//!
//! A `Debugger` is a book with its breaks and watches. A line comes in, and a text goes out.
//!
//! - `debugger` hands each command to its function. `moves` has the commands of one worker's steps and undos,
//!   and rolls. `runs` has runs, and `stops` what stops one. `free` lets all workers step at once. `looks`
//!   has the commands that look and change nothing.
//! - `calls` makes one call of the debugger's book, through one seat, and reads its reply there.
//! - `marks` keeps breaks and watches. `cell_of` finds the cell of a global variable, and `worker_sees` the
//!   one that a worker sees by a name.
//!
//! Whoever moves a book in another way than by lines of commands calls `calls`, `moves`, `runs` and `stops`.
//!
//! Cases: the sessions of gate_cases.
#![tactic(auto)]

pub mod calls;
mod debugger;
pub mod local;
mod looks;
mod marks;
pub mod moves;
pub mod runs;
pub mod stops;

pub use debugger::Debugger;
pub use marks::{Marks, has_line};
