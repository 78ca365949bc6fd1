//! omplab script: the steps that a session leaves, as commands that make them again; the steps a roll would take.
//!
//! - `script` writes the steps of a book as commands, runs these, and compares the two histories (`steps`).
//! - `cone` lists the causal cone of a step, and takes nothing (`cones`).
//! - `run` lets the debugger run commands, and keeps what it writes and its book (`Ran`). What is answered is
//!   a `Script`, or a `ScriptFault`.
#![tactic(auto)]

mod cones;
mod run;
mod steps;

pub use cones::cone;
pub use run::{Ran, Script, ScriptFault, run_over};
pub use steps::script;
