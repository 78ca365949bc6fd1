//! Laws: valid code never lacks an operand or what it names; a worker alone does what its serial source means.
//!
//! It has laws alone: no program runs them, and no other crate depends on this one. `laws` has those of the
//! runs of valid programs.
//!
//! - `specs/Standing` says when a state stands: each frame is at a place that a way of its body reaches with
//!   the frame's operands, and each of its slots has a home. `specs/Running` says which frames ran.
//! - `specs/Ints` says when a state has ints: each operand, each cell and each iteration of an open loop is
//!   one. `programs` shows of every program what these laws ask, by a walk over its constants.
//! - `specs/Reasons` is the table of what an instruction of valid code may still lack.
//! - `functions_run` and `programs_run` are laws of a worker that steps while no other does (`specs/Alone`,
//!   `AloneLaws`). They join the meaning of serial code in om_lower_rules and the rules of om_task.
//! - A new instruction adds a line to `proofs/Walk`, to `Lacking` and to `IntRuns`. A new row has a lemma in
//!   `proofs/TaskRows` or `ShareRows`, one in `IntTasks` or `IntShares`, and one in `RowReasons`. A new
//!   serial instruction is also a case of `proofs/Instructions` and of `proofs/Table`.
#![tactic(auto)]

pub mod laws;
pub mod programs;
