//! History: the machine of a program: plans, answers and makes steps, undoes, rolls, looks; the laws of its runs.
//!
//! A `Machine` is a `Program`, a number of workers and a `History`. Its state is always the replay of the
//! entries that stand.
//!
//! - `machine` has the calls. `plan` asks om_task, and answers a `PlannedStep`, which contracts see as the
//!   machine where it was planned, with the step's label. `take` hands its change to om_undo_history. So
//!   whoever asks whether a step can be made need not plan it again to make it.
//! - `laws` says what is true of the runs of every program, and that its rules are those that a history asks
//!   for.
//! - `specs/ReadyNames` computes the names of ready tasks from the steps of a run; `next_ready` answers them
//!   one after the other, with no copy of all.
//! - `specs/Crossing` says that a machine may be sent to another thread. It is drawn from files beside it,
//!   which say the same of the types that a machine is made of.
#![tactic(auto)]

pub mod laws;
pub mod machine;

pub use machine::{Machine, PlannedStep};
pub use om_state::Entry;
pub use om_undo_history::{RollReply, StepReply, Taken, UndoReply};
