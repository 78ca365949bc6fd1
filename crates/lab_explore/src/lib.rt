//! omplab explore: all schedules of a small program, by a set of states that no step leaves.
//!
//! - `explore` goes depth first, by the steps and undos of a machine, and keeps each state that it comes to. A state
//!   that was there is left at once. At each new one it notes what is there, and tries each step.
//! - `todo` is what is still to be done, the next thing on top: a step to be tried at a state, or the undo of the
//!   step that led there.
//! - `specs/Searches` says what is true of a search between two things that it does.
#![tactic(auto)]

mod explored;
mod search;
mod todo;
mod watch;

pub use explored::explore;
pub use watch::{Unwatched, Watch};
