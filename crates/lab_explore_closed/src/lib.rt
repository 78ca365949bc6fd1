//! omplab explore: what an exploration of all schedules finds, and when its answer is complete.
//!
//! A run is a list of steps of the workers that can be made in turn from the start (`specs/Runs`). A set of states
//! that holds the start and is left by no step holds each state that a run leads to. So who has looked at each state
//! of such a set has seen all schedules.
//!
//! - `found` has what is told: each end (`Ending`), each fault (`Met`) and each race (`Pair`), with the steps that
//!   lead there, and whether these are all (`Verdict`).
//! - `atomicity` says how the instruction is atomic before which a worker stands.
//! - `specs/Endings` says what the end of a run is, `specs/Races` when two workers race, and `specs/Explored` what an
//!   answer promises.
//! - `laws` has the theorem of closed sets, and that only ready tasks are begun.
#![tactic(auto)]

mod atomicity;
pub mod found;
pub mod laws;

pub use atomicity::atomicity_in;
pub use found::{
    AccessKind, Atomicity, Ending, Explored, FoundEnd, FoundFault, FoundRace, Limits, Met, Pair,
    Place, Racer, Verdict, Wait,
};
