//! omplab explore: what can be done at a state, and what is left where nothing can.
//!
//! - `letters` lists the steps that are tried at a machine: each worker's next instruction, and the start of each
//!   ready task. No other step can be made. `possible_steps` has those of them that can be made, with what each touches,
//!   and with the instruction before which its worker stands. `atomicity` says how its access is atomic.
//! - `mets` lists the faults that workers have met, and `ending` says what is left where no step can be made.
//! - `held` lists the locks of critical regions that a worker holds.
#![tactic(auto)]

mod atomicity;
mod left;
mod letters;
mod locks;
mod possible;

pub use left::{ending, mets};
pub use locks::held;
pub use possible::{PossibleStep, possible_steps};
