//! omplab explore: what was found so far, each thing once, with the steps that lead there.
//!
//! - `Notes` keeps it. `note` looks at the state where a machine stands: the faults that were met, the ending where
//!   no step can be made, and each race of two steps that can be.
//! - `ends`, `faults` and `races` note one kind of thing each. `same` says whether two things that are told are the
//!   same, and `kinds` what an instruction does to a variable that it accesses.
//! - `specs/Notes` says what is true of notes.
#![tactic(auto)]

mod ends;
mod faults;
mod kinds;
mod notes;
mod races;
mod same;
mod way;

pub use kinds::kind_of;
pub use notes::Notes;
pub use same::{is_same_ending, is_same_pair};
