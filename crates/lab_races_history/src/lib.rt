//! omplab races: the races of the history that a machine holds.
//!
//! `races_of` takes the steps that lab_replay traces, and judges them by lab_races.
#![tactic(auto)]

mod history;

pub use history::races_of;
