//! omplab races: the races of one history, by happens-before.
//!
//! Two steps race where different workers made them, they access one variable, one of them to write it, and nothing
//! orders them (`specs/Races`). What orders steps says `specs/Orders`.
//!
//! - `made` has a step as it stands in a history (`Made`), and two that race (`Race`).
//! - `sweep` goes over the steps once. A step's clock says for each worker which of its steps is the last that happens
//!   before. `strands` keeps the clocks at the objects that order steps, and `notes` the last accesses of each variable.
//! - `accesses` lists what a step touched, and `alike` tells two sides of races apart.
#![tactic(auto)]

mod accesses;
mod alike;
mod clocks;
mod made;
mod notes;
mod strands;
mod sweep;

pub use made::{Made, Manner, Race, Side};
pub use sweep::races;
