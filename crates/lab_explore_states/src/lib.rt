//! omplab explore: a set of states of one program, in which two states are the same where all their values are.
//!
//! A set walks with a machine. It keeps the row of the state at which the machine stands, and lab_explore_rows says what
//! a row is. A step changes the entries of those objects alone that it may change, so the values of all others are not
//! looked at again. Rows are told apart by all of their entries, and never by a hash alone.
//!
//! - `Stored` is the set. It takes a step of a machine, goes back to where it stood before, and puts the state where it
//!   stands into the set.
//! - `touched` finds the objects that a step may change, and puts their entries. `standing` has a row with its state.
//! - `specs/Sets` says what contracts see of a set.
#![tactic(auto)]

mod standing;
mod stored;
mod touched;

pub use stored::Stored;
