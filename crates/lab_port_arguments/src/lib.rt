//! omplab port: what `main` is given, where a C source looks at it. A program has no arguments here.
//!
//! `argument_marks` says of each piece of a source whether it is the number of arguments, or the number that one of them
//! stands for. `main_text` has what takes its place.
//!
//! - `tally` says whether each use of the parameters of `main` has a form, and `place` goes through a source.
#![tactic(auto)]

mod place;
mod tally;

pub use place::{argument_marks, main_text};
