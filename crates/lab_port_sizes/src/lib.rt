//! omplab port: `sizeof` in a C source, where it asks how many elements an array has.
//!
//! `size_marks` says of each piece of a source whether such a question begins there, or it belongs to one. `length_text`
//! has what takes its place.
//!
//! - `shape` has the forms of the question, and `length` the lengths of arrays in their declarations. `place` goes
//!   through a source.
#![tactic(auto)]

mod length;
mod place;
mod shape;

pub use place::{Counted, length_text, size_marks};
