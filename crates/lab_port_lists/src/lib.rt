//! omplab port: the lists of values of arrays in a C source, and the stores that take their place.
//!
//! `list_marks` says of each piece of a source whether it is an array with a list, belongs to one, or is the `{`
//! of `main`, behind which the arrays at file scope get their values. `array_text` and `declarator` have what takes its
//! place.
//!
//! - `shape` says how far a list goes, and `value` what its values are. `array` has what is written, and `place`
//!   goes through a source.
#![tactic(auto)]

mod array;
mod place;
mod shape;
mod value;

pub use array::{array_text, declarator};
pub use place::{Listed, list_marks};
