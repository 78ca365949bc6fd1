//! omplab explore: values and objects as words: lists of numbers that are equal where the values are, and nowhere else.
//!
//! Who keeps a set of states asks whether a value was there before. Values are trees of several types. So each is
//! written down as words, which can be looked for in a table.
//!
//! - `push_value` writes a value, by `control` and by `record` for event records. `push_object` writes an object.
//!   `plain` has numbers, names and flags.
//! - `specs/Values` says which words a value has. `laws::distinct_values` says that no two values have the same
//!   words, and that the words of one begin the words of no other. `specs/Objects` and `laws::distinct_objects`
//!   say this of objects.
#![tactic(auto)]

mod control;
pub mod laws;
mod object;
mod plain;
mod record;
mod value;

pub use object::push_object;
pub use value::push_value;
