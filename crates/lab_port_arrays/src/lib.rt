//! omplab port: arrays of a C source whose lengths are more than one token, and arrays of two dimensions.
//!
//! `array_marks` says of each piece of a source whether it is the name of such an array, where it is declared or where
//! it has two indices, or belongs to one. `sized_text` and `index_text` have what takes its place.
//!
//! - `number` and `constant` have the numbers that lengths stand for, and `bracket` says how far indices go. `declared`
//!   says where a declaration names something, and `shape` what all of a source says of a name. `written` has what is
//!   written, and `place` goes through a source.
#![tactic(auto)]

mod bracket;
mod constant;
mod declared;
mod number;
mod place;
mod shape;
mod written;

pub use place::array_marks;
pub use written::{index_text, sized_text};
