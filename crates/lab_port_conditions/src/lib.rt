//! omplab port: conditions of `cpp` in a C source, and the lines that they leave out.
//!
//! `condition_marks` says of each piece of a source whether its line goes with a condition. Where some `#` line is not
//! understood, all lines stay.
//!
//! - `kind` says what a `#` line asks, and `state` which lines are left out behind it. `header` has the names of macros
//!   of headers, and `place` goes through a source.
#![tactic(auto)]

mod header;
mod kind;
mod place;
mod state;

pub use place::condition_marks;
