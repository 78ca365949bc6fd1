//! omplab port: the statements of a C source that print a text which they choose, and a `printf` for each text.
//!
//! `print_marks` says of each piece of a source whether it is a `printf` with a `%s` for a text in quotes or for one of
//! several, or belongs to one. `statement_text` has what takes its place.
//!
//! - `format` finds the `%s`, and `statement` says how far a statement goes and what its tokens are. `printed` has what
//!   is written, and `place` goes through a source.
#![tactic(auto)]

mod format;
mod place;
mod printed;
mod statement;

pub use place::print_marks;
pub use printed::statement_text;
