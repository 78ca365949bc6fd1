//! omplab port: macros with parameters, where they are defined, and where they are called.
//!
//! `call_marks` says of each piece of a source whether it belongs to the definition of such a macro, or is a call of
//! one and is written out. `call_text` has what takes the place of a call.
//!
//! - `list` reads lists of parameters and of arguments, and `function` a `#define`. `written` has what is written, and
//!   `place` goes through a source.
#![tactic(auto)]

mod function;
mod list;
mod place;
mod written;

pub use place::{Called, call_marks};
pub use written::call_text;
