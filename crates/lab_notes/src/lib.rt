//! omplab notes: a filter that adds words after a session's answers; finds functions and lines in a source's tokens.
//!
//! `annotate` is the filter. Without what stands after the mark, every line is the one that came. Bytes that
//! a line announces are passed on as they are.
//!
//! - `filter` passes bytes on, line by line; what was read and not passed on is `Waiting`. `remark` finds
//!   what stands after a line, by the `words` in it.
//! - `names` runs the front end for what a source says of these answers. `function` finds its functions and
//!   their lines, by its tokens. `cell` tells which variable a cell may be, and `push_object` puts the object
//!   of a refused undo into words.
#![tactic(auto)]

mod cell;
mod filter;
mod function;
mod names;
mod remark;
mod words;

pub use filter::annotate;
