//! Text, tokens, trees: the upper half of the parser: reads statements, functions, sources; what a directive begins.
//!
//! `parse` turns tokens into a `Unit` (C17 6.8 and 6.9). But for memory, it is Ok exactly where a well-formed
//! tree with these tokens keeps the limits and has the forms of `atomic`. No second tree has these tokens.
//!
//! - `statement` has the recursion over statements and blocks. `start` and `construct` tell by the first
//!   token or word what a statement is.
//! - `opening` reads what stands in front of a body. `ending` has what follows the body of a `do`, and tests
//!   the form of an `atomic`. `simple` reads what has no statement in it.
//! - `function` reads the heads of functions, and `unit` the items of a source.
//! - `specs/Parsing`, `Refusals`, `LineFaults` and `BlockFaults` say what is promised, and why a source is
//!   refused. The `..Reading` files are for proofs.
//! - The lower half is known by its laws alone (`om_parser_parts/specs/Laws`). Blocks are known to what
//!   stands around them by `specs/Laws` too: they are sound, are read again, and stop where it says.
//! - `proofs/` has files for each part: what is read (`..Sound`), what is read again (`..Complete`), where it
//!   is stopped (`..Cut`), and by which codes it refuses (`..Refusals`).
//!
//! Cases: gate_cases, "== parser".
#![tactic(auto, using(crate::proofs::Auto::lemmas), unfolding(crate::proofs::Auto::definitions))]

mod construct;
mod ending;
mod function;
pub mod laws;
mod opening;
mod simple;
mod start;
mod statement;
mod unit;

pub use om_parser_tree::Unit;
pub use unit::{STACK_SIZE, accepted_units, one_tree, parse, syntax_stands};
