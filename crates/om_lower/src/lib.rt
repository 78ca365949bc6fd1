//! Lowering: writes worksharing loops and `sections`; puts statements, regions and bodies together; makes the program.
//!
//! `lower` turns a `Resolved` into a `Program`. The code is that of om_lower_rules, with a line for each
//! instruction, the scopes of its names, and the name of its function. The first function that passes a limit
//! is refused with S11 at its name.
//!
//! - After it is resolved, a statement is looked at four times: `tables_of` gives things their numbers,
//!   `sites_of` finds the bodies, `add_slots` the variables of each body, and `statement` writes the code.
//! - `lowering` makes the program, `functions` goes through the functions, `bodies` makes the bodies of each.
//!   `body` writes one body (`write_function`, `write_parallel`, `write_task`), and settles its labels where
//!   it is within the limit. An `Input` is what they all read.
//! - `statement` has the recursion over statements. `worksharing` has the begins and ends of worksharing loops
//!   and of `sections`; om_lower_emit has those of `if`, loops and constructs. `region` writes what stands for
//!   a `parallel` or `task` in the body that meets it.
//! - `names` says what names mean in a body by its slots, and `atomics` which of its loads and stores are the
//!   access of an atomic read or write. `frame_of` and `first_high` keep limits, on slots
//!   and on operands. `program` lays bodies and tables side by side, and `texts` cuts formats.
//! - `specs/Limits` says which functions are too large, `specs/Made` what is made before all of the program
//!   is, `specs/Refusals` why a tree has no program.
//! - A new statement is a row of om_lower_rules, an arm of `statement` here, and a case of `see_statement` in
//!   om_lower_tables. A new kind of body is a row of `body_row` in om_lower_rules, and a `write_..` here.
//!
//! The calls of om_code_places stand at this root too. Cases: gate_cases, "== code".
#![tactic(auto)]

mod atomics;
mod bodies;
mod body;
mod functions;
pub mod laws;
mod lowering;
mod names;
mod program;
mod region;
mod statement;
pub mod texts;
mod worksharing;

pub use lowering::lower;
pub use om_code_places::{Var, global_named, line_of, variable_at};
