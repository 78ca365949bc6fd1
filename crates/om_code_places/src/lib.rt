//! Code: what a debugger asks of a program: the line of an instruction, and the variable that a name means there.
//!
//! `line_of` answers the line. `variable_at` answers the innermost variable that a name means at an
//! instruction, and `global_named` a global one (`Var`). `specs/Visible` says what these are. It knows the
//! code of a program and no tree, so the debugger does not depend on the front end.
//!
//! Cases: `has_lines`, `has_names` and `has_meanings` of gate_cases.
#![tactic(auto)]

mod visible;

pub use visible::{Var, global_named, line_of, variable_at};
