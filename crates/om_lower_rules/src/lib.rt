//! Lowering: the code of a tree, as a relation with laws; slots of variables, copies that a region is given, tables.
//!
//! A row of code is the code that a form of the tree has, as a relation that knows no emitter. So the crates
//! that find tables and those that write code are proved side by side.
//!
//! - `specs/Rows` and what it uses say which code a tree has, and `specs/Scopes` which scopes of names.
//!   `laws` has the laws of both: a tree has at most one code, and that of a whole tree is valid where its
//!   numbers and operands are few enough.
//! - `specs/Meaning` says what serial code means: expressions and statements without calls and directives.
//!   `value_means` and `statement_means` are its laws. `specs/SourceOperators` has what operators give, and
//!   `specs/Layouts` where variables are.
//! - `tables` has the tables of a program; `texts` (formats, names of critical regions), `extents` (cells of
//!   declared variables) and `variables` (of a body, by slots) are what they hold. `body` answers what the
//!   instructions of a body name by numbers (`BodyTables`).
//! - `copies` has a `parallel` or a `task` by its parts, and its firstprivate copies. `slots` has the slots
//!   of a body, and `Numbers` the numbers of bodies and of lists of PICK. A `VariableScope` is a stretch of
//!   code in which a name means a variable, before slots are known.
//! - `specs/Ends` says what is known of a region before its code is written: the numbers after it and its
//!   variables.
//!
//! Cases: gate_cases, "== code".
#![tactic(auto)]

mod body;
mod copies;
mod extents;
pub mod laws;
mod slots;
mod tables;
mod texts;
mod variables;

pub use body::BodyTables;
pub use copies::{FirstCopy, Region, given_copies};
pub use extents::Extents;
pub use slots::{copy_slots, parameter_slots, slots_with};
pub use tables::{Numbers, Tables};
pub use texts::Texts;
pub use variables::{VariableScope, Variables};
