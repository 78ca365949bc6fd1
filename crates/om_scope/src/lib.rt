//! Names and rules: checks and resolves statements, constructs, functions and a whole source.
//!
//! `resolve` turns a `Unit` into a `Resolved` (C17 6.2.1; OpenMP API 5.2, sections 4.4.1, 5.1 and 17.1). But
//! for memory, it answers Ok exactly where no rule of om_scope_rules is broken, and else the first breach.
//!
//! - `statement` has the recursion over statements. `simple` has the statements without a statement in them,
//!   and `head` what a `for` has before its body.
//! - `entering` has what comes before the statement of a construct, and `assembly` puts constructs together.
//! - `function` has the rules and variables of functions. `unit` has the items of a source, the rules on
//!   `main`, and the call `resolve`.
//! - `specs/Resolving` names what several clauses say.
//! - A new rule adds a check here, or in om_scope_parts, of the same name as its breaches.
//!
//! Cases: gate_cases, "== resolver".
#![tactic(auto, unfolding(crate::proofs::Auto::definitions))]

mod assembly;
mod entering;
mod function;
mod head;
mod simple;
mod statement;
mod unit;

pub use om_scope_rules::GLOBAL_CELL_LIMIT;
pub use om_scope_tree::Resolved;
pub use unit::resolve;
