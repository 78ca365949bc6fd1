//! Names and rules: checks, resolves expressions, calls, declarations, globals, clauses, loop bounds.
//!
//! These are the parts of statements that are no statements: om_scope does the same for statements,
//! constructs and functions. One walk asks the rules of om_scope_rules and makes the resolved tree.
//!
//! - `expression` and `call` resolve expressions, and `target` what is assigned to. `declaration` and
//!   `globals` declare variables. `directive` takes clauses, and `bounds` resolves the bounds of a loop.
//!   `separated` goes through a list whose items commas part.
//! - Most parts are a function with the clause `Resolves`: its first breach is refused, or its resolution is
//!   found. The clause `in_scope` says what is in scope after the part. What adds to a list promises `Adds`
//!   or `Appends`.
//! - `specs/Views`, `Declares` and `Lists` name what several clauses say.
//! - A new rule adds a check here of the same name as its breaches.
//!
//! Cases: gate_cases, "== resolver".
#![tactic(auto, unfolding(crate::proofs::Auto::definitions))]

mod bounds;
mod call;
mod declaration;
mod directive;
mod expression;
mod globals;
mod separated;
mod target;

pub use bounds::{enter_loop, resolve_loop};
pub use declaration::{check_new, copy_of, local_of, resolve_locals};
pub use directive::{resolve_directive, resolve_flush};
pub use expression::{add, boxed, boxed_expression, unboxed};
pub use globals::declare_globals;
pub use om_scope_symbols::refuse_if;
pub use separated::Separated;
pub use target::misplaced;
