//! Lowering: writes code for expressions, declarations, clauses, jumps, `if`, C's loops and constructs.
//!
//! om_lower has the recursion over statements, and the begins and ends of worksharing loops and `sections`. A
//! construct with a statement in it is written by a begin, the statement and an end. The begin makes the
//! label, and the end places it.
//!
//! - `draft` is a body that is being written (`Draft`). A jump names a label, which gets its place where the
//!   code comes to it; `settle` puts places in the stead of labels. `writing` is a draft with the scopes of
//!   names in it (`Writing`).
//! - `expression` writes an expression for its value, `unused` one whose value nothing uses, and `single`
//!   what no expression stands in. `operator` has the operators of instructions.
//! - `declaration` has declarations, the scopes of parameters, tests and `return`, `clause` what copies begin
//!   with and reductions, `construct` the begins and ends of constructs, `repeated` those of `if` and of
//!   loops. `alone` has barriers, `atomic`, and jumps out of a loop.
//! - `Here` says where code is written: the tables of the body, and where the construct stands in the source.
//!   `spot` says where a statement stands: the numbers of the next body and list, and the labels to which
//!   jumps go.
//! - `specs/Emits` gives every promise its form. Take any finished body that agrees with what was written:
//!   the row of om_lower_rules stands in it, at the place where it was written. So promises compose item by
//!   item, as rows do. `Appends` says this of what a function answers, `AppendsScopes` of scopes.
//! - `Writing`, `Going`, `Each` and `Scoping` of `specs/` hold lemmas for proofs only.
//! - A new expression adds an arm of `value`, and of `effect` where its value may be left unused.
//!
//! Cases: gate_cases, "== code".
#![tactic(auto)]

pub mod alone;
pub mod clause;
pub mod construct;
pub mod declaration;
pub mod draft;
mod expression;
mod operator;
pub mod repeated;
mod single;
pub mod spot;
pub mod unused;
pub mod writing;

pub use expression::value;
pub use spot::Here;
