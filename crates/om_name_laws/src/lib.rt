//! Laws of names: where a use of a variable gave an instruction, its name means the place that the instruction names.
//!
//! It has laws alone: no program runs them, and no other crate depends on this one. So a further law of names in code
//! stands here, where it costs no crate of a program its proof.
//!
//! - `specs/Sees` says which resolved trees see their names: each use stands where a name means its variable.
//!   `specs/NameLaws` says what `variable_at` answers at the instructions of such a tree.
//! - `proofs/Runs` has which variables the code of an expression names. `proofs/Meanings` has what a name means where
//!   scopes begin and end, one part behind the other. `proofs/Parts` and `proofs/Statements` go through the tree with
//!   both. `proofs/Bodies` draws the law from the body of a function.
//! - `specs/GlobalLaws` says the same of globals. `proofs/Begun` has which bodies the code of a statement begins, and
//!   `proofs/Globals` that the body of a function stands in no other one.
//! - A new form of a statement adds a case to `Sees`, to `Statements` and to `Begun`.
#![tactic(auto)]

pub mod laws;
