//! Laws of the rules: of all that a source breaks, the answered breach stands lowest, with the lowest number there.
//!
//! It has laws alone: no program runs them, and no other crate depends on this one. So a further law of names
//! and rules stands here, where it costs no crate of a program its proof.
//!
//! - `specs/BreachLaws` says which breach is answered, of all that `breaches_of` in om_scope_rules lists.
//! - `proofs/TokenBreaches` has the order: breaches stand at tokens, and at one token by their numbers. The
//!   others go through the tree and show of each part that its breaches stand among its own tokens.
//! - A new rule adds a case to the file of its part. Of two rules with one place the lower number stands first.
#![tactic(auto)]

pub mod laws;
