//! omplab check: all places of a source that are not accepted, by its words alone, once a kind.
//!
//! `kinds` has a line for each rule of the port that has a place in the source, and for each kind of token that has
//! no form, with how many places there are and the lines of the first ones. Each is a change or a refusal of
//! lab_port. The verdict of `check` does not rest on it.
//!
//! - `found` has the places, and `kind` puts those of one kind together.
#![tactic(auto)]

mod found;
mod kind;

pub use kind::kinds;
