//! Lowering: walks a tree before its code is written: fills the tables, and finds the slots and regions of each body.
//!
//! - `tables_of` makes the tables of a program in one walk (`mentions`). They have the numbers of formats, of
//!   critical regions and of bodies, how many cells the variables of each function have, and the numbers
//!   after each body.
//! - `function_variables` and `region_variables` of `sights` find the variables of a body by their slots:
//!   what is declared in it, and what its expressions use (`om_scope_tree::uses`).
//! - `sites_of` finds the bodies of a function (`Site`): its own, and that of each `parallel` and `task` in
//!   it.
//! - What they find is what the relation of om_lower_rules says. `specs/Room` says when numbers of 32 bits
//!   are enough, and `specs/Weighed` why they stay enough from one part of a tree to the next. A new form
//!   adds a case there.
//!
//! Cases: gate_cases, "== code".
#![tactic(auto, using(crate::proofs::Auto::lemmas), unfolding(crate::proofs::Auto::definitions))]

mod mentions;
mod sights;
mod sites;
mod tables;

pub use sights::{function_variables, region_variables};
pub use sites::{BodyPart, Site, sites_of};
pub use tables::tables_of;
