//! The law that OpenMP states of critical regions: one worker at a time is inside of those of a name.
//!
//! It has laws alone: no program runs them, and no other crate depends on this one. It joins a law of the machine,
//! that one worker at a time is inside of the regions of a lock (om_team_laws), and one of lowered code, that a name
//! has one lock (om_lower_laws).
#![tactic(auto)]

pub mod laws;
