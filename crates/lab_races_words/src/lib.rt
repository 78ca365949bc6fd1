//! omplab races --session, draw, hunt: the races of one history in words.
//!
//! `lines` puts the lines together, in the words of lab_explore_answer. `sides` has who made a step, and which critical
//! regions it was in. What words tell a race no clause says.
#![tactic(auto)]

mod lines;
mod sides;

pub use lines::{History, push_count, push_races, report};
