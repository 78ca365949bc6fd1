//! omplab explore: short ways to what was found.
//!
//! A search comes to each end and race by the first way that it meets, which is long. `with_short_ways` asks lab_play
//! for a shorter one, makes its steps again from the start, and takes it where the same thing is there.
//!
//! - `Retracer` makes given steps again from the start. `noted` says what is where it stands.
//! - `sought` says what a short way has to lead to. Whether lab_play finds one, and how short it is, no clause says.
//! - `ends` and `races` take a way that leads there in place of the longer one. `specs/Ways` says what then still holds.
#![tactic(auto)]

mod ends;
mod noted;
mod races;
mod retracer;
mod sought;
mod ways;

pub use retracer::Retracer;
pub use ways::{ShortWays, with_short_ways};
