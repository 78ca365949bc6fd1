//! omplab hunt, omplab explore: schedules that are played: made by chance from a seed, judged, made short.
//!
//! - `Chance` gives the numbers of a seed, and `wander` makes a schedule of them. `player` plays one over a
//!   machine, which it winds back (`trial`). `seeds` does this for one seed after the other, all on one
//!   machine.
//! - lab_judge says whether what is left is bad. `shorten` drops and joins blocks by `edits`, while what comes of them is
//!   what is sought (`sought`). `Shortener` does that for who seeks something else.
//! - `blocks` makes lists of blocks.
#![tactic(auto)]

mod blocks;
mod edits;
mod player;
mod seeds;
mod shorten;
mod shortener;
mod sought;
mod trial;
mod wander;

pub use blocks::blocks_of;
pub use seeds::{Chances, Ground, Schedule};
pub use shortener::{Brief, Shortener};
pub use sought::{Finish, Sought};
