//! Rows: what barriers, loops, sections, single, masked and critical regions touch and change; chunks of iterations.
//!
//! These are the rows of what the members of a team share. om_team_serial says what a row is.
//!
//! - `meetings` has a member's way through barriers (ARRIVE, DEPART), up to the one where its task ends
//!   (LEAVE). `is_open` says whether a barrier is open.
//! - `shares` has loops and sections: how they are opened, and how their iterations are given out. `chunk`
//!   counts iterations, and `laws` has the laws of static schedules.
//! - `table` has the row of each instruction of what members of a team share (`sharing_answer`), and of those
//!   of masked and critical regions (`region_answer`).
//! - `singles` has single regions and the end of each worksharing region, `masking` masked regions, and
//!   `critical` critical regions with their locks. `parts` has what several of them are made of.
#![tactic(auto)]

mod chunk;
mod critical;
pub mod laws;
mod masking;
mod meetings;
mod parts;
mod shares;
mod singles;
mod table;

pub use chunk::Chunk;
pub use critical::{ask_critical, enter_critical, leave_critical};
pub use masking::{end_masked, masked};
pub use meetings::{arrive, depart, leave};
pub use parts::Branch;
pub use shares::{Bounds, grab, iterate, open_loop, open_sections, pick};
pub use singles::{end_worksharing, single};
pub use table::{region_answer, sharing_answer};
