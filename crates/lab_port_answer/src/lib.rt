//! omplab port: what is answered for a source: the ported text, the list of its changes, and the verdict on it.
//!
//! `answer` leaves an accepted source as it is. Of any other it says what lab_port makes of it, and what `check`
//! says of that text.
#![tactic(auto)]

mod answered;
mod summary;
mod verdict;

pub use answered::{Answer, is_held_back};
pub use verdict::answer;
