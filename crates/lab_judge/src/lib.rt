//! omplab hunt: what is bad about a session: a fault, another output than is wanted, a program that is stuck; who waits.
//!
//! - `judge` says whether where a machine stands is bad (`Badness`), by what the program has to print
//!   (`Wanted`, and its `Standard`).
//! - `outcome` says it of the book that a session left: its `End`, where that is bad, and what was printed.
//! - `waits` says who waits in which line for what, where a program is stuck (`Wait`, `Awaited`).
//! - `words` writes what is bad about an end.
#![tactic(auto)]

mod judge;
mod outcome;
mod waits;
mod words;

pub use judge::{Badness, Standard, Wanted, has_ended};
pub use outcome::{Alone, Came, End, alone_of, came_of, ended};
pub use waits::{Awaited, Wait};
pub use words::push_badness;
