//! Commands and answers: the debugger as a function of its command line: words, files, the session, and how it ended.
//!
//! `words` reads the command line: 1 to 32 workers, and perhaps a file. `outcome` joins it with files and the
//! shell. ompback calls `program` on a thread of its own.
#![tactic(auto)]

mod outcome;
mod words;

pub use crate::outcome::{outcome_for, program, run_over, version};
pub use crate::words::{Words, ask_for_version, words_in};
