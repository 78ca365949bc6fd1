//! omplab explore, omplab races: what is answered for a source: all ends, faults and races in words, or a script.
//!
//! - `answer` explores the program of a source, and tells what was found, or writes the steps that lead to one thing.
//!   Contracts say which exploration is told, and whether it is bad. What words tell it no clause says.
//! - `asked` has what is asked for, and `finding` says whether what was found is bad, and the exit status.
//! - `report` puts the lines together. `words` has ends and faults, and `racing` races, in the `order` in which they are
//!   told. `regions` and `names` make the steps of a path again, to name a critical region or a local variable.
//! - `ways` tells a path as blocks of steps, and `script` as commands.
#![tactic(auto)]

mod asked;
mod explored;
mod finding;
mod names;
mod order;
mod racing;
mod regions;
mod report;
mod script;
mod ways;
mod words;

pub use asked::{Answer, Finding, Question, Subject};
pub use explored::answer;
pub use finding::status_of;
pub use racing::{Meeting, push_meeting};
pub use words::push_counted;
