//! Cases and checks: each step of sessions compared with what its row said first.
//!
//! Each section of a text is a session of two workers: a C source, and below a line `%%` the commands
//! `step`, `start`, `undo` and `roll`. The program `gate` prints what is told of them.
//!
//! - `asked` calls `names` and `effect` of om_task and of om_team before each step. `compared` compares
//!   what they answer with what the step's entry touches, and with the reply to the step.
//! - `held` makes the memory that `effect` is asked about. It holds what the machine holds at the objects
//!   that the step names.
//! - `pair` has two machines of `machine_of_two`. At a roll the first one takes the cone out by `cone` and
//!   `take_out`, and the second one by `roll`. Their histories are compared.
//! - `removal` calls `remove` of the store of om_cells. `words` has the words for what a step touches.
#![tactic(auto)]

mod asked;
mod compared;
mod held;
mod machine_of_two;
mod pair;
mod removal;
mod sections;
mod words;

pub use crate::sections::told;
