//! Commands and answers: a line becomes a command, and each reply text, to the byte; cells of globals to print.
//!
//! - `request_of` answers the `Request` of a line: a `Command`, or why it is none (`CommandFault`, H1 or H2).
//!   `verb` names the first word, `arguments` reads the others: numbers, workers, names of tasks, variables.
//! - `step`, `value`, `list` and `stop` write the replies (`push_..`). `object` writes the text of an object,
//!   and `value` writes numbers too.
//! - `specs/Commands` says which words spell which command; `specs/Steps`, `Values`, `Places`, `Lists` and
//!   `Stops` which text a reply has.
#![tactic(auto)]

mod arguments;
mod command;
mod list;
mod object;
mod request;
mod step;
mod stop;
mod value;
mod verb;

pub use command::{Command, CommandFault, Request, TaskName, Variable};
pub use list::{
    push_events, push_history, push_no_tasks, push_output, push_roll, push_task, push_where,
};
pub use request::request_of;
pub use step::{push_command_fault, push_full, push_step, push_undo, push_undone};
pub use stop::{Stop, push_break, push_deleted, push_freed, push_ran, push_watch};
pub use value::{GlobalCell, push_local, push_number, push_numbered, push_print};
