//! omplab draw: the steps of a history: what each touched, and in words what it did, for which it is made once more.
//!
//! `trace` answers the `Traced` steps that lab_graph draws. What each touched is read from the machine's
//! records. For what it did, all are made again from the start (`replay`): `words` has the instruction and
//! the variable, `variable` finds the variable that an instruction names, and `value` has the number that a
//! step put, or the fault that it met. `manner` has how its instruction accesses variables.
#![tactic(auto)]

pub mod laws;
mod manner;
mod replay;
mod value;
mod variable;
mod words;

pub use replay::trace;
