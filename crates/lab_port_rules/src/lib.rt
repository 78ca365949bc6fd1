//! omplab port: the rules: where each applies in a source, how much it takes, which tokens have no form.
//!
//! `marks_of` says of each piece of a source whether it is kept, replaced by a rule, taken by the rule of an
//! earlier piece, or has no form. Only the classes of pieces decide that (lab_port_words), and what stands
//! around them (lab_port_context).
//!
//! - `rule` has the rules. `code`, `library` and `directive` have a function for each group of them. `mark`
//!   joins them.
#![tactic(auto)]

mod code;
mod directive;
mod library;
mod mark;
mod rule;

pub use library::{begins_statement, changed_by};
pub use mark::{Mark, marks_of, taken_after};
pub use rule::{Meaning, Rule};
