//! Text, tokens, trees: reads one `#pragma omp` line: its directive, clauses, arguments; which directive has which.
//!
//! `directive` turns the tokens of one line into a `Directive` (OpenMP API 5.2). Its expressions are slices
//! of these tokens, which om_parser_parts reads. Any other line is refused with S3, S5 or S6.
//!
//! - `tree` and `clause` have the types. Their lists are `Seq`, so contracts need no second tree.
//! - `word` knows the words, `table` the clauses of each directive, `argument` what stands after the word of
//!   a clause. `filling` puts an expression in place of its tokens.
//! - A part that cannot be read says where it stops (`Stop`). Its caller decides whether that is S3 or the
//!   clause's S6.
//!
//! Cases: gate_cases, "== line".
#![tactic(auto, using(crate::proofs::Auto::lemmas), unfolding(crate::proofs::Auto::definitions))]

mod argument;
mod before;
mod clause;
mod filling;
mod laws;
mod reading;
mod table;
mod token;
mod tree;
mod word;

pub use before::expression_before;
pub use clause::{
    Clause, ClauseItem, ClauseKind, DataSharing, DefaultArgument, FurtherName, Name, NameList,
    Number, PlainClause, Reduction, ReductionOperator, Schedule, ScheduleKind, Sharing, Value,
    ValueClause,
};
pub use laws::{clauses_stand, first_value, one_answer, one_directive, one_expression, one_fault};
pub use reading::directive;
pub use tree::{AtomicKind, Directive, DirectiveKind, DirectiveName};
pub use word::begun_by;
