//! Text, tokens, trees: the lower half of the parser: reads expressions, also those of directives, and declarations.
//!
//! These are the parts of statements that are no statements (C17 6.5 and 6.7; OpenMP API 5.2). om_parser
//! reads the rest.
//!
//! - `part` has the calls for om_parser, with the limits that hold in a statement. `front` takes the token
//!   that stands first.
//! - `expression` reads expressions, with their operators in `operator`; `declaration` reads declarations,
//!   and `line` one directive line with its expression. The trait `Initial` says what may stand after the `=`
//!   of a declarator.
//! - `specs/Reading`, `Repetition` and one `..Reading` for each part say step by step what is read from the
//!   left. They are for proofs, and say so in their first line. The code has one function for each
//!   production, and it gives what the reader gives.
//! - What must be believed beside the grammar is in `specs/WrongLines`. `specs/Laws` says by which laws
//!   om_parser knows these parts.
//! - `Outcomes`, `Taken`, `Again`, `Loops`, `ItemsSound` and `ItemsComplete` have lemmas about any reader, as
//!   matter of proofs. om_parser cites them.
//!
//! Cases: gate_cases, "== parser".
#![tactic(auto, unfolding(crate::proofs::Auto::definitions))]

mod declaration;
mod expression;
pub mod front;
pub mod laws;
mod line;
mod operator;
pub mod part;
