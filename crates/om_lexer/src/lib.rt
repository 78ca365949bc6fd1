//! Text, tokens, trees: the lexer and preprocessor: words, literals, comments, macros, `#` lines; codes of refusals.
//!
//! From the bytes of a C source to its tokens (C17 5.1.1.2, phases 2 to 4; 6.4 and 6.10). The type of every
//! refusal of a source, `SourceFault` with its `FaultCode`, is here too. S0 is out of memory, in every pass.
//!
//! `lex` answers the tokens (`Token`: a `TokenKind` and a `Span`), or the first fault. Tokens are the longest
//! spellings, in order, each with its exact span. Between them stand only white space, comments and lines
//! that are taken out.
//!
//! - `scan` reads what stands at one byte (`Piece`, phase 3), and `token_at` the token there. `white_space`
//!   reads the gaps, `hash_line` and `define` the `#` lines.
//! - `LineState` says what a line is so far, and `macros` what is defined. `lexer` goes from piece to piece,
//!   replaces macros, and gives each directive line a begin and an end (phase 4).
//! - `specs/Pieces`, `Folding` and `Sources` say the same as relations between places of the source.
//! - A new token adds a case to `Spells` and to `token_at`. A new `#` line adds a variant of `HashLine`, and
//!   cases of `IsHashLine`, `state_of_line` and `tokens_of_line`.
//!
//! Cases: gate_cases, "== lexer".
#![tactic(auto)]

mod character;
mod define;
mod fault;
mod hash_line;
mod laws;
mod lexer;
mod macros;
mod piece;
mod scan;
mod spelling;
mod text;
mod token;
mod white_space;
mod word;

pub use fault::{FaultCode, SourceFault, SourceResult};
pub use laws::{one_reading, tokens_apart, tokens_in_order};
pub use lexer::lex;
pub use token::{Keyword, Punctuator, Span, Token, TokenKind};
