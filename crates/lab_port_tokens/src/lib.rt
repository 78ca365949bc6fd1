//! omplab port: the pieces of a C source: tokens, white space, comments, line ends, each with its bytes.
//!
//! `pieces` cuts any bytes into pieces (C17 5.1.1.2, phase 3, and 6.4). Each byte is in exactly one piece, so
//! the bytes of all pieces, in their order, are the source. `port` reads sources that ompback's own lexer
//! refuses: floating numbers, characters, all operators of C.
//!
//! - `character` has the classes of bytes. `scan` says how far a piece goes, and `piece` what it is.
#![tactic(auto)]

mod character;
mod piece;
mod scan;

pub use character::{is_digit, is_word_byte};
pub use piece::{Piece, PieceKind, pieces};
