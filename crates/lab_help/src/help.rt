//! What to write in place of a token that is refused.

use crate::left_out::{BYTES, HASH_LINES, MISUSES, NAMES, SYNTAX};
use crate::library::LIBRARY;
use crate::openmp::{CONSTRUCTS, LOOPS, WORDS};
use crate::table::{words_at, words_of};
use om_lexer::FaultCode;

/// What to write in place of the token at which a source is refused; `None` where nothing more than the
/// code's words is known.
///
/// `before` is the nearest name that stands before the token on its line, and may be empty. The token at a
/// `#` is its whole line, at a quote the whole text, and at the end of the source it is empty.
pub fn help_for(code: FaultCode, token: &[u8], before: &[u8]) -> Option<&'static str> {
    match code {
        FaultCode::BadToken => library_words(before).or(byte_words(token)),
        FaultCode::Syntax => syntax_words(token, before),
        FaultCode::BadHashLine => hash_line_words(token),
        FaultCode::UnknownDirective | FaultCode::BadClause => words_of(&WORDS, token),
        FaultCode::Undeclared => library_words(token),
        FaultCode::Misuse => words_of(&MISUSES, token),
        FaultCode::LoopForm => words_of(&LOOPS, token),
        FaultCode::LeavesConstruct => words_of(&CONSTRUCTS, token),
        _ => None,
    }
}

/// Whether a token at which S3 stands is a word of C that is left out, as `static`.
pub fn is_left_out(token: &[u8]) -> bool {
    matches!(token, [b'a'..=b'z' | b'_', ..])
        && token != &b"int"[..]
        && token_words(token).is_some()
}

// A table that several places ask has one function, since its text costs each function that names it.

// By the token at which S3 stands.
fn token_words(token: &[u8]) -> Option<&'static str> {
    words_of(&SYNTAX, token)
}

// By a name that stands at an S3 or before it.
fn name_words(name: &[u8]) -> Option<&'static str> {
    words_of(&NAMES, name)
}

// By a name of the library.
fn library_words(name: &[u8]) -> Option<&'static str> {
    words_of(&LIBRARY, name)
}

// By the first byte of what is no token; all digits are one.
fn byte_words(token: &[u8]) -> Option<&'static str> {
    match token {
        [b'0'..=b'9', ..] => words_of(&BYTES, b"0"),
        _ => words_at(&BYTES, token),
    }
}

// By what stands behind the `#`.
fn hash_line_words(line: &[u8]) -> Option<&'static str> {
    let [b'#', rest @ ..] = line else {
        return None;
    };
    words_at(&HASH_LINES, rest.trim_ascii_start())
}

// By the token, or by a name that stands there or before it, as `bool` in a function.
fn syntax_words(token: &[u8], before: &[u8]) -> Option<&'static str> {
    match token {
        [b'"', ..] => name_words(before).or(token_words(b"\"")),
        [b'#', ..] => token_words(b"#"),
        [] => Some("a `}` or a `;` is missing before the end"),
        _ => token_words(token)
            .or(name_words(token))
            .or(name_words(before)),
    }
}
