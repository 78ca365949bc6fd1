//! How the number of elements of an array is asked for.

ghost use Rattle.std.specs.Prelude.{◌≡◌, ◌≤◌};
ghost use Rattle.lab_port_sizes.specs.Shapes.{is_nth, size_to, asks, is_same, is_element, is_part, element_at, asked_at, name_by};

use lab_port_context::nth_text;
use lab_port_tokens::Piece;
use lab_port_words::{class_of, is_gap};

/// A question for the number of elements of an array, by tokens behind its first one.
#[derive(Clone, Copy)]
pub struct Asked {
    /// The number of the token that is the array's name, from 0.
    pub name: u8,
    /// The number of its last token.
    pub end: u8,
}

/// The question of a `sizeof` before these pieces.
pub(crate) fn asked_at(rest: &[Piece]) -> Option<Asked>
    ensures { result ≡ asked_at rest.now }
{
    if is_part(1, rest) {
        return element_at(0, 3, rest);
    }
    if is_nth(0, b"(", rest) && (is_nth(2, b")", rest) && is_part(3, rest)) {
        return element_at(1, 5, rest);
    }
    None
}

/// The name of the array that is asked for; nothing where none is.
pub(crate) fn name_by(asked: Option<Asked>, rest: &[Piece]) -> &[u8]
    ensures { result.now ≡ name_by asked rest.now }
{
    match asked {
        Some(asked) => nth_text(asked.name as usize, rest),
        None => b"",
    }
}

/// How many pieces there are up to the n-th token that follows, and with it.
pub(crate) fn size_to(n: usize, rest: &[Piece]) -> usize
    ensures { result ≡ size_to n 0 rest.now }
{
    let mut left = n;
    for (i, piece) in rest.iter().enumerate() {
        if is_gap(class_of(piece)) {
            continue;
        }
        if left == 0 {
            return i + 1;
        }
        left -= 1;
    }
    rest.len()
}

// The first element of the array with this name, from the n-th token on: 3 or 5.
fn element_at(name: u8, n: u8, rest: &[Piece]) -> Option<Asked>
    requires { n ≤ 5 }
    ensures { result ≡ element_at name n rest.now }
{
    let at = n as usize;
    if is_element(name, at, rest) {
        return Some(Asked { name, end: n + 3 });
    }
    if is_nth(at, b"(", rest) && (is_element(name, at + 1, rest) && is_nth(at + 5, b")", rest)) {
        return Some(Asked { name, end: n + 5 });
    }
    None
}

// Whether the first element of the array with this name stands there, from the n-th token on.
fn is_element(name: u8, n: usize, rest: &[Piece]) -> bool
    requires { n ≤ 6 }
    ensures { result ≡ is_element name n rest.now }
{
    is_same(name, n, rest)
        && (is_nth(n + 1, b"[", rest) && (is_nth(n + 2, b"0", rest) && is_nth(n + 3, b"]", rest)))
}

// Whether the n-th token is the name that is asked for.
fn is_same(name: u8, n: usize, rest: &[Piece]) -> bool
    ensures { result ≡ is_same name n rest.now }
{
    nth_text(n, rest) == nth_text(name as usize, rest)
}

// Whether a division by a `sizeof` stands there, from the n-th token on.
fn is_part(n: usize, rest: &[Piece]) -> bool
    requires { n ≤ 3 }
    ensures { result ≡ is_part n rest.now }
{
    is_nth(n, b"/", rest) && is_nth(n + 1, b"sizeof", rest)
}

/// Whether the n-th token that follows has these bytes.
pub(crate) fn is_nth(n: usize, text: &[u8], rest: &[Piece]) -> bool
    ensures { result ≡ is_nth n text.now rest.now }
{
    nth_text(n, rest) == text
}
