//! Lists in parentheses behind the name of a macro (C17 6.10.3): parameters, and arguments.

ghost use Rattle.std.specs.Prelude.{◌≡◌, ◌++◌, ◌≤◌, length, IfSome, OnOk};
ghost use Rattle.lab_port_calls.specs.Lists.{is_foreign, depth_behind, breaks, closes, parts, commas_behind, list_of, spaced, begins, left_behind, ends, argument_part, argument_of, number_behind, parameter_of};

use lab_port_context::{deeper, is_close, is_comma, is_open};
use lab_port_tokens::Piece;
use lab_port_words::{Class, Sign, class_of, is_gap};
use om_seq::AllocResult;

/// A list in parentheses.
#[derive(Clone, Copy)]
pub struct Arguments {
    /// How many pieces it has, with the white space before it.
    pub size: usize,
    /// How many commas part its arguments.
    pub commas: usize,
}

/// The list in parentheses that follows.
pub(crate) fn list_of(rest: &[Piece]) -> Option<Arguments>
    ensures list { result ≡ list_of rest.now }
    ensures inside { IfSome result (λ list. list.size ≤ length rest.now) }
{
    let mut commas = 0;
    let mut depth = 0;
    for (i, piece) in rest.iter().enumerate() {
        let class = class_of(piece);
        if breaks(depth, class) {
            return None;
        }
        if closes(depth, class) {
            return Some(Arguments {
                size: i + 1,
                commas,
            });
        }
        commas = commas_behind(commas, depth, class);
        depth = depth_behind(depth, class);
    }
    None
}

/// The bytes of a piece. White space, a comment and a line end are a space.
pub(crate) fn spaced(piece: &Piece) -> &[u8]
    ensures { result.now ≡ spaced piece.now }
{
    if is_gap(class_of(piece)) {
        b" "
    } else {
        piece.text.as_slice()
    }
}

/// Appends the argument of a list with this number, the first one for 0. The only error is out of memory.
pub(crate) fn push_argument(out: &mut Vec<u8>, number: usize, list: &[Piece]) -> AllocResult<()>
    ensures { OnOk result (out.new.items ≡ out.old.items ++ argument_of number list.now) }
{
    let mut left = deeper(number);
    let mut depth = 0;
    for piece in list {
        let class = class_of(piece);
        if ends(left, depth, class) {
            return Ok(());
        }
        out.extend_from_slice(argument_part(left, piece))?;
        left = left_behind(left, depth, class);
        depth = depth_behind(depth, class);
    }
    Ok(())
}

/// The number of the parameter with this name, the first one for 0.
pub(crate) fn parameter_of(name: &[u8], list: &[Piece]) -> Option<usize>
    ensures { result ≡ parameter_of name.now list.now }
{
    let mut number = 0;
    for piece in list {
        let class = class_of(piece);
        if is_close(class) {
            return None;
        }
        if piece.text.as_slice() == name {
            return Some(number);
        }
        number = number_behind(number, class);
    }
    None
}

// The number of the parameter behind a piece.
fn number_behind(number: usize, class: Class) -> usize
    ensures { result ≡ number_behind number class }
{
    if is_comma(class) {
        deeper(number)
    } else {
        number
    }
}

fn argument_part(left: usize, piece: &Piece) -> &[u8]
    ensures { result.now ≡ argument_part left piece.now }
{
    if left == 0 { spaced(piece) } else { b"" }
}

// Behind how many pieces that begin an argument the wanted one begins.
fn left_behind(left: usize, depth: usize, class: Class) -> usize
    ensures { result ≡ left_behind left depth class }
{
    if begins(depth, class) {
        left.saturating_sub(1)
    } else {
        left
    }
}

// Whether an argument begins behind it.
fn begins(depth: usize, class: Class) -> bool
    ensures { result ≡ begins depth class }
{
    (depth == 0 && is_open(class)) || parts(depth, class)
}

// Whether the wanted argument ends before it.
fn ends(left: usize, depth: usize, class: Class) -> bool
    ensures { result ≡ ends left depth class }
{
    left == 0 && (parts(depth, class) || closes(depth, class))
}

// How many commas part arguments behind it.
fn commas_behind(commas: usize, depth: usize, class: Class) -> usize
    ensures { result ≡ commas_behind commas depth class }
{
    if parts(depth, class) {
        deeper(commas)
    } else {
        commas
    }
}

// Whether it is a comma between two arguments.
fn parts(depth: usize, class: Class) -> bool
    ensures { result ≡ parts depth class }
{
    depth == 1 && is_comma(class)
}

// Whether it is the last piece of a list.
fn closes(depth: usize, class: Class) -> bool
    ensures { result ≡ closes depth class }
{
    depth == 1 && is_close(class)
}

// Whether a list cannot go on behind it.
fn breaks(depth: usize, class: Class) -> bool
    ensures { result ≡ breaks depth class }
{
    is_foreign(class) || (depth == 0 && !(is_gap(class) || is_open(class)))
}

// How many parentheses are open behind it.
fn depth_behind(depth: usize, class: Class) -> usize
    ensures { result ≡ depth_behind depth class }
{
    if is_open(class) {
        return deeper(depth);
    }
    if is_close(class) {
        depth.saturating_sub(1)
    } else {
        depth
    }
}

// What stands in no list.
fn is_foreign(class: Class) -> bool
    ensures { result ≡ is_foreign class }
{
    match class {
        Class::Sign(Sign::Semicolon | Sign::OpenBrace | Sign::CloseBrace | Sign::Hash) => true,
        _ => false,
    }
}
