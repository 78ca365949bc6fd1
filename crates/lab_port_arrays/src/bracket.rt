//! The brackets behind the name of an array.

ghost use Rattle.std.specs.Prelude.{◌≡◌, ◌≤◌, length, IfSome};
ghost use Rattle.lab_port_arrays.specs.Brackets.{is_open_bracket, is_close_bracket, is_foreign, depth_behind, breaks, closes, bracket_size, pair_size};

use lab_port_context::deeper;
use lab_port_tokens::Piece;
use lab_port_words::{Class, Sign, class_of, is_gap};

/// How many pieces two indices have that stand directly there.
pub(crate) fn pair_size(rest: &[Piece]) -> Option<usize>
    ensures size { result ≡ pair_size rest.now }
    ensures inside { IfSome result (λ size. size ≤ length rest.now) }
{
    let Some(size) = bracket_size(rest) else {
        return None;
    };
    match bracket_size(&rest[size..]) {
        Some(more) => Some(size + more),
        None => None,
    }
}

/// How many pieces the brackets have that begin directly there.
pub(crate) fn bracket_size(rest: &[Piece]) -> Option<usize>
    ensures size { result ≡ bracket_size rest.now }
    ensures inside { IfSome result (λ size. size ≤ length rest.now) }
{
    let mut depth = 0;
    for (i, piece) in rest.iter().enumerate() {
        let class = class_of(piece);
        if breaks(depth, class) {
            return None;
        }
        if closes(depth, class) {
            return Some(i + 1);
        }
        depth = depth_behind(depth, class);
    }
    None
}

// Whether brackets cannot go on behind it.
fn breaks(depth: usize, class: Class) -> bool
    ensures { result ≡ breaks depth class }
{
    is_foreign(class) || (depth == 0 && !(is_gap(class) || is_open_bracket(class)))
}

/// Whether it is the last one of the brackets.
pub(crate) fn closes(depth: usize, class: Class) -> bool
    ensures { result ≡ closes depth class }
{
    depth == 1 && is_close_bracket(class)
}

/// How many brackets are open behind it.
pub(crate) fn depth_behind(depth: usize, class: Class) -> usize
    ensures { result ≡ depth_behind depth class }
{
    if is_open_bracket(class) {
        return deeper(depth);
    }
    if is_close_bracket(class) {
        depth.saturating_sub(1)
    } else {
        depth
    }
}

// What stands in no index.
fn is_foreign(class: Class) -> bool
    ensures { result ≡ is_foreign class }
{
    match class {
        Class::Sign(Sign::Semicolon | Sign::OpenBrace | Sign::CloseBrace | Sign::Hash) => true,
        _ => false,
    }
}

fn is_open_bracket(class: Class) -> bool
    ensures { result ≡ is_open_bracket class }
{
    match class {
        Class::Sign(Sign::OpenBracket) => true,
        _ => false,
    }
}

fn is_close_bracket(class: Class) -> bool
    ensures { result ≡ is_close_bracket class }
{
    match class {
        Class::Sign(Sign::CloseBracket) => true,
        _ => false,
    }
}
