//! How far the list of an array goes (C17 6.7.9), behind its name.

ghost use Rattle.std.specs.Prelude.{◌≡◌, ◌≤◌, length, IfSome};
ghost use Rattle.lab_port_lists.specs.Shapes.{step_in_length, step_behind_length, step_behind_name, step_behind_bracket, step_behind_equal, step_behind_list, step_out, step_to_end, step_at_sign, step_in_values, step_by, step, list_size};

use lab_port_context::deeper;
use lab_port_tokens::Piece;
use lab_port_words::{Class, Sign, Word, class_of};

/// What stands before a token of such a declaration.
#[derive(Clone, Copy)]
pub enum Part {
    /// The name of the array.
    Name,
    /// The `[`.
    Open,
    /// The length.
    Length,
    /// The `]`.
    Bracket,
    /// The `=`.
    Equal,
    /// Values, among which so many brackets are open.
    Values(usize),
    /// The list.
    List,
}

/// What a piece is to such a declaration.
#[derive(Clone, Copy)]
pub enum Next {
    /// No part of it.
    Fails,
    /// Its `;`.
    Ends,
    /// A part of it, behind which this stands before the next one.
    Goes(Part),
}

/// How many pieces stand behind the name of an array and before the `;`, where its declaration has a list.
pub(crate) fn list_size(rest: &[Piece]) -> Option<usize>
    ensures size { result ≡ list_size rest.now }
    ensures inside { IfSome result (λ size. size ≤ length rest.now) }
{
    let mut part = Part::Name;
    for (i, piece) in rest.iter().enumerate() {
        match step(part, class_of(piece)) {
            Next::Fails => return None,
            Next::Ends => return Some(i),
            Next::Goes(next) => part = next,
        }
    }
    None
}

// What a piece is behind these.
fn step(part: Part, class: Class) -> Next
    ensures { result ≡ step part class }
{
    match class {
        Class::Gap | Class::Join | Class::LineEnd => Next::Goes(part),
        _ => step_by(part, class),
    }
}

// What a token is behind these.
fn step_by(part: Part, class: Class) -> Next
    ensures { result ≡ step_by part class }
{
    match part {
        Part::Name => step_behind_name(class),
        Part::Open => step_in_length(class),
        Part::Length => step_behind_length(class),
        Part::Bracket => step_behind_bracket(class),
        Part::Equal => step_behind_equal(class),
        Part::Values(depth) => step_in_values(depth, class),
        Part::List => step_behind_list(class),
    }
}

fn step_behind_name(class: Class) -> Next
    ensures { result ≡ step_behind_name class }
{
    match class {
        Class::Sign(Sign::OpenBracket) => Next::Goes(Part::Open),
        _ => Next::Fails,
    }
}

fn step_in_length(class: Class) -> Next
    ensures { result ≡ step_in_length class }
{
    match class {
        Class::Sign(Sign::CloseBracket) => Next::Goes(Part::Bracket),
        Class::Number(_) | Class::Word(Word::Other) => Next::Goes(Part::Length),
        _ => Next::Fails,
    }
}

fn step_behind_length(class: Class) -> Next
    ensures { result ≡ step_behind_length class }
{
    match class {
        Class::Sign(Sign::CloseBracket) => Next::Goes(Part::Bracket),
        _ => Next::Fails,
    }
}

fn step_behind_bracket(class: Class) -> Next
    ensures { result ≡ step_behind_bracket class }
{
    match class {
        Class::Sign(Sign::Changes) => Next::Goes(Part::Equal),
        _ => Next::Fails,
    }
}

fn step_behind_equal(class: Class) -> Next
    ensures { result ≡ step_behind_equal class }
{
    match class {
        Class::Sign(Sign::OpenBrace) => Next::Goes(Part::Values(0)),
        _ => Next::Fails,
    }
}

fn step_behind_list(class: Class) -> Next
    ensures { result ≡ step_behind_list class }
{
    match class {
        Class::Sign(Sign::Semicolon) => Next::Ends,
        _ => Next::Fails,
    }
}

fn step_in_values(depth: usize, class: Class) -> Next
    ensures { result ≡ step_in_values depth class }
{
    match class {
        Class::Sign(sign) => step_at_sign(depth, sign),
        Class::Text(_) => Next::Fails,
        _ => Next::Goes(Part::Values(depth)),
    }
}

fn step_at_sign(depth: usize, sign: Sign) -> Next
    ensures { result ≡ step_at_sign depth sign }
{
    match sign {
        Sign::Open | Sign::OpenBracket => Next::Goes(Part::Values(deeper(depth))),
        Sign::Close | Sign::CloseBracket => step_out(depth),
        Sign::CloseBrace => step_to_end(depth),
        Sign::OpenBrace | Sign::Semicolon | Sign::Changes | Sign::Hash => Next::Fails,
        _ => Next::Goes(Part::Values(depth)),
    }
}

// One bracket fewer is open among the values.
fn step_out(depth: usize) -> Next
    ensures { result ≡ step_out depth }
{
    if depth == 0 {
        Next::Fails
    } else {
        Next::Goes(Part::Values(depth - 1))
    }
}

fn step_to_end(depth: usize) -> Next
    ensures { result ≡ step_to_end depth }
{
    if depth == 0 {
        Next::Goes(Part::List)
    } else {
        Next::Fails
    }
}
