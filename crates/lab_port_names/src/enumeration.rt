//! How far an enumeration goes (C17 6.7.2.2).

ghost use Rattle.std.specs.Prelude.{◌≡◌, ◌≤◌, length, IfSome};
ghost use Rattle.lab_port_names.specs.Enumerations.{word_or, next_at_brace, next_in_list, next_behind_value, next_behind_name, next_at_number, next_at_value, next_at_end, next_behind_list, next_by, next_at, enumeration_end};

use lab_port_tokens::Piece;
use lab_port_words::{Class, Sign, class_of, is_gap, is_word};

/// What stands before a token of such a definition.
#[derive(Clone, Copy)]
pub enum Part {
    /// The word `typedef`.
    Typedef,
    /// The word `enum`.
    Enum,
    /// The tag.
    Tag,
    /// The `{`, or a comma.
    Brace,
    /// The name of a constant.
    Name,
    /// The `=`.
    Equal,
    /// A minus.
    Minus,
    /// The value of a constant.
    Value,
    /// The `}`.
    Closed,
    /// The name that a `typedef` gives.
    Named,
}

/// What a piece is to such a definition.
#[derive(Clone, Copy)]
pub enum Next {
    /// No part of it.
    Fails,
    /// Its `;`.
    Ends,
    /// A part of it, behind which this stands before the next one.
    Goes(Part),
}

/// How many pieces there are up to the `;` of a definition and with it, behind this; whether it gives a name to the
/// type is said.
pub(crate) fn enumeration_end(named: bool, first: Part, rest: &[Piece]) -> Option<usize>
    ensures size { result ≡ enumeration_end named 0 first rest.now }
    ensures inside { IfSome result (λ size. size ≤ length rest.now) }
{
    let mut part = first;
    for (i, piece) in rest.iter().enumerate() {
        match next_at(named, part, class_of(piece)) {
            Next::Fails => return None,
            Next::Ends => return Some(i + 1),
            Next::Goes(next) => part = next,
        }
    }
    None
}

// What a piece is behind this.
fn next_at(named: bool, part: Part, class: Class) -> Next
    ensures { result ≡ next_at named part class }
{
    if is_gap(class) {
        Next::Goes(part)
    } else {
        next_by(named, part, class)
    }
}

// What a token is behind this.
fn next_by(named: bool, part: Part, class: Class) -> Next
    ensures { result ≡ next_by named part class }
{
    match part {
        Part::Typedef => word_or(class, Part::Enum, Next::Fails),
        Part::Enum => word_or(class, Part::Tag, next_at_brace(class)),
        Part::Tag => next_at_brace(class),
        Part::Brace => word_or(class, Part::Name, next_in_list(class)),
        Part::Name => next_behind_name(class),
        Part::Equal => next_at_value(class),
        Part::Minus => next_at_number(class),
        Part::Value => next_behind_value(class),
        Part::Closed => next_behind_list(named, class),
        Part::Named => next_at_end(class),
    }
}

// A word goes on so, and anything else is this.
fn word_or(class: Class, part: Part, other: Next) -> Next
    ensures { result ≡ word_or class part other }
{
    if is_word(class) {
        Next::Goes(part)
    } else {
        other
    }
}

fn next_at_brace(class: Class) -> Next
    ensures { result ≡ next_at_brace class }
{
    match class {
        Class::Sign(Sign::OpenBrace) => Next::Goes(Part::Brace),
        _ => Next::Fails,
    }
}

fn next_in_list(class: Class) -> Next
    ensures { result ≡ next_in_list class }
{
    match class {
        Class::Sign(Sign::CloseBrace) => Next::Goes(Part::Closed),
        _ => Next::Fails,
    }
}

fn next_behind_value(class: Class) -> Next
    ensures { result ≡ next_behind_value class }
{
    match class {
        Class::Sign(Sign::Comma) => Next::Goes(Part::Brace),
        _ => next_in_list(class),
    }
}

fn next_behind_name(class: Class) -> Next
    ensures { result ≡ next_behind_name class }
{
    match class {
        Class::Sign(Sign::Changes) => Next::Goes(Part::Equal),
        _ => next_behind_value(class),
    }
}

fn next_at_value(class: Class) -> Next
    ensures { result ≡ next_at_value class }
{
    match class {
        Class::Sign(Sign::Minus) => Next::Goes(Part::Minus),
        _ => word_or(class, Part::Value, next_at_number(class)),
    }
}

fn next_at_number(class: Class) -> Next
    ensures { result ≡ next_at_number class }
{
    match class {
        Class::Number(_) => Next::Goes(Part::Value),
        _ => Next::Fails,
    }
}

fn next_behind_list(named: bool, class: Class) -> Next
    ensures { result ≡ next_behind_list named class }
{
    if named {
        word_or(class, Part::Named, Next::Fails)
    } else {
        next_at_end(class)
    }
}

fn next_at_end(class: Class) -> Next
    ensures { result ≡ next_at_end class }
{
    match class {
        Class::Sign(Sign::Semicolon) => Next::Ends,
        _ => Next::Fails,
    }
}
