//! The formats of `printf`, and how far one is read.

ghost use Rattle.std.specs.Prelude.{◌≡◌, fold};
ghost use Rattle.om_parser_tree.specs.View.{view_expression};
ghost use Rattle.om_scope_rules.specs.Formats.{after_character, is_format, is_whole, takes_values, with_value};

use om_parser_tree::Expression;

/// What of a format is still to be read.
#[derive(Clone, Copy)]
pub enum Reading {
    /// Text or a conversion, with so many values left.
    Text(usize),
    /// What stands behind a `%`, with so many values left.
    Conversion(usize),
    /// A conversion was none, or there was no value for it.
    Wrong,
}

// Behind `%d`, where so many values are left.
fn with_value(left: usize) -> Reading
    ensures { result ≡ with_value left }
{
    if left == 0 {
        Reading::Wrong
    } else {
        Reading::Text(left - 1)
    }
}

// Behind a character of a format.
fn after_character(reading: Reading, character: u8) -> Reading
    ensures { result ≡ after_character reading character }
{
    match reading {
        Reading::Text(left) => {
            if character == b'%' {
                Reading::Conversion(left)
            } else {
                Reading::Text(left)
            }
        }
        Reading::Conversion(left) => {
            if character == b'd' {
                with_value(left)
            } else if character == b'%' {
                Reading::Text(left)
            } else {
                Reading::Wrong
            }
        }
        Reading::Wrong => Reading::Wrong,
    }
}

// Whether a format may end there.
fn is_whole(reading: Reading) -> bool
    ensures { result ≡ is_whole reading }
{
    let Reading::Text(left) = reading else {
        return false;
    };
    left == 0
}

// Whether a format takes so many values.
fn takes_values(format: &[u8], count: usize) -> bool
    ensures { result ≡ takes_values format.now count }
{
    let mut reading = Reading::Text(count);
    for character in format {
        reading = after_character(reading, *character);
    }
    is_whole(reading)
}

/// Whether an expression is a format that takes so many values (C17 7.21.6.1): `%d` takes one, `%%`
/// none, and there is no other conversion.
pub fn is_format(expression: &Expression, count: usize) -> bool
    ensures { result ≡ is_format (view_expression expression.now) count }
{
    let Expression::Text(text) = expression else {
        return false;
    };
    takes_values(text.value.as_slice(), count)
}
