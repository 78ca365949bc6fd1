//! The lengths of arrays in their declarations.

ghost use Rattle.std.specs.Prelude.{◌≡◌, [], if◌then◌else◌};
ghost use Rattle.lab_port_context.specs.Ahead.{nth_text};
ghost use Rattle.lab_port_sizes.specs.Lengths.{is_of_type, is_behind_attribute, may_declare, is_array, is_place, places_in, length_in, length_of};

use crate::shape::is_nth;
use lab_port_context::{
    Context, at_first, context_behind, deeper, is_close, is_code, is_comma, is_star, nth_text,
};
use lab_port_tokens::Piece;
use lab_port_words::{Class, class_of};

/// The length of the array of this name, which is declared once in a source; nothing where that is not known.
pub(crate) fn length_of<'a>(name: &[u8], all: &'a [Piece]) -> &'a [u8]
    ensures { result.now ≡ length_of name.now all.now }
{
    if places_in(name, all) == 1 {
        length_in(name, all)
    } else {
        b""
    }
}

// How many places of a source may declare the name.
fn places_in(name: &[u8], all: &[Piece]) -> usize
    ensures { result ≡ places_in name.now all.now }
{
    let mut count = 0;
    let mut context = at_first();
    for piece in all {
        if is_place(name, context, piece) {
            count = deeper(count);
        }
        context = context_behind(context, class_of(piece));
    }
    count
}

// The length of the array that is declared at the first such place; nothing where it is no array of a length of one
// token.
fn length_in<'a>(name: &[u8], all: &'a [Piece]) -> &'a [u8]
    ensures { result.now ≡ length_in name.now all.now }
{
    let mut context = at_first();
    for (i, piece) in all.iter().enumerate() {
        if is_place(name, context, piece) {
            return declared_length(context, &all[i + 1..]);
        }
        context = context_behind(context, class_of(piece));
    }
    b""
}

// The length of an array before whose brackets this stands.
fn declared_length(context: Context, rest: &[Piece]) -> &[u8]
    ensures { result.now ≡ (if is_array context rest.now then nth_text 1 rest.now else []) }
{
    if is_array(context, rest) {
        nth_text(1, rest)
    } else {
        b""
    }
}

// Whether the name may be declared there.
fn is_place(name: &[u8], context: Context, piece: &Piece) -> bool
    ensures { result ≡ is_place name.now context piece.now }
{
    (is_code(context.line) && piece.text.as_slice() == name) && may_declare(context)
}

// Whether a word of a type, an attribute, a star, or a comma outside of parentheses stands before it.
fn may_declare(context: Context) -> bool
    ensures { result ≡ may_declare context }
{
    (is_of_type(context.last) || is_behind_attribute(context))
        || (is_star(context.last) || (is_comma(context.last) && context.parens == 0))
}

// Whether `))` stands before it, with which an attribute ends.
fn is_behind_attribute(context: Context) -> bool
    ensures { result ≡ is_behind_attribute context }
{
    is_close(context.last) && is_close(context.before)
}

// Whether an array with a length of one token stands there, outside of parentheses.
fn is_array(context: Context, rest: &[Piece]) -> bool
    ensures { result ≡ is_array context rest.now }
{
    (context.parens == 0 && is_nth(0, b"[", rest))
        && (is_nth(2, b"]", rest) && !is_nth(3, b"[", rest))
}

fn is_of_type(class: Class) -> bool
    ensures { result ≡ is_of_type class }
{
    match class {
        Class::Type(_) => true,
        Class::Storage(_) => true,
        _ => false,
    }
}
