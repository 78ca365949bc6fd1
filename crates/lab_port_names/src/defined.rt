//! What a source defines in one place: the constants of an enumeration, the name of a type, a macro.

ghost use Rattle.std.specs.Prelude.{◌≡◌, take, IfOk};
ghost use Rattle.lab_port_names.specs.Definitions.{token_size, is_nth, is_type_use, type_use, enumeration_by, enumeration_at, type_name, named_by, type_by, taken_by, plain_type, typedef_at, begins_typedef, definition_at};

use crate::constant::constants_of;
use crate::definition::Definition;
use crate::enumeration::{Part, enumeration_end};
use crate::macros::macro_at;
use crate::names::{is_known, meaning_of};
use crate::sights::is_named;
use crate::type_name::{TypePart, last_name, type_end, type_text};
use lab_port_context::{Context, is_code, nth_text};
use lab_port_rules::{Meaning, Rule, begins_statement};
use lab_port_tokens::Piece;
use lab_port_words::{class_of, is_gap};
use om_seq::{AllocResult, Seq};
use std::alloc::Global;

/// What is defined there. The only error is out of memory.
pub(crate) fn definition_at(
    alloc: Global,
    names: &[Meaning],
    context: Context,
    piece: &Piece,
    rest: &[Piece],
) -> AllocResult<Option<Definition>>
    ensures { IfOk result (λ found. found ≡ definition_at names.now context piece.now rest.now) }
{
    if is_named(b"enum", piece) && is_code(context.line) {
        return enumeration_at(alloc, names, context, rest);
    }
    if begins_typedef(context, piece) && is_code(context.line) {
        return typedef_at(alloc, names, rest);
    }
    macro_at(alloc, names, context, piece, rest)
}

// Behind the word `enum`.
fn enumeration_at(
    alloc: Global,
    names: &[Meaning],
    context: Context,
    rest: &[Piece],
) -> AllocResult<Option<Definition>>
    ensures { IfOk result (λ found. found ≡ enumeration_at names.now context rest.now) }
{
    if is_type_use(rest) {
        return Ok(Some(type_use(alloc, rest)));
    }
    if !(context.braces == 0 && begins_statement(context)) {
        return Ok(None);
    }
    enumeration_by(alloc, enumeration_end(false, Part::Enum, rest), names, rest)
}

// Whether an enumeration is named there, and has no list.
fn is_type_use(rest: &[Piece]) -> bool
    ensures { result ≡ is_type_use rest.now }
{
    !(is_nth(0, b"{", rest) || is_nth(1, b"{", rest))
}

fn type_use(alloc: Global, rest: &[Piece]) -> Definition
    ensures { result ≡ type_use rest.now }
{
    Definition {
        rule: Rule::EnumerationType,
        size: token_size(rest),
        names: Seq::new(alloc),
    }
}

// An enumeration of this size, if it is one.
fn enumeration_by(
    alloc: Global,
    size: Option<usize>,
    names: &[Meaning],
    rest: &[Piece],
) -> AllocResult<Option<Definition>>
    ensures { IfOk result (λ found. found ≡ enumeration_by size names.now rest.now) }
{
    let Some(size) = size else {
        return Ok(None);
    };
    Ok(Some(Definition {
        rule: Rule::Enumeration,
        size,
        names: constants_of(alloc, names, first_of(size, rest))?,
    }))
}

// Behind the word `typedef`.
fn typedef_at(alloc: Global, names: &[Meaning], rest: &[Piece]) -> AllocResult<Option<Definition>>
    ensures { IfOk result (λ found. found ≡ typedef_at names.now rest.now) }
{
    if is_nth(0, b"enum", rest) {
        return named_by(
            alloc,
            enumeration_end(true, Part::Typedef, rest),
            names,
            rest,
        );
    }
    let first = nth_text(0, rest);
    if is_known(first, names) {
        let text = meaning_of(first, names);
        return type_by(alloc, type_end(TypePart::Alias, rest), text, rest);
    }
    plain_type(alloc, type_end(TypePart::Typedef, rest), rest)
}

// A type of this size that its words name, if it is one.
fn plain_type(alloc: Global, size: Option<usize>, rest: &[Piece]) -> AllocResult<Option<Definition>>
    ensures { IfOk result (λ found. found ≡ plain_type size rest.now) }
{
    let text = type_text(alloc, taken_by(size, rest))?;
    type_by(alloc, size, &text, rest)
}

// The pieces of a definition of this size; none where it is none.
fn taken_by(size: Option<usize>, rest: &[Piece]) -> &[Piece]
    ensures { result.now ≡ taken_by size rest.now }
{
    match size {
        Some(size) => first_of(size, rest),
        None => &[],
    }
}

// A named enumeration of this size, if it is one.
fn named_by(
    alloc: Global,
    size: Option<usize>,
    names: &[Meaning],
    rest: &[Piece],
) -> AllocResult<Option<Definition>>
    ensures { IfOk result (λ found. found ≡ named_by size names.now rest.now) }
{
    let Some(size) = size else {
        return Ok(None);
    };
    let taken = first_of(size, rest);
    let mut found = constants_of(alloc, names, taken)?;
    found.push(type_name(alloc, b" int", taken)?)?;
    Ok(Some(Definition {
        rule: Rule::EnumerationTypedef,
        size,
        names: found,
    }))
}

// A named type of this size that is written so, if it is one.
fn type_by(
    alloc: Global,
    size: Option<usize>,
    text: &[u8],
    rest: &[Piece],
) -> AllocResult<Option<Definition>>
    ensures { IfOk result (λ found. found ≡ type_by size text.now rest.now) }
{
    let Some(size) = size else {
        return Ok(None);
    };
    let found = type_name(alloc, text, first_of(size, rest))?;
    Ok(Some(Definition {
        rule: Rule::Typedef,
        size,
        names: Seq::one(alloc, found)?,
    }))
}

// The name that is given to a type which is written so.
fn type_name(alloc: Global, text: &[u8], taken: &[Piece]) -> AllocResult<Meaning>
    ensures { IfOk result (λ found. found ≡ type_name text.now taken.now) }
{
    let name = Vec::from_slice(alloc, last_name(taken))?;
    let text = Vec::from_slice(alloc, text)?;
    Ok(Meaning {
        name: Seq::of(name),
        text: Seq::of(text),
    })
}

// Whether a `typedef` begins there at file scope.
fn begins_typedef(context: Context, piece: &Piece) -> bool
    ensures { result ≡ begins_typedef context piece.now }
{
    is_named(b"typedef", piece) && (context.braces == 0 && begins_statement(context))
}

// Whether a token with these bytes is the n-th that follows.
fn is_nth(n: usize, text: &[u8], rest: &[Piece]) -> bool
    ensures { result ≡ is_nth n text.now rest.now }
{
    nth_text(n, rest) == text
}

// How many pieces there are up to the first token and with it.
fn token_size(rest: &[Piece]) -> usize
    ensures { result ≡ token_size 0 rest.now }
{
    for (i, piece) in rest.iter().enumerate() {
        if !is_gap(class_of(piece)) {
            return i + 1;
        }
    }
    rest.len()
}

// The first so many pieces, or all where there are fewer.
fn first_of(count: usize, pieces: &[Piece]) -> &[Piece]
    ensures { result.now ≡ take count pieces.now }
{
    if count < pieces.len() {
        &pieces[..count]
    } else {
        pieces
    }
}
