//! The macro that a `#define` names (C17 6.10.3), where its body is written out.

ghost use Rattle.std.specs.Prelude.{◌≡◌, IfOk};
ghost use Rattle.std.specs.List.{list_any};
ghost use Rattle.lab_port_names.specs.Macros.{begins_list, behind_define, definition_in, is_operator, is_other, is_written_out, is_macro, body_part, body_text, spaced_text, macro_in, is_fresh, defines, macro_again, macro_by, macro_at};

use crate::definition::Definition;
use crate::names::{is_known, meaning_of};
use crate::sights::{behind_spaces, is_named, is_number, is_sign, is_space, is_word, line_pieces};
use lab_port_context::{Context, Line};
use lab_port_rules::{Meaning, Rule};
use lab_port_tokens::Piece;
use om_seq::{AllocResult, Seq};
use std::alloc::Global;

/// The macro that is defined there, if its body is written out and its name is new. The only error is out of memory.
pub(crate) fn macro_at(
    alloc: Global,
    names: &[Meaning],
    context: Context,
    piece: &Piece,
    rest: &[Piece],
) -> AllocResult<Option<Definition>>
    ensures { IfOk result (λ found. found ≡ macro_at names.now context piece.now rest.now) }
{
    if !defines(context, piece, rest) {
        return Ok(None);
    }
    let found = macro_in(alloc, names, definition_in(rest))?;
    macro_by(alloc, names, line_pieces(rest), found)
}

// Whether a line begins there that defines a macro which is written out.
fn defines(context: Context, piece: &Piece, rest: &[Piece]) -> bool
    ensures { result ≡ defines context piece.now rest.now }
{
    is_fresh(context.line) && is_sign(b"#", piece) && is_macro(definition_in(rest))
}

// The line of a macro that has so many pieces behind its `#`, if the macro is new or the same again.
fn macro_by(
    alloc: Global,
    names: &[Meaning],
    size: usize,
    found: Meaning,
) -> AllocResult<Option<Definition>>
    ensures { IfOk result (λ line. line ≡ macro_by names.now size found) }
{
    if is_known(found.name.as_slice(), names) {
        return Ok(macro_again(alloc, names, size, &found));
    }
    if found.text.len() > 256 {
        return Ok(None);
    }
    Ok(Some(Definition {
        rule: Rule::Macro,
        size,
        names: Seq::one(alloc, found)?,
    }))
}

// The line of a macro that is defined again as the same.
fn macro_again(alloc: Global, names: &[Meaning], size: usize, found: &Meaning) -> Option<Definition>
    ensures { result ≡ macro_again names.now size found.now }
{
    if meaning_of(found.name.as_slice(), names) != found.text.as_slice() {
        return None;
    }
    Some(Definition {
        rule: Rule::Macro,
        size,
        names: Seq::new(alloc),
    })
}

/// The name and the body of the macro that the line defines whose `#` stands before these pieces.
pub fn definition_in(rest: &[Piece]) -> &[Piece]
    ensures { result.now ≡ definition_in rest.now }
{
    behind_define(behind_spaces(&rest[..line_pieces(rest)]))
}

// Behind the word `define`: the name of the macro, and its body.
fn behind_define(line: &[Piece]) -> &[Piece]
    ensures { result.now ≡ behind_define line.now }
{
    if line.is_empty() || !is_named(b"define", &line[0]) {
        return &[];
    }
    behind_spaces(&line[1..])
}

// Whether it is a macro without parameters whose body is written out.
fn is_macro(definition: &[Piece]) -> bool
    ensures { result ≡ is_macro definition.now }
{
    if definition.is_empty() {
        return false;
    }
    let body = &definition[1..];
    is_word(definition[0].kind) && !begins_list(body) && is_written_out(body)
}

// The macro of a name and a body.
fn macro_in(alloc: Global, names: &[Meaning], definition: &[Piece]) -> AllocResult<Meaning>
    ensures { IfOk result (λ found. found ≡ macro_in names.now definition.now) }
{
    if definition.is_empty() {
        return Ok(Meaning {
            name: Seq::new(alloc),
            text: Seq::new(alloc),
        });
    }
    let name = Vec::from_slice(alloc, definition[0].text.as_slice())?;
    let text = spaced_text(alloc, names, &definition[1..])?;
    Ok(Meaning {
        name: Seq::of(name),
        text: Seq::of(text),
    })
}

// Whether such a body is written out.
fn is_written_out(body: &[Piece]) -> bool
    ensures { result ≡ is_written_out body.now }
{
    has_other(body) && !has_operator(body)
}

// Whether a body is more than numbers.
fn has_other(body: &[Piece]) -> bool
    ensures { result ≡ list_any is_other body.now }
{
    body.iter().any(|piece| is_other(piece))
}

// Whether an operator of macros stands in a body.
fn has_operator(body: &[Piece]) -> bool
    ensures { result ≡ list_any is_operator body.now }
{
    body.iter().any(|piece| is_operator(piece))
}

// What stands for a macro with this body.
fn spaced_text(alloc: Global, names: &[Meaning], body: &[Piece]) -> AllocResult<Vec<u8>>
    ensures { IfOk result (λ text. text.items ≡ spaced_text names.now body.now) }
{
    let body = body_text(alloc, names, behind_spaces(body))?;
    let mut text = Vec::from_slice(alloc, b" ")?;
    text.extend_from_slice(&body)?;
    text.extend_from_slice(b" ")?;
    Ok(text)
}

fn body_text(alloc: Global, names: &[Meaning], body: &[Piece]) -> AllocResult<Vec<u8>>
    ensures { IfOk result (λ text. text.items ≡ body_text names.now body.now) }
{
    let mut text = Vec::new(alloc);
    for piece in body {
        text.extend_from_slice(body_part(names, piece))?;
    }
    Ok(text)
}

fn body_part<'a>(names: &'a [Meaning], piece: &'a Piece) -> &'a [u8]
    ensures { result.now ≡ body_part names.now piece.now }
{
    if is_space(piece.kind) {
        return b" ";
    }
    let text = piece.text.as_slice();
    if is_word(piece.kind) {
        meaning_of(text, names)
    } else {
        text
    }
}

// Whether a `(` stands directly there.
fn begins_list(rest: &[Piece]) -> bool
    ensures { result ≡ begins_list rest.now }
{
    !rest.is_empty() && is_sign(b"(", &rest[0])
}

// Whether it is an operator of macros.
fn is_operator(piece: &Piece) -> bool
    ensures { result ≡ is_operator piece.now }
{
    is_sign(b"#", piece) || is_sign(b"##", piece)
}

// Whether it is neither white space nor a number.
fn is_other(piece: &Piece) -> bool
    ensures { result ≡ is_other piece.now }
{
    !(is_space(piece.kind) || is_number(piece.kind))
}

fn is_fresh(line: Line) -> bool
    ensures { result ≡ is_fresh line }
{
    match line {
        Line::Fresh => true,
        _ => false,
    }
}
