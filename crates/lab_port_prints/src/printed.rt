//! What is written for a statement that prints a text which it chooses: a `printf` for each text.

ghost use Rattle.std.specs.Prelude.{◌≡◌, ◌++◌, ◌≤◌, ◌∷◌, length, IfOk, OnOk};
ghost use Rattle.lab_port_context.specs.Ahead.{nth_text};
ghost use Rattle.lab_port_prints.specs.Printed.{is_arguments, is_behind_format, is_plain, is_choosing, is_of_condition, is_choice, ends_argument, is_of_others, is_wanted, inside, wanted_text, part_text, parts_of, format_with, printed, branch, branch_of, statement_text};

use crate::format::{Slot, slot_of};
use crate::statement::{
    Item, Part, Statement, choices_of, first_statement, is_text, item_of, statement_behind,
};
use lab_port_context::{deeper, is_close, is_comma, nth_text};
use lab_port_tokens::Piece;
use lab_port_words::{Class, class_of, is_gap};
use om_seq::AllocResult;
use std::alloc::Global;

/// What is wanted of the pieces of a statement.
#[derive(Clone, Copy)]
pub enum Want {
    /// The condition on which the text with this number is chosen.
    Condition(usize),
    /// The text with this number, from 0.
    Choice(usize),
    /// The other arguments, each behind its comma.
    Others,
}

/// What takes the place of a statement with these pieces behind `printf`. The only error is out of memory.
pub fn statement_text(alloc: Global, pieces: &[Piece]) -> AllocResult<Vec<u8>>
    ensures { IfOk result (λ text. text.items ≡ statement_text pieces.now) }
{
    let mut text = Vec::new(alloc);
    let Some(slot) = slot_of(nth_text(1, pieces)) else {
        return Ok(text);
    };
    text.extend_from_slice(b"{")?;
    push_branch_of(&mut text, 0, slot, pieces)?;
    push_branch_of(&mut text, 1, slot, pieces)?;
    push_branch_of(&mut text, 2, slot, pieces)?;
    let last = choices_of(slot.number, pieces).saturating_sub(1);
    push_printed(&mut text, last, slot, pieces)?;
    text.extend_from_slice(b" }")?;
    Ok(text)
}

// Appends a `printf` of the text with this number where its condition holds, if there are more texts.
fn push_branch_of(out: &mut Vec<u8>, number: u8, slot: Slot, pieces: &[Piece]) -> AllocResult<()>
    requires { slot.end ≤ length (nth_text 1 pieces.now) }
    ensures { OnOk result (out.new.items ≡ out.old.items ++ branch_of number slot pieces.now) }
{
    let number = number as usize;
    if number + 1 < choices_of(slot.number, pieces) {
        return push_branch(out, number, slot, pieces);
    }
    Ok(())
}

// Appends a `printf` of the text with this number where its condition holds.
fn push_branch(out: &mut Vec<u8>, number: usize, slot: Slot, pieces: &[Piece]) -> AllocResult<()>
    requires { slot.end ≤ length (nth_text 1 pieces.now) }
    ensures { OnOk result (out.new.items ≡ out.old.items ++ branch number slot pieces.now) }
{
    out.extend_from_slice(b" if (")?;
    push_parts(out, Want::Condition(number), slot.number, pieces)?;
    out.extend_from_slice(b")")?;
    push_printed(out, number, slot, pieces)?;
    out.extend_from_slice(b" else")
}

// Appends a `printf` of the text with this number.
fn push_printed(out: &mut Vec<u8>, number: usize, slot: Slot, pieces: &[Piece]) -> AllocResult<()>
    requires { slot.end ≤ length (nth_text 1 pieces.now) }
    ensures { OnOk result (out.new.items ≡ out.old.items ++ printed number slot pieces.now) }
{
    out.extend_from_slice(b" printf(")?;
    push_format(out, number, slot, pieces)?;
    push_parts(out, Want::Others, slot.number, pieces)?;
    out.extend_from_slice(b");")
}

// Appends the format with the text with this number.
fn push_format(out: &mut Vec<u8>, number: usize, slot: Slot, pieces: &[Piece]) -> AllocResult<()>
    requires { slot.end ≤ length (nth_text 1 pieces.now) }
    ensures { OnOk result (out.new.items ≡ out.old.items ++ format_with number slot pieces.now) }
{
    let format = nth_text(1, pieces);
    out.extend_from_slice(&format[..slot.end.saturating_sub(2)])?;
    push_parts(out, Want::Choice(number), slot.number, pieces)?;
    out.extend_from_slice(&format[slot.end..])
}

// Appends what is wanted of the pieces of a statement.
fn push_parts(out: &mut Vec<u8>, want: Want, wanted: usize, pieces: &[Piece]) -> AllocResult<()>
    ensures { OnOk result (out.new.items ≡ out.old.items ++ parts_of want wanted pieces.now) }
{
    let mut statement = first_statement();
    for piece in pieces {
        push_part(out, want, wanted, statement, piece)?;
        statement = statement_behind(wanted, statement, piece);
    }
    Ok(())
}

// Appends a piece, if it is wanted.
fn push_part(
    out: &mut Vec<u8>,
    want: Want,
    wanted: usize,
    statement: Statement,
    piece: &Piece,
) -> AllocResult<()>
    ensures { OnOk result
        (out.new.items ≡ out.old.items ++ part_text want wanted statement piece.now) }
{
    if !is_gap(class_of(piece)) && is_wanted(want, wanted, statement, piece) {
        return push_wanted(out, want, piece.text.as_slice());
    }
    Ok(())
}

// Appends a token that is wanted.
fn push_wanted(out: &mut Vec<u8>, want: Want, text: &[u8]) -> AllocResult<()>
    ensures { OnOk result (out.new.items ≡ out.old.items ++ wanted_text want text.now) }
{
    match want {
        Want::Choice(_) => out.extend_from_slice(inside(text)),
        _ => push_spaced(out, text),
    }
}

// Appends a token behind a space.
fn push_spaced(out: &mut Vec<u8>, text: &[u8]) -> AllocResult<()>
    ensures { OnOk result (out.new.items ≡ out.old.items ++ 32 ∷ text.now) }
{
    out.push(b' ')?;
    out.extend_from_slice(text)
}

// What stands between the quotes of a text.
fn inside(text: &[u8]) -> &[u8]
    ensures { result.now ≡ inside text.now }
{
    let end = text.len().saturating_sub(1);
    if end == 0 {
        return &[];
    }
    &text[1..end]
}

// Whether a token is wanted.
fn is_wanted(want: Want, wanted: usize, statement: Statement, piece: &Piece) -> bool
    ensures { result ≡ is_wanted want wanted statement piece.now }
{
    match want {
        Want::Condition(number) => is_of_condition(number, wanted, statement, piece),
        Want::Choice(number) => is_choice(number, wanted, statement, piece),
        Want::Others => is_of_others(wanted, statement, class_of(piece)),
    }
}

// Whether a token belongs to an argument other than the text, or is the comma before one.
fn is_of_others(wanted: usize, statement: Statement, class: Class) -> bool
    ensures { result ≡ is_of_others wanted statement class }
{
    if is_behind_format(statement.part) {
        return wanted != 0;
    }
    if !is_arguments(statement.part) {
        return false;
    }
    if ends_argument(statement, class) {
        return is_comma(class) && deeper(statement.number) != wanted;
    }
    statement.number != wanted
}

// A comma between arguments, or the `)` behind them.
fn ends_argument(statement: Statement, class: Class) -> bool
    ensures { result ≡ ends_argument statement class }
{
    statement.depth == 0 && (is_comma(class) || is_close(class))
}

// Whether it is the text with this number.
fn is_choice(number: usize, wanted: usize, statement: Statement, piece: &Piece) -> bool
    ensures { result ≡ is_choice number wanted statement piece.now }
{
    is_choosing(number, wanted, statement) && is_text(class_of(piece))
}

// Whether a token belongs to the condition on which the text with this number is chosen.
fn is_of_condition(number: usize, wanted: usize, statement: Statement, piece: &Piece) -> bool
    ensures { result ≡ is_of_condition number wanted statement piece.now }
{
    is_choosing(number, wanted, statement) && is_plain(item_of(statement.depth, piece))
}

fn is_choosing(number: usize, wanted: usize, statement: Statement) -> bool
    ensures { result ≡ is_choosing number wanted statement }
{
    (is_arguments(statement.part) && statement.number == wanted) && statement.choices == number
}

fn is_plain(item: Item) -> bool
    ensures { result ≡ is_plain item }
{
    match item {
        Item::Other => true,
        _ => false,
    }
}

fn is_behind_format(part: Part) -> bool
    ensures { result ≡ is_behind_format part }
{
    match part {
        Part::Format => true,
        _ => false,
    }
}

fn is_arguments(part: Part) -> bool
    ensures { result ≡ is_arguments part }
{
    match part {
        Part::Arguments => true,
        _ => false,
    }
}
