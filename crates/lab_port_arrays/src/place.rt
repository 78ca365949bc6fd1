//! Where lengths of arrays become numbers, and where two dimensions become one.

ghost use Rattle.std.specs.Prelude.{◌≡◌, IfOk};
ghost use Rattle.lab_port_arrays.specs.Places.{is_length, length_by, flat_by, declarator_mark, use_mark, array_mark, is_array, mark_at, mark_here, spot_behind, first_spot, array_marks};

use crate::bracket::{bracket_size, pair_size};
use crate::constant::{Constant, constant_at, is_nth};
use crate::declared::{Declared, declared_behind, is_declarator, is_name, outside};
use crate::shape::{Shape, has_pair_of, is_flat, lengths_at, shape_of, total_of};
use lab_port_context::{Context, at_first, context_behind, is_code};
use lab_port_names::has_condition;
use lab_port_rules::{Mark, Rule, changed_by, taken_after};
use lab_port_tokens::Piece;
use lab_port_words::{Class, class_of};
use om_seq::AllocResult;
use std::alloc::Global;

/// A place between two pieces.
#[derive(Clone, Copy)]
pub struct Spot {
    /// What stands before it.
    pub context: Context,
    /// The same, as declarations go.
    pub declared: Declared,
    /// How many pieces that follow are taken by the rule of an earlier one.
    pub taken: usize,
    /// Whether no condition of `cpp` may decide what names stand for.
    pub is_sure: bool,
}

/// For each piece of a source whether it is kept, or is the name of an array that gets another length or another index,
/// or belongs to one. The only error is out of memory.
pub fn array_marks(alloc: Global, all: &[Piece]) -> AllocResult<Vec<Mark>>
    ensures { IfOk result (λ marks. marks.items ≡ array_marks all.now) }
{
    let mut spot = first_spot(all);
    let mut marks = Vec::new(alloc);
    for (i, piece) in all.iter().enumerate() {
        let mark = mark_here(spot, piece, &all[i + 1..], all);
        marks.push(mark)?;
        spot = spot_behind(spot, mark, piece);
    }
    Ok(marks)
}

fn first_spot(all: &[Piece]) -> Spot
    ensures { result ≡ first_spot all.now }
{
    Spot {
        context: at_first(),
        declared: outside(),
        taken: 0,
        is_sure: !has_condition(all),
    }
}

// The place after a piece with this mark.
fn spot_behind(spot: Spot, mark: Mark, piece: &Piece) -> Spot
    ensures { result ≡ spot_behind spot mark piece.now }
{
    let class = class_of(piece);
    Spot {
        context: context_behind(spot.context, class),
        declared: declared_behind(spot.declared, spot.context, class),
        taken: taken_after(spot.taken, mark),
        is_sure: spot.is_sure,
    }
}

// A piece, which the rule of an earlier one takes if so many are still taken.
fn mark_here(spot: Spot, piece: &Piece, rest: &[Piece], all: &[Piece]) -> Mark
    ensures { result ≡ mark_here spot piece.now rest.now all.now }
{
    if spot.taken == 0 {
        mark_at(spot, piece, rest, all)
    } else {
        Mark::Taken
    }
}

fn mark_at(spot: Spot, piece: &Piece, rest: &[Piece], all: &[Piece]) -> Mark
    ensures { result ≡ mark_at spot piece.now rest.now all.now }
{
    if is_array(spot, class_of(piece), rest) {
        array_mark(spot, piece, rest, all)
    } else {
        Mark::Kept
    }
}

// Whether a name stands there before brackets.
fn is_array(spot: Spot, class: Class, rest: &[Piece]) -> bool
    ensures { result ≡ is_array spot class rest.now }
{
    (spot.is_sure && is_code(spot.context.line)) && (is_name(class) && is_nth(0, b"[", rest))
}

fn array_mark(spot: Spot, piece: &Piece, rest: &[Piece], all: &[Piece]) -> Mark
    ensures { result ≡ array_mark spot piece.now rest.now all.now }
{
    let shape = shape_of(piece.text.as_slice(), all);
    if is_declarator(spot.declared, spot.context, class_of(piece)) {
        declarator_mark(shape, rest, all)
    } else {
        use_mark(shape, rest)
    }
}

// The name where it is declared.
fn declarator_mark(shape: Shape, rest: &[Piece], all: &[Piece]) -> Mark
    ensures { result ≡ declarator_mark shape rest.now all.now }
{
    if is_flat(shape) {
        flat_by(total_of(lengths_at(rest, all)), rest)
    } else {
        length_by(constant_at(rest, all), rest)
    }
}

// The name where it is used.
fn use_mark(shape: Shape, rest: &[Piece]) -> Mark
    ensures { result ≡ use_mark shape rest.now }
{
    if is_flat(shape) {
        changed_by(pair_size(rest), Rule::FlatIndex(shape.columns))
    } else {
        Mark::Kept
    }
}

fn flat_by(total: Option<usize>, rest: &[Piece]) -> Mark
    ensures { result ≡ flat_by total rest.now }
{
    match total {
        Some(total) => changed_by(pair_size(rest), Rule::FlatArray(total)),
        None => Mark::Kept,
    }
}

fn length_by(constant: Option<Constant>, rest: &[Piece]) -> Mark
    ensures { result ≡ length_by constant rest.now }
{
    let Some(constant) = constant else {
        return Mark::Kept;
    };
    if is_length(constant, rest) {
        changed_by(bracket_size(rest), Rule::Length(constant.number))
    } else {
        Mark::Kept
    }
}

// Whether it is a length of more than one token.
fn is_length(constant: Constant, rest: &[Piece]) -> bool
    ensures { result ≡ is_length constant rest.now }
{
    constant.tokens != 3 && has_pair_of(bracket_size(rest), rest)
}
