//! Where a program looks at what `main` is given.

ghost use Rattle.std.specs.Prelude.{◌≡◌, IfOk};
ghost use Rattle.lab_port_arguments.specs.Places.{main_text, place_mark, mark_here, spot_behind, first_spot, argument_marks};

use crate::tally::{is_count, is_replaced, is_value, size_to};
use lab_port_context::{Context, at_first, context_behind};
use lab_port_rules::{Mark, Rule, taken_after};
use lab_port_tokens::Piece;
use lab_port_words::class_of;
use om_seq::AllocResult;
use std::alloc::Global;

/// A place between two pieces.
#[derive(Clone, Copy)]
pub struct Spot {
    /// What stands before it.
    pub context: Context,
    /// How many pieces that follow are taken by the rule of an earlier one.
    pub taken: usize,
}

/// For each piece of a source whether it is kept, or is the number of arguments, or the number that one stands for, or
/// belongs to that. The only error is out of memory.
pub fn argument_marks(alloc: Global, all: &[Piece]) -> AllocResult<Vec<Mark>>
    ensures { IfOk result (λ marks. marks.items ≡ argument_marks all.now) }
{
    let replaced = is_replaced(alloc, all)?;
    let mut spot = first_spot();
    let mut marks = Vec::new(alloc);
    for (i, piece) in all.iter().enumerate() {
        let mark = mark_here(replaced, spot, piece, &all[i + 1..]);
        marks.push(mark)?;
        spot = spot_behind(spot, mark, piece);
    }
    Ok(marks)
}

/// What stands for `main` and its parameters, for the number of arguments, and for the number that one stands for.
pub fn main_text(text: &[u8]) -> &'static [u8]
    ensures { result.now ≡ main_text text.now }
{
    if text == b"main".as_slice() {
        return b"main(void)";
    }
    if text == b"argc".as_slice() {
        b"1"
    } else {
        b"0"
    }
}

// A piece, which the rule of an earlier one takes if so many are still taken.
fn mark_here(replaced: bool, spot: Spot, piece: &Piece, rest: &[Piece]) -> Mark
    ensures { result ≡ mark_here replaced spot piece.now rest.now }
{
    if spot.taken != 0 {
        return Mark::Taken;
    }
    if replaced {
        place_mark(spot.context, piece, rest)
    } else {
        Mark::Kept
    }
}

fn place_mark(context: Context, piece: &Piece, rest: &[Piece]) -> Mark
    ensures { result ≡ place_mark context piece.now rest.now }
{
    if is_count(context, piece) {
        return Mark::Changed(Rule::Main, 0);
    }
    if is_value(context, piece, rest) {
        Mark::Changed(Rule::Main, size_to(5, rest))
    } else {
        Mark::Kept
    }
}

fn first_spot() -> Spot
    ensures { result ≡ first_spot }
{
    Spot {
        context: at_first(),
        taken: 0,
    }
}

// The place after a piece with this mark.
fn spot_behind(spot: Spot, mark: Mark, piece: &Piece) -> Spot
    ensures { result ≡ spot_behind spot mark piece.now }
{
    Spot {
        context: context_behind(spot.context, class_of(piece)),
        taken: taken_after(spot.taken, mark),
    }
}
