//! Where a statement prints a text that it chooses.

ghost use Rattle.std.specs.Prelude.{◌≡◌, IfOk};
ghost use Rattle.lab_port_prints.specs.Places.{statement_size, begins_print, mark_at, mark_here, spot_behind, first_spot, print_marks};

use crate::format::slot_of;
use crate::statement::statement_end;
use lab_port_context::{Context, at_first, context_behind, is_code, nth_text};
use lab_port_rules::{Mark, Rule, begins_statement, changed_by, taken_after};
use lab_port_tokens::Piece;
use lab_port_words::class_of;
use om_seq::AllocResult;
use std::alloc::Global;

/// A place between two pieces.
#[derive(Clone, Copy)]
pub struct Spot {
    /// What stands before it.
    pub context: Context,
    /// How many pieces that follow are taken by the rule of an earlier one.
    pub taken: usize,
}

/// For each piece of a source whether it is kept, or is a `printf` that prints a text which it chooses, or belongs to
/// one. The only error is out of memory.
pub fn print_marks(alloc: Global, pieces: &[Piece]) -> AllocResult<Vec<Mark>>
    ensures { IfOk result (λ marks. marks.items ≡ print_marks pieces.now) }
{
    let mut spot = first_spot();
    let mut marks = Vec::new(alloc);
    for (i, piece) in pieces.iter().enumerate() {
        let mark = mark_here(spot, piece, &pieces[i + 1..]);
        marks.push(mark)?;
        spot = spot_behind(spot, mark, piece);
    }
    Ok(marks)
}

fn first_spot() -> Spot
    ensures { result ≡ first_spot }
{
    Spot {
        context: at_first(),
        taken: 0,
    }
}

// The place after a piece with this mark.
fn spot_behind(spot: Spot, mark: Mark, piece: &Piece) -> Spot
    ensures { result ≡ spot_behind spot mark piece.now }
{
    Spot {
        context: context_behind(spot.context, class_of(piece)),
        taken: taken_after(spot.taken, mark),
    }
}

// A piece, which the rule of an earlier one takes if so many are still taken.
fn mark_here(spot: Spot, piece: &Piece, rest: &[Piece]) -> Mark
    ensures { result ≡ mark_here spot piece.now rest.now }
{
    if spot.taken == 0 {
        mark_at(spot.context, piece, rest)
    } else {
        Mark::Taken
    }
}

fn mark_at(context: Context, piece: &Piece, rest: &[Piece]) -> Mark
    ensures { result ≡ mark_at context piece.now rest.now }
{
    if begins_print(context, piece) {
        changed_by(statement_size(rest), Rule::Text)
    } else {
        Mark::Kept
    }
}

// Whether a statement begins there with `printf`.
fn begins_print(context: Context, piece: &Piece) -> bool
    ensures { result ≡ begins_print context piece.now }
{
    let begins = is_code(context.line) && begins_statement(context);
    begins && piece.text.as_slice() == b"printf".as_slice()
}

// How many pieces follow a `printf` up to its `;`, and with it, where it prints a text that it chooses.
fn statement_size(rest: &[Piece]) -> Option<usize>
    ensures { result ≡ statement_size rest.now }
{
    match slot_of(nth_text(1, rest)) {
        Some(slot) => statement_end(slot.number, rest),
        None => None,
    }
}
