//! Which lines of a source go with its conditions.

ghost use Rattle.std.specs.Prelude.{◌≡◌, ◌≤◌, length, IfOk, OnOk};
ghost use Rattle.lab_port_rules.specs.declared.mark.Mark.TheVariants as marks;
ghost use Rattle.lab_port_conditions.specs.Places.{is_line_end, line_size, line_of, is_hash, is_fresh, begins_line, kind_here, state_behind, macros_behind, spot_behind, first_spot, is_whole, is_decided, is_left_out, line_mark, mark_here, condition_marks};

use crate::kind::{Kind, kind_of};
use crate::state::{State, behind_kind, is_turn, keep_name};
use lab_port_context::{Context, Line, at_first, context_behind};
use lab_port_rules::{Mark, Meaning, Rule, taken_after};
use lab_port_tokens::Piece;
use lab_port_words::{Class, Sign, class_of, is_gap};
use om_seq::{AllocResult, Seq};
use std::alloc::Global;

/// A place between two pieces.
#[derive(Clone, Copy)]
pub struct Spot {
    /// What stands before it.
    pub context: Context,
    /// What the conditions leave there.
    pub state: State,
    /// How many pieces that follow are taken by the rule of an earlier one.
    pub taken: usize,
}

/// For each piece of a source whether it is kept, or begins a line that goes with a condition, or belongs to one. The
/// only error is out of memory.
pub fn condition_marks(alloc: Global, all: &[Piece]) -> AllocResult<Vec<Mark>>
    ensures { IfOk result (λ marks. marks.items ≡ condition_marks all.now) }
{
    let decided = is_decided(alloc, all)?;
    let mut spot = first_spot();
    let mut names = Seq::new(alloc);
    let mut marks = Vec::new(alloc);
    for (i, piece) in all.iter().enumerate() {
        let rest = &all[i + 1..];
        let mark = mark_here(decided, names.as_slice(), spot, piece, rest);
        marks.push(mark)?;
        let next = spot_behind(names.as_slice(), spot, mark, piece, rest);
        keep_macro(alloc, &mut names, spot, piece, rest)?;
        spot = next;
    }
    Ok(marks)
}

// Whether each line is understood, and each condition has its end.
fn is_decided(alloc: Global, all: &[Piece]) -> AllocResult<bool>
    ensures { IfOk result (λ decided. decided ≡ is_decided all.now) }
{
    let mut spot = first_spot();
    let mut names = Seq::new(alloc);
    for (i, piece) in all.iter().enumerate() {
        let rest = &all[i + 1..];
        let next = spot_behind(names.as_slice(), spot, Mark::Kept, piece, rest);
        keep_macro(alloc, &mut names, spot, piece, rest)?;
        spot = next;
    }
    Ok(is_whole(spot.state))
}

fn is_whole(state: State) -> bool
    ensures { result ≡ is_whole state }
{
    state.is_sure && (state.skipped == 0 && state.opened == 0)
}

fn first_spot() -> Spot
    ensures { result ≡ first_spot }
{
    Spot {
        context: at_first(),
        state: State {
            skipped: 0,
            opened: 0,
            is_sure: true,
            has_unknown: false,
        },
        taken: 0,
    }
}

// The place after a piece with this mark, before which these macros are defined.
fn spot_behind(names: &[Meaning], spot: Spot, mark: Mark, piece: &Piece, rest: &[Piece]) -> Spot
    ensures { result ≡ spot_behind names.now spot mark piece.now rest.now }
{
    Spot {
        context: context_behind(spot.context, class_of(piece)),
        state: state_behind(names, spot, piece, rest),
        taken: taken_after(spot.taken, mark),
    }
}

// What the line is whose `#` stands before these pieces.
#[tactic(auto, unfolding(crate::specs::Places::kind_here))]
fn kind_here(names: &[Meaning], spot: Spot, rest: &[Piece]) -> Kind
    ensures { result ≡ kind_here names.now spot rest.now }
{
    kind_of(spot.state.has_unknown, names, line_of(rest))
}

// What the conditions leave behind a piece.
fn state_behind(names: &[Meaning], spot: Spot, piece: &Piece, rest: &[Piece]) -> State
    ensures { result ≡ state_behind names.now spot piece.now rest.now }
{
    if begins_line(spot.context, piece) {
        behind_kind(spot.state, kind_here(names, spot, rest))
    } else {
        spot.state
    }
}

// Keeps the macro that a line defines, if one begins there and does.
fn keep_macro(
    alloc: Global,
    names: &mut Seq<Meaning>,
    spot: Spot,
    piece: &Piece,
    rest: &[Piece],
) -> AllocResult<()>
    ensures { OnOk result (names.new ≡ macros_behind names.old spot piece.now rest.now) }
{
    if !begins_line(spot.context, piece) {
        return Ok(());
    }
    let kind = kind_here(names.as_slice(), spot, rest);
    keep_name(alloc, names, spot.state, kind, line_of(rest))
}

// A piece of a source whose conditions are decided or not, which an earlier one takes if so many are still taken.
fn mark_here(decided: bool, names: &[Meaning], spot: Spot, piece: &Piece, rest: &[Piece]) -> Mark
    ensures { result ≡ mark_here decided names.now spot piece.now rest.now }
{
    if spot.taken != 0 {
        return Mark::Taken;
    }
    if decided {
        line_mark(names, spot, piece, rest)
    } else {
        Mark::Kept
    }
}

fn line_mark(names: &[Meaning], spot: Spot, piece: &Piece, rest: &[Piece]) -> Mark
    ensures { result ≡ line_mark names.now spot piece.now rest.now }
{
    if !is_gap(class_of(piece)) && is_left_out(names, spot, piece, rest) {
        Mark::Changed(Rule::Macro, line_size(rest))
    } else {
        Mark::Kept
    }
}

// Whether the line there has a condition, or a condition leaves it out.
fn is_left_out(names: &[Meaning], spot: Spot, piece: &Piece, rest: &[Piece]) -> bool
    ensures { result ≡ is_left_out names.now spot piece.now rest.now }
{
    spot.state.skipped > 0
        || (begins_line(spot.context, piece) && is_turn(kind_here(names, spot, rest)))
}

// Whether a `#` line begins there.
fn begins_line(context: Context, piece: &Piece) -> bool
    ensures { result ≡ begins_line context piece.now }
{
    is_fresh(context.line) && is_hash(class_of(piece))
}

// The pieces before the end of the line.
fn line_of(rest: &[Piece]) -> &[Piece]
    ensures { result.now ≡ line_of rest.now }
{
    &rest[..line_size(rest)]
}

// How many pieces stand before the end of the line.
fn line_size(rest: &[Piece]) -> usize
    ensures size { result ≡ line_size 0 rest.now }
    ensures inside { result ≤ length rest.now }
{
    for (i, piece) in rest.iter().enumerate() {
        if is_line_end(class_of(piece)) {
            return i;
        }
    }
    rest.len()
}

fn is_line_end(class: Class) -> bool
    ensures { result ≡ is_line_end class }
{
    match class {
        Class::LineEnd => true,
        _ => false,
    }
}

fn is_hash(class: Class) -> bool
    ensures { result ≡ is_hash class }
{
    match class {
        Class::Sign(Sign::Hash) => true,
        _ => false,
    }
}

fn is_fresh(line: Line) -> bool
    ensures { result ≡ is_fresh line }
{
    match line {
        Line::Fresh => true,
        _ => false,
    }
}
