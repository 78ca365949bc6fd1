//! Where macros with parameters are defined, and where they are called.

ghost use Rattle.std.specs.Prelude.{◌≡◌, ◌==◌, if◌then◌else◌, take, IfOk, OnOk};
ghost use Rattle.lab_port_rules.specs.declared.mark.Mark.TheVariants as marks;
ghost use Rattle.lab_port_calls.specs.Places.{is_expanded, in_sight, may_define, found_at, call_mark, use_mark, mark_by, names_by, spot_behind, first_spot, call_marks, functions_of};

use crate::function::{defines, function_in, is_called, line_size, short_function};
use crate::list::{Arguments, list_of};
use crate::written::is_known;
use lab_port_context::{Context, Line, at_first, context_behind, deeper, is_code};
use lab_port_names::{definition_in, has_condition};
use lab_port_rules::{Mark, Meaning, Rule, taken_after};
use lab_port_tokens::Piece;
use lab_port_words::class_of;
use om_seq::{AllocResult, Seq};
use std::alloc::Global;

/// The macros with parameters of a source whose calls are written out, and the marks of its pieces.
#[derive(Drop)]
pub struct Called {
    /// The macros, each with its parameters and its body, in order.
    pub names: Seq<Meaning>,
    /// For each piece whether it is kept, or belongs to the definition of such a macro, or to a call of one.
    pub marks: Vec<Mark>,
}

/// A place between two pieces.
#[derive(Clone, Copy)]
pub struct Spot {
    /// What stands before it.
    pub context: Context,
    /// How many pieces that follow are taken by the rule of an earlier one.
    pub taken: usize,
    /// How many macros with parameters were defined before it.
    pub defined: usize,
    /// Whether no condition of `cpp` may decide what names stand for.
    pub is_sure: bool,
}

/// The macros with parameters of a source, and where they are called. The only error is out of memory.
pub fn call_marks(alloc: Global, all: &[Piece]) -> AllocResult<Called>
    ensures names { IfOk result (λ found. found.names ≡ functions_of all.now) }
    ensures marks { IfOk result (λ found. found.marks.items ≡ call_marks all.now) }
{
    let mut spot = first_spot(all);
    let mut names = Seq::new(alloc);
    let mut marks = Vec::new(alloc);
    for (i, piece) in all.iter().enumerate() {
        let rest = &all[i + 1..];
        let found = found_at(alloc, spot, piece, rest, all)?;
        let mark = mark_here(&mut names, found, spot, piece, rest)?;
        marks.push(mark)?;
        spot = spot_behind(spot, mark, piece, rest);
    }
    Ok(Called { names, marks })
}

fn first_spot(all: &[Piece]) -> Spot
    ensures { result ≡ first_spot all.now }
{
    Spot {
        context: at_first(),
        taken: 0,
        defined: 0,
        is_sure: !has_condition(all),
    }
}

// The mark of a piece at which this macro is defined, if one is. It is known behind it.
fn mark_here(
    names: &mut Seq<Meaning>,
    found: Option<Meaning>,
    spot: Spot,
    piece: &Piece,
    rest: &[Piece],
) -> AllocResult<Mark>
    ensures mark { IfOk result (λ mark. mark ≡
        (if spot.taken == 0 then mark_by found names.old spot piece.now rest.now else marks.Taken)) }
    ensures names { OnOk result
        (names.new ≡ (if spot.taken == 0 then names_by found names.old else names.old)) }
{
    if spot.taken != 0 {
        return Ok(Mark::Taken);
    }
    mark_by(names, found, spot, piece, rest)
}

// The same, where no earlier rule takes the piece.
fn mark_by(
    names: &mut Seq<Meaning>,
    found: Option<Meaning>,
    spot: Spot,
    piece: &Piece,
    rest: &[Piece],
) -> AllocResult<Mark>
    ensures mark { IfOk result
        (λ mark. mark ≡ mark_by found names.old spot piece.now rest.now) }
    ensures names { OnOk result (names.new ≡ names_by found names.old) }
{
    match found {
        Some(found) => {
            names.push(found)?;
            Ok(Mark::Changed(Rule::Macro, line_size(rest)))
        }
        None => Ok(use_mark(names.as_slice(), spot, piece, rest)),
    }
}

// The macro that is defined there, if its calls are written out.
fn found_at(
    alloc: Global,
    spot: Spot,
    piece: &Piece,
    rest: &[Piece],
    all: &[Piece],
) -> AllocResult<Option<Meaning>>
    ensures { IfOk result (λ found. found ≡ found_at spot piece.now rest.now all.now) }
{
    if !may_define(spot, piece, rest, all) {
        return Ok(None);
    }
    let found = function_in(alloc, definition_in(rest))?;
    Ok(short_function(found))
}

// Whether one of the first 64 macros with parameters is defined there, which is called wherever its name stands.
fn may_define(spot: Spot, piece: &Piece, rest: &[Piece], all: &[Piece]) -> bool
    ensures { result ≡ may_define spot piece.now rest.now all.now }
{
    ((spot.is_sure && spot.defined < 64) && defines(spot.context, piece, rest))
        && is_called(rest, all)
}

// A call of one of these macros.
fn use_mark(names: &[Meaning], spot: Spot, piece: &Piece, rest: &[Piece]) -> Mark
    ensures { result ≡ use_mark names.now spot piece.now rest.now }
{
    let line = spot.context.line;
    if is_expanded(line) && is_known(piece.text.as_slice(), names) {
        call_mark(list_of(in_sight(line, rest)))
    } else {
        Mark::Kept
    }
}

fn call_mark(list: Option<Arguments>) -> Mark
    ensures { result ≡ call_mark list }
{
    match list {
        Some(list) => Mark::Changed(Rule::Use, list.size),
        None => Mark::Kept,
    }
}

// The pieces that a list may have.
fn in_sight(line: Line, rest: &[Piece]) -> &[Piece]
    ensures { result.now ≡ in_sight line rest.now }
{
    if is_code(line) {
        first_of(1024, rest)
    } else {
        first_of(1024, &rest[..line_size(rest)])
    }
}

// The first so many pieces, or all where there are fewer.
fn first_of(count: usize, pieces: &[Piece]) -> &[Piece]
    ensures { result.now ≡ take count pieces.now }
{
    if count < pieces.len() {
        &pieces[..count]
    } else {
        pieces
    }
}

// Whether calls are written out on such a line.
fn is_expanded(line: Line) -> bool
    ensures { result ≡ is_expanded line }
{
    match line {
        Line::Fresh | Line::Code | Line::Define | Line::Omp => true,
        _ => false,
    }
}

// The place after a piece with this mark.
fn spot_behind(spot: Spot, mark: Mark, piece: &Piece, rest: &[Piece]) -> Spot
    ensures { result ≡ spot_behind spot mark piece.now rest.now }
{
    let defined = if defines(spot.context, piece, rest) {
        deeper(spot.defined)
    } else {
        spot.defined
    };
    Spot {
        context: context_behind(spot.context, class_of(piece)),
        taken: taken_after(spot.taken, mark),
        defined,
        is_sure: spot.is_sure,
    }
}
