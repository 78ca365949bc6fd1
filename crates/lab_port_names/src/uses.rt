//! Where the names of a source are defined, and where they stand.

ghost use Rattle.std.specs.Prelude.{◌≡◌, [], IfOk, OnOk};
ghost use Rattle.lab_port_context.specs.Contexts.{at_first};
ghost use Rattle.lab_port_names.specs.Uses.{has_condition, is_expanded, word_mark, mark_here, mark_by, names_by, names_here, found_at, spot_behind, first_spot, marks_from, names_from, is_sure, name_marks, names_of};

use crate::defined::definition_at;
use crate::definition::Definition;
use crate::names::{are_tangled, is_known};
use crate::sights::is_word;
use lab_port_context::{Context, Line, at_first, context_behind, is_condition};
use lab_port_rules::{Mark, Meaning, Rule, taken_after};
use lab_port_tokens::Piece;
use lab_port_words::class_of;
use om_seq::{AllocResult, Seq};
use std::alloc::Global;

/// The names of a source that are written out, and the marks of its first pieces.
#[derive(Drop)]
pub struct Named {
    /// The names, in order.
    pub names: Seq<Meaning>,
    /// For each piece whether it is kept, or belongs to the definition of a name, or is the name of one.
    pub marks: Vec<Mark>,
}

/// A place between two pieces.
#[derive(Clone, Copy)]
pub struct Spot {
    /// What stands before it.
    pub context: Context,
    /// How many pieces that follow are taken by the rule of an earlier one.
    pub taken: usize,
    /// Whether each name stands for one text wherever it is used.
    pub is_sure: bool,
}

/// The names of a source that are written out, and where they stand. The only error is out of memory.
pub fn name_marks(alloc: Global, pieces: &[Piece]) -> AllocResult<Named>
    ensures names { IfOk result (λ found. found.names ≡ names_of pieces.now) }
    ensures marks { IfOk result (λ found. found.marks.items ≡ name_marks pieces.now) }
{
    let sure = is_sure(alloc, pieces)?;
    names_and_marks(alloc, sure, pieces)
}

// Whether no condition of `cpp`, and no name behind a text that has it, may decide what names stand for.
fn is_sure(alloc: Global, pieces: &[Piece]) -> AllocResult<bool>
    ensures { IfOk result (λ sure. sure ≡ is_sure pieces.now) }
{
    if has_condition(pieces) {
        return Ok(false);
    }
    let found = names_and_marks(alloc, true, pieces)?;
    let tangled = are_tangled(alloc, found.names.as_slice())?;
    Ok(!tangled)
}

// The names of a source that are sure or not, and where they stand.
fn names_and_marks(alloc: Global, sure: bool, pieces: &[Piece]) -> AllocResult<Named>
    ensures names { IfOk result
        (λ found. found.names ≡ names_from [] (first_spot sure) pieces.now) }
    ensures marks { IfOk result
        (λ found. found.marks.items ≡ marks_from [] (first_spot sure) pieces.now) }
{
    let mut spot = first_spot(sure);
    let mut names = Seq::new(alloc);
    let mut marks = Vec::new(alloc);
    for (i, piece) in pieces.iter().enumerate() {
        let mark = mark_here(alloc, &mut names, spot, piece, &pieces[i + 1..])?;
        marks.push(mark)?;
        spot = spot_behind(spot, mark, piece);
    }
    Ok(Named { names, marks })
}

/// Whether a `#` line stands there that is no include, define or pragma.
pub fn has_condition(pieces: &[Piece]) -> bool
    ensures { result ≡ has_condition at_first pieces.now }
{
    let mut context = at_first();
    for piece in pieces {
        if is_condition(context.line) {
            return true;
        }
        context = context_behind(context, class_of(piece));
    }
    false
}

fn first_spot(sure: bool) -> Spot
    ensures { result ≡ first_spot sure }
{
    Spot {
        context: at_first(),
        taken: 0,
        is_sure: sure,
    }
}

// The mark of a piece. What it defines is known behind it.
fn mark_here(
    alloc: Global,
    names: &mut Seq<Meaning>,
    spot: Spot,
    piece: &Piece,
    rest: &[Piece],
) -> AllocResult<Mark>
    ensures mark { IfOk result (λ mark. mark ≡ mark_here names.old spot piece.now rest.now) }
    ensures names { OnOk result (names.new ≡ names_here names.old spot piece.now rest.now) }
{
    if spot.taken != 0 {
        return Ok(Mark::Taken);
    }
    let found = found_at(alloc, names.as_slice(), spot, piece, rest)?;
    mark_by(names, found, spot.context, piece)
}

// What is defined there; nothing in a source whose names are not sure.
fn found_at(
    alloc: Global,
    names: &[Meaning],
    spot: Spot,
    piece: &Piece,
    rest: &[Piece],
) -> AllocResult<Option<Definition>>
    ensures { IfOk result (λ found. found ≡ found_at names.now spot piece.now rest.now) }
{
    if spot.is_sure {
        definition_at(alloc, names, spot.context, piece, rest)
    } else {
        Ok(None)
    }
}

// The mark of a piece that has this definition, if it has one.
fn mark_by(
    names: &mut Seq<Meaning>,
    found: Option<Definition>,
    context: Context,
    piece: &Piece,
) -> AllocResult<Mark>
    ensures mark { IfOk result (λ mark. mark ≡ mark_by found names.old context piece.now) }
    ensures names { OnOk result (names.new ≡ names_by found names.old) }
{
    match found {
        Some(found) => {
            let mark = Mark::Changed(found.rule, found.size);
            names.append(found.names)?;
            Ok(mark)
        }
        None => Ok(word_mark(names.as_slice(), context, piece)),
    }
}

// A word that may stand for a text.
fn word_mark(names: &[Meaning], context: Context, piece: &Piece) -> Mark
    ensures { result ≡ word_mark names.now context piece.now }
{
    let stands = is_expanded(context.line)
        && is_word(piece.kind)
        && is_known(piece.text.as_slice(), names);
    if stands {
        Mark::Changed(Rule::Use, 0)
    } else {
        Mark::Kept
    }
}

// Whether names are written out on such a line.
fn is_expanded(line: Line) -> bool
    ensures { result ≡ is_expanded line }
{
    match line {
        Line::Fresh | Line::Code | Line::Omp => true,
        _ => false,
    }
}

// The place after a piece with this mark.
fn spot_behind(spot: Spot, mark: Mark, piece: &Piece) -> Spot
    ensures { result ≡ spot_behind spot mark piece.now }
{
    Spot {
        context: context_behind(spot.context, class_of(piece)),
        taken: taken_after(spot.taken, mark),
        is_sure: spot.is_sure,
    }
}
