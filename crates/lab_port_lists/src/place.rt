//! Where an array has a list, and where those at file scope get their values.

ghost use Rattle.std.specs.Prelude.{◌≡◌, ◌≤◌, length, take, IfOk, OnOk, IfSome};
ghost use Rattle.std.specs.List.{list_any};
ghost use Rattle.lab_port_lists.specs.Places.{is_name, is_declared, is_lasting, gets_stores, given_size, begins_main, is_empty, fill_mark, list_mark, mark_by, mark_here, stores_here, names_with, is_static, is_end, static_behind, spot_behind, is_counter, mains, first_spot, list_marks, lists_of};

use crate::array::stores_text;
use crate::shape::list_size;
use crate::value::is_open_brace;
use lab_port_context::{Context, at_first, context_behind, is_code, is_main};
use lab_port_rules::{Mark, Meaning, Rule, taken_after};
use lab_port_tokens::Piece;
use lab_port_words::{Class, Sign, Storage, Word, class_of};
use om_seq::{AllocResult, Seq};
use std::alloc::Global;

/// The arrays of a source that get their values in `main`, and the marks of its first pieces.
#[derive(Drop)]
pub struct Listed {
    /// The arrays, each with its stores, in order.
    pub names: Seq<Meaning>,
    /// For each piece whether it is kept, or is an array with a list, or belongs to one, or is the `{` of `main`.
    pub marks: Vec<Mark>,
}

/// A place between two pieces.
#[derive(Clone, Copy)]
pub struct Spot {
    /// What stands before it.
    pub context: Context,
    /// How many pieces that follow are taken by the rule of an earlier one.
    pub taken: usize,
    /// Whether `main` has begun, or begins more than once.
    pub filled: bool,
    /// Whether `static` stands in the declaration before it.
    pub is_static: bool,
    /// Whether the source has no name that the rule brings in.
    pub is_free: bool,
}

/// The lists of a source, and where they stand. The only error is out of memory.
pub fn list_marks(alloc: Global, pieces: &[Piece]) -> AllocResult<Listed>
    ensures names { IfOk result (λ found. found.names ≡ lists_of pieces.now) }
    ensures marks { IfOk result (λ found. found.marks.items ≡ list_marks pieces.now) }
{
    let mut spot = first_spot(pieces);
    let mut names = Seq::new(alloc);
    let mut marks = Vec::new(alloc);
    for (i, piece) in pieces.iter().enumerate() {
        let rest = &pieces[i + 1..];
        let mark = mark_here(names.as_slice(), spot, piece, rest);
        push_name(alloc, &mut names, mark, piece, rest)?;
        marks.push(mark)?;
        spot = spot_behind(spot, mark, piece);
    }
    Ok(Listed { names, marks })
}

// Whether it is the name that the rule brings in.
fn is_counter(piece: &Piece) -> bool
    ensures { result ≡ is_counter piece.now }
{
    piece.text.as_slice() == b"list__i".as_slice()
}

fn first_spot(pieces: &[Piece]) -> Spot
    ensures { result ≡ first_spot pieces.now }
{
    Spot {
        context: at_first(),
        taken: 0,
        filled: mains(pieces) > 1,
        is_static: false,
        is_free: !has_counter(pieces),
    }
}

// Whether the source has the name that the rule brings in.
fn has_counter(pieces: &[Piece]) -> bool
    ensures { result ≡ list_any is_counter pieces.now }
{
    pieces.iter().any(|piece| is_counter(piece))
}

// How often `main` is named.
fn mains(pieces: &[Piece]) -> usize
    ensures { result ≡ mains pieces.now }
{
    pieces
        .iter()
        .filter(|piece| is_main(class_of(piece)))
        .count()
}

// A piece, which the rule of an earlier one takes if so many are still taken.
fn mark_here(names: &[Meaning], spot: Spot, piece: &Piece, rest: &[Piece]) -> Mark
    ensures { result ≡ mark_here names.now spot piece.now rest.now }
{
    if spot.taken != 0 {
        return Mark::Taken;
    }
    mark_by(given_size(spot, piece, rest), names, spot, piece)
}

fn mark_by(size: Option<usize>, names: &[Meaning], spot: Spot, piece: &Piece) -> Mark
    ensures { result ≡ mark_by size names.now spot piece.now }
{
    match size {
        Some(size) => list_mark(spot, size),
        None => fill_mark(names, spot, class_of(piece)),
    }
}

// An array with a list of so many pieces.
fn list_mark(spot: Spot, size: usize) -> Mark
    ensures { result ≡ list_mark spot size }
{
    if spot.context.braces > 0 {
        return Mark::Changed(Rule::List, size);
    }
    if spot.filled {
        Mark::Kept
    } else {
        Mark::Changed(Rule::FileList, size)
    }
}

// The `{` of `main`, where some array at file scope has a list.
fn fill_mark(names: &[Meaning], spot: Spot, class: Class) -> Mark
    ensures { result ≡ fill_mark names.now spot class }
{
    if begins_main(spot.context, class) && !spot.filled && !is_empty(names) {
        Mark::Changed(Rule::Fill, 0)
    } else {
        Mark::Kept
    }
}

fn is_empty(names: &[Meaning]) -> bool
    ensures { result ≡ is_empty names.now }
{
    names.len() == 0
}

// How many pieces the list has that is given to the name there.
fn given_size(spot: Spot, piece: &Piece, rest: &[Piece]) -> Option<usize>
    ensures size { result ≡ given_size spot piece.now rest.now }
    ensures inside { IfSome result (λ size. size ≤ length rest.now) }
{
    if gets_stores(spot) && is_declared(spot.context, class_of(piece)) {
        list_size(rest)
    } else {
        None
    }
}

fn gets_stores(spot: Spot) -> bool
    ensures { result ≡ gets_stores spot }
{
    spot.is_free && !is_lasting(spot)
}

// Whether an array there has its values from the beginning, and not at each time that its declaration is reached.
fn is_lasting(spot: Spot) -> bool
    ensures { result ≡ is_lasting spot }
{
    spot.is_static && spot.context.braces > 0
}

// Whether a name is declared there directly behind its type, in no parameter and no `for`.
fn is_declared(context: Context, class: Class) -> bool
    ensures { result ≡ is_declared context class }
{
    is_code(context.line) && is_name(class) && (context.typed && context.parens == 0)
}

fn is_name(class: Class) -> bool
    ensures { result ≡ is_name class }
{
    match class {
        Class::Word(Word::Other) => true,
        _ => false,
    }
}

// Whether the body of `main` begins there.
fn begins_main(context: Context, class: Class) -> bool
    ensures { result ≡ begins_main context class }
{
    context.in_main && context.braces == 0 && is_open_brace(class)
}

// Appends an array at file scope that gets its values in `main`.
fn push_name(
    alloc: Global,
    names: &mut Seq<Meaning>,
    mark: Mark,
    piece: &Piece,
    rest: &[Piece],
) -> AllocResult<()>
    ensures { OnOk result (names.new ≡ names_with names.old mark piece.now rest.now) }
{
    match mark {
        Mark::Changed(Rule::FileList, size) => {
            let found = stores_here(alloc, piece.text.as_slice(), first_of(size, rest))?;
            names.push(found)
        }
        _ => Ok(()),
    }
}

// An array with its stores.
fn stores_here(alloc: Global, name: &[u8], list: &[Piece]) -> AllocResult<Meaning>
    ensures { IfOk result (λ found. found ≡ stores_here name.now list.now) }
{
    let text = stores_text(alloc, name, list)?;
    let name = Vec::from_slice(alloc, name)?;
    Ok(Meaning {
        name: Seq::of(name),
        text: Seq::of(text),
    })
}

// The first so many pieces, or all where there are fewer.
fn first_of(count: usize, pieces: &[Piece]) -> &[Piece]
    ensures { result.now ≡ take count pieces.now }
{
    if count < pieces.len() {
        &pieces[..count]
    } else {
        pieces
    }
}

// The place after a piece with this mark.
fn spot_behind(spot: Spot, mark: Mark, piece: &Piece) -> Spot
    ensures { result ≡ spot_behind spot mark piece.now }
{
    let class = class_of(piece);
    Spot {
        context: context_behind(spot.context, class),
        taken: taken_after(spot.taken, mark),
        filled: spot.filled || begins_main(spot.context, class),
        is_static: static_behind(spot, class),
        is_free: spot.is_free,
    }
}

// Whether `static` stands in the declaration, behind a piece of this class.
fn static_behind(spot: Spot, class: Class) -> bool
    ensures { result ≡ static_behind spot class }
{
    (is_code(spot.context.line) && is_static(class)) || (spot.is_static && !is_end(class))
}

fn is_static(class: Class) -> bool
    ensures { result ≡ is_static class }
{
    match class {
        Class::Storage(Storage::Static) => true,
        _ => false,
    }
}

// Whether a declaration ends there, or a block begins or ends.
fn is_end(class: Class) -> bool
    ensures { result ≡ is_end class }
{
    match class {
        Class::Sign(Sign::Semicolon | Sign::OpenBrace | Sign::CloseBrace) => true,
        _ => false,
    }
}
