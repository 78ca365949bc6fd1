//! Where the number of elements of an array is asked for.

ghost use Rattle.std.specs.Prelude.{◌≡◌, IfOk, OnOk};
ghost use Rattle.lab_port_sizes.specs.Places.{is_before_operand, begins_quotient, is_question, length_here, mark_by, mark_at, mark_here, found_in, names_with, spot_behind, first_spot, size_marks, sizes_of, length_by, length_text};

use crate::length::length_of;
use crate::shape::{Asked, asked_at, name_by, size_to};
use lab_port_context::{Context, at_first, context_behind, deeper, is_code};
use lab_port_names::has_condition;
use lab_port_rules::{Mark, Meaning, Rule, taken_after};
use lab_port_tokens::Piece;
use lab_port_words::{Class, Sign, Word, class_of};
use om_seq::{AllocResult, Seq};
use std::alloc::Global;

/// The arrays of a source whose elements are counted, and the marks of its pieces.
#[derive(Drop)]
pub struct Counted {
    /// The arrays, each with its length.
    pub names: Seq<Meaning>,
    /// For each piece whether it is kept, or is a `sizeof` by which elements are counted, or belongs to one.
    pub marks: Vec<Mark>,
}

/// A place between two pieces.
#[derive(Clone, Copy)]
pub struct Spot {
    /// What stands before it.
    pub context: Context,
    /// How many pieces that follow are taken by the rule of an earlier one.
    pub taken: usize,
    /// How often `sizeof` stands before it.
    pub asked: usize,
    /// Whether no condition of `cpp` may decide what names stand for.
    pub is_sure: bool,
}

/// The arrays of a source whose elements are counted, and where that is. The only error is out of memory.
pub fn size_marks(alloc: Global, all: &[Piece]) -> AllocResult<Counted>
    ensures names { IfOk result (λ found. found.names ≡ sizes_of all.now) }
    ensures marks { IfOk result (λ found. found.marks.items ≡ size_marks all.now) }
{
    let mut spot = first_spot(all);
    let mut names = Seq::new(alloc);
    let mut marks = Vec::new(alloc);
    for (i, piece) in all.iter().enumerate() {
        let rest = &all[i + 1..];
        let mark = mark_here(spot, piece, rest, all);
        push_name(alloc, &mut names, mark, rest, all)?;
        marks.push(mark)?;
        spot = spot_behind(spot, mark, piece);
    }
    Ok(Counted { names, marks })
}

/// What stands for a question behind whose `sizeof` these pieces stand, where these arrays have these lengths.
pub fn length_text<'a>(names: &'a [Meaning], taken: &[Piece]) -> &'a [u8]
    ensures { result.now ≡ length_text names.now taken.now }
{
    length_by(names, name_by(asked_at(taken), taken))
}

fn length_by<'a>(names: &'a [Meaning], name: &[u8]) -> &'a [u8]
    ensures { result.now ≡ length_by names.now name.now }
{
    for next in names {
        if next.name.as_slice() == name {
            return next.text.as_slice();
        }
    }
    b""
}

fn first_spot(all: &[Piece]) -> Spot
    ensures { result ≡ first_spot all.now }
{
    Spot {
        context: at_first(),
        taken: 0,
        asked: 0,
        is_sure: !has_condition(all),
    }
}

// The place after a piece with this mark.
fn spot_behind(spot: Spot, mark: Mark, piece: &Piece) -> Spot
    ensures { result ≡ spot_behind spot mark piece.now }
{
    let asked = if is_question(spot, piece) {
        deeper(spot.asked)
    } else {
        spot.asked
    };
    Spot {
        context: context_behind(spot.context, class_of(piece)),
        taken: taken_after(spot.taken, mark),
        asked,
        is_sure: spot.is_sure,
    }
}

// A piece, which the rule of an earlier one takes if so many are still taken.
fn mark_here(spot: Spot, piece: &Piece, rest: &[Piece], all: &[Piece]) -> Mark
    ensures { result ≡ mark_here spot piece.now rest.now all.now }
{
    if spot.taken == 0 {
        mark_at(spot, piece, rest, all)
    } else {
        Mark::Taken
    }
}

fn mark_at(spot: Spot, piece: &Piece, rest: &[Piece], all: &[Piece]) -> Mark
    ensures { result ≡ mark_at spot piece.now rest.now all.now }
{
    if is_question(spot, piece) && length_here(rest, all).len() > 0 {
        mark_by(asked_at(rest), rest)
    } else {
        Mark::Kept
    }
}

fn mark_by(asked: Option<Asked>, rest: &[Piece]) -> Mark
    ensures { result ≡ mark_by asked rest.now }
{
    match asked {
        Some(asked) => Mark::Changed(Rule::UnsignedSuffix, size_to(asked.end as usize, rest)),
        None => Mark::Kept,
    }
}

// The length of the array whose elements are counted there; nothing where that is not known.
fn length_here<'a>(rest: &[Piece], all: &'a [Piece]) -> &'a [u8]
    ensures { result.now ≡ length_here rest.now all.now }
{
    length_of(name_by(asked_at(rest), rest), all)
}

// Whether `sizeof` stands there, in code whose macros no condition decides, which is not the first 32 times.
fn is_question(spot: Spot, piece: &Piece) -> bool
    ensures { result ≡ is_question spot piece.now }
{
    ((spot.is_sure && spot.asked < 32) && is_code(spot.context.line))
        && (piece.text.as_slice() == b"sizeof".as_slice() && begins_quotient(spot.context.last))
}

// Whether no operator stands there that binds as a division does.
fn begins_quotient(class: Class) -> bool
    ensures { result ≡ begins_quotient class }
{
    match class {
        Class::Sign(sign) => is_before_operand(sign),
        Class::Word(Word::Return) => true,
        _ => false,
    }
}

fn is_before_operand(sign: Sign) -> bool
    ensures { result ≡ is_before_operand sign }
{
    match sign {
        Sign::Open | Sign::Close | Sign::OpenBracket | Sign::Semicolon | Sign::Comma => true,
        Sign::Colon | Sign::Changes | Sign::Less | Sign::Greater => true,
        _ => false,
    }
}

// Keeps the array whose elements are counted before these pieces, if the piece has such a mark.
fn push_name(
    alloc: Global,
    names: &mut Seq<Meaning>,
    mark: Mark,
    rest: &[Piece],
    all: &[Piece],
) -> AllocResult<()>
    ensures { OnOk result (names.new ≡ names_with names.old mark rest.now all.now) }
{
    match mark {
        Mark::Changed(_, _) => {
            let found = found_in(alloc, rest, all)?;
            names.push(found)
        }
        _ => Ok(()),
    }
}

// The array whose elements are counted there, with its length.
fn found_in(alloc: Global, rest: &[Piece], all: &[Piece]) -> AllocResult<Meaning>
    ensures { IfOk result (λ found. found ≡ found_in rest.now all.now) }
{
    let name = Vec::from_slice(alloc, name_by(asked_at(rest), rest))?;
    let text = Vec::from_slice(alloc, length_here(rest, all))?;
    Ok(Meaning {
        name: Seq::of(name),
        text: Seq::of(text),
    })
}
