//! The stages of the port, and what each finds in a text.

ghost use Rattle.std.specs.Prelude.{◌≡◌, [], IfOk, length};
ghost use Rattle.lab_port_words.specs.Tables.{classes_of};
ghost use Rattle.lab_port_rules.specs.Marks.{marks_of};
ghost use Rattle.lab_port.specs.Portings.{stage_marks, stage_names};

use lab_port_arguments::argument_marks;
use lab_port_arrays::array_marks;
use lab_port_calls::{Called, call_marks};
use lab_port_conditions::condition_marks;
use lab_port_lists::{Listed, list_marks};
use lab_port_names::{Named, name_marks};
use lab_port_prints::print_marks;
use lab_port_rules::{Mark, Meaning, marks_of};
use lab_port_sizes::{Counted, size_marks};
use lab_port_tokens::Piece;
use lab_port_words::classes_of;
use om_seq::{AllocResult, Seq};
use std::alloc::Global;

/// A stage of the port. Each works on the text that the one before it made.
#[derive(Clone, Copy)]
pub enum Stage {
    /// Conditions of `cpp` go, with the lines that they leave out.
    Conditions,
    /// Calls of macros with parameters are written out.
    Calls,
    /// Other macros, constants of enumerations and names of types are written out.
    Names,
    /// What `main` is given becomes that of a program without arguments.
    Arguments,
    /// Lengths of arrays become numbers, and two dimensions one.
    Arrays,
    /// Lists of values become stores.
    Lists,
    /// Questions for the number of elements of an array become numbers.
    Sizes,
    /// Statements that print a text which they choose become one for each text.
    Texts,
    /// All other rules apply.
    Rules,
}

/// What a stage finds in a text.
#[derive(Drop)]
pub(crate) struct Marked {
    /// The names that stand for texts.
    pub(crate) names: Seq<Meaning>,
    /// For each piece what it becomes.
    pub(crate) marks: Vec<Mark>,
}

/// What a stage finds in some pieces. The only error is out of memory.
pub(crate) fn marks_in(alloc: Global, stage: Stage, pieces: &[Piece]) -> AllocResult<Marked>
    ensures names { IfOk result (λ found. found.names ≡ stage_names stage pieces.now) }
    ensures marks { IfOk result (λ found. found.marks.items ≡ stage_marks stage pieces.now) }
    ensures fit { IfOk result (λ found. length found.marks.items ≡ length pieces.now) }
{
    let found = found_in(alloc, stage, pieces)?;
    Ok(found)
}

fn found_in(alloc: Global, stage: Stage, pieces: &[Piece]) -> AllocResult<Marked>
    ensures names { IfOk result (λ found. found.names ≡ stage_names stage pieces.now) }
    ensures marks { IfOk result (λ found. found.marks.items ≡ stage_marks stage pieces.now) }
{
    match stage {
        Stage::Conditions => unnamed(alloc, condition_marks(alloc, pieces)?),
        Stage::Calls => {
            let Called { names, marks } = call_marks(alloc, pieces)?;
            Ok(Marked { names, marks })
        }
        Stage::Names => {
            let Named { names, marks } = name_marks(alloc, pieces)?;
            Ok(Marked { names, marks })
        }
        Stage::Arguments => unnamed(alloc, argument_marks(alloc, pieces)?),
        Stage::Arrays => unnamed(alloc, array_marks(alloc, pieces)?),
        Stage::Lists => {
            let Listed { names, marks } = list_marks(alloc, pieces)?;
            Ok(Marked { names, marks })
        }
        Stage::Sizes => {
            let Counted { names, marks } = size_marks(alloc, pieces)?;
            Ok(Marked { names, marks })
        }
        Stage::Texts => unnamed(alloc, print_marks(alloc, pieces)?),
        Stage::Rules => ruled(alloc, pieces),
    }
}

// What a stage finds that has no names.
fn unnamed(alloc: Global, marks: Vec<Mark>) -> AllocResult<Marked>
    ensures names { IfOk result (λ found. found.names ≡ []) }
    ensures marks { IfOk result (λ found. found.marks.items ≡ marks.items) }
{
    Ok(Marked {
        names: Seq::new(alloc),
        marks,
    })
}

// What the last stage finds in some pieces.
fn ruled(alloc: Global, pieces: &[Piece]) -> AllocResult<Marked>
    ensures names { IfOk result (λ found. found.names ≡ []) }
    ensures marks { IfOk result (λ found. found.marks.items ≡ marks_of (classes_of pieces.now)) }
{
    let classes = classes_of(alloc, pieces)?;
    let marks = marks_of(alloc, classes.as_slice())?;
    Ok(Marked {
        names: Seq::new(alloc),
        marks,
    })
}
