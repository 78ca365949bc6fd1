//! What all of a source says of the name of an array.

ghost use Rattle.std.specs.Prelude.{◌≡◌, ◌≤◌, Some, IfSome, length};
ghost use Rattle.lab_port_arrays.specs.Brackets.{bracket_size};
ghost use Rattle.lab_port_arrays.specs.Shapes.{opens_behind, has_pair_of, has_pair, lengths_by, lengths_of, columns_at, lengths_at, mixed, shape_by, shape_with, is_named_here, shape_at, no_shape, shape_of, is_flat, total_of};

use crate::bracket::{bracket_size, pair_size};
use crate::constant::{Constant, constant_at, is_nth};
use crate::declared::{Declared, declared_behind, is_declarator, outside};
use crate::number::combined;
use lab_port_context::{Context, at_first, context_behind, is_code};
use lab_port_tokens::Piece;
use lab_port_words::class_of;

/// What is known of a name.
#[derive(Clone, Copy)]
pub struct Shape {
    /// Whether it is declared with two lengths.
    pub is_known: bool,
    /// Whether it is named otherwise too, or declared with another length of its rows.
    pub is_mixed: bool,
    /// The length of its rows.
    pub columns: usize,
}

/// The lengths of an array of two dimensions.
#[derive(Clone, Copy)]
pub struct Lengths {
    /// How many elements it has.
    pub total: usize,
    /// How many elements a row has.
    pub columns: usize,
}

/// What a source says of a name.
pub(crate) fn shape_of(name: &[u8], all: &[Piece]) -> Shape
    ensures { result ≡ shape_of name.now all.now }
{
    let mut shape = no_shape();
    let mut declared = outside();
    let mut context = at_first();
    for (i, piece) in all.iter().enumerate() {
        if is_named_here(name, context, piece) {
            let declares = is_declarator(declared, context, class_of(piece));
            shape = shape_with(declares, shape, &all[i + 1..], all);
        }
        declared = declared_behind(declared, context, class_of(piece));
        context = context_behind(context, class_of(piece));
    }
    shape
}

fn no_shape() -> Shape
    ensures { result ≡ no_shape }
{
    Shape {
        is_known: false,
        is_mixed: false,
        columns: 0,
    }
}

fn mixed() -> Shape
    ensures { result ≡ mixed }
{
    Shape {
        is_known: true,
        is_mixed: true,
        columns: 0,
    }
}

// Whether the name stands there in code.
fn is_named_here(name: &[u8], context: Context, piece: &Piece) -> bool
    ensures { result ≡ is_named_here name.now context piece.now }
{
    is_code(context.line) && piece.text.as_slice() == name
}

// With a place more at which the name stands.
fn shape_with(declares: bool, shape: Shape, rest: &[Piece], all: &[Piece]) -> Shape
    ensures { result ≡ shape_with declares shape rest.now all.now }
{
    if declares {
        return shape_by(lengths_at(rest, all), shape);
    }
    if has_pair(rest) { shape } else { mixed() }
}

fn shape_by(lengths: Option<Lengths>, shape: Shape) -> Shape
    ensures { result ≡ shape_by lengths shape }
{
    let Some(lengths) = lengths else {
        return mixed();
    };
    if shape.is_mixed || (shape.is_known && shape.columns != lengths.columns) {
        return mixed();
    }
    Shape {
        is_known: true,
        is_mixed: false,
        columns: lengths.columns,
    }
}

/// Whether the arrays of a name become ones of one dimension.
pub(crate) fn is_flat(shape: Shape) -> bool
    ensures { result ≡ is_flat shape }
{
    shape.is_known && !shape.is_mixed
}

/// How many elements an array with these lengths has.
pub(crate) fn total_of(lengths: Option<Lengths>) -> Option<usize>
    ensures { result ≡ total_of lengths }
{
    match lengths {
        Some(lengths) => Some(lengths.total),
        None => None,
    }
}

/// The lengths in the two brackets that begin directly there, in a source.
pub(crate) fn lengths_at(rest: &[Piece], all: &[Piece]) -> Option<Lengths>
    ensures { result ≡ lengths_at rest.now all.now }
{
    if has_pair(rest) {
        lengths_of(constant_at(rest, all), columns_at(rest, all))
    } else {
        None
    }
}

// The length in the second brackets.
fn columns_at(rest: &[Piece], all: &[Piece]) -> Option<Constant>
    ensures { result ≡ columns_at (bracket_size rest.now) rest.now all.now }
{
    match bracket_size(rest) {
        Some(size) => constant_at(&rest[size..], all),
        None => None,
    }
}

fn lengths_of(rows: Option<Constant>, columns: Option<Constant>) -> Option<Lengths>
    ensures { result ≡ lengths_of rows columns }
{
    match rows {
        Some(rows) => lengths_with(rows, columns),
        None => None,
    }
}

fn lengths_with(rows: Constant, columns: Option<Constant>) -> Option<Lengths>
    ensures { result ≡ lengths_of (Some rows) columns }
{
    match columns {
        Some(columns) => lengths_by(combined(b"*", rows.number, columns.number), columns.number),
        None => None,
    }
}

fn lengths_by(total: Option<usize>, columns: usize) -> Option<Lengths>
    ensures { result ≡ lengths_by total columns }
{
    match total {
        Some(total) => Some(Lengths { total, columns }),
        None => None,
    }
}

// Whether two indices stand directly there, and no third one.
fn has_pair(rest: &[Piece]) -> bool
    ensures { result ≡ has_pair rest.now }
{
    has_pair_of(pair_size(rest), rest)
}

/// Whether so many pieces of brackets stand directly there, and no bracket more.
pub(crate) fn has_pair_of(size: Option<usize>, rest: &[Piece]) -> bool
    requires { IfSome size (λ size. size ≤ length rest.now) }
    ensures { result ≡ has_pair_of size rest.now }
{
    match size {
        Some(size) => !opens_behind(size, rest),
        None => false,
    }
}

// Whether brackets begin directly behind so many pieces.
fn opens_behind(size: usize, rest: &[Piece]) -> bool
    requires { size ≤ length rest.now }
    ensures { result ≡ opens_behind size rest.now }
{
    is_nth(0, b"[", &rest[size..])
}
