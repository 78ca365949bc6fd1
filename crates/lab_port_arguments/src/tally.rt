//! What a source does with what `main` is given (C17 5.1.2.2.1).

ghost use Rattle.std.specs.Prelude.{◌≡◌, ◌≤◌, length, IfOk};
ghost use Rattle.lab_port_arguments.specs.Tallies.{is_nth, size_to, in_body, is_count, is_argument, is_value, is_given, is_use, is_head, more_if, tally_with, nothing, tally_of, has_form, is_replaced};

use lab_port_context::{
    Context, at_first, context_behind, deeper, facts_of, is_code, is_main, nth_text,
};
use lab_port_tokens::Piece;
use lab_port_words::{Class, Word, class_of, classes_of, is_gap};
use om_seq::AllocResult;
use std::alloc::Global;

/// What stands in a source, counted.
#[derive(Clone, Copy)]
pub struct Tally {
    /// How often `main` is named.
    pub mains: usize,
    /// How often it has the parameters of its second form.
    pub heads: usize,
    /// How often the program uses them.
    pub uses: usize,
    /// How many of these uses have a form.
    pub places: usize,
}

/// Whether what `main` is given has a form, and the names of the library are those of the library. The only error is out
/// of memory.
pub(crate) fn is_replaced(alloc: Global, all: &[Piece]) -> AllocResult<bool>
    ensures { IfOk result (λ replaced. replaced ≡ is_replaced all.now) }
{
    let classes = classes_of(alloc, all)?;
    Ok(has_form(tally_of(all)) && !facts_of(classes.as_slice()).has_own)
}

// Whether `main` is named once, has the parameters of its second form, and each use of them has a form.
fn has_form(tally: Tally) -> bool
    ensures { result ≡ has_form tally }
{
    (tally.mains == 1 && tally.heads == 1) && tally.uses == tally.places
}

// What stands in a source.
fn tally_of(all: &[Piece]) -> Tally
    ensures { result ≡ tally_of all.now }
{
    let mut tally = nothing();
    let mut context = at_first();
    for (i, piece) in all.iter().enumerate() {
        tally = tally_with(tally, context, piece, &all[i + 1..]);
        context = context_behind(context, class_of(piece));
    }
    tally
}

fn nothing() -> Tally
    ensures { result ≡ nothing }
{
    Tally {
        mains: 0,
        heads: 0,
        uses: 0,
        places: 0,
    }
}

// With a further piece, before these.
fn tally_with(tally: Tally, context: Context, piece: &Piece, rest: &[Piece]) -> Tally
    ensures { result ≡ tally_with tally context piece.now rest.now }
{
    let class = class_of(piece);
    let is_place = is_count(context, piece) || is_value(context, piece, rest);
    Tally {
        mains: more_if(is_main(class), tally.mains),
        heads: more_if(is_head(context, piece, rest), tally.heads),
        uses: more_if(is_use(context, class), tally.uses),
        places: more_if(is_place, tally.places),
    }
}

// One more, where this holds.
fn more_if(holds: bool, count: usize) -> usize
    ensures { result ≡ more_if holds count }
{
    if holds { deeper(count) } else { count }
}

// Whether `main` stands there at file scope, before the parameters of its second form.
fn is_head(context: Context, piece: &Piece, rest: &[Piece]) -> bool
    ensures { result ≡ is_head context piece.now rest.now }
{
    (context.braces == 0 && is_main(class_of(piece)))
        && (is_nth(0, b"(", rest) && (is_nth(1, b"int", rest) && is_nth(2, b"argc", rest)))
}

// Whether the program uses there what `main` is given.
fn is_use(context: Context, class: Class) -> bool
    ensures { result ≡ is_use context class }
{
    is_given(class) && (context.braces > 0 || !is_code(context.line))
}

fn is_given(class: Class) -> bool
    ensures { result ≡ is_given class }
{
    match class {
        Class::Word(Word::Argument) => true,
        _ => false,
    }
}

/// Whether it is the number of arguments, in the body of `main`.
pub(crate) fn is_count(context: Context, piece: &Piece) -> bool
    ensures { result ≡ is_count context piece.now }
{
    in_body(context) && piece.text.as_slice() == b"argc".as_slice()
}

/// Whether the number that an argument stands for is there, in the body of `main`.
pub(crate) fn is_value(context: Context, piece: &Piece, rest: &[Piece]) -> bool
    ensures { result ≡ is_value context piece.now rest.now }
{
    in_body(context) && (piece.text.as_slice() == b"atoi".as_slice() && is_argument(rest))
}

// Whether an argument stands there in parentheses.
fn is_argument(rest: &[Piece]) -> bool
    ensures { result ≡ is_argument rest.now }
{
    (is_nth(0, b"(", rest) && is_nth(1, b"argv", rest))
        && (is_nth(2, b"[", rest) && (is_nth(4, b"]", rest) && is_nth(5, b")", rest)))
}

// Whether it is in the body of `main`.
fn in_body(context: Context) -> bool
    ensures { result ≡ in_body context }
{
    (context.in_main && context.braces > 0) && is_code(context.line)
}

// Whether the n-th token that follows has these bytes.
fn is_nth(n: usize, text: &[u8], rest: &[Piece]) -> bool
    ensures { result ≡ is_nth n text.now rest.now }
{
    nth_text(n, rest) == text
}

/// How many pieces there are up to the n-th token that follows, and with it.
pub(crate) fn size_to(n: usize, rest: &[Piece]) -> usize
    ensures { result ≡ size_to n 0 rest.now }
{
    let mut left = n;
    for (i, piece) in rest.iter().enumerate() {
        if is_gap(class_of(piece)) {
            continue;
        }
        if left == 0 {
            return i + 1;
        }
        left -= 1;
    }
    rest.len()
}
