//! What rules write.

ghost use Rattle.std.specs.Prelude.{◌≡◌, ◌++◌, ◌∷◌, [], decimal, map, flat_map, IfOk, OnOk, take};
ghost use Rattle.lab_port.specs.Texts.{is_text, text_among, fixed_text, printed_text, plain_text, filled_text, used_text, unsigned_text, new_text, flat_byte, flat_text};

use lab_port_arguments::main_text;
use lab_port_arrays::{index_text, sized_text};
use lab_port_calls::call_text;
use lab_port_lists::{array_text, declarator};
use lab_port_names::meaning_of;
use lab_port_prints::statement_text;
use lab_port_rules::{Meaning, Rule};
use lab_port_sizes::length_text;
use lab_port_tokens::{Piece, PieceKind};
use lab_port_words::{push_format, push_line_text, push_number, push_without_suffix};
use om_seq::AllocResult;
use std::alloc::Global;

/// What a rule writes for a token with these bytes, and the pieces that it takes, on one line. The only error is
/// out of memory.
pub(crate) fn text_by(
    alloc: Global,
    names: &[Meaning],
    rule: Rule,
    text: &[u8],
    taken: &[Piece],
) -> AllocResult<Vec<u8>>
    ensures { IfOk result (λ out. out.items ≡ flat_text names.now rule text.now taken.now) }
{
    let new = new_text(alloc, names, rule, text, taken)?;
    let flat = new.iter().map(flat_byte).collect(alloc)?;
    Ok(flat)
}

/// A byte, or a space for a line end.
pub(crate) fn flat_byte(byte: &u8) -> u8
    ensures { result ≡ flat_byte byte.now }
{
    if *byte == b'\n' || *byte == b'\r' {
        b' '
    } else {
        *byte
    }
}

/// The first so many pieces, or all where there are fewer.
pub(crate) fn taken_of(rest: &[Piece], taken: usize) -> &[Piece]
    ensures { result.now ≡ take taken rest.now }
{
    if taken < rest.len() {
        &rest[..taken]
    } else {
        rest
    }
}

// What a rule writes for a token with these bytes, and the pieces that it takes.
fn new_text(
    alloc: Global,
    names: &[Meaning],
    rule: Rule,
    text: &[u8],
    taken: &[Piece],
) -> AllocResult<Vec<u8>>
    ensures { IfOk result (λ out. out.items ≡ new_text names.now rule text.now taken.now) }
{
    match rule {
        Rule::Use => used_text(alloc, names, text, taken),
        Rule::List => array_text(alloc, text, taken),
        Rule::FileList => declarator(alloc, text, taken),
        Rule::Fill => filled_text(alloc, names),
        Rule::Text => statement_text(alloc, taken),
        Rule::UnsignedSuffix => unsigned_text(alloc, names, text, taken),
        Rule::Length(number) | Rule::FlatArray(number) => sized_text(alloc, text, number),
        Rule::FlatIndex(columns) => index_text(alloc, text, columns, taken),
        _ => plain_text(alloc, rule, text, taken),
    }
}

// What stands for a name, or for one with a list of arguments.
fn used_text(alloc: Global, names: &[Meaning], text: &[u8], taken: &[Piece]) -> AllocResult<Vec<u8>>
    ensures { IfOk result (λ out. out.items ≡ used_text names.now text.now taken.now) }
{
    if taken.is_empty() {
        Vec::from_slice(alloc, meaning_of(text, names))
    } else {
        call_text(alloc, names, text, taken)
    }
}

// A number without its suffix, or the number of elements that a `sizeof` asks for.
fn unsigned_text(
    alloc: Global,
    names: &[Meaning],
    text: &[u8],
    taken: &[Piece],
) -> AllocResult<Vec<u8>>
    ensures { IfOk result (λ out. out.items ≡ unsigned_text names.now text.now taken.now) }
{
    if taken.is_empty() {
        plain_text(alloc, Rule::UnsignedSuffix, text, taken)
    } else {
        Vec::from_slice(alloc, length_text(names, taken))
    }
}

// The `{` of `main`, and the stores of all arrays that get their values there.
fn filled_text(alloc: Global, names: &[Meaning]) -> AllocResult<Vec<u8>>
    ensures { IfOk result (λ out. out.items ≡ filled_text names.now) }
{
    let mut out = Vec::from_slice(alloc, b"{")?;
    push_texts(&mut out, names)?;
    Ok(out)
}

// Appends the texts of some names.
fn push_texts(out: &mut Vec<u8>, names: &[Meaning]) -> AllocResult<()>
    ensures { OnOk result (out.new.items ≡ out.old.items ++ flat_map (λ next. next.text) names.now) }
{
    for next in names {
        out.extend_from_slice(next.text.as_slice())?;
    }
    Ok(())
}

// The same of a rule that needs no names and writes no stores.
fn plain_text(alloc: Global, rule: Rule, text: &[u8], taken: &[Piece]) -> AllocResult<Vec<u8>>
    ensures { IfOk result (λ out. out.items ≡ plain_text rule text.now taken.now) }
{
    let mut out = Vec::new(alloc);
    push_plain(&mut out, rule, text, taken)?;
    Ok(out)
}

fn push_plain(out: &mut Vec<u8>, rule: Rule, text: &[u8], taken: &[Piece]) -> AllocResult<()>
    ensures { OnOk result (out.new.items ≡ out.old.items ++ plain_text rule text.now taken.now) }
{
    match rule {
        Rule::Suffix | Rule::UnsignedSuffix => push_without_suffix(out, text),
        Rule::Character(number) => push_character(out, number),
        Rule::Format => push_format(out, text),
        Rule::Puts => push_printed(out, text_among(taken)),
        Rule::Main => out.extend_from_slice(main_text(text)),
        _ => out.extend_from_slice(fixed_text(rule)),
    }
}

// Appends the number of a character, which may follow a word.
fn push_character(out: &mut Vec<u8>, number: u8) -> AllocResult<()>
    ensures { OnOk result (out.new.items ≡ out.old.items ++ 32 ∷ decimal number) }
{
    out.extend_from_slice(b" ")?;
    push_number(out, number)
}

// Appends a `printf` of a text that ends its line.
fn push_printed(out: &mut Vec<u8>, text: &[u8]) -> AllocResult<()>
    ensures { OnOk result (out.new.items ≡ out.old.items ++ printed_text text.now) }
{
    out.extend_from_slice(b"printf(")?;
    push_line_text(out, text)?;
    out.extend_from_slice(b")")
}

// The first text among some pieces.
fn text_among(pieces: &[Piece]) -> &[u8]
    ensures { result.now ≡ text_among pieces.now }
{
    for piece in pieces {
        if is_text(piece.kind) {
            return piece.text.as_slice();
        }
    }
    b""
}

fn is_text(kind: PieceKind) -> bool
    ensures { result ≡ is_text kind }
{
    match kind {
        PieceKind::Text => true,
        _ => false,
    }
}

// The words that a rule writes for any token.
fn fixed_text(rule: Rule) -> &'static [u8]
    ensures { result.now ≡ fixed_text rule }
{
    match rule {
        Rule::EnumerationType => b"int",
        Rule::Type(_) => b"int",
        Rule::One => b"1",
        Rule::Nought => b"0",
        Rule::Largest => b"2147483647",
        Rule::Least => b"(-2147483647 - 1)",
        Rule::DefineAbort => b"void abort(void) { while (1/0) ; }",
        Rule::DefineAssert =>
            b"void assert(int assert__ok) { if (assert__ok == 0) assert__ok = 1/0; }",
        Rule::Exit => b"return",
        Rule::Zero => b"0",
        Rule::InParallel => b"(omp_get_num_threads() > 1)",
        Rule::PrintError => b"printf(",
        Rule::PrintOut => b"printf(",
        Rule::Dynamic => b"dynamic",
        Rule::Static => b"static",
        Rule::Plus => b"+",
        _ => b"",
    }
}
