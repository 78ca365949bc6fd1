//! Defines (C17 6.10.3).

ghost use Rattle.std.specs.Prelude.{◌≤◌, ◌<◌, ◌↔◌, ℕ, length, codes, IfSome, IfNone, IfOk, IfErr, IsTrue};
ghost use Rattle.om_lexer.specs.Constants.{AreDigits, value_in};
ghost use Rattle.om_lexer.specs.HashLines.{IsHashWord, IsReadHashLine, IsHashLineRefusal, IsMacroName, IsDecimal, AreNameAndNumber, IsFoundDefinition, IsRange, found_number, HasNoDefinition};
ghost use Rattle.om_lexer.specs.Macros.{IsAnswer};
ghost use Rattle.om_lexer.specs.Sources.{source_limit};

use crate::fault::{FaultCode, SourceFault, SourceResult, bad_hash_line};
use crate::macros::Macros;
use crate::piece::HashLine;
use crate::white_space::{ends_line, gap_end};
use crate::word::{LONGEST_NAME, are_digits, value_in, word_end};
use om_seq::Seq;
use std::alloc::Global;

// Where the name and the number of a define stand.
#[derive(Clone, Copy)]
struct Definition {
    name: usize,
    name_end: usize,
    number: usize,
    number_end: usize,
}

/// What defining a name as a number comes to.
#[derive(Clone, Copy)]
pub enum Answer {
    /// The name is new, or has that number.
    Allowed,
    /// The name has another number.
    Other,
    /// The name is new, and there is no room for it.
    TooMany,
}

/// A define up to its constant, whose word ends at `end`; S4 where it is malformed or the name has another number,
/// S11 where the name would be one too many.
pub(crate) fn define_at(
    alloc: Global,
    source: &[u8],
    at: usize,
    end: usize,
    macros: &Macros,
) -> SourceResult<(HashLine, usize)>
    requires below { at < source_limit }
    requires inside { end ≤ length source.now }
    requires begins { (word : ℕ) × IsHashWord source.now at word end (codes "define") }
    ensures line { IfOk result (IsReadHashLine source.now macros.now at) }
    ensures fault { IfErr result (IsHashLineRefusal source.now macros.now at) }
{
    let Some(found) = definition_at(source, end) else {
        return Err(bad_hash_line(at));
    };
    let name = &source[found.name..found.name_end];
    let digits = &source[found.number..found.number_end];
    match defines(macros, name, digits) {
        Answer::Allowed => {
            let name = Seq::of(Vec::from_slice(alloc, name)?);
            Ok((HashLine::Define(name), found.number))
        }
        Answer::Other => Err(bad_hash_line(at)),
        Answer::TooMany => Err(SourceFault {
            code: FaultCode::TooMany,
            at: at as u32,
        }),
    }
}

// The name and the number behind the word of a define, with nothing but white space behind them on the line.
fn definition_at(source: &[u8], from: usize) -> Option<Definition>
    requires { from ≤ length source.now }
    ensures found { IfSome result (IsFoundDefinition source.now from) }
    ensures name { IfSome result (λ found. IsRange source.now found.name found.name_end) }
    ensures number { IfSome result (λ found. IsRange source.now found.number found.number_end) }
    ensures digits { IfSome result (λ found. AreDigits 10 (found_number source.now found)) }
    ensures none { IfNone result (HasNoDefinition source.now from) }
{
    let name = gap_end(source, from);
    let name_end = word_end(source, name);
    let number = gap_end(source, name_end);
    let number_end = word_end(source, number);
    if is_definition(
        source,
        &source[name..name_end],
        &source[number..number_end],
        number_end,
    ) {
        Some(Definition {
            name,
            name_end,
            number,
            number_end,
        })
    } else {
        None
    }
}

// Whether these words are a name and a number, and nothing but white space follows the number on its line.
fn is_definition(source: &[u8], name: &[u8], number: &[u8], number_end: usize) -> bool
    requires { number_end ≤ length source.now }
    ensures { IsTrue result ↔ AreNameAndNumber source.now name.now number.now number_end }
{
    is_macro_name(name) && is_decimal(number) && ends_line(source, number_end)
}

// Whether a run of letters, digits and `_` is a name or a keyword.
fn is_macro_name(text: &[u8]) -> bool
    ensures { IsTrue result ↔ IsMacroName text.now }
{
    !text.is_empty() && !text[0].is_ascii_digit() && text.len() <= LONGEST_NAME
}

// Whether a text is a decimal constant, or `0`.
fn is_decimal(text: &[u8]) -> bool
    ensures { IsTrue result ↔ IsDecimal text.now }
{
    !text.is_empty() && are_digits(10, text) && (text[0] != b'0' || text.len() == 1)
}

// Whether a name may be defined as the number that decimal digits stand for.
fn defines(macros: &Macros, name: &[u8], digits: &[u8]) -> Answer
    requires { AreDigits 10 digits.now }
    ensures { IsAnswer macros.now name.now (value_in 10 digits.now) result }
{
    match macros.number(name) {
        Some(known) => {
            if value_in(10, digits) == Some(known) {
                Answer::Allowed
            } else {
                Answer::Other
            }
        }
        None => {
            if macros.is_full() {
                Answer::TooMany
            } else {
                Answer::Allowed
            }
        }
    }
}
