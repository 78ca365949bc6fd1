//! Names, constants (C17 6.4.4.1) and keywords.

ghost use Rattle.std.specs.Prelude.{◌≤◌, length, IfOk, IfErr, ◌≡◌, ◌<◌, ◌^◌, SomeIff, IsTrue, ◌↔◌};
ghost use Rattle.om_lexer.specs.Faults.{IsRefusalAt};
ghost use Rattle.om_lexer.specs.Tokens.{IsRun, IsWord, Spells, IsWrongText};
ghost use Rattle.om_lexer.specs.Constants.{base_of, digits_of, AreDigits, value_in, IsConstant, IsWrongConstant};

use crate::character::is_word_byte;
use crate::fault::{FaultCode, SourceFault, SourceResult};
use crate::spelling::keyword_spelled;
use crate::token::TokenKind;
use om_seq::Seq;
use std::alloc::Global;

/// The bytes that a name may have.
pub(crate) const LONGEST_NAME: usize = 63;

/// The end of the run of letters, digits and `_` from there on.
pub(crate) fn word_end(source: &[u8], from: usize) -> usize
    requires { from ≤ length source.now }
    ensures run { IsRun source.now from result }
    ensures behind { from ≤ result }
    ensures inside { result ≤ length source.now }
{
    let mut to = from;
    while to < source.len() && is_word_byte(source[to]) {
        to += 1;
    }
    to
}

/// What a run of letters, digits and `_` is: a keyword, a name or a constant; `at` is its place.
pub(crate) fn word_kind(alloc: Global, text: &[u8], at: u32) -> SourceResult<TokenKind>
    requires { IsWord text.now }
    ensures kind { IfOk result (Spells text.now) }
    ensures fault { IfErr result (IsRefusalAt at (IsWrongText text.now)) }
{
    if text[0].is_ascii_digit() {
        return match constant(text) {
            Ok(value) => Ok(TokenKind::Constant(value)),
            Err(code) => Err(SourceFault { code, at }),
        };
    }
    if let Some(keyword) = keyword_spelled(text) {
        return Ok(TokenKind::Keyword(keyword));
    }
    if text.len() > LONGEST_NAME {
        return Err(SourceFault {
            code: FaultCode::BadToken,
            at,
        });
    }
    Ok(TokenKind::Name(Seq::of(Vec::from_slice(alloc, text)?)))
}

// The largest constant.
const LARGEST: u32 = 2_147_483_647;

/// The base that the first characters of a constant tell, and its digits.
pub(crate) fn base_and_digits(text: &[u8]) -> (u32, &[u8])
    ensures base { result.0 ≡ base_of text.now }
    ensures digits { result.1.now ≡ digits_of text.now }
    ensures least { 2 ≤ result.0 }
    ensures most { result.0 ≤ 36 }
{
    if text.starts_with(b"0x") {
        (16, &text[2..])
    } else if text.starts_with(b"0") {
        (8, text)
    } else {
        (10, text)
    }
}

/// Whether all bytes are digits of a base.
pub(crate) fn are_digits(base: u32, digits: &[u8]) -> bool
    requires least { 2 ≤ base }
    requires most { base ≤ 36 }
    ensures { IsTrue result ↔ AreDigits base digits.now }
{
    for digit in digits {
        if char::from(*digit).to_digit(base).is_none() {
            return false;
        }
    }
    true
}

/// The number that digits stand for, if it fits 32 bits.
pub(crate) fn value_in(base: u32, digits: &[u8]) -> Option<u32>
    requires least { 2 ≤ base }
    requires most { base ≤ 36 }
    requires digits { AreDigits base digits.now }
    ensures { SomeIff result (value_in base digits.now < 2 ^ 32) (value_in base digits.now) }
{
    let mut value: u32 = 0;
    for digit in digits {
        let digit = char::from(*digit).to_digit(base)?;
        value = value.checked_mul(base)?.checked_add(digit)?;
    }
    Some(value)
}

/// The value of a constant: at most 2147483647, else S10; S2 where the text is none.
pub(crate) fn constant(text: &[u8]) -> Result<u32, FaultCode>
    ensures value { IfOk result (λ value. IsConstant text.now value × (value ≤ 2147483647)) }
    ensures wrong { IfErr result (IsWrongConstant text.now) }
{
    let (base, digits) = base_and_digits(text);
    if digits.is_empty() || !are_digits(base, digits) {
        return Err(FaultCode::BadToken);
    }
    match value_in(base, digits) {
        Some(value) if value <= LARGEST => Ok(value),
        _ => Err(FaultCode::ConstantTooLarge),
    }
}
