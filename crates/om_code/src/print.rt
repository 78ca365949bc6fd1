//! What PRINT writes.

ghost use Rattle.std.specs.Prelude.{◌≡◌, ◌≤◌, IfOk, IsSome, length, is_some, option_map};
ghost use Rattle.om_code.specs.Frames.{print_bytes};
ghost use Rattle.om_code.specs.Validity.{IsKnownText, value_count};
ghost use Rattle.om_code.specs.Printing.{printed, ints, ints_on};

use crate::frame::{Operand, Operands};
use crate::raw::{Piece, Raw};
use itoa::Buffer;
use om_seq::AllocResult;
use std::alloc::Global;

/// The bytes that PRINT appends: the text of this number, with so many values from the top of the stack.
///
/// The text takes so many values, and they are ints. Its only error is out of memory.
pub fn print_bytes(
    alloc: Global,
    raw: &Raw,
    text: u32,
    values: u16,
    operands: &Operands<'_>,
) -> AllocResult<Vec<u8>>
    requires known { IsKnownText raw.now.texts text values }
    requires ints { IsSome (ints_on values operands.now) }
    ensures { IfOk result (λ bytes. bytes.items ≡ print_bytes raw.now text values operands.now) }
{
    let Some(ints) = ints_on(alloc, usize::from(values), operands)? else {
        unreachable!();
    };
    let pieces = raw.texts.as_slice()[text as usize].as_slice();
    print_text(alloc, pieces, ints.as_slice())
}

/// The bytes of a text with these values, in their order (C17 7.21.6.1); its only error is out of memory.
pub fn print_text(alloc: Global, pieces: &[Piece], values: &[i32]) -> AllocResult<Vec<u8>>
    requires { value_count pieces.now ≤ length values.now }
    ensures { IfOk result (λ bytes. bytes.items ≡ printed pieces.now values.now) }
{
    let mut out = Vec::new(alloc);
    let mut left = values;
    for piece in pieces {
        match piece {
            Piece::Bytes(bytes) => out.extend_from_slice(bytes.as_slice())?,
            Piece::Value => {
                let Some((value, rest)) = left.split_first() else {
                    unreachable!();
                };
                out.extend_from_slice(Buffer::new().format(*value).as_bytes())?;
                left = rest;
            }
        }
    }
    Ok(out)
}

/// The ints of so many operands from the top, in the order in which they were pushed.
///
/// `None` exactly where there are fewer, or one is no int. Its only error is out of memory.
pub fn ints_on(
    alloc: Global,
    count: usize,
    operands: &Operands<'_>,
) -> AllocResult<Option<Vec<i32>>>
    ensures { IfOk result
        (λ values. option_map (λ v. v.items) values ≡ ints_on count operands.now) }
{
    let all = operands.as_slice();
    let Some(from) = all.len().checked_sub(count) else {
        return Ok(None);
    };
    ints(alloc, &all[from..])
}

// The ints of operands; `None` where one is none.
fn ints(alloc: Global, operands: &[Operand]) -> AllocResult<Option<Vec<i32>>>
    ensures { IfOk result (λ values. option_map (λ v. v.items) values ≡ ints operands.now) }
{
    let mut values = Vec::new(alloc);
    for operand in operands {
        match operand {
            Operand::Int(value) => values.push(*value)?,
            Operand::NoValue => return Ok(None),
        }
    }
    Ok(Some(values))
}

/// Whether so many operands from the top are ints.
pub(crate) fn has_ints(count: usize, operands: &Operands<'_>) -> bool
    ensures { result ≡ is_some (ints_on count operands.now) }
{
    let all = operands.as_slice();
    let Some(from) = all.len().checked_sub(count) else {
        return false;
    };
    are_ints(&all[from..])
}

// Whether all operands are ints.
fn are_ints(operands: &[Operand]) -> bool
    ensures { result ≡ is_some (ints operands.now) }
{
    for operand in operands {
        match operand {
            Operand::Int(_) => {}
            Operand::NoValue => return false,
        }
    }
    true
}
