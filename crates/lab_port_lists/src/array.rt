//! What is written for an array whose declaration has a list.

ghost use Rattle.std.specs.Prelude.{◌≡◌, ◌++◌, decimal, IfOk, OnOk};
ghost use Rattle.lab_port_lists.specs.Values.{count_of};
ghost use Rattle.lab_port_lists.specs.Arrays.{length_or, length_of, declarator, rest_of, zeros, array_text, stores_text};

use crate::value::{count_of, push_number, push_stores};
use lab_port_context::nth_text;
use lab_port_tokens::Piece;
use om_seq::AllocResult;
use std::alloc::Global;

/// What takes the place of an array with its list in a block: the array, a store for each value, and a loop that stores
/// 0 behind them. The only error is out of memory.
pub fn array_text(alloc: Global, name: &[u8], list: &[Piece]) -> AllocResult<Vec<u8>>
    ensures { IfOk result (λ text. text.items ≡ array_text name.now list.now) }
{
    let mut text = declarator(alloc, name, list)?;
    text.extend_from_slice(b";")?;
    push_stores(&mut text, name, list)?;
    push_zeros(alloc, &mut text, name, list)?;
    Ok(text)
}

/// An array without its list. The only error is out of memory.
pub fn declarator(alloc: Global, name: &[u8], list: &[Piece]) -> AllocResult<Vec<u8>>
    ensures { IfOk result (λ text. text.items ≡ declarator name.now list.now) }
{
    let size = length_of(alloc, list)?;
    let mut text = Vec::from_slice(alloc, name)?;
    text.extend_from_slice(b"[")?;
    text.extend_from_slice(&size)?;
    text.extend_from_slice(b"]")?;
    Ok(text)
}

/// The stores of an array at file scope, whose other elements are 0. The only error is out of memory.
pub(crate) fn stores_text(alloc: Global, name: &[u8], list: &[Piece]) -> AllocResult<Vec<u8>>
    ensures { IfOk result (λ text. text.items ≡ stores_text name.now list.now) }
{
    let mut text = Vec::new(alloc);
    push_stores(&mut text, name, list)?;
    text.extend_from_slice(b";")?;
    Ok(text)
}

// Appends a loop that stores 0 behind the values, if there is room behind them.
fn push_zeros(alloc: Global, out: &mut Vec<u8>, name: &[u8], list: &[Piece]) -> AllocResult<()>
    ensures { OnOk result (out.new.items
        ≡ out.old.items ++ zeros name.now (count_of list.now) (length_of list.now)) }
{
    let size = length_of(alloc, list)?;
    let count = decimal_of(alloc, count_of(list))?;
    if size.as_slice() == count.as_slice() {
        return Ok(());
    }
    push_rest(out, name, &count, &size)
}

// Appends a loop that stores 0 from one place up to another.
fn push_rest(out: &mut Vec<u8>, name: &[u8], from: &[u8], size: &[u8]) -> AllocResult<()>
    ensures { OnOk result (out.new.items ≡ out.old.items ++ rest_of name.now from.now size.now) }
{
    out.extend_from_slice(b"; for (int list__i = ")?;
    out.extend_from_slice(from)?;
    out.extend_from_slice(b"; list__i < ")?;
    out.extend_from_slice(size)?;
    out.extend_from_slice(b"; list__i++) ")?;
    out.extend_from_slice(name)?;
    out.extend_from_slice(b"[list__i] = 0")
}

// The length of the array whose brackets and list these are.
fn length_of(alloc: Global, list: &[Piece]) -> AllocResult<Vec<u8>>
    ensures { IfOk result (λ text. text.items ≡ length_of list.now) }
{
    length_or(alloc, nth_text(1, list), count_of(list))
}

// The length that stands in the brackets, or else so many values.
fn length_or(alloc: Global, given: &[u8], count: usize) -> AllocResult<Vec<u8>>
    ensures { IfOk result (λ text. text.items ≡ length_or given.now count) }
{
    if given == b"]".as_slice() {
        return decimal_of(alloc, count);
    }
    Vec::from_slice(alloc, given)
}

// A number in decimal.
fn decimal_of(alloc: Global, number: usize) -> AllocResult<Vec<u8>>
    ensures { IfOk result (λ text. text.items ≡ decimal number) }
{
    let mut text = Vec::new(alloc);
    push_number(&mut text, number)?;
    Ok(text)
}
