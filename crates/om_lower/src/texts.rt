//! What PRINT writes for the formats of a program.

ghost use Rattle.std.specs.Prelude.{◌≡◌, ◌∷◌, ◌≤◌, [], OnOk, IfOk, IfSome, length};
ghost use Rattle.om_lower.specs.Texts.{CutsFrom, behind_cut, converted_behind, cut_behind, cut_left, cut_pieces};
ghost use Rattle.om_lower.specs.Texts.{text_of};
ghost use Rattle.om_scope_tree.specs.Formats as formats;

use om_code::raw::Piece;
use om_seq::{AllocResult, Seq};
use std::alloc::Global;

// The pieces that were cut, and the bytes behind them that no piece has yet.
#[derive(Drop)]
struct Cut {
    pieces: Vec<Piece>,
    run: Vec<u8>,
}

/// A format of `printf` in its pieces (C17 7.21.6.1); `None` where it is none.
pub fn text_of(alloc: Global, format: &[u8]) -> AllocResult<Option<Seq<Piece>>>
    ensures { IfOk result (λ text. text ≡ text_of format.now) }
{
    let mut cut = Cut {
        pieces: Vec::new(alloc),
        run: Vec::new(alloc),
    };
    if cut_format(alloc, &mut cut, format)? {
        let Cut { pieces, .. } = cut;
        Ok(Some(Seq::of(pieces)))
    } else {
        Ok(None)
    }
}

// Cuts a whole format behind what was cut, if it is one.
fn cut_format(alloc: Global, cut: &mut Cut, format: &[u8]) -> AllocResult<bool>
    ensures { IfOk result (λ whole. cut_behind cut.old format.now ≡ cut_pieces cut.new whole) }
{
    let mut left = format;
    while let Some((byte, rest)) = left.split_first() {
        let Some(next) = cut_next(alloc, cut, *byte, rest)? else {
            return Ok(false);
        };
        left = next;
    }
    flush(alloc, cut)?;
    Ok(true)
}

// Cuts what begins with a byte, and answers what is behind it; `None` where no format goes on so.
fn cut_next<'a>(
    alloc: Global,
    cut: &mut Cut,
    byte: u8,
    rest: &'a [u8],
) -> AllocResult<Option<&'a [u8]>>
    ensures same { IfOk result (λ left.
        cut_behind cut.old (byte ∷ rest.now) ≡ cut_left cut.new left) }
    ensures shorter { IfOk result (λ left. IfSome left (λ one. length one.now ≤ length rest.now)) }
{
    if byte == b'%' {
        return cut_converted(alloc, cut, rest);
    }
    add_byte(cut, byte)?;
    Ok(Some(rest))
}

// Cuts what begins behind a `%`.
fn cut_converted<'a>(alloc: Global, cut: &mut Cut, rest: &'a [u8]) -> AllocResult<Option<&'a [u8]>>
    ensures shorter { IfOk result (λ left. IfSome left (λ one. length one.now ≤ length rest.now)) }
    ensures same { IfOk result (λ left.
        converted_behind cut.old rest.now ≡ cut_left cut.new left) }
{
    let Some((byte, behind)) = rest.split_first() else {
        return Ok(None);
    };
    if *byte == b'd' {
        add_value(alloc, cut)?;
        return Ok(Some(behind));
    }
    if *byte == b'%' {
        add_byte(cut, *byte)?;
        return Ok(Some(behind));
    }
    Ok(None)
}

// Adds a byte that is written.
fn add_byte(cut: &mut Cut, byte: u8) -> AllocResult<()>
    ensures { OnOk result (CutsFrom (formats.with_byte byte) cut.old cut.new) }
{
    cut.run.push(byte)?;
    Ok(())
}

// Adds a value that is written in decimal.
fn add_value(alloc: Global, cut: &mut Cut) -> AllocResult<()>
    ensures { OnOk result (CutsFrom (λ rest. formats.Value ∷ rest) cut.old cut.new) }
{
    flush(alloc, cut)?;
    cut.pieces.push(Piece::Value)?;
    Ok(())
}

// Makes a piece of the bytes that have none yet, if there are any.
fn flush(alloc: Global, cut: &mut Cut) -> AllocResult<()>
    ensures pieces { OnOk result (cut.new.pieces.items ≡ behind_cut cut.old []) }
    ensures run { OnOk result (cut.new.run.items ≡ []) }
{
    if cut.run.is_empty() {
        return Ok(());
    }
    let run = std::mem::replace(&mut cut.run, Vec::new(alloc));
    cut.pieces.push(Piece::Bytes(Seq::of(run)))?;
    Ok(())
}
