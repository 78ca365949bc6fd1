//! The text that a source becomes by some changes.

ghost use Rattle.std.specs.Prelude.{◌≡◌, ◌++◌, ◌≤◌, length, drop, IfOk, OnOk};
ghost use Rattle.lab_port.specs.Written.{is_white, blank, blanks_behind, part, end_of, written_for, with_changes, line_feeds, Stands, Stand};

use crate::ported::Change;
use om_seq::AllocResult;
use std::alloc::Global;

/// A source with these changes. The only error is out of memory.
pub(crate) fn text_of(alloc: Global, source: &[u8], changes: &[Change]) -> AllocResult<Vec<u8>>
    requires { Stand source.now 0 changes.now }
    ensures text { IfOk result (λ text. text.items ≡ with_changes source.now 0 changes.now) }
{
    let mut out = Vec::new(alloc);
    let mut at = 0;
    for change in changes {
        push_kept(&mut out, source, at, change.at)?;
        push_written(&mut out, change)?;
        at = change.at + change.old.len();
    }
    push_kept(&mut out, source, at, source.len())?;
    Ok(out)
}

// Appends the bytes of a source from one place up to another.
fn push_kept(out: &mut Vec<u8>, source: &[u8], from: usize, to: usize) -> AllocResult<()>
    requires order { from ≤ to }
    requires inside { to ≤ length source.now }
    ensures { OnOk result (out.new.items ≡ out.old.items ++ part source.now from to) }
{
    out.extend_from_slice(&source[from..to])
}

// Appends what stands in place of what a change replaces.
fn push_written(out: &mut Vec<u8>, change: &Change) -> AllocResult<()>
    ensures { OnOk result (out.new.items ≡ out.old.items ++ written_for change.now) }
{
    out.extend_from_slice(change.new.as_slice())?;
    push_blanks(out, change.new.len(), change.old.as_slice())
}

/// A byte as white space.
pub(crate) fn blank(byte: u8) -> u8
    ensures { result ≡ blank byte }
{
    if is_white(byte) { byte } else { b' ' }
}

fn is_white(byte: u8) -> bool
    ensures { result ≡ is_white byte }
{
    byte == b'\n' || byte == b' ' || byte == b'\t' || byte == b'\r'
}

// Appends replaced bytes as white space, without the first ones, whose columns the new text takes.
fn push_blanks(out: &mut Vec<u8>, owed: usize, text: &[u8]) -> AllocResult<()>
    ensures { OnOk result (out.new.items ≡ out.old.items ++ blanks_behind owed text.now) }
{
    let mut owed = owed;
    for byte in text {
        if *byte == b'\n' || owed == 0 {
            out.push(blank(*byte))?;
        } else {
            owed -= 1;
        }
    }
    Ok(())
}
