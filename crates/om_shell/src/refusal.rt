//! The line that tells why a source is refused, and where: lines and columns of a place in a source.

ghost use Rattle.std.specs.Prelude.{◌≡◌, ◌++◌, decimal, codes, OnOk, ◌≤◌, take, length};
ghost use Rattle.om_shell.specs.Places.{refusal_text, line_after, column_after};

use om_lexer::SourceFault;
use om_seq::AllocResult;
use om_shell_commands::push_number;

fn push_place(text: &mut Vec<u8>, line: usize, column: usize) -> AllocResult<()>
    ensures { OnOk result
        (text.new.items ≡ text.old.items
        ++ (codes " line " ++ decimal line ++ codes " column " ++ decimal column ++ codes "\n")) }
{
    text.extend_from_slice(b" line ")?;
    push_number(text, line)?;
    text.extend_from_slice(b" column ")?;
    push_number(text, column)?;
    text.extend_from_slice(b"\n")
}

/// Appends the line of a refusal: `refused S2 line 1 column 8`.
pub(crate) fn push_refusal(text: &mut Vec<u8>, source: &[u8], fault: SourceFault) -> AllocResult<()>
    ensures { OnOk result (text.new.items ≡ text.old.items ++ refusal_text source.now fault) }
{
    let front = front_of(source, fault.at);
    text.extend_from_slice(b"refused S")?;
    push_number(text, fault.code.number())?;
    push_place(text, line_behind(front), column_behind(front))
}

/// The part of a source that stands before a byte; all of it where it has no such byte.
pub fn front_of(source: &[u8], at: u32) -> &[u8]
    ensures { result.now ≡ take at source.now }
{
    let at = at as usize;
    if at < source.len() {
        &source[..at]
    } else {
        source
    }
}

/// The line of the byte after these, from 1.
pub fn line_behind(front: &[u8]) -> usize
    ensures { result ≡ line_after front.now }
{
    front.iter().filter(|byte| **byte == b'\n').count() + 1
}

/// Its column in bytes, from 1.
pub fn column_behind(front: &[u8]) -> usize
    ensures { result ≡ column_after front.now }
{
    let mut column = 1;
    for byte in front {
        column = if *byte == b'\n' { 1 } else { column + 1 };
    }
    column
}
