//! A line with words behind it.

ghost use Rattle.std.specs.Prelude.{◌≡◌, ◌++◌, ◌∷◌, [], IfOk, OnOk};
ghost use Rattle.lab_text.specs.Tails.{fits_behind, tail_of};

use om_seq::AllocResult;
use om_shell::first_line_end;
use std::alloc::Global;

/// A line with the mark and words behind it, and its end; without the mark where there are no words, or where
/// they would end the line. The only error is out of memory.
pub fn noted(alloc: Global, line: &[u8], words: &[u8]) -> AllocResult<Vec<u8>>
    ensures { IfOk result (λ text. text.items ≡ line.now ++ tail_of words.now ++ 10 ∷ []) }
{
    let mut text = Vec::from_slice(alloc, line)?;
    push_tail(&mut text, words)?;
    text.extend_from_slice(b"\n")?;
    Ok(text)
}

// Whether words can stand behind a line: there are some, and none of their bytes would end it.
fn fits_behind(words: &[u8]) -> bool
    ensures { result ≡ fits_behind words.now }
{
    !words.is_empty() && first_line_end(words).is_none()
}

// Appends the mark and words; nothing where there are none, or where they would end the line.
fn push_tail(text: &mut Vec<u8>, words: &[u8]) -> AllocResult<()>
    ensures { OnOk result (text.new.items ≡ text.old.items ++ tail_of words.now) }
{
    if !fits_behind(words) {
        return Ok(());
    }
    text.extend_from_slice(b" | ")?;
    text.extend_from_slice(words)
}
