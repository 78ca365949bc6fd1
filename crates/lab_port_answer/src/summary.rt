//! The last line of an answer.

ghost use Rattle.std.specs.Prelude.{◌≡◌, ◌++◌, ◌∷◌, [], ◌==◌, if◌then◌else◌, OnOk};
ghost use Rattle.lab_port_answer.specs.Answers.{counted, changes_words, accepted_words, refused_words};

use itoa::Buffer;
use om_seq::AllocResult;

/// Appends the last line of an answer whose text is accepted. The only error is out of memory.
pub(crate) fn push_accepted(out: &mut Vec<u8>, changes: u128, warnings: u128) -> AllocResult<()>
    ensures { OnOk result (out.new.items ≡ out.old.items ++ accepted_words changes warnings) }
{
    push_changes(out, changes, warnings)?;
    out.extend_from_slice(b"; the text is accepted\n")
}

/// Appends the last line of an answer whose text is refused. The only error is out of memory.
pub(crate) fn push_refused(
    out: &mut Vec<u8>,
    changes: u128,
    warnings: u128,
    refusals: u128,
) -> AllocResult<()>
    ensures { OnOk result
        (out.new.items ≡ out.old.items ++ refused_words changes warnings refusals) }
{
    push_changes(out, changes, warnings)?;
    out.extend_from_slice(b"; ")?;
    push_counted(out, refusals, b"token")?;
    out.extend_from_slice(b" without a form; the text is not accepted\n")
}

// Appends how many changes and warnings there are.
fn push_changes(out: &mut Vec<u8>, changes: u128, warnings: u128) -> AllocResult<()>
    ensures { OnOk result (out.new.items ≡ out.old.items ++ changes_words changes warnings) }
{
    push_counted(out, changes, b"change")?;
    out.extend_from_slice(b", ")?;
    push_counted(out, warnings, b"warning")
}

// Appends a number and a word, with an `s` unless there is one.
fn push_counted(out: &mut Vec<u8>, count: u128, word: &[u8]) -> AllocResult<()>
    ensures { OnOk result (out.new.items ≡ out.old.items ++ counted count word.now) }
{
    let mut buffer = Buffer::new();
    out.extend_from_slice(buffer.format(count).as_bytes())?;
    out.extend_from_slice(b" ")?;
    out.extend_from_slice(word)?;
    out.extend_from_slice(ending(count))
}

fn ending(count: u128) -> &'static [u8]
    ensures { result.now ≡ (if count == 1 then [] else 115 ∷ []) }
{
    if count == 1 { b"" } else { b"s" }
}
