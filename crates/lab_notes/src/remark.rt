//! What stands after the mark of an answer, as the object on which an undo is refused, in words.

use crate::cell::push_cell;
use crate::names::Names;
use crate::words::{is_word, number};
use lab_help::{answer_words, code_words, command_words, object_words, stop_words};
use om_seq::AllocResult;
use om_shell_commands::CommandFault;

// Appends words, behind a dash where others stand already.
fn push_words(text: &mut Vec<u8>, words: &[u8]) -> AllocResult<()> {
    if words.is_empty() {
        return Ok(());
    }
    if !text.is_empty() {
        text.extend_from_slice(b" -- ")?;
    }
    text.extend_from_slice(words)
}

// The word behind the first that is this one, as the 10 of `line 10`.
fn word_behind<'a>(words: &[&'a [u8]], wanted: &[u8]) -> Option<&'a [u8]> {
    let mut is_next = false;
    for word in words {
        if is_next {
            return Some(*word);
        }
        is_next = is_word(word, wanted);
    }
    None
}

// The number behind a word.
fn number_behind(words: &[&[u8]], wanted: &[u8]) -> Option<u64> {
    number(word_behind(words, wanted)?)
}

// What the code behind a word means.
fn code_behind(words: &[&[u8]], wanted: &[u8]) -> Option<&'static str> {
    code_words(word_behind(words, wanted)?)
}

// The line that an answer means: where a step was made or taken out, where a worker or a task is, where a break
// is set, or where one stopped a run. `no break 3` means no line: nothing is set there.
fn line_in(words: &[&[u8]]) -> Option<u64> {
    match words {
        [set, line] if is_word(set, b"break") => number(line),
        [ran, _, stop, line, ..] if is_word(ran, b"ran") && is_word(stop, b"break") => number(line),
        _ => number_behind(words, b"line"),
    }
}

// The source line that an answer means.
fn source_line<'a>(names: &'a Names<'_>, words: &[&[u8]]) -> &'a [u8] {
    match line_in(words) {
        Some(line) => names.source_line(line),
        None => &[],
    }
}

// What the code of an answer means.
fn code_of(words: &[&[u8]]) -> Option<&'static str> {
    code_behind(words, b"blocked")
        .or(code_behind(words, b"fault"))
        .or(code_behind(words, b"refused"))
}

// What an answer to a line that is no command means.
fn command_fault_of(line: &[u8]) -> Option<&'static str> {
    if is_word(line, b"H1 unknown command") {
        Some(command_words(CommandFault::UnknownCommand))
    } else if is_word(line, b"H2 bad argument") {
        Some(command_words(CommandFault::BadArgument))
    } else {
        None
    }
}

// What an answer without a code means: the whole of it, `no step #99`, the third word of `ran 12 stuck` and
// `ran 12 watch x worker 0`, or the last one of `x = unset`.
fn answer_of(line: &[u8], words: &[&[u8]]) -> Option<&'static str> {
    match words {
        [no, step, _] if is_word(no, b"no") && is_word(step, b"step") => answer_words(b"no step"),
        [ran, _, stop, ..] if is_word(ran, b"ran") => stop_words(stop),
        [_, sign, value] if is_word(sign, b"=") => answer_words(value),
        _ => answer_words(line),
    }
}

// Appends the words that are found.
fn push_found(text: &mut Vec<u8>, found: Option<&'static str>) -> AllocResult<()> {
    if let Some(words) = found {
        push_words(text, words.as_bytes())?;
    }
    Ok(())
}

/// What stands behind the mark of an answer, which falls into these words; no bytes where there is nothing
/// to say.
pub(crate) fn remark(names: &Names<'_>, line: &[u8], words: &[&[u8]]) -> AllocResult<Vec<u8>> {
    let mut text = Vec::new(names.alloc);
    push_words(&mut text, source_line(names, words))?;
    push_found(&mut text, code_of(words))?;
    push_found(&mut text, command_fault_of(line))?;
    push_found(&mut text, answer_of(line, words))?;
    if let [refused, by, _, _, _, on, object @ ..] = words {
        if is_word(refused, b"refused") && is_word(by, b"by") && is_word(on, b"on") {
            push_object(&mut text, names, object)?;
        }
    }
    Ok(text)
}

// What kind of object it is.
fn push_kind(text: &mut Vec<u8>, kind: &[u8]) -> AllocResult<()> {
    if let Some(words) = object_words(kind) {
        text.extend_from_slice(words.as_bytes())?;
    }
    Ok(())
}

// The variables that a cell may be, or what a cell is.
fn push_variable(text: &mut Vec<u8>, names: &Names<'_>, cell: &[u8]) -> AllocResult<()> {
    let before = text.len();
    if let Some(source) = &names.accepted {
        push_cell(text, names.alloc, source, cell)?;
    }
    if text.len() == before {
        return push_kind(text, b"cell");
    }
    Ok(())
}

/// Appends what the object of these words is: `cell 0/1/2/0`, `arrived 0.1 1` and so on.
pub(crate) fn push_object(
    text: &mut Vec<u8>,
    names: &Names<'_>,
    object: &[&[u8]],
) -> AllocResult<()> {
    match object {
        [kind, cell] if is_word(kind, b"cell") => push_variable(text, names, cell),
        [kind, lock] if is_word(kind, b"lock") && is_word(lock, b"-") => {
            text.extend_from_slice(b"the lock of critical without a name")
        }
        [kind, ..] => push_kind(text, kind),
        [] => Ok(()),
    }
}
