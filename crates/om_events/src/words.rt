//! The words of a record's text.

ghost use Rattle.std.specs.Prelude.{◌≡◌, ◌++◌, codes, length, map, take, OnOk, OnErr};
ghost use Rattle.om_events.specs.Records.{spaced, lock_text};
ghost use Rattle.om_events.specs.Words.{word_text};

use itoa::Buffer;
use om_foot::Name;
use om_seq::AllocResult;

/// A word of a record's text, behind the number and the name of its callback.
#[derive(Clone, Copy)]
pub(crate) enum Word<'a> {
    Number(u64),
    Name(&'a Name),
    /// The name of a critical region, which may be empty.
    Lock(&'a [u8]),
}

/// Appends the number and the name of a callback, and then words, each behind a space; or nothing.
pub(crate) fn push_words(first: &[u8], words: &[Word], out: &mut Vec<u8>) -> AllocResult<()>
    ensures appended { OnOk result
        (out.new.items ≡ out.old.items ++ (first.now ++ spaced (map word_text words.now))) }
    ensures unchanged_on_error { OnErr result (out.new.items ≡ out.old.items) }
{
    let before = out.len();
    let Err(error) = push_parts(first, words, out) else {
        return Ok(());
    };
    out.truncate(before);
    Err(error)
}

// Appends the same; when out of memory, some of it.
fn push_parts(first: &[u8], words: &[Word], out: &mut Vec<u8>) -> AllocResult<()>
    ensures appended { OnOk result
        (out.new.items ≡ out.old.items ++ (first.now ++ spaced (map word_text words.now))) }
    ensures front_stays { OnErr result (take (length out.old.items) out.new.items ≡ out.old.items) }
{
    out.extend_from_slice(first)?;
    push_spaced(words, out)
}

// Appends words, each behind a space; when out of memory, some of them.
fn push_spaced(words: &[Word], out: &mut Vec<u8>) -> AllocResult<()>
    ensures appended { OnOk result
        (out.new.items ≡ out.old.items ++ spaced (map word_text words.now)) }
    ensures front_stays { OnErr result (take (length out.old.items) out.new.items ≡ out.old.items) }
{
    for word in words {
        push_spaced_one(word, out)?;
    }
    Ok(())
}

// Appends a space and a word; when out of memory, at most the space.
fn push_spaced_one(word: &Word, out: &mut Vec<u8>) -> AllocResult<()>
    ensures appended { OnOk result
        (out.new.items ≡ out.old.items ++ (codes " " ++ word_text word.now)) }
    ensures front_stays { OnErr result (take (length out.old.items) out.new.items ≡ out.old.items) }
{
    out.push(b' ')?;
    push_word(word, out)
}

// Appends a word, or nothing.
fn push_word(word: &Word, out: &mut Vec<u8>) -> AllocResult<()>
    ensures appended { OnOk result (out.new.items ≡ out.old.items ++ word_text word.now) }
    ensures unchanged_on_error { OnErr result (out.new.items ≡ out.old.items) }
{
    match word {
        Word::Number(number) => {
            let mut buffer = Buffer::new();
            out.extend_from_slice(buffer.format(*number).as_bytes())
        }
        Word::Name(name) => name.text(out),
        Word::Lock(name) => push_lock(name, out),
    }
}

// Appends the name of a critical region, or nothing.
fn push_lock(name: &[u8], out: &mut Vec<u8>) -> AllocResult<()>
    ensures appended { OnOk result (out.new.items ≡ out.old.items ++ lock_text name.now) }
    ensures unchanged_on_error { OnErr result (out.new.items ≡ out.old.items) }
{
    if name.is_empty() {
        out.push(b'-')?;
        return Ok(());
    }
    out.extend_from_slice(name)
}
