//! The words of a line, and the numbers that they spell.
ghost use Rattle.std.specs.Prelude.{◌≡◌, ◌<◌, map, IfOk};
ghost use Rattle.std.specs.Str.{bytes_eq};
ghost use Rattle.om_shell_commands.specs.Arguments.{number_of};
ghost use Rattle.om_shell_commands.specs.Words.{words_of};
ghost use Rattle.lab_notes.specs.Parts.{announced};

use om_seq::AllocResult;
use std::alloc::Global;

// How many digits a number has at most.
const MOST_DIGITS: usize = 10;

/// The words of a line, which spaces part.
pub(crate) fn words_of(alloc: Global, line: &[u8]) -> AllocResult<Vec<&[u8]>>
    ensures { IfOk result (λ words. map (λ word. word.now) words.items ≡ words_of line.now) }
{
    line.split(|byte| *byte == b' ')
        .filter(|word| !word.is_empty())
        .collect(alloc)
}

/// Whether a word is this one.
pub(crate) fn is_word(word: &[u8], wanted: &[u8]) -> bool
    ensures { result ≡ bytes_eq word.now wanted.now }
{
    word == wanted
}

/// The number that one to ten digits spell.
pub(crate) fn number(word: &[u8]) -> Option<u64>
    ensures { result ≡ number_of word.now }
{
    if word.is_empty() || word.len() > MOST_DIGITS {
        return None;
    }
    let mut value = 0;
    for byte in word {
        if !byte.is_ascii_digit() {
            return None;
        }
        value = value * 10 + u64::from(*byte - b'0');
    }
    Some(value)
}

/// The K of the words `output K bytes`: so many bytes follow their line as they are. It is 0 for other words.
pub(crate) fn announced(words: &[&[u8]]) -> usize
    ensures { result ≡ announced (map (λ word. word.now) words.now) }
{
    match words {
        [first, second, third] => {
            if is_word(first, b"output") && is_word(third, b"bytes") {
                number(second).unwrap_or(0) as usize
            } else {
                0
            }
        }
        _ => 0,
    }
}
