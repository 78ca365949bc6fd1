//! What a line stands for that asks for no machine.

ghost use Rattle.std.specs.Prelude.{◌≡◌, ◌++◌, map, IfOk, OnOk};
ghost use Rattle.std.specs.Str.{bytes_eq};
ghost use Rattle.lab_macros.specs.Kinds.{begins_comment, is_repeated, kind_of};
ghost use Rattle.lab_macros.specs.Sayings.{commands_said, nothing_said, plain_said, repeated_by, repeated_of, repeated_said, times, words_said, wrong_count};

use crate::asked::count_in;
use om_seq::{AllocResult, Seq};
use std::alloc::Global;

/// What a line is.
#[derive(Clone, Copy)]
pub(crate) enum Kind {
    /// A comment, or a line without a word.
    Nothing,
    /// A command of ompback.
    Plain,
    /// `step 1 x 20`: a command and how often it is made.
    Repeated,
    /// `until W L`, `until W VAR`.
    Until,
}

/// What a line stands for: commands, each with its line end; or none, and words that say why.
#[derive(Drop)]
pub(crate) struct Said {
    pub(crate) commands: Seq<u8>,
    pub(crate) words: Seq<u8>,
}

/// These commands.
pub(crate) fn commands_said(alloc: Global, commands: Vec<u8>) -> Said
    ensures { result ≡ commands_said commands.items }
{
    Said {
        commands: Seq::of(commands),
        words: Seq::new(alloc),
    }
}

/// No command, for these words.
pub(crate) fn words_said(alloc: Global, words: &[u8]) -> AllocResult<Said>
    ensures { IfOk result (λ said. said ≡ words_said words.now) }
{
    Ok(Said {
        commands: Seq::new(alloc),
        words: Seq::of(Vec::from_slice(alloc, words)?),
    })
}

/// What the words of a line make it.
pub(crate) fn kind_of(words: &[&[u8]]) -> Kind
    ensures { result ≡ kind_of (map (λ word. word.now) words.now) }
{
    let [first, ..] = words else {
        return Kind::Nothing;
    };
    if begins_comment(first) {
        return Kind::Nothing;
    }
    if is_word(first, b"until") {
        return Kind::Until;
    }
    if is_repeated(words) {
        Kind::Repeated
    } else {
        Kind::Plain
    }
}

// Whether a word begins a comment.
fn begins_comment(word: &[u8]) -> bool
    ensures { result ≡ begins_comment word.now }
{
    matches!(word, [b'#', ..])
}

// Whether a word is this one.
fn is_word(word: &[u8], wanted: &[u8]) -> bool
    ensures { result ≡ bytes_eq word.now wanted.now }
{
    word == wanted
}

// Whether words are a command with a worker, an `x`, and one more word.
fn is_repeated(words: &[&[u8]]) -> bool
    ensures { result ≡ is_repeated (map (λ word. word.now) words.now) }
{
    let [_, _, mark, _] = words else {
        return false;
    };
    is_word(mark, b"x")
}

/// A comment and a line without a word stand for nothing.
pub(crate) fn nothing_said(alloc: Global) -> Said
    ensures { result ≡ nothing_said }
{
    commands_said(alloc, Vec::new(alloc))
}

/// A line that is a command of ompback stands for itself. The only error is out of memory.
pub(crate) fn plain_said(alloc: Global, line: &[u8]) -> AllocResult<Said>
    ensures { IfOk result (λ said. said ≡ plain_said line.now) }
{
    let mut text = Vec::from_slice(alloc, line)?;
    text.extend_from_slice(b"\n")?;
    Ok(commands_said(alloc, text))
}

/// What a command with `x K` behind it stands for. The only error is out of memory.
pub(crate) fn repeated_said(alloc: Global, workers: u8, words: &[&[u8]]) -> AllocResult<Said>
    ensures { IfOk result
        (λ said. said ≡ repeated_said workers (map (λ word. word.now) words.now)) }
{
    let [verb, worker, _, count] = words else {
        return wrong_count(alloc);
    };
    let count = count_in(alloc, workers, count)?;
    repeated_of(alloc, verb, worker, count)
}

fn wrong_count(alloc: Global) -> AllocResult<Said>
    ensures { IfOk result (λ said. said ≡ wrong_count) }
{
    words_said(alloc, b"x: H2 bad argument")
}

// A command of two words, so many times, where the number is one.
fn repeated_of(alloc: Global, verb: &[u8], worker: &[u8], count: Option<u32>) -> AllocResult<Said>
    ensures { IfOk result (λ said. said ≡ repeated_of verb.now worker.now count) }
{
    match count {
        Some(count) => repeated_by(alloc, verb, worker, count),
        None => wrong_count(alloc),
    }
}

// A command of two words, so many times.
fn repeated_by(alloc: Global, verb: &[u8], worker: &[u8], count: u32) -> AllocResult<Said>
    ensures { IfOk result (λ said. said ≡ repeated_by verb.now worker.now count) }
{
    let mut command = Vec::from_slice(alloc, verb)?;
    command.extend_from_slice(b" ")?;
    command.extend_from_slice(worker)?;
    command.extend_from_slice(b"\n")?;
    let mut text = Vec::new(alloc);
    push_times(&mut text, &command, u64::from(count))?;
    Ok(commands_said(alloc, text))
}

/// Appends a text so many times.
pub(crate) fn push_times(text: &mut Vec<u8>, part: &[u8], count: u64) -> AllocResult<()>
    ensures { OnOk result (text.new.items ≡ text.old.items ++ times count part.now) }
{
    let mut left = count;
    'left: while left > 0 {
        text.extend_from_slice(part)?;
        left -= 1;
    }
    Ok(())
}
