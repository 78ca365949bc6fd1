//! The words after the first one: numbers, workers, names of tasks and variables.

ghost use Rattle.std.specs.Prelude.{◌≡◌, ◌==◌, ◌<◌, map, position, length, IfOk, IfSome};
ghost use Rattle.om_shell_commands.specs.Arguments.{number_of, worker_of, parts_of, task_of, task_behind, variable_of, indexed, index_of, one_worker, one_number, one_count, one_variable};

use crate::command::Variable;
use om_foot::Name;
use om_seq::{AllocResult, Seq};
use std::alloc::Global;

// How many digits a number has at most.
const MOST_DIGITS: usize = 10;

// How many steps a `run` makes at most.
const MOST_STEPS: u64 = 100_000;

// The number that one to ten digits spell.
fn number(word: &[u8]) -> Option<u64>
    ensures { result ≡ number_of word.now }
{
    if word.is_empty() || word.len() > MOST_DIGITS {
        return None;
    }
    let mut value = 0;
    for byte in word {
        if !byte.is_ascii_digit() {
            return None;
        }
        value = value * 10 + u64::from(*byte - b'0');
    }
    Some(value)
}

/// The worker of this number, of those that there are.
pub(crate) fn worker(workers: u8, word: &[u8]) -> Option<u8>
    ensures named { result ≡ worker_of workers word.now }
    ensures in_range { IfSome result (λ worker. worker < workers) }
{
    let number = number(word)?;
    if number < u64::from(workers) {
        Some(number as u8)
    } else {
        None
    }
}

/// The only word, a worker.
pub(crate) fn one_worker(workers: u8, words: &[&[u8]]) -> Option<u8>
    ensures named { result ≡ one_worker workers (map (λ word. word.now) words.now) }
    ensures in_range { IfSome result (λ worker. worker < workers) }
{
    let [word] = words else {
        return None;
    };
    worker(workers, word)
}

/// The only word, a number.
pub(crate) fn one_number(words: &[&[u8]]) -> Option<u64>
    ensures { result ≡ one_number (map (λ word. word.now) words.now) }
{
    let [word] = words else {
        return None;
    };
    number(word)
}

/// The only word, a number of steps: 1 to 100,000.
pub(crate) fn one_count(words: &[&[u8]]) -> Option<u32>
    ensures { result ≡ one_count (map (λ word. word.now) words.now) }
{
    let number = one_number(words)?;
    if 1 <= number && number <= MOST_STEPS {
        Some(number as u32)
    } else {
        None
    }
}

// The name whose numbers are those of a name and then those that the parts spell.
fn task_behind(mut name: Name, parts: &[&[u8]]) -> Option<Name>
    ensures { result ≡ task_behind name (map (λ part. part.now) parts.now) }
{
    for part in parts {
        name = name.child(number(part)?)?;
    }
    Some(name)
}

// The parts of a word, with dots between them.
fn parts_of(alloc: Global, word: &[u8]) -> AllocResult<Vec<&[u8]>>
    ensures { IfOk result (λ parts. map (λ part. part.now) parts.items ≡ parts_of word.now) }
{
    word.split(|byte| *byte == b'.').collect(alloc)
}

/// The name of a task: numbers with dots between them.
pub(crate) fn task(alloc: Global, word: &[u8]) -> AllocResult<Option<Name>>
    ensures { IfOk result (λ task. task ≡ task_of word.now) }
{
    let parts = parts_of(alloc, word)?;
    Ok(task_behind(Name::empty(), &parts))
}

// The index that stands after a `[` and before the `]` that ends a word.
fn index(rest: &[u8]) -> Option<u64>
    ensures { result ≡ index_of rest.now }
{
    let [digits @ .., b']'] = rest else {
        return None;
    };
    number(digits)
}

// The variable of this name.
fn named(alloc: Global, name: &[u8], index: Option<u64>) -> AllocResult<Variable>
    ensures { IfOk result (λ variable. variable ≡ record { name = name.now; index = index }) }
{
    Ok(Variable {
        name: Seq::of(Vec::from_slice(alloc, name)?),
        index,
    })
}

// Where the first `[` of a word stands.
fn bracket(word: &[u8]) -> Option<usize>
    ensures first { result ≡ position (λ byte. byte == 91) word.now }
    ensures within { IfSome result (λ at. at < length word.now) }
{
    word.iter().position(|byte| *byte == b'[')
}

// The variable of this name, where the index is one that it has.
fn indexed(alloc: Global, name: &[u8], index: Option<u64>) -> AllocResult<Option<Variable>>
    ensures { IfOk result (λ variable. variable ≡ indexed name.now index) }
{
    let Some(index) = index else {
        return Ok(None);
    };
    Ok(Some(named(alloc, name, Some(index))?))
}

/// The variable that a word names: `x`, or `a[3]`.
pub(crate) fn variable_of(alloc: Global, word: &[u8]) -> AllocResult<Option<Variable>>
    ensures { IfOk result (λ variable. variable ≡ variable_of word.now) }
{
    match bracket(word) {
        Some(at) => indexed(alloc, &word[..at], index(&word[at + 1..])),
        None => Ok(Some(named(alloc, word, None)?)),
    }
}

/// The only word, a variable.
pub(crate) fn one_variable(alloc: Global, words: &[&[u8]]) -> AllocResult<Option<Variable>>
    ensures { IfOk result (λ variable. variable ≡ one_variable (map (λ word. word.now) words.now)) }
{
    let [word] = words else {
        return Ok(None);
    };
    variable_of(alloc, word)
}
