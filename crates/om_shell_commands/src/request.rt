//! What a line asks for.

ghost use Rattle.std.specs.Prelude.{◌≡◌, IfOk, IfSome};
ghost use Rattle.om_shell_commands.specs.Commands.{command_of, start_of, print_of, alone, taken, request_in, request_of, worded, HasWorkerBelow, AsksWorkerBelow};
ghost use Rattle.om_shell_commands.specs.Words.{spelled, words_of};
ghost use Rattle.om_shell_commands.specs.declared.command.Request.TheVariants as request;

use crate::arguments::{
    one_count, one_number, one_variable, one_worker, task, variable_of, worker,
};
use crate::command::{Command, CommandFault, Request, TaskName};
use crate::verb::{Verb, verb_of};
use om_seq::AllocResult;
use std::alloc::Global;

// How many bytes a line has at most, its end not counted.
const LONGEST_LINE: usize = 1024;

// The words of a line, which spaces part.
fn words(alloc: Global, line: &[u8]) -> AllocResult<Vec<&[u8]>>
    ensures { IfOk result (λ words. spelled words.items ≡ words_of line.now) }
{
    line.split(|byte| *byte == b' ')
        .filter(|word| !word.is_empty())
        .collect(alloc)
}

// `start`, with the words after it.
fn start(alloc: Global, workers: u8, words: &[&[u8]]) -> AllocResult<Option<Command>>
    ensures asked { IfOk result
        (λ command. command ≡ start_of workers (spelled words.now)) }
    ensures in_range { IfOk result (λ command. IfSome command (HasWorkerBelow workers)) }
{
    let [first, second] = words else {
        return Ok(None);
    };
    let Some(worker) = worker(workers, first) else {
        return Ok(None);
    };
    let Some(task) = task(alloc, second)? else {
        return Ok(None);
    };
    let task = TaskName::new(alloc, task)?;
    Ok(Some(Command::Start { worker, task }))
}

// `print`, with the words after it.
fn print(alloc: Global, workers: u8, words: &[&[u8]]) -> AllocResult<Option<Command>>
    ensures asked { IfOk result
        (λ command. command ≡ print_of workers (spelled words.now)) }
    ensures in_range { IfOk result (λ command. IfSome command (HasWorkerBelow workers)) }
{
    match words {
        [first, second] => {
            let Some(worker) = worker(workers, first) else {
                return Ok(None);
            };
            let Some(variable) = variable_of(alloc, second)? else {
                return Ok(None);
            };
            Ok(Some(Command::PrintLocal { worker, variable }))
        }
        _ => Ok(one_variable(alloc, words)?.map(Command::Print)),
    }
}

// A command without arguments.
fn alone(command: Command, words: &[&[u8]]) -> Option<Command>
    ensures { result ≡ alone command (spelled words.now) }
{
    words.is_empty().then_some(command)
}

// What a verb asks for with the words after it; `None` where they are not what it takes.
fn command_by(
    alloc: Global,
    verb: Verb,
    workers: u8,
    words: &[&[u8]],
) -> AllocResult<Option<Command>>
    ensures asked { IfOk result
        (λ command. command ≡ command_of verb workers (spelled words.now)) }
    ensures in_range { IfOk result (λ command. IfSome command (HasWorkerBelow workers)) }
{
    match verb {
        Verb::Step => Ok(one_worker(workers, words).map(Command::Step)),
        Verb::Start => start(alloc, workers, words),
        Verb::Undo => Ok(one_worker(workers, words).map(Command::Undo)),
        Verb::Next => Ok(one_worker(workers, words).map(Command::Next)),
        Verb::Back => Ok(one_worker(workers, words).map(Command::Back)),
        Verb::Print => print(alloc, workers, words),
        Verb::Where => Ok(one_worker(workers, words).map(Command::Where)),
        Verb::History => Ok(alone(Command::History, words)),
        Verb::Events => Ok(one_worker(workers, words).map(Command::Events)),
        Verb::Output => Ok(alone(Command::Output, words)),
        Verb::Tasks => Ok(alone(Command::Tasks, words)),
        Verb::Break => Ok(one_number(words).map(Command::Break)),
        Verb::Watch => Ok(one_variable(alloc, words)?.map(Command::Watch)),
        Verb::Delete => Ok(one_number(words).map(Command::Delete)),
        Verb::Run => Ok(one_count(words).map(Command::Run)),
        Verb::Free => Ok(one_number(words).map(Command::Free)),
        Verb::Roll => Ok(one_number(words).map(Command::Roll)),
        Verb::Quit => Ok(alone(Command::Quit, words)),
    }
}

// What words ask for.
fn request_in(alloc: Global, workers: u8, words: &[&[u8]]) -> AllocResult<Request>
    ensures asked { IfOk result
        (λ request. request ≡ request_in workers (spelled words.now)) }
    ensures in_range { IfOk result (AsksWorkerBelow workers) }
{
    match words {
        [] => Ok(Request::Nothing),
        [word, words @ ..] => match verb_of(word) {
            Some(verb) => match command_by(alloc, verb, workers, words)? {
                Some(command) => Ok(Request::Command(command)),
                None => Ok(Request::Fault(CommandFault::BadArgument)),
            },
            None => Ok(Request::Fault(CommandFault::UnknownCommand)),
        },
    }
}

// The step or the undo that a line asks for in the plainest way: by the word, one space, and the worker.
fn plain(workers: u8, line: &[u8]) -> Option<Command>
    ensures asked { IfSome result
        (λ command. worded workers line.now ≡ request.Command command) }
    ensures in_range { IfSome result (HasWorkerBelow workers) }
{
    let [a, b, c, d, space, digits @ ..] = line else {
        return None;
    };
    if *space != b' ' {
        return None;
    }
    let Some(worker) = worker(workers, digits) else {
        return None;
    };
    if *a == b's' && *b == b't' && *c == b'e' && *d == b'p' {
        return Some(Command::Step(worker));
    }
    if *a == b'u' && *b == b'n' && *c == b'd' && *d == b'o' {
        return Some(Command::Undo(worker));
    }
    None
}

// What the words of a line ask for. It stands apart, as what it builds is large, and few lines need it.
fn worded(alloc: Global, workers: u8, line: &[u8]) -> AllocResult<Request>
    ensures asked { IfOk result (λ request. request ≡ worded workers line.now) }
    ensures in_range { IfOk result (AsksWorkerBelow workers) }
{
    let words = words(alloc, line)?;
    request_in(alloc, workers, &words)
}

/// What a line asks for, where there are so many workers.
///
/// A line has at most 1,024 bytes. Words are parted by spaces, and a number has one to ten digits.
/// What is wrong with a line is an answer; the only error is out of memory.
pub fn request_of(alloc: Global, workers: u8, line: &[u8]) -> AllocResult<Request>
    ensures asked { IfOk result (λ request. request ≡ request_of workers line.now) }
    ensures in_range { IfOk result (AsksWorkerBelow workers) }
{
    if line.len() > LONGEST_LINE {
        return Ok(Request::Fault(CommandFault::BadArgument));
    }
    if let Some(command) = plain(workers, line) {
        return Ok(Request::Command(command));
    }
    worded(alloc, workers, line)
}
