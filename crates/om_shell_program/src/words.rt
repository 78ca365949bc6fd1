//! The words of the command line.
ghost use Rattle.std.specs.Prelude.{◌<◌, ◌≤◌, IfOk};
ghost use Rattle.om_shell_program.specs.Arguments.{IsFile, IsThreads};
ghost use Rattle.om_shell_program.specs.Workers.{GivesWorkers};

use clap::{Arg, ArgAction, ArgMatches, Command, Error};
use std::alloc::Global;

/// What the words ask for.
#[derive(Clone, Copy)]
pub struct Words<'a> {
    /// How many workers there are, 1 to 32.
    pub workers: u8,
    /// The file of the source; where there is none, the source is at the front of the input.
    pub file: Option<&'a str>,
}

const ABOUT: &str = "Steps an OpenMP program in C forwards and backwards, one worker at a time.";

const COMMANDS: &str =
    "Without FILE, standard input holds the source up to a line `%%`, and then commands.
With FILE, standard input holds commands alone. Each is a line:
  step W        worker W takes its next step
  start W NAME  worker W begins the ready task of this name, as 0.1.0.1
  undo W        takes back the last step of worker W, where no later step conflicts with it
  next W        worker W steps until its line changes
  back W        takes back steps of worker W until its line changes
  roll S        takes back step S, with all that depends on it
  run K         at most K steps, each by the lowest worker that has a move
  free K        K rounds of every worker, all at once, each in a thread of its own
  break L       `run` stops where a worker comes to line L
  watch VAR     `run` stops where the value of a global variable changes
  delete L      takes `break L` back
  print VAR     the value of a global variable, as x or a[3]
  print W VAR   the value of the variable that worker W sees by this name
  where W       what worker W is doing
  history       the steps that stand
  events W      the event records of worker W
  output        what the program printed
  tasks         the tasks that are ready
  quit          ends the session

With --version alone, standard output tells the version.

Exit status:
  0  at `quit` or the end of the commands, or the version is told
  1  the source is refused; standard output tells why and where
  2  wrong words, or help
  3  a fault, told on standard error: H3 a read failed, H4 a write failed, H5 no memory";

/// Whether the words, the first of which names the program, ask for its version and for nothing else.
pub fn ask_for_version(words: &[&str]) -> bool {
    matches!(words, [_, "--version"])
}

/// What the words ask for. An error is wrong words, a call for help, or out of memory.
pub fn words_in<'a>(alloc: Global, words: &'a [&'a str]) -> Result<Words<'a>, Error>
    ensures least { IfOk result (λ words. 0 < words.workers) }
    ensures most { IfOk result (λ words. words.workers ≤ 32) }
{
    let matches = matches_in(alloc, words)?;
    let asked = Words {
        workers: workers_in(&matches),
        file: matches.get_str("file"),
    };
    drop(matches);
    Ok(asked)
}

// What the words are parsed to: among it a number of workers, 2 where the words give none.
fn matches_in<'a>(alloc: Global, words: &'a [&'a str]) -> Result<ArgMatches<'a>, Error>
    ensures { IfOk result GivesWorkers }
{
    let command = Command::new(alloc, "ompback")
        .about(ABOUT)
        .after_help(COMMANDS)
        .arg(threads(alloc))?;
    let command = command.arg(file(alloc))?;
    command.try_get_matches_from(words)
}

// The number of workers.
fn threads<'a>(alloc: Global) -> Arg<'a>
    ensures { IsThreads result }
{
    Arg::new(alloc, "threads")
        .long("threads")
        .value_name("N")
        .help("How many workers there are, 1 to 32")
        .default_value("2")
        .action(ArgAction::Set)
        .value_parser(clap::value_parser!(u8).range(1..=32))
}

// The file of the source.
fn file<'a>(alloc: Global) -> Arg<'a>
    ensures { IsFile result }
{
    Arg::new(alloc, "file")
        .value_name("FILE")
        .help("The C source")
        .action(ArgAction::Set)
}

// The number of workers, which the parse has found to be one of 1 to 32.
fn workers_in(matches: &ArgMatches<'_>) -> u8
    requires { GivesWorkers matches.now }
    ensures least { 0 < result }
    ensures most { result ≤ 32 }
{
    let Some(workers) = matches.get_one::<u8>("threads") else {
        unreachable!();
    };
    workers
}
