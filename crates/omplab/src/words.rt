//! What the words of the command line ask for.
ghost use Rattle.std.specs.Prelude.{◌<◌, ◌≤◌, IfOk, IfSome};

use crate::command::omplab;
use clap::error::ErrorKind;
use clap::{ArgMatches, Command, Error};
use lab_explore_answer::Subject;
use lab_explore_closed::Limits;
use std::alloc::Global;

/// What the words ask for.
#[derive(Clone, Copy)]
pub struct Words<'a> {
    /// How many workers there are, 1 to 32.
    pub workers: u8,
    /// What is to be done.
    pub asked: Asked<'a>,
}

/// What is to be done. A `file` is that of the source; where there is none, the source is at the front of the input.
#[derive(Clone, Copy)]
pub enum Asked<'a> {
    /// To say whether a source is accepted, and else why not.
    Check {
        file: &'a str,
    },
    /// To write what a source becomes in the C that ompback runs.
    Port {
        file: &'a str,
        /// Whether the text is held back where it is not accepted or has a warning.
        strict: bool,
        /// Whether the list is written alone.
        list: bool,
    },
    /// To try schedules by chance, and shorten the first bad one.
    Hunt {
        file: &'a str,
        /// The first seed, from 1 on.
        first: u64,
        /// How many schedules are tried, from 1 on.
        count: u64,
        /// How many steps a schedule has at most, from 1 on.
        steps: u64,
        /// What the program is to print; where it is `None`, what `run` prints.
        expected: Option<&'a str>,
    },
    /// To look at all schedules.
    Explore {
        file: &'a str,
        /// Whether all ends are asked for, or the accesses that meet alone.
        subject: Subject,
        limits: Limits,
        /// The number, from 1, of the end or pair whose commands are asked for.
        script: Option<u64>,
    },
    /// To judge the history that a session leaves: which of its steps race.
    Judge {
        file: &'a str,
    },
    /// To write the steps that a session leaves as a script, or those of a cone.
    Script {
        file: Option<&'a str>,
        /// The serial of the step whose cone is asked for.
        cone: Option<u64>,
        /// How many steps an `until` makes at most, where the commands themselves are asked for.
        plain: Option<u64>,
    },
    /// To pass answers on with words after them.
    Notes {
        file: &'a str,
    },
    /// To draw what a session leaves.
    Draw {
        file: Option<&'a str>,
    },
}

/// Whether the words, the first of which names the program, ask for its version and for nothing else.
pub fn ask_for_version(words: &[&str]) -> bool {
    matches!(words, [_, "--version"])
}

/// What the words ask for, the first of which names the program. An error is wrong words, a call for help, or out of
/// memory.
pub fn words_in<'a>(alloc: Global, words: &'a [&'a str]) -> Result<Words<'a>, Error>
    ensures least { IfOk result (λ words. 0 < words.workers) }
    ensures most { IfOk result (λ words. words.workers ≤ 32) }
{
    let mut command = omplab(alloc)?;
    let found = found_by(&mut command, words);
    drop(command);
    found
}

// What a command finds words to ask for.
fn found_by<'a>(command: &mut Command<'a>, words: &'a [&'a str]) -> Result<Words<'a>, Error>
    ensures least { IfOk result (λ words. 0 < words.workers) }
    ensures most { IfOk result (λ words. words.workers ≤ 32) }
{
    let matches = command.try_get_matches_from_mut(words)?;
    let found = found_in(&matches);
    drop(matches);
    match found {
        Some(words) => Ok(words),
        None => Err(command.error(ErrorKind::InvalidValue, "a subcommand lacks a value")?),
    }
}

// What the matches ask for; `None` where they lack a subcommand or a value.
fn found_in<'a>(matches: &ArgMatches<'a>) -> Option<Words<'a>>
    ensures { IfSome result (λ words. (0 < words.workers) × (words.workers ≤ 32)) }
{
    let (name, given) = matches.subcommand()?;
    let workers = workers_in(given)?;
    let asked = asked_by(name, given)?;
    Some(Words { workers, asked })
}

// The number of workers, where it is one of 1 to 32.
fn workers_in(given: &ArgMatches<'_>) -> Option<u8>
    ensures { IfSome result (λ workers. (0 < workers) × (workers ≤ 32)) }
{
    let workers = given.get_one::<u8>("threads")?;
    if 0 < workers && workers <= 32 {
        Some(workers)
    } else {
        None
    }
}

// What a subcommand asks for.
fn asked_by<'a>(name: &str, given: &ArgMatches<'a>) -> Option<Asked<'a>> {
    let file = given.get_str("file");
    Some(match name {
        "check" => Asked::Check { file: file? },
        "port" => Asked::Port {
            file: file?,
            strict: given.get_flag("strict"),
            list: given.get_flag("list"),
        },
        "hunt" => hunt_by(file?, given)?,
        "explore" => explore_by(file?, Subject::Ends, given)?,
        "races" => races_by(file?, given)?,
        "script" => Asked::Script {
            file,
            cone: given.get_one::<u64>("cone"),
            plain: plain_by(given)?,
        },
        "notes" => Asked::Notes { file: file? },
        "draw" => Asked::Draw { file },
        _ => return None,
    })
}

// What is asked for of races: those of a session, or of all schedules.
fn races_by<'a>(file: &'a str, given: &ArgMatches<'a>) -> Option<Asked<'a>> {
    if given.get_flag("session") {
        Some(Asked::Judge { file })
    } else {
        explore_by(file, Subject::Races, given)
    }
}

// What is asked for of all schedules.
fn explore_by<'a>(file: &'a str, subject: Subject, given: &ArgMatches<'a>) -> Option<Asked<'a>> {
    Some(Asked::Explore {
        file,
        subject,
        limits: Limits {
            states: given.get_one::<u64>("states")?,
            steps: given.get_one::<u64>("steps"),
        },
        script: given.get_one::<u64>("script"),
    })
}

// How many steps an `until` makes at most, where the commands themselves are asked for.
fn plain_by(given: &ArgMatches<'_>) -> Option<Option<u64>> {
    let most = given.get_one::<u64>("steps")?;
    Some(given.get_flag("plain").then_some(most))
}

// What a hunt asks for.
fn hunt_by<'a>(file: &'a str, given: &ArgMatches<'a>) -> Option<Asked<'a>> {
    Some(Asked::Hunt {
        file,
        first: given.get_one::<u64>("first-seed")?,
        count: given.get_one::<u64>("seeds")?,
        steps: given.get_one::<u64>("steps")?,
        expected: given.get_str("expect"),
    })
}
