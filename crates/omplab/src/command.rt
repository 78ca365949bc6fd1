//! Which words there are.

use clap::{Arg, ArgAction, Command};
use om_seq::AllocResult;
use std::alloc::Global;

const ABOUT: &str = "Finds, explains, keeps and draws the schedules of an OpenMP program in C.";

const STATUSES: &str = "With --version alone, standard output tells the version.

Exit status:
  0  it is done, and nothing bad was found; or help, or the version is told
  1  something bad was found: `hunt` a schedule, `explore` a second end, a fault or a race, `races` a race,
     `check` a source that is refused; `port` has a text that is refused, or that --strict holds back
  2  wrong words
  3  a fault, told on standard error: H3 a read failed, H4 a write failed, H5 no memory
  4  nothing bad was found, and not all was looked at: `explore` and `races`
  5  the source is refused (but by `check` and `port`); standard error tells why and where";

const SESSION: &str =
    "Without FILE, standard input holds the source up to a line `%%`, and then commands of ompback.
With FILE, standard input holds commands alone.";

const MACROS: &str =
    "Without FILE, standard input holds the source up to a line `%%`, and then commands of ompback.
With FILE, standard input holds commands alone.

With --plain the commands may have macros:
  # WORDS       a comment
  step 1 x 20   a command of a worker, so many times
  until W L     steps of worker W, until it comes from another line to line L
  until W VAR   steps of worker W, until it changes the global variable";

// The number of workers, which each subcommand takes before or after its name.
fn threads<'a>(alloc: Global) -> Arg<'a> {
    Arg::new(alloc, "threads")
        .long("threads")
        .value_name("N")
        .help("How many workers there are, 1 to 32")
        .default_value("2")
        .global(true)
        .action(ArgAction::Set)
        .value_parser(clap::value_parser!(u8).range(1..=32))
}

// The file of the source.
fn file<'a>(alloc: Global, is_required: bool) -> Arg<'a> {
    Arg::new(alloc, "file")
        .value_name("FILE")
        .help("The C source")
        .required(is_required)
        .action(ArgAction::Set)
}

// An option that takes a number from 1 on, which the help calls by this letter.
fn number<'a>(alloc: Global, name: &'a str, letter: &'a str, help: &'a str) -> Arg<'a> {
    Arg::new(alloc, name)
        .long(name)
        .value_name(letter)
        .help(help)
        .action(ArgAction::Set)
        .value_parser(clap::value_parser!(u64).range(1..=1_000_000_000))
}

// A command with one more argument. In its callers there is then no way out at which a command or an argument is
// alive.
fn with<'a>(command: AllocResult<Command<'a>>, arg: Arg<'a>) -> AllocResult<Command<'a>> {
    match command {
        Ok(command) => command.arg(arg),
        Err(error) => {
            drop(arg);
            Err(error)
        }
    }
}

// A command with one more subcommand.
fn over<'a>(
    command: AllocResult<Command<'a>>,
    subcommand: AllocResult<Command<'a>>,
) -> AllocResult<Command<'a>> {
    match subcommand {
        Ok(subcommand) => match command {
            Ok(command) => command.subcommand(subcommand),
            Err(error) => {
                drop(subcommand);
                Err(error)
            }
        },
        Err(error) => {
            drop(command);
            Err(error)
        }
    }
}

fn check<'a>(alloc: Global) -> AllocResult<Command<'a>> {
    Command::new(alloc, "check")
        .about("Says whether ompback runs a source, and else why not and what to write")
        .arg(file(alloc, true))
}

fn hunt<'a>(alloc: Global) -> AllocResult<Command<'a>> {
    let command = Command::new(alloc, "hunt")
        .about("Tries schedules by chance, and shortens the first bad one to a script for ompback")
        .after_help(
            "A schedule is bad where the program prints something else, meets a fault, or is stuck.
Where none is bad, the races of the first history that has some are told, and the status is 1.
This is no exploration of all schedules.",
        );
    let command = command.arg(first_seed(alloc));
    let command = with(command, seeds(alloc));
    let command = with(command, steps(alloc));
    let command = with(command, expect(alloc));
    with(command, file(alloc, true))
}

fn first_seed<'a>(alloc: Global) -> Arg<'a> {
    number(
        alloc,
        "first-seed",
        "A",
        "The first seed: with K schedules, the last one is A + K - 1",
    )
    .default_value("1")
}

fn seeds<'a>(alloc: Global) -> Arg<'a> {
    number(alloc, "seeds", "K", "How many schedules are tried").default_value("100")
}

fn steps<'a>(alloc: Global) -> Arg<'a> {
    number(
        alloc,
        "steps",
        "M",
        "How many steps chance makes at most, before `run` makes the others",
    )
    .default_value("100000")
}

fn expect<'a>(alloc: Global) -> Arg<'a> {
    Arg::new(alloc, "expect")
        .long("expect")
        .value_name("TEXT")
        .help(
            "What the program is to print, with \\n for a line end; without it, what `run` prints",
        )
        .action(ArgAction::Set)
}

fn script<'a>(alloc: Global) -> AllocResult<Command<'a>> {
    let command = Command::new(alloc, "script")
        .about("Writes the steps that a session leaves as a script for ompback")
        .after_help(MACROS);
    let command = command.arg(cone(alloc));
    let command = with(command, plain(alloc));
    let command = with(command, walk(alloc));
    with(command, file(alloc, false))
}

fn plain<'a>(alloc: Global) -> Arg<'a> {
    Arg::new(alloc, "plain")
        .long("plain")
        .help("Writes the commands themselves, with macros taken away, in place of the steps")
        .action(ArgAction::SetTrue)
}

fn walk<'a>(alloc: Global) -> Arg<'a> {
    number(
        alloc,
        "steps",
        "M",
        "How many steps an `until` makes at most",
    )
    .default_value("10000")
}

fn cone<'a>(alloc: Global) -> Arg<'a> {
    number(
        alloc,
        "cone",
        "S",
        "Lists the steps that `roll S` would take back, in place of all",
    )
}

// What is said of both subcommands that look at all schedules.
const SCHEDULES: &str =
    "Complete speaks of the schedules of a machine: N workers, one instruction a step, and memory that all see in one
order. A ready task is begun at a barrier, at a wait, at a yield and where a task or a thread ends. A schedule that
goes on for ever comes to no end and is not told: status 0 does not say that each schedule ends. Accesses meet where
two workers stand before them at one moment, and one of them stores or ends the life of the variable. Two accesses of
`atomic` do not, nor do two reductions that combine their copies with one variable. A pair that meets is a data race.
Accesses that only a chunk of a loop, a section, a `single` or accesses of `atomic` order never meet.";

fn explore<'a>(alloc: Global) -> AllocResult<Command<'a>> {
    let command = Command::new(alloc, "explore")
        .about("Looks at all schedules: every end, fault and race, each with a way there")
        .after_help(SCHEDULES);
    limited(alloc, command)
}

fn races<'a>(alloc: Global) -> AllocResult<Command<'a>> {
    let command = Command::new(alloc, "races")
        .about("Looks at all schedules for accesses that meet, with both lines of each pair")
        .after_help(SCHEDULES);
    let session = session(alloc)?;
    with(limited(alloc, command), session)
}

// Of one history there is nothing to limit, and its way is the commands.
fn session<'a>(alloc: Global) -> AllocResult<Arg<'a>> {
    let session = Arg::new(alloc, "session")
        .long("session")
        .help("Reads commands on standard input, and judges the one history that they leave")
        .action(ArgAction::SetTrue);
    let session = session.conflicts_with("states")?;
    let session = session.conflicts_with("steps")?;
    session.conflicts_with("script")
}

// A command with the limits of an exploration, and its file.
fn limited<'a>(alloc: Global, command: Command<'a>) -> AllocResult<Command<'a>> {
    let command = command.arg(states(alloc));
    let command = with(command, most_steps(alloc));
    let command = with(command, way(alloc));
    with(command, file(alloc, true))
}

fn states<'a>(alloc: Global) -> Arg<'a> {
    number(
        alloc,
        "states",
        "M",
        "How many states are looked at; where there are more, the answer is not complete",
    )
    .default_value("1000000")
}

fn most_steps<'a>(alloc: Global) -> Arg<'a> {
    number(
        alloc,
        "steps",
        "K",
        "Stops behind so many steps; without it there is no such limit",
    )
}

fn way<'a>(alloc: Global) -> Arg<'a> {
    number(
        alloc,
        "script",
        "I",
        "Writes the commands for ompback that lead to number I, in place of the report",
    )
}

fn notes<'a>(alloc: Global) -> AllocResult<Command<'a>> {
    Command::new(alloc, "notes")
        .about("Passes the answers of `ompback FILE` on, with words after them")
        .arg(file(alloc, true))
}

fn draw<'a>(alloc: Global) -> AllocResult<Command<'a>> {
    Command::new(alloc, "draw")
        .about("Draws the steps that a session leaves, and what depends on what, as a page of HTML")
        .after_help(SESSION)
        .arg(file(alloc, false))
}

fn port<'a>(alloc: Global) -> AllocResult<Command<'a>> {
    let command = Command::new(alloc, "port")
        .about("Writes wider C as the C that ompback runs, with each token on its line")
        .after_help(
            "Standard error lists each change with its line, each warning, and each token that has no form.
The text is written also where it is not accepted, so that the rest can be done by hand.",
        );
    let command = command.arg(strict(alloc));
    let command = with(command, list(alloc));
    with(command, file(alloc, true))
}

fn strict<'a>(alloc: Global) -> Arg<'a> {
    Arg::new(alloc, "strict")
        .long("strict")
        .help("Writes no text where it is not accepted or has a warning")
        .action(ArgAction::SetTrue)
}

fn list<'a>(alloc: Global) -> Arg<'a> {
    Arg::new(alloc, "list")
        .long("list")
        .help("Writes the list on standard output, and no text")
        .action(ArgAction::SetTrue)
}

/// The command line of omplab. Its only error is out of memory.
pub(crate) fn omplab<'a>(alloc: Global) -> AllocResult<Command<'a>> {
    let command = Command::new(alloc, "omplab")
        .about(ABOUT)
        .after_help(STATUSES)
        .subcommand_required(true);
    let command = command.arg(threads(alloc));
    let command = over(command, check(alloc));
    let command = over(command, port(alloc));
    let command = over(command, hunt(alloc));
    let command = over(command, explore(alloc));
    let command = over(command, races(alloc));
    let command = over(command, script(alloc));
    let command = over(command, notes(alloc));
    over(command, draw(alloc))
}
