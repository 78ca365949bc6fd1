//! A way as commands of the debugger.

ghost use Rattle.std.specs.Prelude.{◌≡◌, ◌++◌, IfOk, OnOk};
ghost use Rattle.lab_explore_answer.specs.declared.asked.Subject.TheVariants as subject;
ghost use Rattle.lab_explore_answer.specs.Scripts.{IsEndScript, IsRaceScript, IsScript, missing_text, where_text};

use crate::asked::Subject;
use crate::order::nth;
use crate::racing::worded_races;
use crate::ways::first_steps;
use crate::words::worded_ends;
use lab_explore_closed::{FoundEnd, FoundRace};
use lab_explore_ways::{Retracer, ShortWays};
use lab_schedules::FINISH;
use lab_text::commands_for;
use om_seq::AllocResult;
use om_shell_commands::push_numbered;
use std::alloc::Global;

/// The script of an end or of a race, by its number in the report, from 1. Its only error is out of memory.
pub(crate) fn script_of(
    alloc: Global,
    retracer: &mut Retracer,
    subject: Subject,
    short: &ShortWays,
    number: u64,
) -> AllocResult<Vec<u8>>
    ensures { IfOk result
        (λ text. IsScript subject number short.now.explored text.items) }
{
    match subject {
        Subject::Ends => script_of_end(alloc, retracer, short, number),
        Subject::Races => script_of_race(alloc, retracer, short, number),
    }
}

fn script_of_end(
    alloc: Global,
    retracer: &mut Retracer,
    short: &ShortWays,
    number: u64,
) -> AllocResult<Vec<u8>>
    ensures { IfOk result
        (λ text. IsScript subject.Ends number short.now.explored text.items) }
{
    let ends = short.explored.ends.as_slice();
    let worded = worded_ends(alloc, retracer, ends)?;
    let Some(index) = nth(&worded, number) else {
        return missing(alloc, b"there is no end ", number);
    };
    match ends.get(index) {
        Some(end) => end_script(alloc, end, short.told_of(index)),
        None => missing(alloc, b"there is no end ", number),
    }
}

fn script_of_race(
    alloc: Global,
    retracer: &mut Retracer,
    short: &ShortWays,
    number: u64,
) -> AllocResult<Vec<u8>>
    ensures { IfOk result
        (λ text. IsScript subject.Races number short.now.explored text.items) }
{
    let races = short.explored.races.as_slice();
    let worded = worded_races(alloc, retracer, races)?;
    let Some(index) = nth(&worded, number) else {
        return missing(alloc, b"there is no pair ", number);
    };
    match races.get(index) {
        Some(race) => race_script(alloc, race),
        None => missing(alloc, b"there is no pair ", number),
    }
}

// The steps of the way to an end that are told. Then `run` makes the others, if there are any, and what was printed is
// shown.
fn end_script(alloc: Global, end: &FoundEnd, told: u64) -> AllocResult<Vec<u8>>
    ensures { IfOk result (λ text. IsEndScript end.now text.items) }
{
    let mut text = commands_for(alloc, first_steps(end.path.as_slice(), told))?;
    text.extend_from_slice(FINISH)?;
    Ok(text)
}

// The steps that lead to where both workers stand before their accesses, which is shown.
fn race_script(alloc: Global, race: &FoundRace) -> AllocResult<Vec<u8>>
    ensures { IfOk result (λ text. IsRaceScript race.now text.items) }
{
    let mut text = commands_for(alloc, race.path.as_slice())?;
    push_where(&mut text, race.first.worker)?;
    push_where(&mut text, race.second.worker)?;
    Ok(text)
}

// Appends the command that shows where a worker stands.
fn push_where(text: &mut Vec<u8>, worker: u8) -> AllocResult<()>
    ensures { OnOk result (text.new.items ≡ text.old.items ++ where_text worker) }
{
    push_numbered(text, b"where ", worker)?;
    text.extend_from_slice(b"\n")
}

// One line that says that there is none of a number.
fn missing(alloc: Global, words: &[u8], number: u64) -> AllocResult<Vec<u8>>
    ensures { IfOk result (λ text. text.items ≡ missing_text words.now number) }
{
    let mut text = Vec::new(alloc);
    push_numbered(&mut text, words, number)?;
    text.extend_from_slice(b"\n")?;
    Ok(text)
}
