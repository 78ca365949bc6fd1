//! The hunt: schedules by chance, up to the first that is bad, and that one made short.

ghost use Rattle.std.specs.Prelude.{◌≡◌, ◌<◌, ◌≤◌, None, true, is_some, IfOk};
ghost use Rattle.lab_judge.specs.Texts.{text_in};
ghost use Rattle.lab_hunt.specs.Finds.{IsHuntBy};
ghost use Rattle.lab_hunt.specs.Tries.{IsComparedAfter, IsSought};

use crate::tries::{Field, Tried, Tries};
use lab_judge::{Alone, Standard, Wanted, alone_of};
use lab_play::Ground;
use lab_schedules::{Aims, Found, Hunted, Progress, script};
use lab_script::{Ran, run_over};
use om_shell::ShellFault;
use std::alloc::Global;
use std::sync::Wait;
use std::thread::Threads;

/// Tries schedules by chance, and answers the first that is bad, made short.
///
/// A schedule is bad where a worker meets a fault, where no worker has a move and the initial task has not
/// ended, or where that task ends and something else was printed than is wanted: what is expected, else what
/// `run` alone leads to. Where `run` alone comes to no end within 100,000 steps and nothing is expected, it is
/// what the first schedule prints that comes to an end. First `run` alone is judged, and then the schedule of
/// each seed; `progress` is told before each seed, of the history of each schedule that is not bad, and how a
/// bad one is made short. It is told of that of `run` also where that is bad. Schedules are tried on a
/// machine. Before one is answered the debugger runs its script, and what that leaves is judged: the text is
/// what it wrote.
///
/// A hunt that finds nothing says that `run` alone is not bad, and with what outputs were compared. No clause
/// says that each seed was tried, which schedule a seed leads to, or how many bad schedules the debugger did not
/// find bad. Faults are those of the debugger, and out of memory is H5.
pub fn hunt<H: Threads + Wait + Sync, P: Progress>(
    rt: &H,
    alloc: Global,
    source: &[u8],
    aims: &Aims<'_>,
    progress: &mut P,
) -> Result<Hunted, ShellFault>
    requires at_least_one { 0 < aims.now.workers }
    requires at_most_32 { aims.now.workers ≤ 32 }
    ensures { IfOk result (IsHuntBy aims.now source.now) }
{
    let commands = script(alloc, &[])?;
    let Ran { text, book } = run_over(rt, alloc, aims.workers, source, &commands)?;
    let Some(book) = book else {
        return Ok(Hunted::Refused(text));
    };
    progress.played(alloc, 0, book.machine())?;
    let Alone { wanted, end } = alone_of(alloc, book, aims.expected)?;
    if let Some(end) = end {
        return Ok(Hunted::Found(Found {
            seed: 0,
            workers: aims.workers,
            blocks: Vec::new(alloc),
            script: commands,
            printed: text,
            end,
            wanted,
            unconfirmed: 0,
        }));
    }
    let ground = Ground {
        workers: aims.workers,
        steps: aims.steps,
        seeds: aims.seeds,
        wanted: &wanted,
    };
    let sought = seek(&Field { rt, alloc, source }, &ground, progress)?;
    match sought.found {
        Some(found) => Ok(Hunted::Found(found)),
        None => Ok(Hunted::Nothing {
            seeds: aims.seeds,
            compared: sought.compared,
            unconfirmed: sought.unconfirmed,
            printed: text,
        }),
    }
}

// What came of the schedules of seeds.
#[derive(Drop)]
struct Sought {
    found: Option<Found>,
    // With what outputs were compared, if they were.
    compared: Option<Standard>,
    // How many bad schedules the debugger did not find bad.
    unconfirmed: u64,
}

// Tries the schedules of seeds.
fn seek<H: Threads + Wait + Sync, P: Progress>(
    field: &Field<'_, H>,
    ground: &Ground<'_>,
    progress: &mut P,
) -> Result<Sought, ShellFault>
    requires at_least_one { 0 < ground.now.workers }
    requires at_most_32 { ground.now.workers ≤ 32 }
    ensures { IfOk result (IsSought ground.now field.now.source.now) }
{
    let mut tries = Tries::over(field, ground.workers, ground.seeds.after)?;
    let sought = if ground.wanted.text.is_some() {
        compare(field, ground, &mut tries, progress)
    } else {
        settle(field, ground, &mut tries, progress)
    };
    drop(tries);
    sought
}

// Tries the schedules of seeds, where it is not known what is wanted. It is what the first of them prints that
// comes to an end.
fn settle<H: Threads + Wait + Sync, P: Progress>(
    field: &Field<'_, H>,
    ground: &Ground<'_>,
    tries: &mut Tries,
    progress: &mut P,
) -> Result<Sought, ShellFault>
    requires at_least_one { 0 < ground.now.workers }
    requires at_most_32 { ground.now.workers ≤ 32 }
    requires unknown { text_in ground.now.wanted.now.text ≡ None }
    requires begun { tries.old.seed ≡ ground.now.seeds.after }
    ensures { IfOk result (IsSought ground.now field.now.source.now) }
{
    match tries.next(field, ground, progress)? {
        Tried::Bad(found) => Ok(tries.sought(Some(found), None)),
        Tried::Nothing => Ok(tries.sought(None, None)),
        Tried::Ends { seed, output } => {
            let printed = Wanted {
                text: Some(output),
                standard: Standard::Seed(seed),
            };
            let settled = Ground {
                workers: ground.workers,
                steps: ground.steps,
                seeds: ground.seeds,
                wanted: &printed,
            };
            compare(field, &settled, tries, progress)
        }
    }
}

// Tries the schedules of later seeds, by what is wanted.
fn compare<H: Threads + Wait + Sync, P: Progress>(
    field: &Field<'_, H>,
    ground: &Ground<'_>,
    tries: &mut Tries,
    progress: &mut P,
) -> Result<Sought, ShellFault>
    requires at_least_one { 0 < ground.now.workers }
    requires at_most_32 { ground.now.workers ≤ 32 }
    requires known { is_some (text_in ground.now.wanted.now.text) ≡ true }
    ensures { IfOk result (IsComparedAfter ground.now field.now.source.now tries.old.seed) }
{
    let compared = Some(ground.wanted.standard);
    match tries.next(field, ground, progress)? {
        Tried::Bad(found) => Ok(tries.sought(Some(found), compared)),
        Tried::Nothing => Ok(tries.sought(None, compared)),
        Tried::Ends { .. } => unreachable!(),
    }
}

impl Tries {
    // What came of them.
    fn sought(&self, found: Option<Found>, compared: Option<Standard>) -> Sought
        ensures found { result.found ≡ found }
        ensures compared { result.compared ≡ compared }
    {
        Sought {
            found,
            compared,
            unconfirmed: self.unconfirmed,
        }
    }
}
