//! Schedules that are tried, seed after seed, and shown by the debugger.

ghost use Rattle.std.specs.Prelude.{◌≡◌, ◌<◌, ◌≤◌, IfOk, IfSome, OnOk};
ghost use Rattle.lab_judge.specs.Texts.{text_in};
ghost use Rattle.lab_hunt.specs.Tries.{IsEnding, IsTriedOn};

use lab_judge::{Came, came_of};
use lab_play::{Chances, Ground, Schedule};
use lab_schedules::{Found, Progress, script};
use lab_script::{Ran, run_over};
use om_frontend::program_of;
use om_shell::ShellFault;
use std::alloc::Global;
use std::sync::Wait;
use std::thread::Threads;

/// Where schedules are tried: the source is that of an accepted program.
#[derive(Drop)]
pub(crate) struct Field<'a, H> {
    pub(crate) rt: &'a H,
    pub(crate) alloc: Global,
    pub(crate) source: &'a [u8],
}

/// What came of the schedules that were tried.
#[derive(Drop)]
pub(crate) enum Tried {
    /// The last of them is bad.
    Bad(Found),
    /// The last of them, of this seed, came to an end and printed this, where it is not known what is wanted.
    Ends { seed: u64, output: Vec<u8> },
    /// All were tried.
    Nothing,
}

/// How far schedules were tried.
#[derive(Drop)]
pub(crate) struct Tries {
    chances: Chances,
    /// The last seed that was tried; before the first, the one before it.
    pub(crate) seed: u64,
    /// How many bad schedules the debugger did not find bad.
    pub(crate) unconfirmed: u64,
}

impl Tries {
    /// None was tried of the seeds after this one. The source was accepted before, so only memory can be short.
    pub(crate) fn over<H>(
        field: &Field<'_, H>,
        workers: u8,
        after: u64,
    ) -> Result<Tries, ShellFault>
        requires at_least_one { 1 ≤ workers }
        requires at_most_32 { workers ≤ 32 }
        ensures { IfOk result (λ tries. tries.seed ≡ after) }
    {
        match program_of(field.alloc, field.source) {
            Ok(program) => Ok(Tries {
                chances: Chances::new(field.alloc, program, workers)?,
                seed: after,
                unconfirmed: 0,
            }),
            Err(_) => Err(ShellFault::Memory),
        }
    }

    /// Tries the schedules of later seeds, up to one that is bad, or that comes to an end where it is not known what
    /// is wanted.
    pub(crate) fn next<H: Threads + Wait + Sync, P: Progress>(
        &mut self,
        field: &Field<'_, H>,
        ground: &Ground<'_>,
        progress: &mut P,
    ) -> Result<Tried, ShellFault>
        requires at_least_one { 0 < ground.now.workers }
        requires at_most_32 { ground.now.workers ≤ 32 }
        ensures { IfOk result
            (IsTriedOn field.now.source.now ground.now self.old.seed self.new.seed) }
    {
        'schedules: for _ in 0..ground.seeds.last {
            let next = self.chances.next(field.alloc, ground, self.seed, progress)?;
            let Some(schedule) = next else {
                return Ok(Tried::Nothing);
            };
            if let Some(tried) = self.show(field, ground, schedule)? {
                return Ok(tried);
            }
        }
        Ok(Tried::Nothing)
    }

    // Has the debugger show a later schedule, and notes its seed, and whether it is bad and was not found so.
    fn show<H: Threads + Wait + Sync>(
        &mut self,
        field: &Field<'_, H>,
        ground: &Ground<'_>,
        schedule: Schedule,
    ) -> Result<Option<Tried>, ShellFault>
        requires at_least_one { 0 < ground.now.workers }
        requires at_most_32 { ground.now.workers ≤ 32 }
        requires later { self.old.seed < schedule.seed }
        requires within { schedule.seed ≤ ground.now.seeds.last }
        ensures tried { IfOk result (λ tried. IfSome tried
            (IsTriedOn field.now.source.now ground.now self.old.seed self.new.seed)) }
        ensures later { OnOk result (self.old.seed < self.new.seed) }
    {
        let (seed, is_bad) = (schedule.seed, schedule.is_bad);
        let tried = self.shown(field, ground, schedule)?;
        self.note(seed, is_bad && !is_bad_too(&tried));
        Ok(tried)
    }

    // What the debugger shows of a later schedule, where that is bad, or comes to an end and it is not known what
    // is wanted.
    fn shown<H: Threads + Wait + Sync>(
        &self,
        field: &Field<'_, H>,
        ground: &Ground<'_>,
        schedule: Schedule,
    ) -> Result<Option<Tried>, ShellFault>
        requires at_least_one { 0 < ground.now.workers }
        requires at_most_32 { ground.now.workers ≤ 32 }
        requires later { self.now.seed < schedule.seed }
        requires within { schedule.seed ≤ ground.now.seeds.last }
        ensures { IfOk result (λ tried. IfSome tried
            (IsTriedOn field.now.source.now ground.now self.now.seed schedule.seed)) }
    {
        let alloc = field.alloc;
        let commands = script(alloc, &schedule.blocks)?;
        let Ran { text, book } = run_over(
            field.rt,
            alloc,
            ground.workers,
            field.source,
            &commands,
        )?;
        let Some(book) = book else {
            return Ok(None);
        };
        let Came { end, output } = came_of(alloc, book, ground.wanted)?;
        let Some(end) = end else {
            return Ok(ending(ground, schedule.seed, output));
        };
        let wanted = ground.wanted.copy()?;
        Ok(Some(Tried::Bad(Found {
            seed: schedule.seed,
            workers: ground.workers,
            blocks: schedule.blocks,
            script: commands,
            printed: text,
            end,
            wanted,
            unconfirmed: self.unconfirmed,
        })))
    }

    // Notes the last seed, and one more schedule that was not found bad, if that is so.
    fn note(&mut self, seed: u64, is_unconfirmed: bool)
        ensures { self.new.seed ≡ seed }
    {
        self.seed = seed;
        if is_unconfirmed {
            self.unconfirmed = self.unconfirmed.saturating_add(1);
        }
    }
}

// Whether a schedule was found bad.
fn is_bad_too(tried: &Option<Tried>) -> bool {
    matches!(tried, Some(Tried::Bad(_)))
}

// That the schedule of a seed came to an end, where it is not known what is wanted.
fn ending(ground: &Ground<'_>, seed: u64, output: Option<Vec<u8>>) -> Option<Tried>
    ensures { IfSome result (IsEnding ground.now seed (text_in output)) }
{
    if ground.wanted.text.is_some() {
        return None;
    }
    let Some(output) = output else {
        return None;
    };
    Some(Tried::Ends { seed, output })
}
