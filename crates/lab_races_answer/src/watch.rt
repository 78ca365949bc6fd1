//! Who looks for races in the histories of a hunt.

use lab_races::Race;
use lab_races_history::races_of;
use lab_races_words::{History, push_count, push_races};
use lab_replay::trace;
use lab_schedules::Progress;
use om_seq::AllocResult;
use om_shell_commands::push_numbered;
use om_undo::Machine;
use std::alloc::Global;

/// Passes on how far a hunt is, and finds the races of the first history that has some.
#[derive(Drop)]
pub struct Watch<'a, P> {
    progress: &'a mut P,
    // What is told of that history.
    raced: Option<Vec<u8>>,
}

impl<'a, P> Watch<'a, P> {
    /// No history was judged yet.
    pub fn over(progress: &'a mut P) -> Watch<'a, P> {
        Watch {
            progress,
            raced: None,
        }
    }

    /// What is told of the first history that has races: which schedule it is of, and each race with both lines.
    pub fn into_raced(self) -> Option<Vec<u8>> {
        let Watch { progress: _, raced } = self;
        raced
    }
}

impl<P: Progress> Progress for Watch<'_, P> {
    fn tell(&mut self, seed: u64, last: u64) {
        self.progress.tell(seed, last);
    }

    fn played(&mut self, alloc: Global, seed: u64, machine: &Machine) -> AllocResult<()> {
        self.progress.played(alloc, seed, machine)?;
        if self.raced.is_none() {
            self.raced = raced(alloc, seed, machine)?;
        }
        Ok(())
    }

    fn found(&mut self, words: &[u8]) {
        self.progress.found(words);
    }

    fn shortens(&mut self, blocks: usize) {
        self.progress.shortens(blocks);
    }
}

// What is told of the history of a schedule, where it has races. The only error is out of memory.
fn raced(alloc: Global, seed: u64, machine: &Machine) -> AllocResult<Option<Vec<u8>>> {
    let steps = trace(alloc, machine)?;
    let races = races_of(alloc, machine, &steps)?;
    if races.is_empty() {
        return Ok(None);
    }
    let history = History {
        program: machine.program(),
        steps: &steps,
        is_numbered: false,
    };
    Ok(Some(told(alloc, seed, &history, &races)?))
}

// What is told of races in the history of a schedule. The only error is out of memory.
fn told(
    alloc: Global,
    seed: u64,
    history: &History<'_, '_>,
    races: &[Race],
) -> AllocResult<Vec<u8>> {
    let mut text = Vec::new(alloc);
    push_schedule(&mut text, seed)?;
    push_count(&mut text, races, history.steps)?;
    text.extend_from_slice(b"\n")?;
    push_races(alloc, &mut text, history, races)?;
    Ok(text)
}

// Appends which schedule a history is of.
fn push_schedule(text: &mut Vec<u8>, seed: u64) -> AllocResult<()> {
    if seed == 0 {
        return text.extend_from_slice(b"`run`: ");
    }
    push_numbered(text, b"seed ", seed)?;
    text.extend_from_slice(b": ")
}
