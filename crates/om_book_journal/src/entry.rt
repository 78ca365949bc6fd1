//! Entries as replies keep them: the name of a task that is started is large and rare, and lies apart.

ghost use Rattle.std.specs.Prelude.{◌≡◌, IfOk};
ghost use Rattle.om_book_journal.specs.Entries.{entry_in};

use crate::name::KeptName;
use crate::same::Same;
use om_seq::{AllocResult, Seq};
use om_task::Choice;
use om_undo::Entry;
use std::alloc::Global;
use std::marker::Model;
use std::mem::size_of;

// The parts of an entry. The small numbers stand side by side in each form: so it takes 24 bytes.
#[derive(Drop)]
enum EntryForms {
    Next {
        worker: u8,
        line: u32,
        serial: u64,
    },
    Start {
        worker: u8,
        line: u32,
        serial: u64,
        task: Box<KeptName>,
    },
}

/// An entry that stands in the history, as a reply keeps it.
///
/// Contracts see the entry alone.
#[derive(Drop)]
pub struct KeptEntry {
    forms: EntryForms,
}

// A reply has up to 200,000 of them.
const _: () = prove!(size_of::<KeptEntry>() <= 24);

impl Model for KeptEntry {
    ghost use Rattle.om_state.specs.declared.step.Entry.{Entry};
    ghost use Rattle.om_book_journal.specs.Entries.{entry_in};

    ghost Value = { Entry };

    ghost view = { λ e. entry_in e.forms };
}

// The forms of an entry, to be kept. Its only error is out of memory.
fn forms_of(alloc: Global, entry: &Entry) -> AllocResult<EntryForms>
    ensures { IfOk result (λ forms. entry_in forms ≡ entry.now) }
{
    match &entry.choice {
        Choice::Next => Ok(EntryForms::Next {
            worker: entry.worker,
            line: entry.line,
            serial: entry.serial,
        }),
        Choice::Start(task) => Ok(EntryForms::Start {
            worker: entry.worker,
            line: entry.line,
            serial: entry.serial,
            task: Box::new(alloc, KeptName::of(alloc, task)?)?,
        }),
    }
}

impl KeptEntry {
    /// An entry, to be kept; its only error is out of memory.
    pub fn of(alloc: Global, entry: &Entry) -> AllocResult<KeptEntry>
        ensures { IfOk result (λ kept. kept ≡ entry.now) }
    {
        Ok(KeptEntry {
            forms: forms_of(alloc, entry)?,
        })
    }

    /// The entry.
    pub fn get(&self) -> Entry
        ensures { result ≡ self.now }
    {
        match &self.forms {
            EntryForms::Next {
                worker,
                line,
                serial,
            } => Entry {
                serial: *serial,
                worker: *worker,
                choice: Choice::Next,
                line: *line,
            },
            EntryForms::Start {
                worker,
                line,
                serial,
                task,
            } => Entry {
                serial: *serial,
                worker: *worker,
                choice: Choice::Start(task.get()),
                line: *line,
            },
        }
    }
}

impl Same for KeptEntry {
    fn is_same(&self, other: &KeptEntry) -> bool {
        self.get().is_same(&other.get())
    }
}

/// Entries, to be kept in their order. Its only error is out of memory.
pub(crate) fn kept_entries(alloc: Global, entries: &[Entry]) -> AllocResult<Seq<KeptEntry>>
    ensures { IfOk result (λ kept. kept ≡ entries.now) }
{
    let mut kept = Vec::with_capacity(alloc, entries.len())?;
    for entry in entries {
        kept.push(KeptEntry::of(alloc, entry)?)?;
    }
    Ok(Seq::of(kept))
}
