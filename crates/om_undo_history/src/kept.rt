//! What takes the updates of a step back, as its record keeps it, and undo records as the history keeps
//! them, in its rows.

ghost use Rattle.std.specs.Prelude.{◌≡◌, ◌∷◌, [], IfSome};
ghost use Rattle.om_undo_touches.specs.Accesses.{accesses_of, Parts};
ghost use Rattle.om_undo_history.specs.Entries.{entry_by};
ghost use Rattle.om_undo_history.specs.Backs.{back_in, GoAlong};

use om_code::frame::Cell;
use om_foot::Name;
use om_seq::Seq;
use om_state::{Choice, Update, Val, Was};
use om_undo_touches::Accesses;
use std::marker::Model;
use std::mem::size_of;

/// What takes updates back at single accesses, at cells that were named at once, and at single accesses
/// behind those.
#[derive(Drop)]
pub(crate) struct BackParts {
    pub first: Vec<Update>,
    /// For each slot what its cells were.
    pub cells: Vec<Seq<Was>>,
    pub last: Vec<Update>,
}

/// What takes the updates of a step back, behind its first access. Cells that are named at once have it
/// at once.
#[derive(Drop)]
pub(crate) enum Backs {
    /// What the one cell that a step put held before. It takes no memory.
    Cell(Cell),
    Plain(Vec<Update>),
    Parts(Box<BackParts>),
}

// What a cell held, where that is all that takes updates back.
fn only_cell(updates: &[Update]) -> Option<Cell>
    ensures { IfSome result (λ cell. updates.now ≡ Update.Put (Val.Cell cell) ∷ []) }
{
    let (update, others) = updates.split_first()?;
    let Update::Put(Val::Cell(cell)) = update else {
        return None;
    };
    others.is_empty().then_some(*cell)
}

impl Backs {
    /// The same, as a record keeps it: what one cell held in place, other single updates with no room for
    /// more.
    pub(crate) fn in_place(self) -> Backs
        ensures same { back_in result ≡ back_in self }
        ensures along { (parts : Parts) → GoAlong parts self → GoAlong parts result }
    {
        let Backs::Plain(mut updates) = self else {
            return self;
        };
        match only_cell(&updates) {
            Some(cell) => {
                drop(updates);
                Backs::Cell(cell)
            }
            None => {
                updates.shrink_to_fit();
                Backs::Plain(updates)
            }
        }
    }
}

// An entry, with the name of the task that its choice starts, if it does. The small numbers stand side by
// side in each form: so it takes 24 bytes.
#[derive(Drop)]
enum EntryForms {
    Next {
        worker: u8,
        line: u32,
        serial: u64,
    },
    Start {
        worker: u8,
        line: u32,
        serial: u64,
        task: Box<Name>,
    },
}

/// An entry, as its record keeps it.
///
/// Contracts see the entry alone.
#[derive(Drop)]
pub struct SmallEntry {
    forms: EntryForms,
}

impl Model for SmallEntry {
    ghost use Rattle.om_state.specs.declared.step.Entry.{Entry};
    ghost use Rattle.om_undo_history.specs.Entries.{entry_in};

    ghost Value = { Entry };

    ghost view = { λ e. entry_in e.forms };
}

impl SmallEntry {
    /// The entry of a worker's step at a line. `start` is the name of the task that its choice starts, if it
    /// does.
    pub(crate) fn of(worker: u8, line: u32, serial: u64, start: Option<Box<Name>>) -> SmallEntry
        ensures { result ≡ entry_by worker line serial start }
    {
        let forms = match start {
            None => EntryForms::Next {
                worker,
                line,
                serial,
            },
            Some(task) => EntryForms::Start {
                worker,
                line,
                serial,
                task,
            },
        };
        SmallEntry { forms }
    }

    /// Its worker.
    pub(crate) fn worker(&self) -> u8
        ensures { result ≡ self.now.worker }
    {
        match &self.forms {
            EntryForms::Next { worker, .. } => *worker,
            EntryForms::Start { worker, .. } => *worker,
        }
    }
}

// Each record has one.
const _: () = prove!(size_of::<SmallEntry>() <= 24);

/// An undo record. It shares the accesses of its footprint with other records, so that each access takes 8
/// bytes. What takes updates back goes along with the footprint, part by part.
///
/// Contracts see the record alone.
#[derive(Drop)]
pub struct Kept {
    entry: SmallEntry,
    footprint: Accesses,
    back: Backs,
}

impl Model for Kept {
    ghost use Rattle.om_undo_touches.specs.Accesses.{accesses_of};
    ghost use Rattle.om_undo_history.specs.declared.records.UndoRecord.{UndoRecord};
    ghost use Rattle.om_undo_history.specs.Backs.{back_in, GoAlong};

    ghost Value = { UndoRecord };

    ghost view = { λ k. record { entry = k.entry; footprint = accesses_of k.footprint; back = back_in k.back } };

    ghost invariant = { λ k. GoAlong k.footprint k.back };
}

impl Kept {
    ghost use Rattle.om_undo_history.specs.Backs.{back_in, record_of, GoAlong};

    /// The record of an entry with this footprint, and what takes its updates back.
    pub(crate) fn of(entry: SmallEntry, footprint: Accesses, back: Backs) -> Kept
        requires { GoAlong footprint back }
        ensures { result ≡ record_of entry footprint back }
    {
        Kept {
            entry,
            footprint,
            back,
        }
    }

    /// The serial of its entry.
    pub fn serial(&self) -> u64
        ensures { result ≡ self.now.entry.serial }
    {
        match &self.entry.forms {
            EntryForms::Next { serial, .. } => *serial,
            EntryForms::Start { serial, .. } => *serial,
        }
    }

    /// The worker of its entry.
    pub fn worker(&self) -> u8
        ensures { result ≡ self.now.entry.worker }
    {
        self.entry.worker()
    }

    /// The choice of its entry.
    pub fn choice(&self) -> Choice
        ensures { result ≡ self.now.entry.choice }
    {
        match &self.entry.forms {
            EntryForms::Next { .. } => Choice::Next,
            EntryForms::Start { task, .. } => Choice::Start(**task),
        }
    }

    /// The line of its entry.
    pub fn line(&self) -> u32
        ensures { result ≡ self.now.entry.line }
    {
        match &self.entry.forms {
            EntryForms::Next { line, .. } => *line,
            EntryForms::Start { line, .. } => *line,
        }
    }

    /// Its footprint.
    pub fn footprint(&self) -> &Accesses
        ensures { accesses_of result.now ≡ self.now.footprint }
    {
        &self.footprint
    }

    /// Its footprint, and what takes its updates back. It takes no memory.
    pub(crate) fn into_changes(self) -> (Accesses, Backs)
        ensures footprint { accesses_of result.0 ≡ self.footprint }
        ensures back { back_in result.1 ≡ self.back }
        ensures along { GoAlong result.0 result.1 }
    {
        let Kept {
            entry: _,
            footprint,
            back,
        } = self;
        (footprint, back)
    }
}
