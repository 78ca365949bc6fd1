//! What an instruction asks of the state, and what comes of it.

ghost use Rattle.std.specs.Prelude.{◌≡◌, []};
ghost use Rattle.om_team_serial.specs.Rows.{goes};
ghost use Rattle.om_team_serial.specs.Answers.{Gives};

use om_code::frame::{Fault, Operand};
use om_foot::Names;
use om_seq::{AllocResult, Seq};
use om_state::{Blocked, Edit, Puts, Update};
use std::alloc::Global;

/// What comes of an instruction, before its edits are made.
#[derive(Drop)]
pub enum Row {
    /// It can be taken: the edits of its worker's control, and an update for each further object
    /// that it names, or for as many as it changes.
    Goes { edits: Seq<Edit>, updates: Puts },
    /// The worker meets a fault, and nothing else changes.
    Faults(Fault),
    /// It can't be taken now.
    Blocked(Blocked),
    /// The code lacks what the instruction needs: an open region, a frame or context to go back to,
    /// a context of its kind, an int, a right step or chunk, a section.
    Lacks,
}

/// What an instruction names beside its worker's control, and what comes of the values there.
#[derive(Drop)]
pub struct Answer {
    pub names: Names,
    pub row: Row,
}

/// How an instruction begins a body.
#[derive(Clone, Copy)]
pub struct Launch {
    /// The place at which the worker goes on.
    pub to: u32,
    /// How many operands the instruction takes.
    pub takes: u32,
    /// The number of the body.
    pub body: u32,
}

impl Answer {
    /// The answer that control, program and choice decide alone. It takes no memory.
    pub fn decided(alloc: Global, row: Row) -> Answer
        ensures { result ≡ record { names = []; row = row } }
    {
        Answer {
            names: Names::new(alloc),
            row,
        }
    }
}

impl Row {
    /// The row that goes on at a place, with so many operands taken and then one pushed.
    pub fn goes(
        alloc: Global,
        to: u32,
        takes: u32,
        pushed: Option<Operand>,
        updates: Puts,
    ) -> AllocResult<Row>
        ensures { Gives result (goes to takes pushed updates) }
    {
        let edits = Seq::one(alloc, Edit::Go { to, takes, pushed })?;
        Ok(Row::Goes { edits, updates })
    }
}
