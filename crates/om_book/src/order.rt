//! Orders, their answers, and what breaks a drive off.

ghost use Rattle.std.specs.Prelude.{◌↔◌, IsSome, IsOk};

use crate::book::CallError;
use om_book_journal::{Command, Reply};

/// A call that a worker is told to make.
#[derive(Clone, Copy)]
pub struct Order {
    /// Its answer has this number. The orders of one drive have different ones.
    pub number: u64,
    pub command: Command,
}

/// What came of an order.
#[derive(Drop)]
pub struct Answer {
    /// The number of its order.
    pub number: u64,
    /// What the call replied, or why it was not made.
    pub reply: Result<Reply, CallError>,
    /// Whether the worker went on without a yes of its gate (`om_drive::Gate`).
    pub late: bool,
    /// The place of its record in the journal; none exactly where the reply is an error.
    pub place: Option<u64>,
    pub ghost placed: { IsSome place ↔ IsOk reply },
}

/// What breaks a drive off.
#[derive(Clone, Copy)]
pub enum Fault {
    /// V1: an answer of a strange number, or one for which its seat has no receipt.
    Strange,
    /// V2: a channel was closed, as where an order names a worker that there is not.
    Closed,
    /// V3: there was no memory, or no thread.
    Memory,
}
