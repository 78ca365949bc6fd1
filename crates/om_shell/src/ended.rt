//! Why a run stops before its end, how it ended, and how a program ends.

ghost use Rattle.std.specs.Prelude.{◌≡◌, None, Some};
ghost use Rattle.om_shell.specs.Outcomes.{status_of};

use om_book::Book;
use std::alloc::AllocError;
use thiserror::Error;

/// A fault of a run. The run is over then, and nothing of it is kept but what was written.
///
/// Its text is what the program writes on standard error.
#[derive(Clone, Copy, Debug, Drop, PartialEq, Eq, Error)]
pub enum ShellFault {
    /// A read failed, or 2^32 reads were made in this run.
    #[error("H3")]
    Read,
    /// A write or a flush failed, or a write took no byte.
    #[error("H4")]
    Write,
    /// There was no memory, wherever it was asked for, no thread for a free run, or a receipt of one
    /// did not stand.
    #[error("H5")]
    Memory,
}

impl From<AllocError> for ShellFault {
    ghost use Rattle.om_shell.specs.declared.ended.ShellFault.{ShellFault};

    ghost from_gives = { λ _ fault. fault ≡ ShellFault.Memory };

    fn from(_error: AllocError) -> ShellFault {
        ShellFault::Memory
    }
}

// The exit status after an accepted source, and after a refused one.
const ACCEPTED: u8 = 0;

const REFUSED: u8 = 1;

/// How a run ended.
#[derive(Drop)]
pub struct Ended {
    /// The exit status: 0, or 1 where the source was refused.
    pub status: u8,
    /// The book of the commands; `None` where the source was refused.
    pub book: Option<Book>,
}

impl Ended {
    /// The exit status alone. gate_cases alone calls it.
    pub fn into_status(self) -> u8
        ensures { result ≡ self.status }
    {
        let Ended { status, book } = self;
        drop(book);
        status
    }

    /// The end of a run of an accepted source.
    pub(crate) fn accepted(book: Book) -> Ended
        ensures status { result.status ≡ 0 }
        ensures book { result.book ≡ Some book }
    {
        Ended {
            status: ACCEPTED,
            book: Some(book),
        }
    }

    /// The end of a run of a refused source.
    pub(crate) fn refused() -> Ended
        ensures status { result.status ≡ 1 }
        ensures book { result.book ≡ None }
    {
        Ended {
            status: REFUSED,
            book: None,
        }
    }
}

/// How the program ends.
#[derive(Clone, Copy)]
pub enum Outcome {
    /// The run came to its end, with this status: 0, or 1 where the source was refused.
    Ran(u8),
    /// The words were wrong, or asked for help, and nothing was run.
    Words,
    /// A fault broke the run off.
    Fault(ShellFault),
}

/// The exit status: 0 or 1 of a run, 2 for words, 3 for a fault.
pub fn status(outcome: Outcome) -> u8
    ensures { result ≡ status_of outcome }
{
    match outcome {
        Outcome::Ran(status) => status,
        Outcome::Words => 2,
        Outcome::Fault(_) => 3,
    }
}
