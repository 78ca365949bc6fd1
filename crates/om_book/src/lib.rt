//! Sessions: a machine beside the journal of its calls; seats that share it under a lock; rounds of orders; receipts.
//!
//! - `book` has the journal over a machine: 200,000 records at most. `call` and `undo` answer by the record
//!   alone, where the caller reads the reply. `take` makes a planned step, and answers its reply too.
//!   `apply_with_copy` answers the reply twice, for a seat; `apply` answers it once, and gate_checks alone
//!   calls it.
//! - `session` has the lock and the seats (`Session`, `Seat`), through which threads call one book. `receipt`
//!   has what a seat remembers of a call (`Receipt`), and which receipts stand in a journal.
//! - `order` has numbered calls and their answers (`Order`, `Answer`), `rounds` the order in which they come,
//!   and `numbers_differ` says whether the numbers differ. `backing` keeps the answers that the receipts of
//!   the seats back. Drives need these: no command does.
//! - `specs/Crossing` says that a session may be shared by threads.
//!
//! The commands, replies and records of om_book_journal are at this root too. Checks: gate_checks, of books
//! and seats.
#![tactic(auto)]

mod backing;
mod book;
mod order;
mod receipt;
mod rounds;
mod session;

pub use backing::{KeptAnswers, Rows, keep_backed};
pub use book::{Book, CallError, MAX_RECORDS};
pub use om_book_journal::{
    Command, JournalRecord, KeptCommand, KeptEntry, KeptName, KeptUndoReply, Query, Reply, ReplyIn,
};
pub use order::{Answer, Fault, Order};
pub use receipt::Receipt;
pub use rounds::{most_rounds, numbers_differ, order_at};
pub use session::{Blank, Closed, NotOpened, Seat, Session, Sitting, Unclosed};
