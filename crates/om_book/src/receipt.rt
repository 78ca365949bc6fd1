//! Receipts: what a seat remembers of its calls, and which receipts stand in a journal.

ghost use Rattle.std.specs.Prelude.{◌≡◌, ◌≤◌, ◌↔◌, IsTrue, length};
ghost use Rattle.om_book.specs.Seats.{receipt_of};
ghost use Rattle.om_book.specs.Standing.{Stands, Counts};

use om_book_journal::{Command, JournalRecord, KeptCommand, Reply, Same};
use std::mem::size_of;

/// A call of a seat that was answered.
#[derive(Drop)]
pub struct Receipt {
    /// The place of its record in the whole journal, from 0.
    pub place: u64,
    pub command: KeptCommand,
    pub reply: Reply,
}

// A seat has one for each of its calls.
const _: () = prove!(size_of::<Receipt>() <= 100);

impl Receipt {
    /// Whether it says that this command was answered this reply, with its record at this place.
    pub(crate) fn is_of(&self, place: u64, command: &Command, reply: &Reply) -> bool
        ensures { IsTrue result ↔ (self.now ≡ receipt_of place command.now reply.now) }
    {
        self.place == place && self.command.get().is_same(command) && self.reply.is_same(reply)
    }
}

// Whether a receipt's place is below neither the opening nor `low`, and the seat's call is recorded
// there as the receipt says.
fn stands(journal: &[JournalRecord], seat: u8, opened: usize, low: u128, receipt: &Receipt) -> bool
    requires { length journal.now ≤ 200000 }
    ensures { IsTrue result ↔ Stands journal.now seat opened low receipt.now }
{
    if receipt.place < opened as u64 || u128::from(receipt.place) < low {
        return false;
    }
    let Some(made) = journal.get(receipt.place as usize) else {
        return false;
    };
    made.seat() == seat
        && made.command().is_same(&receipt.command.get())
        && made.has_reply(&receipt.reply)
}

/// How many receipts of a seat stand from `opened` on, each above the one before.
pub(crate) fn standing(
    journal: &[JournalRecord],
    seat: u8,
    opened: usize,
    receipts: &[Receipt],
) -> usize
    requires { length journal.now ≤ 200000 }
    ensures counts { Counts journal.now seat opened opened receipts.now result }
    ensures most { result ≤ length receipts.now }
{
    let mut low = opened as u128;
    let mut standing = 0;
    for receipt in receipts {
        if stands(journal, seat, opened, low, receipt) {
            standing += 1;
        }
        low = u128::from(receipt.place) + 1;
    }
    standing
}
