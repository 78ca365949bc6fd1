//! The comparison of answers with the receipts of their seats, in one walk. No command needs it: gate_checks alone
//! drives seats.

ghost use Rattle.std.specs.Prelude.{◌≡◌, ◌↔◌, ◌≤◌, IsTrue, IfSome, IfNone, Some, false, length, take, vec_len};
ghost use Rattle.om_book.specs.Seats.{receipt_of};
ghost use Rattle.om_book.specs.Backing.{Has, HasAt, turn, turn_of, IsReceipted, IsBacked, KeepsBacked, Leads, LeadsRound, SameUnlessStrange};

use crate::order::{Answer, Order};
use crate::receipt::Receipt;
use crate::rounds::{most_rounds, order_at};
use crate::session::{Seat, Sitting};
use om_book_journal::{Command, Reply};

// Where the receipt of a call lies; it is looked for at `mark` first.
fn found_at(
    receipts: &[Receipt],
    mark: usize,
    place: u64,
    command: &Command,
    reply: &Reply,
) -> Option<usize>
    ensures found { IfSome result (HasAt receipts.now (receipt_of place command.now reply.now)) }
    ensures none { IfNone result (¬ Has receipts.now (receipt_of place command.now reply.now)) }
{
    if mark < receipts.len() && receipts[mark].is_of(place, command, reply) {
        return Some(mark);
    }
    for i in 0..receipts.len() {
        if receipts[i].is_of(place, command, reply) {
            return Some(i);
        }
    }
    None
}

// Whether there is the receipt of an order's command with this reply. The mark goes behind it.
fn is_receipted(
    receipts: &[Receipt],
    mark: &mut usize,
    order: &Order,
    place: Option<u64>,
    reply: &Reply,
) -> bool
    ensures { IsTrue result ↔ IsReceipted (turn receipts.now order.now) place reply.now }
{
    let Some(place) = place else {
        return false;
    };
    let Some(at) = found_at(receipts, *mark, place, &order.command, reply) else {
        return false;
    };
    *mark = at.saturating_add(1);
    true
}

// Whether an answer is that of an order, and has its receipt where it has a reply.
fn is_backed(receipts: &[Receipt], mark: &mut usize, order: &Order, answer: &Answer) -> bool
    ensures { IsTrue result ↔ IsBacked (turn receipts.now order.now) answer.now }
{
    if answer.number != order.number {
        return false;
    }
    match &answer.reply {
        Ok(reply) => is_receipted(receipts, mark, order, answer.place, reply),
        Err(_) => true,
    }
}

// Answers that are compared: those in front already, and kept.
#[derive(Drop)]
struct Walk {
    answers: Vec<Answer>,
    at: usize,
    // `false` only where no answer was left out.
    strange: bool,
}

/// What answers are compared with: the seats, and at the same index the orders that each was told.
#[derive(Drop)]
pub struct Rows<'a, L: Sitting> {
    pub seats: &'a [Seat<L>],
    pub orders: &'a [Vec<Order>],
    pub ghost paired: { length orders.now ≡ length seats.now },
}

/// What came of a comparison of answers with the receipts of their seats.
#[derive(Drop)]
pub struct KeptAnswers {
    /// The answers that are kept, in their order.
    pub answers: Vec<Answer>,
    /// `false` only where none was left out.
    pub strange: bool,
}

impl Walk {
    // Compares the next answer with an order and the receipts of its seat, and keeps it or leaves
    // it out.
    fn take_turn(&mut self, receipts: &[Receipt], mark: &mut usize, order: &Order)
        requires { self.old.at ≤ vec_len self.old.answers }
        ensures passes { Leads (turn_of receipts.now (Some order.now)) self.old self.new }
        ensures within { self.new.at ≤ vec_len self.new.answers }
        ensures same { SameUnlessStrange self.old self.new }
    {
        if self.at >= self.answers.len() {
            return;
        }
        if is_backed(receipts, mark, order, &self.answers[self.at]) {
            self.at += 1;
        } else {
            drop(self.answers.remove(self.at));
            self.strange = true;
        }
    }

    // Takes a turn where there is an order.
    fn take_turn_if(&mut self, receipts: &[Receipt], mark: &mut usize, order: Option<Order>)
        requires { self.old.at ≤ vec_len self.old.answers }
        ensures passes { Leads (turn_of receipts.now order) self.old self.new }
        ensures within { self.new.at ≤ vec_len self.new.answers }
        ensures same { SameUnlessStrange self.old self.new }
    {
        if let Some(order) = order {
            self.take_turn(receipts, mark, &order);
        }
    }

    // Takes the turns of a round. Each seat has a mark, behind its receipt that was found last.
    fn take_round<L: Sitting>(&mut self, rows: &Rows<'_, L>, marks: &mut [usize], round: usize)
        requires within { self.old.at ≤ vec_len self.old.answers }
        requires marks { length marks.old ≡ length rows.now.seats.now }
        ensures passes { LeadsRound round rows.now.seats.now rows.now.orders.now self.old self.new }
        ensures within { self.new.at ≤ vec_len self.new.answers }
        ensures same { SameUnlessStrange self.old self.new }
        ensures marks { length marks.new ≡ length marks.old }
    {
        for i in 0..rows.seats.len() {
            self.take_turn_if(
                rows.seats[i].receipts(),
                &mut marks[i],
                order_at(&rows.orders[i], round),
            );
        }
    }

    // Leaves out the answers that no order is left for.
    fn end(&mut self)
        requires { self.old.at ≤ vec_len self.old.answers }
        ensures kept { self.new.answers.items ≡ take self.old.at self.old.answers.items }
        ensures same { SameUnlessStrange self.old self.new }
    {
        if self.at < self.answers.len() {
            self.answers.truncate(self.at);
            self.strange = true;
        }
    }
}

/// Compares answers with the orders of the seats, round by round, and with the receipts of the seats.
///
/// An answer is kept where it has the number of its order and, if it has a reply, its seat has the receipt of the
/// order's command with that reply, at the answer's place. Each other one is left out, and that one alone. The marks,
/// one for each seat, say where its next receipt is sought first. They are 0 at first; whatever they are, the same
/// answers are kept.
pub fn keep_backed<L: Sitting>(
    rows: &Rows<'_, L>,
    marks: &mut [usize],
    answers: Vec<Answer>,
) -> KeptAnswers
    requires { length marks.old ≡ length rows.now.seats.now }
    ensures kept { KeepsBacked rows.now.seats.now rows.now.orders.now answers result.answers }
    ensures all { result.strange ≡ false → result.answers.items ≡ answers.items }
{
    let mut walk = Walk {
        answers,
        at: 0,
        strange: false,
    };
    let most = most_rounds(rows.orders);
    for round in 0..most {
        walk.take_round(rows, marks, round);
    }
    walk.end();
    let Walk {
        answers,
        at: _,
        strange,
    } = walk;
    KeptAnswers { answers, strange }
}
