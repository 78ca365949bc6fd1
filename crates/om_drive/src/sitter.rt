//! Seats beside their session, each as something to drive.

ghost use Rattle.std.specs.Prelude.{◌≡◌, ◌≤◌, ◌+◌, ◌++◌, [], ℕ, map, vec_len, vec_capacity};
ghost use Rattle.om_drive.specs.Calls.{place_of, last_place_in};

use crate::rounds::push_driven;
use crate::worker::Debuggee;
use om_book::{CallError, Command, Receipt, Reply, Seat, Session, Sitting};
use std::alloc::Global;
use std::sync::Wait;

/// A seat that calls its session.
#[derive(Drop)]
pub(crate) struct Sitter<'s, L: Sitting> {
    session: &'s Session<L>,
    alloc: Global,
    pub(crate) seat: Seat<L>,
}

impl<'s, L: Sitting> Debuggee for Sitter<'s, L> {
    ghost use Rattle.om_drive.specs.Calls.{place_of};

    ghost place = { λ s. place_of L.workers s.seat };

    ghost made = { λ s. s.seat.receipts };

    fn workers(&self) -> u8 {
        self.session.workers()
    }

    fn call<R: Wait>(&mut self, rt: &R, command: Command) -> Result<Reply, CallError> {
        self.session.call(rt, self.alloc, &mut self.seat, command)
    }

    fn last_place(&self) -> Option<u64> {
        last_place(self.seat.receipts())
    }
}

// The place of the last receipt.
fn last_place(receipts: &[Receipt]) -> Option<u64>
    ensures { result ≡ last_place_in receipts.now }
{
    let last = receipts.last()?;
    Some(last.place)
}

/// Sets seats down at their session, in their order.
pub(crate) fn sit_down<'s, L: Sitting>(
    session: &'s Session<L>,
    alloc: Global,
    seats: &mut Vec<Seat<L>>,
    sitters: &mut Vec<Sitter<'s, L>>,
)
    requires { vec_len sitters.old + vec_len seats.old ≤ vec_capacity sitters.old }
    ensures sitters { map (λ s. place_of L.workers s.seat) sitters.new.items
        ≡ map (λ s. place_of L.workers s.seat) sitters.old.items
        ++ map (place_of L.workers) seats.old.items }
    ensures seated { map (λ s. s.seat) sitters.new.items
        ≡ map (λ s. s.seat) sitters.old.items ++ seats.old.items }
    ensures empty { seats.new.items ≡ [] }
    ensures room { vec_capacity seats.new ≡ vec_capacity seats.old }
    ensures capacity { vec_capacity sitters.old ≤ vec_capacity sitters.new }
{
    let Some(seat) = seats.pop() else {
        return;
    };
    sit_down(session, alloc, seats, sitters);
    let sitter = Sitter {
        session,
        alloc,
        seat,
    };
    push_driven(sitters, sitter);
}

/// Takes the seats back, in their order.
pub(crate) fn stand_up<L: Sitting>(sitters: &mut Vec<Sitter<'_, L>>, seats: &mut Vec<Seat<L>>)
    requires { vec_len seats.old + vec_len sitters.old ≤ vec_capacity seats.old }
    ensures seats { map (place_of L.workers) seats.new.items
        ≡ map (place_of L.workers) seats.old.items
        ++ map (λ s. place_of L.workers s.seat) sitters.old.items }
    ensures unseated { seats.new.items ≡ seats.old.items ++ map (λ s. s.seat) sitters.old.items }
    ensures capacity { vec_capacity seats.old ≤ vec_capacity seats.new }
{
    let Some(Sitter { seat, .. }) = sitters.pop() else {
        return;
    };
    stand_up(sitters, seats);
    push_driven(seats, seat);
}
