//! Whether two values are the same: numbers, options and lists, what code works on, names, entries, and
//! replies of the machine.

ghost use Rattle.std.specs.Prelude.{◌≡◌, ◌↔◌, IsTrue};

use om_code::frame::{Cell, Fault, Operand};
use om_foot::{Name, Shared};
use om_seq::{Pile, Seq};
use om_state::SharedPile;
use om_undo::Entry;
use om_undo_history::{RollReply, StepReply, Taken, UndoReply};

/// A type whose values can be told apart at run time: every part of them counts.
pub trait Same {
    /// Whether two values are the same value.
    fn is_same(&self, other: &Self) -> bool
        ensures { IsTrue result ↔ (self.now ≡ other.now) };
}

impl Same for u8 {
    fn is_same(&self, other: &u8) -> bool {
        *self == *other
    }
}

impl Same for u64 {
    fn is_same(&self, other: &u64) -> bool {
        *self == *other
    }
}

impl<T: Same> Same for Option<T> {
    fn is_same(&self, other: &Option<T>) -> bool {
        match (self, other) {
            (None, None) => true,
            (Some(one), Some(two)) => one.is_same(two),
            _ => false,
        }
    }
}

impl<T: Same> Same for Shared<T> {
    fn is_same(&self, other: &Shared<T>) -> bool {
        self.get().is_same(other.get())
    }
}

impl<T: Same> Same for SharedPile<T> {
    fn is_same(&self, other: &SharedPile<T>) -> bool {
        self.shares().is_same(other.shares())
    }
}

/// Whether two slices have the same items, in the same order.
pub fn same_items<T: Same>(ones: &[T], others: &[T]) -> bool
    ensures { IsTrue result ↔ (ones.now ≡ others.now) }
{
    if ones.len() != others.len() {
        return false;
    }
    for i in 0..ones.len() {
        if !ones[i].is_same(&others[i]) {
            return false;
        }
    }
    true
}

impl<T: Same> Same for Seq<T> {
    fn is_same(&self, other: &Seq<T>) -> bool {
        same_items(self.as_slice(), other.as_slice())
    }
}

impl<T: Same> Same for Pile<T> {
    fn is_same(&self, other: &Pile<T>) -> bool {
        same_items(self.as_slice(), other.as_slice())
    }
}

impl Same for Operand {
    fn is_same(&self, other: &Operand) -> bool {
        self == other
    }
}

impl Same for Cell {
    fn is_same(&self, other: &Cell) -> bool {
        self == other
    }
}

impl Same for Fault {
    fn is_same(&self, other: &Fault) -> bool {
        self == other
    }
}

impl Same for Name {
    fn is_same(&self, other: &Name) -> bool {
        self.as_slice() == other.as_slice()
    }
}

impl Same for Entry {
    fn is_same(&self, other: &Entry) -> bool {
        self.serial == other.serial
            && self.worker == other.worker
            && self.choice == other.choice
            && self.line == other.line
    }
}

impl Same for StepReply {
    fn is_same(&self, other: &StepReply) -> bool {
        self == other
    }
}

impl Same for UndoReply {
    fn is_same(&self, other: &UndoReply) -> bool {
        self == other
    }
}

impl Same for Taken {
    fn is_same(&self, other: &Taken) -> bool {
        self == other
    }
}

impl Same for RollReply {
    fn is_same(&self, other: &RollReply) -> bool {
        match (self, other) {
            (RollReply::Rolled(one), RollReply::Rolled(two)) => one.is_same(two),
            (RollReply::NoEntry, RollReply::NoEntry) => true,
            _ => false,
        }
    }
}
