//! What a frame works on, and why it can't go on.

ghost use Rattle.std.specs.Prelude.{◌≡◌, reverse, slice_get, option_map};
ghost use Rattle.om_code.specs.Faults.{fault_number};

use std::marker::Model;

/// What stands on a frame's stack.
#[derive(Clone, Copy, PartialEq, Eq)]
pub enum Operand {
    /// A value of the type `int`, of 32 bits.
    Int(i32),
    /// What a call gives whose function returned no value.
    NoValue,
}

/// The operands of a frame as they are seen, whoever keeps them.
///
/// Contracts see the list of them, the top one first.
#[derive(Drop)]
pub struct Operands<'a> {
    items: &'a [Operand],
}

impl<'a> Model for Operands<'a> {
    ghost use Rattle.std.specs.Prelude.{List, reverse};
    ghost use Rattle.om_code.specs.declared.frame.Operand.{Operand};

    ghost Value = { List Operand };

    ghost view = { λ o. reverse o.items.now };
}

impl<'a> Operands<'a> {
    /// The operands of a slice, the last one on top.
    pub fn of(items: &'a [Operand]) -> Operands<'a>
        ensures { result ≡ reverse items.now }
    {
        Operands { items }
    }

    /// The operands as a slice, the top one last.
    pub fn as_slice(&self) -> &[Operand]
        ensures { reverse result.now ≡ self.now }
    {
        self.items
    }

    /// The top operand; `None` exactly where there is none.
    pub fn top(&self) -> Option<&Operand>
        ensures { option_map (λ t. t.now) result ≡ slice_get self.now 0 }
    {
        self.items.last()
    }
}

/// What a cell of a variable holds.
#[derive(Clone, Copy, PartialEq, Eq)]
pub enum Cell {
    /// Nothing was put there since its declaration.
    Unset,
    Int(i32),
    /// Its frame has ended.
    Dead,
}

/// Why a worker can't go on: a case that C17 or OpenMP 5.2 leaves undefined, or a limit that was met.
#[derive(Clone, Copy, PartialEq, Eq)]
pub enum Fault {
    /// F1: a result that is no `int` (C17 6.5p5).
    Overflow,
    /// F2: a divisor that is 0 (C17 6.5.5p5).
    ZeroDivisor,
    /// F3: an index outside its array (C17 6.5.6p8).
    Index,
    /// F4: a cell is read before anything was put there (C17 6.3.2.1p2).
    Unset,
    /// F5: a cell whose frame has ended (C17 6.2.4p2).
    Dead,
    /// F6: the value of a function that returned none is used (C17 6.9.1p12).
    NoValue,
    /// F7: more than 1,000 frames in a task.
    Frames,
    /// F8: the number of threads asked for is not positive (OpenMP 5.2, 10.1.2).
    Size,
    /// F9: a barrier or a worksharing region met in an explicit task, or inside a worksharing,
    /// masked or critical region (OpenMP 5.2, 17.1).
    Nesting,
    /// F10: a name of more than 64 numbers.
    Name,
}

impl Fault {
    /// Its number: 1 for F1.
    pub fn number(self) -> u8
        ensures { result ≡ fault_number self }
    {
        match self {
            Fault::Overflow => 1,
            Fault::ZeroDivisor => 2,
            Fault::Index => 3,
            Fault::Unset => 4,
            Fault::Dead => 5,
            Fault::NoValue => 6,
            Fault::Frames => 7,
            Fault::Size => 8,
            Fault::Nesting => 9,
            Fault::Name => 10,
        }
    }
}
