//! Edits of a frame, each with what takes it back.

ghost use Rattle.std.specs.Prelude.{◌≡◌, None, IfOk, OnOk, OnErr};
ghost use Rattle.om_memory.specs.Plain.{plain_frame};
ghost use Rattle.om_memory.specs.Changed.{first_frame, HasGone};
ghost use Rattle.om_memory.specs.Inverses.{passed_back, went_back, CanPassBack, CanGoBack};

use crate::control::{Frame, Laid, Passed, Went};
use crate::tape::Tape;
use om_code::frame::Operand;
use om_foot::Shared;
use om_seq::{AllocResult, Seq};
use om_state::Home;
use std::alloc::Global;
use std::mem;

/// A frame at the first instruction of a body; the only error is out of memory.
pub(crate) fn new_frame(
    alloc: Global,
    body: u32,
    ordinal: u64,
    homes: Shared<Seq<Home>>,
) -> AllocResult<Box<Frame>>
    ensures { IfOk result (λ b. plain_frame b.value ≡ first_frame body ordinal homes) }
{
    let frame = Frame {
        body,
        next: 0,
        ordinal,
        operands: Tape::of(Vec::new(alloc)),
        homes,
    };
    Ok(Box::new(alloc, frame)?)
}

impl Frame {
    /// Goes to a place, with so many operands taken, or all where there are fewer. It takes no memory.
    pub fn pass(&mut self, to: u32, takes: u32) -> Passed
        ensures changed { HasGone to takes None self.old self.new }
        ensures can { CanPassBack result self.new }
        ensures back { passed_back result self.new ≡ self.old }
    {
        let took = self.operands.len().min(takes as usize);
        self.operands.lower(took);
        let from = mem::replace(&mut self.next, to);
        Passed {
            from,
            took: took as u32,
        }
    }

    /// Goes back from a place where no operand was pushed. It takes no memory.
    pub fn pass_back(&mut self, passed: Passed)
        requires { CanPassBack passed self.old }
        ensures { self.new ≡ passed_back passed self.old }
    {
        self.next = passed.from;
        self.operands.raise(passed.took as usize);
    }

    /// Goes to a place, with so many operands taken and then one pushed. When out of memory, nothing
    /// changes.
    pub fn go(&mut self, to: u32, takes: u32, pushed: Option<Operand>) -> AllocResult<Went>
        ensures changed { OnOk result (HasGone to takes pushed self.old self.new) }
        ensures can { IfOk result (λ w. CanGoBack w self.new) }
        ensures back { IfOk result (λ w. went_back w self.new ≡ self.old) }
        ensures unchanged_on_error { OnErr result (self.new ≡ self.old) }
    {
        let passed = self.pass(to, takes);
        let Some(operand) = pushed else {
            return Ok(Went {
                passed,
                laid: Laid::Nothing,
            });
        };
        match self.operands.push(operand) {
            Ok(over) => Ok(Went {
                passed,
                laid: Laid::Pushed(over),
            }),
            Err(error) => {
                self.pass_back(passed);
                Err(error)
            }
        }
    }

    /// Goes back from a place. It takes no memory.
    pub fn go_back(&mut self, went: Went)
        requires { CanGoBack went self.old }
        ensures { self.new ≡ went_back went self.old }
    {
        match went.laid {
            Laid::Pushed(over) => self.operands.unpush(over),
            Laid::Nothing => {}
        }
        self.pass_back(went.passed);
    }
}
