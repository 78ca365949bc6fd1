//! Edits of a context, each with what takes it back.

ghost use Rattle.std.specs.Prelude.{◌≡◌, ◌<◌, ◌+◌, ◌^◌, [], IfOk, OnOk, OnErr};
ghost use Rattle.om_state.specs.Edits.{context_at, Counts};
ghost use Rattle.om_memory.specs.Plain.{stack_of};
ghost use Rattle.om_memory.specs.Changed.{HasTurned, IsNext, IsEdited, begun_from, frame_ended};
ghost use Rattle.om_memory.specs.Changed.{region_opened, region_closed, region_replaced};
ghost use Rattle.om_memory.specs.Inverses.{turned_back, CanTurnBack, TurnsContext};

use crate::control::{Context, Frame, Inverse};
use crate::frame::new_frame;
use om_code::frame::Operand;
use om_foot::Shared;
use om_seq::AllocResult;
use om_state::{Construct, Edit};
use std::alloc::Global;

impl Context {
    /// The running frame goes to a place, with so many operands taken and then one pushed. When out
    /// of memory, nothing changes.
    pub fn go(&mut self, to: u32, takes: u32, pushed: Option<Operand>) -> AllocResult<Inverse>
        ensures changed { OnOk result (HasTurned (context_at to takes pushed) self.old self.new) }
        ensures can { IfOk result (λ i. CanTurnBack i self.new) }
        ensures back { IfOk result (λ i. turned_back i self.new ≡ self.old) }
        ensures unchanged_on_error { OnErr result (self.new ≡ self.old) }
    {
        match self.frame.go(to, takes, pushed) {
            Ok(went) => Ok(Inverse::Went(went)),
            Err(error) => Err(error),
        }
    }

    /// The running frame goes to a place, with so many operands taken, and waits there. The given frame
    /// runs from now on, at its first instruction. When out of memory, nothing changes.
    pub fn begin_frame(&mut self, to: u32, takes: u32, frame: Box<Frame>) -> AllocResult<Inverse>
        requires counts { self.old.frames + 1 < 2 ^ 64 }
        requires next { IsNext self.old frame.value }
        ensures changed { OnOk result (HasTurned (begun_from to takes frame.value) self.old self.new) }
        ensures can { IfOk result (λ i. CanTurnBack i self.new) }
        ensures back { IfOk result (λ i. turned_back i self.new ≡ self.old) }
        ensures unchanged_on_error { OnErr result (self.new ≡ self.old) }
    {
        let passed = self.frame.pass(to, takes);
        match self.callers.push_under(frame, &mut self.frame) {
            Ok(over) => {
                self.frames += 1;
                Ok(Inverse::BeganFrame(passed, over))
            }
            Err(error) => {
                self.frame.pass_back(passed);
                Err(error)
            }
        }
    }

    /// The running frame ends, with a value for the one that waits for it; where none waits, nothing
    /// changes. When out of memory, nothing changes.
    pub fn end_frame(&mut self, value: Operand) -> AllocResult<Inverse>
        ensures changed { OnOk result (HasTurned (frame_ended value) self.old self.new) }
        ensures can { IfOk result (λ i. CanTurnBack i self.new) }
        ensures back { IfOk result (λ i. turned_back i self.new ≡ self.old) }
        ensures unchanged_on_error { OnErr result (self.new ≡ self.old) }
    {
        if self.callers.len() == 0 {
            return Ok(Inverse::Same);
        }
        self.callers.swap_down(&mut self.frame);
        match self.frame.operands.push(value) {
            Ok(over) => Ok(Inverse::EndedFrame(over)),
            Err(error) => {
                self.callers.swap_up(&mut self.frame);
                Err(error)
            }
        }
    }

    /// Enters a region. When out of memory, nothing changes.
    pub fn open(&mut self, construct: Shared<Construct>) -> AllocResult<Inverse>
        ensures changed { OnOk result (HasTurned (region_opened construct) self.old self.new) }
        ensures can { IfOk result (λ i. CanTurnBack i self.new) }
        ensures back { IfOk result (λ i. turned_back i self.new ≡ self.old) }
        ensures unchanged_on_error { OnErr result (self.new ≡ self.old) }
    {
        match self.constructs.push(construct) {
            Ok(over) => Ok(Inverse::Opened(over)),
            Err(error) => Err(error),
        }
    }

    /// Leaves the innermost region, if it is in one. It takes no memory.
    pub fn close(&mut self) -> Inverse
        ensures changed { HasTurned region_closed self.old self.new }
        ensures can { CanTurnBack result self.new }
        ensures back { turned_back result self.new ≡ self.old }
    {
        if self.constructs.len() == 0 {
            return Inverse::Same;
        }
        self.constructs.lower(1);
        Inverse::Closed
    }

    /// Has another region in the place of the innermost one, or enters it where it is in none. When
    /// out of memory, nothing changes.
    pub fn replace(&mut self, mut construct: Shared<Construct>) -> AllocResult<Inverse>
        ensures changed { OnOk result (HasTurned (region_replaced construct) self.old self.new) }
        ensures can { IfOk result (λ i. CanTurnBack i self.new) }
        ensures back { IfOk result (λ i. turned_back i self.new ≡ self.old) }
        ensures unchanged_on_error { OnErr result (self.new ≡ self.old) }
    {
        if self.constructs.len() == 0 {
            return self.open(construct);
        }
        self.constructs.swap_top(&mut construct);
        Ok(Inverse::Replaced(construct))
    }

    /// Makes an edit of the context. When out of memory, nothing changes.
    pub(crate) fn apply(&mut self, alloc: Global, edit: Edit) -> AllocResult<Inverse>
        requires turns { TurnsContext edit }
        requires counts { Counts edit (stack_of self.old []) }
        ensures changed { OnOk result (IsEdited edit self.old self.new) }
        ensures can { IfOk result (λ i. CanTurnBack i self.new) }
        ensures back { IfOk result (λ i. turned_back i self.new ≡ self.old) }
        ensures unchanged_on_error { OnErr result (self.new ≡ self.old) }
    {
        match edit {
            Edit::Go { to, takes, pushed } => self.go(to, takes, pushed),
            Edit::BeginFrame {
                to,
                takes,
                body,
                homes,
            } => {
                let frame = new_frame(alloc, body, self.frames, homes)?;
                self.begin_frame(to, takes, frame)
            }
            Edit::EndFrame(value) => self.end_frame(value),
            Edit::Open(construct) => self.open(construct),
            Edit::Close => Ok(self.close()),
            Edit::Replace(construct) => self.replace(construct),
            Edit::CountBirth => {
                self.births += 1;
                Ok(Inverse::CountedBirth)
            }
            Edit::CountRegion => {
                self.regions += 1;
                Ok(Inverse::CountedRegion)
            }
            Edit::CountPhase => {
                self.phase += 1;
                Ok(Inverse::CountedPhase)
            }
            Edit::BeginContext(_) | Edit::EndContext | Edit::Fail(_) | Edit::End(_) => {
                unreachable!()
            }
        }
    }

    /// Takes an edit back. It takes no memory.
    pub fn turn_back(&mut self, inverse: Inverse)
        requires { CanTurnBack inverse self.old }
        ensures { self.new ≡ turned_back inverse self.old }
    {
        match inverse {
            Inverse::Same => {}
            Inverse::Went(went) => self.frame.go_back(went),
            Inverse::BeganFrame(passed, over) => {
                self.frames -= 1;
                self.callers.unpush_under(over, &mut self.frame);
                self.frame.pass_back(passed);
            }
            Inverse::EndedFrame(over) => {
                self.frame.operands.unpush(over);
                self.callers.swap_up(&mut self.frame);
            }
            Inverse::Opened(over) => self.constructs.unpush(over),
            Inverse::Closed => self.constructs.raise(1),
            Inverse::Replaced(mut before) => self.constructs.swap_top(&mut before),
            Inverse::CountedBirth => self.births -= 1,
            Inverse::CountedRegion => self.regions -= 1,
            Inverse::CountedPhase => self.phase -= 1,
            _ => unreachable!(),
        }
    }
}
