//! Edits of a control in place, each with what takes it back. In a stack a context begins or ends, or the
//! one that runs is edited. The fault that a worker would come to by edits is told without making them.

ghost use Rattle.std.specs.Prelude.{◌≡◌, IfOk, OnOk, OnErr, ◌<◌, length, ◌^◌};
ghost use Rattle.om_state.specs.Edits.{HasRoom, Counts, changed};
ghost use Rattle.om_memory.specs.Plain.{plain_control, plain_stack};
ghost use Rattle.om_memory.specs.Changed.{HasChanged, IsEnded, RunsOn};
ghost use Rattle.om_memory.specs.Inverses.{reverted, CanRevert, stack_back, CanStackBack, StaysRunning};
ghost use Rattle.om_memory.specs.Faults.{fault_in, outlook_of, outlook_after, IsLow};

use crate::control::{Control, Inverse, Stack};
use crate::live::context_of;
use om_code::frame::Fault;
use om_seq::AllocResult;
use om_state::Edit;
use std::alloc::Global;
use std::mem;

/// Puts a control in the place of another one, which moves whole into what takes this back. In the
/// place of an idle one it takes no memory. When out of memory, nothing changes.
pub fn become_control(alloc: Global, control: &mut Control, next: Control) -> AllocResult<Inverse>
    ensures changed { OnOk result (control.new ≡ next) }
    ensures can { IfOk result (λ i. CanRevert i control.new) }
    ensures back { IfOk result (λ i. reverted i control.new ≡ control.old) }
    ensures unchanged_on_error { OnErr result (control.new ≡ control.old) }
{
    if let Control::Idle = control {
        *control = next;
        return Ok(Inverse::WasIdle);
    }
    let mut held = Box::new(alloc, next)?;
    mem::swap(&mut *held, control);
    Ok(Inverse::Was(held))
}

// The running context ends, if the worker runs. It takes memory only where none is below it: then
// the worker is idle. When out of memory, nothing changes.
fn end_context(alloc: Global, control: &mut Control) -> AllocResult<Inverse>
    ensures changed { OnOk result (HasChanged Edit.EndContext control.old control.new) }
    ensures can { IfOk result (λ i. CanRevert i control.new) }
    ensures back { IfOk result (λ i. reverted i control.new ≡ control.old) }
    ensures unchanged_on_error { OnErr result (control.new ≡ control.old) }
{
    if let Control::Running(stack) = control {
        if stack.below.len() > 0 {
            return Ok(stack.end_context());
        }
        return become_control(alloc, control, Control::Idle);
    }
    Ok(Inverse::Same)
}

// The worker meets a fault, if it runs. It takes no memory.
fn fail(control: &mut Control, fault: Fault) -> Inverse
    ensures changed { HasChanged (Edit.Fail fault) control.old control.new }
    ensures can { CanRevert result control.new }
    ensures back { reverted result control.new ≡ control.old }
{
    match mem::replace(control, Control::Idle) {
        Control::Running(stack) => {
            *control = Control::Faulted(fault, stack);
            Inverse::Failed
        }
        other => {
            *control = other;
            Inverse::Same
        }
    }
}

/// Makes an edit of a control, where the worker runs, and answers what takes it back. When out of
/// memory, nothing changes.
pub fn apply(alloc: Global, control: &mut Control, edit: Edit) -> AllocResult<Inverse>
    requires { HasRoom edit (plain_control control.old) }
    ensures changed { OnOk result (HasChanged edit control.old control.new) }
    ensures can { IfOk result (λ i. CanRevert i control.new) }
    ensures back { IfOk result (λ i. reverted i control.new ≡ control.old) }
    ensures unchanged_on_error { OnErr result (control.new ≡ control.old) }
{
    match edit {
        Edit::EndContext => end_context(alloc, control),
        Edit::Fail(fault) => Ok(fail(control, fault)),
        Edit::End(value) => match control {
            Control::Running(_) => become_control(alloc, control, Control::Ended(value)),
            Control::Idle | Control::Faulted(_, _) | Control::Ended(_) => Ok(Inverse::Same),
        },
        turn => match control {
            Control::Running(stack) => match stack.apply(alloc, turn) {
                Ok(inverse) => Ok(inverse),
                Err(error) => Err(error),
            },
            Control::Idle | Control::Faulted(_, _) | Control::Ended(_) => Ok(Inverse::Same),
        },
    }
}

/// Takes an edit back, by what it answered. It takes no memory.
pub fn revert(control: &mut Control, inverse: Inverse)
    requires { CanRevert inverse control.old }
    ensures { control.new ≡ reverted inverse control.old }
{
    match inverse {
        Inverse::Same => {}
        Inverse::Failed => match mem::replace(control, Control::Idle) {
            Control::Faulted(_, stack) => *control = Control::Running(stack),
            other => *control = other,
        },
        Inverse::WasIdle => *control = Control::Idle,
        Inverse::Was(mut held) => mem::swap(&mut *held, control),
        turn => match control {
            Control::Running(stack) => stack.turn_back(turn),
            _ => unreachable!(),
        },
    }
}

impl Stack {
    /// Ends the running context where another one waits below it, which runs on. It takes no
    /// memory.
    pub(crate) fn end_context(&mut self) -> Inverse
        requires { 0 < length self.old.below.items }
        ensures changed { IsEnded self.old self.new }
        ensures can { CanStackBack result self.new }
        ensures back { stack_back result self.new ≡ self.old }
    {
        self.below.swap_down(&mut self.top);
        Inverse::EndedContext
    }

    /// Makes an edit after which the worker runs on with the stack. When out of memory, nothing
    /// changes.
    pub(crate) fn apply(&mut self, alloc: Global, edit: Edit) -> AllocResult<Inverse>
        requires stays { StaysRunning edit }
        requires counts { Counts edit (plain_stack self.old) }
        ensures changed { OnOk result (RunsOn edit self.old self.new) }
        ensures can { IfOk result (λ i. CanStackBack i self.new) }
        ensures back { IfOk result (λ i. stack_back i self.new ≡ self.old) }
        ensures unchanged_on_error { OnErr result (self.new ≡ self.old) }
    {
        match edit {
            Edit::BeginContext(context) => {
                let begun = context_of(alloc, context.get())?;
                let over = self.below.push_under(begun, &mut self.top)?;
                Ok(Inverse::BeganContext(over))
            }
            Edit::EndContext | Edit::Fail(_) | Edit::End(_) => unreachable!(),
            turn => match self.top.apply(alloc, turn) {
                Ok(inverse) => Ok(inverse),
                Err(error) => Err(error),
            },
        }
    }

    /// Takes an edit back. It takes no memory.
    pub(crate) fn turn_back(&mut self, inverse: Inverse)
        requires { CanStackBack inverse self.old }
        ensures { self.new ≡ stack_back inverse self.old }
    {
        match inverse {
            Inverse::BeganContext(over) => self.below.unpush_under(over, &mut self.top),
            Inverse::EndedContext => self.below.swap_up(&mut self.top),
            turn => self.top.turn_back(turn),
        }
    }
}

// What of a worker's control decides whether it comes to a fault.
#[derive(Clone, Copy)]
enum Outlook {
    // It runs, with so many contexts below the one that runs.
    Runs(u128),
    // It doesn't run, and met this fault, if any.
    Rests(Option<Fault>),
}

// The outlook of a worker with this control.
fn outlook_of(control: &Control) -> Outlook
    ensures outlook { result ≡ outlook_of (plain_control control.now) }
    ensures low { IsLow 0 result }
{
    match control {
        Control::Idle | Control::Ended(_) => Outlook::Rests(None),
        Control::Running(stack) => Outlook::Runs(stack.below.len() as u128),
        Control::Faulted(fault, _) => Outlook::Rests(Some(*fault)),
    }
}

// The outlook after an edit.
fn outlook_after(outlook: Outlook, edit: &Edit) -> Outlook
    requires { IsLow (2 ^ 64) outlook }
    ensures { result ≡ outlook_after edit.now outlook }
{
    let Outlook::Runs(below) = outlook else {
        return outlook;
    };
    match edit {
        Edit::BeginContext(_) => Outlook::Runs(below + 1),
        Edit::EndContext => match below.checked_sub(1) {
            Some(below) => Outlook::Runs(below),
            None => Outlook::Rests(None),
        },
        Edit::Fail(fault) => Outlook::Rests(Some(*fault)),
        Edit::End(_) => Outlook::Rests(None),
        _ => Outlook::Runs(below),
    }
}

/// The fault that a worker with this control comes to by edits, or met before them. It makes none of
/// them, and takes no memory.
pub fn fault_after(control: &Control, edits: &[Edit]) -> Option<Fault>
    ensures { result ≡ fault_in (changed edits.now (plain_control control.now)) }
{
    let mut outlook = outlook_of(control);
    for edit in edits {
        outlook = outlook_after(outlook, edit);
    }
    let Outlook::Rests(fault) = outlook else {
        return None;
    };
    fault
}
