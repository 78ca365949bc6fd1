//! What is bad about where a machine stands.

ghost use Rattle.std.specs.Prelude.{◌≡◌, ◌<◌, ℕ, List, Option, None, true, false, is_some, IfOk, IfNone, IfSome};
ghost use Rattle.std.specs.Option.{option_copied};
ghost use Rattle.om_memory.specs.Memories.{plain_or_idle};
ghost use Rattle.om_book_journal.specs.Runs.{is_step_made};
ghost use Rattle.om_book_journal.specs.declared.reply.Reply.TheVariants as replies;
ghost use Rattle.om_undo.specs.ReadyNames.{ready_names};
ghost use Rattle.om_shell_debugger.specs.Runs.{can_step, start_among, move_of, has_ended};
ghost use Rattle.lab_judge.specs.Bad.{IsBad, IsJudged, NoneFaulted, NoneMoves, control_of, output_of, due_at, standard_by, wanted_by, fault_of};
ghost use Rattle.lab_judge.specs.Texts.{text_in};

use om_code::frame::Fault;
use om_foot::{Name, Obj};
use om_memory::Control;
use om_seq::AllocResult;
use om_state::Choice;
use om_undo::laws::{one_ready_list, ready_names_are_ready};
use om_undo::{Machine, StepReply};
use std::alloc::Global;

/// What is bad about an outcome.
#[derive(Clone, Copy)]
pub enum Badness {
    /// The program ended, and printed something else than was wanted.
    Output,
    /// This worker met this fault, at an instruction of this line of the source.
    Fault { fault: Fault, worker: u8, line: u32 },
    /// The initial task has not ended, and no worker has a move.
    Stuck,
}

/// Where it is from what a program has to print.
#[derive(Clone, Copy)]
pub enum Standard {
    /// It was told.
    Told,
    /// It is what `run` alone prints, if the program ends there.
    Run,
    /// It is what the schedule of this seed prints: the first that came to an end, where `run` came to none.
    Seed(u64),
}

/// What a program has to print.
#[derive(Drop)]
pub struct Wanted {
    /// The bytes, where they are known. Where not, any output will do.
    pub text: Option<Vec<u8>>,
    pub standard: Standard,
}

impl Wanted {
    /// What is expected, else what was printed where a machine stands, if the initial task has ended there.
    pub(crate) fn of(
        alloc: Global,
        machine: &Machine,
        expected: Option<&[u8]>,
    ) -> AllocResult<Wanted>
        ensures text { IfOk result
            (λ wanted. text_in wanted.text ≡ due_at expected.entry machine.now) }
        ensures standard { IfOk result
            (λ wanted. wanted.standard ≡ standard_by (option_copied expected.entry)) }
    {
        match expected {
            Some(text) => Ok(Wanted {
                text: Some(Vec::from_slice(alloc, text)?),
                standard: Standard::Told,
            }),
            None => Ok(Wanted {
                text: output_at_end(alloc, machine)?,
                standard: Standard::Run,
            }),
        }
    }

    /// A copy. Its only error is out of memory.
    pub fn copy(&self) -> AllocResult<Wanted>
        ensures text { IfOk result (λ wanted. text_in wanted.text ≡ text_in self.now.text) }
        ensures standard { IfOk result (λ wanted. wanted.standard ≡ self.now.standard) }
    {
        let standard = self.standard;
        let text = self.copied_text()?;
        Ok(Wanted { text, standard })
    }

    // A copy of the bytes, where they are known.
    fn copied_text(&self) -> AllocResult<Option<Vec<u8>>>
        ensures { IfOk result (λ text. text_in text ≡ text_in self.now.text) }
    {
        let Some(text) = &self.text else {
            return Ok(None);
        };
        Ok(Some(text.clone()?))
    }

    /// What is bad about where a machine stands, if something is: a fault, else the output of a program that
    /// ended, else that it is stuck. Its only error is out of memory.
    pub fn judge(&self, alloc: Global, machine: &Machine) -> AllocResult<Option<Badness>>
        ensures { IfOk result (λ bad. IsJudged machine.now (text_in self.now.text) bad) }
    {
        if let Some(bad) = first_fault(machine) {
            return Ok(Some(bad));
        }
        if has_ended(machine.control(0)) {
            return self.judge_output(alloc, machine);
        }
        if can_move(alloc, machine)? {
            Ok(None)
        } else {
            Ok(Some(Badness::Stuck))
        }
    }

    // Whether something else was printed than is wanted.
    fn judge_output(&self, alloc: Global, machine: &Machine) -> AllocResult<Option<Badness>>
        requires ended { has_ended (control_of machine.now 0) ≡ true }
        requires faultless { NoneFaulted machine.now }
        ensures { IfOk result (λ bad. IsJudged machine.now (text_in self.now.text) bad) }
    {
        let Some(text) = &self.text else {
            return Ok(None);
        };
        let printed = output(alloc, machine)?;
        if printed.as_slice() == text.as_slice() {
            Ok(None)
        } else {
            Ok(Some(Badness::Output))
        }
    }
}

// The fault of the least worker that met one.
fn first_fault(machine: &Machine) -> Option<Badness>
    ensures met { (wanted : Option (List ℕ)) → IfSome result (IsBad machine.now wanted) }
    ensures none { IfNone result (NoneFaulted machine.now) }
{
    for worker in 0..machine.workers() {
        if let Some(fault) = fault_in(machine.control(worker)) {
            return Some(Badness::Fault {
                fault,
                worker,
                line: machine.line(worker),
            });
        }
    }
    None
}

// The fault that a worker met, if it did.
fn fault_in(control: Option<&Control>) -> Option<Fault>
    ensures { result ≡ fault_of (plain_or_idle (option_copied control.entry)) }
{
    let Some(Control::Faulted(fault, _)) = control else {
        return None;
    };
    Some(*fault)
}

/// Whether a control is that of a worker whose program has ended.
pub fn has_ended(control: Option<&Control>) -> bool
    ensures { result ≡ has_ended (plain_or_idle (option_copied control.entry)) }
{
    match control {
        Some(Control::Ended(_)) => true,
        Some(Control::Idle) | Some(Control::Running(_)) | Some(Control::Faulted(_, _)) | None => {
            false
        }
    }
}

/// What the program printed. Its only error is out of memory.
pub(crate) fn output(alloc: Global, machine: &Machine) -> AllocResult<Vec<u8>>
    ensures { IfOk result (λ bytes. bytes.items ≡ output_of machine.now) }
{
    let value = machine.look(alloc, &Obj::Output)?;
    let bytes = Vec::from_slice(alloc, value.bytes());
    drop(value);
    bytes
}

/// What the program printed, where the initial task has ended. Its only error is out of memory.
pub(crate) fn output_at_end(alloc: Global, machine: &Machine) -> AllocResult<Option<Vec<u8>>>
    ensures { IfOk result (λ text. text_in text ≡ wanted_by None machine.now) }
{
    if has_ended(machine.control(0)) {
        Ok(Some(output(alloc, machine)?))
    } else {
        Ok(None)
    }
}

// Whether some worker has a move.
fn can_move(alloc: Global, machine: &Machine) -> AllocResult<bool>
    ensures moves { IfOk result (λ can. can ≡ true → ¬ NoneMoves machine.now) }
    ensures none { IfOk result (λ can. can ≡ false → NoneMoves machine.now) }
{
    let names = ready_in(alloc, machine)?;
    for worker in 0..machine.workers() {
        if has_move(alloc, machine, worker, &names)? {
            return Ok(true);
        }
    }
    Ok(false)
}

// The names of the tasks that are ready, ascending.
fn ready_in(alloc: Global, machine: &Machine) -> AllocResult<Vec<Name>>
    ensures { IfOk result (λ names. names.items ≡ ready_names machine.now) }
{
    one_ready_list();
    ready_names_are_ready();
    machine.ready(alloc)
}

// Whether a worker has a move, where these tasks are ready.
fn has_move(alloc: Global, machine: &Machine, worker: u8, names: &[Name]) -> AllocResult<bool>
    requires in_range { worker < machine.now.workers }
    requires ready { names.now ≡ ready_names machine.now }
    ensures { IfOk result (λ has. has ≡ is_some (move_of machine.now worker)) }
{
    if can_step(alloc, machine, worker, Choice::Next)? {
        return Ok(true);
    }
    can_start(alloc, machine, worker, names)
}

// Whether a worker can begin one of these tasks.
fn can_start(alloc: Global, machine: &Machine, worker: u8, names: &[Name]) -> AllocResult<bool>
    requires { worker < machine.now.workers }
    ensures { IfOk result (λ can. can ≡ is_some (start_among machine.now worker names.now)) }
{
    for name in names {
        if can_step(alloc, machine, worker, Choice::Start(*name))? {
            return Ok(true);
        }
    }
    Ok(false)
}

// Whether a worker can make a step by a choice.
fn can_step(alloc: Global, machine: &Machine, worker: u8, choice: Choice) -> AllocResult<bool>
    requires { worker < machine.now.workers }
    ensures { IfOk result (λ can. can ≡ can_step machine.now worker choice) }
{
    let reply = machine.peek(alloc, worker, choice)?;
    Ok(is_step_made(&reply))
}

// Whether a step was made.
fn is_step_made(reply: &StepReply) -> bool
    ensures { result ≡ is_step_made (replies.Step reply.now) }
{
    matches!(reply, StepReply::Done { .. })
}
