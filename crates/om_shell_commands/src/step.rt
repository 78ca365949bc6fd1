//! The replies to steps and undos, and to lines that are refused. The end of a line grows towards its
//! front, and is appended to a text at once.

ghost use Rattle.std.specs.Prelude.{◌≡◌, ◌++◌, OnOk, ◌≤◌, ◌+◌, decimal, length, drop};
ghost use Rattle.om_shell_commands.specs.Steps.{blocker_text, command_fault_text, done_text, full_text, refuser_text, step_text, undo_text, undone_text, entry_text, fault_text};
ghost use Rattle.om_shell_commands.specs.Texts.{Writes};

use crate::command::CommandFault;
use crate::object::push_object;
use crate::value::push_numbered;
use itoa::write_digits;
use om_code::Program;
use om_code::frame::Fault;
use om_seq::AllocResult;
use om_state::Blocked;
use om_undo_history::{StepReply, UndoReply};

/// `#S worker W line L`, and the fault that the step came to, on a line.
pub(crate) fn push_entry(
    text: &mut Vec<u8>,
    serial: u64,
    worker: u8,
    line: u32,
    fault: Option<Fault>,
) -> AllocResult<()>
    ensures { OnOk result (text.new.items ≡ text.old.items ++ done_text serial worker line fault) }
{
    let mut bytes = [0; ROOM];
    let line_end = put(&mut bytes, ROOM, b"\n");
    let fault_at = put_fault(&mut bytes, line_end, fault);
    let start = put_entry(&mut bytes, fault_at, serial, worker, line);
    text.extend_from_slice(&bytes[start..])
}

// The worker that holds the lock, or has to be idle.
fn push_blocker(text: &mut Vec<u8>, why: Blocked) -> AllocResult<()>
    ensures { OnOk result (text.new.items ≡ text.old.items ++ blocker_text why) }
{
    let (Blocked::Critical(worker) | Blocked::Busy(worker)) = why else {
        return Ok(());
    };
    push_numbered(text, b" by ", worker)
}

/// Appends the reply to a step.
pub fn push_step(text: &mut Vec<u8>, worker: u8, reply: StepReply) -> AllocResult<()>
    ensures { OnOk result (text.new.items ≡ text.old.items ++ step_text worker reply) }
{
    match reply {
        StepReply::Done {
            serial,
            line,
            fault,
        } => push_entry(text, serial, worker, line, fault),
        StepReply::Blocked(why) => {
            push_numbered(text, b"blocked B", why.number())?;
            push_blocker(text, why)?;
            text.extend_from_slice(b"\n")
        }
        StepReply::Ended => text.extend_from_slice(b"ended\n"),
    }
}

// The first later step that an undo conflicts with.
fn push_refuser(text: &mut Vec<u8>, serial: u64, worker: u8) -> AllocResult<()>
    ensures { OnOk result (text.new.items ≡ text.old.items ++ refuser_text serial worker) }
{
    push_numbered(text, b"refused by #", serial)?;
    push_numbered(text, b" worker ", worker)
}

/// Appends a step of a worker that was taken out, on a line: as `push_undo` of that reply.
pub fn push_undone(text: &mut Vec<u8>, serial: u64, worker: u8, line: u32) -> AllocResult<()>
    ensures { OnOk result (text.new.items ≡ text.old.items ++ undone_text serial worker line) }
{
    let mut bytes = [0; ROOM];
    let line_end = put(&mut bytes, ROOM, b"\n");
    let entry_at = put_entry(&mut bytes, line_end, serial, worker, line);
    let start = put(&mut bytes, entry_at, b"undone ");
    text.extend_from_slice(&bytes[start..])
}

/// Appends the reply to an undo.
pub fn push_undo(
    text: &mut Vec<u8>,
    program: &Program,
    worker: u8,
    reply: &UndoReply,
) -> AllocResult<()>
    ensures { OnOk result (Writes (undo_text program.now worker reply.now) text.old text.new) }
{
    match reply {
        UndoReply::Undone { serial, line } => push_undone(text, *serial, worker, *line),
        UndoReply::Conflict {
            serial,
            worker,
            object,
        } => {
            push_refuser(text, *serial, *worker)?;
            text.extend_from_slice(b" on ")?;
            push_object(text, program, object)?;
            text.extend_from_slice(b"\n")
        }
        UndoReply::Nothing => text.extend_from_slice(b"nothing to undo\n"),
    }
}

/// Appends the reply to a line that is no command.
pub fn push_command_fault(text: &mut Vec<u8>, fault: CommandFault) -> AllocResult<()>
    ensures { OnOk result (text.new.items ≡ text.old.items ++ command_fault_text fault) }
{
    match fault {
        CommandFault::UnknownCommand => text.extend_from_slice(b"H1 unknown command\n"),
        CommandFault::BadArgument => text.extend_from_slice(b"H2 bad argument\n"),
    }
}

/// Appends the reply to a command that needs a record beyond those that the journal takes.
pub fn push_full(text: &mut Vec<u8>) -> AllocResult<()>
    ensures { OnOk result (text.new.items ≡ text.old.items ++ full_text) }
{
    text.extend_from_slice(b"full\n")
}

/// More bytes than a step takes, with words before it and a fault after it.
pub(crate) const ROOM: usize = 128;

/// Puts bytes before those from `end` on, and answers where they begin.
#[inline(always)]
pub(crate) fn put(line: &mut [u8], end: usize, bytes: &[u8]) -> usize
    requires room { length bytes.now ≤ end }
    requires within { end ≤ length line.old }
    ensures start { result + length bytes.now ≡ end }
    ensures written { drop result line.new ≡ bytes.now ++ drop end line.old }
{
    let start = end - bytes.len();
    line[start..end].copy_from_slice(bytes);
    start
}

// Puts a small number before the bytes from `end` on, and answers where it begins. Most have one digit.
fn put_small(line: &mut [u8], end: usize, number: u8) -> usize
    requires room { length (decimal number) ≤ end }
    requires within { end ≤ length line.old }
    ensures start { result + length (decimal number) ≡ end }
    ensures written { drop result line.new ≡ decimal number ++ drop end line.old }
{
    if number < 10 {
        return put(line, end, &[b'0' + number]);
    }
    write_digits(number as u64, line, end)
}

/// Puts `#S worker W line L` before the bytes from `end` on, and answers where it begins.
pub(crate) fn put_entry(line: &mut [u8], end: usize, serial: u64, worker: u8, at: u32) -> usize
    requires room { 75 ≤ end }
    requires within { end ≤ length line.old }
    ensures start { (result ≤ end) × (end ≤ result + 75) }
    ensures written { drop result line.new ≡ entry_text serial worker at ++ drop end line.old }
{
    let line_at = write_digits(at as u64, line, end);
    let line_word = put(line, line_at, b" line ");
    let worker_at = put_small(line, line_word, worker);
    let worker_word = put(line, worker_at, b" worker ");
    let serial_at = write_digits(serial, line, worker_word);
    put(line, serial_at, b"#")
}

/// Puts ` fault F1` before the bytes from `end` on, where there is a fault, and answers where it begins.
pub(crate) fn put_fault(line: &mut [u8], end: usize, fault: Option<Fault>) -> usize
    requires room { 28 ≤ end }
    requires within { end ≤ length line.old }
    ensures start { (result ≤ end) × (end ≤ result + 28) }
    ensures written { drop result line.new ≡ fault_text fault ++ drop end line.old }
{
    let Some(fault) = fault else {
        return end;
    };
    let number_at = write_digits(fault.number() as u64, line, end);
    put(line, number_at, b" fault F")
}
