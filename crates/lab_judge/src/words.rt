//! What is bad about an end, in words.

ghost use Rattle.std.specs.Prelude.{◌≡◌, ◌++◌, OnOk};
ghost use Rattle.om_shell_commands.specs.Lists.{joined};
ghost use Rattle.lab_judge.specs.Words.{awaited_text, bad_text, before_wanted, byte_text, fault_words, lock_words, name_words, outputs_text, quoted, stuck_text, told_text, wait_text};

use crate::judge::{Badness, Standard, Wanted};
use crate::outcome::End;
use crate::waits::{Awaited, Wait};
use om_code::frame::Fault;
use om_seq::AllocResult;
use om_shell_commands::push_numbered;

/// Appends what is bad about an end, in words: a fault with its worker and line; that a program is stuck, and who
/// waits in which line for what held by whom; or what was printed, and what was wanted where that is known. The
/// only error is out of memory.
pub fn push_badness(text: &mut Vec<u8>, end: &End, wanted: &Wanted) -> AllocResult<()>
    ensures { OnOk result (text.new.items ≡ text.old.items ++ bad_text end.now wanted.now) }
{
    match end.why {
        Badness::Output => push_outputs(text, end.output.as_slice(), wanted),
        Badness::Fault {
            fault,
            worker,
            line,
        } => push_fault(text, fault, worker, line),
        Badness::Stuck => push_stuck(text, end.waits.as_slice()),
    }
}

fn push_fault(text: &mut Vec<u8>, fault: Fault, worker: u8, line: u32) -> AllocResult<()>
    ensures { OnOk result (text.new.items ≡ text.old.items ++ fault_words fault worker line) }
{
    push_numbered(text, b"fault F", fault.number())?;
    push_numbered(text, b" of worker ", worker)?;
    push_numbered(text, b" in line ", line)?;
    Ok(())
}

// Appends that a program is stuck, and who waits for what.
fn push_stuck(text: &mut Vec<u8>, waits: &[Wait]) -> AllocResult<()>
    ensures { OnOk result (text.new.items ≡ text.old.items ++ stuck_text waits.now) }
{
    text.extend_from_slice(b"stuck: no worker has a move")?;
    push_waits(text, waits)?;
    Ok(())
}

fn push_waits(text: &mut Vec<u8>, waits: &[Wait]) -> AllocResult<()>
    ensures { OnOk result (text.new.items ≡ text.old.items ++ joined wait_text waits.now) }
{
    for wait in waits {
        push_wait(text, wait)?;
    }
    Ok(())
}

fn push_wait(text: &mut Vec<u8>, wait: &Wait) -> AllocResult<()>
    ensures { OnOk result (text.new.items ≡ text.old.items ++ wait_text wait.now) }
{
    push_numbered(text, b"; worker ", wait.worker)?;
    push_numbered(text, b" waits in line ", wait.line)?;
    push_awaited(text, &wait.what)?;
    Ok(())
}

fn push_awaited(text: &mut Vec<u8>, what: &Awaited) -> AllocResult<()>
    ensures { OnOk result (text.new.items ≡ text.old.items ++ awaited_text what.now) }
{
    match what {
        Awaited::Barrier => text.extend_from_slice(b" at a barrier"),
        Awaited::Lock { name, holder } => push_lock(text, name.as_slice(), *holder),
        Awaited::Children => text.extend_from_slice(b" for tasks that it made"),
        Awaited::Worker(worker) => push_numbered(text, b" for worker ", *worker),
        Awaited::Group => text.extend_from_slice(b" for tasks of its taskgroup"),
    }
}

fn push_lock(text: &mut Vec<u8>, name: &[u8], holder: u8) -> AllocResult<()>
    ensures { OnOk result (text.new.items ≡ text.old.items ++ lock_words name.now holder) }
{
    text.extend_from_slice(b" for critical")?;
    push_name(text, name)?;
    push_numbered(text, b", held by worker ", holder)?;
    Ok(())
}

// Appends the name of a critical region; nothing for the unnamed one.
fn push_name(text: &mut Vec<u8>, name: &[u8]) -> AllocResult<()>
    ensures { OnOk result (text.new.items ≡ text.old.items ++ name_words name.now) }
{
    if name.is_empty() {
        return Ok(());
    }
    text.extend_from_slice(b" (")?;
    text.extend_from_slice(name)?;
    text.extend_from_slice(b")")
}

fn push_outputs(text: &mut Vec<u8>, output: &[u8], wanted: &Wanted) -> AllocResult<()>
    ensures { OnOk result
        (text.new.items ≡ text.old.items ++ outputs_text output.now wanted.now) }
{
    text.extend_from_slice(b"printed ")?;
    push_quoted(text, output)?;
    let Some(due) = &wanted.text else {
        return Ok(());
    };
    push_wanted(text, due.as_slice(), wanted.standard)
}

fn push_wanted(text: &mut Vec<u8>, due: &[u8], standard: Standard) -> AllocResult<()>
    ensures { OnOk result (text.new.items ≡ text.old.items ++ told_text standard due.now) }
{
    push_before_wanted(text, standard)?;
    push_quoted(text, due)
}

// Appends what stands before what was wanted.
fn push_before_wanted(text: &mut Vec<u8>, standard: Standard) -> AllocResult<()>
    ensures { OnOk result (text.new.items ≡ text.old.items ++ before_wanted standard) }
{
    match standard {
        Standard::Told => text.extend_from_slice(b", wanted "),
        Standard::Run => text.extend_from_slice(b", where `run` prints "),
        Standard::Seed(seed) => {
            push_numbered(text, b", where seed ", seed)?;
            text.extend_from_slice(b" prints ")
        }
    }
}

// Appends bytes in quotes, on one line.
fn push_quoted(text: &mut Vec<u8>, bytes: &[u8]) -> AllocResult<()>
    ensures { OnOk result (text.new.items ≡ text.old.items ++ quoted bytes.now) }
{
    text.extend_from_slice(b"\"")?;
    push_bytes(text, bytes)?;
    text.extend_from_slice(b"\"")
}

fn push_bytes(text: &mut Vec<u8>, bytes: &[u8]) -> AllocResult<()>
    ensures { OnOk result (text.new.items ≡ text.old.items ++ joined byte_text bytes.now) }
{
    for byte in bytes {
        push_byte(text, *byte)?;
    }
    Ok(())
}

fn push_byte(text: &mut Vec<u8>, byte: u8) -> AllocResult<()>
    ensures { OnOk result (text.new.items ≡ text.old.items ++ byte_text byte) }
{
    match byte {
        b'\n' => text.extend_from_slice(b"\\n"),
        b'\r' => text.extend_from_slice(b"\\r"),
        b'"' => text.extend_from_slice(b"\\\""),
        b'\\' => text.extend_from_slice(b"\\\\"),
        _ => text.extend_from_slice(&[byte]),
    }
}
