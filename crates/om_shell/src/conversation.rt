//! Lines of commands, each answered before anything more is read.
ghost use Rattle.std.specs.Prelude.{◌≡◌, ◌≤◌, List, [], Some, false, drop, take, length, IfOk, IfErr, OnOk};
ghost use Rattle.om_shell.specs.Lines.{HasNoLineEnd};
ghost use Rattle.om_shell.specs.Progress.{BreaksOff, IsDone, moment_of};
ghost use Rattle.om_shell.specs.Batch.{AnswersPart};
ghost use Rattle.om_shell.specs.Sessions.{due, AnswersBatch};
ghost use Rattle.om_shell_debugger.specs.Freed.{FreeRun};

use crate::ended::ShellFault;
use crate::input::Input;
use crate::session::Session;
use std::io::{Read, Write};
use std::sync::Wait;
use std::thread::Threads;

// Answers the whole lines at the front of the bytes, up to a `quit`. Answers how many bytes they take, and whether
// one was `quit`. The first `searched` bytes are known to end no line.
fn answer_lines<R: Threads + Wait + Sync, W: Write>(
    session: &mut Session<'_, R>,
    bytes: &[u8],
    mut searched: usize,
    writer: &mut W,
) -> Result<(usize, bool), ShellFault>
    requires within { searched ≤ length bytes.now }
    requires known { HasNoLineEnd (take searched bytes.now) }
    ensures answered { IfOk result
        (λ r. AnswersBatch (W.contents writer.old) (W.contents writer.new) bytes.now r.0
        session.old.debugger r.1 session.new.debugger) }
    ensures left { IfOk result (λ r. r.1 ≡ false → HasNoLineEnd (drop r.0 bytes.now)) }
    ensures begun_on_error { IfErr result (λ fault. (runs : List FreeRun)
        × AnswersPart (W.contents writer.old) (W.contents writer.new) bytes.now
        (due session.old.debugger runs) fault) }
{
    let mut at = 0;
    'batches: loop {
        let gathered = session.gather(&bytes[at..], searched);
        session.write(writer)?;
        let (used, quits) = gathered?;
        at += used;
        searched = 0;
        if quits {
            return Ok((at, true));
        }
        if !session.has_enough() {
            return Ok((at, false));
        }
    }
}

/// Answers commands up to a `quit` or the end of the input, each before anything more is read.
///
/// Of a line that is too long no more is kept than shows it. Each byte is looked at a bounded number of
/// times, however long the lines are.
pub(crate) fn converse<H: Threads + Wait + Sync, R: Read, W: Write>(
    session: &mut Session<'_, H>,
    input: &mut Input,
    reader: &mut R,
    writer: &mut W,
) -> Result<(), ShellFault>
    ensures done { OnOk result ((runs : List FreeRun)
        × IsDone (moment_of (R.remaining reader.old) (W.contents writer.old)
        input.old.pending.items)
        (moment_of (R.remaining reader.new) (W.contents writer.new) [])
        (due session.old.debugger runs) (Some session.new.debugger)) }
    ensures broken_off { IfErr result (λ fault. (runs : List FreeRun)
        × BreaksOff (moment_of (R.remaining reader.old) (W.contents writer.old)
        input.old.pending.items)
        (moment_of (R.remaining reader.new) (W.contents writer.new) [])
        (due session.old.debugger runs) fault) }
{
    let mut searched = 0;
    'reads: loop {
        let (used, quits) = answer_lines(session, &input.pending, searched, writer)?;
        if quits {
            return Ok(());
        }
        input.discard(used);
        input.shorten();
        searched = input.pending.len();
        if !input.read_more(reader)? {
            session.answer(&input.pending, writer)?;
            return Ok(());
        }
    }
}
