//! What is done for a source that is read: its commands are answered, or its refusal is told.
ghost use Rattle.std.specs.Prelude.{◌≡◌, ◌<◌, ◌≤◌, ◌+◌, ◌*◌, ◌^◌, ◌≢◌, List, [], None, Some, length, IfOk, IfErr, OnOk};
ghost use Rattle.std.specs.Io.KnownBytes.{Appends};
ghost use Rattle.om_lexer.specs.declared.fault.FaultCode.TheVariants.{Memory};
ghost use Rattle.om_shell.specs.Places.{refusal_text};
ghost use Rattle.om_shell.specs.Progress.{AppendsPart, BreaksOff, moment_of};
ghost use Rattle.om_shell.specs.Sessions.{due};
ghost use Rattle.om_shell_debugger.specs.Freed.{FreeRun};
ghost use Rattle.om_shell_debugger.specs.Views.{opened};
ghost use Rattle.om_shell.specs.Serving.{DoneWith, Serves, BreaksOffServing, ServesAlone, BreaksOffAlone};

use crate::conversation::converse;
use crate::ended::{Ended, ShellFault};
use crate::input::Input;
use crate::output::send;
use crate::refusal::push_refusal;
use crate::session::{Host, Session};
use om_code::Program;
use om_frontend::program_of;
use om_lexer::{FaultCode, SourceFault};
use om_shell_debugger::Debugger;
use std::alloc::Global;
use std::io::{Read, Write};
use std::sync::Wait;
use std::thread::Threads;

// Tells why a source is refused.
fn tell<W: Write>(
    alloc: Global,
    source: &[u8],
    fault: SourceFault,
    writer: &mut W,
) -> Result<(), ShellFault>
    ensures told { OnOk result
        (Appends (W.contents writer.old) (W.contents writer.new) (refusal_text source.now fault)) }
    ensures begun_on_error { IfErr result
        (λ e. (e ≢ ShellFault.Read) × AppendsPart (W.contents writer.old) (W.contents writer.new)
        (refusal_text source.now fault)) }
{
    let mut text = Vec::new(alloc);
    push_refusal(&mut text, source, fault)?;
    send(writer, &text)
}

impl<H: Threads + Wait + Sync> Host<'_, H> {
    // Answers the commands to a program.
    fn answer_commands<R: Read, W: Write>(
        &self,
        program: Program,
        input: &mut Input,
        reader: &mut R,
        writer: &mut W,
    ) -> Result<Ended, ShellFault>
        requires at_least_one { 0 < self.now.workers }
        requires at_most_32 { self.now.workers ≤ 32 }
        ensures status { IfOk result (λ ended. ended.status ≡ 0) }
        ensures done { IfOk result (λ ended. (runs : List FreeRun)
            × DoneWith (moment_of (R.remaining reader.old) (W.contents writer.old)
            input.old.pending.items)
            (moment_of (R.remaining reader.new) (W.contents writer.new) [])
            (due (opened program self.now.workers) runs) ended.book) }
        ensures broken_off { IfErr result (λ fault. (runs : List FreeRun)
            × BreaksOff (moment_of (R.remaining reader.old) (W.contents writer.old)
            input.old.pending.items)
            (moment_of (R.remaining reader.new) (W.contents writer.new) [])
            (due (opened program self.now.workers) runs) fault) }
    {
        let mut session = Session::new(self, program)?;
        match converse(&mut session, input, reader, writer) {
            Ok(()) => Ok(Ended::accepted(session.into_book())),
            Err(fault) => {
                drop(session);
                Err(fault)
            }
        }
    }

    /// Serves a source and the commands after it.
    ///
    /// When out of memory for its program, nothing is read or written.
    pub(crate) fn serve<R: Read, W: Write>(
        &self,
        source: &[u8],
        input: &mut Input,
        reader: &mut R,
        writer: &mut W,
    ) -> Result<Ended, ShellFault>
        requires at_least_one { 0 < self.now.workers }
        requires at_most_32 { self.now.workers ≤ 32 }
        ensures served { IfOk result
            (λ ended. Serves (moment_of (R.remaining reader.old) (W.contents writer.old)
            input.old.pending.items)
            (moment_of (R.remaining reader.new) (W.contents writer.new) [])
            self.now.workers source.now ended.status ended.book) }
        ensures broken_off { IfErr result
            (BreaksOffServing (moment_of (R.remaining reader.old) (W.contents writer.old)
            input.old.pending.items)
            (moment_of (R.remaining reader.new) (W.contents writer.new) [])
            self.now.workers source.now) }
    {
        let alloc = self.alloc;
        match program_of(alloc, source) {
            Ok(program) => self.answer_commands(program, input, reader, writer),
            Err(fault) => {
                if fault.code == FaultCode::Memory {
                    return Err(ShellFault::Memory);
                }
                tell(alloc, source, fault, writer)?;
                Ok(Ended::refused())
            }
        }
    }
}

/// Serves a source that no command can follow, as the input has ended. Nothing more is read.
pub(crate) fn serve_alone<W: Write>(
    alloc: Global,
    workers: u8,
    source: &[u8],
    writer: &mut W,
) -> Result<Ended, ShellFault>
    requires at_least_one { 0 < workers }
    requires at_most_32 { workers ≤ 32 }
    ensures served { IfOk result
        (λ ended. ServesAlone (W.contents writer.old) (W.contents writer.new) workers source.now
        ended.status ended.book) }
    ensures broken_off { IfErr result
        (BreaksOffAlone (W.contents writer.old) (W.contents writer.new) workers source.now) }
{
    match program_of(alloc, source) {
        Ok(program) => {
            let debugger = Debugger::new(alloc, program, workers)?;
            Ok(Ended::accepted(debugger.into_book()))
        }
        Err(fault) => {
            if fault.code == FaultCode::Memory {
                return Err(ShellFault::Memory);
            }
            tell(alloc, source, fault, writer)?;
            Ok(Ended::refused())
        }
    }
}
