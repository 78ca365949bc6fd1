//! A session: a debugger, what it runs on, and the answers that are not written yet.

ghost use Rattle.std.specs.Prelude.{◌≡◌, ◌≢◌, ◌<◌, ◌≤◌, ◌++◌, ℕ, List, [], Some, take, drop, length, true, false};
ghost use Rattle.std.specs.Prelude.{nat_le, IfOk, IfErr, OnOk, OnErr};
ghost use Rattle.std.specs.Io.KnownBytes.{Appends};
ghost use Rattle.om_shell_debugger.specs.Freed.{FreeRun};
ghost use Rattle.om_shell_debugger.specs.Views.{answered, opened, IsAnswered};
ghost use Rattle.om_shell.specs.Batch.{AnswersPart};
ghost use Rattle.om_shell.specs.Lines.{HasNoLineEnd};
ghost use Rattle.om_shell.specs.Progress.{AppendsPart};
ghost use Rattle.om_shell.specs.Sessions.{due, AnswersBatch};

use crate::ended::ShellFault;
use crate::input::{line_end, without_carriage_return};
use crate::output::send;
use om_book::Book;
use om_code::Program;
use om_seq::AllocResult;
use om_shell_debugger::Debugger;
use std::alloc::Global;
use std::io::Write;
use std::sync::Wait;
use std::thread::Threads;

/// The handle of the runtime, by which free runs start threads, the allocator, and how many workers
/// there are, 1 to 32.
#[derive(Drop)]
pub(crate) struct Host<'a, R> {
    pub(crate) rt: &'a R,
    pub(crate) alloc: Global,
    pub(crate) workers: u8,
}

// So many bytes of answers are written before more lines are answered.
const ENOUGH: usize = 16_384;

/// A debugger, what it runs on, and the answers that are not written yet.
///
/// An answer that breaks off leaves a part of it in `answer`. So what stands in `text` are whole answers.
#[derive(Drop)]
pub(crate) struct Session<'a, R> {
    rt: &'a R,
    alloc: Global,
    pub(crate) debugger: Debugger,
    answer: Vec<u8>,
    text: Vec<u8>,
}

impl<'a, R: Threads + Wait + Sync> Session<'a, R> {
    /// A session at the start of a program.
    pub(crate) fn new(host: &Host<'a, R>, program: Program) -> AllocResult<Session<'a, R>>
        requires at_least_one { 0 < host.now.workers }
        requires at_most_32 { host.now.workers ≤ 32 }
        ensures { IfOk result (λ session. session.debugger ≡ opened program host.now.workers) }
    {
        Ok(Session {
            rt: host.rt,
            alloc: host.alloc,
            debugger: Debugger::new(host.alloc, program, host.workers)?,
            answer: Vec::new(host.alloc),
            text: Vec::new(host.alloc),
        })
    }

    /// Its debugger's book.
    pub(crate) fn into_book(self) -> Book
        ensures { result ≡ self.entry.debugger.book }
    {
        let Session { debugger, .. } = self;
        debugger.into_book()
    }

    /// Answers one line, and says whether the session is over.
    ///
    /// After a fault a beginning of the answer was written.
    pub(crate) fn answer<W: Write>(
        &mut self,
        line: &[u8],
        writer: &mut W,
    ) -> Result<bool, ShellFault>
        ensures answered { IfOk result
            (λ quits. (text : List ℕ) ×
            (Appends (W.contents writer.old) (W.contents writer.new) text)
            × IsAnswered self.old.debugger line.now text self.new.debugger quits) }
        ensures begun_on_error { IfErr result (λ fault. (fault ≢ ShellFault.Read)
            × ((runs : List FreeRun) × AppendsPart (W.contents writer.old) (W.contents writer.new)
            (answered self.old.debugger runs line.now).text)) }
    {
        let quits = self.say(line)?;
        send(writer, &self.answer)?;
        Ok(quits)
    }

    // Makes the answer to one line. Says whether the session is over.
    fn say(&mut self, line: &[u8]) -> AllocResult<bool>
        ensures answered { IfOk result
            (λ quits. IsAnswered self.old.debugger line.now self.new.answer.items self.new.debugger
            quits) }
        ensures kept { self.new.text.items ≡ self.old.text.items }
    {
        self.answer.clear();
        self.debugger
            .answer(self.rt, self.alloc, line, &mut self.answer)
    }

    // Answers one line, after the answers that are not written yet. Says whether the session is over.
    fn follow(&mut self, line: &[u8]) -> AllocResult<bool>
        ensures answered { IfOk result
            (λ quits. (said : List ℕ) × (self.new.text.items ≡ self.old.text.items ++ said)
            × IsAnswered self.old.debugger line.now said self.new.debugger quits) }
        ensures kept { OnErr result (self.new.text.items ≡ self.old.text.items) }
    {
        let is_over = self.say(line)?;
        self.text.extend_from_slice(&self.answer)?;
        Ok(is_over)
    }

    /// Whether the answers are written before more lines are answered.
    pub(crate) fn has_enough(&self) -> bool
        ensures { result ≡ nat_le 16384 (length self.now.text.items) }
    {
        self.text.len() >= ENOUGH
    }

    /// Answers whole lines at the front of the bytes, up to a `quit` or until the answers are enough. They are not
    /// written yet. Answers how many bytes the lines take, and whether one was `quit`. The first `searched` bytes are
    /// known to end no line.
    pub(crate) fn gather(&mut self, bytes: &[u8], mut searched: usize) -> AllocResult<(usize, bool)>
        requires within { searched ≤ length bytes.now }
        requires known { HasNoLineEnd (take searched bytes.now) }
        ensures answered { IfOk result
            (λ r. AnswersBatch (Some []) (Some self.new.text.items) bytes.now r.0
            self.old.debugger r.1 self.new.debugger) }
        ensures left { IfOk result
            (λ r. r.1 ≡ false → nat_le 16384 (length self.new.text.items) ≡ false
            → HasNoLineEnd (drop r.0 bytes.now)) }
        ensures some { IfOk result
            (λ r. nat_le 16384 (length self.new.text.items) ≡ true → 0 < r.0) }
        ensures begun { (runs : List FreeRun)
            × AnswersPart (Some []) (Some self.new.text.items) bytes.now
            (due self.old.debugger runs) ShellFault.Memory }
    {
        self.text.clear();
        let mut at = 0;
        'lines: while let Some(n) = line_end(&bytes[at..], searched) {
            let line = without_carriage_return(&bytes[at..at + n]);
            let quits = self.follow(line)?;
            at += n + 1;
            searched = 0;
            if quits {
                return Ok((at, true));
            }
            if self.has_enough() {
                return Ok((at, false));
            }
        }
        Ok((at, false))
    }

    /// Writes the answers that were gathered.
    pub(crate) fn write<W: Write>(&self, writer: &mut W) -> Result<(), ShellFault>
        ensures written { OnOk result
            (Appends (W.contents writer.old) (W.contents writer.new) self.now.text.items) }
        ensures begun_on_error { IfErr result (λ fault. (fault ≢ ShellFault.Read)
            × AppendsPart (W.contents writer.old) (W.contents writer.new) self.now.text.items) }
    {
        if self.text.is_empty() {
            return Ok(());
        }
        send(writer, &self.text)
    }
}
