//! The filter: what is read is passed on part by part, with words after its lines. Until then it waits.

ghost use Rattle.std.specs.Prelude.{◌≡◌, ◌==◌, ◌+◌, ◌<◌, ◌≤◌, true, false, [], Some, length, take, IfOk, OnErr, OnOk};
ghost use Rattle.std.specs.Prelude.{drop};
ghost use Rattle.std.specs.List.{position};
ghost use Rattle.om_shell_commands.specs.Words.{words_of};
ghost use Rattle.om_shell.specs.Lines.{HasNoLineEnd};
ghost use Rattle.lab_text.specs.Tails.{IsNoted};
ghost use Rattle.lab_notes.specs.Parts.{announced};
ghost use Rattle.lab_notes.specs.Sources.{IsKnown};
ghost use Rattle.lab_notes.specs.Passing.{BreaksOff, BreaksPart, GoesOn, PassesAll, PassesBeginning, PassesPart};

use crate::names::Names;
use crate::remark::remark;
use crate::words::{announced, words_of};
use lab_text::noted;
use om_seq::AllocResult;
use om_shell::{Input, ShellFault, first_line_end, send};
use std::alloc::Global;
use std::io::{Read, Write};

// The line up to `end` as it is written, and how many bytes are due as they are behind it.
fn answer(names: &Names<'_>, pending: &[u8], end: usize) -> AllocResult<(Vec<u8>, usize)>
    requires within { end ≤ length pending.now }
    ensures text { IfOk result (λ r. IsNoted (take end pending.now) r.0.items) }
    ensures due { IfOk result (λ r. r.1 ≡ announced (words_of (take end pending.now))) }
{
    let line = &pending[..end];
    let words = words_of(names.alloc, line)?;
    let remark = remark(names, line, &words)?;
    let text = noted(names.alloc, line, &remark)?;
    Ok((text, announced(&words)))
}

// Passes the pending line on that ends at `end`, with words behind it.
fn pass_line<W: Write>(
    names: &Names<'_>,
    waiting: &mut Waiting,
    end: usize,
    writer: &mut W,
) -> Result<(), ShellFault>
    requires due { waiting.old.due ≡ 0 }
    requires ended { Some end ≡ position (λ byte. byte == 10) waiting.old.read.pending.items }
    requires within { end < length waiting.old.read.pending.items }
    ensures passed { OnOk result
        (PassesPart (W.contents writer.old) (W.contents writer.new) waiting.old.read.pending.items
        waiting.new.read.pending.items 0 waiting.new.due) }
    ensures fewer { OnOk result
        (length waiting.new.read.pending.items < length waiting.old.read.pending.items) }
    ensures broken_off { OnErr result
        (BreaksPart (W.contents writer.old) (W.contents writer.new)
        waiting.old.read.pending.items 0) }
    ensures reads { waiting.new.read.reads_left ≡ waiting.old.read.reads_left }
{
    let (text, due) = answer(names, &waiting.read.pending, end)?;
    send(writer, &text)?;
    waiting.discard(end + 1, due);
    Ok(())
}

// The smaller one of two numbers.
fn smaller(one: usize, other: usize) -> usize
    ensures one { result ≤ one }
    ensures other { result ≤ other }
    ensures positive { 0 < one → 0 < other → 0 < result }
{
    if one < other { one } else { other }
}

// Passes pending bytes on that are due as they are.
fn pass_bytes<W: Write>(waiting: &mut Waiting, writer: &mut W) -> Result<(), ShellFault>
    requires due { 0 < waiting.old.due }
    requires pending { 0 < length waiting.old.read.pending.items }
    ensures passed { OnOk result
        (PassesPart (W.contents writer.old) (W.contents writer.new) waiting.old.read.pending.items
        waiting.new.read.pending.items waiting.old.due waiting.new.due) }
    ensures fewer { OnOk result
        (length waiting.new.read.pending.items < length waiting.old.read.pending.items) }
    ensures broken_off { OnErr result
        (BreaksPart (W.contents writer.old) (W.contents writer.new) waiting.old.read.pending.items
        waiting.old.due) }
    ensures reads { waiting.new.read.reads_left ≡ waiting.old.read.reads_left }
{
    let count = smaller(waiting.due, waiting.read.pending.len());
    send(writer, &waiting.read.pending[..count])?;
    waiting.discard(count, waiting.due - count);
    Ok(())
}

// Passes the next part on. Answers whether there was one; else nothing changed, and what is pending ends no
// line.
fn pass_part<W: Write>(
    names: &Names<'_>,
    waiting: &mut Waiting,
    writer: &mut W,
) -> Result<bool, ShellFault>
    ensures passed { IfOk result (λ passed. passed ≡ true
        → PassesPart (W.contents writer.old) (W.contents writer.new) waiting.old.read.pending.items
        waiting.new.read.pending.items waiting.old.due waiting.new.due) }
    ensures fewer { IfOk result (λ passed. passed ≡ true
        → length waiting.new.read.pending.items < length waiting.old.read.pending.items) }
    ensures unended { IfOk result
        (λ passed. passed ≡ false → HasNoLineEnd waiting.new.read.pending.items) }
    ensures unchanged { IfOk result (λ passed. passed ≡ false
        → (writer.new ≡ writer.old) × (waiting.new ≡ waiting.old)) }
    ensures broken_off { OnErr result
        (BreaksPart (W.contents writer.old) (W.contents writer.new) waiting.old.read.pending.items
        waiting.old.due) }
    ensures reads { waiting.new.read.reads_left ≡ waiting.old.read.reads_left }
{
    if waiting.due > 0 {
        if waiting.read.pending.is_empty() {
            return Ok(false);
        }
        pass_bytes(waiting, writer)?;
        return Ok(true);
    }
    let Some(end) = first_line_end(&waiting.read.pending) else {
        return Ok(false);
    };
    pass_line(names, waiting, end, writer)?;
    Ok(true)
}

// Passes all parts on that are pending.
fn pass_parts<W: Write>(
    names: &Names<'_>,
    waiting: &mut Waiting,
    writer: &mut W,
) -> Result<(), ShellFault>
    ensures passed { OnOk result
        (GoesOn (W.contents writer.old) (W.contents writer.new) waiting.old.read.pending.items
        waiting.new.read.pending.items waiting.old.due waiting.new.due) }
    ensures unended { OnOk result (HasNoLineEnd waiting.new.read.pending.items) }
    ensures broken_off { OnErr result
        (BreaksOff (W.contents writer.old) (W.contents writer.new) waiting.old.read.pending.items
        waiting.old.due) }
    ensures reads { waiting.new.read.reads_left ≡ waiting.old.read.reads_left }
{
    'parts: while pass_part(names, waiting, writer)? {}
    Ok(())
}

// Passes all that comes on.
fn pass_all<R: Read, W: Write>(
    names: &Names<'_>,
    waiting: &mut Waiting,
    reader: &mut R,
    writer: &mut W,
) -> Result<(), ShellFault>
    requires nothing_pending { waiting.old.read.pending.items ≡ [] }
    requires nothing_due { waiting.old.due ≡ 0 }
    ensures passed { OnOk result
        (PassesAll (R.remaining reader.old) (R.remaining reader.new) (W.contents writer.old)
        (W.contents writer.new)) }
    ensures broken_off { OnErr result
        (PassesBeginning (R.remaining reader.old) (R.remaining reader.new) (W.contents writer.old)
        (W.contents writer.new)) }
{
    'reads: loop {
        pass_parts(names, waiting, writer)?;
        if !waiting.read.read_more(reader)? {
            send(writer, &waiting.read.pending)?;
            return Ok(());
        }
    }
}

/// Passes the answers of a session on, each line as it came, and behind it ` | ` and words where there are
/// some.
///
/// The words of a line are the source line of its step, what its code means, or which variable or other
/// object an undo was refused on; the source is that of the session. Of a source that is refused there are
/// the words of codes alone. The bytes that `output K bytes` announces are passed on as they are, and so is a
/// last line without a line feed. Each part is written and flushed before more is read, so it works live.
///
/// It reads to the end, and says whether the source is accepted. Faults:
/// - `Read` (H3): a read failed, or 2^32 reads were made.
/// - `Write` (H4): a write or a flush failed.
/// - `Memory` (H5): there was no memory, in whatever part.
pub fn annotate<R: Read, W: Write>(
    alloc: Global,
    source: &[u8],
    reader: &mut R,
    writer: &mut W,
) -> Result<bool, ShellFault>
    ensures passes_all { OnOk result
        (PassesAll (R.remaining reader.old) (R.remaining reader.new) (W.contents writer.old)
        (W.contents writer.new)) }
    ensures begun_on_error { OnErr result
        (PassesBeginning (R.remaining reader.old) (R.remaining reader.new) (W.contents writer.old)
        (W.contents writer.new)) }
    ensures accepted { IfOk result (λ accepted. IsKnown source.now accepted) }
{
    let names = Names::of(alloc, source)?;
    match pass_all(&names, &mut Waiting::new(alloc), reader, writer) {
        Ok(()) => Ok(names.accepted.is_some()),
        Err(fault) => Err(fault),
    }
}

/// The bytes that were read and not yet passed on.
#[derive(Drop)]
pub(crate) struct Waiting {
    pub(crate) read: Input,
    /// How many of the next bytes are passed on as they are.
    pub(crate) due: usize,
}

impl Waiting {
    /// Nothing is read yet. It takes no memory.
    pub(crate) fn new(alloc: Global) -> Waiting
        ensures pending { result.read.pending.items ≡ [] }
        ensures due { result.due ≡ 0 }
    {
        Waiting {
            read: Input::new(alloc),
            due: 0,
        }
    }

    /// Lets the first `used` pending bytes go, behind which so many are due as they are.
    pub(crate) fn discard(&mut self, used: usize, due: usize)
        requires { used ≤ length self.old.read.pending.items }
        ensures pending { self.new.read.pending.items ≡ drop used self.old.read.pending.items }
        ensures due { self.new.due ≡ due }
        ensures reads { self.new.read.reads_left ≡ self.old.read.reads_left }
    {
        self.read.discard(used);
        self.due = due;
    }
}
