//! The source at the front of the input, up to the line `%%`, and a session that was read whole, cut into
//! its source and its commands.

ghost use Rattle.std.specs.Prelude.{◌≡◌, ◌≤◌, ◌^◌, ◌+◌, ◌*◌, ◌++◌, [], ℕ, List, None, true, false, IfSome, IsNone};
ghost use Rattle.std.specs.Prelude.{IfOk, IfErr, OnOk, take, drop, length};
ghost use Rattle.std.specs.Option.{option_copied};
ghost use Rattle.std.specs.Str.Lines.{lines};
ghost use Rattle.om_shell.specs.Lines.{HasNoLineEnd, parts_of, source_in, commands_in, kept};
ghost use Rattle.om_shell.specs.Source.{Scanned, IsMarked, IsUnmarked, KeepsSource, EndsSource, ReadsMark, ReadsToEnd};
ghost use Rattle.om_shell.specs.Source.{ReadsNoMark};
ghost use Rattle.om_shell.specs.Script.{source_of, commands_of};

use crate::ended::ShellFault;
use crate::input::{Input, line_end, without_carriage_return};
use std::io::Read;

// The line that ends the source.
const MARK: &[u8] = b"%%";

/// Goes over whole lines from `at` on, up to the mark. The first `searched` bytes there are known to end no line.
pub(crate) fn scan(bytes: &[u8], mut at: usize, mut searched: usize) -> (usize, Option<usize>)
    requires scanned { Scanned bytes.now at }
    requires within { searched ≤ length (drop at bytes.now) }
    requires known { HasNoLineEnd (take searched (drop at bytes.now)) }
    ensures scanned { IsNone result.1 → Scanned bytes.now result.0 }
    ensures unended { IsNone result.1 → HasNoLineEnd (drop result.0 bytes.now) }
    ensures marked { IfSome result.1 (λ after. IsMarked bytes.now result.0 after) }
{
    'lines: while let Some(n) = line_end(&bytes[at..], searched) {
        let line = without_carriage_return(&bytes[at..at + n]);
        let next = at + (n + 1);
        if line == MARK {
            return (at, Some(next));
        }
        at = next;
        searched = 0;
    }
    (at, None)
}

/// Where the source ends in an input that has ended, whose whole lines up to `at` are of the source.
pub(crate) fn source_end(bytes: &[u8], at: usize) -> usize
    requires scanned { Scanned bytes.now at }
    requires unended { HasNoLineEnd (drop at bytes.now) }
    ensures { IsUnmarked bytes.now result }
{
    if &bytes[at..] == MARK {
        at
    } else {
        bytes.len()
    }
}

// So many bytes of a source are kept, four times as many as it may have.
const MOST_KEPT: usize = 4_194_304;

// So many bytes of a line are no mark, whatever follows them.
const STUB: usize = 4;

/// The bytes that are kept of a source: its first 4,194,304, or all where it has fewer.
pub(crate) fn kept(source: &[u8]) -> &[u8]
    ensures { result.now ≡ kept source.now }
{
    if source.len() > MOST_KEPT {
        &source[..MOST_KEPT]
    } else {
        source
    }
}

/// Appends bytes to what is kept of a source, as many as are kept. Its only error is out of memory.
pub(crate) fn keep(source: &mut Vec<u8>, bytes: &[u8]) -> Result<(), ShellFault>
    requires { length source.old.items ≤ 4194304 }
    ensures kept { OnOk result (source.new.items ≡ kept (source.old.items ++ bytes.now)) }
    ensures few { OnOk result (length source.new.items ≤ 4194304) }
    ensures want_of_memory { IfErr result (λ fault. fault ≡ ShellFault.Memory) }
{
    let room = MOST_KEPT - source.len();
    if bytes.len() > room {
        source.extend_from_slice(&bytes[..room])?;
    } else {
        source.extend_from_slice(bytes)?;
    }
    Ok(())
}

/// Reads as far as the mark's line, or to the end. Answers whether the mark's line was met.
///
/// What is kept of the source stands in `source` then, and what stands after the mark's line is pending.
/// Further bytes of a source are read and dropped. Each byte is looked at a bounded number of times,
/// however long the lines are.
pub(crate) fn read_source<R: Read>(
    source: &mut Vec<u8>,
    input: &mut Input,
    reader: &mut R,
) -> Result<bool, ShellFault>
    requires empty { source.old.items ≡ [] }
    requires unread { input.old.pending.items ≡ [] }
    ensures marked { IfOk result (λ marked. marked ≡ true → ReadsMark (R.remaining reader.old)
        (R.remaining reader.new) source.new.items input.new.pending.items) }
    ensures unmarked { IfOk result (λ marked. marked ≡ false → ReadsToEnd (R.remaining reader.old)
        (R.remaining reader.new) source.new.items) }
    ensures failed { IfErr result (ReadsNoMark (R.remaining reader.old) (R.remaining reader.new)) }
{
    let mut searched = 0;
    'reads: loop {
        let marked = take_lines(source, input, searched)?;
        if marked {
            return Ok(true);
        }
        searched = input.pending.len();
        let more = input.read_more(reader)?;
        if !more {
            let end = source_end(&input.pending, 0);
            keep(source, &input.pending[..end])?;
            return Ok(false);
        }
    }
}

// Takes the whole lines at the front of the pending bytes, up to the mark's, and of a line that is not
// yet ended all but its last bytes. Answers whether the mark's line was met. Its only error is out of
// memory. The first `searched` bytes are known to end no line.
fn take_lines(source: &mut Vec<u8>, input: &mut Input, searched: usize) -> Result<bool, ShellFault>
    requires few { length source.old.items ≤ 4194304 }
    requires within { searched ≤ length input.old.pending.items }
    requires known { HasNoLineEnd (take searched input.old.pending.items) }
    ensures ended { IfOk result (λ marked. marked ≡ true → (taken : List ℕ)
        → KeepsSource taken source.old.items input.old.pending.items
        → EndsSource taken source.new.items input.new.pending.items) }
    ensures kept { IfOk result (λ marked. marked ≡ false → (taken : List ℕ)
        → KeepsSource taken source.old.items input.old.pending.items
        → KeepsSource taken source.new.items input.new.pending.items) }
    ensures unended { IfOk result (λ marked. marked ≡ false
        → HasNoLineEnd input.new.pending.items) }
    ensures reads { input.new.reads_left ≡ input.old.reads_left }
    ensures want_of_memory { IfErr result (λ fault. fault ≡ ShellFault.Memory) }
{
    let (at, after) = scan(&input.pending, 0, searched);
    keep(source, &input.pending[..at])?;
    if let Some(after) = after {
        input.discard(after);
        return Ok(true);
    }
    input.discard(at);
    take_long_line(source, input)?;
    Ok(false)
}

// Takes all but the last bytes of a line that is not yet ended. Its only error is out of memory.
fn take_long_line(source: &mut Vec<u8>, input: &mut Input) -> Result<(), ShellFault>
    requires few { length source.old.items ≤ 4194304 }
    requires unended { HasNoLineEnd input.old.pending.items }
    ensures kept { OnOk result ((taken : List ℕ)
        → KeepsSource taken source.old.items input.old.pending.items
        → KeepsSource taken source.new.items input.new.pending.items) }
    ensures unended { OnOk result (HasNoLineEnd input.new.pending.items) }
    ensures reads { input.new.reads_left ≡ input.old.reads_left }
    ensures want_of_memory { IfErr result (λ fault. fault ≡ ShellFault.Memory) }
{
    if input.pending.len() <= STUB {
        return Ok(());
    }
    let over = input.pending.len() - STUB;
    keep(source, &input.pending[..over])?;
    input.discard(over);
    Ok(())
}

/// The bytes of a session: its source, and its commands.
#[derive(Clone, Copy)]
pub struct SessionBytes<'a> {
    pub source: &'a [u8],
    /// What stands after the source and its line `%%`, or all of the input where the source was handed in.
    pub commands: &'a [u8],
}

/// The source and the commands of a session: the source is given, or stands at the front of the input. Of one that
/// stands there the first 4,194,304 bytes are kept.
pub fn session_bytes<'a>(given: Option<&'a [u8]>, input: &'a [u8]) -> SessionBytes<'a>
    ensures source { result.source.now ≡ source_of (option_copied given.entry) input.now }
    ensures commands { lines result.commands.now
        ≡ commands_of (option_copied given.entry) input.now }
{
    match given {
        Some(source) => SessionBytes {
            source,
            commands: input,
        },
        None => cut(input),
    }
}

// What is kept of the source at the front of an input, up to the line `%%`, and the commands after it.
fn cut(input: &[u8]) -> SessionBytes<'_>
    ensures source { result.source.now ≡ kept (source_in (parts_of input.now)) }
    ensures commands { lines result.commands.now ≡ commands_in (parts_of input.now) }
{
    let (at, after) = scan(input, 0, 0);
    match after {
        Some(after) => SessionBytes {
            source: kept(&input[..at]),
            commands: &input[after..],
        },
        None => SessionBytes {
            source: kept(&input[..source_end(input, at)]),
            commands: &[],
        },
    }
}
