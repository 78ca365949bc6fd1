//! A run: a source, and then commands, each answered before more is read. It is told options besides its
//! input.

ghost use Rattle.std.specs.Prelude.{◌≡◌, ◌<◌, ◌≤◌, [], None, IfOk, IfErr, OnOk, IfSome, option_copied};
ghost use Rattle.std.specs.Io.KnownBytes.{Appends};
ghost use Rattle.om_shell.specs.Ends.{RunsToEnd, BreaksOffRun, WritesScript};
ghost use Rattle.om_shell.specs.Progress.{moment_of};

use crate::ended::{Ended, ShellFault};
use crate::input::Input;
use crate::serve::serve_alone;
use crate::session::Host;
use crate::source::read_source;
use std::alloc::Global;
use std::io::{Read, Write};
use std::sync::Wait;
use std::thread::Threads;

/// What a run is told besides its input.
#[derive(Clone, Copy)]
pub struct Options<'a> {
    /// How many workers there are, 1 to 32.
    pub workers: u8,
    /// The source; where there is none, it stands at the front of the input, up to a line `%%`. Of that one
    /// the first 4,194,304 bytes are kept.
    pub source: Option<&'a [u8]>,
}

// A run whose source stands at the front of the input.
fn run_from_input<H: Threads + Wait + Sync, R: Read, W: Write>(
    host: &Host<'_, H>,
    reader: &mut R,
    writer: &mut W,
) -> Result<Ended, ShellFault>
    requires at_least_one { 0 < host.now.workers }
    requires at_most_32 { host.now.workers ≤ 32 }
    ensures to_end { IfOk result
        (λ ended. RunsToEnd (moment_of (R.remaining reader.old) (W.contents writer.old) [])
        (moment_of (R.remaining reader.new) (W.contents writer.new) [])
        host.now.workers None ended.status ended.book) }
    ensures broken_off { IfErr result
        (BreaksOffRun (moment_of (R.remaining reader.old) (W.contents writer.old) [])
        (moment_of (R.remaining reader.new) (W.contents writer.new) [])
        host.now.workers None) }
{
    let mut input = Input::new(host.alloc);
    let mut source = Vec::new(host.alloc);
    let marked = read_source(&mut source, &mut input, reader)?;
    if marked {
        host.serve(&source, &mut input, reader, writer)
    } else {
        serve_alone(host.alloc, host.workers, &source, writer)
    }
}

fn run_by<H: Threads + Wait + Sync, R: Read, W: Write>(
    host: &Host<'_, H>,
    reader: &mut R,
    writer: &mut W,
    source: Option<&[u8]>,
) -> Result<Ended, ShellFault>
    requires at_least_one { 0 < host.now.workers }
    requires at_most_32 { host.now.workers ≤ 32 }
    ensures to_end { IfOk result
        (λ ended. RunsToEnd (moment_of (R.remaining reader.old) (W.contents writer.old) [])
        (moment_of (R.remaining reader.new) (W.contents writer.new) [])
        host.now.workers (option_copied source.entry) ended.status ended.book) }
    ensures broken_off { IfErr result
        (BreaksOffRun (moment_of (R.remaining reader.old) (W.contents writer.old) [])
        (moment_of (R.remaining reader.new) (W.contents writer.new) [])
        host.now.workers (option_copied source.entry)) }
{
    match source {
        Some(source) => host.serve(source, &mut Input::new(host.alloc), reader, writer),
        None => run_from_input(host, reader, writer),
    }
}

/// Reads a source, unless one is handed in, and commands, and answers each before it reads on.
///
/// Bytes are taken from the reader in pieces, up to 2^32 of them, and each reply is written and flushed before the
/// next read. Of a source its first 4,194,304 bytes are kept, and of a line of commands that is not yet ended its
/// first 1,026. Further bytes are read and dropped, so an input takes no more memory however long it is.
/// Without a fault it stops at the end of the input, at the command `quit`, or where a source that was read to its
/// end is refused. A free run starts threads by `rt`, and joins them before its reply. Faults:
/// - `Read` (H3): a read failed, or 2^32 reads were made.
/// - `Write` (H4): a write or a flush failed.
/// - `Memory` (H5): there was no memory, no thread for a free run, or a receipt of one did not stand.
///
/// No clause says when which fault comes. Where it is `Read`, every whole line before it was answered.
pub fn run<H: Threads + Wait + Sync, R: Read, W: Write>(
    rt: &H,
    alloc: Global,
    reader: &mut R,
    writer: &mut W,
    options: Options<'_>,
) -> Result<Ended, ShellFault>
    requires at_least_one_worker { 0 < options.workers }
    requires at_most_32_workers { options.workers ≤ 32 }

    // What was written is the script of the bytes that were taken, and nothing further could change it.
    ensures runs_to_end { IfOk result
        (λ ended. RunsToEnd (moment_of (R.remaining reader.old) (W.contents writer.old) [])
        (moment_of (R.remaining reader.new) (W.contents writer.new) [])
        options.entry.workers (option_copied options.entry.source) ended.status ended.book) }

    // So it is the script of all that the reader had.
    ensures writes_the_script { OnOk result (IfSome (R.remaining reader.old) (λ input.
        WritesScript (W.contents writer.old) (W.contents writer.new) options.entry.workers
        (option_copied options.entry.source) input)) }

    // After a fault it is a beginning of the script of the bytes that were taken.
    ensures begun_on_error { IfErr result
        (BreaksOffRun (moment_of (R.remaining reader.old) (W.contents writer.old) [])
        (moment_of (R.remaining reader.new) (W.contents writer.new) [])
        options.entry.workers (option_copied options.entry.source)) }
{
    let host = Host {
        rt,
        alloc,
        workers: options.workers,
    };
    run_by(&host, reader, writer, options.source)
}
