//! A source in a file, a reader that is read whole, and the words that a program is called with.

ghost use Rattle.std.specs.Prelude.{IfOk};
ghost use Rattle.om_shell.specs.Files.{ReadsAll, ReadsSource};

use crate::ended::ShellFault;
use crate::source::keep;
use om_seq::AllocResult;
use std::alloc::{AllocError, Global};
use std::io;
use std::io::{ErrorKind, Read};
use std::rt::{Files, Runtime};

// How many reads of a file there are at most.
const MOST_READS: u64 = 1 << 32;

// How many bytes a read asks for.
const CHUNK: usize = 16_384;

/// All that a reader has.
///
/// Errors: H3 where a read fails, or the end isn't reached within 2^32 reads; H5 when out of memory.
pub fn read_all<R: Read>(alloc: Global, reader: &mut R) -> Result<Vec<u8>, ShellFault>
    ensures { IfOk result
        (λ bytes. ReadsAll (R.remaining reader.old) (R.remaining reader.new) bytes.items) }
{
    let mut bytes = Vec::new(alloc);
    let mut chunk = [0; CHUNK];
    'reads: for _ in 0..MOST_READS {
        match reader.read(&mut chunk) {
            Ok(0) => return Ok(bytes),
            Ok(n) => bytes
                .extend_from_slice(&chunk[..n])
                .map_err(|_| ShellFault::Memory)?,
            Err(e) if e.kind() == ErrorKind::Interrupted => {}
            Err(_) => return Err(ShellFault::Read),
        }
    }
    Err(ShellFault::Read)
}

// The first bytes that a reader has, as many as are kept of a source. Further ones are read and dropped.
//
// Errors: as those of `read_all`.
fn read_kept<R: Read>(alloc: Global, reader: &mut R) -> Result<Vec<u8>, ShellFault>
    ensures { IfOk result
        (λ bytes. ReadsSource (R.remaining reader.old) (R.remaining reader.new) bytes.items) }
{
    let mut bytes = Vec::new(alloc);
    let mut chunk = [0; CHUNK];
    'reads: for _ in 0..MOST_READS {
        match reader.read(&mut chunk) {
            Ok(0) => return Ok(bytes),
            Ok(n) => keep(&mut bytes, &chunk[..n])?,
            Err(e) if e.kind() == ErrorKind::Interrupted => {}
            Err(_) => return Err(ShellFault::Read),
        }
    }
    Err(ShellFault::Read)
}

// What is kept of the file of this name.
fn read_file<R: Files>(rt: &R, alloc: Global, path: &str) -> Result<Vec<u8>, ShellFault> {
    match std::fs::open(rt, path) {
        Ok(mut reader) => read_kept(alloc, &mut reader),
        Err(_) => Err(ShellFault::Read),
    }
}

/// The source in the file that is named, if one is: its first 4,194,304 bytes, or all where it has fewer.
/// So many suffice to refuse it, since it may have a quarter of them. Further bytes are read and dropped.
///
/// Errors: H3 where it can't be opened or read; H5 when out of memory.
pub fn read_named<R: Files>(
    rt: &R,
    alloc: Global,
    file: Option<&str>,
) -> Result<Option<Vec<u8>>, ShellFault> {
    file.map(|path| read_file(rt, alloc, path)).transpose()
}

/// The words that the program is called with, its name first. `None` where they can't be had, or one of them is no
/// text: standard error tells why then. Its only error is out of memory.
pub fn words_of<R: Runtime + AllocGlobal>(
    rt: &R,
    alloc: Global,
) -> AllocResult<Option<Vec<String>>> {
    match std::env::args(rt) {
        Ok(args) => Ok(Some(args.collect(alloc)?)),
        Err(error) if error.kind() == io::ErrorKind::OutOfMemory => Err(AllocError),
        Err(error) => {
            let _ = rt.eprintln(error);
            Ok(None)
        }
    }
}
