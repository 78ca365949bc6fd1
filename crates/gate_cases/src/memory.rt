//! Sessions over a reader and a writer in memory, which give and take little at a time, or fail.

use om_shell::{Options, ShellFault, run};
use std::alloc::Global;
use std::io;
use std::io::{ErrorKind, Read, Write};
use std::sync::Wait;
use std::thread::Threads;

/// Gives its bytes at most `most` at a time, and fails at the read after `reads_left` of them.
#[derive(Drop)]
pub(crate) struct Pieces<'a> {
    pub bytes: &'a [u8],
    pub most: usize,
    pub reads_left: u64,
}

impl Read for Pieces<'_> {
    fn read(&mut self, buf: &mut [u8]) -> io::Result<usize> {
        if self.reads_left == 0 {
            return Err(io::Error::from(ErrorKind::BrokenPipe));
        }
        self.reads_left -= 1;
        let n = self.bytes.len().min(self.most).min(buf.len());
        let (front, rest) = self.bytes.split_at(n);
        buf[..n].copy_from_slice(front);
        self.bytes = rest;
        Ok(n)
    }
}

/// Keeps at most `most` bytes of each write, and fails at the write or flush after `calls_left` of them.
#[derive(Drop)]
pub(crate) struct Sink {
    bytes: Vec<u8>,
    most: usize,
    calls_left: u64,
}

impl Sink {
    /// Nothing is written yet.
    pub(crate) fn new(alloc: Global, most: usize, calls_left: u64) -> Sink {
        Sink {
            bytes: Vec::new(alloc),
            most,
            calls_left,
        }
    }

    // Fails where no call is left.
    fn take_call(&mut self) -> io::Result<()> {
        match self.calls_left.checked_sub(1) {
            Some(calls_left) => {
                self.calls_left = calls_left;
                Ok(())
            }
            None => Err(io::Error::from(ErrorKind::BrokenPipe)),
        }
    }
}

impl Write for Sink {
    fn write(&mut self, buf: &[u8]) -> io::Result<usize> {
        self.take_call()?;
        let n = buf.len().min(self.most);
        self.bytes.extend_from_slice(&buf[..n])?;
        Ok(n)
    }

    fn flush(&mut self) -> io::Result<()> {
        self.take_call()
    }
}

/// How a session ended, and what was written in it.
#[derive(Drop)]
pub(crate) struct Outcome {
    status: Result<u8, ShellFault>,
    text: Vec<u8>,
}

impl Outcome {
    /// Whether the session ended well, and nothing else was written.
    pub(crate) fn is_whole(&self, output: &str) -> bool {
        matches!(self.status, Ok(0)) && self.text.as_slice() == output.as_bytes()
    }

    /// Whether the session was broken off by this fault, after a beginning of what is to be written.
    pub(crate) fn is_broken_off(&self, fault: ShellFault, output: &str) -> bool {
        let begun = output.as_bytes().starts_with(self.text.as_slice());
        begun && matches!(self.status, Err(met) if met == fault)
    }
}

/// A session of two workers over these ends.
pub(crate) fn session_over<R: Threads + Wait + Sync>(
    rt: &R,
    alloc: Global,
    source: Option<&[u8]>,
    mut reader: Pieces<'_>,
    mut writer: Sink,
) -> Outcome {
    let options = Options { workers: 2, source };
    let status = match run(rt, alloc, &mut reader, &mut writer, options) {
        Ok(ended) => Ok(ended.into_status()),
        Err(fault) => Err(fault),
    };
    Outcome {
        status,
        text: writer.bytes,
    }
}
