//! What a source says of the answers of its session.

ghost use Rattle.std.specs.Prelude.{is_some, IfOk};
ghost use Rattle.lab_notes.specs.Sources.{IsKnown};

use crate::function::{Function, functions_of};
use om_code::Program;
use om_frontend::program_of;
use om_lexer::{FaultCode, lex};
use om_seq::AllocResult;
use std::alloc::{AllocError, Global};

/// An accepted source: its program and its functions.
#[derive(Drop)]
pub(crate) struct Accepted {
    pub(crate) program: Program,
    pub(crate) functions: Vec<Function>,
}

/// What a source says of the answers of its session.
#[derive(Drop)]
pub(crate) struct Names<'a> {
    pub(crate) alloc: Global,
    /// Its lines, without their ends.
    pub(crate) lines: Vec<&'a [u8]>,
    /// `None` where the source is refused.
    pub(crate) accepted: Option<Accepted>,
}

// The functions of a source; a source without tokens has none.
fn functions_in(alloc: Global, source: &[u8]) -> AllocResult<Vec<Function>> {
    match lex(alloc, source) {
        Ok(tokens) => functions_of(alloc, &tokens),
        Err(fault) => {
            if fault.code == FaultCode::Memory {
                return Err(AllocError);
            }
            Ok(Vec::new(alloc))
        }
    }
}

// A source that is accepted; `None` where it is refused.
fn accepted_source(alloc: Global, source: &[u8]) -> AllocResult<Option<Accepted>>
    ensures { IfOk result (λ accepted. IsKnown source.now (is_some accepted)) }
{
    match program_of(alloc, source) {
        Ok(program) => match functions_in(alloc, source) {
            Ok(functions) => Ok(Some(Accepted { program, functions })),
            Err(error) => Err(error),
        },
        Err(fault) => {
            if fault.code == FaultCode::Memory {
                return Err(AllocError);
            }
            Ok(None)
        }
    }
}

// The lines of a text.
fn lines_of(alloc: Global, text: &[u8]) -> AllocResult<Vec<&[u8]>> {
    text.split(|byte| *byte == b'\n').collect(alloc)
}

impl<'a> Names<'a> {
    /// What this source says. The only error is out of memory.
    pub(crate) fn of(alloc: Global, source: &'a [u8]) -> AllocResult<Names<'a>>
        ensures { IfOk result (λ names. IsKnown source.entry.now (is_some names.accepted)) }
    {
        let accepted = accepted_source(alloc, source)?;
        match lines_of(alloc, source) {
            Ok(lines) => Ok(Names {
                alloc,
                lines,
                accepted,
            }),
            Err(error) => Err(error),
        }
    }

    /// A line of an accepted source, from 1, without white space around it; no bytes where there is none.
    pub(crate) fn source_line(&self, number: u64) -> &[u8] {
        if self.accepted.is_none() || number == 0 {
            return &[];
        }
        match self.lines.get((number - 1) as usize) {
            Some(line) => line.trim_ascii(),
            None => &[],
        }
    }
}
