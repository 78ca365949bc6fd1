//! Teams that a source asks more threads for than there are workers.

use lab_text::push_place;
use om_lexer::{FaultCode, Punctuator, Token, TokenKind, lex};
use om_seq::AllocResult;
use om_shell_commands::push_numbered;
use std::alloc::{AllocError, Global};

// How many workers there are at most.
const MOST_WORKERS: u8 = 32;

// Whether a token is this punctuator.
fn is_mark(token: &Token, mark: Punctuator) -> bool {
    matches!(&token.kind, TokenKind::Punctuator(found) if *found == mark)
}

// Whether a token is this name.
fn is_name(token: &Token, name: &[u8]) -> bool {
    matches!(&token.kind, TokenKind::Name(found) if found.as_slice() == name)
}

// The K of `num_threads(K)`, where the tokens begin so.
fn threads_asked(tokens: &[Token]) -> Option<u32> {
    let [word, left, number, right, ..] = tokens else {
        return None;
    };
    let TokenKind::Constant(threads) = &number.kind else {
        return None;
    };
    let is_clause = is_name(word, b"num_threads")
        && is_mark(left, Punctuator::OpenParen)
        && is_mark(right, Punctuator::CloseParen);
    is_clause.then_some(*threads)
}

/// A file, its source, and how many workers there are.
#[derive(Clone, Copy)]
pub(crate) struct Checked<'a> {
    pub(crate) file: &'a str,
    pub(crate) source: &'a [u8],
    pub(crate) workers: u8,
}

// Appends that a team is smaller than asked for.
fn push_note(text: &mut Vec<u8>, checked: Checked<'_>, at: u32, asked: u32) -> AllocResult<()> {
    push_place(text, checked.file, checked.source, at)?;
    push_numbered(text, b": note: with --threads ", checked.workers)?;
    push_numbered(text, b" this team has at most ", checked.workers)?;
    push_remedy(text, checked.workers, asked)?;
    text.extend_from_slice(b"\n")
}

// Appends with which `--threads` it is larger, where there may be more workers.
fn push_remedy(text: &mut Vec<u8>, workers: u8, asked: u32) -> AllocResult<()> {
    if workers >= MOST_WORKERS {
        return Ok(());
    }
    let wanted = asked.min(u32::from(MOST_WORKERS));
    push_numbered(text, b"; give omplab and ompback --threads ", wanted)
}

// A note for each clause of a directive that asks for too many.
fn push_notes(text: &mut Vec<u8>, checked: Checked<'_>, tokens: &[Token]) -> AllocResult<()> {
    let mut in_directive = false;
    for at in 0..tokens.len() {
        match &tokens[at].kind {
            TokenKind::DirectiveBegin => in_directive = true,
            TokenKind::DirectiveEnd => in_directive = false,
            _ => {}
        }
        let asked = threads_asked(&tokens[at..]).unwrap_or(0);
        if in_directive && asked > u32::from(checked.workers) {
            push_note(text, checked, tokens[at].span.start, asked)?;
        }
    }
    Ok(())
}

/// A note for each `num_threads` whose constant is above the number of workers. A source without tokens
/// has none.
pub(crate) fn team_notes(alloc: Global, checked: Checked<'_>) -> AllocResult<Vec<u8>> {
    let mut text = Vec::new(alloc);
    match lex(alloc, checked.source) {
        Ok(tokens) => push_notes(&mut text, checked, &tokens)?,
        Err(fault) => {
            if fault.code == FaultCode::Memory {
                return Err(AllocError);
            }
        }
    }
    Ok(text)
}
