//! The functions of a source, and the lines that they take.

use om_lexer::{Punctuator, Token, TokenKind};
use om_seq::{AllocResult, Seq};
use std::alloc::Global;

/// A function of a source.
#[derive(Drop)]
pub(crate) struct Function {
    /// The bytes of its name.
    pub(crate) name: Seq<u8>,
    /// The line of its name, from 1.
    pub(crate) first: u32,
    /// The line of its closing brace.
    pub(crate) last: u32,
}

// The name that a token is.
fn name_of(token: &Token) -> Option<&[u8]> {
    let TokenKind::Name(name) = &token.kind else {
        return None;
    };
    Some(name.as_slice())
}

// Whether a token is this punctuator.
fn is_mark(token: &Token, mark: Punctuator) -> bool {
    matches!(&token.kind, TokenKind::Punctuator(found) if *found == mark)
}

// The name of a function whose braces begin or end, where the walk over the tokens is.
#[derive(Clone, Copy)]
struct Walk<'a> {
    // How many braces are open.
    depth: u32,
    // The name before the last `(` outside of braces, and its line.
    name: Option<(&'a [u8], u32)>,
}

// The walk behind one more token, which stands behind another one.
fn behind<'a>(walk: Walk<'a>, before: &'a Token, token: &Token) -> Walk<'a> {
    let mut next = walk;
    if is_mark(token, Punctuator::OpenBrace) {
        next.depth = walk.depth.saturating_add(1);
    } else if is_mark(token, Punctuator::CloseBrace) {
        next.depth = walk.depth.saturating_sub(1);
    } else if walk.depth == 0 && is_mark(token, Punctuator::OpenParen) {
        next.name = name_of(before).map(|name| (name, before.span.line));
    }
    next
}

// The function that ends with a token, if one does.
fn ended(alloc: Global, walk: Walk<'_>, token: &Token) -> AllocResult<Option<Function>> {
    if walk.depth != 0 || !is_mark(token, Punctuator::CloseBrace) {
        return Ok(None);
    }
    let Some((name, first)) = walk.name else {
        return Ok(None);
    };
    Ok(Some(Function {
        name: Seq::of(Vec::from_slice(alloc, name)?),
        first,
        last: token.span.line,
    }))
}

/// The functions that these tokens define, in their order.
pub(crate) fn functions_of(alloc: Global, tokens: &[Token]) -> AllocResult<Vec<Function>> {
    let mut functions = Vec::new(alloc);
    let mut walk = Walk {
        depth: 0,
        name: None,
    };
    for at in 1..tokens.len() {
        walk = behind(walk, &tokens[at - 1], &tokens[at]);
        if let Some(function) = ended(alloc, walk, &tokens[at])? {
            functions.push(function)?;
        }
    }
    Ok(functions)
}

/// The name of the function that takes a line; `None` where several do, or none.
pub(crate) fn function_at(functions: &[Function], line: u32) -> Option<&[u8]> {
    let mut found = None;
    for function in functions {
        if function.first <= line && line <= function.last {
            if found.is_some() {
                return None;
            }
            found = Some(function.name.as_slice());
        }
    }
    found
}
