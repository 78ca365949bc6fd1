//! Declarations of variables (C17 6.7).

ghost use Rattle.std.specs.Prelude.{ℕ};
ghost use Rattle.om_parser_tree.specs.Limits.{accepted};
ghost use Rattle.om_parser_parts.specs.Reading.{LeavesNoMore, Reader, Reads, ReadsAlways};
ghost use Rattle.om_parser_parts.specs.ExpressionReading.{whole_at};
ghost use Rattle.om_parser_parts.specs.DeclarationReading.{signed_at, array_after, declarator_after, further_at, declarators_at, declaration_after, declared_at, initialized};
ghost use Rattle.om_parser_parts.specs.Made.{MakesDeclarator, MakesUninitialized, ReadsDeclarator, ReadsDeclared, ReadsFurther, ReadsOne, ReadsUntil};
ghost use Rattle.om_parser_tree.specs.Tree.{ExpressionTree};
ghost use Rattle.om_parser_tree.specs.declared.tree.SignedNumber.{SignedNumber};
ghost use Rattle.om_parser_tree.specs.View.{view_expression, view_further, view_local};

use crate::expression::whole;
use crate::front::{mark, name, number, take_mark};
use om_lexer::{Punctuator, SourceResult, Span, Token};
use om_parser_tree::assembly::boxed_before;
use om_parser_tree::{ArrayLength, Declaration, Declarator, Expression, Initializer, SignedNumber};
use om_pragma::Name;
use std::alloc::Global;

/// What a declared variable may hold at the start, behind the `=` (C17 6.7.9).
pub trait Initial: Drop {
    /// What contracts see of it.
    ghost Tree: { Type 0 };

    /// Its tree.
    ghost view: { Self → Tree };

    /// What reading gives, where brackets may nest so deep.
    ghost reader: { ℕ → Reader Tree };

    /// Reads it, and gives the tokens behind it. Brackets may nest `room` deep in it.
    fn read(alloc: Global, room: usize, tokens: &[Token]) -> SourceResult<(Self, &[Token])>
        ensures { Reads (λ x. (view x.0, x.1.now)) result (reader room tokens.now) };
}

/// In a block: any expression.
impl Initial for Expression {
    ghost Tree = { ExpressionTree };

    ghost view = { view_expression };

    ghost reader = { λ room. whole_at accepted room };

    fn read(alloc: Global, room: usize, tokens: &[Token]) -> SourceResult<(Expression, &[Token])> {
        let (value, rest) = whole(alloc, tokens, room)?;
        Ok((Box::into_inner(value), rest))
    }
}

/// At file scope: a number, perhaps behind a minus. It has no brackets.
impl Initial for SignedNumber {
    ghost Tree = { SignedNumber };

    ghost view = { λ number. number };

    ghost reader = { λ room. signed_at };

    fn read(
        _alloc: Global,
        _room: usize,
        tokens: &[Token],
    ) -> SourceResult<(SignedNumber, &[Token])> {
        if let Some((minus, rest)) = take_mark(tokens, Punctuator::Minus) {
            let (number, rest) = number(rest)?;
            let minus = Some(minus);
            return Ok((SignedNumber { minus, number }, rest));
        }
        let (number, rest) = number(tokens)?;
        let minus = None;
        Ok((SignedNumber { minus, number }, rest))
    }
}

/// The rest of a declaration, of which `int` and the first name are taken, and the tokens behind
/// it. Brackets may nest `room` deep in what its variables hold at the start.
pub fn declaration_after<I: Initial>(
    alloc: Global,
    room: usize,
    int: Span,
    name: Name,
    tokens: &[Token],
) -> SourceResult<(Declaration<I>, &[Token])>
    requires { LeavesNoMore (I.reader room) }
    ensures { ReadsDeclared I.view result (declaration_after (I.reader room) int name tokens.now) }
{
    let (first, rest) = declarator_after(alloc, room, name, tokens)?;
    let (others, semicolon, rest) = further_declarators(alloc, room, rest)?;
    let first = Box::into_inner(first);
    Ok((
        Declaration {
            int,
            first,
            rest: others,
            semicolon,
        },
        rest,
    ))
}

/// The rest of a declaration in a block or a `for`, of which `int` is taken, and the tokens
/// behind it. Brackets may nest `room` deep in its initializers.
pub fn local_declaration(
    alloc: Global,
    room: usize,
    int: Span,
    tokens: &[Token],
) -> SourceResult<(Declaration<Expression>, &[Token])>
    ensures { ReadsOne view_local result (declared_at (whole_at accepted room) int tokens.now) }
{
    let (name, rest) = name(alloc, tokens)?;
    declaration_after(alloc, room, int, name, rest)
}

// Declarators behind commas up to a semicolon, its span, and the tokens behind it.
fn further_declarators<I: Initial>(
    alloc: Global,
    room: usize,
    tokens: &[Token],
) -> SourceResult<(Vec<(Span, Declarator<I>)>, Span, &[Token])>
    requires { LeavesNoMore (I.reader room) }
    ensures { ReadsUntil (view_further I.view) result (declarators_at (I.reader room) tokens.now) }
{
    let mut declarators = Vec::new(alloc);
    let mut rest = tokens;
    'declarators: loop {
        if let Some((semicolon, after)) = take_mark(rest, Punctuator::Semicolon) {
            return Ok((declarators, semicolon, after));
        }
        let (comma, next, after) = further_declarator(alloc, room, rest)?;
        declarators.push((comma, Box::into_inner(next)))?;
        rest = after;
    }
}

// A comma, the declarator behind it, and the tokens behind that.
fn further_declarator<I: Initial>(
    alloc: Global,
    room: usize,
    tokens: &[Token],
) -> SourceResult<(Span, Box<Declarator<I>>, &[Token])>
    ensures { ReadsFurther I.view result (further_at (I.reader room) tokens.now) }
{
    let (comma, rest) = mark(tokens, Punctuator::Comma)?;
    let (name, rest) = name(alloc, rest)?;
    let (declarator, rest) = declarator_after(alloc, room, name, rest)?;
    Ok((comma, declarator, rest))
}

// The rest of a declarator, of which the name is taken.
fn declarator_after<I: Initial>(
    alloc: Global,
    room: usize,
    name: Name,
    tokens: &[Token],
) -> SourceResult<(Box<Declarator<I>>, &[Token])>
    ensures { ReadsDeclarator I.view result (declarator_after (I.reader room) name tokens.now) }
{
    if let Some((left, rest)) = take_mark(tokens, Punctuator::OpenBracket) {
        let (array, rest) = array_after(left, rest)?;
        return uninitialized(alloc, name, Some(array), rest);
    }
    if let Some((equal, rest)) = take_mark(tokens, Punctuator::Equal) {
        let (value, rest) = I::read(alloc, room, rest)?;
        return initialized(alloc, name, equal, value, rest);
    }
    uninitialized(alloc, name, None, tokens)
}

// A declarator without an initializer.
fn uninitialized<'a, I: Initial>(
    alloc: Global,
    name: Name,
    array: Option<ArrayLength>,
    rest: &'a [Token],
) -> SourceResult<(Box<Declarator<I>>, &'a [Token])>
    ensures { MakesUninitialized I.view result name array rest.now }
{
    let declarator = Declarator {
        name,
        array,
        initializer: None,
    };
    boxed_before(alloc, declarator, rest)
}

// A declarator with an initializer.
fn initialized<'a, I: Initial>(
    alloc: Global,
    name: Name,
    equal: Span,
    value: I,
    rest: &'a [Token],
) -> SourceResult<(Box<Declarator<I>>, &'a [Token])>
    ensures { MakesDeclarator I.view result (initialized name equal (I.view value)) rest.now }
{
    let declarator = Declarator {
        name,
        array: None,
        initializer: Some(Initializer { equal, value }),
    };
    boxed_before(alloc, declarator, rest)
}

// The brackets and the size of an array, of which the left one is taken.
fn array_after(open_bracket: Span, tokens: &[Token]) -> SourceResult<(ArrayLength, &[Token])>
    ensures { ReadsAlways (λ x. (x.0, x.1.now)) result (array_after open_bracket tokens.now) }
{
    let (size, rest) = number(tokens)?;
    let (close_bracket, rest) = mark(rest, Punctuator::CloseBracket)?;
    Ok((
        ArrayLength {
            open_bracket,
            size,
            close_bracket,
        },
        rest,
    ))
}
