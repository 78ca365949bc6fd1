//! Statements and blocks (C17 6.8).

ghost use Rattle.std.specs.Prelude.{◌≡◌, option_map};
ghost use Rattle.om_lexer.specs.declared.token.Keyword.TheVariants.{Else};
ghost use Rattle.om_parser.specs.StatementReading.{atomic_in, block_at, block_in, block_item_in, construct_in, constructed_in, directive_in, do_after, every_part_in, headed_in, items_in, part_in, part_item_in, part_items_in, parts_in, sections_in, statement_in};
ghost use Rattle.om_parser.specs.StatementView.{behind_body_in, ReadsBraces, ReadsStatement};
ghost use Rattle.om_parser_parts.specs.Made.{ReadsEach, ReadsOne, ReadsUntil};
ghost use Rattle.om_parser_parts.specs.PartReading.{parts};
ghost use Rattle.om_parser_parts.specs.Reading.{take_word};
ghost use Rattle.om_parser_tree.specs.Limits.{accepted};
ghost use Rattle.om_parser_tree.specs.View.{view_block, view_line, view_part, view_statement};

use crate::construct::{LineStart, at_section, ends_part, line_start, misplaced};
use crate::ending::{atomic_of, do_end};
use crate::opening::{Opening, opening_after};
use crate::simple::{declaration_item, section, simple, stand_alone, unknown_line};
use crate::start::{Start, no_room, start_of};
use om_lexer::{Keyword, Punctuator, SourceResult, Span, Token};
use om_parser_parts::front::{mark, syntax, take_mark, take_word, too_deep};
use om_parser_parts::laws::parts_are_sound;
use om_parser_parts::part::directive_line;
use om_parser_tree::assembly::{
    Branches, block_of, construct_of, for_of, if_else_of, if_of, sections_of, while_of,
};
use om_parser_tree::{BLOCK_LIMIT, Block, Expression, Part, STATEMENT_LIMIT, Statement};
use om_pragma::Directive;
use std::alloc::Global;

/// What may still stand in one another.
#[derive(Clone, Copy)]
pub struct Room {
    // Whether each outermost `atomic` must have one of its forms.
    checked: bool,
    // How many statements may stand in one another.
    statements: usize,
    // How many blocks may stand in one another.
    blocks: usize,
}

/// The block of a function, and the tokens behind it.
pub(crate) fn block(alloc: Global, tokens: &[Token]) -> SourceResult<(Block, &[Token])>
    ensures { ReadsOne view_block result (block_at accepted tokens.now) }
{
    let (open_brace, rest) = mark(tokens, Punctuator::OpenBrace)?;
    let room = Room {
        checked: true,
        statements: STATEMENT_LIMIT,
        blocks: BLOCK_LIMIT - 1,
    };
    let (items, close_brace, rest) = items(alloc, rest, room)?;
    Ok((
        Block {
            open_brace,
            items,
            close_brace,
        },
        rest,
    ))
}

// Items of a block up to its closing brace, its span, and the tokens behind it.
#[cycle(statement)]
fn items(
    alloc: Global,
    tokens: &[Token],
    room: Room,
) -> SourceResult<(Vec<Statement>, Span, &[Token])>
    ensures { ReadsUntil view_statement result (items_in room tokens.now) }
{
    parts_are_sound();
    let mut items = Vec::new(alloc);
    let mut rest = tokens;
    'items: loop {
        if let Some((close_brace, after)) = take_mark(rest, Punctuator::CloseBrace) {
            return Ok((items, close_brace, after));
        }
        let (next, after) = block_item(alloc, rest, room)?;
        items.push(Box::into_inner(next))?;
        rest = after;
    }
}

// A declaration, a statement or a directive that stands alone, and the tokens behind it.
#[cycle(statement)]
fn block_item(
    alloc: Global,
    tokens: &[Token],
    room: Room,
) -> SourceResult<(Box<Statement>, &[Token])>
    ensures { ReadsStatement result (block_item_in room tokens.now) }
{
    match take_word(tokens, Keyword::Int) {
        Some((int, rest)) => declaration_item(alloc, int, rest),
        None => part_item(alloc, tokens, room),
    }
}

// A statement or a directive that stands alone, and the tokens behind it.
#[cycle(statement)]
fn part_item(
    alloc: Global,
    tokens: &[Token],
    room: Room,
) -> SourceResult<(Box<Statement>, &[Token])>
    ensures { ReadsStatement result (part_item_in room tokens.now) }
{
    match line_start(tokens) {
        LineStart::StandAlone => stand_alone(alloc, tokens),
        LineStart::Section => Err(misplaced(tokens)),
        LineStart::Unknown => unknown_line(alloc, tokens),
        _ => statement(alloc, tokens, room),
    }
}

// A statement, and the tokens behind it.
#[cycle(statement)]
fn statement(
    alloc: Global,
    tokens: &[Token],
    room: Room,
) -> SourceResult<(Box<Statement>, &[Token])>
    ensures { ReadsStatement result (statement_in room tokens.now) }
{
    let [first, rest @ ..] = tokens else {
        return Err(syntax(tokens));
    };
    let start = start_of(&first.kind);
    let Some(statements) = room.statements.checked_sub(1) else {
        return Err(no_room(start, tokens, first.span));
    };
    let room = Room { statements, ..room };
    match start {
        Start::Block => block_after(alloc, first.span, rest, room),
        Start::If | Start::While | Start::For => { headed(alloc, start, first.span, rest, room) }
        Start::Do => do_after(alloc, first.span, rest, room),
        Start::Directive => directive(alloc, tokens, room),
        _ => simple(alloc, start, first.span, rest, tokens),
    }
}

// A block, of which the left brace is taken, and the tokens behind it.
#[cycle(statement)]
fn block_after(
    alloc: Global,
    open_brace: Span,
    tokens: &[Token],
    room: Room,
) -> SourceResult<(Box<Statement>, &[Token])>
    ensures { ReadsStatement result (block_in room open_brace tokens.now) }
{
    let Some(blocks) = room.blocks.checked_sub(1) else {
        return Err(too_deep(open_brace));
    };
    let room = Room { blocks, ..room };
    let (items, close_brace, rest) = items(alloc, tokens, room)?;
    block_of(alloc, open_brace, items, close_brace, rest)
}

// A statement that begins with an opening, and the tokens behind it.
#[cycle(statement)]
fn headed(
    alloc: Global,
    start: Start,
    at: Span,
    tokens: &[Token],
    room: Room,
) -> SourceResult<(Box<Statement>, &[Token])>
    ensures { ReadsStatement result (headed_in room start at tokens.now) }
{
    let (opening, rest) = opening_after(alloc, start, at, tokens)?;
    let (body, rest) = statement(alloc, rest, room)?;
    behind_body(alloc, opening, body, rest, room)
}

// What follows the body of a statement.
#[cycle(statement)]
fn behind_body(
    alloc: Global,
    opening: Opening,
    body: Box<Statement>,
    tokens: &[Token],
    room: Room,
) -> SourceResult<(Box<Statement>, &[Token])>
    ensures { ReadsStatement result (behind_body_in room opening body tokens.now) }
{
    match opening {
        Opening::If(at, condition) => match take_else(tokens) {
            Some((else_word, rest)) => {
                let (else_body, rest) = statement(alloc, rest, room)?;
                let branches = Branches {
                    body,
                    else_word,
                    else_body,
                };
                if_else_of(alloc, at, condition, branches, rest)
            }
            None => if_of(alloc, at, condition, body, tokens),
        },
        Opening::While(at, condition) => while_of(alloc, at, condition, body, tokens),
        Opening::For(head) => for_of(alloc, head, body, tokens),
    }
}

// An `else`, if it stands first, and the tokens behind it.
fn take_else(tokens: &[Token]) -> Option<(Span, &[Token])>
    ensures { option_map (λ x. (x.0, x.1.now)) result ≡ take_word Else tokens.now }
{
    take_word(tokens, Keyword::Else)
}

// A `do`, of which the word is taken, and the tokens behind it.
#[cycle(statement)]
fn do_after(
    alloc: Global,
    at: Span,
    tokens: &[Token],
    room: Room,
) -> SourceResult<(Box<Statement>, &[Token])>
    ensures { ReadsStatement result (do_after (parts accepted) (statement_in room) at tokens.now) }
{
    let (body, rest) = statement(alloc, tokens, room)?;
    do_end(alloc, at, body, rest)
}

// A construct whose line stands first, and the tokens behind it.
#[cycle(statement)]
fn directive(
    alloc: Global,
    tokens: &[Token],
    room: Room,
) -> SourceResult<(Box<Statement>, &[Token])>
    ensures { ReadsStatement result (directive_in room tokens.now) }
{
    match line_start(tokens) {
        LineStart::Construct => construct(alloc, tokens, room),
        LineStart::Unknown => unknown_line(alloc, tokens),
        _ => Err(misplaced(tokens)),
    }
}

// A construct, and the tokens behind it.
#[cycle(statement)]
fn construct(
    alloc: Global,
    tokens: &[Token],
    room: Room,
) -> SourceResult<(Box<Statement>, &[Token])>
    ensures { ReadsStatement result (construct_in room tokens.now) }
{
    let (directive, rest) = directive_line(alloc, tokens)?;
    if directive.name.kind().has_parts() {
        sections(alloc, directive, rest, room)
    } else if directive.name.kind().is_atomic() {
        atomic(alloc, directive, rest, room)
    } else {
        constructed(alloc, directive, rest, room)
    }
}

// A construct with one statement, of which the line is taken, and the tokens behind it.
#[cycle(statement)]
fn constructed(
    alloc: Global,
    directive: Box<Directive<Expression>>,
    tokens: &[Token],
    room: Room,
) -> SourceResult<(Box<Statement>, &[Token])>
    ensures { ReadsStatement result (constructed_in room (view_line directive) tokens.now) }
{
    let (body, rest) = statement(alloc, tokens, room)?;
    construct_of(alloc, directive, body, rest)
}

// An `atomic`, of which the line is taken, and the tokens behind it.
#[cycle(statement)]
fn atomic(
    alloc: Global,
    directive: Box<Directive<Expression>>,
    tokens: &[Token],
    room: Room,
) -> SourceResult<(Box<Statement>, &[Token])>
    ensures { ReadsStatement result (atomic_in room (view_line directive) tokens.now) }
{
    let unchecked = Room {
        checked: false,
        ..room
    };
    let (body, rest) = statement(alloc, tokens, unchecked)?;
    atomic_of(alloc, room.checked, directive, body, rest)
}

// A `sections`, of which the line is taken, and the tokens behind it.
#[cycle(statement)]
fn sections(
    alloc: Global,
    directive: Box<Directive<Expression>>,
    tokens: &[Token],
    room: Room,
) -> SourceResult<(Box<Statement>, &[Token])>
    ensures { ReadsStatement result (sections_in room (view_line directive) tokens.now) }
{
    let (open_brace, parts, close_brace, rest) = braces(alloc, tokens, room)?;
    sections_of(alloc, directive, (open_brace, parts, close_brace), rest)
}

// The braces of `sections`, the parts in them, and the tokens behind them.
#[cycle(statement)]
fn braces(
    alloc: Global,
    tokens: &[Token],
    room: Room,
) -> SourceResult<(Span, Vec<Part>, Span, &[Token])>
    ensures { ReadsBraces result (parts_in room tokens.now) }
{
    let (open_brace, rest) = mark(tokens, Punctuator::OpenBrace)?;
    let Some(statements) = room.statements.checked_sub(1) else {
        return Err(too_deep(open_brace));
    };
    let Some(blocks) = room.blocks.checked_sub(1) else {
        return Err(too_deep(open_brace));
    };
    let room = Room {
        statements,
        blocks,
        ..room
    };
    let (parts, rest) = parts(alloc, rest, room)?;
    let (close_brace, rest) = mark(rest, Punctuator::CloseBrace)?;
    Ok((open_brace, parts, close_brace, rest))
}

// The parts of `sections`, one at least, and the tokens behind them.
#[cycle(statement)]
fn parts(alloc: Global, tokens: &[Token], room: Room) -> SourceResult<(Vec<Part>, &[Token])>
    ensures { ReadsEach view_part result (every_part_in room tokens.now) }
{
    parts_are_sound();
    let mut parts = Vec::new(alloc);
    let mut rest = tokens;
    'parts: loop {
        let (next, after) = part(alloc, rest, room)?;
        parts.push(next)?;
        rest = after;
        if !at_section(rest) {
            return Ok((parts, rest));
        }
    }
}

// A part of `sections`: its `section`, if it has one, its items, and the tokens behind them.
#[cycle(statement)]
fn part(alloc: Global, tokens: &[Token], room: Room) -> SourceResult<(Part, &[Token])>
    ensures { ReadsOne view_part result (part_in room tokens.now) }
{
    let (section, rest) = section(alloc, tokens)?;
    let (items, rest) = part_items(alloc, rest, room)?;
    Ok((Part { section, items }, rest))
}

// The items of a part, one at least, and the tokens behind them.
#[cycle(statement)]
fn part_items(
    alloc: Global,
    tokens: &[Token],
    room: Room,
) -> SourceResult<(Vec<Statement>, &[Token])>
    ensures { ReadsEach view_statement result (part_items_in room tokens.now) }
{
    parts_are_sound();
    let mut items = Vec::new(alloc);
    let mut rest = tokens;
    'items: loop {
        let (next, after) = part_item(alloc, rest, room)?;
        items.push(Box::into_inner(next))?;
        rest = after;
        if ends_part(rest) {
            return Ok((items, rest));
        }
    }
}
