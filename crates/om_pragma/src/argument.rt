//! What stands behind the word of a clause.

ghost use Rattle.std.specs.Prelude.{◌≡◌, ◌<◌, []};
ghost use Rattle.om_pragma.specs.Expressions.{open_behind};
ghost use Rattle.om_pragma.specs.Reading.{further_at, further_names_at, names_at, list_after, closing, value_after, data_after, sharing_at, default_after, operator_at, reduction_after, chunk_at, schedule_kind_at, schedule_after, clause_after, Gets, GetsAlways};
ghost use Rattle.om_pragma.specs.Views.{part_and_rest, clause_and_rest};

use crate::clause::{
    Clause, ClauseKind, DataSharing, DefaultArgument, FurtherName, Name, NameList, Number,
    PlainClause, Reduction, ReductionOperator, Schedule, ScheduleKind, Sharing, Value, ValueClause,
};
use crate::token::{Stop, mark, name, place, take_chunk, take_first, take_mark};
use crate::word::{is_mark, reduction_operator, schedule_kind, sharing};
use om_lexer::{Punctuator, Span, Token, TokenKind};
use om_seq::Seq;
use std::alloc::Global;

/// The clause of this kind whose word stands there, and the tokens behind it.
pub fn clause_after(
    alloc: Global,
    kind: ClauseKind,
    word: Span,
    tokens: &[Token],
) -> Result<(Clause<&[Token]>, &[Token]), Stop>
    ensures { Gets clause_and_rest result (clause_after kind word tokens.now) }
{
    match kind {
        ClauseKind::NumThreads => value_after(ValueClause::NumThreads, word, tokens),
        ClauseKind::Filter => value_after(ValueClause::Filter, word, tokens),
        ClauseKind::Default => default_after(word, tokens),
        ClauseKind::Shared => data_after(alloc, DataSharing::Shared, word, tokens),
        ClauseKind::Private => data_after(alloc, DataSharing::Private, word, tokens),
        ClauseKind::Firstprivate => data_after(alloc, DataSharing::Firstprivate, word, tokens),
        ClauseKind::Reduction => reduction_after(alloc, word, tokens),
        ClauseKind::Schedule => schedule_after(word, tokens),
        ClauseKind::Nowait => Ok((Clause::Plain(PlainClause::Nowait, word), tokens)),
        ClauseKind::Update => Ok((Clause::Plain(PlainClause::Update, word), tokens)),
        ClauseKind::Read => Ok((Clause::Plain(PlainClause::Read, word), tokens)),
        ClauseKind::Write => Ok((Clause::Plain(PlainClause::Write, word), tokens)),
        ClauseKind::SeqCst => Ok((Clause::Plain(PlainClause::SeqCst, word), tokens)),
        ClauseKind::Relaxed => Ok((Clause::Plain(PlainClause::Relaxed, word), tokens)),
    }
}

// How many parentheses are open behind a token, `depth` before it; none where it closes one that
// was not opened.
fn open_behind(kind: &TokenKind, depth: usize) -> Option<usize>
    requires { depth < usize.MAX }
    ensures { result ≡ open_behind kind.now depth }
{
    if is_mark(kind, Punctuator::OpenParen) {
        Some(depth + 1)
    } else if is_mark(kind, Punctuator::CloseParen) {
        if depth == 0 { None } else { Some(depth - 1) }
    } else {
        Some(depth)
    }
}

/// The tokens up to the parenthesis that closes one which is open before them, its span, and the
/// tokens behind it.
pub fn closing(tokens: &[Token]) -> Result<(&[Token], Span, &[Token]), Stop>
    ensures { GetsAlways (λ x. (x.0.now, x.1, x.2.now)) result (closing 0 tokens.now) }
{
    let mut depth = 0;
    let mut inside = 0;
    let mut rest = tokens;
    'tokens: loop {
        let Some((first, behind)) = take_first(rest) else {
            return Err(Stop::Token(u32::MAX));
        };
        let Some(more) = open_behind(&first.kind, depth) else {
            return Ok((&tokens[..inside], first.span, behind));
        };
        depth = more;
        inside += 1;
        rest = behind;
    }
}

// `(`, one or more tokens and the parenthesis that closes.
fn value_after(
    kind: ValueClause,
    word: Span,
    tokens: &[Token],
) -> Result<(Clause<&[Token]>, &[Token]), Stop>
    ensures { GetsAlways clause_and_rest result (value_after kind word tokens.now) }
{
    let (open_paren, rest) = mark(tokens, Punctuator::OpenParen)?;
    let (expression, close_paren, rest) = closing(rest)?;
    if expression.is_empty() {
        return Err(Stop::Token(close_paren.start));
    }
    let value = Value {
        open_paren,
        expression,
        close_paren,
    };
    Ok((Clause::Value(kind, word, value), rest))
}

// `(`, `shared` or `none`, and `)`.
fn default_after(word: Span, tokens: &[Token]) -> Result<(Clause<&[Token]>, &[Token]), Stop>
    ensures { GetsAlways clause_and_rest result (default_after word tokens.now) }
{
    let (open_paren, rest) = mark(tokens, Punctuator::OpenParen)?;
    let (sharing, span, rest) = default_word(rest)?;
    let (close_paren, rest) = mark(rest, Punctuator::CloseParen)?;
    let argument = DefaultArgument {
        open_paren,
        sharing,
        word: span,
        close_paren,
    };
    Ok((Clause::Default(word, argument), rest))
}

// `shared` or `none`, its span, and the tokens behind it.
fn default_word(tokens: &[Token]) -> Result<(Sharing, Span, &[Token]), Stop>
    ensures { GetsAlways (λ x. ((x.0, x.1), x.2.now)) result (sharing_at tokens.now) }
{
    let [first, rest @ ..] = tokens else {
        return Err(Stop::Token(u32::MAX));
    };
    match sharing(&first.kind) {
        Some(sharing) => Ok((sharing, first.span, rest)),
        None => Err(Stop::Token(first.span.start)),
    }
}

// A list in parentheses.
fn data_after(
    alloc: Global,
    kind: DataSharing,
    word: Span,
    tokens: &[Token],
) -> Result<(Clause<&[Token]>, &[Token]), Stop>
    ensures { Gets clause_and_rest result (data_after kind word tokens.now) }
{
    let (open_paren, rest) = mark(tokens, Punctuator::OpenParen)?;
    let (list, rest) = list_after(alloc, open_paren, rest)?;
    Ok((Clause::Data(kind, word, list), rest))
}

/// The rest of a list, behind its parenthesis, and the tokens behind it.
pub fn list_after(
    alloc: Global,
    open_paren: Span,
    tokens: &[Token],
) -> Result<(NameList, &[Token]), Stop>
    ensures { Gets part_and_rest result (list_after open_paren tokens.now) }
{
    let (first, rest, close_paren, behind) = names(alloc, tokens)?;
    let list = NameList {
        open_paren,
        first,
        rest,
        close_paren,
    };
    Ok((list, behind))
}

// A name, further names behind commas, the span of the parenthesis behind them, and the tokens
// behind that.
fn names(alloc: Global, tokens: &[Token]) -> Result<(Name, Seq<FurtherName>, Span, &[Token]), Stop>
    ensures { Gets (λ x. ((x.0, x.1, x.2), x.3.now)) result (names_at tokens.now) }
{
    let (first, rest) = name(alloc, tokens)?;
    let (further, close_paren, rest) = further_names(alloc, rest)?;
    Ok((first, further, close_paren, rest))
}

// Names behind commas up to a parenthesis, its span, and the tokens behind it.
fn further_names(
    alloc: Global,
    tokens: &[Token],
) -> Result<(Seq<FurtherName>, Span, &[Token]), Stop>
    ensures { Gets (λ x. (x.0, x.1, x.2.now)) result (further_names_at tokens.now) }
{
    let mut names = Seq::new(alloc);
    let mut rest = tokens;
    'names: loop {
        if let Some((close_paren, behind)) = take_mark(rest, Punctuator::CloseParen) {
            return Ok((names, close_paren, behind));
        }
        let (comma, next, behind) = further_name(alloc, rest)?;
        names.push((comma, next))?;
        rest = behind;
    }
}

// A comma, the name behind it, and the tokens behind that.
fn further_name(alloc: Global, tokens: &[Token]) -> Result<(Span, Name, &[Token]), Stop>
    ensures { Gets (λ x. ((x.0, x.1), x.2.now)) result (further_at [] tokens.now) }
{
    let (comma, rest) = mark(tokens, Punctuator::Comma)?;
    let (name, rest) = name(alloc, rest)?;
    Ok((comma, name, rest))
}

// `(`, an operator, `:`, names and `)`.
fn reduction_after(
    alloc: Global,
    word: Span,
    tokens: &[Token],
) -> Result<(Clause<&[Token]>, &[Token]), Stop>
    ensures { Gets clause_and_rest result (reduction_after word tokens.now) }
{
    let (open_paren, rest) = mark(tokens, Punctuator::OpenParen)?;
    let (operator, sign, rest) = operator(rest)?;
    let (colon, rest) = mark(rest, Punctuator::Colon)?;
    let (first, further, close_paren, rest) = names(alloc, rest)?;
    let reduction = Reduction {
        open_paren,
        operator,
        sign,
        colon,
        first,
        rest: further,
        close_paren,
    };
    Ok((Clause::Reduction(word, reduction), rest))
}

// The operator of a reduction, its span, and the tokens behind it.
fn operator(tokens: &[Token]) -> Result<(ReductionOperator, Span, &[Token]), Stop>
    ensures { GetsAlways (λ x. ((x.0, x.1), x.2.now)) result (operator_at tokens.now) }
{
    let [first, rest @ ..] = tokens else {
        return Err(Stop::Token(u32::MAX));
    };
    match reduction_operator(&first.kind) {
        Some(operator) => Ok((operator, first.span, rest)),
        None => Err(Stop::Token(first.span.start)),
    }
}

// `(`, a kind, perhaps a chunk, and `)`.
fn schedule_after(word: Span, tokens: &[Token]) -> Result<(Clause<&[Token]>, &[Token]), Stop>
    ensures { GetsAlways clause_and_rest result (schedule_after word tokens.now) }
{
    let (open_paren, rest) = mark(tokens, Punctuator::OpenParen)?;
    let (kind, span, rest) = schedule_word(rest)?;
    let (chunk, rest) = chunk(rest)?;
    let (close_paren, rest) = mark(rest, Punctuator::CloseParen)?;
    let schedule = Schedule {
        open_paren,
        kind,
        word: span,
        chunk,
        close_paren,
    };
    Ok((Clause::Schedule(word, schedule), rest))
}

// The kind of a schedule, its span, and the tokens behind it.
fn schedule_word(tokens: &[Token]) -> Result<(ScheduleKind, Span, &[Token]), Stop>
    ensures { GetsAlways (λ x. ((x.0, x.1), x.2.now)) result (schedule_kind_at tokens.now) }
{
    let [first, rest @ ..] = tokens else {
        return Err(Stop::Token(u32::MAX));
    };
    match schedule_kind(&first.kind) {
        Some(kind) => Ok((kind, first.span, rest)),
        None => Err(Stop::Token(first.span.start)),
    }
}

// A comma and a chunk, where a comma stands, and the tokens behind them.
fn chunk(tokens: &[Token]) -> Result<(Option<(Span, Number)>, &[Token]), Stop>
    ensures { GetsAlways part_and_rest result (chunk_at tokens.now) }
{
    let Some((comma, rest)) = take_mark(tokens, Punctuator::Comma) else {
        return Ok((None, tokens));
    };
    match take_chunk(rest) {
        Some((number, rest)) => Ok((Some((comma, number)), rest)),
        None => Err(Stop::Token(place(rest))),
    }
}
