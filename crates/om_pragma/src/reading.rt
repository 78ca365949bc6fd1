//! Reading the tokens of a directive line.

ghost use Rattle.std.specs.Prelude.{◌≡◌, ◌≤◌, ◌⊎◌, [], IfOk, IfErr, length};
ghost use Rattle.om_lexer.specs.declared.fault.FaultCode.TheVariants.{BadClause, Syntax};
ghost use Rattle.om_lexer.specs.Faults.{no_memory};
ghost use Rattle.om_pragma.specs.Expressions.{expressions, with_tokens};
ghost use Rattle.om_pragma.specs.Reading.{fault, stop_fault, stopped, opening_at, critical_after, critical_at, flush_at, parallel_at, name_after, directive_name_at, comma_at, clause_at, item_at, clauses_at, directive_at, Gets, Reads};
ghost use Rattle.om_pragma.specs.Refusals.{IsRefusal, FindsEvery, StopsAtFirst, RunsOut};
ghost use Rattle.om_pragma.specs.Table.{IsDirectiveOf};
ghost use Rattle.om_pragma.specs.Views.{part_and_rest, clause_and_rest, item_and_rest, seen_items, seen_kinds};

use crate::argument::{clause_after, list_after};
use crate::clause::{Clause, ClauseItem, Name};
use crate::table::may_stand;
use crate::token::{
    Stop, mark, name, place, take_begin, take_end, take_keyword, take_mark, take_named,
};
use crate::tree::{Directive, DirectiveKind, DirectiveName};
use crate::word::{begun_by, clause_word, no_word};
use om_lexer::{FaultCode, Keyword, Punctuator, SourceFault, SourceResult, Span, Token};
use om_seq::Seq;
use std::alloc::Global;

/// The directive that these tokens are: the run of one directive line, from its `#` to its end.
///
/// Refusals:
/// - S0 at byte 0: no memory.
/// - S5: a word that is no directive stands where one must, or one that is no clause of any
///   directive where a clause is expected. Its place is that word.
/// - S6: a clause that the directive does not have, that stands there once more, or that is
///   wrong inside. Its place is the clause's word.
/// - S3: any other tokens that are no directive. Its place is the first token that no directive has
///   there, after the tokens before it; the end of the run is a token too, which must stand nowhere
///   but last. Where it is missing and all of the tokens begin a directive, no clause says the place.
pub fn directive(alloc: Global, tokens: &[Token]) -> SourceResult<Directive<&[Token]>>
    // What is found is a directive of the table with these tokens.
    ensures found { IfOk result (λ d. IsDirectiveOf tokens.now (with_tokens d)) }
    ensures one_expression_at_most { IfOk result (λ d. length (expressions d) ≤ 1) }

    ensures every_directive_is_found { FindsEvery tokens.now result }
    ensures refused { IfErr result (λ fault. (fault ≡ no_memory) ⊎ IsRefusal tokens.now fault) }
    // S3 stands at the first token that no directive has there, where the run ends once.
    ensures stops_at_the_first { IfErr result (StopsAtFirst tokens.now) }
    // So it does where the run has no end, or all of its tokens begin a directive.
    ensures runs_out { IfErr result (RunsOut tokens.now) }
{
    read(alloc, tokens)
}

// The directive that these tokens are.
fn read(alloc: Global, tokens: &[Token]) -> SourceResult<Directive<&[Token]>>
    ensures { Reads with_tokens result (directive_at tokens.now) }
{
    let (hash, pragma, omp, rest) = opening(tokens)?;
    let (name, rest) = directive_name(alloc, rest)?;
    match clauses(alloc, &name, rest) {
        Ok((clauses, end)) => Ok(Directive {
            hash,
            pragma,
            omp,
            name,
            clauses,
            end,
        }),
        Err(fault) => Err(fault),
    }
}

// The fault of a token that no directive has at this place.
fn syntax(at: u32) -> SourceFault
    ensures { result ≡ fault Syntax at }
{
    SourceFault {
        code: FaultCode::Syntax,
        at,
    }
}

// The fault of a directive that is not read.
fn no_directive(stop: Stop) -> SourceFault
    ensures { result ≡ stop_fault stop }
{
    match stop {
        Stop::Memory => no_memory(),
        Stop::Token(at) => syntax(at),
    }
}

// The fault of a clause whose word stands there.
fn bad_clause(word: Span) -> SourceFault
    ensures { result ≡ fault BadClause word.start }
{
    SourceFault {
        code: FaultCode::BadClause,
        at: word.start,
    }
}

// The spans of `#`, `pragma` and `omp`, and the tokens behind them.
fn opening(tokens: &[Token]) -> SourceResult<(Span, Span, Span, &[Token])>
    ensures { Reads (λ x. ((x.0, x.1, x.2), x.3.now)) result (stopped (opening_at tokens.now)) }
{
    let Some((hash, rest)) = take_begin(tokens) else {
        return Err(syntax(place(tokens)));
    };
    let Some((pragma, others)) = take_named(rest, b"pragma") else {
        return Err(syntax(place(rest)));
    };
    let Some((omp, rest)) = take_named(others, b"omp") else {
        return Err(syntax(place(others)));
    };
    Ok((hash, pragma, omp, rest))
}

// The words of a directive, and the tokens behind them.
fn directive_name(alloc: Global, tokens: &[Token]) -> SourceResult<(DirectiveName, &[Token])>
    ensures { Reads part_and_rest result (directive_name_at tokens.now) }
{
    let [first, rest @ ..] = tokens else {
        return Err(no_word(tokens));
    };
    match begun_by(&first.kind) {
        Some(kind) => name_after(alloc, kind, first.span, rest),
        None => Err(no_word(tokens)),
    }
}

// The words of a directive of which the first is taken, and the tokens behind them.
fn name_after(
    alloc: Global,
    kind: DirectiveKind,
    span: Span,
    tokens: &[Token],
) -> SourceResult<(DirectiveName, &[Token])>
    ensures { Reads part_and_rest result (name_after kind span tokens.now) }
{
    match kind {
        DirectiveKind::Parallel => Ok(parallel(span, tokens)),
        // `begun_by` gives neither combined one: both begin as `parallel`.
        DirectiveKind::ParallelFor => Ok(parallel(span, tokens)),
        DirectiveKind::ParallelSections => Ok(parallel(span, tokens)),
        DirectiveKind::For => Ok((DirectiveName::For(span), tokens)),
        DirectiveKind::Sections => Ok((DirectiveName::Sections(span), tokens)),
        DirectiveKind::Section => Ok((DirectiveName::Section(span), tokens)),
        DirectiveKind::Single => Ok((DirectiveName::Single(span), tokens)),
        DirectiveKind::Masked => Ok((DirectiveName::Masked(span), tokens)),
        DirectiveKind::Master => Ok((DirectiveName::Master(span), tokens)),
        DirectiveKind::Critical => critical(alloc, span, tokens),
        DirectiveKind::Atomic => Ok((DirectiveName::Atomic(span), tokens)),
        DirectiveKind::Task => Ok((DirectiveName::Task(span), tokens)),
        DirectiveKind::Taskgroup => Ok((DirectiveName::Taskgroup(span), tokens)),
        DirectiveKind::Barrier => Ok((DirectiveName::Barrier(span), tokens)),
        DirectiveKind::Taskwait => Ok((DirectiveName::Taskwait(span), tokens)),
        DirectiveKind::Taskyield => Ok((DirectiveName::Taskyield(span), tokens)),
        DirectiveKind::Flush => flush(alloc, span, tokens),
    }
}

// `parallel`, and the word that it is combined with, where one stands.
fn parallel(span: Span, tokens: &[Token]) -> (DirectiveName, &[Token])
    ensures { (result.0, result.1.now) ≡ parallel_at span tokens.now }
{
    if let Some((word, rest)) = take_keyword(tokens, Keyword::For) {
        return (DirectiveName::ParallelFor(span, word), rest);
    }
    if let Some((word, rest)) = take_named(tokens, b"sections") {
        return (DirectiveName::ParallelSections(span, word), rest);
    }
    (DirectiveName::Parallel(span), tokens)
}

// `critical` and its name, where a parenthesis stands.
fn critical(alloc: Global, span: Span, tokens: &[Token]) -> SourceResult<(DirectiveName, &[Token])>
    ensures { Reads part_and_rest result (critical_at span tokens.now) }
{
    let Some((open_paren, rest)) = take_mark(tokens, Punctuator::OpenParen) else {
        return Ok((DirectiveName::Critical(span, None), tokens));
    };
    match critical_after(alloc, open_paren, rest) {
        Ok((name, rest)) => Ok((DirectiveName::Critical(span, Some(name)), rest)),
        Err(stop) => Err(no_directive(stop)),
    }
}

// The name of a critical region with its parentheses, of which the left one is taken, and the
// tokens behind them.
fn critical_after(
    alloc: Global,
    open_paren: Span,
    tokens: &[Token],
) -> Result<((Span, Name, Span), &[Token]), Stop>
    ensures { Gets part_and_rest result (critical_after open_paren tokens.now) }
{
    let (name, rest) = name(alloc, tokens)?;
    let (close_paren, rest) = mark(rest, Punctuator::CloseParen)?;
    Ok(((open_paren, name, close_paren), rest))
}

// `flush` and its list, where a parenthesis stands.
fn flush(alloc: Global, span: Span, tokens: &[Token]) -> SourceResult<(DirectiveName, &[Token])>
    ensures { Reads part_and_rest result (flush_at span tokens.now) }
{
    let Some((open_paren, rest)) = take_mark(tokens, Punctuator::OpenParen) else {
        return Ok((DirectiveName::Flush(span, None), tokens));
    };
    match list_after(alloc, open_paren, rest) {
        Ok((list, rest)) => Ok((DirectiveName::Flush(span, Some(list)), rest)),
        Err(stop) => Err(no_directive(stop)),
    }
}

// The fault of being out of memory.
fn no_memory() -> SourceFault
    ensures { result ≡ no_memory }
{
    SourceFault {
        code: FaultCode::Memory,
        at: 0,
    }
}

// Clauses up to the end of the run, and its place.
fn clauses<'a>(
    alloc: Global,
    name: &DirectiveName,
    tokens: &'a [Token],
) -> SourceResult<(Seq<ClauseItem<&'a [Token]>>, Span)>
    ensures { Reads (λ x. (seen_items x.0, x.1, [])) result (clauses_at name.now tokens.now) }
{
    let mut items = Seq::new(alloc);
    let mut rest = tokens;
    'items: loop {
        if let Some(end) = take_end(rest) {
            return Ok((items, end));
        }
        let (next, behind) = item(alloc, name, items.as_slice(), rest)?;
        items.push(next)?;
        rest = behind;
    }
}

// A clause behind those before it, with the comma between them, and the tokens behind it.
fn item<'a>(
    alloc: Global,
    name: &DirectiveName,
    before: &[ClauseItem<&'a [Token]>],
    tokens: &'a [Token],
) -> SourceResult<(ClauseItem<&'a [Token]>, &'a [Token])>
    ensures { Reads item_and_rest result (item_at name.now (seen_items before.now) tokens.now) }
{
    let (comma, rest) = comma(before, tokens);
    let (clause, rest) = clause(alloc, name, before, rest)?;
    Ok((ClauseItem { comma, clause }, rest))
}

// A comma, where one stands behind a clause, and the tokens behind it.
fn comma<'a>(before: &[ClauseItem<&[Token]>], tokens: &'a [Token]) -> (Option<Span>, &'a [Token])
    ensures { (result.0, result.1.now) ≡ comma_at (seen_items before.now) tokens.now }
{
    match before {
        [] => (None, tokens),
        [_, ..] => match take_mark(tokens, Punctuator::Comma) {
            Some((comma, rest)) => (Some(comma), rest),
            None => (None, tokens),
        },
    }
}

// A clause behind those before it, and the tokens behind it.
fn clause<'a>(
    alloc: Global,
    name: &DirectiveName,
    before: &[ClauseItem<&'a [Token]>],
    tokens: &'a [Token],
) -> SourceResult<(Clause<&'a [Token]>, &'a [Token])>
    ensures { Reads clause_and_rest result (clause_at name.now (seen_kinds before.now) tokens.now) }
{
    let [first, rest @ ..] = tokens else {
        return Err(no_word(tokens));
    };
    let Some(kind) = clause_word(&first.kind) else {
        return Err(no_word(tokens));
    };
    if !may_stand(name, before, kind) {
        return Err(bad_clause(first.span));
    }
    match clause_after(alloc, kind, first.span, rest) {
        Ok(read) => Ok(read),
        Err(Stop::Memory) => Err(no_memory()),
        Err(Stop::Token(_)) => Err(bad_clause(first.span)),
    }
}
