//! Directive lines, each with its expression (OpenMP API 5.2).

ghost use Rattle.std.specs.Prelude.{◌≡◌, ◌≤◌, ◌⊎◌, Err, IfErr, IfOk, IfSome, length, option_map};
ghost use Rattle.om_lexer.specs.Faults.{no_memory};
ghost use Rattle.om_pragma.specs.Expressions.{expressions, map_directive, with_tokens, CanFill, IsFilled};
ghost use Rattle.om_pragma.specs.Reading.{is_end, take_first, directive_at, expression_before};
ghost use Rattle.om_pragma.specs.Refusals.{EndsOnce};
ghost use Rattle.om_parser_tree.specs.Limits.{accepted};
ghost use Rattle.om_parser_parts.specs.LineReading.{alone, clause_value, in_run, is_syntax, last_start, line_at, line_of, place_behind, run_of, sooner, with_value};
ghost use Rattle.om_parser_parts.specs.Made.{view_operand, ReadsBoxed, ReadsDirective};
ghost use Rattle.om_parser_parts.specs.Reading.{Reads, ReadsAlways};
ghost use Rattle.om_parser_tree.specs.View.{view_directive};

use crate::front::syntax;
use crate::part::enclosed;
use om_lexer::{FaultCode, SourceFault, SourceResult, Token, TokenKind};
use om_parser_tree::Expression;
use om_parser_tree::assembly::boxed_before;
use om_pragma::{Directive, directive, expression_before, first_value, one_answer};
use std::alloc::Global;

/// The directive line that stands first, with its expression, and the tokens behind it.
///
/// Refusals:
/// - S0 at byte 0: no memory.
/// - S5, S6: a word of the line, as `om_pragma::directive` refuses it.
/// - S16: the token of the expression at which a limit is passed; its clause's parentheses count
///   for the nesting.
/// - S3: the token at which reading from the left stops; no clause says that it is the first that no
///   line has there. It is the closing parenthesis of the clause where its expression lacks a token,
///   and 4294967295, past every source, where the line has no end.
///
/// Where a line has two of these faults, the one in the expression of a clause that ends before
/// the other is given.
pub fn line(alloc: Global, tokens: &[Token]) -> SourceResult<(Box<Directive<Expression>>, &[Token])>
    ensures { ReadsBoxed view_directive result (line_at accepted tokens.now) }
{
    let Some((run, rest)) = run(tokens) else {
        return Err(syntax(&[]));
    };
    let directive = line_of(alloc, run)?;
    boxed_before(alloc, directive, rest)
}

// The directive of a run, with its expression.
fn line_of(alloc: Global, run: &[Token]) -> SourceResult<Directive<Expression>>
    requires { EndsOnce run.now }
    ensures { ReadsDirective result (line_of accepted run.now (directive_at run.now)) }
{
    match directive_of(alloc, run) {
        Ok(found) => with_value(alloc, run, found),
        Err(fault) => Err(sooner(alloc, run, fault)),
    }
}

// The directive of a run, its expression not read.
fn directive_of(alloc: Global, run: &[Token]) -> SourceResult<Directive<&[Token]>>
    requires { EndsOnce run.now }
    ensures reads { Reads with_tokens result (directive_at run.now) }
    ensures one_expression_at_most { IfOk result (λ d. length (expressions d) ≤ 1) }
{
    one_answer();
    directive(alloc, run)
}

// The fault of a run, or that of an expression before it, which is the lower one.
fn sooner(alloc: Global, run: &[Token], fault: SourceFault) -> SourceFault
    ensures { (result ≡ no_memory) ⊎ (sooner accepted run.now fault ≡ Err result) }
{
    let Some(tokens) = value_before(run, fault.at) else {
        return fault;
    };
    match clause_value(alloc, run, tokens) {
        Ok(_) => fault,
        Err(inner) => inner,
    }
}

// The first expression of a run that ends before a place.
fn value_before(run: &[Token], place: u32) -> Option<&[Token]>
    ensures { option_map (λ e. e.now) result ≡ expression_before place run.now }
{
    first_value();
    expression_before(run, place)
}

// A directive of a run with its expression read.
fn with_value(
    alloc: Global,
    run: &[Token],
    directive: Directive<&[Token]>,
) -> SourceResult<Directive<Expression>>
    requires { length (expressions directive) ≤ 1 }
    ensures { ReadsDirective result (with_value accepted run.now (with_tokens directive.entry)) }
{
    let Some(tokens) = directive.expression() else {
        return filled(alloc, directive, None);
    };
    match clause_value(alloc, run, tokens) {
        Ok(value) => filled(alloc, directive, Some(Box::into_inner(value))),
        Err(fault) => {
            drop(directive);
            Err(fault)
        }
    }
}

// The directive with this expression in place of its own, if it has one.
fn filled<E: Drop, F: Drop>(
    alloc: Global,
    directive: Directive<E>,
    value: Option<F>,
) -> SourceResult<Directive<F>>
    requires { CanFill value (expressions directive) }
    ensures made { IfOk result (IsFilled map_directive value directive) }
    ensures refused { IfErr result (λ fault. fault ≡ no_memory) }
{
    Ok(directive.with_expression(alloc, value)?)
}

// All tokens between the parentheses of a clause of a run, as one expression.
fn clause_value(alloc: Global, run: &[Token], tokens: &[Token]) -> SourceResult<Box<Expression>>
    ensures { Reads view_operand result (clause_value accepted run.now tokens.now) }
{
    match enclosed(alloc, tokens) {
        Ok((value, rest)) => alone(value, rest),
        Err(fault) => Err(in_run(run, tokens, fault)),
    }
}

// The expression, where no tokens are left behind it.
fn alone(value: Box<Expression>, rest: &[Token]) -> SourceResult<Box<Expression>>
    ensures { ReadsAlways view_operand result (alone (view_operand value) rest.now) }
{
    match rest {
        [] => Ok(value),
        [_, ..] => Err(syntax(rest)),
    }
}

// A fault of some tokens of a run. Where it is that they end, it stands at the token behind them.
fn in_run(run: &[Token], tokens: &[Token], fault: SourceFault) -> SourceFault
    ensures { result ≡ in_run run.now tokens.now fault }
{
    if is_syntax(fault.code) && fault.at == u32::MAX {
        SourceFault {
            code: FaultCode::Syntax,
            at: place_behind(last_start(tokens), run),
        }
    } else {
        fault
    }
}

// Whether the code is S3.
fn is_syntax(code: FaultCode) -> bool
    ensures { result ≡ is_syntax code }
{
    matches!(code, FaultCode::Syntax)
}

// Where the last of these tokens starts.
fn last_start(tokens: &[Token]) -> u32
    ensures { result ≡ last_start tokens.now }
{
    match tokens.last() {
        Some(token) => token.span.start,
        None => 0,
    }
}

// Where the first of these tokens starts that stands behind that byte.
fn place_behind(at: u32, tokens: &[Token]) -> u32
    ensures { result ≡ place_behind at tokens.now }
{
    let mut rest = tokens;
    'tokens: loop {
        let Some((first, behind)) = take_first(rest) else {
            return u32::MAX;
        };
        if at < first.span.start {
            return first.span.start;
        }
        rest = behind;
    }
}

// The tokens up to the first end of a directive line, with it, and those behind it.
fn run(tokens: &[Token]) -> Option<(&[Token], &[Token])>
    ensures ends_once { IfSome result (λ x. EndsOnce x.0.now) }
    ensures taken { option_map (λ x. (x.0.now, x.1.now)) result ≡ run_of tokens.now }
{
    let mut taken = 0;
    let mut rest = tokens;
    'tokens: loop {
        let Some((first, behind)) = take_first(rest) else {
            return None;
        };
        taken += 1;
        if is_end(&first.kind) {
            return Some((&tokens[..taken], behind));
        }
        rest = behind;
    }
}

// Whether it is the end of a directive line.
fn is_end(kind: &TokenKind) -> bool
    ensures { result ≡ is_end kind.now }
{
    matches!(kind, TokenKind::DirectiveEnd)
}

// The first token, and the tokens behind it.
fn take_first(tokens: &[Token]) -> Option<(&Token, &[Token])>
    ensures { option_map (λ x. (x.0.now, x.1.now)) result ≡ take_first tokens.now }
{
    let [first, rest @ ..] = tokens else {
        return None;
    };
    Some((first, rest))
}
