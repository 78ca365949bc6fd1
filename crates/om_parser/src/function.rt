//! The heads of functions (C17 6.7.6.3).

ghost use Rattle.std.specs.Prelude.{Ok};
ghost use Rattle.om_parser.specs.FunctionReading.{parameter_at, further_parameter_at, further_parameters_at, listed_at, parameters_at, head_after, named_parameter, named_further, named_parameters, named_head};
ghost use Rattle.om_parser.specs.StatementView.{ReadsParameters};
ghost use Rattle.om_parser_parts.specs.Made.{ReadsBoxed};
ghost use Rattle.om_parser_parts.specs.Reading.{take_name, Reads, ReadsAlways};
ghost use Rattle.om_parser_parts.specs.Repetition.{optional};
ghost use Rattle.om_parser_tree.specs.View.{view_parameters, view_head};

use om_lexer::{Keyword, Punctuator, SourceResult, Span, Token, TokenKind};
use om_parser_parts::front::{mark, name, syntax, take_mark, take_word, word};
use om_parser_tree::assembly::{boxed, boxed_before};
use om_parser_tree::{FunctionHead, Parameter, Parameters, ResultType};
use om_pragma::Name;
use std::alloc::Global;

/// The rest of a function's head, of which all up to the left parenthesis is taken.
pub fn head_after(
    alloc: Global,
    result_type: ResultType,
    name: Name,
    open_paren: Span,
    tokens: &[Token],
) -> SourceResult<(Box<FunctionHead<Option<Name>>>, &[Token])>
    ensures { ReadsBoxed view_head result (head_after result_type name open_paren tokens.now) }
{
    let (parameters, close_paren, rest) = parameters(alloc, tokens)?;
    let head = FunctionHead {
        result: result_type,
        name,
        open_paren,
        parameters,
        close_paren,
    };
    boxed_before(alloc, head, rest)
}

/// The head of a definition, whose parameters have names (C17 6.9.1): S3 at these tokens, its body,
/// where one has none.
pub fn named_head(
    alloc: Global,
    head: Box<FunctionHead<Option<Name>>>,
    body: &[Token],
) -> SourceResult<Box<FunctionHead<Name>>>
    ensures { Reads (λ x. view_head x.value) result (named_head body.now (view_head head.value)) }
{
    let head = Box::into_inner(head);
    let parameters = named_parameters(alloc, head.parameters, body)?;
    let named = FunctionHead {
        result: head.result,
        name: head.name,
        open_paren: head.open_paren,
        parameters,
        close_paren: head.close_paren,
    };
    Ok(boxed(alloc, named)?)
}

// The parameters of a definition: S3 at its body where one has no name.
fn named_parameters(
    alloc: Global,
    parameters: Parameters<Option<Name>>,
    body: &[Token],
) -> SourceResult<Parameters<Name>>
    ensures { ReadsParameters result (named_parameters body.now (view_parameters parameters)) }
{
    match parameters {
        Parameters::Nothing => Ok(Parameters::Nothing),
        Parameters::Void(void) => Ok(Parameters::Void(void)),
        Parameters::Listed { first, rest } => {
            let first = named_parameter(first, body)?;
            let rest = named_further(alloc, rest, body)?;
            Ok(Parameters::Listed { first, rest })
        }
    }
}

// The parameters of a definition behind commas: S3 at its body where one has no name.
fn named_further(
    alloc: Global,
    further: Vec<(Span, Parameter<Option<Name>>)>,
    body: &[Token],
) -> SourceResult<Vec<(Span, Parameter<Name>)>>
    ensures { Reads (λ x. x.items) result (named_further body.now further.items) }
{
    let mut named = Vec::new(alloc);
    for (comma, parameter) in further {
        named.push((comma, named_parameter(parameter, body)?))?;
    }
    Ok(named)
}

// A parameter of a definition: S3 at its body where it has no name.
fn named_parameter(
    parameter: Parameter<Option<Name>>,
    body: &[Token],
) -> SourceResult<Parameter<Name>>
    ensures { ReadsAlways (λ x. x) result (named_parameter body.now parameter) }
{
    let Parameter { int, name } = parameter;
    let Some(name) = name else {
        return Err(syntax(body));
    };
    Ok(Parameter { int, name })
}

// Parameters, the right parenthesis behind them, and the tokens behind that.
fn parameters(
    alloc: Global,
    tokens: &[Token],
) -> SourceResult<(Parameters<Option<Name>>, Span, &[Token])>
    ensures { Reads (λ x. ((view_parameters x.0, x.1), x.2.now)) result (parameters_at tokens.now) }
{
    if let Some((close_paren, rest)) = take_mark(tokens, Punctuator::CloseParen) {
        return Ok((Parameters::Nothing, close_paren, rest));
    }
    if let Some((void, rest)) = take_word(tokens, Keyword::Void) {
        let (close_paren, rest) = mark(rest, Punctuator::CloseParen)?;
        return Ok((Parameters::Void(void), close_paren, rest));
    }
    listed(alloc, tokens)
}

// One parameter or several, the right parenthesis behind them, and the tokens behind that.
fn listed(
    alloc: Global,
    tokens: &[Token],
) -> SourceResult<(Parameters<Option<Name>>, Span, &[Token])>
    ensures { Reads (λ x. ((view_parameters x.0, x.1), x.2.now)) result (listed_at tokens.now) }
{
    let (first, rest) = parameter(alloc, tokens)?;
    let (others, close_paren, rest) = further_parameters(alloc, rest)?;
    Ok((
        Parameters::Listed {
            first,
            rest: others,
        },
        close_paren,
        rest,
    ))
}

// Parameters behind commas up to a right parenthesis, its span, and the tokens behind it.
fn further_parameters(
    alloc: Global,
    tokens: &[Token],
) -> SourceResult<(Vec<(Span, Parameter<Option<Name>>)>, Span, &[Token])>
    ensures { Reads (λ x. (x.0.items, x.1, x.2.now)) result (further_parameters_at tokens.now) }
{
    let mut parameters = Vec::new(alloc);
    let mut rest = tokens;
    'parameters: loop {
        if let Some((close_paren, after)) = take_mark(rest, Punctuator::CloseParen) {
            return Ok((parameters, close_paren, after));
        }
        let (comma, next, after) = further_parameter(alloc, rest)?;
        parameters.push((comma, next))?;
        rest = after;
    }
}

// A comma, the parameter behind it, and the tokens behind that.
fn further_parameter(
    alloc: Global,
    tokens: &[Token],
) -> SourceResult<(Span, Parameter<Option<Name>>, &[Token])>
    ensures { Reads (λ x. ((x.0, x.1), x.2.now)) result (further_parameter_at tokens.now) }
{
    let (comma, rest) = mark(tokens, Punctuator::Comma)?;
    let (parameter, rest) = parameter(alloc, rest)?;
    Ok((comma, parameter, rest))
}

// `int` and the name behind it, where one stands, and the tokens behind them.
fn parameter(alloc: Global, tokens: &[Token]) -> SourceResult<(Parameter<Option<Name>>, &[Token])>
    ensures { Reads (λ x. (x.0, x.1.now)) result (parameter_at tokens.now) }
{
    let (int, rest) = word(tokens, Keyword::Int)?;
    let (name, rest) = optional_name(alloc, rest)?;
    Ok((Parameter { int, name }, rest))
}

// The name that stands first, if one does, and the tokens behind it.
fn optional_name(alloc: Global, tokens: &[Token]) -> SourceResult<(Option<Name>, &[Token])>
    ensures { Reads (λ x. (x.0, x.1.now)) result (Ok (optional (take_name tokens.now) tokens.now)) }
{
    match tokens {
        [first, ..] => match &first.kind {
            TokenKind::Name(_) => {
                let (name, rest) = name(alloc, tokens)?;
                Ok((Some(name), rest))
            }
            _ => Ok((None, tokens)),
        },
        [] => Ok((None, tokens)),
    }
}
