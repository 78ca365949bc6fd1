//! A whole source.

ghost use Rattle.std.specs.Prelude.{◌≡◌, List, [], IfOk, IfErr, None, Some, false, option_map};
ghost use Rattle.om_lexer.specs.Order.{AreWhole};
ghost use Rattle.om_lexer.specs.declared.fault.SourceFault.{SourceFault};
ghost use Rattle.om_lexer.specs.declared.fault.FaultCode.TheVariants.{BadClause, Syntax, TooDeep, UnknownDirective};
ghost use Rattle.om_lexer.specs.declared.token.Token.{Token};
ghost use Rattle.om_parser_tree.specs.Formed.{IsUnit};
ghost use Rattle.om_parser_tree.specs.Limits.{accepted};
ghost use Rattle.om_parser.specs.LineFaults.{IsRefusedLine};
ghost use Rattle.om_parser_tree.specs.Sizes.{AtomicsHaveForms, IsWithinLimits};
ghost use Rattle.om_parser.specs.Parsing.{ForEachAccepted, HasNoTree, HasParserCode, IfRefusedBy, IsRefusedLineOrAtomic, IsTreeOf, IsTreeOrMemory, PassesALimit};
ghost use Rattle.om_parser.specs.Halts.{IsSyntaxHalt};
ghost use Rattle.om_parser.specs.Refusals.{refusal_of, IsRefusalOrMemory};
ghost use Rattle.om_parser.specs.StatementView.{ReadsItem, ReadsToEnd};
ghost use Rattle.om_parser_parts.specs.Reading.{Reads};
ghost use Rattle.om_parser_tree.specs.Spelling.{unit_spelling};
ghost use Rattle.om_parser_tree.specs.Tree.{UnitTree};
ghost use Rattle.om_parser.specs.UnitReading.{function_after, prototype_after, void_after, int_after, item_at, items_to_end, take_end, unit_at};
ghost use Rattle.om_parser_tree.specs.View.{view_head, view_unit};

use crate::function::{head_after, named_head};
use crate::laws::{blocks_are_local, blocks_are_read_again, blocks_are_sound, blocks_stop_so};
use crate::statement::block;
use om_lexer::{Keyword, Punctuator, SourceFault, SourceResult, Span, Token, TokenKind};
use om_parser_parts::front::{mark, name, take_mark, take_word, word};
use om_parser_parts::laws::{globals, parts_are_local};
use om_parser_parts::part::global_declaration;
use om_parser_tree::{Function, FunctionHead, Item, ResultType, Unit};
use om_pragma::Name;
use std::alloc::Global;

/// How many bytes of stack a thread should have that parses, and works with what is found.
///
/// The deepest source that keeps the limits needs a quarter of them where nothing is optimised.
/// That is measured, and no clause says it. What is not used takes no memory.
pub const STACK_SIZE: usize = 256 << 20;

/// The tree of these tokens, the last of which is the end of the source (C17 6.9).
///
/// The grammar is that of declarations of `int` variables and arrays, of prototypes, and of functions.
/// Their statements are those of C17 6.8 but labels, `switch` and `goto`. Their expressions are those of
/// C17 6.5 but casts, `sizeof`, pointers, members, shifts, bit operators and the comma. The directives of
/// OpenMP API 5.2 that `om_pragma` has stand before or among them.
///
/// Refusals:
/// - S0 at byte 0: no memory.
/// - S3: no tree of any size has these tokens.
/// - S5: in a directive line a word stands that is no directive, or no clause, where one must
///   stand. Its place is that of the word.
/// - S6: in a directive line the word of a clause stands that the directive does not have, or not
///   once more, or behind which nothing stands that makes it a clause; its place is that of the
///   word. Or the statement of an `atomic` has none of its forms (OpenMP API 5.2, 4.3.1.3); its
///   place is that of the word `atomic`.
/// - S16: at this token an expression has more than `TOKEN_LIMIT` tokens, parentheses nest deeper
///   than `NESTING_LIMIT` (those of a clause count) or blocks deeper than `BLOCK_LIMIT`, or a
///   statement begins round which more than `STATEMENT_LIMIT` stand (the braces of `sections` are
///   one). These limits are those of `om_parser_tree`.
///
/// S5, and S6 of a clause, are of whole lines, and what stands before such a line begins a
/// well-formed unit that goes on with a line there. So do the tokens up to that of an S16, the
/// token with them, where it stands in no clause. In a clause some expression begins with the tokens
/// behind its parenthesis, up to that of the S16. Where a source has several faults, its tokens alone
/// decide which of them is given, and the byte of an S3: it is the one at which reading from the left
/// stops. What is known of that place is [`syntax_stands`].
///
/// A source may nest deep: the call should have [`STACK_SIZE`] bytes of stack.
pub fn parse(alloc: Global, tokens: &[Token]) -> SourceResult<Unit>
    // What is found is well-formed, has these tokens, and keeps the limits.
    ensures found { IfOk result (λ unit. IsTreeOf tokens.now (view_unit unit)) }
    ensures found_within_limits { IfOk result (λ unit. IsWithinLimits (view_unit unit)) }
    ensures atomics_have_forms { IfOk result (λ unit. AtomicsHaveForms (view_unit unit)) }

    // A well-formed tree within the limits is found, where each `atomic` has one of its forms.
    ensures every_tree_is_found { ForEachAccepted tokens.now (λ unit. IsTreeOrMemory unit result) }

    ensures syntax_has_no_tree { IfRefusedBy Syntax result (λ fault. HasNoTree tokens.now) }
    ensures too_deep_passes_a_limit { IfRefusedBy TooDeep result (PassesALimit tokens.now) }
    ensures unknown_word { IfRefusedBy UnknownDirective result (IsRefusedLine tokens.now) }
    ensures bad_clause { IfRefusedBy BadClause result (IsRefusedLineOrAtomic tokens.now) }
    ensures no_other_refusal { IfErr result HasParserCode }

    // A source is either accepted or has one refusal.
    ensures accepted_source { IfOk result (λ unit. refusal_of tokens.now ≡ None) }
    ensures one_refusal { IfErr result (IsRefusalOrMemory tokens.now) }
{
    blocks_are_sound();
    blocks_are_read_again();
    blocks_stop_so();
    globals();
    unit(alloc, tokens)
}

/// Two well-formed units that have the same tokens are one.
pub fn one_tree()
    ensures { (unit other : UnitTree) → IsUnit unit → IsUnit other → unit_spelling unit
        ≡ unit_spelling other → unit ≡ other }
{
    blocks_are_read_again();
    globals();
}

/// The tokens of a well-formed unit have no refusal, where it keeps the limits and each `atomic` has one
/// of its forms.
pub fn accepted_units()
    ensures { (tokens : List Token) → ForEachAccepted tokens (λ unit. refusal_of tokens ≡ None) }
{
    blocks_are_read_again();
    globals();
}

/// Where tokens of a source are refused by S3, it stands at a token with which no well-formed unit of any
/// size goes on, behind the tokens before it. Or it stands in a directive line: at the first token that no
/// directive has there, or in the parentheses of a clause, where no expression goes on.
pub fn syntax_stands()
    ensures { (tokens : List Token) (fault : SourceFault) → AreWhole false tokens →
        refusal_of tokens ≡ Some fault → fault.code ≡ Syntax → IsSyntaxHalt tokens fault }
{
    blocks_are_local();
    blocks_are_sound();
    blocks_are_read_again();
    parts_are_local();
    globals();
}

// The unit that these tokens are.
fn unit(alloc: Global, tokens: &[Token]) -> SourceResult<Unit>
    ensures { Reads view_unit result (unit_at accepted tokens.now) }
{
    let (items, end) = items(alloc, tokens)?;
    Ok(Unit { items, end })
}

// Declarations and functions up to the end of the source, and its span.
fn items(alloc: Global, tokens: &[Token]) -> SourceResult<(Vec<Item>, Span)>
    ensures { ReadsToEnd result (items_to_end accepted tokens.now) }
{
    blocks_are_sound();
    globals();
    let mut items = Vec::new(alloc);
    let mut rest = tokens;
    'items: loop {
        if let Some(end) = take_end(rest) {
            return Ok((items, end));
        }
        let (next, after) = item(alloc, rest)?;
        items.push(next)?;
        rest = after;
    }
}

// The span of the end of the source, where nothing else is left.
fn take_end(tokens: &[Token]) -> Option<Span>
    ensures { option_map (λ x. (x, [])) result ≡ take_end tokens.now }
{
    let [end] = tokens else {
        return None;
    };
    let TokenKind::End = end.kind else {
        return None;
    };
    Some(end.span)
}

// A declaration, a prototype or a function, and the tokens behind it.
fn item(alloc: Global, tokens: &[Token]) -> SourceResult<(Item, &[Token])>
    ensures { ReadsItem result (item_at accepted tokens.now) }
{
    if let Some((void, rest)) = take_word(tokens, Keyword::Void) {
        return void_after(alloc, void, rest);
    }
    let (int, rest) = word(tokens, Keyword::Int)?;
    int_after(alloc, int, rest)
}

// The rest of a function or prototype without a result, of which `void` is taken.
fn void_after(alloc: Global, void: Span, tokens: &[Token]) -> SourceResult<(Item, &[Token])>
    ensures { ReadsItem result (void_after accepted void tokens.now) }
{
    let (name, rest) = name(alloc, tokens)?;
    let (open_paren, rest) = mark(rest, Punctuator::OpenParen)?;
    prototype_after(alloc, ResultType::Void(void), name, open_paren, rest)
}

// The rest of an item of which `int` is taken.
fn int_after(alloc: Global, int: Span, tokens: &[Token]) -> SourceResult<(Item, &[Token])>
    ensures { ReadsItem result (int_after accepted int tokens.now) }
{
    let (name, rest) = name(alloc, tokens)?;
    if let Some((open_paren, rest)) = take_mark(rest, Punctuator::OpenParen) {
        return prototype_after(alloc, ResultType::Int(int), name, open_paren, rest);
    }
    let (declaration, rest) = global_declaration(alloc, int, name, rest)?;
    Ok((Item::Declaration(declaration), rest))
}

// The rest of a prototype or function, of which all up to the left parenthesis is taken.
fn prototype_after(
    alloc: Global,
    result_type: ResultType,
    name: Name,
    open_paren: Span,
    tokens: &[Token],
) -> SourceResult<(Item, &[Token])>
    ensures { ReadsItem result
        (prototype_after accepted result_type name open_paren tokens.now) }
{
    let (head, rest) = head_after(alloc, result_type, name, open_paren, tokens)?;
    function_after(alloc, head, rest)
}

// The semicolon of a prototype or the body of a function, behind its head.
fn function_after(
    alloc: Global,
    head: Box<FunctionHead<Option<Name>>>,
    tokens: &[Token],
) -> SourceResult<(Item, &[Token])>
    ensures { ReadsItem result (function_after accepted (view_head head.value) tokens.now) }
{
    if let Some((semicolon, rest)) = take_mark(tokens, Punctuator::Semicolon) {
        return Ok((
            Item::Prototype {
                head: Box::into_inner(head),
                semicolon,
            },
            rest,
        ));
    }
    let head = named_head(alloc, head, tokens)?;
    let (body, rest) = block(alloc, tokens)?;
    let head = Box::into_inner(head);
    Ok((Item::Function(Function { head, body }), rest))
}
