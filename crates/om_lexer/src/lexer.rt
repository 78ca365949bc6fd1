//! The tokens of a source.

ghost use Rattle.std.specs.Prelude.{◌≡◌, ◌==◌, ◌++◌, ◌+◌, ◌<◌, ◌≤◌, ◌^◌, [], ◌∷◌, length, count_by, IfOk, IfErr, OnOk};
ghost use Rattle.om_lexer.specs.Adding.{AddsEnd, AddsWord, AddsDirectiveBegin, AddsHashLine, AddsReplaced, AddsToken, AddsPiece, HasMacrosBehindToken, HasMacrosBehind, state_behind_placed};
ghost use Rattle.om_lexer.specs.Pieces.{span_of, line_at, state_behind_token, state_of_line, macros_defined};
ghost use Rattle.om_lexer.specs.Folding.{directive_end, HasWords, HasWordsInside};
ghost use Rattle.om_lexer.specs.Sources.{IsTokens, IsRefusal};

use crate::fault::{FaultCode, SourceFault, SourceResult};
use crate::macros::Macros;
use crate::piece::{HashLine, LineState, PieceKind};
use crate::scan::piece_at;
use crate::token::{Span, Token, TokenKind};
use om_seq::{AllocResult, Seq};
use std::alloc::Global;

// The bytes that a source may have.
const SOURCE_LIMIT: usize = 1_048_576;

// What reading a source has made so far.
#[derive(Drop)]
struct Output {
    tokens: Vec<Token>,
    macros: Macros,
}

// What stands at a place of the source.
#[derive(Drop)]
struct Placed<T> {
    item: T,
    span: Span,
    // The place of no width behind it.
    behind: Span,
}

// The bytes where the words of a directive begin.
#[derive(Clone, Copy)]
struct DirectiveWords {
    pragma: usize,
    omp: usize,
}

/// The tokens of a source, in order; the last is the end of the source.
///
/// A token is the longest text that could be one (C17 6.4p4); between tokens stand white space, comments, includes, defines
/// and pragmas that are not OpenMP's. A name that is defined is the constant that it is defined as, with the name's place.
/// A `#pragma omp` line is `DirectiveBegin`, its words and marks, and `DirectiveEnd`.
///
/// A refusal is S0 where out of memory, or the first fault of the source below byte 1,048,576: bytes that are no white space,
/// comment or token (S2), a `#` line that is no include, define or pragma of the accepted forms, or that defines a name as
/// another number (S4, at its `#`), a constant above 2147483647 (S10), or the define of a name too many (S11, at its `#`).
/// Where there is none, it is that the source has more than 1,048,576 bytes (S1, there).
pub fn lex(alloc: Global, source: &[u8]) -> SourceResult<Vec<Token>>
    ensures tokens { IfOk result (λ tokens. IsTokens source.now tokens.items) }
    ensures refusal { IfErr result (IsRefusal source.now) }
{
    let mut output = Output {
        tokens: Vec::new(alloc),
        macros: Macros::new(alloc),
    };
    match take_source(alloc, source, &mut output) {
        Ok(()) => Ok(output.tokens),
        Err(fault) => Err(fault),
    }
}

// Adds the tokens of a source, and notes what it defines. After a refusal both are of no use.
fn take_source(alloc: Global, source: &[u8], output: &mut Output) -> SourceResult<()>
    requires tokens { output.old.tokens.items ≡ [] }
    requires macros { output.old.macros ≡ [] }
    ensures tokens { OnOk result (IsTokens source.now output.new.tokens.items) }
    ensures refusal { IfErr result (IsRefusal source.now) }
{
    let mut state = LineState::Fresh;
    let mut at = 0;
    let mut line = 1;
    while at < source.len() {
        let piece = piece_at(alloc, source, at, &state, &output.macros)?;
        let end = piece.end;
        if source.len() > SOURCE_LIMIT && end >= SOURCE_LIMIT {
            return Err(SourceFault {
                code: FaultCode::SourceTooLong,
                at: SOURCE_LIMIT as u32,
            });
        }
        let span = Span {
            start: at as u32,
            end: end as u32,
            line,
        };
        line = line_behind(source, span);
        let placed = Placed {
            item: piece.kind,
            span,
            behind: no_width(end, line),
        };
        state = take_piece(alloc, source, output, state, placed)?;
        at = end;
    }
    add_end(&mut output.tokens, &state, no_width(at, line))?;
    Ok(())
}

// The place of no width at a byte.
fn no_width(at: usize, line: u32) -> Span
    requires { at < 2 ^ 32 }
    ensures { result ≡ record { start = at; end = at; line = line } }
{
    Span {
        start: at as u32,
        end: at as u32,
        line,
    }
}

// Adds the end of the source at its place, and before it that of the directive whose line ends here, if one does.
fn add_end(tokens: &mut Vec<Token>, state: &LineState, span: Span) -> AllocResult<()>
    ensures { OnOk result (AddsEnd state.now tokens.old tokens.new span) }
{
    end_directive(tokens, state)?;
    add(
        tokens,
        Token {
            kind: TokenKind::End,
            span,
        },
    )
}

// Adds an item at the end. When out of memory, the item is gone.
fn add<T: Drop>(items: &mut Vec<T>, item: T) -> AllocResult<()>
    ensures { OnOk result (items.new.items ≡ items.old.items ++ item ∷ []) }
{
    items.push(item)?;
    Ok(())
}

// Adds the tokens of a piece, notes what it defines, and gives its line behind it.
// When out of memory, all three are lost to the caller.
fn take_piece(
    alloc: Global,
    source: &[u8],
    output: &mut Output,
    state: LineState,
    piece: Placed<PieceKind>,
) -> AllocResult<LineState>
    requires place { piece.span ≡ span_of source.now piece.span.start piece.span.end }
    requires inside { piece.span.end ≤ length source.now }
    requires fits { piece.span.end < 2 ^ 31 }
    requires words { HasWordsInside piece.item piece.span.start piece.span.end }
    requires behind { piece.behind ≡ span_of source.now piece.span.end piece.span.end }
    ensures tokens { OnOk result (AddsPiece source.now state output.old output.new piece) }
    ensures macros { OnOk result (HasMacrosBehind state output.old output.new piece) }
    ensures state { IfOk result (λ behind. behind ≡ state_behind_placed source.now state piece) }
{
    let span = piece.span;
    let behind = piece.behind;
    match piece.item {
        PieceKind::LineFeed => {
            end_directive(&mut output.tokens, &state)?;
            Ok(LineState::Fresh)
        }
        PieceKind::Space => Ok(state),
        PieceKind::Token(item) => take_token(alloc, output, &state, Placed { item, span, behind }),
        PieceKind::HashLine(item) => take_hash_line(
            alloc,
            source,
            &mut output.tokens,
            Placed { item, span, behind },
        ),
        PieceKind::Passed => Ok(state),
    }
}

// The line behind what stands there.
fn line_behind(source: &[u8], span: Span) -> u32
    requires line { span.line ≡ line_at source.now span.start }
    requires order { span.start ≤ span.end }
    requires inside { span.end ≤ length source.now }
    requires fits { span.end < 2 ^ 31 }
    ensures { result ≡ line_at source.now span.end }
{
    span.line + line_feeds(&source[span.start as usize..span.end as usize])
}

// Adds the end of the directive whose line ends here, if one does.
fn end_directive(tokens: &mut Vec<Token>, state: &LineState) -> AllocResult<()>
    ensures { OnOk result (tokens.new.items ≡ tokens.old.items ++ directive_end state.now) }
{
    let LineState::Directive(last) = state else {
        return Ok(());
    };
    add(
        tokens,
        Token {
            kind: TokenKind::DirectiveEnd,
            span: *last,
        },
    )
}

// Adds a token, or defines with it the name whose constant it is, and gives the line behind it.
fn take_token(
    alloc: Global,
    output: &mut Output,
    state: &LineState,
    token: Placed<TokenKind>,
) -> AllocResult<LineState>
    ensures tokens { OnOk result (AddsToken state.now output.old output.new token) }
    ensures macros { OnOk result (HasMacrosBehindToken state.now output.old output.new token) }
    ensures state { IfOk result (λ next. next ≡ state_behind_token state.now token.behind) }
{
    let kind = token.item;
    if let LineState::Defining(name) = state {
        define(alloc, &mut output.macros, name.as_slice(), &kind)?;
        return Ok(LineState::Taken);
    }
    let span = token.span;
    add_token(output, Token { kind, span })?;
    match state {
        LineState::Directive(_) => Ok(LineState::Directive(token.behind)),
        _ => Ok(LineState::Taken),
    }
}

// Adds a token, replaced where it is a macro.
fn add_token(output: &mut Output, token: Token) -> AllocResult<()>
    ensures tokens { OnOk result (AddsReplaced output.old output.new token) }
    ensures macros { output.new.macros ≡ output.old.macros }
{
    let kind = output.macros.replaced(token.kind);
    add(
        &mut output.tokens,
        Token {
            kind,
            span: token.span,
        },
    )
}

// Defines a name as a constant.
fn define(alloc: Global, macros: &mut Macros, name: &[u8], kind: &TokenKind) -> AllocResult<()>
    ensures { OnOk result (macros.new ≡ macros_defined macros.old name.now kind.now) }
{
    let TokenKind::Constant(number) = kind else {
        return Ok(());
    };
    macros.define(alloc, name, *number)
}

// Adds the tokens of the beginning of a `#` line, and gives the line behind it.
fn take_hash_line(
    alloc: Global,
    source: &[u8],
    tokens: &mut Vec<Token>,
    line: Placed<HashLine>,
) -> AllocResult<LineState>
    requires place { line.span ≡ span_of source.now line.span.start line.span.end }
    requires inside { line.span.end ≤ length source.now }
    requires fits { line.span.end < 2 ^ 31 }
    requires words { HasWords line.item line.span.start line.span.end }
    ensures tokens { OnOk result (AddsHashLine source.now tokens.old tokens.new line) }
    ensures state { IfOk result (λ next. next ≡ state_of_line line.item line.behind) }
{
    match line.item {
        HashLine::Include => Ok(LineState::Taken),
        HashLine::Define(name) => Ok(LineState::Defining(name)),
        HashLine::Directive(pragma, omp) => {
            let words = DirectiveWords { pragma, omp };
            begin_directive(alloc, source, tokens, line.span, words)?;
            Ok(LineState::Directive(line.behind))
        }
        HashLine::Ignored => Ok(LineState::Ignored),
    }
}

// Adds the `#` of a directive and its words `pragma` and `omp`.
fn begin_directive(
    alloc: Global,
    source: &[u8],
    tokens: &mut Vec<Token>,
    span: Span,
    words: DirectiveWords,
) -> AllocResult<()>
    requires place { span ≡ span_of source.now span.start span.end }
    requires inside { span.end ≤ length source.now }
    requires fits { span.end < 2 ^ 31 }
    requires hash { span.start < words.pragma }
    requires pragma { words.pragma + 6 ≤ words.omp }
    requires omp { words.omp + 3 ≤ span.end }
    ensures { OnOk result (AddsDirectiveBegin source.now tokens.old tokens.new span words) }
{
    let hash = Span {
        start: span.start,
        end: span.start + 1,
        line: span.line,
    };
    add(
        tokens,
        Token {
            kind: TokenKind::DirectiveBegin,
            span: hash,
        },
    )?;
    let pragma = word_span(source, span, words.pragma, 6);
    add_word(alloc, tokens, b"pragma", pragma)?;
    let omp = word_span(source, span, words.omp, 3);
    add_word(alloc, tokens, b"omp", omp)
}

// The place of a word of `width` bytes, which begins behind `before`.
fn word_span(source: &[u8], before: Span, from: usize, width: u32) -> Span
    requires place { before ≡ span_of source.now before.start before.end }
    requires order { before.start ≤ from }
    requires inside { from + width ≤ length source.now }
    requires fits { from + width < 2 ^ 31 }
    ensures { result ≡ span_of source.now from (from + width) }
{
    let start = from as u32;
    let gap = Span {
        start: before.start,
        end: start,
        line: before.line,
    };
    Span {
        start,
        end: start + width,
        line: line_behind(source, gap),
    }
}

// Adds a name that no macro replaces.
fn add_word(alloc: Global, tokens: &mut Vec<Token>, text: &[u8], span: Span) -> AllocResult<()>
    ensures { OnOk result (AddsWord tokens.old tokens.new text.now span) }
{
    let kind = TokenKind::Name(Seq::of(Vec::from_slice(alloc, text)?));
    add(tokens, Token { kind, span })
}

// How many line feeds there are.
fn line_feeds(bytes: &[u8]) -> u32
    requires { length bytes.now < 2 ^ 32 }
    ensures { result ≡ count_by (λ b. b == 10) bytes.now }
{
    bytes.iter().filter(|byte| **byte == b'\n').count() as u32
}
