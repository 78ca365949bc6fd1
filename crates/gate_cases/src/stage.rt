//! The stages of the front end, and what each of them refuses.

ghost use Rattle.std.specs.Prelude.{IfOk};
ghost use Rattle.om_parser_tree.specs.Formed.{IsUnit};
ghost use Rattle.om_parser_tree.specs.Sizes.{AtomicsHaveForms};
ghost use Rattle.om_parser_tree.specs.View.{view_unit};

use om_frontend::program_of;
use om_lexer::{SourceFault, SourceResult, Token, lex};
use om_parser::{Unit, parse};
use om_pragma::directive;
use om_scope::resolve;
use std::alloc::Global;

/// How far a source is taken.
#[derive(Clone, Copy)]
pub(crate) enum Stage {
    /// To its tokens.
    Lexer,
    /// To its directive: the source is one line.
    Line,
    /// To its tree.
    Parser,
    /// To its resolution, after which no rule on names, values and directives is broken.
    Resolver,
    /// To its code, which is within its limits.
    Code,
}

/// The stage of a word.
pub(crate) fn stage_of(word: &str) -> Option<Stage> {
    Some(match word {
        "lexer" => Stage::Lexer,
        "line" => Stage::Line,
        "parser" => Stage::Parser,
        "resolver" => Stage::Resolver,
        "code" => Stage::Code,
        _ => return None,
    })
}

/// The refusal of a case's source on its way to the end of a stage; `None` where it is accepted.
pub(crate) fn case_refusal(alloc: Global, stage: Stage, source: &[u8]) -> Option<SourceFault> {
    match stage {
        Stage::Lexer => lex(alloc, source).err(),
        Stage::Line => line_refusal(alloc, source),
        Stage::Parser => parsed(alloc, source).err(),
        Stage::Resolver => resolver_refusal(alloc, source),
        Stage::Code => program_of(alloc, source).err(),
    }
}

// The refusal of a line as a directive.
fn line_refusal(alloc: Global, source: &[u8]) -> Option<SourceFault> {
    match lex(alloc, source) {
        Ok(tokens) => directive(alloc, without_end(tokens.as_slice())).err(),
        Err(fault) => Some(fault),
    }
}

// The tokens of a line without the end of the source.
fn without_end(tokens: &[Token]) -> &[Token] {
    match tokens {
        [line @ .., _] => line,
        [] => tokens,
    }
}

// The tree of a source, which is well-formed and has the forms of `atomic`.
fn parsed(alloc: Global, source: &[u8]) -> SourceResult<Unit>
    ensures formed { IfOk result (λ unit. IsUnit (view_unit unit)) }
    ensures atomics_have_forms { IfOk result (λ unit. AtomicsHaveForms (view_unit unit)) }
{
    let tokens = lex(alloc, source)?;
    parse(alloc, tokens.as_slice())
}

// The refusal of a source as a whole.
fn resolver_refusal(alloc: Global, source: &[u8]) -> Option<SourceFault> {
    match parsed(alloc, source) {
        Ok(unit) => resolve(alloc, unit).err(),
        Err(fault) => Some(fault),
    }
}
