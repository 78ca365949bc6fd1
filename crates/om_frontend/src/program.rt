//! From a source to its program: lexer, parser, names, code.
ghost use Rattle.std.specs.Prelude.{◌≡◌, ◌≢◌, IfOk, IfErr};
ghost use Rattle.om_lexer.specs.Faults.{no_memory};
ghost use Rattle.om_parser_tree.specs.View.{view_unit};
ghost use Rattle.om_scope_tree.specs.ResolvedView as view;
ghost use Rattle.om_scope_tree.specs.Beside.{TreeAtomicsAssign, TreeCopiesBehind};
ghost use Rattle.om_scope_tree.specs.Weights.{HasSmallWeight};
ghost use Rattle.om_scope_tree.specs.Whole.{IsWholeTree};
ghost use Rattle.om_frontend.specs.Verdict.{IsTreeOfSource, IsResolutionOfSource, IsProgramOf, IsRefused};

use om_code::Program;
use om_lexer::{SourceResult, lex};
use om_lower::lower;
use om_parser::{Unit, parse};
use om_scope::{Resolved, resolve};
use om_scope_rules::laws::{sources_have_copies_behind, sources_have_small_weight};
use std::alloc::Global;

// The tree of a source.
fn tree_of(alloc: Global, source: &[u8]) -> SourceResult<Unit>
    ensures tree { IfOk result (λ unit. IsTreeOfSource source.now (view_unit unit)) }
    ensures refused { IfErr result (λ fault. fault ≢ no_memory → IsRefused source.now fault) }
{
    let tokens = lex(alloc, source)?;
    parse(alloc, &tokens)
}

// The tree of a source, with its names resolved.
fn resolution_of(alloc: Global, source: &[u8]) -> SourceResult<Resolved>
    ensures resolution { IfOk result
        (λ resolved. IsResolutionOfSource source.now (view.resolved resolved)) }
    ensures whole { IfOk result (λ resolved. IsWholeTree (view.resolved resolved)) }
    ensures atomics_assign { IfOk result (λ resolved. TreeAtomicsAssign (view.resolved resolved)) }
    ensures copies_behind { IfOk result (λ resolved. TreeCopiesBehind (view.resolved resolved)) }
    ensures small { IfOk result (λ resolved. HasSmallWeight (view.resolved resolved)) }
    ensures refused { IfErr result (λ fault. fault ≢ no_memory → IsRefused source.now fault) }
{
    sources_have_copies_behind();
    sources_have_small_weight();
    let unit = tree_of(alloc, source)?;
    resolve(alloc, unit)
}

/// The program of a source.
///
/// The passes run in turn, and the first that refuses answers; nothing is kept then. Out of memory is S0 in any of
/// them.
pub fn program_of(alloc: Global, source: &[u8]) -> SourceResult<Program>
    ensures program { IfOk result (λ program. IsProgramOf source.now program) }
    ensures refused { IfErr result (λ fault. fault ≢ no_memory → IsRefused source.now fault) }
{
    let resolved = resolution_of(alloc, source)?;
    lower(alloc, &resolved)
}
