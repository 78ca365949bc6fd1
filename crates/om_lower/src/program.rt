//! The program of a tree whose functions are lowered.

ghost use Rattle.std.specs.Prelude.{◌≡◌, ◌<◌, All, IfErr, IfOk, IsSome, length, map, position, slice_get, true};
ghost use Rattle.std.specs.List.{AllZip};
ghost use Rattle.om_lower.specs.Words.{AreLow, HasMain, IsCodeOf, IsInput, IsLowered, IsTextAt, IsTextOf};
ghost use Rattle.om_lower.specs.Words.{flattened, global_of, is_main_function, main_body, no_memory, pieces_of};
ghost use Rattle.om_lower.specs.Words.{tree_of};
ghost use Rattle.om_scope_tree.specs.ResolvedView as view;

use crate::functions::{Input, Placed, is_main};
use crate::texts::text_of;
use om_code::raw::{self, Piece};
use om_code::{Body, Program, Raw};
use om_lexer::SourceResult;
use om_lower_rules::laws::code_is_valid;
use om_lower_rules::{BodyTables, Texts, Variables};
use om_scope_tree::{GlobalVariable, Resolved, ResolvedFunction};
use om_seq::{AllocResult, Seq};
use std::alloc::Global;

/// The program of a tree, whose functions have these bodies.
///
/// Its only refusal is out of memory.
pub(crate) fn program_of(input: &Input<'_>, placed: Placed) -> SourceResult<Program>
    requires given { IsInput input.now }
    requires lowered { IsLowered (tree_of input.now) placed.picks placed.functions true }
    requires low { All (λ bodies. AreLow placed.picks bodies) placed.functions }
    ensures code { IfOk result (λ program. IsCodeOf (tree_of input.now) program) }
    ensures refused { IfErr result (λ fault. fault ≡ no_memory) }
{
    code_is_valid();
    let raw = raw_of(input, placed)?;
    Ok(Program::of(raw))
}

// The code of a program, in one value.
fn raw_of(input: &Input<'_>, placed: Placed) -> AllocResult<Raw>
    requires given { IsInput input.now }
    requires lowered { IsLowered (tree_of input.now) placed.picks placed.functions true }
    ensures code { IfOk result (λ raw. IsCodeOf (tree_of input.now) raw) }
    ensures bodies { IfOk result (λ raw. raw.bodies ≡ flattened placed.functions) }
    ensures picks { IfOk result (λ raw. raw.picks ≡ placed.picks) }
{
    let alloc = input.alloc;
    let Placed {
        functions,
        picks,
        ..
    } = placed;
    let bodies = flattened(alloc, functions)?;
    let globals = copy_globals(alloc, input.resolved.globals.as_slice())?;
    let texts = texts_of(alloc, &input.tables.formats)?;
    let locks = copy_texts(alloc, &input.tables.locks)?;
    let main = main_body(input);
    Ok(Raw {
        globals,
        bodies,
        main,
        texts,
        picks,
        locks,
    })
}

// The bodies of functions, one behind the other.
fn flattened(alloc: Global, functions: Seq<Seq<Body>>) -> AllocResult<Seq<Body>>
    ensures { IfOk result (λ bodies. bodies ≡ flattened functions) }
{
    let mut functions = functions.into_vec();
    let mut all = Seq::new(alloc);
    while let Some(mut bodies) = functions.pop() {
        bodies.append(all)?;
        all = bodies;
    }
    Ok(all)
}

// What PRINT writes for each format.
fn texts_of(alloc: Global, formats: &Texts) -> AllocResult<Seq<Seq<Piece>>>
    requires { All (λ format. IsSome (pieces_of format)) formats.now }
    ensures { IfOk result (λ texts. AllZip IsTextOf formats.now texts) }
{
    let mut texts = Vec::new(alloc);
    for number in 0..formats.len() {
        texts.push(text_at(alloc, formats, number)?)?;
    }
    Ok(Seq::of(texts))
}

// What PRINT writes for the format of this number.
fn text_at(alloc: Global, formats: &Texts, number: usize) -> AllocResult<Seq<Piece>>
    requires there { number < length formats.now }
    requires formats { All (λ format. IsSome (pieces_of format)) formats.now }
    ensures { IfOk result (IsTextAt formats.now number) }
{
    let Some(format) = formats.text(number) else {
        unreachable!();
    };
    match text_of(alloc, format)? {
        Some(text) => Ok(text),
        None => unreachable!(),
    }
}

// Texts, in the order of their numbers.
fn copy_texts(alloc: Global, texts: &Texts) -> AllocResult<Seq<Seq<u8>>>
    ensures { IfOk result (λ copied. copied ≡ texts.now) }
{
    let mut copied = Vec::new(alloc);
    for number in 0..texts.len() {
        copied.push(copy_text(alloc, texts, number)?)?;
    }
    Ok(Seq::of(copied))
}

// The text of this number.
fn copy_text(alloc: Global, texts: &Texts, number: usize) -> AllocResult<Seq<u8>>
    requires { number < length texts.now }
    ensures { IfOk result (λ text. slice_get texts.now number ≡ Some text) }
{
    let Some(text) = texts.text(number) else {
        unreachable!();
    };
    Ok(Seq::of(text.to_vec(alloc)?))
}

// The global variables of the code.
fn copy_globals(alloc: Global, globals: &[GlobalVariable]) -> AllocResult<Seq<raw::GlobalVariable>>
    ensures { IfOk result (λ copied. copied ≡ map global_of globals.now) }
{
    let mut copied = Vec::new(alloc);
    for global in globals {
        copied.push(copy_global(alloc, global)?)?;
    }
    Ok(Seq::of(copied))
}

// A global variable of the code.
fn copy_global(alloc: Global, global: &GlobalVariable) -> AllocResult<raw::GlobalVariable>
    ensures { IfOk result (λ copied. copied ≡ global_of global.now) }
{
    let name = global.name.as_slice().to_vec(alloc)?;
    Ok(raw::GlobalVariable {
        name: Seq::of(name),
        length: global.length,
        initial: global.initial,
    })
}

// The number of the body of `main`.
fn main_body(input: &Input<'_>) -> u32
    requires given { IsInput input.now }
    ensures { main_body (tree_of input.now) ≡ Some result }
{
    let main = main_of(input.resolved);
    let variables = Variables::new(input.alloc);
    let body_tables = BodyTables::new(input.resolved, input.tables, &[], &variables, true);
    body_tables.called_body(main)
}

// The index of `main`.
fn main_of(resolved: &Resolved) -> usize
    requires { HasMain (view.resolved resolved.now) }
    ensures { position is_main_function (view.resolved resolved.now).functions ≡ Some result }
{
    match index_of_main(resolved.functions.as_slice()) {
        Some(index) => index,
        None => unreachable!(),
    }
}

// The index of the first function named `main`.
fn index_of_main(functions: &[ResolvedFunction]) -> Option<usize>
    ensures { result
        ≡ position (λ function. is_main_function (view.function function)) functions.now }
{
    functions.iter().position(is_main)
}
