//! Declarations in functions: their rules, and the variables that they declare.

ghost use Rattle.std.specs.Prelude.{◌≡◌, OnOk, IfOk};
ghost use Rattle.om_scope_rules.specs.Checks.{Checks, ChecksExactly};
ghost use Rattle.om_scope_rules.specs.Scopes.{cells_of, shape_of};
ghost use Rattle.om_scope_rules.specs.StatementResolution.{length_of, local_of};
ghost use Rattle.om_scope_rules.specs.StatementRules.{array_size_breaches, is_empty_array, local_breaches, locals_breaches, redeclared_breaches};
ghost use Rattle.om_scope_parts.specs.Declares.{AddsLocalsOf, DeclaresLocal, DeclaresLocals, IsAdded};
ghost use Rattle.om_scope_parts.specs.Declares.{ResolvesInitial, ResolvesLocal, ResolvesLocals, bare_tree};
ghost use Rattle.om_scope_parts.specs.Declares.{local_name_breaches, local_tree, locals_in};

use crate::expression::{add, boxed_expression, unboxed};
use crate::separated::Separated;
use om_lexer::{FaultCode, SourceResult};
use om_parser_tree::{ArrayLength, Declaration, Declarator, Expression, Initializer, Name};
use om_scope_symbols::{Symbols, refuse_if};
use om_scope_tree::{LocalVariable, ResolvedDeclarator, ResolvedExpression, Shape};
use om_seq::{AllocResult, Seq};
use std::alloc::Global;

/// That a name is not declared in the innermost scope yet (C17 6.7p3): S8 at the name.
pub fn check_new(symbols: &Symbols, name: &Name) -> SourceResult<()>
    ensures { ChecksExactly result (redeclared_breaches symbols.now name.now) }
{
    let broken = symbols.is_declared(name.text.as_slice());
    refuse_if(broken, FaultCode::Redeclared, name.span.start)
}

/// Whether a variable is an array.
pub fn shape_of(array: &Option<ArrayLength>) -> Shape
    ensures { result ≡ shape_of array.now }
{
    match array {
        None => Shape::Scalar,
        Some(_) => Shape::Array,
    }
}

/// How many cells a variable has.
pub fn cells_of(array: &Option<ArrayLength>) -> u32
    ensures { result ≡ cells_of array.now }
{
    match array {
        None => 1,
        Some(array) => array.size.value,
    }
}

// Whether it is an array without cells.
fn is_empty_array(array: &Option<ArrayLength>) -> bool
    ensures { result ≡ is_empty_array array.now }
{
    let Some(array) = array else {
        return false;
    };
    array.size.value == 0
}

/// That an array has cells: S9.
pub fn check_size<I>(declarator: &Declarator<I>) -> SourceResult<()>
    ensures { ChecksExactly result (array_size_breaches (bare_tree declarator.now)) }
{
    let broken = is_empty_array(&declarator.array);
    refuse_if(broken, FaultCode::Misuse, declarator.name.span.start)
}

/// How many elements a variable has, where it is an array.
pub fn length_of(array: &Option<ArrayLength>) -> Option<u32>
    ensures { result ≡ length_of array.now }
{
    let array = array.as_ref()?;
    Some(array.size.value)
}

/// A copy of a name's text. An error is out of memory.
pub fn copy_of(alloc: Global, name: &Name) -> AllocResult<Seq<u8>>
    ensures { IfOk result (λ copy. copy ≡ name.now.text) }
{
    Ok(Seq::of(Vec::from_slice(alloc, name.text.as_slice())?))
}

/// The variable of a function that a name declares, known by where the name stands. An error is out of
/// memory.
pub fn local_of(alloc: Global, name: &Name) -> AllocResult<LocalVariable>
    ensures { IfOk result (λ local. local ≡ local_of name.now) }
{
    Ok(LocalVariable {
        name: copy_of(alloc, name)?,
        at: name.span.start,
    })
}

// What a local variable holds at the start.
fn resolve_initializer(
    alloc: Global,
    symbols: &Symbols,
    initializer: &Option<Initializer<Expression>>,
) -> SourceResult<Option<Box<ResolvedExpression>>>
    ensures { ResolvesInitial result symbols.now initializer.now }
{
    let Some(initializer) = initializer else {
        return Ok(None);
    };
    let value = boxed_expression(alloc, symbols, true, &initializer.value)?;
    Ok(Some(value))
}

// Declares the name of a local variable: S8, S9.
fn declare_name(
    alloc: Global,
    symbols: &mut Symbols,
    declarator: &Declarator<Expression>,
) -> SourceResult<()>
    ensures checked { Checks result (local_name_breaches symbols.old (local_tree declarator.now)) }
    ensures in_scope { DeclaresLocal result symbols.old symbols.new declarator.now }
{
    check_new(symbols, &declarator.name)?;
    check_size(declarator)?;
    let shape = shape_of(&declarator.array);
    symbols.declare_local(alloc, &declarator.name, shape)?;
    Ok(())
}

// Declares one local variable.
fn resolve_declarator(
    alloc: Global,
    symbols: &mut Symbols,
    declarator: &Declarator<Expression>,
) -> SourceResult<ResolvedDeclarator>
    ensures found { ResolvesLocal result symbols.old (local_tree declarator.now) }
    ensures in_scope { DeclaresLocal result symbols.old symbols.new declarator.now }
{
    declare_name(alloc, symbols, declarator)?;
    let variable = local_of(alloc, &declarator.name)?;
    let initial = resolve_initializer(alloc, symbols, &declarator.initializer)?;
    Ok(ResolvedDeclarator {
        variable,
        length: length_of(&declarator.array),
        initial: unboxed(initial),
    })
}

// Declares one local variable behind those before it.
fn add_local(
    alloc: Global,
    symbols: &mut Symbols,
    declared: &mut Vec<ResolvedDeclarator>,
    declarator: &Declarator<Expression>,
) -> SourceResult<()>
    ensures checked { Checks result (local_breaches symbols.old (local_tree declarator.now)) }
    ensures in_scope { DeclaresLocal result symbols.old symbols.new declarator.now }
    ensures resolved { OnOk result (IsAdded symbols.old declared.old declared.new declarator.now) }
{
    add(declared, resolve_declarator(alloc, symbols, declarator))
}

// Declares the variables of a declaration in a function.
fn add_locals(
    alloc: Global,
    symbols: &mut Symbols,
    declared: &mut Vec<ResolvedDeclarator>,
    declaration: &Declaration<Expression>,
) -> SourceResult<()>
    ensures checked { Checks result (locals_breaches symbols.old (locals_in declaration.now)) }
    ensures in_scope { DeclaresLocals result symbols.old symbols.new (locals_in declaration.now) }
    ensures resolved { AddsLocalsOf result symbols.old declared.old declared.new declaration.now }
{
    for declarator in Separated::new(&declaration.first, declaration.rest.as_slice()) {
        add_local(alloc, symbols, declared, declarator)?;
    }
    Ok(())
}

/// The variables of a declaration in a function, which are declared one after the other: each is in
/// scope behind its name, also in its own initializer (C17 6.2.1p7).
///
/// Refusals: S8 at a name that the innermost scope declares already, S9 at one of an array without
/// cells, those of an initializer's expression, and S0 out of memory.
pub fn resolve_locals(
    alloc: Global,
    symbols: &mut Symbols,
    declaration: &Declaration<Expression>,
) -> SourceResult<Vec<ResolvedDeclarator>>
    ensures found { ResolvesLocals result symbols.old (locals_in declaration.now) }
    ensures in_scope { DeclaresLocals result symbols.old symbols.new (locals_in declaration.now) }
{
    let mut declared = Vec::new(alloc);
    add_locals(alloc, symbols, &mut declared, declaration)?;
    Ok(declared)
}
