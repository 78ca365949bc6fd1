//! Globals: their rules, and what they hold at the start.

ghost use Rattle.std.specs.Prelude.{◌≡◌, ◌<◌, false, OnOk, IfOk};
ghost use Rattle.om_scope_rules.specs.Checks.{Checks, ChecksExactly};
ghost use Rattle.om_scope_rules.specs.Constants.{signed_value};
ghost use Rattle.om_scope_rules.specs.ExpressionRules.{constant_breaches};
ghost use Rattle.om_scope_rules.specs.Scopes.{cells_of, is_declared};
ghost use Rattle.om_scope_rules.specs.UnitResolution.{initial_of};
ghost use Rattle.om_scope_rules.specs.UnitRules.{global_breaches, globals_breaches, initial_breaches};
ghost use Rattle.om_scope_parts.specs.Declares.{AppendsGlobal, AppendsGlobals, DeclaresGlobal, DeclaresGlobals, HasCellsFor};
ghost use Rattle.om_scope_parts.specs.Declares.{global_tree, globals_in, initial_tree, name_breaches_of};

use crate::declaration::{cells_of, check_new, check_size, copy_of, length_of, shape_of};
use crate::expression::constant_of;
use crate::separated::Separated;
use om_lexer::{FaultCode, SourceResult};
use om_parser_tree::{Declaration, Declarator, Initializer, SignedNumber};
use om_scope_rules::GLOBAL_CELL_LIMIT;
use om_scope_symbols::{Symbols, refuse_if};
use om_scope_tree::GlobalVariable;
use std::alloc::Global;

// What a number stands for, with its minus: S10.
fn value_of(signed: &SignedNumber) -> SourceResult<i32>
    ensures checked { ChecksExactly result (constant_breaches signed.now.number) }
    ensures value { IfOk result (λ value. value ≡ signed_value signed.now) }
{
    let value = constant_of(&signed.number)?;
    match signed.minus {
        None => Ok(value),
        Some(_) => Ok(-value),
    }
}

// What a global holds at the start.
fn initial_of(initializer: &Option<Initializer<SignedNumber>>) -> SourceResult<i32>
    ensures checked { ChecksExactly result (initial_breaches (initial_tree initializer.now)) }
    ensures value { IfOk result (λ value. value ≡ initial_of (initial_tree initializer.now)) }
{
    match initializer {
        None => Ok(0),
        Some(initializer) => value_of(&initializer.value),
    }
}

// That a name may be that of a further global: S8, S9, S11.
fn check_global_name(symbols: &Symbols, declarator: &Declarator<SignedNumber>) -> SourceResult<()>
    ensures checked { ChecksExactly result (name_breaches_of symbols.now declarator.now) }
    ensures has_room { OnOk result (HasCellsFor symbols.now declarator.now) }
    ensures has_cells { OnOk result (0 < cells_of declarator.now.array) }
    ensures is_new { OnOk result (is_declared symbols.now declarator.now.name.text ≡ false) }
{
    check_new(symbols, &declarator.name)?;
    let at = declarator.name.span.start;
    let is_main = declarator.name.text.as_slice() == b"main".as_slice();
    refuse_if(is_main, FaultCode::Misuse, at)?;
    check_size(declarator)?;
    let cells = u64::from(symbols.cells()) + u64::from(cells_of(&declarator.array));
    refuse_if(u64::from(GLOBAL_CELL_LIMIT) < cells, FaultCode::TooMany, at)
}

// Declares the name of a global: S8, S9, S11.
fn declare_global_name(
    alloc: Global,
    symbols: &mut Symbols,
    declarator: &Declarator<SignedNumber>,
) -> SourceResult<()>
    ensures checked { Checks result (name_breaches_of symbols.old declarator.now) }
    ensures in_scope { DeclaresGlobal result symbols.old symbols.new declarator.now }
{
    check_global_name(symbols, declarator)?;
    let shape = shape_of(&declarator.array);
    let cells = cells_of(&declarator.array);
    symbols.declare_global(alloc, declarator.name.text.as_slice(), shape, cells)?;
    Ok(())
}

// Adds a global behind those before it: S10.
fn add_global(
    alloc: Global,
    globals: &mut Vec<GlobalVariable>,
    declarator: &Declarator<SignedNumber>,
) -> SourceResult<()>
    ensures checked { Checks result (initial_breaches (global_tree declarator.now).initializer) }
    ensures declared { AppendsGlobal result globals.old globals.new declarator.now }
{
    let initial = initial_of(&declarator.initializer)?;
    globals.push(GlobalVariable {
        name: copy_of(alloc, &declarator.name)?,
        at: declarator.name.span.start,
        length: length_of(&declarator.array),
        initial,
    })?;
    Ok(())
}

// Declares one global.
fn declare_global(
    alloc: Global,
    symbols: &mut Symbols,
    globals: &mut Vec<GlobalVariable>,
    declarator: &Declarator<SignedNumber>,
) -> SourceResult<()>
    ensures checked { Checks result (global_breaches symbols.old (global_tree declarator.now)) }
    ensures in_scope { DeclaresGlobal result symbols.old symbols.new declarator.now }
    ensures declared { AppendsGlobal result globals.old globals.new declarator.now }
{
    declare_global_name(alloc, symbols, declarator)?;
    add_global(alloc, globals, declarator)
}

/// Declares the globals of a declaration, in their order, and adds them behind those before it (C17
/// 6.9.2).
///
/// Refusals: S8 at a name that is declared already; S9 at `main` or an array without cells; S11 at the
/// first that has cells too many; S10 at an initializer; S0 out of memory.
pub fn declare_globals(
    alloc: Global,
    symbols: &mut Symbols,
    globals: &mut Vec<GlobalVariable>,
    declaration: &Declaration<SignedNumber>,
) -> SourceResult<()>
    ensures checked { Checks result (globals_breaches symbols.old (globals_in declaration.now)) }
    ensures in_scope { DeclaresGlobals result symbols.old symbols.new (globals_in declaration.now) }
    ensures declared { AppendsGlobals result globals.old globals.new (globals_in declaration.now) }
{
    for declarator in Separated::new(&declaration.first, declaration.rest.as_slice()) {
        declare_global(alloc, symbols, globals, declarator)?;
    }
    Ok(())
}
