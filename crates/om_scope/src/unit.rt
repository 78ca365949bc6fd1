//! A whole source.

ghost use Rattle.std.specs.Prelude.{◌≡◌, [], All, OnOk, IfOk, IfErr, map};
ghost use Rattle.std.specs.List.{list_any};
ghost use Rattle.om_parser_tree.specs.Formed.{IsUnit};
ghost use Rattle.om_parser_tree.specs.Sizes.{AtomicsHaveForms};
ghost use Rattle.om_parser_tree.specs.View.{view_item, view_unit};
ghost use Rattle.om_scope_rules.specs.Breaches.{breaches_of, is_main, main_breaches};
ghost use Rattle.om_scope_rules.specs.Checks.{Checks, ChecksExactly};
ghost use Rattle.om_scope_rules.specs.Outcomes.{Finds, Refuses};
ghost use Rattle.om_scope_rules.specs.Resolves.{Appends};
ghost use Rattle.om_scope_rules.specs.Proper.{IsProperItem};
ghost use Rattle.om_scope_tree.specs.ResolvedView as view;
ghost use Rattle.om_scope_rules.specs.Scopes.{after_definition, after_item, definitions_of, nothing_declared};
ghost use Rattle.om_scope_rules.specs.UnitResolution.{globals_of, resolution_of};
ghost use Rattle.om_scope_rules.specs.UnitRules.{item_breaches, items_breaches};
ghost use Rattle.om_scope_tree.specs.Beside.{TreeAtomicsAssign};
ghost use Rattle.om_scope_tree.specs.Uses.{IsResolved};
ghost use Rattle.om_scope_tree.specs.Whole.{IsWholeTree};
ghost use Rattle.om_scope.specs.Units.{AddsFunctionOf, AddsFunctions, AppendsGlobalsOf, ResolvesSource};

use crate::function::{check_prototype, resolve_function};
use om_lexer::{FaultCode, SourceFault, SourceResult};
use om_parser_tree::{Item, Unit};
use om_scope_parts::{add, declare_globals};
use om_scope_rules::Names;
use om_scope_rules::laws::{atomics_assign, unbroken_trees_are_resolved, unbroken_trees_are_whole};
use om_scope_symbols::{Symbols, add_predeclared};
use om_scope_tree::{GlobalVariable, Resolved, ResolvedFunction};
use om_seq::{AllocResult, Seq};
use std::alloc::Global;

// Adds the function that an item defines.
fn add_definition(alloc: Global, names: &mut Names, item: &Item) -> AllocResult<()>
    ensures { OnOk result (names.new ≡ after_definition names.old (view_item item.now)) }
{
    let Item::Function(function) = item else {
        return Ok(());
    };
    names.add(alloc, function.head.name.text.as_slice())
}

// Adds the functions that a source defines, and before them those that are there before it.
fn add_definitions(alloc: Global, names: &mut Names, items: &[Item]) -> AllocResult<()>
    requires is_empty { names.old ≡ [] }
    ensures { OnOk result (names.new ≡ definitions_of (map view_item items.now)) }
{
    add_predeclared(alloc, names)?;
    for item in items {
        add_definition(alloc, names, item)?;
    }
    Ok(())
}

// The functions that a source defines, and those that are there before it.
fn definitions_of(alloc: Global, items: &[Item]) -> AllocResult<Names>
    ensures { IfOk result (λ names. names ≡ definitions_of (map view_item items.now)) }
{
    let mut names = Names::new(alloc);
    add_definitions(alloc, &mut names, items)?;
    Ok(names)
}

// Resolves an item in the scopes behind those before it.
fn resolve_item(
    alloc: Global,
    symbols: &mut Symbols,
    globals: &mut Vec<GlobalVariable>,
    functions: &mut Vec<ResolvedFunction>,
    item: &Item,
) -> SourceResult<()>
    requires proper { IsProperItem (view_item item.now) }
    ensures checked { Checks result (item_breaches symbols.old (view_item item.now)) }
    ensures in_scope { OnOk result (symbols.new ≡ after_item symbols.old (view_item item.now)) }
    ensures declared { Appends result globals.old globals.new (globals_of (view_item item.now)) }
    ensures defined { AddsFunctionOf result symbols.old functions.old functions.new item.now }
{
    match item {
        Item::Declaration(declaration) => declare_globals(alloc, symbols, globals, declaration),
        Item::Prototype { head, .. } => check_prototype(alloc, symbols, head),
        Item::Function(function) => add(functions, resolve_function(alloc, symbols, function)),
    }
}

// Resolves items in the scopes behind those before them, in their order.
fn resolve_each(
    alloc: Global,
    symbols: &mut Symbols,
    globals: &mut Vec<GlobalVariable>,
    functions: &mut Vec<ResolvedFunction>,
    items: &[Item],
) -> SourceResult<()>
    requires proper { All IsProperItem (map view_item items.now) }
    ensures checked { Checks result (items_breaches symbols.old (map view_item items.now)) }
    ensures declared { AppendsGlobalsOf result globals.old globals.new items.now }
    ensures defined { AddsFunctions result symbols.old functions.old functions.new items.now }
{
    for item in items {
        resolve_item(alloc, symbols, globals, functions, item)?;
    }
    Ok(())
}

// Resolves the items of a source that defines these functions.
fn resolve_from(alloc: Global, symbols: &mut Symbols, items: &[Item]) -> SourceResult<Resolved>
    requires is_empty { symbols.old ≡ nothing_declared (definitions_of (map view_item items.now)) }
    requires proper { All IsProperItem (map view_item items.now) }
    ensures { ResolvesSource result (map view_item items.now) }
{
    symbols.begin_file(alloc)?;
    let mut globals = Vec::new(alloc);
    let mut functions = Vec::new(alloc);
    resolve_each(alloc, symbols, &mut globals, &mut functions, items)?;
    Ok(Resolved {
        globals: Seq::of(globals),
        functions,
    })
}

// Resolves the items of a source, in their order.
fn resolve_items(alloc: Global, items: &[Item]) -> SourceResult<Resolved>
    requires proper { All IsProperItem (map view_item items.now) }
    ensures { ResolvesSource result (map view_item items.now) }
{
    let definitions = definitions_of(alloc, items)?;
    let mut symbols = Symbols::new(alloc, definitions);
    let resolved = resolve_from(alloc, &mut symbols, items);
    drop(symbols);
    resolved
}

// Whether an item is a function named `main`.
fn is_main(item: &Item) -> bool
    ensures { result ≡ is_main (view_item item.now) }
{
    let Item::Function(function) = item else {
        return false;
    };
    function.head.name.text.as_slice() == b"main".as_slice()
}

// Whether one of the items is a function named `main`.
fn has_main(items: &[Item]) -> bool
    ensures { result ≡ list_any (λ item. is_main (view_item item)) items.now }
{
    items.iter().any(|item| is_main(item))
}

// That one of the items is a function named `main`: S15.
fn check_main(unit: &Unit) -> SourceResult<()>
    ensures { ChecksExactly result (main_breaches (view_unit unit.now)) }
{
    if !has_main(unit.items.as_slice()) {
        return Err(SourceFault {
            code: FaultCode::NoMain,
            at: unit.end.start,
        });
    }
    Ok(())
}

/// The unit, resolved: each use of a name has the variable of its innermost declaration (C17 6.2.1).
/// The unit is one that the parser may make: well-formed, and its `atomic`s have their forms.
///
/// The first breach of a rule in the unit's text is answered, at one place that of the lowest
/// number; nothing is kept then.
/// Refusals:
/// - S0 at byte 0: no memory.
/// - S7 at a name that no declaration before it declares, or of a function that is never defined.
/// - S8 at a name that its scope declares already, where a function may be declared again with the same
///   result and number of parameters, or of a function that is defined again.
///   `printf`, `omp_get_thread_num` and `omp_get_num_threads` count as defined before the source.
/// - S9 at a name that is used, called, listed or declared as what it can't be, or at the first
///   token of a value that can't stand there.
/// - S10 at a constant above 2147483647.
/// - S11 at the first function, parameter, printed value, section or global too many.
/// - S12 at the `for`, or the first token of what stands where a canonical loop must.
/// - S13 at a use of a variable that a construct with `default(none)` does not list.
/// - S14 at a jump out of a construct or outside of a loop, or at the word of a directive where no
///   worksharing construct and no barrier may stand.
/// - S15 at the end of the source: no function is named `main`.
///
/// A tree that the parser made of the lexer's tokens never meets S10; no clause says it.
pub fn resolve(alloc: Global, unit: Unit) -> SourceResult<Resolved>
    requires formed { IsUnit (view_unit unit) }
    requires atomics_have_forms { AtomicsHaveForms (view_unit unit) }
    ensures no_breach { OnOk result (breaches_of (view_unit unit) ≡ []) }
    ensures resolved { Finds view.resolved result (resolution_of (view_unit unit)) }
    ensures is_resolved { IfOk result (λ resolved. IsResolved (view.resolved resolved)) }
    ensures whole { IfOk result (λ resolved. IsWholeTree (view.resolved resolved)) }
    ensures atomics_assign { IfOk result (λ resolved. TreeAtomicsAssign (view.resolved resolved)) }
    ensures first_breach { IfErr result (Refuses (breaches_of (view_unit unit))) }
{
    let resolved = resolve_items(alloc, unit.items.as_slice())?;
    check_main(&unit)?;
    unbroken_trees_are_resolved();
    unbroken_trees_are_whole();
    atomics_assign();
    Ok(resolved)
}
