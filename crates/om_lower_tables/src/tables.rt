//! The tables of a program, found by one walk over its tree.

ghost use Rattle.std.specs.Prelude.{◌≡◌, [], OnOk, IfOk};
ghost use Rattle.om_scope_tree.specs.ResolvedView as view;
ghost use Rattle.om_scope_tree.specs.Weights.{HasSmallWeight, function_weight};
ghost use Rattle.om_lower_rules.specs.Bodies as bodies;
ghost use Rattle.om_lower_rules.specs.Numbering.{numbers_of};
ghost use Rattle.om_lower_rules.specs.ProgramTables.{IsTablesOf};
ghost use Rattle.om_lower_tables.specs.Gathered.{AddsBodyNumber, AddsBodyNumbers, AddsCellsOf, HaveCells};
ghost use Rattle.om_lower_tables.specs.Room.{HasRoom};
ghost use Rattle.om_lower_tables.specs.Walks.{AddsFunctionEnds, Finds, HasAccesses, HasFormats, HasLocks};
ghost use Rattle.om_lower_tables.specs.Walks.{HaveAccesses, HaveEnds, HaveFormats, HaveLocks, PassesFunction};
ghost use Rattle.om_lower_tables.specs.Walks.{by_function, functions_weight, last_numbers};

use crate::mentions::{Mentions, Walk, note_statements, put_end};
use om_lower_rules::{Extents, Numbers, Tables, Texts};
use om_scope_tree::{Resolved, ResolvedFunction};
use om_seq::AllocResult;
use std::alloc::Global;
use std::collections::BTreeMap;

// A walk over functions, and what each of them has.
#[derive(Drop)]
struct Functions {
    walk: Walk,
    extents: Vec<Extents>,
    bodies: Vec<u32>,
}

/// The tables of a tree: one walk over it finds them all.
pub fn tables_of(alloc: Global, resolved: &Resolved) -> AllocResult<Tables>
    requires small { HasSmallWeight (view.resolved resolved.now) }
    ensures { IfOk result (λ tables. IsTablesOf (view.resolved resolved.now) tables) }
{
    let found = Mentions {
        alloc,
        formats: Texts::new(alloc),
        locks: Texts::new(alloc),
        atomics: BTreeMap::new(alloc),
        extents: Extents::new(alloc),
    };
    let walk = Walk {
        found,
        numbers: Numbers::first(),
        ends: Vec::new(alloc),
    };
    let mut made = Functions {
        walk,
        extents: Vec::new(alloc),
        bodies: Vec::new(alloc),
    };
    note_functions(&mut made, resolved.functions.as_slice())?;
    let Functions {
        walk,
        extents,
        bodies,
    } = made;
    let Walk {
        found,
        numbers,
        ends,
    } = walk;
    let Mentions {
        formats,
        locks,
        atomics,
        ..
    } = found;
    Ok(Tables {
        formats,
        locks,
        atomics,
        extents,
        bodies,
        behind: numbers,
        ends,
    })
}

// Walks over all functions, from the first numbers on.
fn note_functions(made: &mut Functions, functions: &[ResolvedFunction]) -> AllocResult<()>
    requires numbers { numbers_of made.old.walk.numbers ≡ bodies.first_numbers }
    requires empty { made.old.walk.found.extents ≡ [] }
    requires none { made.old.extents.items ≡ [] }
    requires room { HasRoom (functions_weight functions.now) made.old.walk }
    ensures behind { OnOk result (numbers_of made.new.walk.numbers ≡ last_numbers functions.now) }
    ensures formats { OnOk result (HaveFormats functions.now made.old.walk made.new.walk) }
    ensures locks { OnOk result (HaveLocks functions.now made.old.walk made.new.walk) }
    ensures atomics { OnOk result (HaveAccesses functions.now made.old.walk made.new.walk) }
    ensures bodies { OnOk result (AddsBodyNumbers functions.now made.old made.new) }
    ensures ends { OnOk result (HaveEnds functions.now made.old.walk made.new.walk) }
    ensures cells { OnOk result (HaveCells functions.now made.new) }
{
    for function in functions {
        note_function(made, function)?;
    }
    Ok(())
}

// Walks over a function.
fn note_function(made: &mut Functions, function: &ResolvedFunction) -> AllocResult<()>
    requires empty { made.old.walk.found.extents ≡ [] }
    requires room { HasRoom (function_weight (view.function function.now)) made.old.walk }
    ensures behind { OnOk result (PassesFunction function.now made.old.walk made.new.walk) }
    ensures formats { OnOk result (HasFormats function.now made.old.walk made.new.walk) }
    ensures locks { OnOk result (HasLocks function.now made.old.walk made.new.walk) }
    ensures atomics { OnOk result (HasAccesses function.now made.old.walk made.new.walk) }
    ensures empty { OnOk result (made.new.walk.found.extents ≡ []) }
    ensures bodies { OnOk result (AddsBodyNumber made.old made.new) }
    ensures ends { OnOk result (AddsFunctionEnds function.now made.old.walk made.new.walk) }
    ensures cells { OnOk result (AddsCellsOf function.now made.old made.new) }
{
    made.bodies.push(made.walk.numbers.bodies)?;
    note_body(&mut made.walk, function)?;
    let none = Extents::new(made.walk.found.alloc);
    let extents = std::mem::replace(&mut made.walk.found.extents, none);
    made.extents.push(extents)?;
    Ok(())
}

// Walks over the body of a function.
fn note_body(walk: &mut Walk, function: &ResolvedFunction) -> AllocResult<()>
    requires room { HasRoom (function_weight (view.function function.now)) walk.old }
    ensures behind { OnOk result (PassesFunction function.now walk.old walk.new) }
    ensures ends { OnOk result (AddsFunctionEnds function.now walk.old walk.new) }
    ensures noted { OnOk result (Finds (by_function function.now) walk.old walk.new) }
{
    let inner = walk.numbers.next_body();
    let index = walk.ends.len();
    walk.ends.push(inner)?;
    walk.numbers = inner;
    note_statements(walk, function.body.as_slice())?;
    put_end(&mut walk.ends, index, walk.numbers);
    Ok(())
}
