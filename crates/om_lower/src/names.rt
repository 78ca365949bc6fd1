//! What names mean in a body, by the slots of its variables.

ghost use Rattle.std.specs.Prelude.{◌≡◌, ◌≤◌, ◌<◌, IfOk, IfSome, length, map, nat_eq, position};
ghost use Rattle.om_lower.specs.Words.{AreInside, IsInside, names_with, scope_in, slot_among};

use om_code::raw::{Names, Scope};
use om_lower_rules::{VariableScope, Variables};
use om_seq::{AllocResult, Seq};
use std::alloc::Global;

/// What names mean in a body of a function of this name, with these scopes and variables, in a body with
/// those: by their slots. Its only error is out of memory.
pub(crate) fn names_with(
    alloc: Global,
    function: &[u8],
    named: Vec<VariableScope>,
    variables: &Variables,
    outer: &Variables,
) -> AllocResult<Names>
    requires named { AreInside 65536 named.items }
    requires few { length variables.now ≤ 256 }
    requires round { length outer.now ≤ 256 }
    ensures { IfOk result
        (λ names. names ≡ names_with function.now variables.now outer.now named.items) }
{
    let scopes = scopes_in(alloc, named, variables)?;
    let outer = slots_among(alloc, outer, variables)?;
    let function = function.to_vec(alloc)?;
    Ok(Names {
        function: Seq::of(function),
        scopes,
        outer,
    })
}

// Scopes, by the slots of a body with these variables.
fn scopes_in(
    alloc: Global,
    named: Vec<VariableScope>,
    variables: &Variables,
) -> AllocResult<Seq<Scope>>
    requires named { AreInside 65536 named.items }
    requires few { length variables.now ≤ 256 }
    ensures { IfOk result (λ scopes. scopes ≡ map (scope_in variables.now) named.items) }
{
    let mut scopes = Vec::new(alloc);
    for one in named {
        scopes.push(scope_in(variables, one))?;
    }
    Ok(Seq::of(scopes))
}

// A scope, by the slots of a body with these variables.
fn scope_in(variables: &Variables, named: VariableScope) -> Scope
    requires named { IsInside 65536 named }
    requires few { length variables.now ≤ 256 }
    ensures { result ≡ scope_in variables.now named }
{
    Scope {
        slot: slot_among(variables, named.variable),
        name: named.name,
        length: named.length,
        from: named.from as u32,
        to: named.to as u32,
    }
}

// For each of these variables its slot in the body round them, where that has it.
fn slots_among(
    alloc: Global,
    outer: &Variables,
    variables: &Variables,
) -> AllocResult<Seq<Option<u32>>>
    requires { length outer.now ≤ 256 }
    ensures { IfOk result (λ slots. slots ≡ map (slot_among outer.now) variables.now) }
{
    let mut slots = Vec::new(alloc);
    for variable in variables.as_slice() {
        slots.push(slot_among(outer, *variable))?;
    }
    Ok(Seq::of(slots))
}

// The slot of a variable, where these have it.
fn slot_among(variables: &Variables, variable: u32) -> Option<u32>
    requires { length variables.now ≤ 256 }
    ensures { result ≡ slot_among variables.now variable }
{
    let slot = index_among(variables.as_slice(), variable)?;
    Some(slot as u32)
}

// The index of a variable, where it is among these.
fn index_among(variables: &[u32], variable: u32) -> Option<usize>
    ensures index { result ≡ position (nat_eq variable) variables.now }
    ensures within { IfSome result (λ index. index < length variables.now) }
{
    variables.iter().position(|other| variable == *other)
}
