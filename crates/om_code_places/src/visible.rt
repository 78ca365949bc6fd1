//! What a program still knows of its source: lines, and which variable a name means.

ghost use Rattle.std.specs.Prelude.{◌≡◌, ◌≤◌, ◌<◌, ◌^◌, IfSome, Some, length, position};
ghost use Rattle.std.specs.Str.{bytes_eq};
ghost use Rattle.om_code.specs.Places.{line_at};
ghost use Rattle.om_code_places.specs.Visible.{around_below, as_inner, global_named, global_var, holds, innermost, is_slot, meant, slot_var, start_in, starts, starts_body, variable_at};

use om_code::raw::{GlobalVariable, Line, Scope};
use om_code::{Body, Instr, Program, Task, Team};

/// A variable that a name means.
#[derive(Clone, Copy, PartialEq, Eq)]
pub enum Var {
    /// The global variable of this number.
    Global(u32),
    /// The variable in this slot of the body, and how many elements it has where it is an array.
    Slot { slot: u32, length: Option<u32> },
}

/// A variable of a function, by its slot in a body that has it in scope.
#[derive(Clone, Copy)]
pub(crate) struct Local {
    pub(crate) slot: Option<u32>,
    pub(crate) length: Option<u32>,
}

/// An instruction of a program, by its body and its place there.
#[derive(Clone, Copy)]
pub(crate) struct Around {
    pub(crate) body: u32,
    pub(crate) at: u32,
}

/// The source line of the instruction at a place of a body, counted from 1: that of the first token of its
/// statement, and for the end of a function that of its closing brace. 0 where there is no such body
/// or place.
pub fn line_of(program: &Program, body: u32, at: u32) -> u32
    ensures { result ≡ line_at program.now body at }
{
    program.line(body, at)
}

/// The number of the first global variable of this name; `None` exactly where there is none.
pub fn global_named(program: &Program, name: &[u8]) -> Option<u32>
    ensures { result ≡ global_named program.now name.now }
{
    let number = index_of(program.globals(), name)?;
    Some(number as u32)
}

// The index of the first global variable of this name.
fn index_of(globals: &[GlobalVariable], name: &[u8]) -> Option<usize>
    ensures index { result ≡ position (λ global. bytes_eq global.name name.now) globals.now }
    ensures within { IfSome result (λ index. index < length globals.now) }
{
    globals.iter().position(|global| is_named(global, name))
}

// Whether a global variable has this name.
fn is_named(global: &GlobalVariable, name: &[u8]) -> bool
    ensures { result ≡ bytes_eq global.now.name name.now }
{
    global.name.as_slice() == name
}

/// The variable that a name means at an instruction (C17 6.2.1p4): the innermost one of that name that
/// is in scope there, else the global variable of that name. It takes no memory.
///
/// `None` where there is no such variable, and where the innermost one has no slot in the body: a
/// region has none for a variable from outside that no part of it uses.
pub fn variable_at(program: &Program, body: u32, at: u32, name: &[u8]) -> Option<Var>
    ensures { result ≡ variable_at program.now body at name.now }
{
    meant(program, body as usize + 1, Around { body, at }, name)
}

// What a name means at an instruction of a body, or else of the body round it, and so on, so many
// times.
fn meant(program: &Program, steps: usize, here: Around, name: &[u8]) -> Option<Var>
    ensures { result ≡ meant steps program.now here.body here.at name.now }
{
    let left = steps.checked_sub(1)?;
    if (here.body as usize) >= program.bodies().len() {
        return global_var(program, name);
    }
    let names = &program.body(here.body).names;
    if let Some(local) = innermost(here.at, name, names.scopes.as_slice()) {
        return slot_var(local.length, local.slot);
    }
    let Some(around) = around_below(program, here.body) else {
        return global_var(program, name);
    };
    as_inner(names.outer.as_slice(), meant(program, left, around, name))
}

// The global variable of a name.
fn global_var(program: &Program, name: &[u8]) -> Option<Var>
    ensures { result ≡ global_var (global_named program.now name.now) }
{
    let number = global_named(program, name)?;
    Some(Var::Global(number))
}

// The variable of a slot, where there is one.
fn slot_var(length: Option<u32>, slot: Option<u32>) -> Option<Var>
    ensures { result ≡ slot_var length slot }
{
    let slot = slot?;
    Some(Var::Slot { slot, length })
}

// The variable of the innermost scope of this name that holds an instruction; it stands first.
fn innermost(at: u32, name: &[u8], scopes: &[Scope]) -> Option<Local>
    ensures { result ≡ innermost at name.now scopes.now }
{
    for scope in scopes {
        if holds(at, name, scope) {
            return Some(Local {
                slot: scope.slot,
                length: scope.length,
            });
        }
    }
    None
}

// Whether a scope holds an instruction, and is one of this name.
fn holds(at: u32, name: &[u8], scope: &Scope) -> bool
    ensures { result ≡ holds at name.now scope.now }
{
    scope.from <= at && (at < scope.to && name == scope.name.as_slice())
}

// Where the directive of a body stands: at the instruction that starts the body, in a body of a
// lower number.
fn around_below(program: &Program, number: u32) -> Option<Around>
    requires { number ≤ length program.now.bodies }
    ensures around { result ≡ around_below program.now.bodies number number }
    ensures within { IfSome result (λ around. around.body < number) }
{
    let mut below = number;
    while below > 0 {
        below -= 1;
        if let Some(at) = start_in(program.body(below), number) {
            return Some(Around { body: below, at });
        }
    }
    None
}

// The place of the first instruction of a body that starts the body of this number.
fn start_in(body: &Body, number: u32) -> Option<u32>
    requires { length body.now.code < 2 ^ 32 }
    ensures { result ≡ start_in number (Some body.now) }
{
    let at = index_of_start(body.code.as_slice(), number)?;
    Some(at as u32)
}

// The index of the first line that starts the body of this number.
fn index_of_start(code: &[Line], number: u32) -> Option<usize>
    ensures index { result ≡ position (starts number) code.now }
    ensures within { IfSome result (λ index. index < length code.now) }
{
    code.iter()
        .position(|line| starts_body(number, line.instruction))
}

// Whether an instruction starts the body of this number.
fn starts_body(number: u32, instruction: Instr) -> bool
    ensures { result ≡ starts_body number instruction }
{
    matches!(instruction, Instr::Team(Team::Fork { body, .. }) | Instr::Task(Task::Spawn { body, .. }) if body == number)
}

// A variable of the body round a body, as this body has it.
fn as_inner(outer: &[Option<u32>], variable: Option<Var>) -> Option<Var>
    requires { length outer.now ≤ 2 ^ 32 }
    ensures { result ≡ as_inner outer.now variable }
{
    match variable? {
        Var::Global(number) => Some(Var::Global(number)),
        Var::Slot { slot, length } => slot_var(length, inner_slot(outer, slot)),
    }
}

// The slot of a variable that is in this slot of the body round it.
fn inner_slot(outer: &[Option<u32>], slot: u32) -> Option<u32>
    requires { length outer.now ≤ 2 ^ 32 }
    ensures { result ≡ position (is_slot slot) outer.now }
{
    let index = index_of_slot(outer, slot)?;
    Some(index as u32)
}

// The index of this slot of the body round a body.
fn index_of_slot(outer: &[Option<u32>], slot: u32) -> Option<usize>
    ensures index { result ≡ position (is_slot slot) outer.now }
    ensures within { IfSome result (λ index. index < length outer.now) }
{
    outer.iter().position(|other| is_slot(slot, *other))
}

// Whether the slot of the body round a body is this one.
fn is_slot(slot: u32, other: Option<u32>) -> bool
    ensures { result ≡ is_slot slot other }
{
    other == Some(slot)
}
