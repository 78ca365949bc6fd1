//! What the whole source has.

ghost use Rattle.std.specs.Prelude.{◌≡◌, ◌≤◌, length, take};
ghost use Rattle.lab_port_context.specs.Facts.{in_sight, is_of_macros, is_type, is_declared, may_be_head, is_own_declaration, is_own_name, is_brought_in, is_own_at, uses_argument_at, is_assert, is_in_body, is_condition, facts_with, no_facts, facts_of};

use crate::ahead::{Call, is_library, is_open, is_star, nth_class, statement_size};
use crate::context::{Context, Line, at_first, context_behind, is_abort, is_code};
use lab_port_words::{Class, Library, Word};

/// What the whole source has.
#[derive(Clone, Copy)]
pub struct Facts {
    /// Whether the program has some name of the library, or one that a rule brings in, itself.
    pub has_own: bool,
    /// Whether the program uses what `main` is given.
    pub uses_arguments: bool,
    /// Whether the body of a function names `abort`.
    pub uses_abort: bool,
    /// Whether the body of a function names `assert`.
    pub uses_assert: bool,
    /// Whether a `#` line stands in the source that is no include, define or pragma.
    pub has_conditions: bool,
}

/// The facts of a source, by the classes of its pieces.
pub fn facts_of(all: &[Class]) -> Facts
    ensures { result ≡ facts_of all.now }
{
    let mut facts = no_facts();
    let mut context = at_first();
    for (i, class) in all.iter().enumerate() {
        facts = facts_with(facts, context, *class, &all[i + 1..]);
        context = context_behind(context, *class);
    }
    facts
}

fn no_facts() -> Facts
    ensures { result ≡ no_facts }
{
    Facts {
        has_own: false,
        uses_arguments: false,
        uses_abort: false,
        uses_assert: false,
        has_conditions: false,
    }
}

// The facts with a further piece.
fn facts_with(facts: Facts, context: Context, class: Class, rest: &[Class]) -> Facts
    ensures { result ≡ facts_with facts context class rest.now }
{
    let in_body = is_in_body(context);
    Facts {
        has_own: facts.has_own || is_own_at(context, class, in_sight(rest)),
        uses_arguments: facts.uses_arguments || uses_argument_at(context, class),
        uses_abort: facts.uses_abort || (is_abort(class) && in_body),
        uses_assert: facts.uses_assert || (is_assert(class) && in_body),
        has_conditions: facts.has_conditions || is_condition(context.line),
    }
}

/// Whether it is a `#` line that is no include, define or pragma, as a condition.
pub fn is_condition(line: Line) -> bool
    ensures { result ≡ is_condition line }
{
    match line {
        Line::Other => true,
        _ => false,
    }
}

/// The pieces that a rule looks at: 1,024 after its first one.
pub fn in_sight(rest: &[Class]) -> &[Class]
    ensures pieces { result.now ≡ in_sight rest.now }
    ensures inside { length result.now ≤ length rest.now }
{
    first_pieces(1024, rest)
}

// The first so many pieces, or all where there are fewer.
fn first_pieces(count: usize, rest: &[Class]) -> &[Class]
    ensures pieces { result.now ≡ take count rest.now }
    ensures inside { length result.now ≤ length rest.now }
{
    if count < rest.len() {
        &rest[..count]
    } else {
        rest
    }
}

fn is_of_macros(line: Line) -> bool
    ensures { result ≡ is_of_macros line }
{
    match line {
        Line::Define => true,
        Line::Other => true,
        _ => false,
    }
}

/// Whether it is a word of a type.
pub fn is_type(class: Class) -> bool
    ensures { result ≡ is_type class }
{
    match class {
        Class::Type(_) => true,
        _ => false,
    }
}

// Whether a name is declared there: after a word of a type, or after a star behind one.
fn is_declared(context: Context) -> bool
    ensures { result ≡ is_declared context }
{
    is_type(context.last) || (is_star(context.last) && is_type(context.before))
}

// Whether the head of a function stands there, if no `;` follows.
fn may_be_head(context: Context, rest: &[Class]) -> bool
    ensures { result ≡ may_be_head context rest.now }
{
    context.braces == 0 && is_open(nth_class(0, rest))
}

// Whether a name of the library here is declared by the program, and by no prototype.
fn is_own_declaration(context: Context, rest: &[Class]) -> bool
    ensures { result ≡ is_own_declaration context rest.now }
{
    let declared = is_declared(context) || may_be_head(context, rest);
    declared && statement_size(Call::Any, rest).is_none()
}

// Whether a name of the library here is one of the program's own.
fn is_own_name(context: Context, rest: &[Class]) -> bool
    ensures { result ≡ is_own_name context rest.now }
{
    if is_of_macros(context.line) {
        return true;
    }
    is_code(context.line) && is_own_declaration(context, rest)
}

fn is_own_at(context: Context, class: Class, rest: &[Class]) -> bool
    ensures { result ≡ is_own_at context class rest.now }
{
    is_brought_in(class) || (is_library(class) && is_own_name(context, rest))
}

// Whether it is a name that a rule brings in.
fn is_brought_in(class: Class) -> bool
    ensures { result ≡ is_brought_in class }
{
    match class {
        Class::Library(Library::BroughtIn) => true,
        _ => false,
    }
}

/// Whether it is the name `assert`.
pub fn is_assert(class: Class) -> bool
    ensures { result ≡ is_assert class }
{
    match class {
        Class::Library(Library::Assert) => true,
        _ => false,
    }
}

// Whether it is in the body of a function.
fn is_in_body(context: Context) -> bool
    ensures { result ≡ is_in_body context }
{
    context.braces > 0 && is_code(context.line)
}

// Whether it uses what `main` is given.
fn uses_argument_at(context: Context, class: Class) -> bool
    ensures { result ≡ uses_argument_at context class }
{
    match class {
        Class::Word(Word::Argument) => context.braces > 0 || !is_code(context.line),
        _ => false,
    }
}
