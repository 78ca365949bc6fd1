//! Where the rules of `#` lines apply.

ghost use Rattle.std.specs.Prelude.{◌≡◌, ◌≤◌, length, IfSome};
ghost use Rattle.lab_port_rules.specs.Directives.{is_greater, is_less, is_include, is_header, header_size, includes_header, defines_abort, defines_assert, include_rule, include_mark, is_schedule, is_reduction, is_kind, is_operator, with_comma, clause_by, dropped_clause, is_one, collapses_one, collapse_mark, clause_mark, directive_mark};

use crate::code::lacking_if;
use crate::library::{changed_by, changed_if};
use crate::mark::Mark;
use crate::rule::Rule;
use lab_port_context::{
    Call, Context, Facts, call_size, is_assert, is_close, is_comma, is_open, is_stdlib, nth_class,
    size_to,
};
use lab_port_words::{Class, Clause, Form, Hash, Lack, Sign, Storage};

/// The mark of a `#` that begins a line.
pub(crate) fn include_mark(facts: Facts, context: Context, rest: &[Class]) -> Mark
    ensures { result ≡ include_mark facts context rest.now }
{
    if !includes_header(rest) || facts.has_conditions {
        return Mark::Kept;
    }
    changed_by(header_size(rest), include_rule(facts, context, rest))
}

// The rule of an include.
fn include_rule(facts: Facts, context: Context, rest: &[Class]) -> Rule
    ensures { result ≡ include_rule facts context rest.now }
{
    if defines_abort(facts, context, rest) {
        return Rule::DefineAbort;
    }
    if defines_assert(facts, rest) {
        return Rule::DefineAssert;
    }
    Rule::Include
}

// Whether it is the first header that declares `abort`, where the program calls that of the library.
fn defines_abort(facts: Facts, context: Context, rest: &[Class]) -> bool
    ensures { result ≡ defines_abort facts context rest.now }
{
    is_stdlib(nth_class(2, rest)) && facts.uses_abort && !(facts.has_own || context.declared)
}

// Whether it is the header of `assert`, where the program calls that of the library.
fn defines_assert(facts: Facts, rest: &[Class]) -> bool
    ensures { result ≡ defines_assert facts rest.now }
{
    is_assert(nth_class(2, rest)) && facts.uses_assert && !facts.has_own
}

// Whether an include of a header follows that the subset has not.
fn includes_header(rest: &[Class]) -> bool
    ensures { result ≡ includes_header rest.now }
{
    is_include(nth_class(0, rest)) && is_less(nth_class(1, rest)) && !is_header(nth_class(2, rest))
}

// How many pieces there are up to the `>` and with it.
fn header_size(rest: &[Class]) -> Option<usize>
    ensures { result ≡ header_size 0 rest.now }
{
    for (i, class) in rest.iter().enumerate() {
        if is_greater(*class) {
            return Some(i + 1);
        }
    }
    None
}

fn is_greater(class: Class) -> bool
    ensures { result ≡ is_greater class }
{
    match class {
        Class::Sign(Sign::Greater) => true,
        _ => false,
    }
}

fn is_less(class: Class) -> bool
    ensures { result ≡ is_less class }
{
    match class {
        Class::Sign(Sign::Less) => true,
        _ => false,
    }
}

fn is_include(class: Class) -> bool
    ensures { result ≡ is_include class }
{
    match class {
        Class::Hash(Hash::Include) => true,
        _ => false,
    }
}

// Whether it is the name of a header that the subset has.
fn is_header(class: Class) -> bool
    ensures { result ≡ is_header class }
{
    match class {
        Class::Hash(Hash::Stdio) => true,
        Class::Hash(Hash::Omp) => true,
        _ => false,
    }
}

/// The mark of a token of a directive line.
pub(crate) fn directive_mark(context: Context, class: Class, rest: &[Class]) -> Mark
    ensures { result ≡ directive_mark context class rest.now }
{
    match class {
        Class::Clause(word) => clause_mark(word, context, rest),
        Class::Storage(Storage::Auto) => changed_if(is_kind(context), Rule::Static),
        Class::Sign(Sign::Minus) => changed_if(is_operator(context), Rule::Plus),
        _ => Mark::Kept,
    }
}

// The mark of a word of a directive.
fn clause_mark(word: Clause, context: Context, rest: &[Class]) -> Mark
    ensures { result ≡ clause_mark word context rest.now }
{
    match word {
        Clause::Schedule => Mark::Kept,
        Clause::Guided => changed_if(is_kind(context), Rule::Dynamic),
        Clause::Runtime => changed_if(is_kind(context), Rule::Static),
        Clause::Bare => dropped_clause(context, Some(0), rest),
        Clause::Called => dropped_clause(context, call_size(Call::Pure, rest), rest),
        Clause::Collapse => collapse_mark(context, rest),
        Clause::Reduction => Mark::Kept,
        Clause::Lacking => lacking_if(context.parens == 0, Lack::Directive),
    }
}

fn is_schedule(class: Class) -> bool
    ensures { result ≡ is_schedule class }
{
    match class {
        Class::Clause(Clause::Schedule) => true,
        _ => false,
    }
}

fn is_reduction(class: Class) -> bool
    ensures { result ≡ is_reduction class }
{
    match class {
        Class::Clause(Clause::Reduction) => true,
        _ => false,
    }
}

// Whether it is the first word in the parentheses of `schedule`.
fn is_kind(context: Context) -> bool
    ensures { result ≡ is_kind context }
{
    is_schedule(context.before) && is_open(context.last)
}

// Whether it is the first token in the parentheses of `reduction`.
fn is_operator(context: Context) -> bool
    ensures { result ≡ is_operator context }
{
    is_reduction(context.before) && is_open(context.last)
}

// A clause of this size goes with the comma after it.
fn with_comma(size: usize, rest: &[Class]) -> usize
    requires { size ≤ length rest.now }
    ensures { result ≡ with_comma size rest.now }
{
    let behind = &rest[size..];
    if is_comma(nth_class(0, behind)) {
        size + size_to(0, behind)
    } else {
        size
    }
}

// A clause that is left out.
fn dropped_clause(context: Context, size: Option<usize>, rest: &[Class]) -> Mark
    requires { IfSome size (λ size. size ≤ length rest.now) }
    ensures { result ≡ dropped_clause context size rest.now }
{
    if context.parens != 0 {
        return Mark::Kept;
    }
    match size {
        Some(size) => clause_of(context, size, rest),
        None => Mark::Kept,
    }
}

// A clause of this size that is left out, unless a comma would end the line.
fn clause_of(context: Context, size: usize, rest: &[Class]) -> Mark
    requires { size ≤ length rest.now }
    ensures { result ≡ clause_by context (Some size) rest.now }
{
    if is_comma(context.last) && !is_comma(nth_class(0, &rest[size..])) {
        return Mark::Kept;
    }
    Mark::Changed(Rule::DropClause, with_comma(size, rest))
}

fn is_one(class: Class) -> bool
    ensures { result ≡ is_one class }
{
    match class {
        Class::Number(Form::One) => true,
        _ => false,
    }
}

// Whether `(1)` follows.
fn collapses_one(rest: &[Class]) -> bool
    ensures { result ≡ collapses_one rest.now }
{
    is_open(nth_class(0, rest)) && is_one(nth_class(1, rest)) && is_close(nth_class(2, rest))
}

// A `collapse`.
fn collapse_mark(context: Context, rest: &[Class]) -> Mark
    ensures { result ≡ collapse_mark context rest.now }
{
    if !collapses_one(rest) {
        return Mark::Kept;
    }
    dropped_clause(context, Some(size_to(2, rest)), rest)
}
