//! Where a declaration names what it declares (C17 6.7).

ghost use Rattle.std.specs.Prelude.{◌≡◌};
ghost use Rattle.lab_port_arrays.specs.Declarations.{is_name, is_specifier, is_equal, is_open_brace, nested_behind, outside, among_names, in_value, behind_value, behind_name, behind_token, declared_behind, is_declarator};

use lab_port_context::{Context, deeper, is_code, is_comma, is_semicolon};
use lab_port_rules::begins_statement;
use lab_port_words::{Class, Sign, Word, is_gap};

/// What stands before a piece, as declarations go.
#[derive(Clone, Copy)]
pub struct Declared {
    /// Whether it is a part of a declaration.
    pub declares: bool,
    /// Whether it is a part of a value that is given to a name.
    pub gives: bool,
    /// How many brackets are open in that value.
    pub depth: usize,
}

/// Whether a declaration names there what it declares.
pub(crate) fn is_declarator(declared: Declared, context: Context, class: Class) -> bool
    ensures { result ≡ is_declarator declared context class }
{
    (declared.declares && !declared.gives) && (context.parens == 0 && is_name(class))
}

/// Before a source.
pub(crate) fn outside() -> Declared
    ensures { result ≡ outside }
{
    Declared {
        declares: false,
        gives: false,
        depth: 0,
    }
}

/// Behind a piece, before which this stands.
pub(crate) fn declared_behind(declared: Declared, context: Context, class: Class) -> Declared
    ensures { result ≡ declared_behind declared context class }
{
    if is_gap(class) || !is_code(context.line) {
        declared
    } else {
        behind_token(declared, context, class)
    }
}

fn behind_token(declared: Declared, context: Context, class: Class) -> Declared
    ensures { result ≡ behind_token declared context class }
{
    if is_semicolon(class) {
        return outside();
    }
    if declared.gives {
        return behind_value(declared, class);
    }
    if begins_statement(context) && is_specifier(class) {
        return among_names();
    }
    if declared.declares {
        behind_name(declared, class)
    } else {
        declared
    }
}

fn behind_value(declared: Declared, class: Class) -> Declared
    ensures { result ≡ behind_value declared class }
{
    if declared.depth == 0 && is_comma(class) {
        among_names()
    } else {
        in_value(nested_behind(declared.depth, class))
    }
}

fn behind_name(declared: Declared, class: Class) -> Declared
    ensures { result ≡ behind_name declared class }
{
    if is_equal(class) {
        return in_value(0);
    }
    if is_open_brace(class) {
        outside()
    } else {
        declared
    }
}

fn among_names() -> Declared
    ensures { result ≡ among_names }
{
    Declared {
        declares: true,
        gives: false,
        depth: 0,
    }
}

// In the value that is given to a name, where so many brackets are open.
fn in_value(depth: usize) -> Declared
    ensures { result ≡ in_value depth }
{
    Declared {
        declares: true,
        gives: true,
        depth,
    }
}

// How many brackets of any kind are open behind a token.
fn nested_behind(depth: usize, class: Class) -> usize
    ensures { result ≡ nested_behind depth class }
{
    match class {
        Class::Sign(Sign::Open | Sign::OpenBracket | Sign::OpenBrace) => deeper(depth),
        Class::Sign(Sign::Close | Sign::CloseBracket | Sign::CloseBrace) => depth.saturating_sub(1),
        _ => depth,
    }
}

/// Whether it is a name of the program.
pub(crate) fn is_name(class: Class) -> bool
    ensures { result ≡ is_name class }
{
    match class {
        Class::Word(Word::Other) => true,
        _ => false,
    }
}

// Whether a declaration begins with it.
fn is_specifier(class: Class) -> bool
    ensures { result ≡ is_specifier class }
{
    match class {
        Class::Type(_) | Class::Storage(_) => true,
        _ => false,
    }
}

fn is_equal(class: Class) -> bool
    ensures { result ≡ is_equal class }
{
    match class {
        Class::Sign(Sign::Changes) => true,
        _ => false,
    }
}

fn is_open_brace(class: Class) -> bool
    ensures { result ≡ is_open_brace class }
{
    match class {
        Class::Sign(Sign::OpenBrace) => true,
        _ => false,
    }
}
