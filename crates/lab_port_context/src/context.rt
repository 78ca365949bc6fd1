//! What stands before a piece.

ghost use Rattle.std.specs.Prelude.{◌≡◌, ◌-◌};
ghost use Rattle.lab_port_context.specs.Contexts.{line_behind_hash, line_behind_pragma, line_behind_first, line_behind, is_code, deeper, braces_behind, parens_behind, is_whole_type, is_floating_type, is_main, ends_external, is_abort, is_stdlib, main_behind, behind_code, behind_hash, behind_line, behind_token, context_behind, at_first};

use lab_port_words::{Class, Hash, Library, Sign, TypeWord, Word, is_word};

/// What a line is so far.
#[derive(Clone, Copy)]
pub enum Line {
    /// Only white space.
    Fresh,
    /// Tokens of C.
    Code,
    /// A `#`.
    Hash,
    /// An include.
    Include,
    /// A define.
    Define,
    /// A pragma whose next word says of what.
    Pragma,
    /// A directive of OpenMP.
    Omp,
    /// Another pragma.
    Ignored,
    /// Another `#` line.
    Other,
}

/// What stands before a piece.
#[derive(Clone, Copy)]
pub struct Context {
    /// What its line is so far.
    pub line: Line,
    /// How many braces are open.
    pub braces: usize,
    /// How many parentheses are open.
    pub parens: usize,
    /// The last token, or `LineEnd` after a `#` line and at the beginning.
    pub last: Class,
    /// The token before the last.
    pub before: Class,
    /// Whether a word of a type of whole numbers stands among the words directly before.
    pub typed: bool,
    /// Whether a word of a floating type stands among them.
    pub floating: bool,
    /// Whether it is in the function `main`.
    pub in_main: bool,
    /// Whether a header or a prototype before declares `abort`.
    pub declared: bool,
}

/// The context at the beginning of a source.
pub fn at_first() -> Context
    ensures { result ≡ at_first }
{
    Context {
        line: Line::Fresh,
        braces: 0,
        parens: 0,
        last: Class::LineEnd,
        before: Class::LineEnd,
        typed: false,
        floating: false,
        in_main: false,
        declared: false,
    }
}

/// The context after a piece.
pub fn context_behind(context: Context, class: Class) -> Context
    ensures { result ≡ context_behind context class }
{
    match class {
        Class::Gap | Class::Join => context,
        Class::LineEnd => behind_line(context),
        _ => behind_token(context, class),
    }
}

// Behind the end of a line.
fn behind_line(context: Context) -> Context
    ensures { result ≡ behind_line context }
{
    if is_code(context.line) {
        return Context {
            line: Line::Fresh,
            ..context
        };
    }
    Context {
        braces: context.braces,
        in_main: context.in_main,
        declared: context.declared,
        ..at_first()
    }
}

// Behind a token.
fn behind_token(context: Context, class: Class) -> Context
    ensures { result ≡ behind_token context class }
{
    match line_behind(context.line, class) {
        Line::Code => behind_code(context, class),
        line => behind_hash(context, class, line),
    }
}

// Behind a token of code.
fn behind_code(context: Context, class: Class) -> Context
    ensures { result ≡ behind_code context class }
{
    Context {
        line: Line::Code,
        braces: braces_behind(context.braces, class),
        parens: parens_behind(context.parens, class),
        last: class,
        before: context.last,
        typed: is_word(class) && (context.typed || is_whole_type(class)),
        floating: is_word(class) && (context.floating || is_floating_type(class)),
        in_main: main_behind(context, class),
        declared: context.declared || (is_abort(class) && context.braces == 0),
    }
}

// Behind a token of a `#` line, which is this then.
fn behind_hash(context: Context, class: Class, line: Line) -> Context
    ensures { result ≡ behind_hash context class line }
{
    Context {
        line,
        braces: context.braces,
        parens: parens_behind(context.parens, class),
        last: class,
        before: context.last,
        typed: false,
        floating: false,
        in_main: context.in_main,
        declared: context.declared || is_stdlib(class),
    }
}

// What a line is after a token.
fn line_behind(line: Line, class: Class) -> Line
    ensures { result ≡ line_behind line class }
{
    match line {
        Line::Fresh => line_behind_first(class),
        Line::Hash => line_behind_hash(class),
        Line::Pragma => line_behind_pragma(class),
        _ => line,
    }
}

fn line_behind_first(class: Class) -> Line
    ensures { result ≡ line_behind_first class }
{
    match class {
        Class::Sign(Sign::Hash) => Line::Hash,
        _ => Line::Code,
    }
}

fn line_behind_hash(class: Class) -> Line
    ensures { result ≡ line_behind_hash class }
{
    match class {
        Class::Hash(Hash::Include) => Line::Include,
        Class::Hash(Hash::Define) => Line::Define,
        Class::Hash(Hash::Pragma) => Line::Pragma,
        _ => Line::Other,
    }
}

fn line_behind_pragma(class: Class) -> Line
    ensures { result ≡ line_behind_pragma class }
{
    match class {
        Class::Hash(Hash::Omp) => Line::Omp,
        _ => Line::Ignored,
    }
}

/// Whether the tokens of a line are tokens of C, and of no `#` line.
pub fn is_code(line: Line) -> bool
    ensures { result ≡ is_code line }
{
    match line {
        Line::Fresh | Line::Code => true,
        _ => false,
    }
}

/// One bracket more; more than 1,000,000 are not counted.
pub fn deeper(depth: usize) -> usize
    ensures { result ≡ deeper depth }
{
    if depth < 1_000_000 { depth + 1 } else { depth }
}

// One bracket fewer.
fn shallower(depth: usize) -> usize
    ensures { result ≡ depth - 1 }
{
    if depth > 0 { depth - 1 } else { 0 }
}

fn braces_behind(depth: usize, class: Class) -> usize
    ensures { result ≡ braces_behind depth class }
{
    match class {
        Class::Sign(Sign::OpenBrace) => deeper(depth),
        Class::Sign(Sign::CloseBrace) => shallower(depth),
        _ => depth,
    }
}

fn parens_behind(depth: usize, class: Class) -> usize
    ensures { result ≡ parens_behind depth class }
{
    match class {
        Class::Sign(Sign::Open) => deeper(depth),
        Class::Sign(Sign::Close) => shallower(depth),
        _ => depth,
    }
}

/// Whether it is a word of a type of whole numbers.
pub fn is_whole_type(class: Class) -> bool
    ensures { result ≡ is_whole_type class }
{
    match class {
        Class::Type(TypeWord::Void) => false,
        Class::Type(TypeWord::Floating) => false,
        Class::Type(_) => true,
        _ => false,
    }
}

/// Whether it is a word of a floating type.
pub fn is_floating_type(class: Class) -> bool
    ensures { result ≡ is_floating_type class }
{
    match class {
        Class::Type(TypeWord::Floating) => true,
        _ => false,
    }
}

/// Whether it is the name `main`.
pub fn is_main(class: Class) -> bool
    ensures { result ≡ is_main class }
{
    match class {
        Class::Word(Word::Main) => true,
        _ => false,
    }
}

/// Whether it is the name `abort`.
pub fn is_abort(class: Class) -> bool
    ensures { result ≡ is_abort class }
{
    match class {
        Class::Library(Library::Abort) => true,
        _ => false,
    }
}

/// Whether it is the name of the header that declares `abort`.
pub fn is_stdlib(class: Class) -> bool
    ensures { result ≡ is_stdlib class }
{
    match class {
        Class::Hash(Hash::Stdlib) => true,
        _ => false,
    }
}

// Whether what stands at file scope ends with this.
fn ends_external(class: Class) -> bool
    ensures { result ≡ ends_external class }
{
    match class {
        Class::Sign(Sign::Semicolon) => true,
        Class::Sign(Sign::CloseBrace) => true,
        _ => false,
    }
}

// Whether what follows is in `main`.
fn main_behind(context: Context, class: Class) -> bool
    ensures { result ≡ main_behind context class }
{
    if braces_behind(context.braces, class) != 0 {
        return context.in_main;
    }
    is_main(class) || (context.in_main && !ends_external(class))
}
