//! Where the rules of names of the library apply.

ghost use Rattle.std.specs.Prelude.{◌≡◌};
ghost use Rattle.lab_port_rules.specs.Libraries.{changed_if, changed_by, ends_statement, begins_after, begins_statement, whole_statement, name_of_statement, is_text, print_rule, print_mark, puts_text, puts_mark, lacking_call, exit_mark, library_mark};

use crate::mark::Mark;
use crate::rule::Rule;
use lab_port_context::{
    Call, Context, call_size, is_close, is_comma, is_open, nth_class, size_to, statement_size,
};
use lab_port_words::{Class, Lack, Library, Sign, Word};

/// The mark of a name of the library.
pub(crate) fn library_mark(name: Library, context: Context, rest: &[Class]) -> Mark
    ensures { result ≡ library_mark name context rest.now }
{
    match name {
        Library::Abort => Mark::Kept,
        Library::Assert => Mark::Kept,
        Library::Exit => exit_mark(context, rest),
        Library::Setting => whole_statement(context, Call::Pure, rest, Rule::Routine),
        Library::Wait => whole_statement(context, Call::Pure, rest, Rule::Wait),
        Library::Zero => changed_by(call_size(Call::Pure, rest), Rule::Zero),
        Library::InParallel => changed_by(call_size(Call::Pure, rest), Rule::InParallel),
        Library::PrintTo => print_mark(rest),
        Library::ErrorStream => Mark::Kept,
        Library::OutputStream => Mark::Kept,
        Library::Puts => puts_mark(context, rest),
        Library::One => Mark::Changed(Rule::One, 0),
        Library::Nought => Mark::Changed(Rule::Nought, 0),
        Library::Largest => Mark::Changed(Rule::Largest, 0),
        Library::Least => Mark::Changed(Rule::Least, 0),
        Library::NoDebug => Mark::Kept,
        Library::BroughtIn => Mark::Kept,
        Library::Lacking(lack) => lacking_call(lack, rest),
    }
}

/// The rule applies where this holds, and takes no further piece.
pub(crate) fn changed_if(applies: bool, rule: Rule) -> Mark
    ensures { result ≡ changed_if applies rule }
{
    if applies {
        Mark::Changed(rule, 0)
    } else {
        Mark::Kept
    }
}

/// The rule applies where this size is found, and takes so many further pieces.
pub fn changed_by(size: Option<usize>, rule: Rule) -> Mark
    ensures { result ≡ changed_by size rule }
{
    match size {
        Some(size) => Mark::Changed(rule, size),
        None => Mark::Kept,
    }
}

/// Whether a statement or a declaration may begin there.
pub fn begins_statement(context: Context) -> bool
    ensures { result ≡ begins_statement context }
{
    context.parens == 0 && begins_after(context.last)
}

fn begins_after(class: Class) -> bool
    ensures { result ≡ begins_after class }
{
    match class {
        Class::LineEnd => true,
        Class::Sign(sign) => ends_statement(sign),
        Class::Word(Word::Branch) => true,
        _ => false,
    }
}

fn ends_statement(sign: Sign) -> bool
    ensures { result ≡ ends_statement sign }
{
    match sign {
        Sign::Semicolon | Sign::OpenBrace | Sign::CloseBrace | Sign::Close | Sign::Colon => true,
        _ => false,
    }
}

// A call that is a statement: its list goes with its name.
fn whole_statement(context: Context, call: Call, rest: &[Class], rule: Rule) -> Mark
    ensures { result ≡ whole_statement context call rest.now rule }
{
    if !begins_statement(context) {
        return Mark::Kept;
    }
    changed_by(statement_size(call, rest), rule)
}

// A call that is a statement: its name alone is replaced.
fn name_of_statement(context: Context, rest: &[Class], rule: Rule) -> Mark
    ensures { result ≡ name_of_statement context rest.now rule }
{
    let applies = begins_statement(context) && statement_size(Call::Any, rest).is_some();
    changed_if(applies, rule)
}

fn is_text(class: Class) -> bool
    ensures { result ≡ is_text class }
{
    match class {
        Class::Text(_) => true,
        _ => false,
    }
}

// The rule of an `fprintf`, by its stream.
fn print_rule(stream: Class) -> Option<Rule>
    ensures { result ≡ print_rule stream }
{
    match stream {
        Class::Library(Library::ErrorStream) => Some(Rule::PrintError),
        Class::Library(Library::OutputStream) => Some(Rule::PrintOut),
        _ => None,
    }
}

// An `fprintf`.
fn print_mark(rest: &[Class]) -> Mark
    ensures { result ≡ print_mark rest.now }
{
    if !(is_open(nth_class(0, rest)) && is_comma(nth_class(2, rest))) {
        return Mark::Kept;
    }
    match print_rule(nth_class(1, rest)) {
        Some(rule) => Mark::Changed(rule, size_to(2, rest)),
        None => Mark::Kept,
    }
}

// Whether one text in parentheses follows.
fn puts_text(rest: &[Class]) -> bool
    ensures { result ≡ puts_text rest.now }
{
    is_open(nth_class(0, rest)) && is_text(nth_class(1, rest)) && is_close(nth_class(2, rest))
}

// A `puts`.
fn puts_mark(context: Context, rest: &[Class]) -> Mark
    ensures { result ≡ puts_mark context rest.now }
{
    if !puts_text(rest) {
        return Mark::Kept;
    }
    whole_statement(context, Call::Pure, rest, Rule::Puts)
}

// A call of a function that has no form.
fn lacking_call(lack: Lack, rest: &[Class]) -> Mark
    ensures { result ≡ lacking_call lack rest.now }
{
    if is_open(nth_class(0, rest)) {
        Mark::Lacking(lack)
    } else {
        Mark::Kept
    }
}

// An `exit`.
fn exit_mark(context: Context, rest: &[Class]) -> Mark
    ensures { result ≡ exit_mark context rest.now }
{
    if !context.in_main {
        return lacking_call(Lack::Exit, rest);
    }
    name_of_statement(context, rest, Rule::Exit)
}
