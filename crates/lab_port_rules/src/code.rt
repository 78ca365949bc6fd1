//! Where the rules of declarations, numbers, texts and casts apply.

ghost use Rattle.std.specs.Prelude.{◌≡◌, ◌≤◌, length, IfSome};
ghost use Rattle.lab_port_rules.specs.Codes.{has_form, is_extern_place, begins_external, prototype_rule, word_mark, storage_mark, whole_type_mark, type_mark, number_mark, precedes_operand, ends_operand, cast_rule, cast_by, cast_mark, is_int, is_argument, has_parameters, main_mark, plain_word_mark, lacking_if, is_pointer, is_address, precedes_prefix, text_mark, sign_mark, character_mark, token_mark, may_begin_prototype, is_prototype_place, code_mark};

use crate::library::{begins_statement, changed_by, changed_if, library_mark};
use crate::mark::Mark;
use crate::rule::Rule;
use lab_port_context::{
    Call, Cast, CastEnd, Context, Facts, call_size, cast_end, is_abort, is_close, is_comma,
    is_floating_type, is_open, is_semicolon, is_star, is_type, name_ahead, nth_class,
    prototype_size, run_end,
};
use lab_port_words::{Class, Form, Format, Lack, Sign, Storage, TypeWord, Word, is_word};

/// The mark of a token of code.
pub(crate) fn code_mark(facts: Facts, context: Context, class: Class, rest: &[Class]) -> Mark
    ensures { result ≡ code_mark facts context class rest.now }
{
    if is_prototype_place(facts, context, class) {
        if let Some(size) = prototype_size(rest) {
            return Mark::Changed(prototype_rule(facts, context, rest), size);
        }
    }
    token_mark(facts, context, class, rest)
}

// The rule of a prototype of the library.
fn prototype_rule(facts: Facts, context: Context, rest: &[Class]) -> Rule
    ensures { result ≡ prototype_rule facts context rest.now }
{
    if is_abort(name_ahead(rest)) && facts.uses_abort && !context.declared {
        Rule::DefineAbort
    } else {
        Rule::Storage
    }
}

// Whether a prototype of the library may begin there that is left out.
fn is_prototype_place(facts: Facts, context: Context, class: Class) -> bool
    ensures { result ≡ is_prototype_place facts context class }
{
    may_begin_prototype(class) && begins_external(context) && !facts.has_own
}

fn may_begin_prototype(class: Class) -> bool
    ensures { result ≡ may_begin_prototype class }
{
    match class {
        Class::Type(_) => true,
        Class::Storage(_) => true,
        _ => false,
    }
}

// Whether a declaration may begin there at file scope.
fn begins_external(context: Context) -> bool
    ensures { result ≡ begins_external context }
{
    context.braces == 0 && begins_statement(context)
}

// The mark of a token of code that begins no prototype of the library.
fn token_mark(facts: Facts, context: Context, class: Class, rest: &[Class]) -> Mark
    ensures { result ≡ token_mark facts context class rest.now }
{
    match class {
        Class::Gap | Class::Join | Class::LineEnd => Mark::Kept,
        Class::Sign(sign) => sign_mark(sign, context, rest),
        Class::Type(word) => type_mark(word, context, rest),
        Class::Storage(word) => storage_mark(word, context, rest),
        Class::Library(_) if facts.has_own => Mark::Kept,
        Class::Library(name) => library_mark(name, context, rest),
        Class::Clause(_) => Mark::Kept,
        Class::Hash(_) => Mark::Kept,
        Class::Word(word) => plain_word_mark(word, facts, context, rest),
        Class::Number(form) => number_mark(form),
        Class::Text(format) => text_mark(format),
        Class::Character(number) => character_mark(number, context),
    }
}

// Whether the words here are of no pointer and of no floating type.
fn has_form(context: Context, rest: &[Class]) -> bool
    ensures { result ≡ has_form context rest.now }
{
    if context.floating || is_star(context.last) {
        return false;
    }
    let end = run_end(rest);
    !(is_star(end) || is_floating_type(end))
}

// A word that is left out where the type has a form.
fn word_mark(context: Context, rest: &[Class], rule: Rule) -> Mark
    ensures { result ≡ word_mark context rest.now rule }
{
    changed_if(has_form(context, rest), rule)
}

// A word of storage.
fn storage_mark(word: Storage, context: Context, rest: &[Class]) -> Mark
    ensures { result ≡ storage_mark word context rest.now }
{
    match word {
        Storage::Plain => word_mark(context, rest, Rule::Storage),
        Storage::Auto => word_mark(context, rest, Rule::Storage),
        Storage::Volatile => word_mark(context, rest, Rule::Volatile),
        Storage::Static => {
            changed_if(
                context.braces == 0 && has_form(context, rest),
                Rule::Storage,
            )
        }
        Storage::Extern => changed_if(is_extern_place(context, rest), Rule::Storage),
        Storage::Attribute => changed_by(call_size(Call::Any, rest), Rule::Attribute),
    }
}

// Whether an `extern` there is one of a function.
fn is_extern_place(context: Context, rest: &[Class]) -> bool
    ensures { result ≡ is_extern_place context rest.now }
{
    context.braces == 0 && has_form(context, rest) && is_open(run_end(rest))
}

// A word of a type.
fn type_mark(word: TypeWord, context: Context, rest: &[Class]) -> Mark
    ensures { result ≡ type_mark word context rest.now }
{
    match word {
        TypeWord::Void => Mark::Kept,
        TypeWord::Floating => Mark::Lacking(Lack::Floating),
        TypeWord::Int => {
            let again = context.typed && has_form(context, rest);
            changed_if(again, Rule::TypeAgain(TypeWord::Int))
        }
        _ => whole_type_mark(word, context, rest),
    }
}

// A word of a type of whole numbers other than `int`.
fn whole_type_mark(word: TypeWord, context: Context, rest: &[Class]) -> Mark
    ensures { result ≡ whole_type_mark word context rest.now }
{
    if !has_form(context, rest) {
        return Mark::Kept;
    }
    if context.typed {
        return Mark::Changed(Rule::TypeAgain(word), 0);
    }
    Mark::Changed(Rule::Type(word), 0)
}

/// A number.
pub(crate) fn number_mark(form: Form) -> Mark
    ensures { result ≡ number_mark form }
{
    match form {
        Form::Long => Mark::Changed(Rule::Suffix, 0),
        Form::Unsigned => Mark::Changed(Rule::UnsignedSuffix, 0),
        Form::Floating => Mark::Lacking(Lack::Floating),
        Form::One => Mark::Kept,
        Form::Plain => Mark::Kept,
    }
}

// A punctuator.
fn sign_mark(sign: Sign, context: Context, rest: &[Class]) -> Mark
    ensures { result ≡ sign_mark sign context rest.now }
{
    match sign {
        Sign::Open => cast_mark(context, rest),
        Sign::Star => lacking_if(is_pointer(context), Lack::Pointer),
        Sign::And => lacking_if(is_address(context), Lack::Pointer),
        Sign::Arrow => Mark::Lacking(Lack::Pointer),
        _ => Mark::Kept,
    }
}

/// A token that has no form where this holds.
pub(crate) fn lacking_if(lacks: bool, lack: Lack) -> Mark
    ensures { result ≡ lacking_if lacks lack }
{
    if lacks {
        Mark::Lacking(lack)
    } else {
        Mark::Kept
    }
}

// Whether a star there declares a pointer.
fn is_pointer(context: Context) -> bool
    ensures { result ≡ is_pointer context }
{
    context.typed || context.floating || is_type(context.last)
}

// Whether an `&` there takes an address.
fn is_address(context: Context) -> bool
    ensures { result ≡ is_address context }
{
    match context.last {
        Class::Sign(sign) => precedes_prefix(sign),
        Class::Word(Word::Return) => true,
        _ => false,
    }
}

// Whether an operator after it has one operand alone.
fn precedes_prefix(sign: Sign) -> bool
    ensures { result ≡ precedes_prefix sign }
{
    match sign {
        Sign::Close | Sign::CloseBracket | Sign::Steps => false,
        _ => true,
    }
}

// A text.
fn text_mark(format: Format) -> Mark
    ensures { result ≡ text_mark format }
{
    match format {
        Format::Same => Mark::Kept,
        Format::Respelled => Mark::Changed(Rule::Format, 0),
        Format::Lacking => Mark::Lacking(Lack::Conversion),
    }
}

// Whether a `(` after it begins no list of a call or a declaration.
fn precedes_operand(class: Class) -> bool
    ensures { result ≡ precedes_operand class }
{
    match class {
        Class::Word(Word::Return) => true,
        Class::Word(Word::Branch) => true,
        _ => !is_word(class),
    }
}

// Whether no operand begins with it: the end of an expression, or a bracket of a list.
fn ends_operand(class: Class) -> bool
    ensures { result ≡ ends_operand class }
{
    match class {
        Class::Sign(Sign::OpenBracket | Sign::OpenBrace) => true,
        _ => is_semicolon(class) || is_close(class) || is_comma(class),
    }
}

fn cast_rule(cast: Cast) -> Rule
    ensures { result ≡ cast_rule cast }
{
    match cast {
        Cast::Empty => Rule::Cast,
        Cast::Same => Rule::Cast,
        Cast::Wide => Rule::WideCast,
        Cast::Narrow => Rule::NarrowCast,
    }
}

// A `(`, which may begin a cast.
fn cast_mark(context: Context, rest: &[Class]) -> Mark
    ensures { result ≡ cast_mark context rest.now }
{
    if !precedes_operand(context.last) {
        return Mark::Kept;
    }
    match cast_end(rest) {
        Some(end) => cast_with_operand(end, rest),
        None => Mark::Kept,
    }
}

// A cast that ends there, if an operand follows.
fn cast_with_operand(end: CastEnd, rest: &[Class]) -> Mark
    requires { end.size ≤ length rest.now }
    ensures { result ≡ cast_by (Some end) rest.now }
{
    if !ends_operand(nth_class(0, &rest[end.size..])) {
        Mark::Changed(cast_rule(end.cast), end.size)
    } else {
        Mark::Kept
    }
}

fn is_int(class: Class) -> bool
    ensures { result ≡ is_int class }
{
    match class {
        Class::Type(TypeWord::Int) => true,
        _ => false,
    }
}

fn is_argument(class: Class) -> bool
    ensures { result ≡ is_argument class }
{
    match class {
        Class::Word(Word::Argument) => true,
        _ => false,
    }
}

// Whether parameters of `main` follow.
fn has_parameters(rest: &[Class]) -> bool
    ensures { result ≡ has_parameters rest.now }
{
    is_open(nth_class(0, rest)) && is_int(nth_class(1, rest)) && is_argument(nth_class(2, rest))
}

// The name `main`.
fn main_mark(facts: Facts, context: Context, rest: &[Class]) -> Mark
    ensures { result ≡ main_mark facts context rest.now }
{
    if context.braces == 0 && has_parameters(rest) && !facts.uses_arguments {
        return changed_by(call_size(Call::Any, rest), Rule::Main);
    }
    Mark::Kept
}

// Another word.
fn plain_word_mark(word: Word, facts: Facts, context: Context, rest: &[Class]) -> Mark
    ensures { result ≡ plain_word_mark word facts context rest.now }
{
    match word {
        Word::Main => main_mark(facts, context, rest),
        Word::Lacking(lack) => Mark::Lacking(lack),
        _ => Mark::Kept,
    }
}

// A character.
fn character_mark(number: Option<u8>, context: Context) -> Mark
    ensures { result ≡ character_mark number context }
{
    if !precedes_operand(context.last) {
        return Mark::Kept;
    }
    match number {
        Some(number) => Mark::Changed(Rule::Character(number), 0),
        None => Mark::Kept,
    }
}
