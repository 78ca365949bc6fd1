//! What follows a piece.

ghost use Rattle.std.specs.Prelude.{◌≡◌, ◌≤◌, ◌+◌, length, IfSome};
ghost use Rattle.lab_port_context.specs.Ahead.{ends_line, line_size, of_line, nth_class, nth_text, size_to, is_open, is_close, is_semicolon, is_comma, is_star, is_any, paren_opens, paren_closes, paren_changes, paren_passes, paren_at_sign, paren_step, closes, call_size, semicolon_behind, statement_size, run_end, is_library, may_precede, name_size, name_ahead, prototype_size, cast_wider, cast_same, cast_with, cast_word, cast_close, cast_step, cast_ahead};

use crate::context::{deeper, is_floating_type};
use lab_port_tokens::Piece;
use lab_port_words::{Class, Sign, TypeWord, Word, class_of, is_gap, is_word};

/// A list in parentheses, and what may stand in it.
#[derive(Clone, Copy)]
pub enum Call {
    /// Any expressions.
    Any,
    /// Expressions without an effect, and without parentheses.
    Pure,
}

/// What a piece is to a list in parentheses.
#[derive(Clone, Copy)]
pub enum Paren {
    /// No part of such a list.
    Fails,
    /// Its end.
    Ends,
    /// A part of it, after which so many parentheses are open.
    Goes(usize),
}

/// What a cast may change.
#[derive(Clone, Copy)]
pub enum Cast {
    /// It has no word of a type.
    Empty,
    /// Nothing.
    Same,
    /// Whether a result fits.
    Wide,
    /// The value.
    Narrow,
}

/// What a piece is to a cast.
#[derive(Clone, Copy)]
pub enum CastStep {
    /// No part of it.
    Breaks,
    /// Its end.
    Finds,
    /// A part of it, with which it is this.
    Takes(Cast),
}

/// The end of a cast.
#[derive(Clone, Copy)]
pub struct CastEnd {
    /// How many pieces there are up to its `)` and with it.
    pub size: usize,
    /// What it may change.
    pub cast: Cast,
}

// Whether a line feed stands there.
fn ends_line(class: Class) -> bool
    ensures { result ≡ ends_line class }
{
    match class {
        Class::Join | Class::LineEnd => true,
        _ => false,
    }
}

// How many pieces stand before the next line feed.
fn line_size(rest: &[Class]) -> usize
    ensures size { result ≡ line_size rest.now }
    ensures inside { result ≤ length rest.now }
{
    for (i, class) in rest.iter().enumerate() {
        if ends_line(*class) {
            return i;
        }
    }
    rest.len()
}

/// The pieces before the next line feed.
pub fn of_line(rest: &[Class]) -> &[Class]
    ensures pieces { result.now ≡ of_line rest.now }
    ensures inside { length result.now ≤ length rest.now }
{
    &rest[..line_size(rest)]
}

/// The n-th token that follows, the next one for 0; `LineEnd` where there is none.
pub fn nth_class(n: usize, rest: &[Class]) -> Class
    ensures { result ≡ nth_class n rest.now }
{
    let mut left = n;
    for class in rest {
        if is_gap(*class) {
            continue;
        }
        if left == 0 {
            return *class;
        }
        left -= 1;
    }
    Class::LineEnd
}

/// The bytes of the n-th token that follows, the next one for 0; none where there is none.
pub fn nth_text(n: usize, rest: &[Piece]) -> &[u8]
    ensures { result.now ≡ nth_text n rest.now }
{
    let mut left = n;
    for piece in rest {
        if is_gap(class_of(piece)) {
            continue;
        }
        if left == 0 {
            return piece.text.as_slice();
        }
        left -= 1;
    }
    b""
}

/// How many pieces there are up to the n-th token and with it.
pub fn size_to(n: usize, rest: &[Class]) -> usize
    ensures size { result ≡ size_to n 0 rest.now }
    ensures inside { result ≤ length rest.now }
{
    let mut left = n;
    for (i, class) in rest.iter().enumerate() {
        if is_gap(*class) {
            continue;
        }
        if left == 0 {
            return i + 1;
        }
        left -= 1;
    }
    rest.len()
}

pub fn is_open(class: Class) -> bool
    ensures { result ≡ is_open class }
{
    match class {
        Class::Sign(Sign::Open) => true,
        _ => false,
    }
}

pub fn is_close(class: Class) -> bool
    ensures { result ≡ is_close class }
{
    match class {
        Class::Sign(Sign::Close) => true,
        _ => false,
    }
}

pub fn is_semicolon(class: Class) -> bool
    ensures { result ≡ is_semicolon class }
{
    match class {
        Class::Sign(Sign::Semicolon) => true,
        _ => false,
    }
}

pub fn is_comma(class: Class) -> bool
    ensures { result ≡ is_comma class }
{
    match class {
        Class::Sign(Sign::Comma) => true,
        _ => false,
    }
}

pub fn is_star(class: Class) -> bool
    ensures { result ≡ is_star class }
{
    match class {
        Class::Sign(Sign::Star) => true,
        _ => false,
    }
}

fn is_any(call: Call) -> bool
    ensures { result ≡ is_any call }
{
    match call {
        Call::Any => true,
        _ => false,
    }
}

// One parenthesis more, where so many are open.
fn paren_opens(call: Call, depth: usize) -> Paren
    ensures { result ≡ paren_opens call depth }
{
    if depth == 0 || is_any(call) {
        Paren::Goes(deeper(depth))
    } else {
        Paren::Fails
    }
}

// One parenthesis fewer.
fn paren_closes(depth: usize) -> Paren
    ensures { result ≡ paren_closes depth }
{
    match depth {
        0 => Paren::Fails,
        1 => Paren::Ends,
        _ => Paren::Goes(depth - 1),
    }
}

// A token that changes a value.
fn paren_changes(call: Call, depth: usize) -> Paren
    ensures { result ≡ paren_changes call depth }
{
    if depth == 0 || !is_any(call) {
        Paren::Fails
    } else {
        Paren::Goes(depth)
    }
}

// Any other token.
fn paren_passes(depth: usize) -> Paren
    ensures { result ≡ paren_passes depth }
{
    if depth == 0 {
        Paren::Fails
    } else {
        Paren::Goes(depth)
    }
}

// What a piece is to a list in parentheses, of which so many are open.
fn paren_step(call: Call, depth: usize, class: Class) -> Paren
    ensures { result ≡ paren_step call depth class }
{
    match class {
        Class::Gap | Class::Join | Class::LineEnd => Paren::Goes(depth),
        Class::Sign(sign) => paren_at_sign(call, depth, sign),
        _ => paren_passes(depth),
    }
}

fn paren_at_sign(call: Call, depth: usize, sign: Sign) -> Paren
    ensures { result ≡ paren_at_sign call depth sign }
{
    match sign {
        Sign::Open => paren_opens(call, depth),
        Sign::Close => paren_closes(depth),
        Sign::Changes | Sign::Steps => paren_changes(call, depth),
        Sign::Semicolon | Sign::OpenBrace | Sign::CloseBrace | Sign::Hash => Paren::Fails,
        _ => paren_passes(depth),
    }
}

/// How many pieces the list in parentheses has that follows, if one does.
pub fn call_size(call: Call, rest: &[Class]) -> Option<usize>
    ensures size { result ≡ call_size call rest.now }
    ensures inside { IfSome result (λ size. size ≤ length rest.now) }
{
    let mut depth = 0;
    for (i, class) in rest.iter().enumerate() {
        match paren_step(call, depth, *class) {
            Paren::Fails => return None,
            Paren::Ends => return Some(i + 1),
            Paren::Goes(more) => depth = more,
        }
    }
    None
}

// Whether a `;` follows after so many pieces.
fn semicolon_behind(size: usize, rest: &[Class]) -> bool
    requires { size ≤ length rest.now }
    ensures { result ≡ semicolon_behind size rest.now }
{
    is_semicolon(nth_class(0, &rest[size..]))
}

/// The size of the list in parentheses that follows, where a `;` stands after it.
pub fn statement_size(call: Call, rest: &[Class]) -> Option<usize>
    ensures size { result ≡ statement_size call rest.now }
    ensures inside { IfSome result (λ size. size ≤ length rest.now) }
{
    let size = call_size(call, rest)?;
    if semicolon_behind(size, rest) {
        Some(size)
    } else {
        None
    }
}

/// The first token that follows the words here, or a word of a floating type among them.
pub fn run_end(rest: &[Class]) -> Class
    ensures { result ≡ run_end rest.now }
{
    for class in rest {
        if is_floating_type(*class) || !(is_gap(*class) || is_word(*class)) {
            return *class;
        }
    }
    Class::LineEnd
}

pub fn is_library(class: Class) -> bool
    ensures { result ≡ is_library class }
{
    match class {
        Class::Library(_) => true,
        _ => false,
    }
}

// Whether it may stand before the name in a prototype.
fn may_precede(class: Class) -> bool
    ensures { result ≡ may_precede class }
{
    match class {
        Class::Type(_) | Class::Storage(_) => true,
        Class::Word(Word::Other) | Class::Sign(Sign::Star) => true,
        _ => is_gap(class),
    }
}

// How many pieces there are up to a name of the library and with it, if only words and stars stand before.
fn name_size(rest: &[Class]) -> Option<usize>
    ensures size { result ≡ name_size 0 rest.now }
    ensures inside { IfSome result (λ size. size ≤ length rest.now) }
{
    for (i, class) in rest.iter().enumerate() {
        if is_library(*class) {
            return Some(i + 1);
        }
        if !may_precede(*class) {
            return None;
        }
    }
    None
}

/// The first name of the library that follows; `LineEnd` where there is none.
pub fn name_ahead(rest: &[Class]) -> Class
    ensures { result ≡ name_ahead rest.now }
{
    for class in rest {
        if is_library(*class) {
            return *class;
        }
    }
    Class::LineEnd
}

/// How many pieces follow up to the `;` of a prototype of a function of the library, and with it.
pub fn prototype_size(rest: &[Class]) -> Option<usize>
    ensures size { result ≡ prototype_size rest.now }
    ensures inside { IfSome result (λ size. size ≤ length rest.now) }
{
    let name = name_size(rest)?;
    let list = statement_size(Call::Any, &rest[name..])?;
    let size = name + list;
    Some(size + size_to(0, &rest[size..]))
}

// The cast with a further word of its type.
fn cast_with(cast: Cast, word: TypeWord) -> Cast
    ensures { result ≡ cast_with cast word }
{
    match word {
        TypeWord::Char | TypeWord::Short => Cast::Narrow,
        TypeWord::Unsigned | TypeWord::Truth => Cast::Narrow,
        TypeWord::Long => cast_wider(cast),
        _ => cast_same(cast),
    }
}

fn cast_wider(cast: Cast) -> Cast
    ensures { result ≡ cast_wider cast }
{
    match cast {
        Cast::Narrow => Cast::Narrow,
        _ => Cast::Wide,
    }
}

fn cast_same(cast: Cast) -> Cast
    ensures { result ≡ cast_same cast }
{
    match cast {
        Cast::Empty => Cast::Same,
        _ => cast,
    }
}

// What a word of a type is to a cast.
fn cast_word(cast: Cast, word: TypeWord) -> CastStep
    ensures { result ≡ cast_word cast word }
{
    match word {
        TypeWord::Floating => CastStep::Breaks,
        _ => CastStep::Takes(cast_with(cast, word)),
    }
}

// What a `)` is to a cast.
fn cast_close(cast: Cast) -> CastStep
    ensures { result ≡ cast_close cast }
{
    match cast {
        Cast::Empty => CastStep::Breaks,
        _ => CastStep::Finds,
    }
}

// What a piece is to a cast that is this so far.
fn cast_step(cast: Cast, class: Class) -> CastStep
    ensures { result ≡ cast_step cast class }
{
    match class {
        Class::Gap | Class::Join | Class::LineEnd => CastStep::Takes(cast),
        Class::Storage(_) => CastStep::Takes(cast),
        Class::Type(word) => cast_word(cast, word),
        Class::Sign(Sign::Close) => cast_close(cast),
        _ => CastStep::Breaks,
    }
}

/// The end of a cast whose `(` stands before, if it is one to a type of whole numbers or to `void`.
pub fn cast_end(rest: &[Class]) -> Option<CastEnd>
    ensures end { result ≡ cast_ahead rest.now }
    ensures inside { IfSome result (λ end. end.size ≤ length rest.now) }
{
    let mut cast = Cast::Empty;
    for (i, class) in rest.iter().enumerate() {
        match cast_step(cast, *class) {
            CastStep::Breaks => return None,
            CastStep::Finds => return Some(CastEnd { size: i + 1, cast }),
            CastStep::Takes(next) => cast = next,
        }
    }
    None
}
