//! How far a statement goes that prints a text which it chooses, behind `printf`.

ghost use Rattle.std.specs.Prelude.{◌≡◌, ◌≤◌, if◌then◌else◌, length, IfSome};
ghost use Rattle.lab_port_prints.specs.declared.statement.Item.TheVariants as items;
ghost use Rattle.lab_port_prints.specs.Formats.{is_odd};
ghost use Rattle.lab_port_prints.specs.Statements.{is_text, is_colon, is_question, item_of, link_behind_fresh, link_behind_condition, link_behind_question, link_behind_chosen, link_behind, depth_behind, is_effect, is_foreign, choices_behind, with_token, with_item, at_part, next_argument, is_last, may_end, may_close, goes_if, linked, step_in_argument, step_among_arguments, is_format, step_by, step, first_statement, statement_end, statement_behind, choices_of};

use crate::format::{has_number, is_odd};
use lab_port_context::{deeper, is_close, is_comma, is_open, is_semicolon};
use lab_port_tokens::Piece;
use lab_port_words::{Class, Sign, class_of, is_gap, is_word};

/// What stands before a token of such a statement.
#[derive(Clone, Copy)]
pub enum Part {
    /// The word `printf`.
    Name,
    /// The `(`.
    Open,
    /// The format.
    Format,
    /// A part of the arguments.
    Arguments,
    /// The `)`.
    Closed,
}

/// What stands before a token of the argument that is a text (C17 6.5.15).
#[derive(Clone, Copy)]
pub enum Link {
    /// Nothing, or a colon behind which another condition may stand.
    Fresh,
    /// A part of a condition.
    Condition,
    /// A question mark.
    Question,
    /// The text behind a question mark.
    Chosen,
    /// The last text.
    Last,
}

/// What a token is to the argument that is a text.
#[derive(Clone, Copy)]
pub enum Item {
    /// A text.
    Text,
    /// A text with a percent sign, or an escape of a number.
    Odd,
    /// A question mark outside of brackets.
    Question,
    /// A colon outside of brackets.
    Colon,
    /// Any other.
    Other,
}

/// A statement so far.
#[derive(Clone, Copy)]
pub struct Statement {
    /// What stands last.
    pub part: Part,
    /// The number of the argument, from 0.
    pub number: usize,
    /// How many brackets are open in it.
    pub depth: usize,
    /// What stands last in the argument that is a text.
    pub link: Link,
    /// How many texts it chooses from so far.
    pub choices: usize,
    /// Whether a word stands last in the argument.
    pub word: bool,
    /// Whether an argument has an effect.
    pub effects: bool,
}

/// What a piece is to such a statement.
#[derive(Clone, Copy)]
pub enum Next {
    /// No part of it.
    Fails,
    /// Its `;`.
    Ends,
    /// A part of it, behind which it is this.
    Goes(Statement),
}

/// How many pieces there are up to the `;` of such a statement and with it.
pub(crate) fn statement_end(wanted: usize, rest: &[Piece]) -> Option<usize>
    ensures size { result ≡ statement_end 0 wanted first_statement rest.now }
    ensures inside { IfSome result (λ size. size ≤ length rest.now) }
{
    let mut statement = first_statement();
    for (i, piece) in rest.iter().enumerate() {
        match step(wanted, statement, piece) {
            Next::Fails => return None,
            Next::Ends => return Some(i + 1),
            Next::Goes(next) => statement = next,
        }
    }
    None
}

/// From how many texts a statement chooses.
pub(crate) fn choices_of(wanted: usize, pieces: &[Piece]) -> usize
    ensures { result ≡ choices_of wanted pieces.now }
{
    let mut statement = first_statement();
    for piece in pieces {
        statement = statement_behind(wanted, statement, piece);
    }
    statement.choices
}

/// The statement behind a piece.
pub(crate) fn statement_behind(wanted: usize, statement: Statement, piece: &Piece) -> Statement
    ensures { result ≡ statement_behind wanted statement piece.now }
{
    match step(wanted, statement, piece) {
        Next::Goes(next) => next,
        _ => statement,
    }
}

/// Behind `printf`.
pub(crate) fn first_statement() -> Statement
    ensures { result ≡ first_statement }
{
    Statement {
        part: Part::Name,
        number: 0,
        depth: 0,
        link: Link::Fresh,
        choices: 0,
        word: false,
        effects: false,
    }
}

// What a piece is behind these.
fn step(wanted: usize, statement: Statement, piece: &Piece) -> Next
    ensures { result ≡ step wanted statement piece.now }
{
    if is_gap(class_of(piece)) {
        Next::Goes(statement)
    } else {
        step_by(wanted, statement, piece)
    }
}

// What a token is behind these.
fn step_by(wanted: usize, statement: Statement, piece: &Piece) -> Next
    ensures { result ≡ step_by statement.part wanted statement piece.now }
{
    let class = class_of(piece);
    match statement.part {
        Part::Name => goes_if(is_open(class), at_part(Part::Open, statement)),
        Part::Open => goes_if(is_format(piece), at_part(Part::Format, statement)),
        Part::Format => goes_if(is_comma(class), at_part(Part::Arguments, statement)),
        Part::Arguments => step_among_arguments(wanted, statement, piece),
        Part::Closed if is_semicolon(class) => Next::Ends,
        Part::Closed => Next::Fails,
    }
}

fn is_format(piece: &Piece) -> bool
    ensures { result ≡ is_format piece.now }
{
    is_text(class_of(piece)) && !has_number(piece.text.as_slice())
}

fn step_among_arguments(wanted: usize, statement: Statement, piece: &Piece) -> Next
    ensures { result ≡ step_among_arguments wanted statement piece.now }
{
    let class = class_of(piece);
    if statement.depth == 0 && is_comma(class) {
        return goes_if(may_end(wanted, statement), next_argument(statement));
    }
    if statement.depth == 0 && is_close(class) {
        return goes_if(
            may_close(wanted, statement),
            at_part(Part::Closed, statement),
        );
    }
    step_in_argument(wanted, statement, piece)
}

fn step_in_argument(wanted: usize, statement: Statement, piece: &Piece) -> Next
    ensures { result ≡ step_in_argument wanted statement piece.now }
{
    let class = class_of(piece);
    if is_foreign(class) {
        return Next::Fails;
    }
    if statement.number != wanted {
        return Next::Goes(with_token(statement, class));
    }
    let item = item_of(statement.depth, piece);
    linked(link_behind(statement.link, item), statement, class)
}

fn linked(link: Option<Link>, statement: Statement, class: Class) -> Next
    ensures { result ≡ linked link statement class }
{
    match link {
        Some(link) => Next::Goes(with_item(statement, class, link)),
        None => Next::Fails,
    }
}

fn goes_if(goes: bool, statement: Statement) -> Next
    ensures { result ≡ goes_if goes statement }
{
    if goes {
        Next::Goes(statement)
    } else {
        Next::Fails
    }
}

// Whether the statement may end behind this argument.
fn may_close(wanted: usize, statement: Statement) -> bool
    ensures { result ≡ may_close wanted statement }
{
    let stands_alone = statement.number == 0 || !statement.effects;
    let chooses = 0 < statement.choices && statement.choices < 5;
    (may_end(wanted, statement) && stands_alone) && chooses
}

// Whether the argument may end there.
fn may_end(wanted: usize, statement: Statement) -> bool
    ensures { result ≡ may_end wanted statement }
{
    statement.number != wanted || is_last(statement.link)
}

fn is_last(link: Link) -> bool
    ensures { result ≡ is_last link }
{
    match link {
        Link::Last => true,
        _ => false,
    }
}

// Behind the comma before another argument.
fn next_argument(statement: Statement) -> Statement
    ensures { result ≡ next_argument statement }
{
    Statement {
        part: statement.part,
        number: deeper(statement.number),
        depth: 0,
        link: statement.link,
        choices: statement.choices,
        word: false,
        effects: statement.effects,
    }
}

fn at_part(part: Part, statement: Statement) -> Statement
    ensures { result ≡ at_part part statement }
{
    Statement {
        part,
        number: statement.number,
        depth: statement.depth,
        link: statement.link,
        choices: statement.choices,
        word: statement.word,
        effects: statement.effects,
    }
}

// Behind a token of an argument that is no text.
fn with_token(statement: Statement, class: Class) -> Statement
    ensures { result ≡ with_token statement class }
{
    Statement {
        part: statement.part,
        number: statement.number,
        depth: depth_behind(statement.depth, class),
        link: statement.link,
        choices: statement.choices,
        word: is_word(class),
        effects: statement.effects || is_effect(statement.word, class),
    }
}

// Behind a token of the argument that is a text.
fn with_item(statement: Statement, class: Class, link: Link) -> Statement
    ensures { result ≡ with_item statement class link }
{
    Statement {
        part: statement.part,
        number: statement.number,
        depth: depth_behind(statement.depth, class),
        link,
        choices: choices_behind(statement.choices, class),
        word: is_word(class),
        effects: statement.effects || is_effect(statement.word, class),
    }
}

fn choices_behind(choices: usize, class: Class) -> usize
    ensures { result ≡ choices_behind choices class }
{
    if is_text(class) {
        deeper(choices)
    } else {
        choices
    }
}

// What stands in no argument.
fn is_foreign(class: Class) -> bool
    ensures { result ≡ is_foreign class }
{
    match class {
        Class::Sign(Sign::OpenBrace | Sign::CloseBrace | Sign::Hash) => true,
        _ => is_semicolon(class),
    }
}

// Whether a token changes a value, or behind a word begins a call.
fn is_effect(word: bool, class: Class) -> bool
    ensures { result ≡ is_effect word class }
{
    match class {
        Class::Sign(Sign::Changes | Sign::Steps) => true,
        _ => word && is_open(class),
    }
}

// How many brackets are open behind a token.
fn depth_behind(depth: usize, class: Class) -> usize
    ensures { result ≡ depth_behind depth class }
{
    match class {
        Class::Sign(Sign::Open | Sign::OpenBracket) => deeper(depth),
        Class::Sign(Sign::Close | Sign::CloseBracket) => depth.saturating_sub(1),
        _ => depth,
    }
}

// What stands behind a token of the argument that is a text.
fn link_behind(link: Link, item: Item) -> Option<Link>
    ensures { result ≡ link_behind link item }
{
    match link {
        Link::Fresh => link_behind_fresh(item),
        Link::Condition => link_behind_condition(item),
        Link::Question => link_behind_question(item),
        Link::Chosen => link_behind_chosen(item),
        Link::Last => None,
    }
}

fn link_behind_fresh(item: Item) -> Option<Link>
    ensures { result ≡ link_behind_fresh item }
{
    match item {
        Item::Text => Some(Link::Last),
        Item::Other => Some(Link::Condition),
        _ => None,
    }
}

fn link_behind_condition(item: Item) -> Option<Link>
    ensures { result ≡ link_behind_condition item }
{
    match item {
        Item::Question => Some(Link::Question),
        Item::Other => Some(Link::Condition),
        _ => None,
    }
}

fn link_behind_question(item: Item) -> Option<Link>
    ensures { result ≡ link_behind_question item }
{
    match item {
        Item::Text => Some(Link::Chosen),
        _ => None,
    }
}

fn link_behind_chosen(item: Item) -> Option<Link>
    ensures { result ≡ link_behind_chosen item }
{
    match item {
        Item::Colon => Some(Link::Fresh),
        _ => None,
    }
}

/// What a token is to the argument that is a text, where so many brackets are open.
pub(crate) fn item_of(depth: usize, piece: &Piece) -> Item
    ensures { result ≡ item_of depth piece.now }
{
    let class = class_of(piece);
    if is_text(class) {
        return item_of_text(piece);
    }
    if depth == 0 && is_question(piece) {
        return Item::Question;
    }
    if depth == 0 && is_colon(class) {
        return Item::Colon;
    }
    Item::Other
}

fn item_of_text(piece: &Piece) -> Item
    ensures { result ≡ (if is_odd piece.now.text then items.Odd else items.Text) }
{
    if is_odd(piece.text.as_slice()) {
        Item::Odd
    } else {
        Item::Text
    }
}

fn is_question(piece: &Piece) -> bool
    ensures { result ≡ is_question piece.now }
{
    piece.text.as_slice() == b"?".as_slice()
}

fn is_colon(class: Class) -> bool
    ensures { result ≡ is_colon class }
{
    match class {
        Class::Sign(Sign::Colon) => true,
        _ => false,
    }
}

/// Whether a token is a text on one line.
pub(crate) fn is_text(class: Class) -> bool
    ensures { result ≡ is_text class }
{
    match class {
        Class::Text(_) => true,
        _ => false,
    }
}
