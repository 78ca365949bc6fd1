//! What each piece of a source becomes.

ghost use Rattle.std.specs.Prelude.{◌≡◌, IfOk};
ghost use Rattle.lab_port_rules.specs.Marks.{first_mark, define_mark, mark_at, mark_here, taken_by, taken_after, first_place, leaves_out, drops_here, context_beyond, place_behind, marks_of};

use crate::code::{code_mark, number_mark};
use crate::directive::{directive_mark, include_mark};
use crate::rule::Rule;
use lab_port_context::{
    Context, Facts, Line, at_first, context_behind, facts_of, in_sight, of_line,
};
use lab_port_words::{Class, Lack, Sign};
use om_seq::AllocResult;
use std::alloc::Global;

/// What a piece becomes.
#[derive(Clone, Copy)]
pub enum Mark {
    /// Itself.
    Kept,
    /// What a rule writes for it and for so many pieces that follow.
    Changed(Rule, usize),
    /// Blank, since the rule of an earlier piece takes it.
    Taken,
    /// Itself, and it has no form.
    Lacking(Lack),
}

/// The marks of all pieces of a source, by their classes. The only error is out of memory.
pub fn marks_of(alloc: Global, all: &[Class]) -> AllocResult<Vec<Mark>>
    ensures { IfOk result (λ marks. marks.items ≡ marks_of all.now) }
{
    let facts = facts_of(all);
    let mut marks = Vec::new(alloc);
    let mut place = first_place();
    for (i, class) in all.iter().enumerate() {
        let mark = mark_here(facts, place, *class, &all[i + 1..]);
        marks.push(mark)?;
        place = place_behind(place, mark, *class);
    }
    Ok(marks)
}

/// A place between two pieces, as the rules see it.
#[derive(Clone, Copy)]
pub struct Place {
    /// What stands before it in the text, of what rules leave there.
    pub context: Context,
    /// How many pieces that follow are taken by the rule of an earlier one.
    pub taken: usize,
    /// Whether that rule leaves them out.
    pub drops: bool,
}

fn first_place() -> Place
    ensures { result ≡ first_place }
{
    Place {
        context: at_first(),
        taken: 0,
        drops: false,
    }
}

// The place after a piece with this mark.
fn place_behind(place: Place, mark: Mark, class: Class) -> Place
    ensures { result ≡ place_behind place mark class }
{
    let drops = drops_here(place, mark);
    Place {
        context: context_beyond(place.context, drops, class),
        taken: taken_after(place.taken, mark),
        drops,
    }
}

// Whether the piece there is left out.
fn drops_here(place: Place, mark: Mark) -> bool
    ensures { result ≡ drops_here place mark }
{
    match mark {
        Mark::Changed(rule, _) => leaves_out(rule),
        Mark::Taken => place.drops,
        _ => false,
    }
}

// Whether a rule leaves out a part of a declaration, of an expression or of a directive, so that what stands
// before that part stands before what follows it.
fn leaves_out(rule: Rule) -> bool
    ensures { result ≡ leaves_out rule }
{
    match rule {
        Rule::Attribute | Rule::Volatile => true,
        Rule::Cast | Rule::WideCast | Rule::NarrowCast | Rule::DropClause => true,
        _ => false,
    }
}

// What stands before the next piece; what is left out does not.
fn context_beyond(context: Context, drops: bool, class: Class) -> Context
    ensures { result ≡ context_beyond context drops class }
{
    if drops {
        context
    } else {
        context_behind(context, class)
    }
}

// A piece, which the rule of an earlier one takes if so many are still taken.
fn mark_here(facts: Facts, place: Place, class: Class, rest: &[Class]) -> Mark
    ensures { result ≡ mark_here facts place class rest.now }
{
    if place.taken == 0 {
        mark_at(facts, place.context, class, rest)
    } else {
        Mark::Taken
    }
}

/// How many pieces are taken after a piece with this mark, where so many are taken with it.
pub fn taken_after(taken: usize, mark: Mark) -> usize
    ensures { result ≡ taken_after taken mark }
{
    if taken == 0 {
        taken_by(mark)
    } else {
        taken - 1
    }
}

// How many pieces after its own a mark takes.
fn taken_by(mark: Mark) -> usize
    ensures { result ≡ taken_by mark }
{
    match mark {
        Mark::Changed(_, taken) => taken,
        _ => 0,
    }
}

// A piece, by what stands before it and what follows it.
fn mark_at(facts: Facts, context: Context, class: Class, rest: &[Class]) -> Mark
    ensures { result ≡ mark_at facts context class rest.now }
{
    let rest = in_sight(rest);
    match context.line {
        Line::Fresh => first_mark(facts, context, class, rest),
        Line::Code => code_mark(facts, context, class, rest),
        Line::Define => define_mark(class),
        Line::Omp => directive_mark(context, class, of_line(rest)),
        _ => Mark::Kept,
    }
}

// The first token of a line.
fn first_mark(facts: Facts, context: Context, class: Class, rest: &[Class]) -> Mark
    ensures { result ≡ first_mark facts context class rest.now }
{
    match class {
        Class::Sign(Sign::Hash) => include_mark(facts, context, of_line(rest)),
        _ => code_mark(facts, context, class, rest),
    }
}

// A piece of a define.
fn define_mark(class: Class) -> Mark
    ensures { result ≡ define_mark class }
{
    match class {
        Class::Number(form) => number_mark(form),
        _ => Mark::Kept,
    }
}
