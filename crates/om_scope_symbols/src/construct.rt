//! What each directive is as a construct.

ghost use Rattle.std.specs.Prelude.{◌≡◌};
ghost use Rattle.om_parser_tree.specs.View.{view_directive};
ghost use Rattle.om_scope_rules.specs.DirectiveRules.{constructing, is_closed_inside, parallel_in, row, traits_of};

use crate::nesting::is_parallel;
use om_parser_tree::Expression;
use om_pragma::{Directive, DirectiveName};
use om_scope_rules::{Flow, Inside, SharingKind, Traits};

// A row of the table.
fn row(region: SharingKind, is_bound: bool, inside: Inside, takes_loop: bool) -> Traits
    ensures { result ≡ row region is_bound inside takes_loop }
{
    Traits {
        region,
        is_bound,
        inside,
        takes_loop,
    }
}

/// What a directive is as a construct.
pub fn traits_of(name: &DirectiveName) -> Traits
    ensures { result ≡ traits_of name.now }
{
    match name {
        DirectiveName::Parallel(_) => row(SharingKind::Parallel, false, Inside::Opens, false),
        DirectiveName::For(_) => row(SharingKind::Plain, true, Inside::Closes, true),
        DirectiveName::Sections(_) => row(SharingKind::Plain, true, Inside::Closes, false),
        DirectiveName::Section(_) => row(SharingKind::Plain, false, Inside::Keeps, false),
        DirectiveName::Single(_) => row(SharingKind::Plain, true, Inside::Closes, false),
        DirectiveName::ParallelFor(_, _) => row(SharingKind::Parallel, false, Inside::Closes, true),
        DirectiveName::ParallelSections(_, _) => row(
            SharingKind::Parallel,
            false,
            Inside::Closes,
            false,
        ),
        DirectiveName::Masked(_) => row(SharingKind::Plain, false, Inside::Closes, false),
        DirectiveName::Master(_) => row(SharingKind::Plain, false, Inside::Closes, false),
        DirectiveName::Critical(_, _) => row(SharingKind::Plain, false, Inside::Closes, false),
        DirectiveName::Atomic(_) => row(SharingKind::Plain, false, Inside::Keeps, false),
        DirectiveName::Task(_) => row(SharingKind::Task, false, Inside::Closes, false),
        DirectiveName::Taskgroup(_) => row(SharingKind::Plain, false, Inside::Keeps, false),
        DirectiveName::Barrier(_) => row(SharingKind::Plain, true, Inside::Keeps, false),
        DirectiveName::Taskwait(_) => row(SharingKind::Plain, false, Inside::Keeps, false),
        DirectiveName::Taskyield(_) => row(SharingKind::Plain, false, Inside::Keeps, false),
        DirectiveName::Flush(_, _) => row(SharingKind::Plain, false, Inside::Keeps, false),
    }
}

// Whether worksharing is closed out in a construct.
fn is_closed_inside(inside: Inside, closed: bool) -> bool
    ensures { result ≡ is_closed_inside inside closed }
{
    match inside {
        Inside::Opens => false,
        Inside::Closes => true,
        Inside::Keeps => closed,
    }
}

// Where the innermost `parallel` round the statements in a construct begins.
fn parallel_in(directive: &Directive<Expression>, outer: Option<u32>) -> Option<u32>
    ensures { result ≡ parallel_in (view_directive directive.now) outer }
{
    if is_parallel(traits_of(&directive.name).region) {
        Some(directive.hash.start)
    } else {
        outer
    }
}

/// What the statements in a construct may do.
pub fn constructing(directive: &Directive<Expression>, flow: Flow) -> Flow
    ensures { result ≡ constructing (view_directive directive.now) flow }
{
    let traits = traits_of(&directive.name);
    Flow {
        may_break: false,
        may_continue: false,
        returns: flow.returns,
        in_construct: true,
        is_closed: is_closed_inside(traits.inside, flow.is_closed),
        parallel: parallel_in(directive, flow.parallel),
    }
}
