//! Which lines of a source its conditions leave (C17 6.10.1p6).

ghost use Rattle.std.specs.Prelude.{◌≡◌, [], if◌then◌else◌, IfOk, OnOk};
ghost use Rattle.lab_port_context.specs.Ahead.{nth_text};
ghost use Rattle.lab_port_conditions.specs.declared.kind.Kind.TheVariants as kinds;
ghost use Rattle.lab_port_conditions.specs.Kinds.{ends_at};
ghost use Rattle.lab_port_conditions.specs.States.{of_counts, lost, behind_header, behind_opened, behind_written, behind_skipped, behind_kind, is_definition, definition_of, defines, names_behind, is_turn};

use crate::kind::{Kind, ends_at};
use lab_port_context::{deeper, nth_text};
use lab_port_rules::Meaning;
use lab_port_tokens::Piece;
use om_seq::{AllocResult, Seq};
use std::alloc::Global;

/// What the conditions before a place leave there.
#[derive(Clone, Copy)]
pub struct State {
    /// How many open conditions leave lines out.
    pub skipped: usize,
    /// How many open conditions do not.
    pub opened: usize,
    /// Whether each line was understood.
    pub is_sure: bool,
    /// Whether a header stands before it whose macros are not known.
    pub has_unknown: bool,
}

/// Behind a `#` line of this kind.
pub(crate) fn behind_kind(state: State, kind: Kind) -> State
    ensures { result ≡ behind_kind state kind }
{
    if state.skipped == 0 {
        behind_written(state, kind)
    } else {
        behind_skipped(state, kind)
    }
}

// Behind a line that stays.
fn behind_written(state: State, kind: Kind) -> State
    ensures { result ≡ behind_written state kind }
{
    match kind {
        Kind::Chosen => of_counts(state, 0, deeper(state.opened)),
        Kind::Denied => of_counts(state, 1, state.opened),
        Kind::Otherwise => behind_opened(state, 1),
        Kind::Ended => behind_opened(state, 0),
        Kind::Defined => state,
        Kind::Plain => state,
        Kind::Included => behind_header(state),
        Kind::Unknown => lost(state),
        Kind::Turned => lost(state),
        Kind::Foreign => lost(state),
    }
}

// Behind a line that is left out.
fn behind_skipped(state: State, kind: Kind) -> State
    ensures { result ≡ behind_skipped state kind }
{
    match kind {
        Kind::Chosen => of_counts(state, deeper(state.skipped), state.opened),
        Kind::Denied => of_counts(state, deeper(state.skipped), state.opened),
        Kind::Unknown => of_counts(state, deeper(state.skipped), state.opened),
        Kind::Otherwise => behind_otherwise(state),
        Kind::Turned => behind_turned(state),
        Kind::Ended => of_counts(state, state.skipped.saturating_sub(1), state.opened),
        Kind::Defined => state,
        Kind::Plain => state,
        Kind::Included => state,
        Kind::Foreign => state,
    }
}

// Behind the `#else` of a condition whose lines are left out.
fn behind_otherwise(state: State) -> State
    ensures { result ≡ behind_skipped state kinds.Otherwise }
{
    if state.skipped == 1 {
        of_counts(state, 0, deeper(state.opened))
    } else {
        state
    }
}

// Behind the `#elif` of a condition whose lines are left out.
fn behind_turned(state: State) -> State
    ensures { result ≡ behind_skipped state kinds.Turned }
{
    if state.skipped == 1 {
        lost(state)
    } else {
        state
    }
}

// Behind the `#else` or the `#endif` of a condition whose lines stay.
fn behind_opened(state: State, skipped: usize) -> State
    ensures { result ≡ behind_opened state skipped }
{
    match state.opened.checked_sub(1) {
        Some(opened) => of_counts(state, skipped, opened),
        None => lost(state),
    }
}

fn of_counts(state: State, skipped: usize, opened: usize) -> State
    ensures { result ≡ of_counts state skipped opened }
{
    State {
        skipped,
        opened,
        is_sure: state.is_sure,
        has_unknown: state.has_unknown,
    }
}

// Behind a line that is not understood.
fn lost(state: State) -> State
    ensures { result ≡ lost state }
{
    State {
        skipped: state.skipped,
        opened: state.opened,
        is_sure: false,
        has_unknown: state.has_unknown,
    }
}

// Behind a header whose macros are not known.
fn behind_header(state: State) -> State
    ensures { result ≡ behind_header state }
{
    State {
        skipped: state.skipped,
        opened: state.opened,
        is_sure: state.is_sure,
        has_unknown: true,
    }
}

/// Keeps the macro that a line defines, if it does. The only error is out of memory.
pub(crate) fn keep_name(
    alloc: Global,
    names: &mut Seq<Meaning>,
    state: State,
    kind: Kind,
    line: &[Piece],
) -> AllocResult<()>
    ensures { OnOk result (names.new ≡ names_behind names.old state kind line.now) }
{
    if !defines(state, kind) {
        return Ok(());
    }
    let found = definition_of(alloc, line)?;
    names.push(found)
}

// Whether a macro is defined by a line of this kind.
fn defines(state: State, kind: Kind) -> bool
    ensures { result ≡ defines state kind }
{
    state.skipped == 0 && is_definition(kind)
}

fn is_definition(kind: Kind) -> bool
    ensures { result ≡ is_definition kind }
{
    match kind {
        Kind::Defined => true,
        _ => false,
    }
}

fn definition_of(alloc: Global, line: &[Piece]) -> AllocResult<Meaning>
    ensures { IfOk result (λ found. found ≡ definition_of line.now) }
{
    let name = Vec::from_slice(alloc, nth_text(1, line))?;
    let text = Vec::from_slice(alloc, single(line))?;
    Ok(Meaning {
        name: Seq::of(name),
        text: Seq::of(text),
    })
}

// The body of a macro, if it is one token.
fn single(line: &[Piece]) -> &[u8]
    ensures { result.now ≡ (if ends_at 3 line.now then nth_text 2 line.now else []) }
{
    if ends_at(3, line) {
        nth_text(2, line)
    } else {
        &[]
    }
}

/// Whether a line of this kind goes with its condition.
pub(crate) fn is_turn(kind: Kind) -> bool
    ensures { result ≡ is_turn kind }
{
    match kind {
        Kind::Chosen => true,
        Kind::Denied => true,
        Kind::Otherwise => true,
        Kind::Ended => true,
        _ => false,
    }
}
