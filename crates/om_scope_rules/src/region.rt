//! What a directive is as a construct, how constructs share the variables round them (OpenMP API 5.2,
//! section 5.1), and what statements in them may do.

use crate::names::Names;
use om_pragma::Sharing;

/// How a construct shares the variables round it.
#[derive(Clone, Copy)]
pub enum SharingKind {
    /// `parallel`.
    Parallel,
    /// `task`.
    Task,
    /// No construct, or one that shares all but its copies.
    Plain,
}

/// What a construct says of the variables round it.
#[derive(Drop)]
pub struct Region {
    pub kind: SharingKind,
    /// What its `default` says of those that no clause lists.
    pub default: Option<Sharing>,
    /// Those that it lists as shared.
    pub shared: Names,
}

/// Whether worksharing constructs and barriers may stand in a construct.
#[derive(Clone, Copy)]
pub enum Inside {
    /// They may.
    Opens,
    /// They may not.
    Closes,
    /// As outside of it.
    Keeps,
}

/// What a directive is as a construct.
#[derive(Clone, Copy)]
pub struct Traits {
    /// How it shares the variables round it.
    pub region: SharingKind,
    /// Whether it is a worksharing construct or a barrier.
    pub is_bound: bool,
    pub inside: Inside,
    /// Whether its statement is a loop.
    pub takes_loop: bool,
}

/// The statements round a place, as jumps and constructs see them.
#[derive(Clone, Copy)]
pub struct Flow {
    /// Whether a `break` ends a loop of the same construct.
    pub may_break: bool,
    /// Whether a `continue` goes on in a loop of the same construct, or in the loop that it is for.
    pub may_continue: bool,
    /// Whether the function returns an `int`.
    pub returns: bool,
    /// Whether a construct stands round the place, which a `return` would leave.
    pub in_construct: bool,
    /// Whether a region stands round it in which no worksharing construct and no barrier may stand.
    pub is_closed: bool,
    /// The byte of the source where the innermost `parallel` round it begins.
    pub parallel: Option<u32>,
}
