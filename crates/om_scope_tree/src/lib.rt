//! Names and rules: the types of the resolved tree; the variables that its parts use, and what a region captures.
//!
//! In a resolved tree (`Resolved`) each use of a name is its `Variable`: a global by its number, or a
//! variable of a function by its byte. Parentheses are gone, `++x` is `x += 1`, and each statement has the
//! span of its first token. No pass is in here: om_scope makes this tree, and lowering reads it.
//!
//! - `resolved` has the types. `captures` says what a `parallel` or a `task` takes from outside, and whether
//!   it shares or copies it.
//! - `uses` walks over the variables that a part of a tree uses, in the order of the text. What sees them is
//!   a `Sighting`. `found` is one that keeps what a region takes from outside, each variable once. The
//!   variables of a body are another one, in om_lower_rules.
//! - `specs/ResolvedTree` is the tree without the memory that it lies in, and `ResolvedView` the tree of a
//!   value. `Captures` says what regions take, and `Formats` which texts are formats of `printf`.
//! - `specs/Whole` says which trees are whole: what each part names is there, and of the kind that the part
//!   needs. `Weights` counts the parts that get a number when a tree is lowered.
//! - A new form adds a variant of its type, and a case of its view, of `uses`, and of `Captures`, `Weights`
//!   and `Whole`.
//!
//! Cases: gate_cases, "== resolver".
#![tactic(auto, using(crate::proofs::Auto::lemmas), unfolding(crate::proofs::Auto::definitions))]

mod captures;
mod found;
pub mod laws;
mod resolved;
pub mod uses;

pub use captures::{TaskSharing, captures_of_parallel, captures_of_task};
pub use resolved::{
    AtomicAccess, Capture, ConstructKind, CopyKind, GlobalVariable, LocalVariable, RegionKind,
    Resolved, ResolvedClause, ResolvedDeclarator, ResolvedExpression, ResolvedFunction,
    ResolvedHead, ResolvedLoop, ResolvedPart, ResolvedSchedule, ResolvedStart, ResolvedStatement,
    ResolvedUpdate, Shape, Side, StandAlone, Taking, UnaryOperator, UpdateOperator, Variable,
};
