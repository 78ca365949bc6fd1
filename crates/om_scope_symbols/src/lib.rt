//! Names and rules: the symbol table: scopes, look-up of a name, what its use means, the constructs around a place.
//!
//! `Symbols` has the names in scope at a place, and what they are declared as (C17 6.2.1). It also says how
//! the constructs around that place share a variable (OpenMP API 5.2, section 5.1).
//!
//! - `name` says what a name means where it is used, and whether it may be used so. `listed` holds what the
//!   clauses of a directive list, and `construct` is the table of constructs.
//! - `table` is one scope, as a list of its declarations. A `Sighting` is a declaration with its depth: a
//!   look-up finds the innermost one by one search of one map.
//! - `nesting` has the constructs around a place. `stacks` keep for each name its declarations, and the
//!   constructs that list it as shared. No use looks at one construct after the other: `landmark` finds one
//!   by its depth.
//!
//! Cases: gate_cases, "== resolver".
#![tactic(auto)]

mod construct;
mod landmark;
mod listed;
mod name;
mod nesting;
mod stacks;
mod symbols;
mod table;

pub use construct::{constructing, traits_of};
pub use listed::Listed;
pub use name::{
    check_declared, is_copied_array, is_printf, is_scalar, misuse, refuse_if, resolve_array,
    resolve_callee, resolve_scalar,
};
pub use nesting::is_parallel;
pub use symbols::{Symbols, add_predeclared};
pub use table::Table;
