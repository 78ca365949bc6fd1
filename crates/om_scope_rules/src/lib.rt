//! Names and rules: rules as definitions, laws; reads canonical loops, formats, `atomic` updates; orders refusals.
//!
//! What a reader must believe of resolving stands here. The rules are lists of breaches, and the resolution
//! is a function of the tree; both are in `specs/`. No pass is in here. The laws say that what breaks no rule
//! resolves, and to a whole tree.
//!
//! - `canonical` reads canonical loops; a `Direction` says how such a loop goes through its values. `print`
//!   reads formats, and `update` reads the updates of `atomic`. `place` says where a part begins, and
//!   `fault` which of two refusals is answered.
//! - What the passes share is here too. `Meaning` says what a name is declared as, `Region` and `Traits` what
//!   a construct is and how it shares variables. `Flow` has what statements may do at a place, `Names` is a
//!   set of names, and `limits` has the limits on numbers.
//! - `specs/Scopes` and `Sharing` say what a name means. `ExpressionRules`, `DirectiveRules`,
//!   `StatementRules`, `UnitRules` and `Breaches` have the rules in the order of the text. `Resolution`,
//!   `StatementResolution` and `UnitResolution` have the resolved tree. `Loops`, `Formats`, `Places` and
//!   `Updates` say how forms are read.
//! - A global is known by its number, and a variable of a function by the byte where it is declared or
//!   listed.
//! - `Checks` says what the check of a part answers: its first breach, unless memory ran out. `Resolves` says
//!   what resolving it answers: that, or its resolution. `Proper` says what is asked of a tree.
//! - `laws` has the laws, of which `WholeLaws`, `PlaceLaws` and `WeightLaws` say more. `InRow`,
//!   `ProperConstructs` and `NameKeys` hold lemmas for proofs only.
//! - A new rule adds a part to a `.._breaches`. A new form adds a case there and in `resolved_..`; a new
//!   place for declarations adds an `after_..`.
//!
//! Cases: gate_cases, "== resolver".
#![tactic(auto)]

mod canonical;
mod fault;
pub mod laws;
mod limits;
mod names;
mod place;
mod print;
mod region;
mod update;

pub use canonical::{Direction, Loop, LoopStart, Step, loop_in};
pub use fault::{loop_fault, refuse_among};
pub use limits::{
    FUNCTION_LIMIT, GLOBAL_CELL_LIMIT, PARAMETER_LIMIT, PRINTED_LIMIT, SECTION_LIMIT,
};
pub use names::{Meaning, Names, Signature};
pub use place::{expression_first, expression_start, head_first, statement_first, statement_start};
pub use print::{Reading, is_format};
pub use region::{Flow, Inside, Region, SharingKind, Traits};
pub use update::{statement_side, update_of};
